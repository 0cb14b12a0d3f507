use super::Player;
use crate::callbacks::Callbacks;
use damon_world::Jump;
use std::alloc::{AllocError, Global};
use text_io::{Filled, TextSource};

// The report of the script, with its last line and the lines of callbacks after it.
impl<R: Jump + Drop, C: Callbacks + Drop> TextSource for Player<R, C> {
    ghost use Rattle.script_run.specs.Player.{left_moves};
    ghost use Rattle.script_run.specs.Way.{IsLeftWith};

    ghost left = { λ p text. IsLeftWith R.stream C.callbacks C.stands_for p text };

    ghost steps = { λ p. left_moves p };

    fn fill(&mut self, alloc: Global, out: &mut Vec<u8>) -> Result<Filled, AllocError> {
        match self.fill(alloc, out)? {
            Filled::Piece => Ok(Filled::Piece),
            Filled::End => {
                self.write_last(alloc, out)?;
                Ok(Filled::End)
            }
        }
    }
}
