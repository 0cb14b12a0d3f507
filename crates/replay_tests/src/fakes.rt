// A sink that tells how it was used.
ghost use Rattle.std.specs.Prelude.{◌≡◌, ◌≤◌, None, length};

use damon_types::{Calls, Failed, Sink};
use std::alloc::{AllocError, Global};

// Takes at most a piece a call, and keeps the sizes of what was handed over.
#[derive(Drop)]
pub struct KeptSink {
    piece: usize,
    pub taken: Vec<u8>,
    pub handed: Vec<usize>,
    calls: Calls,
}

impl KeptSink {
    pub fn new(alloc: Global, piece: usize) -> KeptSink {
        KeptSink {
            piece,
            taken: Vec::new(alloc),
            handed: Vec::new(alloc),
            calls: Calls::new(),
        }
    }

    // Keeps the first `count` bytes of a piece that was handed over.
    fn keep(&mut self, piece: &[u8], count: usize) -> Result<(), AllocError>
        requires { count ≤ length piece.now }
        ensures { self.new.calls ≡ self.old.calls }
    {
        self.handed.push(piece.len())?;
        self.taken.extend_from_slice(&piece[..count])
    }
}

impl Sink for KeptSink {
    ghost taken = { λ _. None };

    ghost calls = { λ s. s.calls };

    fn write(&mut self, piece: &[u8]) -> Result<usize, Failed> {
        let count = piece.len().min(self.piece);
        let fails = count == 0 || self.keep(piece, count).is_err();
        self.calls.count(fails);
        if fails {
            return Err(Failed);
        }
        Ok(count)
    }
}
