ghost use Rattle.std.specs.Prelude.{◌≡◌, ◌≤◌, [], true, IfOk, OnErr, OnOk, length};
ghost use Rattle.rand_core.specs.Steps.{stream_of, steps_u32};
ghost use Rattle.rand_pcg.specs.Pcg.{pcg32};
ghost use Rattle.damon_types.specs.Space.{pages_of};
ghost use Rattle.script_lines.specs.Command.{work_of};
ghost use Rattle.script_lines.specs.Limits.{AreCommandsWithin};
ghost use Rattle.damon_control.specs.ScriptView.{said_by};
ghost use Rattle.line_text.specs.Appended.{KeepsFront};
ghost use Rattle.script_run.specs.Kept.{StandSomewhere};
ghost use Rattle.script_run.specs.Parts.{is_done};
ghost use Rattle.script_run.specs.Played.{HasPlayed, PlaysNextWith};

use super::{Player, make_player};
use crate::callbacks::{Callbacks, NoCallbacks};
use crate::part::is_done;
use damon_control::{MAX_WORK, Script};
use damon_world::Jump;
use line_text::whole_or_nothing;
use rand_pcg::Lcg64Xsh32;
use snapshot_print::Form;
use std::alloc::{AllocError, Global};

impl<R: Jump + Drop, C: Callbacks + Drop> Player<R, C> {
    /// Plays the next command, all of it and no other, and appends exactly its text to `out`. There must be
    /// a next command, and nothing left of the one before. Takes memory for the text. Where it runs out,
    /// nothing is appended, and no more is known of the player.
    pub fn play_next(&mut self, alloc: Global, out: &mut Vec<u8>) -> Result<(), AllocError>
        requires done { is_done self.old.part self.old.world.monitor.core.phase ≡ true }
        requires some { 1 ≤ length self.old.later }
        ensures next { OnOk result (PlaysNextWith R.stream C.callbacks C.stands_for self.old self.new
            out.old.items out.new.items) }
        ensures err { OnErr result (out.new.items ≡ out.old.items) }
    {
        let before = out.len();
        let played = self.play_all(alloc, out);
        whole_or_nothing(out, before, played)
    }

    // The same, but that where memory runs out, some of the text may have been appended.
    fn play_all(&mut self, alloc: Global, out: &mut Vec<u8>) -> Result<(), AllocError>
        requires done { is_done self.old.part self.old.world.monitor.core.phase ≡ true }
        requires some { 1 ≤ length self.old.later }
        ensures next { OnOk result (PlaysNextWith R.stream C.callbacks C.stands_for self.old self.new
            out.old.items out.new.items) }
        ensures err { OnErr result (KeepsFront out.old.items out.new.items) }
    {
        // For its clause alone: what is appended is the text of events from where the player stands.
        self.stand();
        self.start(alloc, out)?;
        'moves: loop {
            let phase = self.world.monitor().phase();
            if is_done(self.part, phase) {
                return Ok(());
            }
            self.play(alloc, out, phase)?;
        }
    }

    // The player stands somewhere.
    fn stand(&self)
        ensures { StandSomewhere R.stream C.stands_for self.now.world self.now.callbacks }
    {
        // For the invariant of the type.
        let _cap = self.cap;
    }
}

/// A player before the first command of a script, whose commands are played one after another. Its random
/// words are those of the script's seed. The pages of the commands are pages of the script's space, and
/// their work is at most [`MAX_WORK`]. Takes memory.
pub fn open_waiting(
    alloc: Global,
    script: Script,
    form: Form,
) -> Result<Player<Lcg64Xsh32, NoCallbacks>, AllocError>
    requires within { AreCommandsWithin (pages_of script.setup.space) script.commands.list }
    requires work { work_of script.setup.cap script.commands.list ≤ MAX_WORK }
    ensures { IfOk result (λ p.
        HasPlayed (stream_of (steps_u32 pcg32)) (said_by script) form [] p []) }
{
    make_player(alloc, script, form, NoCallbacks)
}
