ghost use Rattle.std.specs.Prelude.{◌≡◌, OnErr, OnOk};
ghost use Rattle.line_text.specs.Appended.{KeepsFront};
ghost use Rattle.script_run.specs.Player.{IsOverWith, WritesLastWith};

use super::Player;
use crate::callbacks::Callbacks;
use damon_world::Jump;
use line_text::whole_or_nothing;
use snapshot_print::print_end;
use std::alloc::{AllocError, Global};

impl<R: Jump + Drop, C: Callbacks + Drop> Player<R, C> {
    /// Appends the last line of the report and the lines of callbacks after it, after the last event. Where
    /// memory runs out, nothing is appended.
    pub fn finish(self, alloc: Global, out: &mut Vec<u8>) -> Result<(), AllocError>
        requires { IsOverWith R.stream C.callbacks C.stands_for self }
        ensures last { OnOk result (WritesLastWith R.stream C.callbacks C.stands_for self
            out.old.items out.new.items) }
        ensures err { OnErr result (out.new.items ≡ out.old.items) }
    {
        self.write_last(alloc, out)
    }

    // The same, but that where memory runs out, some of the text may have been appended.
    fn append_last(&self, alloc: Global, out: &mut Vec<u8>) -> Result<(), AllocError>
        ensures last { OnOk result (WritesLastWith R.stream C.callbacks C.stands_for self.now
            out.old.items out.new.items) }
        ensures err { OnErr result (KeepsFront out.old.items out.new.items) }
    {
        print_end(alloc, out, self.form, self.world.monitor())?;
        self.callbacks.append_end(alloc, out, self.world.monitor())
    }

    /// Appends the last line of the report and the lines of callbacks after it, for the events so far. Where
    /// memory runs out, nothing is appended.
    pub fn write_last(&self, alloc: Global, out: &mut Vec<u8>) -> Result<(), AllocError>
        ensures last { OnOk result (WritesLastWith R.stream C.callbacks C.stands_for self.now
            out.old.items out.new.items) }
        ensures err { OnErr result (out.new.items ≡ out.old.items) }
    {
        let before = out.len();
        let appended = self.append_last(alloc, out);
        whole_or_nothing(out, before, appended)
    }
}
