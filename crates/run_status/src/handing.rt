// Handing over a text, and the status where that fails.
ghost use Rattle.std.specs.Prelude.{ℕ, List, IfErr, IsErrOf, OnOk};
ghost use Rattle.std.specs.Io.KnownBytes.{Appends};
ghost use Rattle.damon_types.specs.Calls.{EndsAtFault};
ghost use Rattle.text_io.specs.Taken.{WritesPart};
ghost use Rattle.run_status.specs.Status.{EndsRun};

use crate::status::Status;
use damon_types::Sink;
use std::alloc::Global;
use text_io::{TextSource, pump};

/// Hands a text to the sink, a piece at a time. After a failure the sink is left alone.
pub fn hand_over<T: TextSource, K: Sink>(
    alloc: Global,
    source: &mut T,
    sink: &mut K,
) -> Result<(), Status>
    ensures all { OnOk result ((text : List ℕ) → T.left source.old text
        → Appends (K.taken sink.old) (K.taken sink.new) text) }
    ensures answers { IfErr result EndsRun }
    ensures writes { EndsAtFault (IsErrOf result Status.WriteFault)
        (K.calls sink.old) (K.calls sink.new) }
    ensures part { (text : List ℕ) → T.left source.old text
        → WritesPart (K.taken sink.old) (K.taken sink.new) text }
{
    pump(alloc, source, sink)?;
    Ok(())
}
