// What several contexts say.
ghost use Rattle.std.specs.Prelude.{◌≡◌, IfErr, IfOk, IsErrOf, OnOk};
ghost use Rattle.std.specs.Io.KnownBytes.{Appends};
ghost use Rattle.damon_types.specs.Calls.{EndsAtFault};
ghost use Rattle.damon_admin.specs.Admin.{left_text};
ghost use Rattle.run_status.specs.Status.{EndsRun, status_of};
ghost use Rattle.text_io.specs.Taken.{WritesPart};
ghost use Rattle.damon_app.specs.Answers.{AreContextsTaken, IsOutcome, IsRefused, ends_of};
ghost use Rattle.damon_app.specs.declared.request.Request.TheVariants.{Admin as admin};

use damon_admin::Admin;
use damon_types::{Sink, Source};
use run_status::{Status, hand_over};
use std::alloc::Global;
use text_io::{INPUT_LIMIT, read_all};

// Reads the lines of several contexts, and hands what these say to the sink a piece at a time.
pub(crate) fn run_contexts<S: Source, K: Sink>(
    alloc: Global,
    source: &mut S,
    sink: &mut K,
) -> Result<(), Status>
    ensures { IsOutcome INPUT_LIMIT admin
        (ends_of S.left S.calls source.old) (ends_of S.left S.calls source.new)
        (ends_of K.taken K.calls sink.old) (ends_of K.taken K.calls sink.new)
        (sink.new ≡ sink.old) (status_of result) }
{
    let mut contexts = take_contexts(alloc, source)?;
    write_output(alloc, &mut contexts, sink)?;
    Ok(())
}

// Reads a source to its end, and returns the contexts of which its bytes are the lines.
fn take_contexts<S: Source>(alloc: Global, source: &mut S) -> Result<Admin, Status>
    ensures taken { IfOk result (AreContextsTaken INPUT_LIMIT
        (ends_of S.left S.calls source.old) (ends_of S.left S.calls source.new)) }
    ensures refused { IfErr result (IsRefused INPUT_LIMIT admin
        (ends_of S.left S.calls source.old) (ends_of S.left S.calls source.new)) }
{
    let bytes = read_all(alloc, source)?;
    let contexts = Admin::of(alloc, bytes)?;
    Ok(contexts)
}

// Does all lines that are left, and hands what they write to the sink.
fn write_output<K: Sink>(alloc: Global, contexts: &mut Admin, sink: &mut K) -> Result<(), Status>
    ensures all { OnOk result
        (Appends (K.taken sink.old) (K.taken sink.new) (left_text contexts.old)) }
    ensures answers { IfErr result EndsRun }
    ensures writes { EndsAtFault (IsErrOf result Status.WriteFault)
        (K.calls sink.old) (K.calls sink.new) }
    ensures part { WritesPart (K.taken sink.old) (K.taken sink.new) (left_text contexts.old) }
{
    hand_over(alloc, contexts, sink)
}
