// The heat tables of a journal.
ghost use Rattle.std.specs.Prelude.{◌≡◌, ◌≤◌, ◌<◌, ◌++◌, ◌∷◌, [], List, Ok, true, false, flat_map, IfErr, IfOk, IsErrOf, OnErr, OnOk};
ghost use Rattle.std.specs.Io.KnownBytes.{Appends};
ghost use Rattle.damon_types.specs.Calls.{EndsAtFault};
ghost use Rattle.damon_types.specs.RowPages.{working_set};
ghost use Rattle.damon_core.specs.Stands.{Stands};
ghost use Rattle.damon_core.specs.State.{State};
ghost use Rattle.journal_check.specs.Replayer.{Leads, StandsForReached};
ghost use Rattle.run_status.specs.Status.{EndsRun, status_of};
ghost use Rattle.text_io.specs.Taken.{WritesPart};
ghost use Rattle.damon_app.specs.Answers.{IsOutcome, IsRunRefused, IsRunTaken, ends_of};
ghost use Rattle.damon_app.specs.Heating.{WritesNext, columns_in, tables_of, tables_text};
ghost use Rattle.damon_app.specs.declared.request.Request.TheVariants.{Heat as heat};

use crate::laws::heat_tables_add_up;
use crate::pieces::hand_over;
use crate::request::Columns;
use damon_core::Monitor;
use damon_types::{Sink, Source};
use heat_report::{Sizes, working_set, write_last, write_report};
use journal_check::Replayer;
use run_status::Status;
use std::alloc::{AllocError, Global};
use text_io::{INPUT_LIMIT, read_all, write_all};

// Reads the text of a journal, checks it, and hands its heat tables to the sink a piece at a time.
pub(crate) fn show_heat<S: Source, K: Sink>(
    alloc: Global,
    columns: Columns,
    source: &mut S,
    sink: &mut K,
) -> Result<(), Status>
    ensures { IsOutcome INPUT_LIMIT (heat columns)
        (ends_of S.left S.calls source.old) (ends_of S.left S.calls source.new)
        (ends_of K.taken K.calls sink.old) (ends_of K.taken K.calls sink.new)
        (sink.new ≡ sink.old) (status_of result) }
{
    let mut replayer = take_run(alloc, source)?;
    write_tables_in(alloc, columns, &mut replayer, sink)?;
    Ok(())
}

// Reads a source to its end, and returns the replay of the lawful journal of which its bytes are the text.
fn take_run<S: Source>(alloc: Global, source: &mut S) -> Result<Replayer, Status>
    ensures taken { IfOk result (IsRunTaken INPUT_LIMIT
        (ends_of S.left S.calls source.old) (ends_of S.left S.calls source.new)) }
    ensures refused { IfErr result (IsRunRefused INPUT_LIMIT
        (ends_of S.left S.calls source.old) (ends_of S.left S.calls source.new)) }
{
    // For its clause alone: the numbers of the tables add up.
    heat_tables_add_up();
    let bytes = read_all(alloc, source)?;
    let replayer = Replayer::new(alloc, &bytes)?;
    Ok(replayer)
}

// Hands the tables of a replay with this many columns to the sink.
fn write_tables_in<K: Sink>(
    alloc: Global,
    columns: Columns,
    replayer: &mut Replayer,
    sink: &mut K,
) -> Result<(), Status>
    ensures all { OnOk result ((states : List State) (last : State) → Leads states last replayer.old
        → Appends (K.taken sink.old) (K.taken sink.new) (tables_text (columns_in columns) states)) }
    ensures answers { IfErr result EndsRun }
    ensures writes { EndsAtFault (IsErrOf result Status.WriteFault)
        (K.calls sink.old) (K.calls sink.new) }
    ensures part { (states : List State) (last : State) → Leads states last replayer.old
        → WritesPart (K.taken sink.old) (K.taken sink.new) (tables_text (columns_in columns) states) }
{
    match columns {
        Columns::Eight => write_tables::<8, K>(alloc, replayer, sink),
        Columns::Sixteen => write_tables::<16, K>(alloc, replayer, sink),
        Columns::SixtyFour => write_tables::<64, K>(alloc, replayer, sink),
    }
}

// The same with the number of columns as a constant parameter.
fn write_tables<const N: usize, K: Sink>(
    alloc: Global,
    replayer: &mut Replayer,
    sink: &mut K,
) -> Result<(), Status>
    requires some { 1 ≤ N }
    requires few { N ≤ 4096 }
    ensures all { OnOk result ((states : List State) (last : State) → Leads states last replayer.old
        → Appends (K.taken sink.old) (K.taken sink.new) (tables_text N states)) }
    ensures answers { IfErr result EndsRun }
    ensures writes { EndsAtFault (IsErrOf result Status.WriteFault)
        (K.calls sink.old) (K.calls sink.new) }
    ensures part { (states : List State) (last : State) → Leads states last replayer.old
        → WritesPart (K.taken sink.old) (K.taken sink.new) (tables_text N states) }
{
    let mut sizes = Sizes::new(alloc);
    let mut piece = Vec::new(alloc);
    'reports: while write_next::<N, K>(replayer, &mut sizes, &mut piece, sink)? {}
    write_last(&mut sizes, &mut piece)?;
    write_all(sink, &piece)?;
    Ok(())
}

// Carries a replay out to its next aggregation, and appends the tables of its report to the piece, which is
// handed over once it is large enough. False where no aggregation is left.
fn write_next<const N: usize, K: Sink>(
    replayer: &mut Replayer,
    sizes: &mut Sizes,
    piece: &mut Vec<u8>,
    sink: &mut K,
) -> Result<bool, Status>
    requires some { 1 ≤ N }
    requires few { N ≤ 4096 }
    ensures on { result ≡ Ok true → WritesNext N
        (record {
          replay = replayer.old;
          sizes = sizes.old;
          piece = piece.old.items;
          taken = K.taken sink.old;
        })
        (record {
          replay = replayer.new;
          sizes = sizes.new;
          piece = piece.new.items;
          taken = K.taken sink.new;
        }) }
    ensures less { result ≡ Ok true → replayer.new.left < replayer.old.left }
    ensures end { result ≡ Ok false → (states : List State) (last : State)
        → Leads states last replayer.old → states ≡ [] }
    ensures same { result ≡ Ok false → (sizes.new ≡ sizes.old)
        × (piece.new.items ≡ piece.old.items) × (sink.new ≡ sink.old) }
    ensures answers { IfErr result EndsRun }
    ensures writes { EndsAtFault (IsErrOf result Status.WriteFault)
        (K.calls sink.old) (K.calls sink.new) }
    ensures part { OnErr result ((states : List State) (last : State) → Leads states last replayer.old
        → WritesPart (K.taken sink.old) (K.taken sink.new)
        (piece.old.items ++ flat_map (tables_of N) states)) }
{
    let Some(tick) = replayer.next() else {
        return Ok(false);
    };
    write_one::<N>(tick, replayer.monitor(), sizes, piece)?;
    hand_over(sink, piece)?;
    Ok(true)
}

// Appends the tables of the report of a monitor directly after an aggregation, and its working set.
fn write_one<const N: usize>(
    tick: u64,
    monitor: &Monitor,
    sizes: &mut Sizes,
    out: &mut Vec<u8>,
) -> Result<(), AllocError>
    requires some { 1 ≤ N }
    requires few { N ≤ 4096 }
    requires state { StandsForReached monitor.now }
    ensures tables { OnOk result ((s : State) → Stands monitor.now s → tick ≡ s.core.ticks
        → out.new.items ≡ out.old.items ++ tables_of N s) }
    ensures sizes { OnOk result ((s : State) → Stands monitor.now s
        → sizes.new ≡ sizes.old ++ working_set s.core.report.rows ∷ []) }
{
    let rows = &monitor.report().rows;
    write_report::<N>(tick, rows, monitor.space(), monitor.attrs().aggr, out)?;
    sizes.push(working_set(rows))
}
