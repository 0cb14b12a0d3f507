ghost use Rattle.std.specs.Prelude.{ℕ, ◌≡◌, ◌≢◌, ◌↔◌, ◌≤◌, ◌<◌, ◌+◌, true, None, Ok, Some, IfErr, IfNone, IfOk, IfSome, IsErrOf, IsSome, OnOk};
ghost use Rattle.std.specs.Io.KnownBytes.{Appends, IsAtEnd};
ghost use Rattle.damon_types.specs.Calls.{EndsAtFault, Rose};
ghost use Rattle.damon_core.specs.Stands.{Stands};
ghost use Rattle.damon_control.specs.LiveText.{KeepsLimits};
ghost use Rattle.damon_control.specs.LiveView.{live_said};
ghost use Rattle.damon_control.specs.Script.{live_of};
ghost use Rattle.text_io.specs.Given.{GaveOver};
ghost use Rattle.text_io.specs.Taken.{WritesPart};
ghost use Rattle.run_journal.specs.Lawful.{receipts_said};
ghost use Rattle.run_journal.specs.Replay.{check_sizes, replay};
ghost use Rattle.journal_text.specs.Rules.{IsReadBack};
ghost use Rattle.run_status.specs.Status.{EndsRun, IsRead, IsUnwritten};
ghost use Rattle.journal_text.specs.Text.{journal_text};
ghost use Rattle.damon_live.specs.Answers.{IsEnding, IsRefused, IsTaken};
ghost use Rattle.damon_live.specs.Ending.{HasRun, IsExpected, NothingRan, TellsFault, TellsPasses, asks_run, ended_early, ending, most_results};
ghost use Rattle.damon_live.specs.Whole.{IsWholeRun, TracesAreInSpace};

use crate::ends::AloneRun;
use crate::laws::whole_runs_are_read_back;
use crate::pace::Pace;
use crate::threads::run_threads;
use damon_control::{LiveScript, read_live};
use damon_types::{PlainList, Sink, Source};
use journal_text::TextParts;
use run_journal::{Journal, Receipts};
use run_status::Status;
use std::alloc::Global;
use std::sync::Wait;
use std::thread::Threads;
use text_io::{INPUT_LIMIT, read_all};

/// The most results of loads that a journal keeps: the passes of a script times its `cap`.
pub const MAX_RESULTS: u32 = 4_194_304;

/// What a run of the program ended with.
#[derive(Drop)]
pub struct LiveEnd {
    pub status: Status,
    /// The script that was carried out, if one was.
    pub script: Option<LiveScript>,
    /// The journal of its run, else an empty one.
    pub journal: Journal,
    /// The receipts of each of its workers, else none.
    pub receipts: Receipts,
}

/// Does all of the program `damond`. For the word `run` it reads a live script to its end, carries it out in
/// threads, and writes the text of its journal once they have ended. It may wait, and what it promises
/// holds if it returns.
pub fn live_main<R: Threads + Wait + Sync, S: Source, K: Sink, P: Pace + Sync>(
    rt: &R,
    alloc: Global,
    words: &[String],
    source: &mut S,
    sink: &mut K,
    pace: &P,
) -> LiveEnd
    // Where a script was carried out, it is the one that was read, and the journal and the receipts are those
    // of a whole run of it; else both are empty. A status that comes before the run comes with no script.
    ensures run { IfSome (ending result).script (λ v.
        IsWholeRun v (ending result).journal (ending result).receipts) }
    ensures script { IfSome (ending result).script (λ v.
        IfSome (S.left source.old) (λ bytes. live_of bytes ≡ Ok v)) }
    ensures ran { HasRun result.status → IsSome (ending result).script }
    ensures none { IfNone (ending result).script (NothingRan (ending result)) }
    ensures early { IsUnwritten result.status → (ending result).script ≡ None }

    // What was written is the text of the journal and the receipts that are returned, in any case a prefix
    // of it, and nothing where no script was carried out.
    ensures ok { result.status ≡ Status.Ok → IfSome (ending result).script (λ v.
        Appends (K.taken sink.old) (K.taken sink.new)
        (journal_text v (ending result).journal (ending result).receipts)) }
    ensures part { IfSome (ending result).script (λ v.
        WritesPart (K.taken sink.old) (K.taken sink.new)
        (journal_text v (ending result).journal (ending result).receipts)) }
    ensures unwritten { IfNone (ending result).script (sink.new ≡ sink.old) }

    // The text of the run is read as a journal: the one that is returned, with its receipts.
    ensures back { IfSome (ending result).script (λ v.
        IsReadBack v (ending result).journal (ending result).receipts) }

    // The status is the one that is expected, or a failure.
    ensures complete { IsExpected (asks_run words.now) result.status INPUT_LIMIT (S.left source.old)
        (Rose (S.calls source.old) (S.calls source.new))
        (Rose (K.calls sink.old) (K.calls sink.new)) }

    // When each other status comes; memory may run out at any time, and `Unlawful` never comes.
    ensures comes { (line : ℕ) → result.status ≢ Status.Unlawful line }
    ensures usage { (result.status ≡ Status.Usage) ↔ (asks_run words.now ≢ true) }
    ensures too_long { result.status ≢ Status.Memory → IsSome (S.left source.old) →
        (result.status ≡ Status.TooLong) ↔ GaveOver INPUT_LIMIT (S.left source.old) (S.left source.new) }
    ensures fault { asks_run words.now ≡ true → IsRead result.status →
        IfSome (S.left source.old) (TellsFault result.status) }
    ensures passes { asks_run words.now ≡ true → IsRead result.status →
        IfSome (S.left source.old) (TellsPasses result.status) }

    // How the source and the sink were called: a read or a write that fails is the last one, and the status
    // says so. Otherwise none failed. Each read but the last gives a byte.
    ensures reads { EndsAtFault (result.status ≡ Status.ReadFault)
        (S.calls source.old) (S.calls source.new) }
    ensures calls { (S.calls source.new).made ≤ (S.calls source.old).made + (INPUT_LIMIT + 1) }
    ensures writes { EndsAtFault (result.status ≡ Status.WriteFault)
        (K.calls sink.old) (K.calls sink.new) }

    // What was read.
    ensures end { asks_run words.now ≡ true → IsRead result.status → IsAtEnd (S.left source.new) }
    ensures unread { asks_run words.now ≢ true → source.new ≡ source.old }
{
    serve(Host { rt, pace }, alloc, words, source, sink)
}

// What the threads of a run take from outside: how they are made and wait, and what holds them.
#[derive(Drop)]
struct Host<'a, R, P> {
    rt: &'a R,
    pace: &'a P,
}

// Does what the words ask for.
fn serve<R: Threads + Wait + Sync, S: Source, K: Sink, P: Pace + Sync>(
    host: Host<R, P>,
    alloc: Global,
    words: &[String],
    source: &mut S,
    sink: &mut K,
) -> LiveEnd
    ensures { IsEnding INPUT_LIMIT (asks_run words.now)
        (record { bytes = S.left source.old; calls = S.calls source.old })
        (record { bytes = S.left source.new; calls = S.calls source.new })
        (record { bytes = K.taken sink.old; calls = K.calls sink.old })
        (record { bytes = K.taken sink.new; calls = K.calls sink.new })
        (source.new ≡ source.old) (sink.new ≡ sink.old) (ending result) }
{
    whole_runs_are_read_back();
    if !asks_run(words) {
        return end_early(alloc, Status::Usage);
    }
    match carry_out(host, alloc, source) {
        Ok(run) => {
            let status = Status::from(hand_over(alloc, &run, sink));
            end_run(status, run)
        }
        Err(status) => end_early(alloc, status),
    }
}

// Whether the words ask for a run.
fn asks_run(words: &[String]) -> bool
    ensures { result ≡ asks_run words.now }
{
    match words {
        [word] => word.as_bytes() == b"run".as_slice(),
        _ => false,
    }
}

// The end where no script was carried out.
fn end_early(alloc: Global, status: Status) -> LiveEnd
    ensures { ending result ≡ ended_early status }
{
    LiveEnd {
        status,
        script: None,
        journal: Journal::empty(alloc),
        receipts: PlainList::new(alloc),
    }
}

// The end of a run.
fn end_run(status: Status, run: AloneRun) -> LiveEnd
    ensures { ending result ≡ record {
      status = status;
      script = Some (live_said run.script);
      journal = run.journal.value;
      receipts = receipts_said run.receipts;
    } }
{
    let AloneRun {
        script,
        journal,
        receipts,
        monitor: _,
    } = run;
    LiveEnd {
        status,
        script: Some(script),
        journal,
        receipts,
    }
}

// Reads a live script to its end and carries it out.
fn carry_out<R: Threads + Wait + Sync, S: Source, P: Pace + Sync>(
    host: Host<R, P>,
    alloc: Global,
    source: &mut S,
) -> Result<AloneRun, Status>
    ensures taken { IfOk result (λ run. IsTaken INPUT_LIMIT
        (record { bytes = S.left source.old; calls = S.calls source.old })
        (record { bytes = S.left source.new; calls = S.calls source.new })
        (live_said run.script)) }
    ensures few { IfOk result (λ run. most_results (live_said run.script) ≤ MAX_RESULTS) }
    ensures run { IfOk result (λ run.
        IsWholeRun (live_said run.script) run.journal.value (receipts_said run.receipts)) }
    ensures stands { IfOk result (λ run.
        Stands run.monitor (replay (live_said run.script) run.journal.value).state) }
    ensures sizes { IfOk result (λ run.
        run.journal.checked ≡ check_sizes (live_said run.script) run.journal.value) }
    ensures refused { IfErr result (IsRefused INPUT_LIMIT
        (record { bytes = S.left source.old; calls = S.calls source.old })
        (record { bytes = S.left source.new; calls = S.calls source.new })) }
{
    let script = take_script(alloc, source)?;
    let run = run_threads(host.rt, alloc, script, host.pace)?;
    Ok(run)
}

// Reads a source to its end, and returns the live script that its bytes spell. The bytes are dropped at the
// end of this function.
fn take_script<S: Source>(alloc: Global, source: &mut S) -> Result<LiveScript, Status>
    ensures taken { IfOk result (λ script. IsTaken INPUT_LIMIT
        (record { bytes = S.left source.old; calls = S.calls source.old })
        (record { bytes = S.left source.new; calls = S.calls source.new })
        (live_said script)) }
    ensures limits { IfOk result (λ script. KeepsLimits (live_said script)) }
    ensures pages { IfOk result (λ script. TracesAreInSpace script) }
    ensures few { IfOk result (λ script. most_results (live_said script) ≤ MAX_RESULTS) }
    ensures refused { IfErr result (IsRefused INPUT_LIMIT
        (record { bytes = S.left source.old; calls = S.calls source.old })
        (record { bytes = S.left source.new; calls = S.calls source.new })) }
{
    let bytes = read_all(alloc, source)?;
    let script = read_live(alloc, &bytes)?;
    check_passes(&script)?;
    Ok(script)
}

// Whether a journal has room for the results of all passes of a script.
fn check_passes(script: &LiveScript) -> Result<(), Status>
    ensures ok { OnOk result (most_results (live_said script.now) ≤ MAX_RESULTS) }
    ensures err { IfErr result (λ status.
        (status ≡ Status.TooManyPasses script.now.passes script.now.setup.cap)
        × (MAX_RESULTS < most_results (live_said script.now))) }
{
    let (passes, cap) = (script.passes, script.setup.cap);
    if u64::from(passes) * u64::from(cap) <= u64::from(MAX_RESULTS) {
        Ok(())
    } else {
        Err(Status::TooManyPasses { passes, cap })
    }
}

// Hands the text of a run to the sink, a piece at a time.
fn hand_over<K: Sink>(alloc: Global, run: &AloneRun, sink: &mut K) -> Result<(), Status>
    requires run { IsWholeRun (live_said run.now.script) run.now.journal.value
        (receipts_said run.now.receipts) }
    requires stands { Stands run.now.monitor (replay (live_said run.now.script) run.now.journal.value).state }
    requires sizes { run.now.journal.checked
        ≡ check_sizes (live_said run.now.script) run.now.journal.value }
    ensures all { OnOk result (Appends (K.taken sink.old) (K.taken sink.new)
        (journal_text (live_said run.now.script) run.now.journal.value (receipts_said run.now.receipts))) }
    ensures answers { IfErr result EndsRun }
    ensures writes { EndsAtFault (IsErrOf result Status.WriteFault)
        (K.calls sink.old) (K.calls sink.new) }
    ensures part { WritesPart (K.taken sink.old) (K.taken sink.new)
        (journal_text (live_said run.now.script) run.now.journal.value (receipts_said run.now.receipts)) }
{
    let mut parts = TextParts::new(&run.script, &run.journal, &run.receipts, &run.monitor);
    run_status::hand_over(alloc, &mut parts, sink)
}
