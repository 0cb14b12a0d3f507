// The end of a run, once no thread but this one is left.
ghost use Rattle.std.specs.Prelude.{◌≡◌, ◌-◌, ◌≤◌, ◌++◌, [], length, map, vec_len};
ghost use Rattle.damon_core.specs.Stands.{Stands};
ghost use Rattle.run_journal.specs.Lawful.{gathers, receipts_said};
ghost use Rattle.run_journal.specs.Replay.{check_sizes, replay};
ghost use Rattle.damon_live.specs.Whole.{AreAllMade, AreInSpace, IsWholeRun, pages_touched};
ghost use Rattle.damon_live.specs.Work.{AreNumbered, IsGathered};

use crate::kept::{Kept, KeptParts};
use crate::named::Named;
use crate::work::Done;
use damon_control::LiveScript;
use damon_core::Monitor;
use page_words::{MonitorSeat, PageWords};
use run_journal::{Journal, Receipts};

/// A whole run: its script, its journal and receipts, and the monitor after it.
#[derive(Drop)]
pub struct AloneRun {
    pub script: LiveScript,
    pub journal: Journal,
    pub receipts: Receipts,
    pub monitor: Monitor,
}

/// A whole run beside its script: its journal and receipts, and the monitor after it.
#[derive(Drop)]
pub(crate) struct Ended {
    pub journal: Journal,
    pub receipts: Receipts,
    pub monitor: Monitor,
}

/// A run together with the script that it carried out.
pub(crate) fn with_script(script: LiveScript, ended: Ended) -> AloneRun
    ensures { result ≡ record {
      script = script;
      journal = ended.journal;
      receipts = ended.receipts;
      monitor = ended.monitor;
    } }
{
    let Ended {
        journal,
        receipts,
        monitor,
    } = ended;
    AloneRun {
        script,
        journal,
        receipts,
        monitor,
    }
}

/// Gathers the seats of all workers, and settles the words. Takes no memory.
pub(crate) fn end_run<N: Named>(
    words: PageWords,
    kept: Kept<'_, N>,
    made: Vec<Done<N>>,
    mut receipts: Receipts,
) -> Ended
    requires table { words ≡ N.table }
    requires made { AreAllMade N.script kept }
    requires workers { length N.script.workers ≡ N.seats }
    requires each { vec_len made ≡ N.seats }
    requires numbered { AreNumbered (λ d. d.worker) made.items }
    requires pages { AreInSpace N.script }
    requires empty { receipts.list ≡ [] }
    requires room { N.seats ≤ receipts.spare }
    ensures run { IsWholeRun N.script result.journal.value (receipts_said result.receipts) }
    ensures stands { Stands result.monitor (replay N.script result.journal.value).state }
    ensures sizes { result.journal.checked ≡ check_sizes N.script result.journal.value }
{
    let KeptParts {
        monitor,
        mut seat,
        journal,
    } = kept.into_parts();
    gather_all(&words, &mut seat, made, &mut receipts);
    words.settle(seat);
    run_journal::woven_runs();
    run_journal::hits_are_few();
    Ended {
        journal,
        receipts,
        monitor,
    }
}

// Gathers the seats of all workers, in order, and keeps their receipts.
#[tactic(auto, using(crate::proofs::Working::none_gathered, crate::proofs::Working::none_counted))]
fn gather_all<N: Named>(
    words: &PageWords,
    seat: &mut MonitorSeat,
    made: Vec<Done<N>>,
    all: &mut Receipts,
)
    requires table { words.now ≡ N.table }
    requires seat { seat.old.table ≡ N.table }
    requires out { seat.old.out ≡ vec_len made }
    requires each { vec_len made ≡ length N.script.workers }
    requires numbered { AreNumbered (λ d. d.worker) made.items }
    requires empty { all.old.list ≡ [] }
    requires room { vec_len made ≤ all.old.spare }
    ensures table { seat.new.table ≡ N.table }
    ensures entries { seat.new.entries
        ≡ seat.old.entries ++ gathers 0 (receipts_said all.new) }
    ensures none { seat.new.out ≡ 0 }
    ensures traces { map pages_touched (receipts_said all.new) ≡ N.script.workers }
{
    for done in made {
        gather_one(words, seat, done, all);
    }
}

// Gathers the seat of one worker, and keeps its receipts.
fn gather_one<N: Named>(
    words: &PageWords,
    seat: &mut MonitorSeat,
    done: Done<N>,
    all: &mut Receipts,
)
    requires table { words.now ≡ N.table }
    requires seat { seat.old.table ≡ N.table }
    requires out { 1 ≤ seat.old.out }
    requires room { 1 ≤ all.old.spare }
    ensures table { seat.new.table ≡ N.table }
    ensures out { seat.new.out ≡ seat.old.out - 1 }
    ensures gathered { IsGathered N.script done.worker seat.old.entries seat.new.entries
        (receipts_said all.old) (receipts_said all.new) }
    ensures room { all.new.spare ≡ all.old.spare - 1 }
{
    let Done {
        worker: _,
        seat: touch,
        receipts,
        of: _,
    } = done;
    words.gather(seat, touch);
    all.put(receipts);
}
