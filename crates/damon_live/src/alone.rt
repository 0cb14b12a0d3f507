// A whole run in one thread.
ghost use Rattle.std.specs.Prelude.{◌≡◌, ◌*◌, ◌≤◌, [], IfOk, length, vec_len};
ghost use Rattle.damon_types.specs.Space.{pages_of};
ghost use Rattle.damon_core.specs.Stands.{Stands};
ghost use Rattle.damon_control.specs.LiveText.{KeepsLimits};
ghost use Rattle.damon_control.specs.LiveView.{live_said};
ghost use Rattle.run_journal.specs.Lawful.{receipts_said};
ghost use Rattle.run_journal.specs.Replay.{check_sizes, replay};
ghost use Rattle.damon_live.specs.Whole.{AreInSpace, IsWholeRun, TracesAreInSpace};
ghost use Rattle.damon_live.specs.Work.{AreNumbered, IsShared};
ghost use Rattle.damon_live.specs.declared.top.TheConstants.{MAX_RESULTS};

use crate::begin::{Begun, begin_run};
use crate::ends::{AloneRun, Ended, end_run, with_script};
use crate::jobs::make_words;
use crate::named::Named;
use crate::pace::{NoPace, Pace};
use crate::rest::make_rest;
use crate::work::{Done, Job, Shared, work};
use damon_control::LiveScript;
use page_words::WordsAndSeat;
use std::alloc::{AllocError, Global};
use std::marker::Brand;

/// Carries out a live script in this thread: all passes, then the calls of each controller, then the
/// touches of each worker. Waits for nobody. Takes memory; on an error the script is dropped.
///
/// The script is within its limits, its passes times its `cap` are at most
/// [`MAX_RESULTS`](crate::MAX_RESULTS), and each page of its traces is a page of its space.
pub fn run_alone(alloc: Global, script: LiveScript) -> Result<AloneRun, AllocError>
    requires limits { KeepsLimits (live_said script) }
    requires product { script.passes * script.setup.cap ≤ MAX_RESULTS }
    requires pages { TracesAreInSpace script }
    ensures script { IfOk result (λ r. live_said r.script ≡ live_said script) }
    ensures run { IfOk result (λ r.
        IsWholeRun (live_said script) r.journal.value (receipts_said r.receipts)) }
    ensures stands { IfOk result (λ r.
        Stands r.monitor (replay (live_said script) r.journal.value).state) }
    ensures sizes { IfOk result (λ r.
        r.journal.checked ≡ check_sizes (live_said script) r.journal.value) }
{
    let table = make_words(alloc, &script)?;
    let ended = run_named::<Brand>(alloc, table, &script)?;
    Ok(with_script(script, ended))
}

// Carries out a script on a table of page words, both of which have a name.
fn run_named<N: Named>(
    alloc: Global,
    table: WordsAndSeat,
    script: &LiveScript,
) -> Result<Ended, AllocError>
    requires words { table.words ≡ N.table }
    requires seat { table.seat ≡ record { table = N.table; entries = []; out = 0 } }
    requires said { live_said script.now ≡ N.script }
    requires seats { length N.script.workers ≡ N.seats }
    requires space { N.table.words ≡ pages_of N.script.setup.space }
    requires limits { KeepsLimits N.script }
    requires product { N.script.passes * N.script.setup.cap ≤ MAX_RESULTS }
    requires pages { AreInSpace N.script }
    ensures run { IfOk result (λ r.
        IsWholeRun N.script r.journal.value (receipts_said r.receipts)) }
    ensures stands { IfOk result (λ r. Stands r.monitor (replay N.script r.journal.value).state) }
    ensures sizes { IfOk result (λ r. r.journal.checked ≡ check_sizes N.script r.journal.value) }
{
    let WordsAndSeat { words, seat } = table;
    let Begun {
        mut kept,
        jobs,
        receipts,
    } = begin_run::<N>(alloc, &words, seat, script)?;
    make_rest(&mut kept, &words);
    let shared = Shared {
        words: &words,
        script,
        pace: &NoPace,
    };
    let made = work_all(alloc, &shared, jobs)?;
    Ok(end_run(words, kept, made, receipts))
}

// The touches of each worker, one worker after another.
fn work_all<N: Named, P: Pace>(
    alloc: Global,
    shared: &Shared<P>,
    jobs: Vec<Job<N>>,
) -> Result<Vec<Done<N>>, AllocError>
    requires shared { IsShared N.table N.script shared.now.words.now shared.now.script.now }
    requires numbered { AreNumbered (λ j. j.worker) jobs.items }
    ensures len { IfOk result (λ d. vec_len d ≡ vec_len jobs) }
    ensures numbered { IfOk result (λ d. AreNumbered (λ d. d.worker) d.items) }
{
    let mut made = Vec::with_capacity(alloc, jobs.len())?;
    for job in jobs {
        made.push_reserved(work(shared, job));
    }
    Ok(made)
}
