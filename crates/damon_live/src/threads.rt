// A whole run in threads.
ghost use Rattle.std.specs.Prelude.{◌≡◌, ◌*◌, ◌≤◌, [], IfOk, length};
ghost use Rattle.damon_types.specs.Space.{pages_of};
ghost use Rattle.damon_core.specs.Stands.{Stands};
ghost use Rattle.damon_control.specs.LiveText.{KeepsLimits};
ghost use Rattle.damon_control.specs.LiveView.{live_said};
ghost use Rattle.run_journal.specs.Lawful.{receipts_said};
ghost use Rattle.run_journal.specs.Replay.{check_sizes, replay};
ghost use Rattle.damon_live.specs.Whole.{AreInSpace, IsWholeRun, TracesAreInSpace};
ghost use Rattle.damon_live.specs.declared.top.TheConstants.{MAX_RESULTS};

use crate::begin::{Begun, begin_run};
use crate::beside::run_beside;
use crate::ends::{AloneRun, Ended, end_run, with_script};
use crate::jobs::make_words;
use crate::named::Named;
use crate::pace::Pace;
use crate::rest::make_rest;
use crate::spread::Spread;
use crate::work::Shared;
use damon_control::LiveScript;
use page_words::WordsAndSeat;
use std::alloc::{AllocError, Global};
use std::marker::Brand;
use std::sync::Wait;
use std::thread::Threads;

/// Carries out a live script in threads: each worker and each controller in one of its own, and the passes
/// in this one, all beside each other. Where a thread cannot be made, its work is done by a thread that
/// goes on. What is left of passes and calls after the threads have ended is made by this one.
///
/// The script is within its limits, its passes times its `cap` are at most
/// [`MAX_RESULTS`](crate::MAX_RESULTS), and each page of its traces is a page of its space. All threads read
/// it where it stands. Takes memory; on an error the script is dropped. May wait.
pub fn run_threads<R: Threads + Wait + Sync, P: Pace + Sync>(
    rt: &R,
    alloc: Global,
    script: LiveScript,
    pace: &P,
) -> Result<AloneRun, AllocError>
    requires limits { KeepsLimits (live_said script) }
    requires product { script.passes * script.setup.cap ≤ MAX_RESULTS }
    requires pages { TracesAreInSpace script }
    ensures script { IfOk result (λ r. live_said r.script ≡ live_said script) }
    ensures run { IfOk result (λ r.
        IsWholeRun (live_said script) r.journal.value (receipts_said r.receipts)) }
    ensures stands { IfOk result (λ r.
        Stands r.monitor (replay (live_said script) r.journal.value).state) }
    ensures sizes { IfOk result (λ r.
        r.journal.checked ≡ check_sizes (live_said script) r.journal.value) }
{
    let table = make_words(alloc, &script)?;
    let ended = run_named::<Brand, R, P>(rt, alloc, table, &script, pace)?;
    Ok(with_script(script, ended))
}

// Carries out a script on a table of page words, both of which have a name.
fn run_named<N: Named + Send + Sync, R: Threads + Wait + Sync, P: Pace + Sync>(
    rt: &R,
    alloc: Global,
    table: WordsAndSeat,
    script: &LiveScript,
    pace: &P,
) -> Result<Ended, AllocError>
    requires words { table.words ≡ N.table }
    requires seat { table.seat ≡ record { table = N.table; entries = []; out = 0 } }
    requires said { live_said script.now ≡ N.script }
    requires seats { length N.script.workers ≡ N.seats }
    requires space { N.table.words ≡ pages_of N.script.setup.space }
    requires limits { KeepsLimits N.script }
    requires product { N.script.passes * N.script.setup.cap ≤ MAX_RESULTS }
    requires pages { AreInSpace N.script }
    ensures run { IfOk result (λ r.
        IsWholeRun N.script r.journal.value (receipts_said r.receipts)) }
    ensures stands { IfOk result (λ r. Stands r.monitor (replay N.script r.journal.value).state) }
    ensures sizes { IfOk result (λ r. r.journal.checked ≡ check_sizes N.script r.journal.value) }
{
    let WordsAndSeat { words, seat } = table;
    let Begun {
        kept,
        jobs,
        receipts,
    } = begin_run::<N>(alloc, &words, seat, script)?;
    let pace = Spread::new(script, pace);
    let shared = Shared {
        words: &words,
        script,
        pace: &pace,
    };
    let (mut kept, made) = run_beside(rt, alloc, &shared, kept, jobs)?;
    make_rest(&mut kept, &words);
    Ok(end_run(words, kept, made, receipts))
}
