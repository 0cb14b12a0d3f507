// A run before its first step.
ghost use Rattle.std.specs.Prelude.{◌≡◌, ◌*◌, ◌≤◌, [], IfOk, length, vec_len};
ghost use Rattle.damon_types.specs.Space.{pages_of};
ghost use Rattle.damon_control.specs.LiveText.{KeepsLimits};
ghost use Rattle.damon_control.specs.LiveView.{live_said};
ghost use Rattle.damon_live.specs.Work.{AreNumbered};
ghost use Rattle.damon_live.specs.declared.top.TheConstants.{MAX_RESULTS};

use crate::jobs::{room_for, split_all};
use crate::kept::Kept;
use crate::named::Named;
use crate::work::Job;
use damon_control::LiveScript;
use page_words::{MonitorSeat, PageWords};
use run_journal::Receipts;
use std::alloc::{AllocError, Global};

/// A run before its first step: what the lock keeps, what workers are given, and room for the lists of
/// their receipts.
#[derive(Drop)]
pub(crate) struct Begun<'a, N: Named> {
    pub kept: Kept<'a, N>,
    pub jobs: Vec<Job<N>>,
    pub receipts: Receipts,
}

/// Takes the memory of a run.
pub(crate) fn begin_run<'a, N: Named>(
    alloc: Global,
    words: &PageWords,
    mut seat: MonitorSeat,
    script: &'a LiveScript,
) -> Result<Begun<'a, N>, AllocError>
    requires table { words.now ≡ N.table }
    requires seat { seat ≡ record { table = N.table; entries = []; out = 0 } }
    requires said { live_said script.now ≡ N.script }
    requires seats { length N.script.workers ≡ N.seats }
    requires space { N.table.words ≡ pages_of N.script.setup.space }
    requires limits { KeepsLimits N.script }
    requires product { N.script.passes * N.script.setup.cap ≤ MAX_RESULTS }
    ensures jobs { IfOk result (λ r. vec_len r.jobs ≡ N.seats) }
    ensures numbered { IfOk result (λ r. AreNumbered (λ j. j.worker) r.jobs.items) }
    ensures empty { IfOk result (λ r. r.receipts.list ≡ []) }
    ensures room { IfOk result (λ r. N.seats ≤ r.receipts.spare) }
{
    let receipts = room_for(alloc, script.workers.len())?;
    let jobs = split_all::<N>(alloc, words, &mut seat, script)?;
    let kept = Kept::<N>::new(alloc, script, seat)?;
    Ok(Begun {
        kept,
        jobs,
        receipts,
    })
}
