// What workers are given.
ghost use Rattle.std.specs.Prelude.{◌≡◌, ◌<◌, ◌≤◌, [], IfOk, OnOk, length, vec_len};
ghost use Rattle.damon_types.specs.Space.{pages_of};
ghost use Rattle.damon_control.specs.LiveView.{live_said};
ghost use Rattle.damon_live.specs.Work.{AreNumbered, trace_of};

use crate::named::Named;
use crate::work::Job;
use damon_control::LiveScript;
use damon_types::PlainList;
use page_words::{MonitorSeat, PageWords, TouchSeat, WordsAndSeat};
use run_journal::{ReceiptList, Receipts};
use std::alloc::{AllocError, Global};
use std::marker::PhantomData;

/// A table with a word for each page of the script's space.
pub(crate) fn make_words(alloc: Global, script: &LiveScript) -> Result<WordsAndSeat, AllocError>
    ensures pages { IfOk result (λ r. r.words.words ≡ pages_of script.now.setup.space) }
    ensures seat { IfOk result (λ r. r.seat ≡ record { table = r.words; entries = []; out = 0 }) }
{
    // For its clauses alone: a space has a page.
    let _targets = script.setup.space.targets();
    PageWords::new(alloc, script.setup.space.pages())
}

/// An empty list with room for the receipts of this many workers.
pub(crate) fn room_for(alloc: Global, workers: u32) -> Result<Receipts, AllocError>
    ensures empty { IfOk result (λ r. r.list ≡ []) }
    ensures room { IfOk result (λ r. workers ≤ r.spare) }
{
    let mut all = PlainList::new(alloc);
    all.reserve(workers)?;
    Ok(all)
}

/// A seat and room for receipts for each worker of the script.
pub(crate) fn split_all<N: Named>(
    alloc: Global,
    words: &PageWords,
    seat: &mut MonitorSeat,
    script: &LiveScript,
) -> Result<Vec<Job<N>>, AllocError>
    requires table { words.now ≡ N.table }
    requires seat { seat.old ≡ record { table = N.table; entries = []; out = 0 } }
    requires said { live_said script.now ≡ N.script }
    requires seats { length N.script.workers ≡ N.seats }
    ensures seat { OnOk result (seat.new ≡ record { table = N.table; entries = []; out = N.seats }) }
    ensures len { IfOk result (λ jobs. vec_len jobs ≡ N.seats) }
    ensures numbered { IfOk result (λ jobs. AreNumbered (λ j. j.worker) jobs.items) }
{
    let workers = script.workers.len();
    let mut jobs = Vec::with_capacity(alloc, workers as usize)?;
    for worker in 0..workers {
        let receipts = room_of(alloc, script, worker)?;
        let touch = words.split(seat, worker);
        jobs.push_reserved(make_job(worker, touch, receipts));
    }
    Ok(jobs)
}

// Room for the receipts of a worker.
fn room_of(alloc: Global, script: &LiveScript, worker: u32) -> Result<ReceiptList, AllocError>
    requires { worker < length script.now.workers.list }
    ensures empty { IfOk result (λ r. r.list ≡ []) }
    ensures room { IfOk result (λ r. length (trace_of (live_said script.now) worker) ≤ r.spare) }
{
    let mut receipts = ReceiptList::new(alloc);
    receipts.reserve(script.workers.get(worker).len())?;
    Ok(receipts)
}

fn make_job<N: Named>(worker: u32, seat: TouchSeat, receipts: ReceiptList) -> Job<N>
    requires seat { seat ≡ record { table = N.table; worker = worker; touches = [] } }
    requires some { worker < length N.script.workers }
    requires empty { receipts.list ≡ [] }
    requires room { length (trace_of N.script worker) ≤ receipts.spare }
    ensures { result.worker ≡ worker }
{
    Job {
        worker,
        seat,
        receipts,
        of: PhantomData,
    }
}
