// Workers.
ghost use Rattle.std.specs.Prelude.{◌≡◌, ◌-◌, ◌<◌, ◌≤◌, ◌++◌, ◌∷◌, [], All, length};
ghost use Rattle.run_journal.specs.Lawful.{touches_of};
ghost use Rattle.damon_live.specs.Whole.{pages_touched};
ghost use Rattle.damon_live.specs.Work.{IsShared, trace_of};

use crate::named::Named;
use crate::pace::{Pace, Spot};
use damon_control::{LiveScript, Trace};
use page_words::{PageWords, TouchSeat};
use run_journal::{Receipt, ReceiptList};
use std::marker::PhantomData;

/// What the threads of a run share: its page words, its script, and what holds them.
#[derive(Drop)]
pub(crate) struct Shared<'a, P> {
    pub words: &'a PageWords,
    pub script: &'a LiveScript,
    pub pace: &'a P,
}

/// What a worker is given: its number, its seat, and room for the receipts of its trace.
#[derive(Drop)]
pub(crate) struct Job<N: Named> {
    pub worker: u32,
    pub seat: TouchSeat,
    pub receipts: ReceiptList,
    pub of: PhantomData<N>,
    ghost place: { seat.table ≡ N.table },
    ghost number: { seat.worker ≡ worker },
    ghost some: { worker < length N.script.workers },
    ghost fresh: { seat.touches ≡ [] },
    ghost empty: { receipts.list ≡ [] },
    ghost room: { length (trace_of N.script worker) ≤ receipts.spare },
}

/// What a worker did: its touches are its receipts, and their pages are those of its trace.
#[derive(Drop)]
pub(crate) struct Done<N: Named> {
    pub worker: u32,
    pub seat: TouchSeat,
    pub receipts: ReceiptList,
    pub of: PhantomData<N>,
    ghost place: { seat.table ≡ N.table },
    ghost number: { seat.worker ≡ worker },
    ghost touches: { seat.touches ≡ touches_of receipts.list },
    ghost whole: { pages_touched receipts.list ≡ trace_of N.script worker },
}

/// Touches each page of the worker's trace, in order. Each touch is one atomic step.
pub(crate) fn work<N: Named, P: Pace>(shared: &Shared<P>, job: Job<N>) -> Done<N>
    requires { IsShared N.table N.script shared.now.words.now shared.now.script.now }
    ensures { result.worker ≡ job.worker }
{
    let Job {
        worker,
        mut seat,
        mut receipts,
        of: _,
    } = job;
    let trace = shared.script.workers.get(worker);
    touch_all(shared, trace, worker, &mut seat, &mut receipts);
    make_done(worker, seat, receipts)
}

// Touches the pages of a trace, in order, and keeps a receipt of each touch.
fn touch_all<P: Pace>(
    shared: &Shared<P>,
    trace: &Trace,
    worker: u32,
    seat: &mut TouchSeat,
    receipts: &mut ReceiptList,
)
    requires table { seat.old.table ≡ shared.now.words.now }
    requires pages { All (λ p. p < shared.now.words.now.words) trace.now.list }
    requires fresh { seat.old.touches ≡ [] }
    requires empty { receipts.old.list ≡ [] }
    requires room { length trace.now.list ≤ receipts.old.spare }
    ensures table { seat.new.table ≡ seat.old.table }
    ensures worker { seat.new.worker ≡ seat.old.worker }
    ensures touches { seat.new.touches ≡ touches_of receipts.new.list }
    ensures pages { pages_touched receipts.new.list ≡ trace.now.list }
{
    for index in 0..trace.len() {
        shared.pace.wait(Spot::BeforeTouch { worker, index });
        touch_page(shared.words, seat, *trace.get(index), receipts);
        shared.pace.wait(Spot::AfterTouch { worker, index });
    }
}

// Touches a page, and keeps the receipt.
fn touch_page(words: &PageWords, seat: &mut TouchSeat, page: u32, receipts: &mut ReceiptList)
    requires table { seat.old.table ≡ words.now }
    requires page { page < words.now.words }
    requires room { 1 ≤ receipts.old.spare }
    requires same { seat.old.touches ≡ touches_of receipts.old.list }
    ensures table { seat.new.table ≡ seat.old.table }
    ensures worker { seat.new.worker ≡ seat.old.worker }
    ensures touches { seat.new.touches ≡ touches_of receipts.new.list }
    ensures page { pages_touched receipts.new.list ≡ pages_touched receipts.old.list ++ page ∷ [] }
    ensures room { receipts.new.spare ≡ receipts.old.spare - 1 }
{
    let tag = words.touch(seat, page);
    receipts.put(Receipt { page, tag });
}

fn make_done<N: Named>(worker: u32, seat: TouchSeat, receipts: ReceiptList) -> Done<N>
    requires place { seat.table ≡ N.table }
    requires number { seat.worker ≡ worker }
    requires touches { seat.touches ≡ touches_of receipts.list }
    requires whole { pages_touched receipts.list ≡ trace_of N.script worker }
    ensures { result.worker ≡ worker }
{
    Done {
        worker,
        seat,
        receipts,
        of: PhantomData,
    }
}
