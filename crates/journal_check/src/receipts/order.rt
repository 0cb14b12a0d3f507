// Which receipts may follow one another.
ghost use Rattle.std.specs.Prelude.{◌≡◌, ◌≤◌, ◌<◌, ◌+◌, ◌&&◌, [], true, length, map, All, IfOk};
ghost use Rattle.damon_control.specs.declared.reader.TheConstants.{MAX_BYTES};
ghost use Rattle.journal_check.specs.Ahead.{AreNamedEarly, ByWorker, KeepsLast, first_wrong, last_in, may_come, may_follow};
ghost use Rattle.damon_control.specs.declared.live.TheConstants.{MAX_WORKERS};
ghost use Rattle.journal_text.specs.SeenLine.{with_receipt};

use crate::receipts::list::SeenList;
use damon_control::MAX_WORKERS;
use page_bits::BitSet;
use run_journal::Receipt;
use std::alloc::{AllocError, Global};

// More than the number of any pass of a text, which is at most the number of its bytes.
const TAGS: u32 = 33_554_432;

// The last worker with a receipt of a page, and the tag of its last one there. At first both are 0,
// which refuses no tag.
type Last = (u8, u64);

// What is kept of the receipts so far to tell which may come next.
#[derive(Drop)]
struct LastSeen {
    // One more than the number of the last worker; 0 before the first receipt.
    workers: u32,
    // For each page the last worker and its tag there, in one number.
    pages: Vec<u32>,
}

// The index of the first receipt that is not named or may not come next, where all pages are below
// `pages`. Allocates.
#[tactic(auto, using(crate::proofs::LastSeen::left_none))]
pub(crate) fn first_wrong(
    alloc: Global,
    receipts: &SeenList,
    named: &BitSet,
    pages: u32,
) -> Result<Option<usize>, AllocError>
    requires within { All (λ x. x.1.page < pages) receipts.now }
    requires count { length named.now ≡ length receipts.now }
    requires early { AreNamedEarly receipts.now named.now }
    ensures { IfOk result (λ index. index ≡ first_wrong named.now [] receipts.now) }
{
    let mut last = LastSeen::new(alloc, pages)?;
    // For its clause alone: the receipts are fewer than 2^32.
    let _named = named.len();
    for index in 0..receipts.len() {
        let (worker, receipt) = receipts.get(index);
        let is_named = named.has(index as u32);
        let admitted = last.admit(is_named, worker, &receipt);
        if !admitted {
            return Ok(Some(index));
        }
    }
    Ok(None)
}

impl LastSeen {
    // Before the first receipt. Allocates.
    fn new(alloc: Global, pages: u32) -> Result<LastSeen, AllocError>
        ensures last { IfOk result (λ last. KeepsLast [] last.workers
            (map last_in last.pages.items)) }
        ensures len { IfOk result (λ last. length last.pages.items ≡ pages) }
    {
        let pages = vec![in alloc; 0; pages as usize]?;
        Ok(LastSeen { workers: 0, pages })
    }

    // Whether a receipt is named and may come next; if so, it is kept.
    fn admit(&mut self, named: bool, worker: u8, receipt: &Receipt) -> bool
        requires inside { receipt.now.page < length self.old.pages.items }
        requires early { named ≡ true → receipt.now.tag ≤ MAX_BYTES + 1 }
        ensures may { (all : ByWorker)
            → KeepsLast all self.old.workers (map last_in self.old.pages.items)
            → result ≡ (named && may_follow all worker receipt.now) }
        ensures next { (all : ByWorker)
            → KeepsLast all self.old.workers (map last_in self.old.pages.items) → result ≡ true
            → KeepsLast (with_receipt all worker receipt.now) self.new.workers
            (map last_in self.new.pages.items) }
        ensures len { length self.new.pages.items ≡ length self.old.pages.items }
    {
        let page = receipt.page as usize;
        let last = last_in(self.pages[page]);
        let come = may_come(self.workers, last, worker, receipt.tag);
        // One branch for both, which goes the same way for nearly all receipts.
        let may = named & come;
        if may {
            let number = u32::from(worker);
            self.workers = number + 1;
            self.pages[page] = packed(worker, receipt.tag);
        }
        may
    }
}

// The worker and the tag that are kept in one number.
fn last_in(last: u32) -> Last
    ensures { result ≡ last_in last }
{
    ((last / TAGS) as u8, u64::from(last % TAGS))
}

// A worker and the number of a pass in one number.
fn packed(worker: u8, tag: u64) -> u32
    requires few { worker < MAX_WORKERS }
    requires early { tag ≤ MAX_BYTES + 1 }
    ensures { last_in result ≡ (worker, tag) }
{
    u32::from(worker) * TAGS + tag as u32
}

// Whether a receipt with this tag may come next, after receipts of `workers` workers, where `last`
// is what is kept of its page.
fn may_come(workers: u32, last: Last, worker: u8, tag: u64) -> bool
    ensures { result ≡ may_come workers last worker tag }
{
    let number = u32::from(worker);
    // Without branches: each test is cheaper than a branch that is predicted wrongly.
    (workers <= number + 1) & (number < MAX_WORKERS) & ((last.0 != worker) | (last.1 <= tag))
}
