ghost use Rattle.std.specs.Prelude.{◌≡◌, ◌+◌, ◌^◌, ◌≤◌, ◌<◌, not, length, count_by, IfOk};
ghost use Rattle.reclaim_module.specs.Calls.{after_action, after_touch, all_resident, touched_run};
ghost use Rattle.reclaim_module.specs.Pages.{is_out_in, out_count};

use damon_types::Action;
use page_bits::BitSet;
use std::alloc::{AllocError, Global};
use std::marker::Model;

/// How many pages went out and came back, since all pages were resident.
#[derive(Clone, Copy, Debug, PartialEq, Eq)]
pub struct Counts {
    /// The pages that went out.
    pub pageouts: u64,
    /// The touches of pages that were out.
    pub refaults: u64,
    /// The pages that came back before a touch.
    pub prefetches: u64,
}

/// Which pages of a space are out, and how many went out and came back. All others are resident. It takes a
/// bit for each page.
#[derive(Drop)]
pub struct Reclaim {
    set: BitSet,
    // How many pages are in the set.
    out: u32,
    counts: Counts,
}

impl Model for Reclaim {
    ghost use Rattle.reclaim_module.specs.Kept.{IsReclaim};
    ghost use Rattle.reclaim_module.specs.Pages.{ReclaimView};

    ghost Value = { ReclaimView };

    ghost view = { λ r. record { out = r.set; counts = r.counts } };

    ghost invariant = { λ r. IsReclaim r.set r.out r.counts };
}

impl Reclaim {
    /// All pages of a space of `pages` pages are resident, or an error when out of memory. No other call
    /// takes memory.
    pub fn new(alloc: Global, pages: u32) -> Result<Reclaim, AllocError>
        ensures { IfOk result (λ r. r ≡ all_resident pages) }
    {
        let set = BitSet::none(alloc, pages)?;
        Ok(Reclaim {
            set,
            out: 0,
            counts: Counts {
                pageouts: 0,
                refaults: 0,
                prefetches: 0,
            },
        })
    }

    /// Touches a page of the space, and returns whether it was out. If so, this is a refault, and brings it
    /// back.
    #[tactic(auto, using(crate::proofs::Moving::touch_loss))]
    pub fn touch(&mut self, page: u32) -> bool
        requires { page < length self.old.out }
        ensures result { result ≡ is_out_in self.old.out page }
        ensures after { self.new ≡ after_touch page self.old }
    {
        let was_out = self.set.take(page);
        self.out -= u32::from(was_out);
        self.counts.refaults += u64::from(was_out);
        was_out
    }

    /// Touches the `pages` pages from `start` on, which lie in the space, one after another. Those that were
    /// out come back, and each of them is a refault.
    #[tactic(auto, using(crate::proofs::Moving::out_loss))]
    pub fn touch_run(&mut self, start: u32, pages: u32)
        requires { start + pages ≤ length self.old.out }
        ensures { self.new ≡ touched_run start pages self.old }
    {
        let refaults = self.set.put_run(start, pages, false);
        self.out -= refaults;
        self.counts.refaults += u64::from(refaults);
    }

    /// Applies an action to the `pages` pages from `start` on, which lie in the space: [`Action::Pageout`]
    /// pages them out, [`Action::Willneed`] brings them back, and all others move nothing. What went out
    /// must fit in 64 bits; what came back is part of it.
    #[tactic(auto, using(crate::proofs::Moving::out_gain, crate::proofs::Moving::out_loss))]
    pub fn apply(&mut self, start: u32, pages: u32, action: Action)
        requires within { start + pages ≤ length self.old.out }
        requires pageouts { (after_action action start pages self.old).counts.pageouts < 2 ^ 64 }
        ensures { self.new ≡ after_action action start pages self.old }
    {
        match action {
            Action::Pageout => {
                let gone = self.set.put_run(start, pages, true);
                self.out += gone;
                self.counts.pageouts += u64::from(gone);
            }
            Action::Willneed => {
                let back = self.set.put_run(start, pages, false);
                self.out -= back;
                self.counts.prefetches += u64::from(back);
            }
            _ => {}
        }
    }

    /// The number of pages of the space.
    pub fn pages(&self) -> u32
        ensures { result ≡ length self.now.out }
    {
        self.set.len()
    }

    /// Whether a page of the space is out.
    pub fn is_out(&self, page: u32) -> bool
        requires { page < length self.now.out }
        ensures { result ≡ is_out_in self.now.out page }
    {
        self.set.has(page)
    }

    /// The number of pages that are resident.
    #[tactic(auto, using(crate::proofs::Moving::others_count))]
    pub fn resident(&self) -> u32
        ensures exact { result ≡ count_by not self.now.out }
        ensures sum { result + out_count self.now.out ≡ length self.now.out }
    {
        self.set.len() - self.out
    }

    /// The number of pages that are out.
    pub fn out(&self) -> u32
        ensures { result ≡ out_count self.now.out }
    {
        self.out
    }

    /// What was counted. Each page that went out is out, or came back.
    pub fn counts(&self) -> Counts
        ensures exact { result ≡ self.now.counts }
        ensures balance { result.pageouts
            ≡ out_count self.now.out + (result.refaults + result.prefetches) }
    {
        self.counts
    }
}
