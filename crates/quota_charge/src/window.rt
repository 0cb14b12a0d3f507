ghost use Rattle.std.specs.Prelude.{◌≡◌, ◌+◌, ◌≤◌, ◌<◌, ◌^◌, Some, IfSome};
ghost use Rattle.std.specs.Option.{option_copied};
ghost use Rattle.quota_charge.specs.Quota.{effective_pages, left_of, within_time};
ghost use Rattle.quota_charge.specs.Window.{turned};

use crate::Cost;
use damon_types::{PAGE_SIZE, Quota};

/// The pages that were charged to a slot since a tick. Each slot has a window, also while its
/// scheme has no quota, and while it has no scheme.
#[derive(Clone, Copy, Debug, PartialEq, Eq)]
pub struct Window {
    /// The tick at which the window began.
    pub start: u64,
    /// The pages that were charged since.
    pub charged: u64,
}

/// The effective quota in pages: the whole pages of a quota, or as many as its time allows at this
/// cost per page where these are fewer. Without both pages and nanoseconds in the cost the time allows
/// all. A quota of less than a page allows none.
pub fn effective(quota: &Quota, cost: &Cost) -> u64
    ensures { result ≡ effective_pages quota.now cost.now }
{
    let pages = quota.bytes / PAGE_SIZE;
    match quota.time {
        Some(time) => within(time, cost, pages),
        None => pages,
    }
}

// These pages, or as many as a time allows at this cost where these are fewer.
fn within(time: u64, cost: &Cost, pages: u64) -> u64
    ensures { result ≡ within_time (Some time) cost.now pages }
{
    if cost.pages > 0 && cost.nanos > 0 {
        let timed = u128::from(time) * u128::from(cost.pages) / u128::from(cost.nanos);
        timed.min(u128::from(pages)) as u64
    } else {
        pages
    }
}

impl Window {
    /// The first window of a slot: it begins at tick 0, with nothing charged.
    pub fn new() -> Window
        ensures { result ≡ record { start = 0; charged = 0 } }
    {
        Window {
            start: 0,
            charged: 0,
        }
    }

    /// Begins a new window at this tick, with nothing charged, if the quota's reset interval has
    /// passed since the start of the old one. The tick is not before that start.
    pub fn turn(&mut self, quota: &Quota, tick: u64)
        requires { self.old.start ≤ tick }
        ensures window { self.new ≡ turned quota.now tick self.old }
        ensures start { self.new.start ≤ tick }
    {
        if tick - self.start >= u64::from(quota.reset) {
            *self = Window {
                start: tick,
                charged: 0,
            };
        }
    }

    /// How many pages are left: the effective quota less the pages that were charged, and 0 if more
    /// were charged, before the quota was lowered. `None` exactly if there is no quota.
    pub fn left(&self, quota: Option<&Quota>, cost: &Cost) -> Option<u64>
        ensures { result ≡ left_of (option_copied quota.entry) cost.now self.now.charged }
    {
        quota.map(|quota| effective(quota, cost).saturating_sub(self.charged))
    }

    /// Charges pages that a scheme was applied to, with a quota or without. They are at most what
    /// is left, and the sum fits in 64 bits. So after at least one page is charged, the sum is at
    /// most the effective quota.
    pub fn charge(&mut self, quota: Option<&Quota>, cost: &Cost, pages: u64)
        requires left { IfSome (left_of (option_copied quota) cost.now self.old.charged)
            (λ left. pages ≤ left) }
        requires fits { self.old.charged + pages < 2 ^ 64 }
        ensures window { self.new
            ≡ record self.old { charged = self.old.charged + pages } }
        ensures within { 1 ≤ pages
            → IfSome (option_copied quota.entry) (λ q. self.new.charged ≤ effective_pages q cost.now) }
    {
        // The quota and the cost stand in the conditions alone.
        self.charged += pages;
    }
}
