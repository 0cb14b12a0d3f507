ghost use Rattle.std.specs.Prelude.{◌≡◌, ◌+◌, ◌≤◌, ◌<◌, ◌^◌, Some, IsSome, IfSome};
ghost use Rattle.scheme_engine.specs.Engine.{FitsSlot};
ghost use Rattle.scheme_engine.specs.Served.{left_in, slot_counted};
ghost use Rattle.scheme_engine.specs.Slots.{changed, costed, empty_slot, metered, quota_of, turned_slot, slot_view};

use damon_types::{Action, MAX_SLOT, Quota, Scheme};
use quota_charge::{Cost, Window};
use std::marker::Model;
use watermarks::Gauge;

/// The number of slots.
pub const SLOTS: usize = MAX_SLOT as usize + 1;

/// What a set slot shows.
#[derive(Clone, Copy, Debug, PartialEq, Eq)]
pub struct SlotView {
    /// What its scheme does.
    pub action: Action,
    /// Whether it is active.
    pub active: bool,
    /// The pages that were charged to it, and since when.
    pub window: Window,
    /// How many rows matched, over all runs of the scheme.
    pub tried: u64,
    /// How many pages the scheme was applied to.
    pub applied: u64,
    /// In how many runs a passing page was not taken.
    pub exceeds: u64,
}

/// The scheme of a slot.
#[derive(Clone, Copy)]
pub(crate) struct SetScheme {
    pub(crate) scheme: Scheme,
    pub(crate) gauge: Gauge,
    tried: u64,
    applied: u64,
    exceeds: u64,
}

impl Model for SetScheme {
    ghost use Rattle.scheme_engine.specs.Slots.{SetScheme as SetSchemeValue};

    ghost Value = { SetSchemeValue };

    ghost view = { λ s. record {
      scheme = s.scheme;
      gauge = s.gauge;
      tried = s.tried;
      applied = s.applied;
      exceeds = s.exceeds;
    } };

    ghost inverse = { λ s. record {
      scheme = s.scheme;
      gauge = s.gauge;
      tried = s.tried;
      applied = s.applied;
      exceeds = s.exceeds;
    } };
}

/// A slot: its scheme, if it is set, and its window.
#[derive(Clone, Copy)]
pub(crate) struct Slot {
    set: Option<SetScheme>,
    window: Window,
    cost: Cost,
}

impl Model for Slot {
    ghost use Rattle.scheme_engine.specs.Slots.{SlotValue};

    ghost Value = { SlotValue };

    ghost view = { λ s. record { set = s.set; window = s.window; cost = s.cost } };

    ghost inverse = { λ s. record { set = s.set; window = s.window; cost = s.cost } };
}

impl Slot {
    // A slot that was never set.
    pub(crate) fn new() -> Slot
        ensures { result ≡ empty_slot }
    {
        Slot {
            set: None,
            window: Window::new(),
            cost: Cost::new(),
        }
    }

    // Sets the slot to a scheme, or drops it. The window and the cost stay.
    pub(crate) fn change(&mut self, scheme: Option<Scheme>)
        ensures { self.new ≡ changed scheme self.old }
    {
        self.set = scheme.map(|scheme| SetScheme {
            scheme,
            gauge: Gauge::new(scheme.marks),
            tried: 0,
            applied: 0,
            exceeds: 0,
        });
    }

    // Takes the next value of the metric.
    pub(crate) fn metric(&mut self, value: u32)
        ensures { self.new ≡ metered value self.old }
    {
        if let Some(set) = &mut self.set {
            set.gauge.metric(value);
        }
    }

    // Adds nanoseconds that were measured.
    pub(crate) fn add_cost(&mut self, nanos: u64)
        ensures { self.new ≡ costed nanos self.old }
    {
        self.cost.add_nanos(nanos);
    }

    // What the slot shows, if it is set.
    pub(crate) fn view(&self) -> Option<SlotView>
        ensures { result ≡ slot_view self.now }
    {
        let set = self.set?;
        Some(SlotView {
            action: set.scheme.action,
            active: set.gauge.active(),
            window: self.window,
            tried: set.tried,
            applied: set.applied,
            exceeds: set.exceeds,
        })
    }

    // Begins a new window if the quota's reset interval is over. A set slot's window does not begin after
    // the tick.
    pub(crate) fn turn(&mut self, tick: u64)
        requires { IsSome self.old.set → self.old.window.start ≤ tick }
        ensures { self.new ≡ turned_slot tick self.old }
    {
        if let Some(quota) = self.quota() {
            self.window.turn(&quota, tick);
        }
    }

    // What is left of the quota in pages, if there is one.
    pub(crate) fn left(&self) -> Option<u64>
        ensures { result ≡ left_in self.now }
    {
        self.window.left(self.quota().as_ref(), &self.cost)
    }

    // Adds a run to the statistics of the scheme, and charges the pages that were taken: at most what is
    // left of the quota.
    pub(crate) fn count(&mut self, tried: u32, taken: u64, exceeds: bool)
        requires left { IfSome (left_in self.old) (λ left. taken ≤ left) }
        requires fits { FitsSlot (slot_counted tried taken exceeds self.old) }
        ensures { self.new ≡ slot_counted tried taken exceeds self.old }
    {
        let quota = self.quota();
        self.window.charge(quota.as_ref(), &self.cost, taken);
        self.cost.add_pages(taken);
        if let Some(set) = &mut self.set {
            set.tried += u64::from(tried);
            set.applied += taken;
            set.exceeds += u64::from(exceeds);
        }
    }

    // The quota of the slot's scheme, if there is one.
    fn quota(&self) -> Option<Quota>
        ensures { result ≡ quota_of self.now }
    {
        self.set?.scheme.quota
    }

    // The scheme of the slot, if it is set.
    pub(crate) fn scheme(&self) -> Option<SetScheme>
        ensures { result ≡ self.now.set }
    {
        self.set
    }
}
