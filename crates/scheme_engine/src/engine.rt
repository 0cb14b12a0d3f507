ghost use Rattle.std.specs.Prelude.{◌≡◌, ◌≤◌, [], length, map, replicate, slice_set, slice_index_or, IfOk};
ghost use Rattle.std.specs.List.{AllByRecursion};
ghost use Rattle.damon_types.specs.Within.{AreWithin};
ghost use Rattle.scheme_engine.specs.Best.{AreServedBest};
ghost use Rattle.scheme_engine.specs.Engine.{BeginBy, FitsSlot};
ghost use Rattle.scheme_engine.specs.Served.{slots_served};
ghost use Rattle.scheme_engine.specs.Slots.{changed, costed, empty_slot, metered, slot_view};

use crate::pages::Context;
use crate::serve::serve;
use crate::slot::Slot;
use crate::{Applied, SLOTS, SlotView};
use damon_types::{MAX_SLOT, SlotChange, Space};
use priority::Candidates;
use region_list::Regions;
use std::alloc::{AllocError, Global};
use std::marker::Model;

/// The slots that hold schemes, numbered from 0 to [`MAX_SLOT`].
#[derive(Drop)]
pub struct Engine {
    slots: [Slot; SLOTS],
    // Where a run keeps the candidates of a scheme. Its contents mean nothing between runs.
    candidates: Candidates,
}

impl Model for Engine {
    ghost use Rattle.std.specs.Prelude.{◌≡◌, length};
    ghost use Rattle.scheme_engine.specs.declared.slot.TheConstants.{SLOTS};
    ghost use Rattle.scheme_engine.specs.Engine.{EngineValue};

    ghost Value = { EngineValue };

    ghost view = { λ e. record { slots = e.slots; cap = e.candidates.cap } };

    ghost invariant = { λ e. length e.slots ≡ SLOTS };
}

impl Engine {
    /// Slots that were never set, for regions of at most `cap` rows, or an error when out of memory. No
    /// other call takes memory.
    pub fn new(alloc: Global, cap: u32) -> Result<Engine, AllocError>
        ensures { IfOk result (λ e. e ≡ record { slots = replicate SLOTS empty_slot; cap = cap }) }
    {
        let candidates = Candidates::new(alloc, cap)?;
        Ok(Engine {
            slots: [Slot::new(); SLOTS],
            candidates,
        })
    }

    /// The most rows of the regions that a run is for. Its clauses also say how many slots there are.
    pub fn cap(&self) -> u32
        ensures cap { result ≡ self.now.cap }
        ensures slots { length self.now.slots ≡ SLOTS }
    {
        self.candidates.cap()
    }

    /// The number of slots.
    pub fn slots(&self) -> usize
        ensures number { result ≡ SLOTS }
        ensures count { result ≡ length self.now.slots }
    {
        let slots = &self.slots[..];
        slots.len()
    }

    /// Sets a slot to a scheme, with statistics of 0 and as a slot that has seen no metric, or drops it.
    /// Its window and its cost stay as they were; dropping an empty slot changes nothing. The number of the
    /// slot is at most [`MAX_SLOT`].
    pub fn change(&mut self, change: &SlotChange)
        requires { change.now.slot ≤ MAX_SLOT }
        ensures { self.new ≡ record self.old {
          slots = slice_set self.old.slots change.now.slot
              (changed change.now.scheme (slice_index_or self.old.slots change.now.slot empty_slot));
        } }
    {
        let slot = &mut self.slots[usize::from(change.slot)];
        slot.change(change.scheme);
    }

    /// Hands each set slot the next value of the metric, which its watermarks compare.
    pub fn metric(&mut self, value: u32)
        ensures { self.new ≡ record self.old { slots = map (metered value) self.old.slots } }
    {
        for number in 0..SLOTS {
            let slot = &mut self.slots[number];
            slot.metric(value);
        }
    }

    /// Adds nanoseconds that were measured for a slot, set or not. The sum stops at 2^64 - 1. The number of
    /// the slot is at most [`MAX_SLOT`].
    pub fn cost(&mut self, slot: u8, nanos: u64)
        requires { slot ≤ MAX_SLOT }
        ensures { self.new ≡ record self.old {
          slots = slice_set self.old.slots slot
              (costed nanos (slice_index_or self.old.slots slot empty_slot));
        } }
    {
        let slot = &mut self.slots[usize::from(slot)];
        slot.add_cost(nanos);
    }

    /// What the slot with this number shows, at most [`MAX_SLOT`]; `None` exactly if it is empty.
    pub fn slot(&self, slot: u8) -> Option<SlotView>
        requires { slot ≤ MAX_SLOT }
        ensures { result ≡ slot_view (slice_index_or self.now.slots slot empty_slot) }
    {
        let slot = &self.slots[usize::from(slot)];
        slot.view()
    }

    /// Serves the slots in order, at the end of an aggregation of `aggr` passes (at least 1) at a tick. The
    /// window of a set slot begins anew if its quota's reset interval is over. Then the scheme of a set and
    /// active slot is run over the rows as the slots before it leave them:
    ///
    /// - Its candidates are the rows that match its pattern and have a page that passes its filters. Their
    ///   passing pages are taken in priority order, and those of a row by address, as many as are left of
    ///   the quota, and charged.
    /// - Unless the action is `Stat`, a row of which all passing pages are taken gets age 0. A row of which
    ///   some but not all are taken is cut after the last of them, where there are fewer rows than the
    ///   regions allow and both sides have the minimum size. The first side gets age 0, and the second
    ///   keeps the age.
    ///
    /// `applied` then holds what this run was applied to. The ranges of the regions lie in the space; the
    /// regions, `applied` and the engine have one `cap`; no set slot has a window that begins after the
    /// tick; and the statistics and charges fit in 64 bits after the run. Takes no memory. The rules are
    /// this project's own.
    pub fn run(
        &mut self,
        regions: &mut Regions,
        space: &Space,
        aggr: u32,
        tick: u64,
        applied: &mut Applied,
    )
        requires within { AreWithin space.now regions.old.ranges }
        requires aggr { 1 ≤ aggr }
        requires regions { regions.old.cap ≡ self.old.cap }
        requires applied { applied.old.cap ≡ self.old.cap }
        requires windows { BeginBy tick self.old.slots }
        requires fits { AllByRecursion FitsSlot
            (slots_served 0 space.now aggr tick regions.old self.old.slots).slots }
        ensures slots { self.new ≡ record self.old {
          slots = (slots_served 0 space.now aggr tick regions.old self.old.slots).slots;
        } }
        ensures rows { regions.new ≡ record regions.old {
          rows = (slots_served 0 space.now aggr tick regions.old self.old.slots).rows;
        } }
        ensures applied { applied.new ≡ record applied.old {
          runs = (slots_served 0 space.now aggr tick regions.old self.old.slots).runs;
          choices = (slots_served 0 space.now aggr tick regions.old self.old.slots).choices;
        } }
        ensures best { AreServedBest 0 space.now aggr tick regions.old self.old.slots }
    {
        // For its clauses alone: the rows tile their ranges and are within their limits.
        let _rows = regions.len();
        applied.clear();
        for number in 0..SLOTS {
            let slot = &mut self.slots[number];
            let context = Context {
                number: number as u8,
                tick,
                space,
                aggr,
            };
            serve(slot, &context, &mut self.candidates, regions, applied);
        }
    }
}
