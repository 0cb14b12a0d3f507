ghost use Rattle.std.specs.Prelude.{◌≡◌, ◌<◌, ◌^◌, length, Ok, IfOk};
ghost use Rattle.live_commit.specs.Checked.{AnswersAs, checked_limits, checked_setup, checked_watched};
ghost use Rattle.live_commit.specs.SetupView.{setup_of, value_of};

use crate::slots::{check_slots, keep_slots};
use crate::{MAX_CAP, MAX_UNIT, MIN_CAP, Setup, SetupFault};
use damon_types::{Attrs, RangeSpec, Ranges, SlotChange, Space, Version};
use std::alloc::{AllocError, Global};
use target_ranges::{check_ranges, fill_checked};

impl Setup {
    /// A setup of these parts; an error is the first check that failed, in the order of
    /// [`SetupFault`]. `unit` is in pages, and `specs` are in bytes of their targets. A slot change
    /// without a scheme is ignored. There must be fewer than 2^32 specs and slot changes.
    /// Allocates.
    pub fn new(
        alloc: Global,
        version: Version,
        space: Space,
        unit: u32,
        cap: u32,
        attrs: Attrs,
        specs: &[RangeSpec],
        slots: &[SlotChange],
    ) -> Result<Setup, SetupFault>
        requires ranges { length specs.now < 2 ^ 32 }
        requires slots { length slots.now < 2 ^ 32 }
        ensures exact { AnswersAs (checked_setup version space unit cap attrs specs.now slots.now) result }
        ensures made { IfOk result (λ s.
            value_of s ≡ setup_of version space unit cap attrs specs.now slots.now) }
        ensures room { IfOk result (λ s. s.ranges.cap ≡ cap) }
    {
        check_limits(unit, cap, &attrs)?;
        check_watched(&space, unit, cap, attrs.max, specs)?;
        check_slots(version, slots)?;
        let setup = Setup::of_checked(alloc, version, space, unit, cap, attrs, specs, slots)?;
        Ok(setup)
    }

    /// A setup of parts for which no check of [`Setup::new`] fails. There must be fewer than 2^32
    /// slot changes. Allocates; the only error is out of memory.
    pub fn of_checked(
        alloc: Global,
        version: Version,
        space: Space,
        unit: u32,
        cap: u32,
        attrs: Attrs,
        specs: &[RangeSpec],
        slots: &[SlotChange],
    ) -> Result<Setup, AllocError>
        requires slots { length slots.now < 2 ^ 32 }
        requires checked { checked_setup version space unit cap attrs specs.now slots.now ≡ Ok tt }
        ensures made { IfOk result (λ s.
            value_of s ≡ setup_of version space unit cap attrs specs.now slots.now) }
        ensures room { IfOk result (λ s. s.ranges.cap ≡ cap) }
    {
        let mut ranges = Ranges::new(alloc, cap)?;
        fill_checked(&mut ranges, &space, specs);
        let slots = keep_slots(alloc, slots)?;
        Ok(Setup {
            version,
            space,
            unit,
            cap,
            attrs,
            ranges,
            slots,
        })
    }
}

// The first check of the numbers that fails.
fn check_limits(unit: u32, cap: u32, attrs: &Attrs) -> Result<(), SetupFault>
    ensures { result ≡ checked_limits unit cap attrs.now }
{
    if unit < 1 || unit > MAX_UNIT {
        return Err(SetupFault::BadUnit { unit });
    }
    if cap < MIN_CAP || cap > MAX_CAP {
        return Err(SetupFault::BadCap { cap });
    }
    attrs.check().map_err(|why| SetupFault::BadAttrs { why })?;
    let max = attrs.max;
    if max > cap {
        return Err(SetupFault::OverCap { max, cap });
    }
    Ok(())
}

// The first check of the ranges that fails.
fn check_watched(
    space: &Space,
    unit: u32,
    cap: u32,
    max: u32,
    specs: &[RangeSpec],
) -> Result<(), SetupFault>
    requires { length specs.now < 2 ^ 32 }
    ensures { result ≡ checked_watched space.now unit cap max specs.now }
{
    if specs.is_empty() {
        return Err(SetupFault::NoRange);
    }
    check_ranges(space, unit, cap, specs).map_err(|fault| SetupFault::BadRange {
        index: fault.index,
        why: fault.why,
    })?;
    let ranges = specs.len() as u32;
    if ranges > max {
        return Err(SetupFault::RangesOverMax { ranges, max });
    }
    Ok(())
}
