ghost use Rattle.std.specs.Prelude.{◌≡◌, ◌<◌, ◌^◌};
ghost use Rattle.std.specs.Option.{option_map};
ghost use Rattle.live_commit.specs.Commit.{commit_value};
ghost use Rattle.live_commit.specs.Accepts.{checked_commit, checked_for_slot, checked_new_attrs, checked_new_ranges, checked_new_slot, checked_number, checked_phase, max_after, ranges_after, steps_made, checked_cost, checked_cost_of};

use crate::{Commit, CommitFault, Phase, View};
use damon_types::{
    Attrs, CostPart, MAX_SLOT, RangeSpecs, Scheme, SchemeFault, SlotChange, Space, Version,
};
use target_ranges::check_ranges;

/// Checks whether a monitor with this space and this view accepts the commit; an error is the first
/// check that failed. The checks, in the order of [`CommitFault`]: the phase is neither `Clearing`
/// nor `Checking`; new ranges are at least one, and each is accepted; the ranges after the commit
/// are no more than the regions that are allowed after it; new attributes are within their limits,
/// and allow at most `cap` regions; a slot that is changed exists, and its new scheme is within its
/// limits; a cost is of a slot that exists, in a version that has costs. The clears and loads that the pass
/// has made must be fewer than 2^32.
pub fn validate(commit: &Commit, space: &Space, view: &View) -> Result<(), CommitFault>
    requires few { steps_made view.now.phase view.now.rows < 2 ^ 32 }
    ensures exact { result ≡ checked_commit space.now view.now (commit_value commit.now) }
{
    check_phase(view.phase, view.rows)?;
    check_new_ranges(space, view.unit, view.cap, &commit.ranges)?;
    check_number(
        ranges_after(&commit.ranges, view.ranges),
        max_after(commit.attrs, view.max),
    )?;
    check_new_attrs(view.cap, commit.attrs)?;
    check_new_slot(view.version, &commit.slot)?;
    check_cost(view.version, commit.cost)
}

// Refuses the phases Clearing and Checking.
fn check_phase(phase: Phase, rows: u32) -> Result<(), CommitFault>
    requires few { steps_made phase rows < 2 ^ 32 }
    ensures { result ≡ checked_phase phase rows }
{
    match phase {
        Phase::Clearing { next } => Err(CommitFault::Busy { next }),
        Phase::Checking { next } => Err(CommitFault::Busy { next: rows + next }),
        _ => Ok(()),
    }
}

// Refuses new ranges that are empty, or of which one is rejected.
fn check_new_ranges(
    space: &Space,
    unit: u32,
    cap: u32,
    ranges: &Option<RangeSpecs>,
) -> Result<(), CommitFault>
    ensures { result ≡ checked_new_ranges space.now unit cap (option_map (λ l. l.list) ranges.now) }
{
    let Some(specs) = ranges else {
        return Ok(());
    };
    if specs.is_empty() {
        return Err(CommitFault::NoRange);
    }
    check_ranges(space, unit, cap, specs.as_slice()).map_err(|fault| CommitFault::BadRange {
        index: fault.index,
        why: fault.why,
    })
}

// The number of ranges after the commit.
fn ranges_after(ranges: &Option<RangeSpecs>, now: u32) -> u32
    ensures { result ≡ ranges_after (option_map (λ l. l.list) ranges.now) now }
{
    match ranges {
        Some(specs) => specs.len(),
        None => now,
    }
}

// The most regions that are allowed after the commit.
fn max_after(attrs: Option<Attrs>, now: u32) -> u32
    ensures { result ≡ max_after attrs now }
{
    attrs.map_or(now, |attrs| attrs.max)
}

// Refuses more ranges than regions are allowed.
fn check_number(ranges: u32, max: u32) -> Result<(), CommitFault>
    ensures { result ≡ checked_number ranges max }
{
    if ranges > max {
        return Err(CommitFault::RangesOverMax { ranges, max });
    }
    Ok(())
}

// Refuses new attributes that break a limit, or allow more regions than `cap`.
fn check_new_attrs(cap: u32, attrs: Option<Attrs>) -> Result<(), CommitFault>
    ensures { result ≡ checked_new_attrs cap attrs }
{
    let Some(attrs) = attrs else {
        return Ok(());
    };
    attrs.check().map_err(|why| CommitFault::BadAttrs { why })?;
    let max = attrs.max;
    if max > cap {
        return Err(CommitFault::OverCap { max, cap });
    }
    Ok(())
}

// Refuses a change of a slot that does not exist, or by a scheme that breaks a limit.
fn check_new_slot(version: Version, change: &Option<SlotChange>) -> Result<(), CommitFault>
    ensures { result ≡ checked_new_slot version change.now }
{
    let Some(change) = change else {
        return Ok(());
    };
    check_for_slot(version, change.slot, &change.scheme).map_err(|why| CommitFault::BadScheme {
        why,
    })
}

// The first limit that a scheme for a slot breaks; without a scheme, whether the slot exists.
fn check_for_slot(version: Version, slot: u8, scheme: &Option<Scheme>) -> Result<(), SchemeFault>
    ensures { result ≡ checked_for_slot version slot scheme.now }
{
    match scheme {
        Some(scheme) => scheme.check_in(version, slot),
        None if slot > MAX_SLOT => Err(SchemeFault::SlotOutOfRange { slot }),
        None => Ok(()),
    }
}

// Refuses a cost of a slot that does not exist, or in a version without costs.
fn check_cost(version: Version, cost: Option<CostPart>) -> Result<(), CommitFault>
    ensures { result ≡ checked_cost version cost }
{
    match cost {
        Some(cost) => check_cost_part(version, cost.slot),
        None => Ok(()),
    }
}

// The same for a cost that is there.
fn check_cost_part(version: Version, slot: u8) -> Result<(), CommitFault>
    ensures { result ≡ checked_cost_of version slot }
{
    match version {
        Version::Two if slot <= MAX_SLOT => Ok(()),
        _ => Err(CommitFault::BadCost { slot }),
    }
}
