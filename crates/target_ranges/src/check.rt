ghost use Rattle.std.specs.Prelude.{◌≡◌, Some};
ghost use Rattle.target_ranges.specs.Checked.{checked_within, checked_next, checked_ranges, overlaps};

use crate::{RangeFault, RangeWhy};
use damon_types::{MAX_CLASS, PAGE_SIZE, RangeSpec, Space, Target};

/// Checks whether these ranges can be watched in the space: at most `cap` of them, without overlap,
/// sorted by target and then by address, each of whole pages of its target, with at least one page
/// and at least `unit`, and with a class of at most [`MAX_CLASS`]. An error names the first range
/// that is rejected, and the first reason in the order of [`RangeWhy`].
pub fn check_ranges(
    space: &Space,
    unit: u32,
    cap: u32,
    specs: &[RangeSpec],
) -> Result<(), RangeFault>
    ensures exact { result ≡ checked_ranges space.now unit cap specs.now }
{
    for (index, spec) in specs.iter().enumerate() {
        if let Err(why) = check_next(space, unit, cap, &specs[..index], spec) {
            return Err(RangeFault {
                index: index as u32,
                why,
            });
        }
    }
    Ok(())
}

/// Checks whether a range can follow ranges that are accepted: as [`check_ranges`], for one range
/// more. Looks at the number of ranges before it and at the last of them only, so it takes constant
/// time.
#[tactic(auto, using(crate::proofs::Last::last_by_index))]
pub fn check_next(
    space: &Space,
    unit: u32,
    cap: u32,
    before: &[RangeSpec],
    spec: &RangeSpec,
) -> Result<(), RangeWhy>
    ensures exact { result ≡ checked_next space.now unit cap before.now spec.now }
{
    if before.len() >= cap as usize {
        return Err(RangeWhy::TooMany);
    }
    if spec.target >= space.targets() {
        return Err(RangeWhy::NoSuchTarget);
    }
    check_within(
        space.target(spec.target),
        unit,
        before.last().copied(),
        spec,
    )
}

// The first reason against a range in its target, after the range before it.
fn check_within(
    target: Target,
    unit: u32,
    before: Option<RangeSpec>,
    spec: &RangeSpec,
) -> Result<(), RangeWhy>
    ensures exact { result ≡ checked_within unit before spec.now (Some target) }
{
    if spec.from % PAGE_SIZE != 0 || spec.to % PAGE_SIZE != 0 {
        return Err(RangeWhy::Unaligned);
    }
    if spec.from >= spec.to {
        return Err(RangeWhy::Reversed);
    }
    let size = PAGE_SIZE * u64::from(target.pages);
    if spec.from < target.base || spec.to - target.base > size {
        return Err(RangeWhy::OutsideSpan);
    }
    if (spec.to - spec.from) / PAGE_SIZE < u64::from(unit) {
        return Err(RangeWhy::TooSmall);
    }
    if spec.class > MAX_CLASS {
        return Err(RangeWhy::BadClass);
    }
    if overlaps(before, spec) {
        return Err(RangeWhy::Overlap);
    }
    Ok(())
}

// Whether a range does not come after the one before it.
fn overlaps(before: Option<RangeSpec>, spec: &RangeSpec) -> bool
    ensures exact { result ≡ overlaps before spec.now }
{
    match before {
        Some(last) => {
            spec.target < last.target || spec.target == last.target && spec.from < last.to
        }
        None => false,
    }
}
