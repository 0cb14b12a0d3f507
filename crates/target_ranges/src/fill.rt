ghost use Rattle.std.specs.Prelude.{◌≡◌, ℕ, ◌≤◌, ◌<◌, All, OnOk, OnErr, Ok};
ghost use Rattle.damon_types.specs.declared.range.TheConstants.{MAX_CLASS};
ghost use Rattle.damon_types.specs.Space.{IsSpace};
ghost use Rattle.damon_types.specs.Within.{AreWithin};
ghost use Rattle.target_ranges.specs.Checked.{checked_ranges};
ghost use Rattle.target_ranges.specs.Made.{IsPlaced, range_of, ranges_of};

use crate::{RangeFault, check_ranges};
use damon_types::{PAGE_SIZE, Range, RangeSpec, Ranges, Space};

/// Checks ranges as [`check_ranges`] does, with the capacity of `ranges` as `cap`, and replaces
/// `ranges` by their pages. On an error `ranges` is unchanged. Does not allocate.
pub fn fill_ranges(
    ranges: &mut Ranges,
    space: &Space,
    unit: u32,
    specs: &[RangeSpec],
) -> Result<(), RangeFault>
    ensures exact { result ≡ checked_ranges space.now unit ranges.old.cap specs.now }
    ensures made { OnOk result
        (ranges.new ≡ record ranges.old { list = ranges_of space.now specs.now }) }
    ensures kept { OnErr result (ranges.new ≡ ranges.old) }
    ensures within { OnOk result (AreWithin space.now ranges.new.list) }
    ensures wide { OnOk result (All (λ g. unit ≤ g.pages) ranges.new.list) }
    ensures classes { OnOk result (All (λ g. g.class ≤ MAX_CLASS) ranges.new.list) }
{
    check_ranges(space, unit, ranges.cap(), specs)?;
    fill_checked(ranges, space, specs);
    Ok(())
}

/// Replaces `ranges` by the pages of ranges that [`check_ranges`] accepts, for some unit and with
/// the capacity of `ranges` as `cap`. Does not allocate.
pub fn fill_checked(ranges: &mut Ranges, space: &Space, specs: &[RangeSpec])
    requires { (unit : ℕ) × (checked_ranges space.now unit ranges.old.cap specs.now ≡ Ok tt) }
    ensures made { ranges.new ≡ record ranges.old { list = ranges_of space.now specs.now } }
    ensures within { AreWithin space.now ranges.new.list }
    // for each unit with which they are accepted
    ensures wide { (unit : ℕ) → checked_ranges space.now unit ranges.old.cap specs.now ≡ Ok tt
        → All (λ g. unit ≤ g.pages) ranges.new.list }
    ensures classes { All (λ g. g.class ≤ MAX_CLASS) ranges.new.list }
{
    ranges.clear();
    for spec in specs {
        ranges.push(range_of(space, spec));
    }
}

// The pages of a range, whose addresses are multiples of the page size and lie in its target.
fn range_of(space: &Space, spec: &RangeSpec) -> Range
    requires { IsPlaced space.now spec.now }
    ensures exact { result ≡ range_of space.now spec.now }
    ensures sound { IsSpace space.now }
{
    prove!(spec.target < space.targets());
    let first = space.page_of(spec.target, spec.from).unwrap();
    Range {
        target: spec.target,
        first,
        pages: ((spec.to - spec.from) / PAGE_SIZE) as u32,
        class: spec.class,
    }
}
