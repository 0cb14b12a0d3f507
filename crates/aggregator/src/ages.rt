ghost use Rattle.std.specs.Prelude.{◌≡◌, ◌+◌, ◌||◌, List, length, map, min, nat_lt, if◌then◌else◌};
ghost use Rattle.std.specs.Int.{abs_diff};
ghost use Rattle.damon_types.specs.declared.row.Row.{Row as row};
ghost use Rattle.region_list.specs.Columns.{AreValues};
ghost use Rattle.aggregator.specs.Aged.{aged, is_anew, came_or_went as came_or_went_count, max_age};

use damon_types::Version;
use region_list::{Regions, ValuePass};

/// Ages all rows by one aggregation. A row whose count and last count differ by more than the
/// threshold (in passes) gets age 0, in version Two also a row of which exactly one of the two is 0.
/// The age of any other row rises by one and stops at 4,294,967,295.
#[tactic(auto, using(crate::proofs::RowLemmas::spans_aged))]
pub fn age_all(regions: &mut Regions, threshold: u32, version: Version)
    ensures { regions.new ≡ record regions.old { rows = aged threshold version regions.old.rows } }
{
    regions.revalue(&Aging { threshold, version });
}

// The pass that ages rows.
#[derive(Clone, Copy)]
struct Aging {
    threshold: u32,
    version: Version,
}

impl ValuePass for Aging {
    ghost values_of = { λ pass rows. aged pass.threshold pass.version rows };

    ghost can_run = { λ pass rows. Unit {0} };

    fn run(&self, counts: &mut [u32], lasts: &mut [u32], ages: &mut [u32]) {
        self.age_values(counts, lasts, ages);
    }
}

impl Aging {
    // Ages rows that have these counts, last counts and ages.
    fn age_values(self, counts: &[u32], lasts: &[u32], ages: &mut [u32])
        requires lasts { length lasts.now ≡ length counts.now }
        requires ages { length ages.old ≡ length counts.now }
        ensures { (rows : List row) → AreValues rows counts.now lasts.now ages.old
            → ages.new ≡ map (λ r. r.age) (aged self.threshold self.version rows) }
    {
        for index in 0..ages.len() {
            ages[index] = self.next_age(counts[index], lasts[index], ages[index]);
        }
    }

    // The next age of a row with this count, last count and age.
    fn next_age(self, count: u32, last: u32, age: u32) -> u32
        ensures { result
            ≡ (if nat_lt self.threshold (abs_diff count last) || is_anew self.version count last
            then 0
            else min (age + 1) max_age) }
    {
        if count.abs_diff(last) > self.threshold || begins_anew(self.version, count, last) {
            0
        } else {
            age.saturating_add(1)
        }
    }
}

// Whether a row begins anew: in version Two, where exactly one of its count and last count is 0.
fn begins_anew(version: Version, count: u32, last: u32) -> bool
    ensures { result ≡ is_anew version count last }
{
    match version {
        Version::One => false,
        Version::Two => came_or_went(count, last),
    }
}

// Whether exactly one of the counts is 0.
fn came_or_went(count: u32, last: u32) -> bool
    ensures { result ≡ came_or_went_count count last }
{
    if count == 0 { last != 0 } else { last == 0 }
}
