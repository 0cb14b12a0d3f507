ghost use Rattle.std.specs.Prelude.{◌≡◌, ◌+◌, ◌^◌, ◌<◌, List, length, map, cond};
ghost use Rattle.std.specs.List.{AllByRecursion};
ghost use Rattle.damon_types.specs.declared.row.Row.{Row as row};
ghost use Rattle.sampler.specs.Counted.{raised};

use crate::Picks;
use region_list::{Regions, ValuePass};

/// Raises by one the count of each row whose check was a hit. Nothing else changes. There are as many
/// picks as rows, and no count is the greatest that a `u32` holds.
pub fn observe(regions: &mut Regions, picks: &Picks)
    requires picks { length picks.now.pages ≡ length regions.old.rows }
    requires small { AllByRecursion (λ r. r.count + 1 < 2 ^ 32) regions.old.rows }
    ensures { regions.new ≡ record regions.old { rows = raised picks.now.bits regions.old.rows } }
{
    // A pass without a hit changes no row, and to see that takes one look at the bits.
    if picks.any_hit() {
        regions.revalue(&Raising { bits: picks.bits() });
    }
}

// The pass that raises the counts of rows whose check was a hit.
#[derive(Clone, Copy)]
struct Raising<'a> {
    bits: &'a [bool],
}

impl ValuePass for Raising<'_> {
    ghost values_of = { λ pass rows. raised pass.bits.now rows };

    ghost can_run = { λ pass rows. (length pass.bits.now ≡ length rows)
        × AllByRecursion (λ r. r.count + 1 < 2 ^ 32) rows };

    fn run(&self, counts: &mut [u32], _lasts: &mut [u32], _ages: &mut [u32]) {
        raise_counts(counts, self.bits);
    }
}

// Raises each of these counts whose bit is true.
fn raise_counts(counts: &mut [u32], bits: &[bool])
    requires bits { length bits.now ≡ length counts.old }
    requires small { AllByRecursion (λ n. n + 1 < 2 ^ 32) counts.old }
    ensures { (rows : List row) → counts.old ≡ map (λ r. r.count) rows
        → counts.new ≡ map (λ r. r.count) (raised bits.now rows) }
{
    for index in 0..counts.len() {
        counts[index] = raised_count(counts[index], bits[index]);
    }
}

// The count after a pass.
fn raised_count(count: u32, hit: bool) -> u32
    requires { count + 1 < 2 ^ 32 }
    ensures { result ≡ count + cond hit 1 0 }
{
    count + u32::from(hit)
}
