ghost use Rattle.std.specs.Prelude.{◌≡◌};
ghost use Rattle.aggregator.specs.Cleared.{cleared};

use region_list::{Regions, ValuePass};

/// Clears the counts at the end of an aggregation: the count of each row becomes its last count,
/// and its count becomes 0.
#[tactic(auto, using(crate::proofs::RowLemmas::spans_cleared))]
pub fn clear_counts(regions: &mut Regions)
    ensures { regions.new ≡ record regions.old { rows = cleared regions.old.rows } }
{
    regions.revalue(&Clearing);
}

// The pass that clears counts.
#[derive(Clone, Copy)]
struct Clearing;

impl ValuePass for Clearing {
    ghost values_of = { λ pass rows. cleared rows };

    ghost can_run = { λ pass rows. Unit {0} };

    fn run(&self, counts: &mut [u32], lasts: &mut [u32], _ages: &mut [u32]) {
        lasts.copy_from_slice(counts);
        counts.fill(0);
    }
}
