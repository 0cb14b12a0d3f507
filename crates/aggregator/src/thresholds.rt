ghost use Rattle.std.specs.Prelude.{◌≡◌, fold, max};
ghost use Rattle.aggregator.specs.Threshold.{threshold as threshold_of};

use region_list::Regions;

/// The threshold of an aggregation, in passes: a change of a count by at most the threshold is
/// small. It is the highest count of any row divided by 10, rounded down, and 0 where there are no
/// rows.
pub fn threshold(regions: &Regions) -> u32
    ensures { result ≡ threshold_of regions.now.rows }
{
    highest(regions.rows().counts()) / 10
}

// The highest of these numbers, 0 where there are none.
fn highest(counts: &[u32]) -> u32
    ensures { result ≡ fold (λ most n. max most n) 0 counts.now }
{
    counts
        .iter()
        .fold(0, |highest, count| (*count).max(highest))
}
