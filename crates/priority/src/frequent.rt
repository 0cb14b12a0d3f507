// The scores of frequent rows, which are those with few of all pages and few accesses.
ghost use Rattle.std.specs.Prelude.{◌≡◌, ◌+◌, ◌≤◌, ℕ, max, slice_index};
ghost use Rattle.priority.specs.Frequent.{AreByAge, AreFrequent};

use crate::scoring::{MAX_SCORE, Scale, preferred, weighted_mean};
use damon_types::{Prefer, Scheme, Weights};
use reciprocal::Reciprocal;

// The number of ages that make a difference to a score.
pub(crate) const AGES: usize = MAX_SCORE as usize + 1;

// For fewer rows it takes longer to list the scores than to find them one by one.
const MANY_ROWS: u32 = 256;

/// The scores of the rows with fewer than `pages` pages and a count below `count`, by age. Such pages and
/// counts are 0 on the scale of scores. No row is listed where `pages` is 0.
#[derive(Debug, Drop)]
pub(crate) struct FrequentScores {
    pub(crate) pages: u32,
    pub(crate) count: u32,
    // In bytes, since the list is made for each scheme.
    pub(crate) by_age: [u8; AGES],
}

impl FrequentScores {
    // The list to score `rows` rows with. It lists no row where they are few.
    pub(crate) fn of(
        rows: u32,
        pages: &Scale,
        counts: &Scale,
        scheme: &Scheme,
        by_sum: &Reciprocal,
    ) -> FrequentScores
        requires { by_sum.now ≡ max
            (scheme.now.weights.size + scheme.now.weights.count + scheme.now.weights.age) 1 }
        ensures { AreFrequent pages.now counts.now scheme.now.weights scheme.now.prefer result }
    {
        if rows < MANY_ROWS {
            return FrequentScores {
                pages: 0,
                count: 0,
                by_age: [0; AGES],
            };
        }
        FrequentScores {
            pages: pages.least(),
            count: counts.least(),
            by_age: scores_by_age(scheme.weights, scheme.prefer, by_sum),
        }
    }
}

// By age, the scores of rows whose pages and count are 0 on the scale of scores.
fn scores_by_age(weights: Weights, prefer: Prefer, by_sum: &Reciprocal) -> [u8; AGES]
    requires { by_sum.now ≡ max (weights.size + weights.count + weights.age) 1 }
    ensures { AreByAge weights prefer result }
{
    let count = preferred(prefer, 0);
    let mut scores = [0; AGES];
    for age in 0..AGES {
        scores[age] = weighted_mean(weights, by_sum, 0, count, age as u32) as u8;
    }
    scores
}
