ghost use Rattle.std.specs.Prelude.{◌≡◌, ◌+◌, ◌≤◌, ◌<◌, ◌*◌, ◌^◌, max, min};
ghost use Rattle.priority.specs.Frequent.{AreFrequent};
ghost use Rattle.priority.specs.Score.{preferred, scaled, score_by, score_of, weighted_mean};

use crate::frequent::FrequentScores;
use damon_types::{Prefer, Row, Scheme, Weights};
use reciprocal::Reciprocal;
use std::marker::Model;

/// The greatest score.
pub const MAX_SCORE: u32 = 99;

/// Scores rows for one scheme. It holds the reciprocals of all divisors and a list of frequent scores, so
/// it is made once for many rows.
#[derive(Debug, Drop)]
pub struct Scorer {
    pages: Scale,
    counts: Scale,
    weights: Weights,
    prefer: Prefer,
    // Of the sum of the weights, or of 1 where that is 0.
    by_sum: Reciprocal,
    frequent: FrequentScores,
}

impl Model for Scorer {
    ghost use Rattle.std.specs.Prelude.{◌≡◌, ◌+◌, max};
    ghost use Rattle.priority.specs.Frequent.{AreFrequent};
    ghost use Rattle.priority.specs.Score.{Scoring};

    ghost Value = { Scoring };

    ghost view = { λ s. record {
      total = s.pages;
      aggr = s.counts;
      weights = s.weights;
      prefer = s.prefer;
    } };

    ghost invariant = { λ s. (s.by_sum ≡ max (s.weights.size + s.weights.count + s.weights.age) 1)
        × AreFrequent s.pages s.counts s.weights s.prefer s.frequent };
}

impl Scorer {
    /// What scores rows for a scheme, where `total` is the number of pages of all ranges (at least 1)
    /// and `aggr` the number of passes of an aggregation (at least 1). Only the time that it takes depends
    /// on `rows`, the number of rows that will be scored.
    pub fn new(total: u32, aggr: u32, rows: u32, scheme: &Scheme) -> Scorer
        requires total { 1 ≤ total }
        requires aggr { 1 ≤ aggr }
        ensures { result ≡ record {
          total = total;
          aggr = aggr;
          weights = scheme.now.weights;
          prefer = scheme.now.prefer;
        } }
    {
        let weights = scheme.weights;
        let pages = Scale::of(total);
        let counts = Scale::of(aggr);
        let by_sum = Reciprocal::of(sum_of(weights).max(1));
        let frequent = FrequentScores::of(rows, &pages, &counts, scheme, &by_sum);
        Scorer {
            pages,
            counts,
            weights,
            prefer: scheme.prefer,
            by_sum,
            frequent,
        }
    }

    /// The score of a row, at most [`MAX_SCORE`]: the mean, by the weights of the scheme, of three
    /// numbers. They are 99 × pages / total; 99 × count / aggr, or 99 minus that number if the scheme
    /// prefers cold rows; and the age. Each of them stops at 99. All quotients are rounded down. With
    /// all weights 0 the score is 0. The rule is this project's own.
    #[inline]
    pub fn score(&self, row: &Row) -> u32
        ensures exact { result ≡ score_by self.now row.now }
        ensures most { result ≤ MAX_SCORE }
    {
        // `&` and not `&&`: one branch for two comparisons.
        if (row.pages < self.frequent.pages) & (row.count < self.frequent.count) {
            return u32::from(self.frequent.by_age[row.age.min(MAX_SCORE) as usize]);
        }
        self.score_of_parts(row.pages, row.count, row.age)
    }

    // The score of a row with these pages, this count and this age. It stands by itself and takes numbers, so
    // that a caller's loop keeps its values in registers.
    #[inline(never)]
    fn score_of_parts(&self, pages: u32, count: u32, age: u32) -> u32
        ensures exact { result ≡ weighted_mean self.now.weights (scaled pages self.now.total)
            (preferred self.now.prefer (scaled count self.now.aggr)) (min age MAX_SCORE) }
        ensures most { result ≤ MAX_SCORE }
    {
        let size = self.pages.scaled(pages);
        let count = preferred(self.prefer, self.counts.scaled(count));
        let age = age.min(MAX_SCORE);
        weighted_mean(self.weights, &self.by_sum, size, count, age)
    }
}

/// The score of a row for a scheme, as [`Scorer::score`] gives it. For many rows make a [`Scorer`].
pub fn score(row: &Row, total: u32, aggr: u32, scheme: &Scheme) -> u32
    requires total { 1 ≤ total }
    requires aggr { 1 ≤ aggr }
    ensures exact { result ≡ score_of row.now total aggr scheme.now }
    ensures most { result ≤ MAX_SCORE }
{
    Scorer::new(total, aggr, 1, scheme).score(row)
}

// Numbers as parts of a whole.
#[derive(Debug, Drop)]
pub(crate) struct Scale {
    whole: u32,
    // Smaller numbers are 0 on the scale of scores.
    least: u32,
    by_whole: Reciprocal,
}

impl Model for Scale {
    ghost use Rattle.std.specs.Prelude.{◌≡◌, ◌+◌, ◌*◌, ◌≤◌, ◌<◌, ℕ};
    ghost use Rattle.priority.specs.declared.scoring.TheConstants.{MAX_SCORE};

    ghost Value = { ℕ };

    ghost view = { λ s. s.whole };

    ghost invariant = { λ s. (1 ≤ s.whole) × (s.by_whole ≡ s.whole)
        × (s.least * MAX_SCORE < s.whole + MAX_SCORE) };
}

impl Scale {
    fn of(whole: u32) -> Scale
        requires { 1 ≤ whole }
        ensures { result ≡ whole }
    {
        Scale {
            whole,
            least: whole.div_ceil(MAX_SCORE),
            by_whole: Reciprocal::of(whole),
        }
    }

    // A number below which each number is 0 on that scale.
    pub(crate) fn least(&self) -> u32
        ensures { result * MAX_SCORE < self.now + MAX_SCORE }
    {
        self.least
    }

    // A number as a part of the whole, on a scale from 0 to the greatest score, rounded down.
    fn scaled(&self, number: u32) -> u32
        ensures exact { result ≡ scaled number self.now }
        ensures most { result ≤ MAX_SCORE }
    {
        if number < self.least {
            return 0;
        }
        let part = number.min(self.whole);
        if self.whole <= u32::MAX / MAX_SCORE {
            self.by_whole.quotient(MAX_SCORE * part)
        } else {
            // The product takes more than 32 bits.
            (u64::from(MAX_SCORE) * u64::from(part) / u64::from(self.whole)) as u32
        }
    }
}

// The sum of weights.
fn sum_of(weights: Weights) -> u32
    ensures exact { result ≡ weights.size + weights.count + weights.age }
    ensures few { result < 2 ^ 18 }
{
    u32::from(weights.size) + u32::from(weights.count) + u32::from(weights.age)
}

// An access count on that scale, or its distance from the greatest score if cold rows are
// preferred.
pub(crate) fn preferred(prefer: Prefer, count: u32) -> u32
    requires { count ≤ MAX_SCORE }
    ensures exact { result ≡ preferred prefer count }
    ensures most { result ≤ MAX_SCORE }
{
    match prefer {
        Prefer::Hot => count,
        Prefer::Cold => MAX_SCORE - count,
    }
}

// The mean of three numbers by their weights, rounded down, and 0 where all weights are 0: 0 divided by 1.
pub(crate) fn weighted_mean(
    weights: Weights,
    by_sum: &Reciprocal,
    size: u32,
    count: u32,
    age: u32,
) -> u32
    requires sum { by_sum.now ≡ max (weights.size + weights.count + weights.age) 1 }
    requires size { size ≤ MAX_SCORE }
    requires count { count ≤ MAX_SCORE }
    requires age { age ≤ MAX_SCORE }
    ensures exact { result ≡ weighted_mean weights size count age }
    ensures most { result ≤ MAX_SCORE }
{
    let [by_size, by_count, by_age] = [weights.size, weights.count, weights.age].map(u32::from);
    by_sum.quotient(by_size * size + by_count * count + by_age * age)
}
