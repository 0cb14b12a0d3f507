// Sums by an index.
ghost use Rattle.std.specs.Prelude.{◌≡◌, ◌≤◌, ◌<◌, ◌+◌, ◌^◌, ℕ, List, length, sum, replicate, slice_index, slice_set, nat_le, if◌then◌else◌, None, IfSome, ◌↔◌};
ghost use Rattle.priority.specs.Histogram.{sum_from};

use std::marker::Model;

/// A number of pages for each index below `N`.
#[derive(Debug, Drop)]
pub struct Histogram<const N: usize> {
    sums: [u64; N],
}

impl<const N: usize> Model for Histogram<N> {
    ghost Value = { List ℕ };

    ghost view = { λ h. h.sums };

    ghost invariant = { λ h. (1 ≤ N) × (N ≤ 4096) × (sum h.sums < 2 ^ 64) };
}

impl<const N: usize> Histogram<N> {
    /// No pages at any index. `N` is from 1 to 4,096.
    pub fn new() -> Histogram<N>
        requires some { 1 ≤ N }
        requires few { N ≤ 4096 }
        ensures zeros { result ≡ replicate N 0 }
        ensures from { (i : ℕ) → sum_from result i ≡ 0 }
    {
        Histogram { sums: [0; N] }
    }

    /// Adds pages at an index. The pages at all indexes stay within 64 bits.
    #[inline]
    pub fn add(&mut self, index: u32, pages: u64)
        requires index { index < N }
        requires fits { sum self.old + pages < 2 ^ 64 }
        ensures at { self.new ≡ slice_set self.old index (slice_index self.old index + pages) }
        ensures from { (i : ℕ) → sum_from self.new i
            ≡ sum_from self.old i + (if nat_le i index then pages else 0) }
    {
        self.sums[index as usize] += pages;
    }

    /// The pages at an index.
    pub fn sum(&self, index: u32) -> u64
        requires { index < N }
        ensures { result ≡ slice_index self.now index }
    {
        self.sums[index as usize]
    }

    /// The pages at each index, in order.
    pub fn sums(&self) -> &[u64]
        ensures { result.now ≡ self.now }
    {
        &self.sums
    }

    /// The pages at an index and above; `index` is at most `N`. Its clauses also say how long each
    /// list is.
    pub fn from(&self, index: u32) -> u64
        requires { index ≤ N }
        ensures sum { result ≡ sum_from self.now index }
        ensures len { length self.now ≡ N }
    {
        let sums = &self.sums[..];
        sum_of(&sums[index as usize..])
    }

    /// The greatest index from which upward there are at least `left` pages; `None` exactly where
    /// there are fewer in all.
    pub fn cut(&self, left: u64) -> Option<u32>
        ensures some { IfSome result (λ i. (i < N) × (left ≤ sum_from self.now i)) }
        ensures greatest { IfSome result (λ i. (j : ℕ) → i < j → j < N
            → sum_from self.now j < left) }
        ensures none { (result ≡ None) ↔ (sum self.now < left) }
    {
        cut_of(&self.sums, left)
    }
}

// The sum of numbers.
fn sum_of(numbers: &[u64]) -> u64
    requires { sum numbers.now < 2 ^ 64 }
    ensures { result ≡ sum numbers.now }
{
    numbers.iter().sum()
}

// The greatest index from which upward the sum is at least `left`.
fn cut_of(sums: &[u64], left: u64) -> Option<u32>
    requires some { 1 ≤ length sums.now }
    requires few { length sums.now ≤ 4096 }
    requires fits { sum sums.now < 2 ^ 64 }
    ensures some { IfSome result (λ i. (i < length sums.now) × (left ≤ sum_from sums.now i)) }
    ensures greatest { IfSome result (λ i. (j : ℕ) → i < j → j < length sums.now
        → sum_from sums.now j < left) }
    ensures none { (result ≡ None) ↔ (sum sums.now < left) }
{
    let mut sum = 0;
    let mut index = sums.len();
    while index > 0 {
        index -= 1;
        sum += sums[index];
        if sum >= left {
            return Some(index as u32);
        }
    }
    None
}
