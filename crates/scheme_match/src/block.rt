ghost use Rattle.std.specs.Prelude.{◌≡◌, ◌≤◌, ◌<◌, ℕ, Bool, List, length, map, filter, take, cond, slice_index, slice_index_or};
ghost use Rattle.damon_types.specs.declared.row.Row.{Row as row};
ghost use Rattle.scheme_match.specs.Match.{AreTested, is_match};

use crate::matching::fits;
use damon_types::Pattern;

/// The most rows of a block.
pub const BLOCK: usize = 64;

/// Finds the rows of a block that match a pattern (see [`matches`](crate::matches)), from the pages, the
/// counts and the ages of its rows, of which there are at most [`BLOCK`]. The places of those that match
/// are put to the front of `found`, in order, and the result is their number.
///
/// Over columns all rows are tested without a branch, so a caller that goes on with what is found has
/// no branch for each row that a processor may mispredict.
pub fn find_matches(
    pattern: &Pattern,
    pages: &[u32],
    counts: &[u32],
    ages: &[u32],
    found: &mut [usize; BLOCK],
) -> usize
    requires counts { length counts.now ≡ length pages.now }
    requires ages { length ages.now ≡ length pages.now }
    requires few { length pages.now ≤ BLOCK }
    ensures few { result ≤ length pages.now }
    ensures within { (k : ℕ) → k < result → slice_index found.new k < length pages.now }
    ensures rows { (rows : List row) (d : row) → AreTested rows pages.now counts.now ages.now
        → map (λ i. slice_index_or rows i d) (take result found.new)
        ≡ filter (is_match pattern.now) rows }
{
    let mut hits = [false; BLOCK];
    test_rows(*pattern, pages, counts, ages, &mut hits);
    find_hits(&hits, pages.len(), found)
}

// Tests each row of a block.
fn test_rows(
    pattern: Pattern,
    pages: &[u32],
    counts: &[u32],
    ages: &[u32],
    hits: &mut [bool; BLOCK],
)
    requires counts { length counts.now ≡ length pages.now }
    requires ages { length ages.now ≡ length pages.now }
    requires few { length pages.now ≤ BLOCK }
    ensures { (rows : List row) → AreTested rows pages.now counts.now ages.now
        → take (length pages.now) hits.new ≡ map (is_match pattern) rows }
{
    for place in 0..pages.len() {
        hits[place] = fits(pattern, pages[place], counts[place], ages[place]);
    }
}

// Puts the places of those of the first `count` hits that are true to the front of `found`, and returns
// their number. Each place is stored; the next overwrites it where its hit is false.
fn find_hits(hits: &[bool; BLOCK], count: usize, found: &mut [usize; BLOCK]) -> usize
    requires { count ≤ BLOCK }
    ensures few { result ≤ count }
    ensures within { (k : ℕ) → k < result → slice_index found.new k < count }
    ensures rows { (p : row → Bool) (rows : List row) (d : row) → take count hits.now ≡ map p rows
        → map (λ i. slice_index_or rows i d) (take result found.new) ≡ filter p rows }
{
    let mut number = 0;
    for place in 0..count {
        found[number] = place;
        number += one_if(hits[place]);
    }
    number
}

// 1 where it holds, else 0.
fn one_if(holds: bool) -> usize
    ensures { result ≡ cond holds 1 0 }
{
    usize::from(holds)
}
