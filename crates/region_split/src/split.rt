ghost use Rattle.std.specs.Prelude.{◌≡◌, ◌+◌, ◌-◌, ◌*◌, ◌≤◌, ◌<◌, ◌^◌, ◌++◌, length};
ghost use Rattle.region_split.specs.Split.{wants_three as wants_three_of, two_parts, three_parts, split_from, split_rows};

use crate::cut::{Limits, cut_place, left, may_cut, right};
use damon_types::{Ranges, Row};
use region_list::{Regions, RowBuf, RowPass, tiled_rows_fit};

/// Splits the rows at random places, from left to right. Row `i` is split by the words `2 i` and
/// `2 i + 1`, so there are two words for each row.
///
/// Two parts are wanted of each row, or three where the number of rows is `before` and below
/// `max div 3`. `before` is the number of rows at the start of the previous split, and 0 before the
/// first.
///
/// A word cuts a row of p pages after `(1 + word mod 9) × p div 10` pages. The cut is made where
/// the number of rows at that moment is below `max` and both sides have at least `unit` pages.
/// Where three parts are wanted and the first word made a cut, the second word cuts the right side
/// by the same rule. The parts have the count, last count and age of their row.
///
/// The split rule is this project's own.
#[tactic(auto, using(crate::proofs::SplitLemmas::tiling_split, crate::proofs::SplitLemmas::length_split))]
pub fn split_all(regions: &mut Regions, words: &[u32], before: u32)
    requires words { 2 * length regions.old.rows ≤ length words.now }
    ensures { regions.new
        ≡ record regions.old {
          rows = split_rows regions.old.max regions.old.unit before words.now regions.old.rows;
        } }
{
    let count = regions.len();
    let max = regions.max();
    // No row is cut where there are as many as are allowed, and then none is copied.
    if count >= max {
        return;
    }
    let three = wants_three(count, max, before);
    let limits = Limits {
        max,
        unit: regions.unit(),
    };
    regions.remake(&Split {
        limits,
        three,
        words,
    });
}

// Whether three parts are wanted, `count` being the number of rows.
fn wants_three(count: u32, max: u32, before: u32) -> bool
    ensures { result ≡ wants_three_of max before count }
{
    count == before && count < max / 3
}

// The pass of a split, in two parts or in three.
#[derive(Drop)]
struct Split<'a> {
    limits: Limits,
    three: bool,
    words: &'a [u32],
}

impl RowPass for Split<'_> {
    ghost rows_of = { λ s gs rows. split_from s.limits s.three s.words.now (length rows) 0 rows };

    ghost can_run = { λ s rows. 2 * length rows ≤ length s.words.now };

    fn run(&self, ranges: &Ranges, rows: &RowBuf, made: &mut RowBuf) {
        // For their clauses alone: each row ends below page 2^32.
        let _count = ranges.len();
        tiled_rows_fit();
        // The number of rows now.
        let mut count = rows.len() as usize;
        for index in 0..rows.len() {
            // No row is cut once there are as many as are allowed, so the rest is copied in one piece.
            if count >= self.limits.max as usize {
                made.append_rows(rows, index as usize, rows.count());
                return;
            }
            let words = (
                self.words[2 * index as usize],
                self.words[2 * index as usize + 1],
            );
            count = if self.three {
                push_three_parts(self.limits, count, rows.next(index), words, made)
            } else {
                push_two_parts(self.limits, count, rows.next(index), words.0, made)
            };
        }
    }
}

// Pushes a row, or its two parts where it may be cut. `count` is the number of rows now, and the
// result the number after the cut.
fn push_two_parts(limits: Limits, count: usize, row: Row, word: u32, made: &mut RowBuf) -> usize
    requires end { row.start + row.pages < 2 ^ 32 }
    requires room { length made.old.rows + length (two_parts limits count word row)
        ≤ made.old.cap }
    ensures rows { made.new ≡ record made.old { rows = made.old.rows ++ two_parts limits count word row } }
    ensures count { result ≡ count + length (two_parts limits count word row) - 1 }
{
    let at = cut_place(row.pages, word);
    if may_cut(limits, count, row.pages, at) {
        made.push(left(&row, at));
        made.push(right(&row, at));
        count + 1
    } else {
        made.push(row);
        count
    }
}

// Pushes a row, or its parts where it may be cut by its two words: three where its right side may be cut
// too. `count` is the number of rows now, and the result the number after the cuts.
fn push_three_parts(
    limits: Limits,
    count: usize,
    row: Row,
    words: (u32, u32),
    made: &mut RowBuf,
) -> usize
    requires end { row.start + row.pages < 2 ^ 32 }
    requires room { length made.old.rows + length (three_parts limits count words.0 words.1 row)
        ≤ made.old.cap }
    ensures rows { made.new ≡ record made.old {
      rows = made.old.rows ++ three_parts limits count words.0 words.1 row;
    } }
    ensures count { result ≡ count + length (three_parts limits count words.0 words.1 row) - 1 }
{
    let (first, second) = words;
    let at = cut_place(row.pages, first);
    if may_cut(limits, count, row.pages, at) {
        made.push(left(&row, at));
        push_two_parts(limits, count + 1, right(&row, at), second, made)
    } else {
        made.push(row);
        count
    }
}
