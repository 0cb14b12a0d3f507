ghost use Rattle.std.specs.Prelude.{◌≡◌, ◌+◌, ◌*◌, ◌≤◌, length};
ghost use Rattle.std.specs.List.{AllByRecursion};
ghost use Rattle.damon_types.specs.Span.{spans};
ghost use Rattle.region_list.specs.Tiling.{Tiling};
ghost use Rattle.range_update.specs.Order.{RowsInOrder};
ghost use Rattle.range_update.specs.Updated.{all_pieces, updated};

use crate::pieces::cut_range;
use damon_types::{Ranges, Row};
use region_list::{Regions, RowBuf, shrink_rows};

/// Replaces the ranges of a monitor, its rows, and `max`, the most rows allowed.
///
/// Each new range is cut into pieces at boundaries of old rows, the pages where they start or end.
/// From left to right, a boundary is kept where it is at least `unit` pages after the boundary kept
/// last (or after the first page of the range), and at least `unit` pages before the end of the
/// range. A piece has the count, last count and age of the old row that covers its first page, and
/// zeros where there is none. Then the pieces are shrunk to at most `max` rows (`shrink_rows`).
///
/// There are at most `max` new ranges, each of at least `unit` pages; `max` is 1 to `cap`. `scratch`
/// has room for three times `cap` rows; its contents mean nothing before and after the call. Takes
/// no memory. This rule is the project's own.
pub fn update(regions: &mut Regions, ranges: &Ranges, max: u32, scratch: &mut RowBuf)
    requires few { length ranges.now.list ≤ max }
    requires wide { AllByRecursion (λ g. regions.old.unit ≤ g.pages) ranges.now.list }
    requires least { 1 ≤ max }
    requires most { max ≤ regions.old.cap }
    requires room { 3 * regions.old.cap ≤ scratch.old.cap }
    ensures regions { regions.new ≡ record regions.old {
      ranges = ranges.now.list;
      rows = updated regions.old.unit max regions.old.rows ranges.now.list;
      max = max;
    } }
    ensures scratch { scratch.new.cap ≡ scratch.old.cap }
{
    cut_ranges(regions.rows(), ranges, regions.unit(), scratch);
    shrink_rows(scratch, ranges, max);
    regions.replace(ranges, scratch, max);
}

// Makes the list the pieces of all new ranges.
fn cut_ranges(rows: &RowBuf, ranges: &Ranges, unit: u32, made: &mut RowBuf)
    requires order { RowsInOrder 0 rows.now.rows }
    requires unit { 1 ≤ unit }
    requires wide { AllByRecursion (λ g. unit ≤ g.pages) ranges.now.list }
    requires room { length ranges.now.list + 2 * length rows.now.rows ≤ made.old.cap }
    ensures made { made.new ≡ record made.old { rows = all_pieces unit rows.now.rows ranges.now.list } }
    ensures tiling { Tiling unit ranges.now.list (spans made.new.rows) }
{
    made.clear();
    // New ranges ascend too, so each search for rows begins where the last one ended.
    let mut from = 0;
    'each: for index in 0..ranges.len() {
        from = cut_range(rows, ranges.get(index), unit, from, made);
    }
}
