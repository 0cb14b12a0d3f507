ghost use Rattle.std.specs.Prelude.{◌≡◌, ◌+◌, ◌*◌, ◌/◌, ◌^◌, ◌≤◌, ◌<◌, ◌++◌, length};
ghost use Rattle.std.specs.List.{AllByRecursion};
ghost use Rattle.damon_types.specs.Ranges.{end_of};
ghost use Rattle.damon_types.specs.Span.{spans};
ghost use Rattle.region_list.specs.Tiling.{Tiling};
ghost use Rattle.region_list.specs.Division.{fresh, rows_from, divided, range_row_count};

use crate::RowBuf;
use damon_types::{Range, Ranges, Row};

/// Makes the list the initial division of the ranges. A range of p pages is divided into
/// `max(1, p × min div total)` rows, but at most `p div unit`; they have one size, and the last takes
/// the rest. Counts and ages are 0. `unit` (pages) is at least 1, each range has at least `unit`
/// pages, and the capacity is at least the number of ranges plus `min`. This rule is the project's
/// own.
pub fn divide(ranges: &Ranges, unit: u32, min: u32, rows: &mut RowBuf)
    requires unit { 1 ≤ unit }
    requires wide { AllByRecursion (λ g. unit ≤ g.pages) ranges.now.list }
    requires room { length ranges.now.list + min ≤ rows.old.cap }
    ensures rows { rows.new ≡ record rows.old { rows = divided unit min ranges.now.list } }
    ensures tiling { Tiling unit ranges.now.list (spans rows.new.rows) }
{
    rows.clear();
    let total = ranges.total();
    for index in 0..ranges.len() {
        let range = ranges.get(index);
        let count = row_count(range, total, unit, min);
        push_rows(range, range.pages / count, count, rows);
    }
}

// The number of rows that a range is divided into.
fn row_count(range: Range, total: u32, unit: u32, min: u32) -> u32
    requires unit { 1 ≤ unit }
    requires total { range.pages ≤ total }
    requires wide { unit ≤ range.pages }
    ensures exact { result ≡ range_row_count unit min total range }
    ensures some { 1 ≤ result }
    ensures fits { unit ≤ range.pages / result }
    ensures few { result ≤ min + 1 }
{
    let share = u64::from(range.pages) * u64::from(min) / u64::from(total);
    share.max(1).min(u64::from(range.pages / unit)) as u32
}

// Appends `count` rows of this size for a range; the last takes the rest.
fn push_rows(range: Range, size: u32, count: u32, rows: &mut RowBuf)
    requires some { 1 ≤ count }
    requires fits { size * count ≤ range.pages }
    requires end { end_of range < 2 ^ 32 }
    requires room { length rows.old.rows + count ≤ rows.old.cap }
    ensures { rows.new ≡ record rows.old {
      rows = rows.old.rows ++ rows_from range.target size (end_of range) count range.first;
    } }
{
    let end = range.first + range.pages;
    let mut start = range.first;
    let mut left = count;
    while left > 1 {
        rows.push(fresh_row(range.target, start, size));
        start += size;
        left -= 1;
    }
    rows.push(fresh_row(range.target, start, end - start));
}

// A row that has not been accessed.
fn fresh_row(target: u32, start: u32, pages: u32) -> Row
    ensures { result ≡ fresh target start pages }
{
    Row {
        target,
        start,
        pages,
        count: 0,
        last: 0,
        age: 0,
    }
}
