ghost use Rattle.std.specs.Prelude.{◌≡◌, ◌⊎◌, ℕ, ◌+◌, ◌^◌, ◌≤◌, ◌<◌, length, slice_get, nat_le, IfNone, IfSome, if◌then◌else◌};
ghost use Rattle.damon_types.specs.Ranges.{InOrder};
ghost use Rattle.damon_types.specs.Span.{spans};
ghost use Rattle.region_list.specs.Tiling.{Tiling};
ghost use Rattle.region_list.specs.Sweep.{DifferBy};
ghost use Rattle.region_list.specs.Shrink.{closest as closest_of, differences, least, shrunk};

use crate::RowBuf;
use crate::level::join_level;
use damon_types::Ranges;

/// Shrinks the list: while there are more than `to` rows, joins the adjacent pair of one range whose
/// counts differ least, the first such pair where several differ equally. The rows tile the ranges,
/// each with at least one page, and there are at most `to` ranges. Rows that tile the ranges with a
/// minimum size still do so afterwards. Takes no memory. This rule is the project's own.
pub fn shrink_rows(rows: &mut RowBuf, ranges: &Ranges, to: u32)
    requires tiling { Tiling 1 ranges.now.list (spans rows.old.rows) }
    requires enough { length ranges.now.list ≤ to }
    ensures rows { rows.new ≡ record rows.old { rows = shrunk ranges.now.list to rows.old.rows } }
    ensures few { length rows.new.rows ≤ to }
    ensures tiling { (unit : ℕ)
        → Tiling unit ranges.now.list (spans rows.old.rows)
        → Tiling unit ranges.now.list (spans rows.new.rows) }
{
    shrink_buf(rows, ranges, to);
}

// Shrinks the list, as `shrink_rows` says.
pub(crate) fn shrink_buf(rows: &mut RowBuf, ranges: &Ranges, to: u32)
    requires tiling { Tiling 1 ranges.now.list (spans rows.old.rows) }
    requires enough { length ranges.now.list ≤ to }
    ensures rows { rows.new.rows ≡ shrunk ranges.now.list to rows.old.rows }
    ensures few { length rows.new.rows ≤ to }
    ensures tiling { (unit : ℕ)
        → Tiling unit ranges.now.list (spans rows.old.rows)
        → Tiling unit ranges.now.list (spans rows.new.rows) }
    ensures capacity { rows.new.cap ≡ rows.old.cap }
{
    // Each round joins all pairs that differ least, and those that come to differ as little by a join.
    'levels: while rows.len() > to {
        let level = least_difference(rows, ranges);
        join_pairs(rows, ranges, level, to);
    }
}

// Joins closest pairs, in the order that shrinking takes them, until the counts of each adjacent pair
// of one range differ by more than `level`, or at most `to` rows are left.
fn join_pairs(rows: &mut RowBuf, ranges: &Ranges, level: u32, to: u32)
    requires tiling { Tiling 1 ranges.now.list (spans rows.old.rows) }
    requires some { 0 < length rows.old.rows }
    requires enough { length ranges.now.list ≤ to }
    requires low { DifferBy ranges.now.list level rows.old.rows }
    ensures capacity { rows.new.cap ≡ rows.old.cap }
    ensures same { shrunk ranges.now.list to rows.new.rows
        ≡ shrunk ranges.now.list to rows.old.rows }
    ensures tiles { (unit : ℕ)
        → Tiling unit ranges.now.list (spans rows.old.rows)
        → Tiling unit ranges.now.list (spans rows.new.rows) }
    ensures done { (length rows.new.rows ≤ to)
        ⊎ DifferBy ranges.now.list (level + 1) rows.new.rows }
{
    let kept = join_level(rows, ranges, level, to as usize);
    rows.truncate(kept);
}

// The least difference of the counts of an adjacent pair of one range.
fn least_difference(rows: &RowBuf, ranges: &Ranges) -> u32
    requires tiling { Tiling 1 ranges.now.list (spans rows.now.rows) }
    requires more { length ranges.now.list < length rows.now.rows }
    ensures least { result ≡ least (differences ranges.now.list rows.now.rows) }
    ensures order { InOrder ranges.now.list }
{
    let first = closest(rows, ranges);
    prove!(first < rows.count() - 1);
    rows.at(first).count.abs_diff(rows.at(first + 1).count)
}

// An adjacent pair: the index of its first row, and the difference of the counts.
#[derive(Clone, Copy)]
struct Pair {
    first: usize,
    difference: u32,
}

// The index of the first row of the adjacent pair of one range whose counts differ least.
fn closest(rows: &RowBuf, ranges: &Ranges) -> usize
    requires tiling { Tiling 1 ranges.now.list (spans rows.now.rows) }
    requires more { length ranges.now.list < length rows.now.rows }
    ensures first { result ≡ closest_of ranges.now.list rows.now.rows }
    ensures order { InOrder ranges.now.list }
{
    let mut range = 0;
    let mut end = ranges.end(range);
    let mut best: Option<Pair> = None;
    'rows: for index in 0..rows.count() - 1 {
        let row = rows.at(index);
        if row.start + row.pages == end {
            range += 1;
            end = ranges.end(range);
        } else {
            let difference = row.count.abs_diff(rows.at(index + 1).count);
            if difference == 0 {
                return index;
            }
            let next = Pair {
                first: index,
                difference,
            };
            best = Some(closer(best, next));
        }
    }
    match best {
        Some(pair) => pair.first,
        None => unreachable!(),
    }
}

// The pair that differs less, or the first where both differ equally.
fn closer(first: Option<Pair>, next: Pair) -> Pair
    ensures none { IfNone first (result ≡ next) }
    ensures some { IfSome first (λ p. result ≡ (if nat_le p.difference next.difference then p else next)) }
{
    match first {
        Some(pair) if pair.difference <= next.difference => pair,
        _ => next,
    }
}
