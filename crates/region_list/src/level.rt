ghost use Rattle.std.specs.Prelude.{◌≡◌, ◌⊎◌, ℕ, ◌+◌, ◌-◌, ◌*◌, ◌^◌, ◌≤◌, ◌<◌, ◌&&◌, ◌==◌, not, nat_lt, nat_le, cond, true, false, [], ◌∷◌, ◌++◌, length, take, drop, if◌then◌else◌};
ghost use Rattle.damon_types.specs.Span.{spans};
ghost use Rattle.region_list.specs.Rows.{row_at};
ghost use Rattle.region_list.specs.Tiling.{Tiling};
ghost use Rattle.region_list.specs.Shrink.{difference, shrunk};
ghost use Rattle.region_list.specs.Sweep.{DifferBy, IsSweep, in_sweep};

use crate::{RowBuf, join_rows};
use damon_types::{Ranges, Row};

// A sweep over rows, which joins in place. The first `kept` rows are finished, `top` is the
// row in hand, and the rows from `index` on are still to come. `top` lies in the range number `range`,
// which ends at page `end`, and so do the last `chain` of the finished rows.
#[derive(Clone, Copy)]
struct Sweep {
    top: Row,
    kept: usize,
    chain: usize,
    index: usize,
    range: u32,
    end: u32,
}

/// Joins closest pairs, in the order that shrinking takes them, until the counts of each adjacent pair
/// of one range differ by more than `level`, or at most `to` rows are left. At the call no such pair
/// differs by less than `level`. The rows that are left are the first n, n being the result.
pub(crate) fn join_level(rows: &mut RowBuf, ranges: &Ranges, level: u32, to: usize) -> usize
    requires tiling { Tiling 1 ranges.now.list (spans rows.old.rows) }
    requires some { 0 < length rows.old.rows }
    requires enough { length ranges.now.list ≤ to }
    requires low { DifferBy ranges.now.list level rows.old.rows }
    ensures within { result ≤ length rows.new.rows }
    ensures cap { rows.new.cap ≡ rows.old.cap }
    ensures same { shrunk ranges.now.list to (take result rows.new.rows)
        ≡ shrunk ranges.now.list to rows.old.rows }
    ensures tiles { (unit : ℕ)
        → Tiling unit ranges.now.list (spans rows.old.rows)
        → Tiling unit ranges.now.list (spans (take result rows.new.rows)) }
    ensures done { (result ≤ to) ⊎ DifferBy ranges.now.list (level + 1) (take result rows.new.rows) }
{
    let mut sweep = Sweep {
        top: rows.at(0),
        kept: 0,
        chain: 0,
        index: 1,
        range: 0,
        end: ranges.end(0),
    };
    let mut on = true;
    'moves: while on {
        on = advance(&mut sweep, rows, ranges, level, to);
    }
    rows.set(sweep.kept, sweep.top);
    sweep.kept + 1
}

// Takes one step of a sweep: the top is joined with the row before it or with the next one, or it is
// finished and the next row becomes the top. False where the top is the last row and stays.
fn advance(sweep: &mut Sweep, rows: &mut RowBuf, ranges: &Ranges, level: u32, to: usize) -> bool
    requires sweep { IsSweep ranges.now.list level to (take sweep.old.kept rows.old.rows) sweep.old.top
        (drop sweep.old.index rows.old.rows) sweep.old.chain sweep.old.range sweep.old.end }
    requires ahead { sweep.old.kept < sweep.old.index }
    requires within { sweep.old.index ≤ length rows.old.rows }
    requires tiling { Tiling 1 ranges.now.list (spans (in_sweep rows.old.rows sweep.old.kept sweep.old.top sweep.old.index)) }
    requires enough { length ranges.now.list ≤ to }
    ensures sweep { IsSweep ranges.now.list level to (take sweep.new.kept rows.new.rows) sweep.new.top
        (drop sweep.new.index rows.new.rows) sweep.new.chain sweep.new.range sweep.new.end }
    ensures ahead { sweep.new.kept < sweep.new.index }
    ensures cap { rows.new.cap ≡ rows.old.cap }
    ensures within { sweep.new.index ≤ length rows.new.rows }
    ensures same { shrunk ranges.now.list to (in_sweep rows.new.rows sweep.new.kept sweep.new.top sweep.new.index)
        ≡ shrunk ranges.now.list to (in_sweep rows.old.rows sweep.old.kept sweep.old.top sweep.old.index) }
    ensures tiles { (unit : ℕ)
        → Tiling unit ranges.now.list (spans (in_sweep rows.old.rows sweep.old.kept sweep.old.top sweep.old.index))
        → Tiling unit ranges.now.list (spans (in_sweep rows.new.rows sweep.new.kept sweep.new.top sweep.new.index)) }
    ensures less { 2 * (length rows.new.rows - sweep.new.index) + sweep.new.kept + cond result 1 0
        ≤ 2 * (length rows.old.rows - sweep.old.index) + sweep.old.kept }
    ensures last { result ≡ false → sweep.new.index ≡ length rows.new.rows }
    ensures done { result ≡ false → (sweep.new.kept + 1 ≤ to)
        ⊎ DifferBy ranges.now.list (level + 1) (take sweep.new.kept rows.new.rows ++ sweep.new.top ∷ []) }
{
    // For its clauses alone: the ranges are in order, and their number is a u32.
    let _ranges = ranges.len();
    let count = rows.count();
    let over = sweep.top.start + sweep.top.pages == sweep.end;
    let left = left_difference(sweep, rows);
    let right = right_difference(sweep, rows, over);
    let more = has_more(sweep, rows, to);
    if joins_left(more, left, right, level) {
        sweep.kept -= 1;
        sweep.chain -= 1;
        sweep.top = join_rows(&rows.at(sweep.kept), &sweep.top);
        return true;
    }
    if joins_right(more, right, level) {
        sweep.top = join_rows(&sweep.top, &rows.at(sweep.index));
        sweep.index += 1;
        return true;
    }
    if sweep.index == count {
        return false;
    }
    rows.set(sweep.kept, sweep.top);
    sweep.top = rows.at(sweep.index);
    sweep.kept += 1;
    sweep.index += 1;
    if over {
        sweep.range += 1;
        sweep.end = ranges.end(sweep.range);
        sweep.chain = 0;
    } else {
        sweep.chain += 1;
    }
    true
}

// The difference where there is no row to join with: more than any two counts differ by.
const NO_ROW: u64 = 1 << 32;

// By how much the counts of the top and of the row before it differ, where one range holds both.
fn left_difference(sweep: &Sweep, rows: &RowBuf) -> u64
    requires kept { sweep.now.kept ≤ length rows.now.rows }
    requires chain { sweep.now.chain ≤ sweep.now.kept }
    ensures { result ≡ (if sweep.now.chain == 0 then 2 ^ 32
        else difference (row_at rows.now.rows (sweep.now.kept - 1)) sweep.now.top) }
{
    if sweep.chain == 0 {
        NO_ROW
    } else {
        u64::from(rows.at(sweep.kept - 1).count.abs_diff(sweep.top.count))
    }
}

// By how much the counts of the top and of the next row differ, where one range holds both. `over` says
// that the range ends with the top.
fn right_difference(sweep: &Sweep, rows: &RowBuf, over: bool) -> u64
    ensures { result ≡ (if nat_lt sweep.now.index (length rows.now.rows) && not over
        then difference sweep.now.top (row_at rows.now.rows sweep.now.index) else 2 ^ 32) }
{
    if sweep.index < rows.count() && !over {
        u64::from(sweep.top.count.abs_diff(rows.at(sweep.index).count))
    } else {
        NO_ROW
    }
}

// Whether the top is joined with the row before it, which is done first where both sides differ equally.
// `more` says that more rows are left than are wanted.
fn joins_left(more: bool, left: u64, right: u64, level: u32) -> bool
    ensures { result ≡ (more && (nat_le left level && nat_le left right)) }
{
    more && left <= u64::from(level) && left <= right
}

// Whether the top is joined with the next row, where it is not joined with the row before it.
fn joins_right(more: bool, right: u64, level: u32) -> bool
    ensures { result ≡ (more && nat_le right level) }
{
    more && right <= u64::from(level)
}

// Whether more than `to` rows are left.
fn has_more(sweep: &Sweep, rows: &RowBuf, to: usize) -> bool
    requires ahead { sweep.now.kept < sweep.now.index }
    requires within { sweep.now.index ≤ length rows.now.rows }
    ensures { result ≡ nat_lt to (sweep.now.kept + 1 + (length rows.now.rows - sweep.now.index)) }
{
    sweep.kept + 1 + (rows.count() - sweep.index) > to
}
