ghost use Rattle.std.specs.Prelude.{◌≡◌, false, List, ◌+◌, ◌≤◌, ◌<◌, ◌^◌, ◌≢◌, ◌&&◌, ◌==◌, ◌++◌, Some, not, length, take, drop, slice_get};
ghost use Rattle.std.specs.Option.{option_map};
ghost use Rattle.damon_types.specs.declared.range.Range.{Range as range};
ghost use Rattle.damon_types.specs.Ranges.{InOrder, end_of};
ghost use Rattle.region_list.specs.Walk.{BeginsIn};
ghost use Rattle.region_merge.specs.Merged.{row_end, is_within, merged};
ghost use Rattle.region_merge.specs.Grouping.{IsMerged};

use damon_types::{Ranges, Row};
use region_list::{Regions, RowBuf, RowPass, join_rows};

/// Merges the rows of a monitor from left to right. Within one range each row is joined to the row
/// merged so far where their counts differ by at most `threshold` (passes) and they have at most
/// `limit` pages together; otherwise it begins the next merged row. Count, last count and age of a
/// join are averages weighted by pages and rounded down, taken anew at each join. Only the rows
/// change. Makes one pass over them and takes no memory. The threshold, the size limit and the
/// averages are this project's own rule.
#[tactic(auto, using(crate::proofs::MergedLemmas::tiling_merged, crate::proofs::MergedLemmas::length_merged, crate::proofs::GroupingLemmas::merged_groups))]
pub fn merge_all(regions: &mut Regions, threshold: u32, limit: u32)
    ensures rows { regions.new ≡ record regions.old {
      rows = merged regions.old.ranges threshold limit regions.old.rows;
    } }
    ensures grouping { IsMerged regions.old.ranges threshold limit
        regions.old.rows regions.new.rows }
{
    if may_join_two(regions.rows(), threshold, limit) {
        regions.remake(&MergePass { threshold, limit });
    }
}

// Whether two adjacent rows may be joined, as far as their counts and pages tell. If not, no row changes, and
// none is copied.
fn may_join_two(rows: &RowBuf, threshold: u32, limit: u32) -> bool
    ensures { result ≡ false
        → (gs : List range) → merged gs threshold limit rows.now.rows ≡ rows.now.rows }
{
    'pairs: for next in 1..rows.count() {
        if are_within(&rows.at(next - 1), &rows.at(next), threshold, limit) {
            return true;
        }
    }
    false
}

// Whether the counts of two rows differ by at most the threshold, and they have at most `limit` pages
// together.
fn are_within(first: &Row, second: &Row, threshold: u32, limit: u32) -> bool
    ensures { result ≡ is_within threshold limit first.now second.now }
{
    first.count.abs_diff(second.count) <= threshold
        && u64::from(first.pages) + u64::from(second.pages) <= u64::from(limit)
}

// The pass of a merge: by how much counts may differ, and how many pages joined rows may have.
#[derive(Clone, Copy)]
struct MergePass {
    threshold: u32,
    limit: u32,
}

impl RowPass for MergePass {
    ghost rows_of = { λ pass gs rows. merged gs pass.threshold pass.limit rows };

    ghost can_run = { λ pass rows. Unit {0} };

    fn run(&self, ranges: &Ranges, rows: &RowBuf, made: &mut RowBuf) {
        if rows.len() == 0 {
            return;
        }
        let mut group = OpenGroup {
            row: rows.next(0),
            range: 0,
            end: ranges.end(0),
        };
        let mut index = 1;
        'groups: while index < rows.len() {
            let row = rows.next(index);
            if self.joins(&group, &row) {
                group.row = join_rows(&group.row, &row);
                index += 1;
            } else {
                made.push(group.row);
                let begun = group.next_group(ranges, &row);
                let from = RowPlace {
                    index,
                    range: begun.range,
                    end: begun.end,
                };
                let first = self.first_pair(ranges, rows, from);
                made.append_rows(rows, index as usize, first.index as usize);
                group = OpenGroup {
                    row: rows.next(first.index),
                    range: first.range,
                    end: first.end,
                };
                index = first.index + 1;
            }
        }
        made.push(group.row);
    }
}

impl MergePass {
    // The first row from this one on to which the next one is joined, or the last row. The rows before it
    // stay as they are, and most rows do: such a stretch is copied in one piece.
    fn first_pair(&self, ranges: &Ranges, rows: &RowBuf, from: RowPlace) -> RowPlace
        requires order { InOrder ranges.now.list }
        requires within { from.index < length rows.now.rows }
        requires here { BeginsIn ranges.now.list (drop from.index rows.now.rows) from.range from.end }
        ensures within { result.index < length rows.now.rows }
        ensures later { from.index ≤ result.index }
        ensures here { BeginsIn ranges.now.list (drop result.index rows.now.rows) result.range result.end }
        ensures stay { take result.index rows.now.rows
            ++ merged ranges.now.list self.now.threshold self.now.limit (drop result.index rows.now.rows)
            ≡ take from.index rows.now.rows
            ++ merged ranges.now.list self.now.threshold self.now.limit (drop from.index rows.now.rows) }
    {
        let last = rows.len() - 1;
        let mut at = from;
        'pairs: while at.index < last {
            let group = OpenGroup {
                row: rows.next(at.index),
                range: at.range,
                end: at.end,
            };
            let next = rows.next(at.index + 1);
            if self.joins(&group, &next) {
                return at;
            }
            let begun = group.next_group(ranges, &next);
            at = RowPlace {
                index: at.index + 1,
                range: begun.range,
                end: begun.end,
            };
        }
        at
    }

    // Whether the next row is joined to the group.
    fn joins(&self, group: &OpenGroup, row: &Row) -> bool
        requires end { row_end group.now.row < 2 ^ 32 }
        requires pages { row_end group.now.row ≢ group.now.end
            → group.now.row.pages + row.now.pages < 2 ^ 32 }
        ensures { result ≡ (not (row_end group.now.row == group.now.end)
            && is_within self.now.threshold self.now.limit group.now.row row.now) }
    {
        !group.ends_range()
            && group.row.count.abs_diff(row.count) <= self.threshold
            && group.row.pages + row.pages <= self.limit
    }
}

// A row, by its index, and the range that holds it, with its index and its end.
#[derive(Clone, Copy)]
struct RowPlace {
    index: u32,
    range: u32,
    end: u32,
}

// The group of rows that is being joined: the row that they became so far, and the range that holds
// it, with its index and its end.
#[derive(Clone, Copy)]
struct OpenGroup {
    row: Row,
    range: u32,
    end: u32,
}

impl OpenGroup {
    // Whether the group ends with its range, so that the next row lies in the next range.
    fn ends_range(&self) -> bool
        requires { row_end self.now.row < 2 ^ 32 }
        ensures { result ≡ (row_end self.now.row == self.now.end) }
    {
        self.row.start + self.row.pages == self.end
    }

    // The group that begins with the next row.
    fn next_group(&self, ranges: &Ranges, row: &Row) -> OpenGroup
        requires end { row_end self.now.row < 2 ^ 32 }
        requires next { row_end self.now.row ≡ self.now.end
            → self.now.range + 1 < length ranges.now.list }
        ensures row { result.row ≡ row.now }
        ensures same { row_end self.now.row ≢ self.now.end
            → (result.range ≡ self.now.range) × (result.end ≡ self.now.end) }
        ensures next { row_end self.now.row ≡ self.now.end
            → (result.range ≡ self.now.range + 1)
            × (option_map end_of (slice_get ranges.now.list (self.now.range + 1))
            ≡ Some result.end) }
    {
        // For its clauses alone: the number of ranges is a u32.
        let _count = ranges.len();
        if !self.ends_range() {
            return OpenGroup { row: *row, ..*self };
        }
        let range = self.range + 1;
        OpenGroup {
            row: *row,
            range,
            end: ranges.end(range),
        }
    }
}
