ghost use Rattle.std.specs.Prelude.{◌≡◌, ◌+◌, ◌≤◌, ◌<◌, ◌^◌, ℕ, true, List, length, filter, sum_by, slice_get, Some, All, Any};
ghost use Rattle.std.specs.List.{range_with_len};
ghost use Rattle.damon_types.specs.declared.range.Range.{Range as range};
ghost use Rattle.damon_types.specs.declared.space.Target.{Target as target};
ghost use Rattle.damon_types.specs.Ranges.{end_of};
ghost use Rattle.damon_types.specs.Span.{span_of};
ghost use Rattle.damon_types.specs.Within.{AreWithin};
ghost use Rattle.region_list.specs.Tiles.{LiesIn};
ghost use Rattle.scheme_filter.specs.Passes.{passes};
ghost use Rattle.scheme_filter.specs.Runs.{AreLongest, run_end};
ghost use Rattle.scheme_filter.specs.RangeRuns.{AreRunsOf, IsInFirst, first_end, first_start, shared_of};

use crate::row_runs::passing_in;
use crate::{PassRuns, Run};
use damon_types::{Filters, Range, Ranges, Row, Space};
use std::marker::Model;

/// The runs of passing pages of a range, kept for the rows of that range, which follow each other.
#[derive(Debug, Drop)]
pub struct RangeRuns {
    from: u32,
    to: u32,
    // The index of that range; only how fast the next one is found depends on it.
    index: u32,
    runs: PassRuns,
    // The first run, beside the list so that a row is compared with it at once.
    first: Bounds,
}

// The pages from `from` to before `to`; 1 and 0 stand for no run.
#[derive(Clone, Copy, Debug)]
struct Bounds {
    from: u32,
    to: u32,
}

impl Model for RangeRuns {
    ghost use Rattle.std.specs.Prelude.{◌≡◌};
    ghost use Rattle.scheme_filter.specs.RangeRuns.{RunsWithin, first_end, first_start};

    ghost Value = { RunsWithin };

    ghost view = { λ r. record { from = r.from; to = r.to; runs = r.runs } };

    ghost invariant = { λ r. (r.first.from ≡ first_start r.runs) × (r.first.to ≡ first_end r.runs) };
}

impl RangeRuns {
    /// What to begin with: without filters, by which every page passes, one run of all pages, and else
    /// the runs of no pages.
    pub fn new(filters: &Filters) -> RangeRuns
        ensures { (space : List target) (ranges : List range)
            → AreRunsOf (passes filters.now space ranges) result }
    {
        let mut runs = PassRuns::new();
        let mut to = 0;
        if filters.len() == 0 {
            to = u32::MAX;
            runs.push(Run {
                start: 0,
                pages: to,
            });
        }
        let first = first_of(runs.as_slice());
        RangeRuns {
            from: 0,
            to,
            index: 0,
            runs,
            first,
        }
    }

    // Whether the first run holds all pages from `start` to before `end`.
    fn is_in_first(&self, start: u32, end: u32) -> bool
        requires { start ≤ end }
        ensures { result ≡ true → IsInFirst start end self.now.runs }
    {
        self.first.from <= start && end <= self.first.to
    }

    // Whether no page from `start` to before `end` passes.
    fn has_none(&self, start: u32, end: u32) -> bool
        ensures none { result ≡ true → length self.now.runs ≡ 0 }
        ensures from { result ≡ true → self.now.from ≤ start }
        ensures to { result ≡ true → end ≤ self.now.to }
    {
        self.runs.len() == 0 && self.from <= start && end <= self.to
    }

    // How many pages of the runs are among those from `start` to before `end`.
    fn count(&self, start: u32, end: u32) -> u32
        requires ends { All (λ r. run_end r < 2 ^ 32) self.now.runs }
        requires few { sum_by (shared_of start end) self.now.runs < 2 ^ 32 }
        ensures { result ≡ sum_by (shared_of start end) self.now.runs }
    {
        let mut count = 0;
        for run in self.runs.as_slice() {
            count += shared(run, start, end);
        }
        count
    }
}

/// How many pages of a row pass the filters of a scheme (see [`passes`](crate::passes)).
///
/// `near` holds the runs of the range of an earlier row, for the same filters and ranges, or what
/// [`RangeRuns::new`] gives. If the row lies among their pages, it is counted from them; else `near`
/// becomes the runs of the row's range. So rows of one range that follow each other look at the filters
/// once. The ranges lie in the space, and one of them holds the row. Takes no memory.
pub fn count_passing(
    filters: &Filters,
    space: &Space,
    ranges: &Ranges,
    row: &Row,
    near: &mut RangeRuns,
) -> u32
    requires within { AreWithin space.now ranges.now.list }
    requires held { Any (LiesIn (span_of row.now)) ranges.now.list }
    requires near { AreRunsOf (passes filters.now space.now ranges.now.list) near.old }
    ensures count { result ≡ length (filter (passes filters.now space.now ranges.now.list)
        (range_with_len row.now.start row.now.pages)) }
    ensures near { AreRunsOf (passes filters.now space.now ranges.now.list) near.new }
{
    // For its clauses alone: each range ends below page 2^32.
    let _count = ranges.len();
    let start = row.start;
    let end = start + row.pages;
    // Mostly all pages of a row pass or none does, and a range has at most one run.
    if near.is_in_first(start, end) {
        return row.pages;
    }
    if near.has_none(start, end) {
        return 0;
    }
    // Without the last count, which no filter looks at, a caller's loop need not load it.
    let row = Row { last: 0, ..*row };
    count_apart(filters, space, ranges, row, near)
}

// The same for any row. It stands by itself and takes the row by value, so that a caller's loop keeps its
// values in registers.
#[inline(never)]
fn count_apart(
    filters: &Filters,
    space: &Space,
    ranges: &Ranges,
    row: Row,
    near: &mut RangeRuns,
) -> u32
    requires within { AreWithin space.now ranges.now.list }
    requires held { Any (LiesIn (span_of row)) ranges.now.list }
    requires near { AreRunsOf (passes filters.now space.now ranges.now.list) near.old }
    ensures count { result ≡ length (filter (passes filters.now space.now ranges.now.list)
        (range_with_len row.start row.pages)) }
    ensures near { AreRunsOf (passes filters.now space.now ranges.now.list) near.new }
{
    // For its clauses alone: each range ends below page 2^32.
    let _count = ranges.len();
    let start = row.start;
    let end = start + row.pages;
    reach(filters, space, ranges, &row, near);
    near.count(start, end)
}

// Makes `near` the runs of pages among which the row lies, if it does not lie among those of `near`.
fn reach(filters: &Filters, space: &Space, ranges: &Ranges, row: &Row, near: &mut RangeRuns)
    requires within { AreWithin space.now ranges.now.list }
    requires held { Any (LiesIn (span_of row.now)) ranges.now.list }
    requires end { row.now.start + row.now.pages < 2 ^ 32 }
    requires near { AreRunsOf (passes filters.now space.now ranges.now.list) near.old }
    ensures near { AreRunsOf (passes filters.now space.now ranges.now.list) near.new }
    ensures from { near.new.from ≤ row.now.start }
    ensures to { row.now.start + row.now.pages ≤ near.new.to }
    ensures small { near.new.to < 2 ^ 32 }
{
    if near.from <= row.start && row.start + row.pages <= near.to {
        return;
    }
    look_up(filters, space, ranges, row, near);
}

// Makes `near` the runs of the range that holds the row. It stands by itself, since few rows need it.
#[inline(never)]
fn look_up(filters: &Filters, space: &Space, ranges: &Ranges, row: &Row, near: &mut RangeRuns)
    requires within { AreWithin space.now ranges.now.list }
    requires held { Any (LiesIn (span_of row.now)) ranges.now.list }
    ensures near { AreRunsOf (passes filters.now space.now ranges.now.list) near.new }
    ensures from { near.new.from ≤ row.now.start }
    ensures to { row.now.start + row.now.pages ≤ near.new.to }
    ensures small { near.new.to < 2 ^ 32 }
{
    let Found { index, range } = range_of(ranges, row, near.index.saturating_add(1));
    near.from = range.first;
    near.to = range.first + range.pages;
    near.index = index;
    passing_in(filters, space, ranges, &range, &mut near.runs);
    near.first = first_of(near.runs.as_slice());
}

// A range of a list, with its index.
struct Found {
    index: u32,
    range: Range,
}

// The range that holds the row. The one with index `next` is tried first, since rows are asked for in their
// order.
fn range_of(ranges: &Ranges, row: &Row, next: u32) -> Found
    requires { Any (LiesIn (span_of row.now)) ranges.now.list }
    ensures from { result.range.first ≤ row.now.start }
    ensures to { row.now.start + row.now.pages ≤ end_of result.range }
    ensures small { end_of result.range < 2 ^ 32 }
    ensures one { slice_get ranges.now.list result.index ≡ Some result.range }
{
    if next < ranges.len() {
        let range = ranges.get(next);
        if holds(&range, row) {
            return Found { index: next, range };
        }
    }
    search(ranges, row)
}

// Whether the pages of the row are pages of the range.
fn holds(range: &Range, row: &Row) -> bool
    requires range { end_of range.now < 2 ^ 32 }
    requires row { row.now.start + row.now.pages < 2 ^ 32 }
    ensures from { result ≡ true → range.now.first ≤ row.now.start }
    ensures to { result ≡ true → row.now.start + row.now.pages ≤ end_of range.now }
{
    range.first <= row.start && row.start + row.pages <= range.first + range.pages
}

// The range that holds the row, by a binary search.
fn search(ranges: &Ranges, row: &Row) -> Found
    requires { Any (LiesIn (span_of row.now)) ranges.now.list }
    ensures from { result.range.first ≤ row.now.start }
    ensures to { row.now.start + row.now.pages ≤ end_of result.range }
    ensures small { end_of result.range < 2 ^ 32 }
    ensures one { slice_get ranges.now.list result.index ≡ Some result.range }
{
    let mut low = 0;
    let mut high = ranges.len();
    'search: while low + 1 < high {
        let middle = low + (high - low) / 2;
        if ranges.get(middle).first <= row.start {
            low = middle;
        } else {
            high = middle;
        }
    }
    Found {
        index: low,
        range: ranges.get(low),
    }
}

// The pages of the first of these runs.
fn first_of(runs: &[Run]) -> Bounds
    requires { All (λ r. run_end r < 2 ^ 32) runs.now }
    ensures from { result.from ≡ first_start runs.now }
    ensures to { result.to ≡ first_end runs.now }
{
    match runs.first() {
        Some(run) => Bounds {
            from: run.start,
            to: run.start + run.pages,
        },
        None => Bounds { from: 1, to: 0 },
    }
}

// How many of the pages from `start` to before `end` the run holds.
fn shared(run: &Run, start: u32, end: u32) -> u32
    requires { run_end run.now < 2 ^ 32 }
    ensures { result ≡ shared_of start end run.now }
{
    let from = run.start.max(start);
    let to = (run.start + run.pages).min(end);
    to.saturating_sub(from)
}
