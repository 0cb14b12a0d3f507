ghost use Rattle.std.specs.Prelude.{◌≡◌, ◌+◌, ◌^◌, ◌≤◌, ◌<◌, ℕ, All, Any, Some, length, slice_get, sum_by};
ghost use Rattle.damon_types.specs.Ranges.{end_of};
ghost use Rattle.damon_types.specs.Span.{span_of};
ghost use Rattle.damon_types.specs.Within.{AreWithin};
ghost use Rattle.region_list.specs.Tiles.{LiesIn};
ghost use Rattle.scheme_filter.specs.Passes.{passes};
ghost use Rattle.scheme_filter.specs.Runs.{AreLongest, run_end, runs_of};
ghost use Rattle.scheme_filter.specs.RowPages.{IsRowPages, answer_at};

use crate::row_pages::RowPages;
use crate::{PassRuns, Run};
use damon_types::{Filter, Filters, MAX_FILTERS, Range, Ranges, Row, Space};

/// Makes the list the longest runs of pages of a row that pass the filters of a scheme (see
/// [`passes`](crate::passes)), in the order of their pages.
///
/// The ranges lie in the space, and one of them holds the row. Goes from one page at which a filter
/// begins or ceases to apply to the next, and not page by page. Takes no memory.
pub fn passing(filters: &Filters, space: &Space, ranges: &Ranges, row: &Row, runs: &mut PassRuns)
    requires within { AreWithin space.now ranges.now.list }
    requires held { Any (LiesIn (span_of row.now)) ranges.now.list }
    ensures longest { AreLongest (passes filters.now space.now ranges.now.list)
        row.now.start (row.now.start + row.now.pages) runs.new }
    ensures exact { runs.new
        ≡ runs_of (passes filters.now space.now ranges.now.list) row.now.start row.now.pages }
    ensures fits { sum_by (λ r. r.pages) runs.new < 2 ^ 32 }
    ensures ends { All (λ r. run_end r < 2 ^ 32) runs.new }
{
    // For its clauses alone: the ranges are in order.
    let _count = ranges.len();
    let Row {
        target,
        start,
        pages,
        ..
    } = *row;
    // A row without pages has no first page to look at.
    if pages == 0 {
        runs.clear();
        return;
    }
    let row = RowPages {
        start,
        end: start + pages,
        first: space.addr_near(target, start),
        class: ranges.class_of(start),
    };
    find_runs(filters.as_slice(), &row, runs);
}

// The same for all pages of one of the ranges, whose class is known.
pub(crate) fn passing_in(
    filters: &Filters,
    space: &Space,
    ranges: &Ranges,
    range: &Range,
    runs: &mut PassRuns,
)
    requires within { AreWithin space.now ranges.now.list }
    requires one { (index : ℕ) × (slice_get ranges.now.list index ≡ Some range.now) }
    ensures { AreLongest (passes filters.now space.now ranges.now.list)
        range.now.first (end_of range.now) runs.new }
{
    // For its clauses alone: the ranges are in order.
    let _count = ranges.len();
    let row = RowPages {
        start: range.first,
        end: range.first + range.pages,
        first: space.addr_of(range.first),
        class: Some(range.class),
    };
    find_runs(filters.as_slice(), &row, runs);
}

// Makes the list the longest runs of pages of the row that pass. The searches alternate: for a page
// that passes, which begins a run, and for one that does not, which ends it.
fn find_runs(filters: &[Filter], row: &RowPages, runs: &mut PassRuns)
    requires few { length filters.now ≤ MAX_FILTERS }
    requires row { IsRowPages row.now }
    ensures { AreLongest (answer_at filters.now row.now) row.now.start row.now.end runs.new }
{
    runs.clear();
    let mut from = row.first_with(filters, true, row.start);
    'runs: while from < row.end {
        let to = row.first_with(filters, false, from);
        runs.push(Run {
            start: from,
            pages: to - from,
        });
        from = row.first_with(filters, true, to);
    }
}
