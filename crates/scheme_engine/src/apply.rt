// Applying a scheme to the rows of its candidates.
ghost use Rattle.std.specs.Prelude.{◌≡◌, ◌+◌, ◌*◌, ◌≤◌, ◌<◌, ◌&&◌, nat_lt, ◌++◌, length, fold, Some, None, All, if◌then◌else◌};
ghost use Rattle.region_list.specs.Find.{row_index};
ghost use Rattle.region_list.specs.Rows.{row_at};
ghost use Rattle.damon_types.specs.Span.{spans};
ghost use Rattle.damon_types.specs.Within.{AreWithin};
ghost use Rattle.scheme_engine.specs.Taken.{applied_runs, candidate_runs};
ghost use Rattle.scheme_engine.specs.Outcome.{changes_rows as changes_rows_of};
ghost use Rattle.scheme_engine.specs.Applying.{IsCandidateOf, next_part, part_of, rows_renewed};
ghost use Rattle.scheme_engine.specs.InContext.{passes_in};

use crate::cut::Part;
use crate::pages::{ServedScheme, take_row};
use crate::{Applied, RUNS_PER_ROW};
use damon_types::Action;
use priority::{Candidate, Candidates};
use region_list::Regions;
use scheme_filter::MAX_RUNS;

// Applies a scheme to the pages that are taken of its candidates, in the order of the list. The rows of
// which all passing pages are taken get age 0, unless the action leaves rows as they are. Returns the last
// row of which some but not all are taken, if the action changes rows.
pub(crate) fn apply(
    served: &ServedScheme,
    candidates: &Candidates,
    regions: &mut Regions,
    applied: &mut Applied,
) -> Option<Part>
    requires within { AreWithin served.now.space.now regions.old.ranges }
    requires each { All (IsCandidateOf
        (passes_in served.now regions.old.ranges)
        (spans regions.old.rows)) candidates.now.list }
    requires room { length applied.old.runs + MAX_RUNS * length candidates.now.list
        ≤ RUNS_PER_ROW * applied.old.cap }
    ensures runs { applied.new ≡ record applied.old {
      runs = applied.old.runs ++ applied_runs served.now.number
          (passes_in served.now regions.old.ranges)
          (spans regions.old.rows) candidates.now.list;
    } }
    ensures few { length applied.new.runs
        ≤ length applied.old.runs + MAX_RUNS * length candidates.now.list }
    ensures rows { regions.new ≡ record regions.old {
      rows = fold (rows_renewed served.now.scheme.now.action) regions.old.rows candidates.now.list;
    } }
    ensures part { result ≡ fold (next_part served.now.scheme.now.action
        (passes_in served.now regions.old.ranges)
        (spans regions.old.rows)) None candidates.now.list }
{
    let mut part = None;
    let mut near = 0;
    for candidate in candidates.as_slice() {
        let next = apply_to(served, candidate, &mut near, regions, applied);
        part = next.or(part);
    }
    part
}

// Applies a scheme to the pages that are taken of one candidate. The row is looked for at the index `near`
// first, which becomes the one after it.
fn apply_to(
    served: &ServedScheme,
    candidate: &Candidate,
    near: &mut u32,
    regions: &mut Regions,
    applied: &mut Applied,
) -> Option<Part>
    requires within { AreWithin served.now.space.now regions.old.ranges }
    requires row { IsCandidateOf
        (passes_in served.now regions.old.ranges)
        (spans regions.old.rows) candidate.now }
    requires room { length applied.old.runs + MAX_RUNS ≤ RUNS_PER_ROW * applied.old.cap }
    ensures runs { applied.new ≡ record applied.old {
      runs = applied.old.runs ++ candidate_runs served.now.number
          (passes_in served.now regions.old.ranges)
          (spans regions.old.rows) candidate.now;
    } }
    ensures few { length applied.new.runs ≤ length applied.old.runs + MAX_RUNS }
    ensures rows { regions.new ≡ record regions.old {
      rows = rows_renewed served.now.scheme.now.action regions.old.rows candidate.now;
    } }
    ensures spans { spans regions.new.rows ≡ spans regions.old.rows }
    ensures part { result ≡ part_of served.now.scheme.now.action
        (passes_in served.now regions.old.ranges)
        (spans regions.old.rows) candidate.now }
{
    // For its clauses alone: each row lies in a range.
    let _count = regions.len();
    if candidate.share == 0 {
        return None;
    }
    let index = find_near(regions, *near, candidate.start)?;
    *near = index + 1;
    let row = regions.row(index);
    let pages = take_row(served, regions.ranges(), &row, candidate, applied);
    renew(
        served.scheme.action,
        candidate,
        Part { index, pages },
        regions,
    )
}

// The index of the row that holds a page. The row with the index `near` is looked at first: the rows of
// candidates mostly follow each other as these do, and the branches of a search are often predicted wrongly.
fn find_near(regions: &Regions, near: u32, page: u32) -> Option<u32>
    ensures { result ≡ row_index regions.now.rows page }
{
    // Its clauses also say that no two rows start at the same page.
    let count = regions.len();
    if near < count && regions.row(near).start == page {
        return Some(near);
    }
    regions.find(page)
}

// Gives the row of a candidate age 0 if all its passing pages are taken and the action changes rows. If
// they are not all taken, returns the part of the row that ends with the last one.
fn renew(action: Action, candidate: &Candidate, part: Part, regions: &mut Regions) -> Option<Part>
    requires within { part.index < length regions.old.rows }
    requires start { candidate.now.start ≡ (row_at regions.old.rows part.index).start }
    requires share { candidate.now.share ≤ candidate.now.passing }
    ensures rows { regions.new ≡ record regions.old {
      rows = rows_renewed action regions.old.rows candidate.now;
    } }
    ensures part { result
        ≡ (if changes_rows_of action && nat_lt candidate.now.share candidate.now.passing
        then Some part else None) }
{
    // For its clauses alone: no two rows start at the same page.
    let _count = regions.len();
    if !changes_rows(action) {
        return None;
    }
    if candidate.share < candidate.passing {
        return Some(part);
    }
    let row = regions.row(part.index);
    regions.set_values(part.index, row.count, row.last, 0);
    None
}

// Whether an action changes rows.
fn changes_rows(action: Action) -> bool
    ensures { result ≡ changes_rows_of action }
{
    action != Action::Stat
}
