// The candidates of a scheme.
ghost use Rattle.std.specs.Prelude.{◌≡◌, ◌≢◌, ◌≤◌, ◌<◌, ◌++◌, true, [], length, All, Any};
ghost use Rattle.std.specs.List.{cons_option};
ghost use Rattle.damon_types.specs.Ranges.{page_total};
ghost use Rattle.damon_types.specs.Span.{span_of};
ghost use Rattle.damon_types.specs.Within.{AreWithin};
ghost use Rattle.region_list.specs.Tiles.{LiesIn};
ghost use Rattle.scheme_match.specs.Match.{is_match};
ghost use Rattle.scheme_filter.specs.RangeRuns.{AreRunsOf};
ghost use Rattle.priority.specs.Score.{score_by, score_of};
ghost use Rattle.scheme_engine.specs.Candidates.{candidate_of, candidates_of, matching_rows};
ghost use Rattle.scheme_engine.specs.InContext.{passes_in};
ghost use Rattle.scheme_engine.specs.Kept.{AreTiled};

use crate::pages::ServedScheme;
use damon_types::{Ranges, Row};
use priority::{Candidates, Scorer};
use region_list::Regions;
use scheme_filter::{RangeRuns, count_passing};
use scheme_match::{BLOCK, find_matches};

/// What rows are scored by, with the ranges that they lie in.
#[derive(Clone, Copy)]
struct Scoring<'a> {
    ranges: &'a Ranges,
    scorer: &'a Scorer,
}

// Makes the list the candidates of a scheme among the rows, and returns how many rows match. It stands by
// itself so that its loop has all registers. The rows are matched in blocks, and only those that match are
// looked at.
#[inline(never)]
pub(crate) fn gather(served: &ServedScheme, regions: &Regions, candidates: &mut Candidates) -> u32
    requires within { AreWithin served.now.space.now regions.now.ranges }
    requires aggr { 1 ≤ served.now.aggr }
    requires room { regions.now.cap ≤ candidates.old.cap }
    ensures list { candidates.new ≡ record candidates.old {
      list = candidates_of served.now.space.now regions.now.ranges served.now.aggr served.now.scheme.now
          regions.now.rows;
    } }
    ensures tried { result ≡ matching_rows served.now.scheme.now regions.now.rows }
    ensures few { length candidates.new.list ≤ regions.now.cap }
    ensures tiled { AreTiled regions.now }
{
    candidates.clear();
    let ranges = regions.ranges();
    let count = regions.len();
    // Without ranges there is no row to score.
    let scorer = Scorer::new(ranges.total().max(1), served.aggr, count, served.scheme);
    let mut near = RangeRuns::new(&served.scheme.filters);
    let rows = regions.rows();
    let mut found = [0; BLOCK];
    let mut tried = 0;
    let mut from = 0;
    let scoring = Scoring {
        ranges,
        scorer: &scorer,
    };
    'parts: while from < rows.count() {
        let to = rows.count().min(from + BLOCK);
        let number = find_matches(
            &served.scheme.pattern,
            &rows.pages()[from..to],
            &rows.counts()[from..to],
            &rows.ages()[from..to],
            &mut found,
        );
        for k in 0..number {
            let row = rows.at(from + found[k]);
            add(&row, served, &scoring, &mut near, candidates);
        }
        tried += number as u32;
        from = to;
    }
    tried
}

// Appends a row that matches as a candidate, if a page of it passes the filters.
fn add(
    row: &Row,
    served: &ServedScheme,
    scoring: &Scoring,
    near: &mut RangeRuns,
    candidates: &mut Candidates,
)
    requires matching { is_match served.now.scheme.now.pattern row.now ≡ true }
    requires within { AreWithin served.now.space.now scoring.now.ranges.now.list }
    requires held { Any (LiesIn (span_of row.now)) scoring.now.ranges.now.list }
    requires near { AreRunsOf (passes_in served.now scoring.now.ranges.now.list) near.old }
    requires score { score_by scoring.now.scorer.now row.now
        ≡ score_of row.now (page_total scoring.now.ranges.now.list) served.now.aggr served.now.scheme.now }
    requires room { length candidates.old.list < candidates.old.cap }
    requires distinct { All (λ c. c.start ≢ row.now.start) candidates.old.list }
    ensures list { candidates.new ≡ record candidates.old {
      list = candidates.old.list
          ++ cons_option (candidate_of served.now.space.now scoring.now.ranges.now.list served.now.aggr
          served.now.scheme.now row.now) [];
    } }
    ensures near { AreRunsOf (passes_in served.now scoring.now.ranges.now.list) near.new }
{
    let passing = count_passing(
        &served.scheme.filters,
        served.space,
        scoring.ranges,
        row,
        near,
    );
    if passing > 0 {
        candidates.push(row.target, row.start, scoring.scorer.score(row), passing);
    }
}
