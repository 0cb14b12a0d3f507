// The pages of one row: how many pass, and those that are taken.
ghost use Rattle.std.specs.Prelude.{◌≡◌, ◌+◌, ◌*◌, ◌≤◌, ◌<◌, ◌^◌, ◌++◌, length, map, All, Any};
ghost use Rattle.damon_types.specs.Span.{span_of};
ghost use Rattle.damon_types.specs.Within.{AreWithin};
ghost use Rattle.region_list.specs.Tiles.{LiesIn};
ghost use Rattle.scheme_filter.specs.Runs.{run_end};
ghost use Rattle.scheme_engine.specs.Candidates.{passing_pages};
ghost use Rattle.scheme_engine.specs.Taken.{applied_run, taken_runs};
ghost use Rattle.scheme_engine.specs.Outcome.{taken_until};
ghost use Rattle.scheme_engine.specs.Applying.{end_of_runs, first_pages};
ghost use Rattle.scheme_engine.specs.InContext.{passes_in};

use crate::{Applied, AppliedRun, RUNS_PER_ROW};
use damon_types::{Ranges, Row, Scheme, Space};
use priority::Candidate;
use scheme_filter::{MAX_RUNS, PassRuns, Run, passing};

/// Which slot is served, and when.
#[derive(Clone, Copy)]
pub(crate) struct Context<'a> {
    /// The number of the slot.
    pub(crate) number: u8,
    /// The tick at the end of the aggregation.
    pub(crate) tick: u64,
    /// The targets.
    pub(crate) space: &'a Space,
    /// The number of passes of an aggregation.
    pub(crate) aggr: u32,
}

/// The scheme of a slot, with what of the context its pages depend on.
#[derive(Clone, Copy)]
pub(crate) struct ServedScheme<'a> {
    /// The scheme.
    pub(crate) scheme: &'a Scheme,
    /// The number of the slot.
    pub(crate) number: u8,
    /// The targets.
    pub(crate) space: &'a Space,
    /// The number of passes of an aggregation.
    pub(crate) aggr: u32,
}

// Appends the runs of the first passing pages of a row, as many as the share of its candidate, which is at
// least 1. Returns how many pages the row has up to the last one of them.
pub(crate) fn take_row(
    served: &ServedScheme,
    ranges: &Ranges,
    row: &Row,
    candidate: &Candidate,
    applied: &mut Applied,
) -> u32
    requires within { AreWithin served.now.space.now ranges.now.list }
    requires held { Any (LiesIn (span_of row.now)) ranges.now.list }
    requires some { 1 ≤ candidate.now.share }
    requires share { candidate.now.share ≤ candidate.now.passing }
    requires passing { candidate.now.passing ≡ length
        (passing_pages (passes_in served.now ranges.now.list)
        (span_of row.now)) }
    requires room { length applied.old.runs + MAX_RUNS ≤ RUNS_PER_ROW * applied.old.cap }
    ensures runs { applied.new ≡ record applied.old {
      runs = applied.old.runs ++ map (applied_run served.now.number candidate.now)
          (taken_runs (passes_in served.now ranges.now.list) candidate.now.share
          (span_of row.now));
    } }
    ensures few { length applied.new.runs ≤ length applied.old.runs + MAX_RUNS }
    ensures pages { result ≡ taken_until (passes_in served.now ranges.now.list)
        candidate.now.share (span_of row.now) }
    ensures most { result ≤ row.now.pages }
{
    // Mostly all pages of a row pass: then its first pages are one run, and no filter is looked at.
    if candidate.passing == row.pages {
        applied.push_run(AppliedRun {
            slot: served.number,
            target: candidate.target,
            start: row.start,
            pages: candidate.share,
            score: candidate.score,
        });
        return candidate.share;
    }
    take_passing(served, ranges, row, candidate, applied)
}

// The same for a row of any pages, whose filters are looked at.
fn take_passing(
    served: &ServedScheme,
    ranges: &Ranges,
    row: &Row,
    candidate: &Candidate,
    applied: &mut Applied,
) -> u32
    requires within { AreWithin served.now.space.now ranges.now.list }
    requires held { Any (LiesIn (span_of row.now)) ranges.now.list }
    requires some { 1 ≤ candidate.now.share }
    requires share { candidate.now.share ≤ length
        (passing_pages (passes_in served.now ranges.now.list)
        (span_of row.now)) }
    requires room { length applied.old.runs + MAX_RUNS ≤ RUNS_PER_ROW * applied.old.cap }
    ensures runs { applied.new ≡ record applied.old {
      runs = applied.old.runs ++ map (applied_run served.now.number candidate.now)
          (taken_runs (passes_in served.now ranges.now.list) candidate.now.share
          (span_of row.now));
    } }
    ensures few { length applied.new.runs ≤ length applied.old.runs + MAX_RUNS }
    ensures pages { result ≡ taken_until (passes_in served.now ranges.now.list)
        candidate.now.share (span_of row.now) }
    ensures most { result ≤ row.now.pages }
{
    let mut runs = PassRuns::new();
    passing(&served.scheme.filters, served.space, ranges, row, &mut runs);
    let end = take_pages(served.number, candidate, runs.as_slice(), applied);
    end - row.start
}

// Appends the first pages of these runs, as many as the share of the candidate, and returns the page after
// the last one of them. There is room for as many runs.
fn take_pages(slot: u8, candidate: &Candidate, runs: &[Run], applied: &mut Applied) -> u32
    requires ends { All (λ r. run_end r < 2 ^ 32) runs.now }
    requires room { length applied.old.runs + length runs.now ≤ RUNS_PER_ROW * applied.old.cap }
    ensures runs { applied.new ≡ record applied.old {
      runs = applied.old.runs
          ++ map (applied_run slot candidate.now) (first_pages candidate.now.share runs.now);
    } }
    ensures end { result ≡ end_of_runs (first_pages candidate.now.share runs.now) }
{
    let mut wanted = candidate.share;
    let mut end = 0;
    for run in runs {
        if wanted > 0 {
            let pages = run.pages.min(wanted);
            applied.push_run(AppliedRun {
                slot,
                target: candidate.target,
                start: run.start,
                pages,
                score: candidate.score,
            });
            end = run.start + pages;
            wanted -= pages;
        }
    }
    end
}
