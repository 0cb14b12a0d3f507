//! Filters: which pages of a region a scheme may be applied to.
#![tactic(auto)]

/// Filters at one page.
mod decision;
/// What holds of runs.
mod laws;
/// The runs of a range, kept for its rows.
mod range_runs;
/// The pages of a row, and where filters may begin or cease to apply among them.
mod row_pages;
/// The runs of a row.
mod row_runs;
/// Runs of pages.
mod runs;

pub use decision::passes;
pub use laws::longest_runs_are_one;
pub use range_runs::{RangeRuns, count_passing};
pub use row_runs::passing;
pub use runs::{MAX_RUNS, PassRuns, Run};
