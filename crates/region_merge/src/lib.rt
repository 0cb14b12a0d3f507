//! Merging: adjacent rows of one range whose counts are about equal become one row.
#![tactic(auto)]

/// What merging means, and what it keeps.
mod laws;
/// Merging the rows of a monitor.
mod merge;

pub use laws::{merged_rows_are_kept, merged_rows_are_the_grouping};
pub use merge::merge_all;
