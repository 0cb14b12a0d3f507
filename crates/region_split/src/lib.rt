//! The split of regions: each row is cut at random places, so that the counts of its parts can
//! come to differ.
#![tactic(auto)]

/// Cutting one row.
mod cut;
/// Laws of splitting.
mod laws;
/// The pass over all rows.
mod split;

pub use laws::{split_rows_are_kept, splits_follow_rule};
pub use split::split_all;
