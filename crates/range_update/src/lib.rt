//! Range updates: a monitor gets new ranges, and its rows for them keep what was counted in the old
//! ones.
#![tactic(auto)]

/// Laws of range updates.
mod laws;
/// Finding old rows by page.
mod lookup;
/// The pieces of one new range.
mod pieces;
/// The rows of all new ranges.
mod ranges;

pub use laws::{boundaries_follow_rule, pieces_follow_rule};
pub use ranges::update;
