//! Priorities: the scores of regions for a scheme, and which pages of which regions the scheme is
//! applied to within its quota.
#![tactic(auto)]

/// Lists of candidates, and the choice among them.
mod candidates;
/// The order of candidates, and their shares.
mod choice;
/// The scores of frequent rows.
mod frequent;
/// Sums by an index.
mod histogram;
/// Laws of the choice.
mod laws;
/// Scores.
mod scoring;
/// Which candidates get no share.
mod threshold;

pub use candidates::{Candidate, Candidates};
pub use choice::Chosen;
pub use histogram::Histogram;
pub use laws::{lowest_is_least, order_is_one, shares_are_best};
pub use scoring::{MAX_SCORE, Scorer, score};
