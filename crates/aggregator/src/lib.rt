//! What an aggregation does with the counts of regions: it takes a threshold from them, ages the
//! regions by it, and clears the counts at the end.
#![tactic(auto)]

/// Ages.
mod ages;
/// The clearing of counts.
mod clearing;
/// The threshold of an aggregation.
mod thresholds;

pub use ages::age_all;
pub use clearing::clear_counts;
pub use thresholds::threshold;
