//! The run of a script with byte quotas that follow goals: the commits that tune them are put in directly
//! after what scores them, and the bytes at the end are written.
#![tactic(auto)]

/// What holds of all runs.
mod laws;
/// The lines of the slots with goals.
mod lines;
/// The names of goals in contracts.
mod named;
/// Byte quotas that follow goals along the run of a script.
mod tuned;

pub use laws::each_tuned_run_follows_its_goals;
pub use named::Named;
pub use tuned::TunedQuotas;
