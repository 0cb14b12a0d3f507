//! Proactive reclaim: callbacks of a run that follow which of its pages are resident.
#![tactic(auto)]

/// What holds of each run.
mod laws;
/// The line of a model of resident pages.
mod line;
/// The callbacks.
mod reclaimer;

pub use laws::each_reclaimed_run_is_accounted;
pub use reclaimer::Reclaimer;
