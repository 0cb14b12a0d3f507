//! Watermarks: whether a slot is active, by the values of a metric. Their rules are this project's
//! own.
#![tactic(auto)]

/// Whether a slot is active.
mod gauge;
/// Laws of activity.
mod laws;

pub use gauge::Gauge;
pub use laws::metrics_decide_in_turn;
