//! Byte quotas that follow a goal: by a score that a goal asks for, the bytes of a quota rise and fall.
#![tactic(auto)]

/// Goals, and lists of them.
mod goals;
/// Moments at which goals are scored.
mod moment;
/// The bytes that follow from a score.
mod next;
/// How much of the watched memory is hot, and how much is cold.
mod seen;
/// Slots whose quotas follow goals.
mod tuner;

pub use goals::{Full, Goal, GoalKind, Goals, MAX_GOALS};
pub use moment::Moment;
pub use next::next_bytes;
pub use seen::{Seen, seen_in};
pub use tuner::Tuner;
