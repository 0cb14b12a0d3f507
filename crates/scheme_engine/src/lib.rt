//! The slots that hold schemes, and the step of an aggregation in which the schemes are applied to
//! the regions.
#![tactic(auto)]

/// What a run was applied to.
mod applied;
/// Applying a scheme to the rows of candidates.
mod apply;
/// The candidates of a scheme.
mod candidates;
/// Cutting the row that is taken in part.
mod cut;
/// All slots.
mod engine;
/// Laws of runs.
mod laws;
/// The pages of one row.
mod pages;
/// Serving one slot.
mod serve;
/// One slot.
mod slot;

pub use applied::{Applied, AppliedRun, RUNS_PER_ROW, SlotChoice};
pub use engine::Engine;
pub use laws::{outcome_is_best, served_slots_are_kept};
pub use slot::{SLOTS, SlotView};
