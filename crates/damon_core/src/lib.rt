//! The monitor: its state machine, and the object that stands for a state of it.
#![tactic(auto)]

/// The answer of a commit.
mod changed;
/// The passes that have ended.
mod clock;
/// What a commit changes.
mod commits;
/// What holds of every state to which events lead.
mod laws;
/// The object that stands for a state.
mod monitor;
/// The end of a pass.
mod pass_ends;
/// What an aggregation reports.
mod report;
/// The room that commits need.
mod room;
/// What is sampled: rows, picks, and the pass under way.
mod sampling;
/// A monitor before its first pass.
mod start;
/// The checks and hits of all passes.
mod totals;

pub use changed::Changed;
pub use laws::{
    a_pass_takes_its_steps_amid_events, reached_states_are_bound, version_one_has_no_costs,
};
pub use monitor::Monitor;
pub use report::Report;
