//! What a monitor is started with, how it is changed while it runs, and the phases of its passes.
#![tactic(auto)]

/// Changes of a running monitor.
mod commit;
/// Why the parts of a setup, or a commit, are rejected.
mod fault;
/// How checking relates to longer lists of slot changes, and what holds of accepted commits.
mod laws;
/// How a setup is made of its parts.
mod make;
/// The phases of a sampling pass.
mod phase;
/// What a monitor is started with.
mod setup;
/// The slots of a setup.
mod slots;
/// The check of a commit.
mod validation;
/// What a commit is checked against.
mod view;

pub use commit::Commit;
pub use fault::{CommitFault, SetupFault};
pub use laws::accepted_commits_are_within;
pub use phase::Phase;
pub use setup::{MAX_CAP, MAX_UNIT, MIN_CAP, Setup};
pub use slots::is_set;
pub use validation::validate;
pub use view::View;
