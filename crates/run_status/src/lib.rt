//! How a run of a program ended.
#![tactic(auto)]

/// Handing over a text.
mod handing;
/// The words of a program, and its status told.
mod program;
/// The status of each failure, and what each status says.
mod status;

pub use handing::hand_over;
pub use program::{command_words, tell};
pub use status::Status;
