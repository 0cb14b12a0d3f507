//! Several contexts, each with a script of its own, which go on line by line.
#![tactic(auto)]

/// The contexts of an input.
mod admin;
/// One context.
mod context;
/// The line of a fault.
mod fault;
/// The lines of each context.
mod gather;
/// What holds of the output of each input.
mod laws;
/// The lines of an input.
mod lines;
/// How far a script is.
mod stage;
/// What a context says in the output.
mod voice;

pub use admin::{Admin, AdminFail};
pub use laws::{contexts_are_apart, contexts_are_bound, voices_are_reports};
pub use lines::CONTEXTS;
