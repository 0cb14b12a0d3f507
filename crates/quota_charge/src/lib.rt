//! The quota of a slot: the pages that it allows, and those that were charged to the slot since its
//! window began. The rules of windows are this project's own.
#![tactic(auto)]

/// What applying a scheme has taken.
mod cost;
/// Windows, to which pages are charged.
mod window;

pub use cost::Cost;
pub use window::{Window, effective};
