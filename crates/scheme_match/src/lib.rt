//! Which regions a scheme is for: those that match its pattern.
#![tactic(auto)]

/// Matching a block of rows, column by column.
mod block;
/// Matching a row with a pattern.
mod matching;

pub use block::{BLOCK, find_matches};
pub use matching::matches;
