//! Sampling: one page of each row is picked, and the rows whose pick was accessed are counted.
#![tactic(auto)]

/// Rows whose check was a hit are counted.
mod counting;
/// Random words, drawn in order.
mod drawing;
/// The marks of pages.
mod marks;
/// One page of each row.
mod picks;
/// The columns that picks read.
mod places;
/// The reciprocals of the rows' sizes, and their renewal.
mod renewal;
/// The generator of a seed.
mod seeds;

pub use counting::observe;
pub use drawing::draw_words;
pub use marks::Marks;
pub use picks::{Picks, draw_picks, set_picks};
pub use seeds::generator;
