//! The machine of one thread: a monitor, its pages and a source of random words.
#![tactic(auto)]

/// The random words of an aggregation, and sources that can jump.
mod drawing;
/// How many steps a pass takes, and what holds of the states for which a world stands.
mod laws;
/// The pages of one thread.
mod plain_pages;
/// The monitor, its pages and its random words, moved step by step.
mod world;

pub use drawing::Jump;
use drawing::draw_all;
pub use laws::{a_pass_takes_its_steps, states_of_worlds_are_bound};
use plain_pages::PlainPages;
pub use world::{Stepped, World};
