//! Tables of a report: the heat of the columns of each target, how many pages were accessed how often,
//! the working set, and the spread of working sets.
#![tactic(auto)]

/// The columns of a target.
mod columns;
/// How many pages were accessed how often.
mod frequency;
/// The heat of columns.
mod heat;
/// Laws of heat, of frequencies and of spreads.
mod laws;
/// Sizes and their spread.
mod sizes;
/// The text of reports.
mod text;

pub use frequency::{freq, working_set};
pub use heat::heat_row;
pub use laws::spread_is_of_sizes;
pub use sizes::{Sizes, Spread};
pub use text::{write_last, write_report};
