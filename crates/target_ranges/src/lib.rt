//! Ranges that a user gives by addresses: which lists are accepted, and the pages that they stand
//! for.
#![tactic(auto)]

/// Checking lists of ranges.
mod check;
/// Why ranges are rejected.
mod fault;
/// The pages of ranges.
mod fill;
/// How checking relates to longer lists, and to the pages.
mod laws;

pub use check::{check_next, check_ranges};
pub use fault::{RangeFault, RangeWhy};
pub use fill::{fill_checked, fill_ranges};
pub use laws::made_in_order;
