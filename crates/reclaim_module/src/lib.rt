//! A model of the pages of a space that are resident: schemes page them out, and touches and prefetches
//! bring them back.
#![tactic(auto)]

/// What the calls make of a monitor's notes.
mod laws;
/// The pages that are out, and what is counted.
mod reclaim;

pub use laws::{
    model_counts_pages, pages_are_out_since_their_last, slots_page_out_what_is_resident,
};
pub use reclaim::{Counts, Reclaim};
