//! Tests of the scheme engine, and of the sums by which it chooses pages.
#![tactic(auto)]

/// A scheme that is run on rows without a monitor.
#[cfg(test)]
mod engine;
/// Sums by an index.
#[cfg(test)]
mod sums;
