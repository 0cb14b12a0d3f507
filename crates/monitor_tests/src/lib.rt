//! Tests of the monitor and of a world.
#![tactic(auto)]

/// The steps of a pass.
#[cfg(test)]
mod fixtures;
/// A pass of a monitor.
#[cfg(test)]
mod monitor;
/// A touch of a world that keeps tags.
#[cfg(test)]
mod world;
