//! Tests of what is written of scripts and of their faults.
#![tactic(auto)]

/// How faults are printed.
#[cfg(test)]
mod faults;
/// What is written of setups and commits.
#[cfg(test)]
mod written;
