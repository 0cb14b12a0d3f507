//! Tests of the program's top call and of its reading and writing.
#![tactic(auto)]

/// Runs whose input or output fails.
#[cfg(test)]
mod failing_runs;
/// A sink that tells how it was used.
#[cfg(test)]
mod fakes;
/// Reading and writing in pieces.
#[cfg(test)]
mod streams;
