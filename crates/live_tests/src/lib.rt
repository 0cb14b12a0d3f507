//! Tests of live runs whose order is given, of their journals, and of the page words that their threads share.
#![tactic(auto)]

/// Runs under gates.
#[cfg(test)]
mod gated_runs;
/// Runs of one thread.
#[cfg(test)]
mod lone_runs;
/// Page words, step by step.
#[cfg(test)]
mod page_steps;
/// Page words that eight threads touch.
#[cfg(test)]
mod page_threads;
/// Texts of several tests.
#[cfg(test)]
mod texts;
