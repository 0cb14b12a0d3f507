//! Tests of the journal in memory; texts of journals are tested beside the runs that write them.
#![tactic(auto)]

/// A journal and its receipts.
#[cfg(test)]
mod journal;
/// Random words by their position.
#[cfg(test)]
mod words;
