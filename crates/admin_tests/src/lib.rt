//! Tests of several contexts.
#![tactic(auto)]

/// Contexts whose lines come in turn.
#[cfg(test)]
mod contexts;
