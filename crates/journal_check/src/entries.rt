// The entries of a journal text.

/// The lines of calls.
pub(crate) mod calls;
/// The entries that were read.
pub(crate) mod fold;
/// What is kept of entries, so that they can be carried out again.
pub(crate) mod kept;
/// Lines that are compared with those that a state wants.
pub(crate) mod lines;
