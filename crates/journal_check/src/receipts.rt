// The receipts of a journal text.

/// Receipts that are read ahead.
pub(crate) mod ahead;
/// Receipts that are found by their tags.
pub(crate) mod by_tag;
/// Lines of receipts at the front of a text.
pub(crate) mod front;
/// Receipts with their workers, in columns.
pub(crate) mod list;
/// Names of receipts, and marks of pages, which passes set.
pub(crate) mod named;
/// Which receipts may follow one another.
pub(crate) mod order;
/// The receipts of a text that are by the rules.
pub(crate) mod part;
/// Reading the lines of receipts.
pub(crate) mod read;
