//! The check of a journal text: the reader of its entries and receipts, and the journal that was read,
//! carried out from one aggregation to the next.
#![tactic(auto)]

/// The head and the last lines of a journal text.
mod ends;
/// The entries of a journal text.
mod entries;
/// A journal text, line by line.
mod journal_lines;
/// A law of journal texts.
mod laws;
/// The receipts of a journal text.
mod receipts;
/// A journal that is carried out from one aggregation to the next.
mod replayer;
/// The check of a journal text.
mod verifying;

pub use laws::rejected_texts_are_unlawful;
pub use replayer::Replayer;
pub use verifying::verify;
