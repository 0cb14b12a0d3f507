//! All of a journal in one place: in memory, as a text, and its check; and how a run of a program ended.
#![tactic(auto)]

pub use journal_check::{Replayer, verify};
pub use journal_text::{
    TextParts, journal_text, lawful_journals_are_read, read_journals_are_lawful,
};
pub use run_journal::{
    CallAnswer, Entry, Journal, Lawful, Receipt, ReceiptList, Receipts, VerifyFault, hits_are_few,
    words_at, woven_runs,
};
pub use run_status::Status;
