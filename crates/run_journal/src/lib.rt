//! The journal of a live run, in memory: its entries and results, the receipts of touches beside it, the
//! monitor that carries it out, and the laws of journals.
#![tactic(auto)]

/// Results that are kept as bits.
mod bits;
/// The calls of controllers.
mod calls;
/// The entries of a journal, and receipts.
mod entry;
/// The journal.
mod journal;
/// What is counted of a lawful journal, and why a text was not verified.
mod lawful;
/// Laws of the definitions.
mod laws;
/// Results of loads.
mod load_run;
/// The receipts of a worker, in columns.
mod receipt_list;
/// The monitor that carries out a journal.
mod replaying;
/// The results of checks, one check after another.
mod results;
/// Random words by their position.
mod words;

pub use bits::{BitList, BitPlace, BitRun, CheckResults};
pub use entry::{CallAnswer, Entry, Receipt, Receipts};
pub use journal::Journal;
pub use lawful::{Lawful, VerifyFault};
pub use laws::{hits_are_few, woven_runs};
pub use load_run::LoadRun;
pub use receipt_list::ReceiptList;
pub use replaying::Replaying;
pub use results::Results;
pub use words::words_at;
