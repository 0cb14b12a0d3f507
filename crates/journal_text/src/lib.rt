//! The text of a journal: how its lines are spelled, the writer, and the laws between texts and journals.
#![tactic(auto)]

/// The lines of entries.
mod entry_lines;
/// Laws of the definitions.
mod laws;
/// Parts of lines.
mod line_parts;
/// The lines of receipts.
mod seen_lines;
/// The text of a journal.
mod text;
/// The text of a journal, a piece at a time.
mod text_parts;

pub use entry_lines::write_answer;
pub use laws::{lawful_journals_are_read, read_journals_are_lawful};
pub use line_parts::without_end;
pub use seen_lines::is_seen_line;
pub use text::journal_text;
pub use text_parts::TextParts;
