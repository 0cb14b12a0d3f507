//! Scripts: what a text says, and the reader of such texts, which finds the first fault of any other
//! text.
#![tactic(auto)]

/// The lines of a body: its commands.
mod body;
/// The list of a script's commands.
mod commands;
/// The lines of a commit.
mod commit;
/// What is wrong with a text.
mod fault;
/// Which kind of text is read.
mod grammar;
/// The lines of a setup.
mod head;
/// The head of a journal.
mod journal_head;
/// Laws: a text is read exactly where it says a script.
mod laws;
/// A text, line by line.
mod lines;
/// What a live script is.
mod live;
/// The blocks of controllers.
mod calls;
/// The reader of live scripts, and the blocks of workers.
mod live_reader;
/// The reader of a whole text.
mod reader;
/// What a script is.
mod script;
/// Appending a setup and a commit.
mod spelling;

pub use commands::Commands;
pub use commit::{add_part, empty_commit};
pub use fault::{ReadFail, ScriptFault};
pub use journal_head::{JournalHead, read_journal_head, write_journal_head};
pub use laws::{
    commits_are_read_back, live_texts_are_exactly_read, scripts_are_sound, setups_are_read_back,
    texts_are_exactly_read,
};
pub use live::{
    Call, CallList, CallLists, LiveScript, MAX_CALLS, MAX_CONTROLLERS, MAX_WORKERS, Trace, Traces,
};
pub use live_reader::read_live;
pub use reader::{MAX_BYTES, read_script};
pub use script::{MAX_WORK, Script};
pub use script_lines::{
    Command, MAX_PASSES, MAX_STEPS, MAX_TOUCHES, ScriptKind, body_lines_are_spelled,
    fields_are_spelled, schemes_are_spelled, setup_lines_are_spelled, spelled_lines_are_read,
};
pub use spelling::{write_commit, write_part, write_parts, write_setup};
