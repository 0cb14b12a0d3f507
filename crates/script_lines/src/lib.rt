//! The lines of a script: what one line says, the reader of each kind of line, and its one spelling.
#![tactic(auto)]

/// The lines of a live script that a script does not have.
mod blocks;
/// The lines of a body: its commands.
mod body;
/// One command.
mod command;
/// Fields that are written alike in a setup and in a commit.
mod fields;
/// The words of a scheme.
mod keys;
/// What is wrong with a line.
mod kind;
/// Laws: a line is read exactly where it says something.
mod laws;
/// The lines of a commit.
mod part;
/// Range lines in one pass.
mod ranges;
/// The lines of a setup.
mod setup;
/// Touch lines in one pass.
mod touches;
/// The values of the keys of a scheme.
mod values;
/// The words of a line.
mod words;
/// Appending lines.
mod writers;
/// Appending fields, and the words of a scheme.
mod written;

pub use blocks::{MAX_PASSES, MAX_TOUCHES, Pages, read_block, read_passes, read_touches};
pub use body::read_command;
pub use command::{Command, MAX_STEPS};
pub use kind::ScriptKind;
pub use laws::{
    body_lines_are_spelled, fields_are_spelled, schemes_are_said, schemes_are_spelled,
    setup_lines_are_spelled, spelled_lines_are_read,
};
pub use part::{Part, read_part, wants_slot};
pub use ranges::leading_range;
pub use setup::{
    Frame, read_attrs_line, read_cap, read_range_line, read_scheme_line, read_seed,
    read_target_line, read_unit,
};
pub use touches::leading_touch;
pub use words::{
    Words, alone, arguments, first_word, four_words, read_8, read_32, read_64, read_byte_address,
    same_word,
};
pub use writers::{
    write_attrs, write_change_line, write_cost, write_number_line, write_range, write_target,
};
