//! Reports as lines of text or as JSON lines: what a show and an aggregation write of a monitor, the line of
//! a commit, and the last line.
#![tactic(auto)]

/// The text of an aggregation.
mod aggregate;
/// The lines of the slots that an aggregation served.
mod choice_text;
/// The line of a commit.
mod commit;
/// Fields, words and ends of lines, and texts that are appended whole or not at all.
mod fields;
/// The forms of a report.
mod form;
/// The choices of an aggregation in JSON.
mod json_choices;
/// The lines of a report as JSON.
mod json_lines;
/// Parts of lists in JSON that are written directly.
mod json_list;
/// Members of the objects of a report in JSON.
mod json_parts;
/// Rows in JSON.
mod json_rows;
/// Runs in JSON.
mod json_runs;
/// The set slots in a show in JSON.
mod json_slots;
/// Laws of the texts of a report.
mod laws;
/// Lines that are appended in groups.
mod line_groups;
/// Consecutive pages, and their addresses.
mod page_run;
/// Rows that are written a block at a time.
mod row_groups;
/// The lines of rows.
mod row_text;
/// The text of a show, and the last line of a report.
mod show;
/// The lines of the set slots in a show.
mod slot_text;
/// The most bytes of lines and of their parts.
mod widths;

pub use aggregate::print_aggregate;
pub use commit::{print_answer, print_commit};
pub use form::Form;
pub use laws::{
    choices_have_all_their_runs, json_lines_are_one_line, json_lines_are_read, texts_are_of_states,
};
pub use show::{print_end, print_show};
