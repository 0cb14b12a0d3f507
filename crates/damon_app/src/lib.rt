//! The program that replays scripts, one or several beside each other, checks journals, shows their heat and
//! runs generated scripts.
#![tactic(auto)]

/// What several contexts say.
mod admin;
/// The command that parses the words.
mod command;
/// The line of a lawful journal.
mod counts;
/// The goals of quotas that words say.
mod goal_words;
/// The heat tables of a journal.
mod heat;
/// What holds of all runs.
mod laws;
/// Text that is handed over piece by piece.
mod pieces;
/// The top call.
mod replay;
/// What the words after the program's name ask for.
mod request;
/// The run of a script.
mod run;
/// The line of a generated run.
mod summary;

pub use replay::replay_main;
pub use request::{Columns, Request, Run};
