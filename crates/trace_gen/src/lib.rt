//! Generated scripts: runs of a monitor without an input, each of which follows from one number.
#![tactic(auto)]

/// Which pages the blocks of a generated script touch.
mod access;
/// The commands of a generated script.
mod commands;
/// A law of generated scripts.
mod laws;
/// The generated script of a number.
mod script;
/// The setup of every generated script.
mod setup;

pub use access::Access;
pub use commands::BLOCKS;
pub use laws::generated_scripts_are_sound;
pub use script::generate;
