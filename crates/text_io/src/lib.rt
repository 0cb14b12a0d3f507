//! The ends of a program: reads an input whole, and hands a text to an output in pieces of whole lines.
#![tactic(auto)]

/// Reading an input to its end.
mod input;
/// Handing a text to a sink.
mod output;
/// Handing over a text that is made a piece at a time.
mod source;

pub use input::{INPUT_LIMIT, InputFault, read_all};
pub use output::{PIECE, write_all};
pub use source::{Filled, PumpFault, TextSource, pump};
