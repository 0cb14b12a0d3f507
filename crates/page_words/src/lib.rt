//! Atomic page words: worker threads touch pages while one monitor clears and loads them, each by one
//! atomic step.
//!
//! A page's word is `2 × c + t`: `c` is the pass that last cleared the page, 0 before the first clear,
//! and `t` is 1 where the page was touched since. A touch sets the lowest bit and learns `c`, its tag.
//!
//! Between any two steps the words and the views of all seats obey one rule, for any number of touch
//! seats and the one seat of the monitor: `WordRule` in `specs/Rule.antt`, whose clauses stand in
//! `specs/Clauses.antt`. The table's type keeps it. What callers learn of it is in the contracts of
//! [`PageWords`]: `touch`, `clear` and `load` while threads run, and `settle` at the end.
//!
//! A touch, a clear and a load are one atomic step each; a split and a gather are one load of word 0
//! each. `clear_each` and `load_each` make one such step for each page of a pass, and before them they read
//! each word once more, without a seat and without a use of what they read. No call waits, and none but
//! `PageWords::new` takes memory.
//!
//! Nothing is claimed about progress, fairness, or the order of steps of different threads. A seat
//! knows its own steps in order, and of other seats what the rule says of the words that it finds.
#![tactic(auto)]

/// A law of the definitions.
mod laws;
/// The clears and the loads of a pass.
mod pass_steps;
/// The rule of the table, and what each atomic step tells.
mod rule;
/// The seats of threads.
mod seats;
/// The words after the sharing has ended.
mod settled;
/// The atomic steps.
mod steps;
/// The views of seats, which exist in contracts alone.
mod view;
/// The shared table of page words.
mod words;

pub use laws::steps_keep_the_rule;
pub use seats::{MonitorSeat, TouchSeat};
pub use settled::Settled;
pub use view::{Entry, Touch};
pub use words::{PageWords, WordsAndSeat};
