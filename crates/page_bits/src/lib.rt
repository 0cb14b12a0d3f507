//! One bit for each page of a space, 64 in each word.
#![tactic(auto)]

/// One page's bit: whether it is 1, and setting and clearing it.
mod bit;
/// Bits for pages that lie next to each other, one for each.
mod each;
/// The word that was changed last.
mod last_word;
/// The bits of a word that lie next to each other.
mod mask;
/// Sets of pages, or of other numbers.
mod bit_set;
/// The bits of a run of pages.
mod run;

pub use bit::{clear_bit, is_bit_set, set_bit};
pub use bit_set::BitSet;
pub use each::{get_each_bit, put_each_bit};
pub use last_word::LastWord;
pub use mask::ones_between;
pub use run::put_bits_of_run;

/// How many pages a word has.
pub const WORD: u32 = 64;
