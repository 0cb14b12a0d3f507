//! Lines of a text, words of a line, parts between separators, and decimal and hexadecimal numbers
//! with one spelling each.
#![tactic(auto)]

/// Hexadecimal addresses: reading and writing.
mod address;
/// Appending to a text.
mod append;
/// Writing in front of what is written.
mod before;
/// The bytes between the parts of a text.
mod bytes;
/// Hexadecimal digits, written from the last to the first.
mod hex_digits;
/// How reading and spelling relate.
mod laws;
/// Numbers and addresses at the front of bytes.
mod leading;
/// Words, prefixes, and equal texts.
mod line;
/// Decimal numbers: reading and writing.
mod number;
/// The parts of bytes between separators, and plain lines.
mod parts;

pub use address::{address_before, read_address};
pub use append::{append_field, end_line, whole_or_nothing};
pub use before::{address_field_before, field_before, text_before};
pub use bytes::{COLON, COMMA, DASH, EQUALS, LF, SPACE};
pub use laws::{address_is_spelled, decimal_is_read, number_is_decimal, spelled_address_is_read};
pub use leading::{leading_address, leading_number};
pub use line::{next_word, same_text, strip};
pub use number::{number_before, read_number, read_number_8, read_number_32, write_number};
pub use parts::{four_parts, is_plain, next_part, split_front, split_line, three_parts, two_parts};
