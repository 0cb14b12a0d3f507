//! Tests of the crates of types, bits, texts, setups and heat tables: their public calls on the usual
//! path, and what no clause says.
#![tactic(auto)]

/// The text of heat tables.
#[cfg(test)]
mod heat_texts;
/// Sets of bits.
#[cfg(test)]
mod sets;
/// Setups.
#[cfg(test)]
mod setups;
/// Streams over readers and writers of std.
#[cfg(test)]
mod streams;
/// Numbers.
#[cfg(test)]
mod texts;
/// Spaces, ranges and lists.
#[cfg(test)]
mod types;
