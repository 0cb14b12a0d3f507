ghost use Rattle.std.specs.Prelude.{◌≡◌, ℕ, ◌-◌, List};
ghost use Rattle.std.specs.Option.{ok_or};
ghost use Rattle.line_text.specs.Parts.{one_of, two_of, three_of, four_of};
ghost use Rattle.script_lines.specs.declared.kind.ScriptKind.TheVariants.{Form};
ghost use Rattle.script_lines.specs.Views.{shown_words, shown_one, shown_two, shown_three, shown_four};
ghost use Rattle.script_lines.specs.Words.{alone, arguments, begins_with, byte_address, number_8, number_16, number_32, number_64, same_word, words_in};

use crate::ScriptKind;
use line_text::{
    four_parts, is_plain, read_address, read_number, read_number_8, read_number_32, split_front,
    three_parts, two_parts,
};

/// The words after the first of a line, as text. None if there are none.
pub type Words<'a> = Option<&'a [u8]>;

/// Whether two words are the same.
pub fn same_word(word: &[u8], text: &[u8]) -> bool
    ensures { result ≡ same_word word.now text.now }
{
    word == text
}

/// The first word of a line, up to a space or the line's end.
pub fn first_word(line: &[u8]) -> &[u8]
    ensures { (word : List ℕ) → begins_with word line.now ≡ same_word result.now word }
{
    let (first, _rest) = split_front(line, b' ');
    first
}

/// The words after the first, of a well-formed line that begins with this one.
pub fn arguments<'a>(word: &[u8], line: &'a [u8]) -> Result<Words<'a>, ScriptKind>
    ensures { shown_words result ≡ arguments word.now line.now }
{
    let (first, rest) = split_front(line, b' ');
    if !same_word(first, word) {
        return Err(ScriptKind::Word);
    }
    if !is_plain(line) {
        return Err(ScriptKind::Form);
    }
    Ok(rest)
}

/// Reads a line of this word alone.
#[tactic(auto, using(crate::proofs::WordLemmas::no_word_parts))]
pub fn alone(word: &[u8], line: &[u8]) -> Result<(), ScriptKind>
    ensures { result ≡ alone word.now line.now }
{
    match arguments(word, line)? {
        None => Ok(()),
        Some(_) => Err(ScriptKind::Form),
    }
}

// The one word that there is.
#[tactic(auto, using(crate::proofs::WordLemmas::one_of_parts))]
pub fn one_word<'a>(words: Words<'a>) -> Result<&'a [u8], ScriptKind>
    ensures { shown_one result ≡ ok_or (one_of (words_in words.entry)) Form }
{
    match words.map(|text| split_front(text, b' ')) {
        Some((word, None)) => Ok(word),
        _ => Err(ScriptKind::Form),
    }
}

// The two words that there are.
pub fn two_words<'a>(words: Words<'a>) -> Result<(&'a [u8], &'a [u8]), ScriptKind>
    ensures { shown_two result ≡ ok_or (two_of (words_in words.entry)) Form }
{
    two_parts(words.ok_or(ScriptKind::Form)?, b' ').ok_or(ScriptKind::Form)
}

// The three words that there are.
pub fn three_words<'a>(words: Words<'a>) -> Result<(&'a [u8], &'a [u8], &'a [u8]), ScriptKind>
    ensures { shown_three result ≡ ok_or (three_of (words_in words.entry)) Form }
{
    three_parts(words.ok_or(ScriptKind::Form)?, b' ').ok_or(ScriptKind::Form)
}

/// The four words that there are.
pub fn four_words<'a>(
    words: Words<'a>,
) -> Result<(&'a [u8], &'a [u8], &'a [u8], &'a [u8]), ScriptKind>
    ensures { shown_four result ≡ ok_or (four_of (words_in words.entry)) Form }
{
    four_parts(words.ok_or(ScriptKind::Form)?, b' ').ok_or(ScriptKind::Form)
}

/// A number of 8 bits.
pub fn read_8(word: &[u8]) -> Result<u8, ScriptKind>
    ensures { result ≡ number_8 word.now }
{
    read_number_8(word).ok_or(ScriptKind::Number)
}

// A number of 16 bits.
pub fn read_16(word: &[u8]) -> Result<u16, ScriptKind>
    ensures { result ≡ number_16 word.now }
{
    let number = read_number(word, u64::from(u16::MAX)).ok_or(ScriptKind::Number)?;
    Ok(number as u16)
}

/// A number of 32 bits.
pub fn read_32(word: &[u8]) -> Result<u32, ScriptKind>
    ensures { result ≡ number_32 word.now }
{
    read_number_32(word).ok_or(ScriptKind::Number)
}

/// A number of 64 bits.
pub fn read_64(word: &[u8]) -> Result<u64, ScriptKind>
    ensures { result ≡ number_64 word.now }
{
    read_number(word, u64::MAX).ok_or(ScriptKind::Number)
}

/// An address.
pub fn read_byte_address(word: &[u8]) -> Result<u64, ScriptKind>
    ensures { result ≡ byte_address word.now }
{
    read_address(word).ok_or(ScriptKind::Number)
}
