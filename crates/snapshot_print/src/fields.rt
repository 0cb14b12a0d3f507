ghost use Rattle.std.specs.Prelude.{◌≡◌, ◌+◌, ◌≤◌, ◌++◌, length, drop, OnOk};
ghost use Rattle.std.specs.Fmt.{decimal};
ghost use Rattle.snapshot_print.specs.Fields.{yes_or_no};
ghost use Rattle.line_text.specs.Appended.{KeepsFront};

use line_text::{number_before, text_before};
use std::alloc::AllocError;

// Appends a field's name and a word.
#[tactic(auto, using(line_text::proofs::Lemmas::appends))]
pub(crate) fn print_word(out: &mut Vec<u8>, name: &[u8], word: &[u8]) -> Result<(), AllocError>
    ensures ok { OnOk result (out.new.items ≡ out.old.items ++ (name.now ++ word.now)) }
    ensures kept { KeepsFront out.old.items out.new.items }
{
    out.extend_from_slice(name)?;
    out.extend_from_slice(word)
}

// Writes a field's name and a number of 32 bits, with at most 10 digits, so that they end right before index
// `end`, and returns the index where they begin.
#[inline(always)]
pub(crate) fn short_field_before(bytes: &mut [u8], end: usize, name: &[u8], value: u32) -> usize
    requires digits { 20 ≤ end }
    requires room { length name.now + 10 ≤ end }
    requires within { end ≤ length bytes.old }
    ensures start { result ≤ end }
    ensures most { end ≤ result + (length name.now + 10) }
    ensures written { drop result bytes.new ≡ name.now ++ (decimal value ++ drop end bytes.old) }
{
    let digits = short_number_before(bytes, end, value);
    text_before(bytes, digits, name)
}

// Writes a number of 32 bits in the same way, with at most 10 digits.
#[inline(always)]
fn short_number_before(bytes: &mut [u8], end: usize, value: u32) -> usize
    requires digits { 20 ≤ end }
    requires within { end ≤ length bytes.old }
    ensures start { result ≤ end }
    ensures most { end ≤ result + 10 }
    ensures written { drop result bytes.new ≡ decimal value ++ drop end bytes.old }
{
    number_before(bytes, end, u64::from(value))
}

// Writes a field's name and a word in the same way.
#[inline(always)]
pub(crate) fn word_before(bytes: &mut [u8], end: usize, name: &[u8], word: &[u8]) -> usize
    requires room { length name.now + length word.now ≤ end }
    requires within { end ≤ length bytes.old }
    ensures start { result + (length name.now + length word.now) ≡ end }
    ensures written { drop result bytes.new ≡ name.now ++ (word.now ++ drop end bytes.old) }
{
    let start = text_before(bytes, end, word);
    text_before(bytes, start, name)
}

// `yes` for true, and `no` for false.
pub(crate) fn yes_or_no(value: bool) -> &'static str
    ensures word { result.now ≡ yes_or_no value }
    ensures short { length result.now ≤ 3 }
{
    if value { "yes" } else { "no" }
}
