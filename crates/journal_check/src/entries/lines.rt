// Lines that are compared with those that a state wants.
ghost use Rattle.std.specs.Prelude.{◌≡◌, ◌≤◌, ◌++◌, length, map, option_map, IfOk};
ghost use Rattle.std.specs.Fmt.{decimal};
ghost use Rattle.std.specs.Option.{option_copied};
ghost use Rattle.line_text.specs.Line.{after_prefix};
ghost use Rattle.script_lines.specs.Words.{same_word};
ghost use Rattle.std.specs.List.{list_all};
ghost use Rattle.journal_text.specs.EntryLine.{is_bit, is_one, n_bits_of};
ghost use Rattle.journal_text.specs.Spelled.{call_front, check_front, spelled_answer};

use journal_text::{without_end, write_answer};
use line_text::{field_before, strip, text_before};
use run_journal::CallAnswer;
use script_lines::same_word;
use std::alloc::{AllocError, Global};

// Bytes enough for the longest line of two numbers that is compared, which has at most 60.
const LINE_ROOM: usize = 64;

// Whether a line is these words, a number, words and a number.
pub(crate) fn is_pair_line(
    line: &[u8],
    name: &[u8],
    first: u64,
    between: &[u8],
    second: u64,
) -> bool
    requires name { length name.now ≤ 10 }
    requires between { length between.now ≤ 10 }
    ensures { result ≡ same_word line.now
        (name.now ++ (decimal first ++ (between.now ++ decimal second))) }
{
    let mut wanted = [0; LINE_ROOM];
    let middle = field_before(&mut wanted, LINE_ROOM, between, second);
    let start = field_before(&mut wanted, middle, name, first);
    same_word(line, &wanted[start..])
}

// Whether a line is these words and a number.
pub(crate) fn is_number_line(line: &[u8], name: &[u8], value: u64) -> bool
    requires { length name.now ≤ 10 }
    ensures { result ≡ same_word line.now (name.now ++ decimal value) }
{
    let mut wanted = [0; LINE_ROOM];
    let start = field_before(&mut wanted, LINE_ROOM, name, value);
    same_word(line, &wanted[start..])
}

// The digits of a line `check PASS BITS` of this pass, or `None` if the line is another.
pub(crate) fn check_digits(line: &[u8], pass: u64) -> Option<&[u8]>
    ensures { option_copied result ≡ after_prefix (check_front pass) line.now }
{
    let mut front = [0; LINE_ROOM];
    let end = text_before(&mut front, LINE_ROOM, b" ");
    let start = field_before(&mut front, end, b"check ", pass);
    strip(line, &front[start..])
}

// The last word of a line `call CONTROLLER INDEX WORD` of this controller and index, or `None` if
// the line is another.
pub(crate) fn call_word(line: &[u8], controller: u32, index: u32) -> Option<&[u8]>
    ensures { option_copied result ≡ after_prefix (call_front controller index) line.now }
{
    let mut front = [0; LINE_ROOM];
    let end = text_before(&mut front, LINE_ROOM, b" ");
    let middle = field_before(&mut front, end, b" ", u64::from(index));
    let start = field_before(&mut front, middle, b"call ", u64::from(controller));
    strip(line, &front[start..])
}

// The results that digits say, or `None` if they are not this many or one is not `0` or `1`.
// Allocates.
pub(crate) fn read_bits(
    alloc: Global,
    digits: &[u8],
    count: usize,
) -> Result<Option<Vec<bool>>, AllocError>
    ensures { IfOk result (λ bits. option_map (λ v. v.items) bits ≡ n_bits_of count digits.now) }
{
    if digits.len() != count {
        return Ok(None);
    }
    if !are_bits(digits) {
        return Ok(None);
    }
    let bits = bits_in(alloc, digits)?;
    Ok(Some(bits))
}

// Whether each digit is `0` or `1`.
fn are_bits(digits: &[u8]) -> bool
    ensures { result ≡ list_all is_bit digits.now }
{
    let mut all = true;
    // No early return: without one the compiler tests many digits at once.
    'digits: for digit in digits {
        all &= (b'0'..=b'1').contains(digit);
    }
    all
}

// The results that such digits say.
fn bits_in(alloc: Global, digits: &[u8]) -> Result<Vec<bool>, AllocError>
    ensures { IfOk result (λ bits. bits.items ≡ map is_one digits.now) }
{
    let mut bits = Vec::with_capacity(alloc, digits.len())?;
    'digits: for digit in digits {
        bits.push_reserved(*digit == b'1');
    }
    Ok(bits)
}

// Whether a line is the one of this answer.
pub(crate) fn is_answer(alloc: Global, line: &[u8], answer: CallAnswer) -> Result<bool, AllocError>
    ensures { IfOk result (λ same. same ≡ same_word line.now (spelled_answer answer)) }
{
    let mut wanted = Vec::new(alloc);
    write_answer(&mut wanted, answer)?;
    Ok(same_word(line, without_end(&wanted)))
}
