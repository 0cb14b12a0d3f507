ghost use Rattle.std.specs.Prelude.{◌≡◌, ◌++◌, ◌+◌, ◌≤◌, ◌^◌, ◌-◌, length, drop, take, IfSome, OnErr, OnOk};
ghost use Rattle.std.specs.Fmt.{decimal};
ghost use Rattle.line_text.specs.Number.{digits_up_to, number, with_digit_up_to};

use itoa::write_digits;
use std::alloc::AllocError;

/// The number that a word spells, if it is at most `most`: `0`, or decimal digits the first of
/// which is not 0. `None` for any other word.
pub fn read_number(word: &[u8], most: u64) -> Option<u64>
    ensures exact { result ≡ number most word.now }
    ensures bound { IfSome result (λ n. n ≤ most) }
{
    match word {
        [] | [b'0', _, ..] => None,
        _ => read_digits(word, most),
    }
}

/// The number of at most 32 bits that a word spells, read as [`read_number`] does.
pub fn read_number_32(word: &[u8]) -> Option<u32>
    ensures exact { result ≡ number (2 ^ 32 - 1) word.now }
{
    let number = read_number(word, u64::from(u32::MAX))?;
    Some(number as u32)
}

/// The number of at most 8 bits that a word spells, read as [`read_number`] does.
pub fn read_number_8(word: &[u8]) -> Option<u8>
    ensures exact { result ≡ number (2 ^ 8 - 1) word.now }
{
    let number = read_number(word, u64::from(u8::MAX))?;
    Some(number as u8)
}

/// Appends the decimal spelling of a number. Allocates; on an error `out` is unchanged.
pub fn write_number(out: &mut Vec<u8>, value: u64) -> Result<(), AllocError>
    ensures ok { OnOk result (out.new.items ≡ out.old.items ++ decimal value) }
    ensures err { OnErr result (out.new.items ≡ out.old.items) }
{
    let mut digits = [0; 20];
    let start = write_digits(value, &mut digits, 20);
    out.extend_from_slice(&digits[start..])
}

/// Writes the decimal spelling of a number so that it ends before index `end`, and returns the
/// index of its first byte, at least `end - 20`. The bytes before that index and from `end` on are
/// unchanged.
#[inline(always)]
pub fn number_before(bytes: &mut [u8], end: usize, value: u64) -> usize
    requires room { 20 ≤ end }
    requires within { end ≤ length bytes.old }
    ensures start { result ≤ end }
    ensures most { end ≤ result + 20 }
    ensures written { drop result bytes.new ≡ decimal value ++ drop end bytes.old }
    ensures before { take result bytes.new ≡ take result bytes.old }
{
    // Most counts and ages have one digit, for which a call takes longer than the digit.
    if value < 10 {
        bytes[end - 1] = b'0' + value as u8;
        return end - 1;
    }
    write_digits(value, bytes, end)
}

// The number of a word of digits, if it is at most `most`.
fn read_digits(word: &[u8], most: u64) -> Option<u64>
    ensures exact { result ≡ digits_up_to most word.now }
    ensures bound { IfSome result (λ n. n ≤ most) }
{
    let mut value = 0;
    for byte in word {
        value = with_digit(value, *byte, most)?;
    }
    Some(value)
}

// The number with one more digit, if the byte is a digit and the new number at most `most`.
pub(crate) fn with_digit(value: u64, byte: u8, most: u64) -> Option<u64>
    ensures exact { result ≡ with_digit_up_to most value byte }
{
    if !byte.is_ascii_digit() {
        return None;
    }
    let next = value.checked_mul(10)?.checked_add(u64::from(byte - b'0'))?;
    if next <= most { Some(next) } else { None }
}
