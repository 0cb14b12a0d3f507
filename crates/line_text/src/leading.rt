ghost use Rattle.std.specs.Prelude.{◌≡◌, ◌≤◌, ◌<◌, ◌^◌, length, take, Some, IfSome, IfNone};
ghost use Rattle.line_text.specs.Address.{hex_on};
ghost use Rattle.line_text.specs.Leading.{leading_address, leading_digits, leading_hex, leading_hex_digits, leading_number, view_leading};
ghost use Rattle.line_text.specs.Number.{digits_up_to};
ghost use Rattle.std.specs.Option.{option_map};

use crate::address::hex_value;
use crate::line::strip;
use crate::number::with_digit;

/// The number that the decimal digits at the front of some bytes spell, if it is at most `most`, and
/// the bytes after these digits. `None` if they spell no number as [`read_number`](crate::read_number)
/// reads it. Each digit is looked at once.
#[inline]
pub fn leading_number(bytes: &[u8], most: u64) -> Option<(u64, &[u8])>
    ensures exact { view_leading result ≡ leading_number most bytes.now }
    ensures bound { IfSome result (λ x. x.0 ≤ most) }
{
    let (value, count) = read_leading_digits(bytes, most)?;
    match &bytes[..count] {
        [] | [b'0', _, ..] => None,
        _ => Some((value, &bytes[count..])),
    }
}

// The value of the decimal digits at the front of some bytes, if it is at most `most`, and their number.
#[inline]
fn read_leading_digits(bytes: &[u8], most: u64) -> Option<(u64, usize)>
    ensures value { option_map (λ x. x.0) result ≡ digits_up_to most (leading_digits bytes.now) }
    ensures most { IfSome result (λ x. x.0 ≤ most) }
    ensures digits { IfSome result (λ x. take x.1 bytes.now ≡ leading_digits bytes.now) }
    ensures within { IfSome result (λ x. x.1 ≤ length bytes.now) }
{
    let mut value = 0;
    for (index, byte) in bytes.iter().enumerate() {
        if !byte.is_ascii_digit() {
            return Some((value, index));
        }
        value = with_digit(value, *byte, most)?;
    }
    Some((value, bytes.len()))
}

/// The address at the front of some bytes, `0x` and hexadecimal digits, and the bytes after these
/// digits. `None` if they spell no address as [`read_address`](crate::read_address) reads it. Each digit
/// is looked at once.
#[inline]
pub fn leading_address(bytes: &[u8]) -> Option<(u64, &[u8])>
    ensures { view_leading result ≡ leading_address bytes.now }
{
    leading_hex(strip(bytes, b"0x")?)
}

// The number of the hexadecimal digits at the front of some bytes, and the bytes after them.
#[inline]
fn leading_hex(bytes: &[u8]) -> Option<(u64, &[u8])>
    ensures { view_leading result ≡ leading_hex bytes.now }
{
    let (value, count) = read_leading_hex_digits(bytes)?;
    match &bytes[..count] {
        [] | [b'0', _, ..] => None,
        _ => Some((value, &bytes[count..])),
    }
}

// The most hexadecimal digits of an address.
const MOST_DIGITS: usize = 16;

// The value of the hexadecimal digits at the front of some bytes, if there are at most 16, and their number.
#[inline]
fn read_leading_hex_digits(bytes: &[u8]) -> Option<(u64, usize)>
    ensures value { IfSome result (λ x. hex_on 0 (leading_hex_digits bytes.now) ≡ Some x.0) }
    ensures digits { IfSome result (λ x. take x.1 bytes.now ≡ leading_hex_digits bytes.now) }
    ensures within { IfSome result (λ x. x.1 ≤ length bytes.now) }
    ensures few { IfSome result (λ x. x.1 ≤ 16) }
    ensures none { IfNone result (16 < length (leading_hex_digits bytes.now)) }
{
    if bytes.len() <= MOST_DIGITS {
        return Some(read_few_hex_digits(bytes));
    }
    let mut value = 0;
    // The number of turns is known, so the compiler lays them out one after another, without a counter.
    for index in 0..MOST_DIGITS + 1 {
        let Some(digit) = hex_value(bytes[index]) else {
            return Some((value, index));
        };
        if index == MOST_DIGITS {
            return None;
        }
        value = 16 * value + u64::from(digit);
    }
    None
}

// The same of at most 16 bytes.
fn read_few_hex_digits(bytes: &[u8]) -> (u64, usize)
    requires { length bytes.now ≤ 16 }
    ensures value { hex_on 0 (leading_hex_digits bytes.now) ≡ Some result.0 }
    ensures digits { take result.1 bytes.now ≡ leading_hex_digits bytes.now }
    ensures within { result.1 ≤ length bytes.now }
{
    let mut value = 0;
    for (index, byte) in bytes.iter().enumerate() {
        let Some(digit) = hex_value(*byte) else {
            return (value, index);
        };
        value = 16 * value + u64::from(digit);
    }
    (value, bytes.len())
}
