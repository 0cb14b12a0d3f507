ghost use Rattle.std.specs.Prelude.{◌≡◌, ◌++◌, ◌+◌, ◌≤◌, ◌<◌, length, drop, take, IfSome};
ghost use Rattle.line_text.specs.Address.{address, hex_digit, hex_number, hex_on, spelled_address};

use crate::hex_digits::write_hex;

/// The address that a word spells: `0x0`, or `0x` and 1 to 16 hexadecimal digits in lower case, the
/// first of which is not 0. `None` for any other word.
pub fn read_address(word: &[u8]) -> Option<u64>
    ensures exact { result ≡ address word.now }
{
    match word {
        [b'0', b'x', digits @ ..] => read_hex(digits),
        _ => None,
    }
}

// The number that hexadecimal digits spell.
fn read_hex(word: &[u8]) -> Option<u64>
    ensures exact { result ≡ hex_number word.now }
{
    match word {
        [] | [b'0', _, ..] => None,
        _ if word.len() <= 16 => read_hex_digits(word),
        _ => None,
    }
}

// The value of at most 16 hexadecimal digits.
fn read_hex_digits(word: &[u8]) -> Option<u64>
    requires { length word.now ≤ 16 }
    ensures exact { result ≡ hex_on 0 word.now }
{
    let mut value = 0;
    for byte in word {
        value = 16 * value + u64::from(hex_value(*byte)?);
    }
    Some(value)
}

// What stands in the table for a byte that is no digit.
const NO: u8 = 16;

// The value of each byte as a hexadecimal digit in lower case.
#[rattlefmt::skip]
static VALUES: [u8; 256] = [
    NO, NO, NO, NO, NO, NO, NO, NO, NO, NO, NO, NO, NO, NO, NO, NO,
    NO, NO, NO, NO, NO, NO, NO, NO, NO, NO, NO, NO, NO, NO, NO, NO,
    NO, NO, NO, NO, NO, NO, NO, NO, NO, NO, NO, NO, NO, NO, NO, NO,
    0, 1, 2, 3, 4, 5, 6, 7, 8, 9, NO, NO, NO, NO, NO, NO,
    NO, NO, NO, NO, NO, NO, NO, NO, NO, NO, NO, NO, NO, NO, NO, NO,
    NO, NO, NO, NO, NO, NO, NO, NO, NO, NO, NO, NO, NO, NO, NO, NO,
    NO, 10, 11, 12, 13, 14, 15, NO, NO, NO, NO, NO, NO, NO, NO, NO,
    NO, NO, NO, NO, NO, NO, NO, NO, NO, NO, NO, NO, NO, NO, NO, NO,
    NO, NO, NO, NO, NO, NO, NO, NO, NO, NO, NO, NO, NO, NO, NO, NO,
    NO, NO, NO, NO, NO, NO, NO, NO, NO, NO, NO, NO, NO, NO, NO, NO,
    NO, NO, NO, NO, NO, NO, NO, NO, NO, NO, NO, NO, NO, NO, NO, NO,
    NO, NO, NO, NO, NO, NO, NO, NO, NO, NO, NO, NO, NO, NO, NO, NO,
    NO, NO, NO, NO, NO, NO, NO, NO, NO, NO, NO, NO, NO, NO, NO, NO,
    NO, NO, NO, NO, NO, NO, NO, NO, NO, NO, NO, NO, NO, NO, NO, NO,
    NO, NO, NO, NO, NO, NO, NO, NO, NO, NO, NO, NO, NO, NO, NO, NO,
    NO, NO, NO, NO, NO, NO, NO, NO, NO, NO, NO, NO, NO, NO, NO, NO,
];

// The value of a hexadecimal digit in lower case. Nobody can foretell whether the next digit of an address is
// a letter, so no branch asks.
pub(crate) fn hex_value(byte: u8) -> Option<u8>
    ensures exact { result ≡ hex_digit byte }
    ensures bound { IfSome result (λ d. d < 16) }
{
    let value = VALUES[byte as usize];
    if value < NO { Some(value) } else { None }
}

/// Writes the spelling of an address so that it ends before index `end`, and returns the index of
/// its first byte, at least `end - 18`. The bytes before that index and from `end` on are
/// unchanged.
#[inline(always)]
#[tactic(auto, using(crate::proofs::Hex::length_hex_le))]
pub fn address_before(bytes: &mut [u8], end: usize, value: u64) -> usize
    requires room { 18 ≤ end }
    requires within { end ≤ length bytes.old }
    ensures start { result ≤ end }
    ensures most { end ≤ result + 18 }
    ensures written { drop result bytes.new ≡ spelled_address value ++ drop end bytes.old }
    ensures before { take result bytes.new ≡ take result bytes.old }
{
    let start = write_hex(value, bytes, end);
    bytes[start - 1] = b'x';
    bytes[start - 2] = b'0';
    start - 2
}
