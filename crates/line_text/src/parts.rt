ghost use Rattle.std.specs.Prelude.{◌≡◌, ◌==◌, ◌<◌, ◌∷◌, ◌&&◌, not, IfSome, length, position};
ghost use Rattle.std.specs.Option.{option_copied};
ghost use Rattle.line_text.specs.Line.{split_at_byte, view_pair};
ghost use Rattle.line_text.specs.Parts.{four_of, is_plain, is_printable, one_of, parts, parts_left, three_of, two_of, view_four, view_three};

use crate::SPACE;
use memchr::memchr;

/// The bytes before the first separator, and those after it. `None` if there is no separator.
pub fn next_part(bytes: &[u8], separator: u8) -> Option<(&[u8], &[u8])>
    ensures exact { view_pair result ≡ split_at_byte separator bytes.now }
    ensures shorter { IfSome result (λ x. length x.1.now < length bytes.now) }
{
    let at = index_of(bytes, separator)?;
    Some((&bytes[..at], &bytes[at + 1..]))
}

// The index of the first such byte.
fn index_of(bytes: &[u8], byte: u8) -> Option<usize>
    ensures exact { result ≡ position (λ c. c == byte) bytes.now }
    ensures within { IfSome result (λ n. n < length bytes.now) }
{
    bytes.iter().position(|c| *c == byte)
}

/// The first part, up to the first separator or the end, and the bytes after that separator. `None`
/// if there is no separator: the part is the last.
pub fn split_front(bytes: &[u8], separator: u8) -> (&[u8], Option<&[u8]>)
    ensures exact { parts separator bytes.now
        ≡ result.0.now ∷ parts_left separator (option_copied result.1) }
    ensures shorter { IfSome result.1 (λ rest. length rest.now < length bytes.now) }
{
    match next_part(bytes, separator) {
        Some((front, rest)) => (front, Some(rest)),
        None => (bytes, None),
    }
}

/// The first line of a text, and the text after its LF. `None` if no LF ends the line: it is the last. As
/// [`split_front`] finds it, but many bytes at once.
#[inline]
pub fn split_line(text: &[u8]) -> (&[u8], Option<&[u8]>)
    ensures exact { parts 10 text.now
        ≡ result.0.now ∷ parts_left 10 (option_copied result.1) }
    ensures shorter { IfSome result.1 (λ rest. length rest.now < length text.now) }
{
    match memchr(b'\n', text) {
        Some(at) => (&text[..at], Some(&text[at + 1..])),
        None => (text, None),
    }
}

/// The two parts between separators, or `None` if there are not exactly two. A part may be empty.
pub fn two_parts(bytes: &[u8], separator: u8) -> Option<(&[u8], &[u8])>
    ensures exact { view_pair result ≡ two_of (parts separator bytes.now) }
{
    let (first, rest) = next_part(bytes, separator)?;
    let second = only_part(rest, separator)?;
    Some((first, second))
}

/// The three parts between separators, or `None` if there are not exactly three. A part may be
/// empty.
pub fn three_parts(bytes: &[u8], separator: u8) -> Option<(&[u8], &[u8], &[u8])>
    ensures exact { view_three result ≡ three_of (parts separator bytes.now) }
{
    let (first, rest) = next_part(bytes, separator)?;
    let (second, third) = two_parts(rest, separator)?;
    Some((first, second, third))
}

/// The four parts between separators, or `None` if there are not exactly four. A part may be empty.
pub fn four_parts(bytes: &[u8], separator: u8) -> Option<(&[u8], &[u8], &[u8], &[u8])>
    ensures exact { view_four result ≡ four_of (parts separator bytes.now) }
{
    let (first, rest) = next_part(bytes, separator)?;
    let (second, third, fourth) = three_parts(rest, separator)?;
    Some((first, second, third, fourth))
}

// The bytes themselves, or `None` if they have a separator.
fn only_part(bytes: &[u8], separator: u8) -> Option<&[u8]>
    ensures exact { option_copied result ≡ one_of (parts separator bytes.now) }
{
    match next_part(bytes, separator) {
        None => Some(bytes),
        Some((_first, _rest)) => None,
    }
}

/// Whether a line is well-formed: each byte is printable (0x20 to 0x7e), and no word between spaces
/// is empty. So the line is not empty, does not begin or end with a space, and has no two spaces in
/// a row.
pub fn is_plain(line: &[u8]) -> bool
    ensures { result ≡ is_plain line.now }
{
    let mut before = SPACE;
    let mut plain = true;
    // No early return: without one the compiler checks many bytes at once.
    'bytes: for byte in line {
        plain &= is_printable_after(before, *byte);
        before = *byte;
    }
    plain && before != SPACE
}

// Whether a byte is printable, and is not a space after a space.
#[inline(always)]
fn is_printable_after(before: u8, byte: u8) -> bool
    ensures { result ≡ (is_printable byte && not (before == SPACE && byte == SPACE)) }
{
    (b' '..=b'~').contains(&byte) & ((before != SPACE) | (byte != SPACE))
}
