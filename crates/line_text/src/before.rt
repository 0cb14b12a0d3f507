// Writing in front of what is written: from the end of a line to its start, no length of a part has to be known in
// advance.
ghost use Rattle.std.specs.Prelude.{◌≡◌, ◌+◌, ◌≤◌, ◌++◌, length, drop};
ghost use Rattle.std.specs.Fmt.{decimal};
ghost use Rattle.line_text.specs.Address.{spelled_address};

use crate::address::address_before;
use crate::number::number_before;

/// Writes a text so that it ends right before index `end`, and returns the index where it begins. The functions
/// below do the same.
#[inline(always)]
pub fn text_before(bytes: &mut [u8], end: usize, text: &[u8]) -> usize
    requires room { length text.now ≤ end }
    requires within { end ≤ length bytes.old }
    ensures start { result + length text.now ≡ end }
    ensures written { drop result bytes.new ≡ text.now ++ drop end bytes.old }
{
    let start = end - text.len();
    // For a text of constant length this is a store or two, where a copy asks first whether the slices
    // overlap.
    let mut index = text.len();
    'bytes: while index > 0 {
        index -= 1;
        bytes[start + index] = text[index];
    }
    start
}

/// Writes a name and a number in decimal.
#[inline(always)]
pub fn field_before(bytes: &mut [u8], end: usize, name: &[u8], value: u64) -> usize
    requires room { length name.now + 20 ≤ end }
    requires within { end ≤ length bytes.old }
    ensures start { result ≤ end }
    ensures most { end ≤ result + (length name.now + 20) }
    ensures written { drop result bytes.new ≡ name.now ++ (decimal value ++ drop end bytes.old) }
{
    let digits = number_before(bytes, end, value);
    text_before(bytes, digits, name)
}

/// Writes a name and an address.
#[inline(always)]
pub fn address_field_before(bytes: &mut [u8], end: usize, name: &[u8], value: u64) -> usize
    requires room { length name.now + 18 ≤ end }
    requires within { end ≤ length bytes.old }
    ensures start { result ≤ end }
    ensures most { end ≤ result + (length name.now + 18) }
    ensures written { drop result bytes.new
        ≡ name.now ++ (spelled_address value ++ drop end bytes.old) }
{
    let address = address_before(bytes, end, value);
    text_before(bytes, address, name)
}
