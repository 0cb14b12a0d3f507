ghost use Rattle.std.specs.Prelude.{◌≡◌, ◌+◌, ◌/◌, ◌%◌, ◌<◌, ◌≤◌, ◌∷◌, ◌++◌, length, drop, take, false};
ghost use Rattle.std.specs.Fmt.{digits, digit_glyph};

// The two digits of each number below 256, in order.
static PAIRS: [u8; 512] =
    *b"000102030405060708090a0b0c0d0e0f101112131415161718191a1b1c1d1e1f202122232425262728292a2b2c2d2e2f303132333435363738393a3b3c3d3e3f404142434445464748494a4b4c4d4e4f505152535455565758595a5b5c5d5e5f606162636465666768696a6b6c6d6e6f707172737475767778797a7b7c7d7e7f808182838485868788898a8b8c8d8e8f909192939495969798999a9b9c9d9e9fa0a1a2a3a4a5a6a7a8a9aaabacadaeafb0b1b2b3b4b5b6b7b8b9babbbcbdbebfc0c1c2c3c4c5c6c7c8c9cacbcccdcecfd0d1d2d3d4d5d6d7d8d9dadbdcdddedfe0e1e2e3e4e5e6e7e8e9eaebecedeeeff0f1f2f3f4f5f6f7f8f9fafbfcfdfeff";

// Writes the hexadecimal digits of a number so that they end before index `end`, and returns the
// index of the first.
#[inline(always)]
#[tactic(auto, using(crate::proofs::HexPairs::length_hex_four))]
pub(crate) fn write_hex(value: u64, bytes: &mut [u8], end: usize) -> usize
    requires room { length (digits 16 false value) ≤ end }
    requires within { end ≤ length bytes.old }
    ensures start { result + length (digits 16 false value) ≡ end }
    ensures written { drop result bytes.new ≡ digits 16 false value ++ drop end bytes.old }
    ensures before { take result bytes.new ≡ take result bytes.old }
{
    let mut left = value;
    let mut at = end;
    'fours: while left >= 65_536 {
        let four = left % 65_536;
        left /= 65_536;
        write_pair(four % 256, bytes, at - 2);
        write_pair(four / 256, bytes, at - 4);
        at -= 4;
    }
    write_short(left, bytes, at)
}

// The same for a number of at most four digits.
#[inline(always)]
#[tactic(auto, using(crate::proofs::HexPairs::length_hex_pair))]
fn write_short(value: u64, bytes: &mut [u8], end: usize) -> usize
    requires small { value < 65536 }
    requires room { length (digits 16 false value) ≤ end }
    requires within { end ≤ length bytes.old }
    ensures start { result + length (digits 16 false value) ≡ end }
    ensures written { drop result bytes.new ≡ digits 16 false value ++ drop end bytes.old }
    ensures before { take result bytes.new ≡ take result bytes.old }
{
    if value < 256 {
        return write_first(value, bytes, end);
    }
    write_pair(value % 256, bytes, end - 2);
    write_first(value / 256, bytes, end - 2)
}

// The same for a number of one digit or two.
#[inline(always)]
#[tactic(auto, using(crate::proofs::HexPairs::length_hex_one, crate::proofs::HexPairs::length_hex_two))]
fn write_first(value: u64, bytes: &mut [u8], end: usize) -> usize
    requires small { value < 256 }
    requires room { length (digits 16 false value) ≤ end }
    requires within { end ≤ length bytes.old }
    ensures start { result + length (digits 16 false value) ≡ end }
    ensures written { drop result bytes.new ≡ digits 16 false value ++ drop end bytes.old }
    ensures before { take result bytes.new ≡ take result bytes.old }
{
    if value < 16 {
        bytes[end - 1] = PAIRS[value as usize * 2 + 1];
        return end - 1;
    }
    write_pair(value, bytes, end - 2);
    end - 2
}

// Writes the two digits of a number below 256 to indices `at` and `at + 1`.
#[inline(always)]
fn write_pair(pair: u64, bytes: &mut [u8], at: usize)
    requires small { pair < 256 }
    requires room { at + 2 ≤ length bytes.old }
    ensures written { drop at bytes.new
        ≡ digit_glyph false (pair / 16) ∷ digit_glyph false (pair % 16) ∷ drop (at + 2) bytes.old }
    ensures before { take at bytes.new ≡ take at bytes.old }
{
    let from = pair as usize * 2;
    let (first, second) = (PAIRS[from], PAIRS[from + 1]);
    bytes[at] = first;
    bytes[at + 1] = second;
}
