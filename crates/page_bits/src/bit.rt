ghost use Rattle.std.specs.Prelude.{◌≡◌, ◌/◌, ◌<◌, ◌==◌, ℕ, true, false, if◌then◌else◌, length};
ghost use Rattle.page_bits.specs.Bits.{bit_in};

use crate::WORD;

/// Whether the bit of a page is 1. The page has a word.
#[inline(always)]
pub fn is_bit_set(words: &[u64], page: u32) -> bool
    requires { page / 64 < length words.now }
    ensures { result ≡ bit_in words.now page }
{
    words[(page / WORD) as usize] >> (page % WORD) & 1 == 1
}

/// Sets the bit of a page, and no other. The page has a word.
#[inline(always)]
pub fn set_bit(words: &mut [u64], page: u32)
    requires { page / 64 < length words.old }
    ensures len { length words.new ≡ length words.old }
    ensures bits { (p : ℕ) → bit_in words.new p ≡ (if page == p then true else bit_in words.old p) }
{
    words[(page / WORD) as usize] |= 1 << (page % WORD);
}

/// Clears the bit of a page, and no other. The page has a word.
#[inline(always)]
pub fn clear_bit(words: &mut [u64], page: u32)
    requires { page / 64 < length words.old }
    ensures len { length words.new ≡ length words.old }
    ensures bits { (p : ℕ) → bit_in words.new p ≡ (if page == p then false else bit_in words.old p) }
{
    words[(page / WORD) as usize] &= !(1 << (page % WORD));
}
