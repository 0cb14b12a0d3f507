ghost use Rattle.std.specs.Prelude.{◌≡◌, ◌+◌, ◌*◌, ◌^◌, ◌≤◌, ◌<◌, ℕ, false, length, slice_index_or};
ghost use Rattle.page_bits.specs.Bits.{bit_in, is_set};
ghost use Rattle.page_bits.specs.Runs.{bit_after};

use crate::WORD;

/// Gives the pages from `start` on, which have words, these bits, in order. A word is loaded and stored once,
/// since what was just stored takes longer to load than to change.
pub fn put_each_bit(words: &mut [u64], start: u32, bits: &[bool])
    requires sum { start + length bits.now < 2 ^ 32 }
    requires within { start + length bits.now ≤ 64 * length words.old }
    ensures len { length words.new ≡ length words.old }
    ensures bits { (p : ℕ) → bit_in words.new p ≡ bit_after start bits.now p (bit_in words.old p) }
{
    let mut done = 0;
    'words: while done < bits.len() {
        let page = start + done as u32;
        let at = page % WORD;
        let count = (bits.len() - done).min((WORD - at) as usize);
        put_in_word(
            &mut words[(page / WORD) as usize],
            at,
            &bits[done..done + count],
        );
        done += count;
    }
}

// Gives the bits of a word from `from` on these values, in order.
#[inline(always)]
fn put_in_word(word: &mut u64, from: u32, bits: &[bool])
    requires { from + length bits.now ≤ 64 }
    ensures { (i : ℕ) → i < 64 → is_set word.new i ≡ bit_after from bits.now i (is_set word.old i) }
{
    let mut now = *word;
    for k in 0..bits.len() {
        let at = from + k as u32;
        if bits[k] {
            now |= 1 << at;
        } else {
            now &= !(1 << at);
        }
    }
    *word = now;
}

/// Tells of the pages from `start` on, which have words, whether the bit of each is 1. A word is loaded once.
pub fn get_each_bit(words: &[u64], start: u32, bits: &mut [bool])
    requires sum { start + length bits.old < 2 ^ 32 }
    requires within { start + length bits.old ≤ 64 * length words.now }
    ensures len { length bits.new ≡ length bits.old }
    ensures bits { (k : ℕ) → k < length bits.old
        → slice_index_or bits.new k false ≡ bit_in words.now (start + k) }
{
    let mut done = 0;
    'words: while done < bits.len() {
        let page = start + done as u32;
        let at = page % WORD;
        let count = (bits.len() - done).min((WORD - at) as usize);
        let word = words[(page / WORD) as usize];
        get_from_word(word, at, &mut bits[done..done + count]);
        done += count;
    }
}

// Tells of the bits of a word from `from` on whether each is 1.
#[inline(always)]
fn get_from_word(word: u64, from: u32, bits: &mut [bool])
    requires { from + length bits.old ≤ 64 }
    ensures len { length bits.new ≡ length bits.old }
    ensures bits { (k : ℕ) → k < length bits.old
        → slice_index_or bits.new k false ≡ is_set word (from + k) }
{
    for k in 0..bits.len() {
        bits[k] = word >> (from + k as u32) & 1 == 1;
    }
}
