ghost use Rattle.std.specs.Prelude.{◌≡◌, ◌+◌, ◌-◌, ◌*◌, ◌/◌, ◌^◌, ◌≤◌, ◌<◌, ◌&&◌, ℕ, length, if◌then◌else◌};
ghost use Rattle.page_bits.specs.Bits.{is_set};
ghost use Rattle.page_bits.specs.Runs.{IsRunPut, count_pages, differs};

use crate::{WORD, ones_between};

/// Sets the bits of the pages of a run, which have words, or clears them: each becomes `now`. Returns how
/// many of them were not so.
#[inline]
pub fn put_bits_of_run(words: &mut [u64], start: u32, pages: u32, now: bool) -> u32
    requires sum { start + pages < 2 ^ 32 }
    requires within { start + pages ≤ 64 * length words.old }
    ensures { IsRunPut words.old words.new start pages now result }
{
    let end = start + pages;
    let first = start / WORD;
    let last = end / WORD;
    if first == last {
        return put_part(words, first, start % WORD, end % WORD, now);
    }
    // The words in the middle need no masks, so their loop takes several at once.
    let head = put_part(words, first, start % WORD, WORD, now);
    let whole = put_words(words, first + 1, last, now);
    let tail = put_part(words, last, 0, end % WORD, now);
    head + whole + tail
}

// The same for the words from `from` to before `to`. Where nobody asks for the count, the loop is a fill.
#[inline]
fn put_words(words: &mut [u64], from: u32, to: u32, now: bool) -> u32
    requires order { from ≤ to }
    requires sum { 64 * to < 2 ^ 32 }
    requires within { to ≤ length words.old }
    ensures { IsRunPut words.old words.new (64 * from) (64 * (to - from)) now result }
{
    let mut count = 0;
    for index in from..to {
        count += put_part(words, index, 0, WORD, now);
    }
    count
}

// The same for the bits from `from` to before `to` of one word.
#[inline(always)]
fn put_part(words: &mut [u64], index: u32, from: u32, to: u32, now: bool) -> u32
    requires order { from ≤ to }
    requires bits { to ≤ 64 }
    requires within { 64 * index + to ≤ 64 * length words.old }
    ensures { IsRunPut words.old words.new (64 * index + from) (to - from) now result }
{
    if from == to {
        return 0;
    }
    put_bits(&mut words[index as usize], ones_between(from, to), now)
}

// Sets the bits of the mask to `now`, and returns how many of them were not so.
#[inline(always)]
fn put_bits(word: &mut u64, mask: u64, now: bool) -> u32
    ensures bits { (i : ℕ) → i < 64 → is_set word.new i
        ≡ (if is_set mask i then now else is_set word.old i) }
    ensures count { (n : ℕ) → n ≡ 64 → result
        ≡ count_pages n (λ i. is_set mask i && differs now (is_set word.old i)) }
{
    let changed = (*word ^ all_bits(now)) & mask;
    *word ^= changed;
    changed.count_ones()
}

// The word in which each bit is `now`.
#[inline(always)]
fn all_bits(now: bool) -> u64
    ensures { result ≡ (if now then 2 ^ 64 - 1 else 0) }
{
    if now { u64::MAX } else { 0 }
}
