ghost use Rattle.std.specs.Prelude.{◌≡◌, ◌/◌, ◌<◌, ◌==◌, ℕ, false, if◌then◌else◌, length};
ghost use Rattle.page_bits.specs.Bits.{IsLast, bit_in};

use crate::WORD;

/// The word that was changed last, as it stands in the list, and its index. Of pages that lie side by side
/// several have one word: it is taken from here, since what was just stored takes longer to load than to
/// change.
#[derive(Clone, Copy)]
pub struct LastWord {
    index: u32,
    word: u64,
}

impl LastWord {
    /// The word of a page, which has one.
    #[inline(always)]
    pub fn of(words: &[u64], page: u32) -> LastWord
        requires { page / 64 < length words.now }
        ensures { IsLast words.now result }
    {
        let index = page / WORD;
        LastWord {
            index,
            word: words[index as usize],
        }
    }

    /// Clears the bit of a page, and no other. The page has a word, and no other call has changed the words
    /// since the last one.
    #[inline(always)]
    pub fn clear_bit(&mut self, words: &mut [u64], page: u32)
        requires word { page / 64 < length words.old }
        requires last { IsLast words.old self.old }
        ensures len { length words.new ≡ length words.old }
        ensures bits { (p : ℕ) → bit_in words.new p ≡ (if page == p then false else bit_in words.old p) }
        ensures last { IsLast words.new self.new }
    {
        let index = page / WORD;
        let old = if index == self.index {
            self.word
        } else {
            words[index as usize]
        };
        let word = old & !(1 << (page % WORD));
        words[index as usize] = word;
        *self = LastWord { index, word };
    }
}
