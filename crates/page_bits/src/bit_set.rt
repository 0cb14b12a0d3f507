ghost use Rattle.std.specs.Prelude.{◌≡◌, ◌+◌, ◌^◌, ◌≤◌, ◌<◌, ◌&&◌, [], drop, false, length, replicate, take, count_by, slice_index_or, slice_set, IfOk};
ghost use Rattle.page_bits.specs.Runs.{count_pages, differs, in_run};
ghost use Rattle.page_bits.specs.Sets.{with_each, with_run};

use crate::{WORD, clear_bit, get_each_bit, is_bit_set, put_bits_of_run, put_each_bit, set_bit};
use std::alloc::{AllocError, Global};
use std::marker::Model;

/// A set of the pages of a space, or of other numbers below a bound: a bit for each, 64 in each word.
#[derive(Drop)]
pub struct BitSet {
    len: u32,
    words: Vec<u64>,
}

impl Model for BitSet {
    ghost use Rattle.std.specs.Prelude.{◌*◌, ◌≤◌, Bool, List, length};
    ghost use Rattle.page_bits.specs.Sets.{bits_of};

    ghost Value = { List Bool };

    ghost view = { λ s. bits_of s.len s.words.items };

    ghost invariant = { λ s. s.len ≤ 64 * length s.words.items };
}

impl BitSet {
    /// The set below 0. Takes no memory.
    pub fn empty(alloc: Global) -> BitSet
        ensures { result ≡ [] }
    {
        BitSet {
            len: 0,
            words: Vec::new(alloc),
        }
    }

    /// None of the numbers below `len`. No other call takes memory.
    #[tactic(auto, using(crate::proofs::Setting::bits_of_none))]
    pub fn none(alloc: Global, len: u32) -> Result<BitSet, AllocError>
        ensures { IfOk result (λ s. s ≡ replicate len false) }
    {
        let words = vec![in alloc; 0; len.div_ceil(WORD) as usize]?;
        Ok(BitSet { len, words })
    }

    /// How many numbers can be in the set.
    #[tactic(auto, using(crate::proofs::Setting::length_pages))]
    pub fn len(&self) -> u32
        ensures { result ≡ length self.now }
    {
        self.len
    }

    /// Whether the set has a number.
    #[inline(always)]
    pub fn has(&self, index: u32) -> bool
        requires { index < length self.now }
        ensures { result ≡ slice_index_or self.now index false }
    {
        is_bit_set(&self.words, index)
    }

    /// Puts a number into the set, or takes it out of it.
    #[inline(always)]
    pub fn put(&mut self, index: u32, now: bool)
        requires { index < length self.old }
        ensures { self.new ≡ slice_set self.old index now }
    {
        if now {
            set_bit(&mut self.words, index);
        } else {
            clear_bit(&mut self.words, index);
        }
    }

    /// Takes a number out of the set, and returns whether it was in it.
    pub fn take(&mut self, index: u32) -> bool
        requires { index < length self.old }
        ensures result { result ≡ slice_index_or self.old index false }
        ensures set { self.new ≡ slice_set self.old index false }
    {
        // A word is written only where the number was in the set.
        let was_in = self.has(index);
        if was_in {
            self.put(index, false);
        }
        was_in
    }

    /// Puts `count` numbers from `start` on into the set, or takes them out of it. Returns how many of them
    /// were not so.
    pub fn put_run(&mut self, start: u32, count: u32, now: bool) -> u32
        requires { start + count ≤ length self.old }
        ensures set { self.new ≡ with_run start count now self.old }
        ensures count { result ≡ count_pages (length self.old)
            (λ p. in_run start count p && differs now (slice_index_or self.old p false)) }
        ensures few { count_by (λ has. has) self.new < 2 ^ 32 }
    {
        put_bits_of_run(&mut self.words, start, count, now)
    }

    /// Tells of the numbers from `start` on whether the set has each.
    pub fn get_each(&self, start: u32, bits: &mut [bool])
        requires { start + length bits.old ≤ length self.now }
        ensures { bits.new ≡ take (length bits.old) (drop start self.now) }
    {
        // For its clause alone: the numbers are fewer than 2^32.
        let _len = self.len();
        get_each_bit(&self.words, start, bits);
    }

    /// Puts the numbers from `start` on into the set, or takes them out of it, as these bits say, in order.
    pub fn put_each(&mut self, start: u32, bits: &[bool])
        requires { start + length bits.now ≤ length self.old }
        ensures { self.new ≡ with_each start bits.now self.old }
    {
        put_each_bit(&mut self.words, start, bits);
    }
}
