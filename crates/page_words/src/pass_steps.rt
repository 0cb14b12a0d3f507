// The steps of a pass: its clears and its loads.
ghost use Rattle.std.specs.Prelude.{◌≡◌, ℕ, ◌≤◌, ◌<◌, ◌^◌, ◌++◌, length, slice_index};
ghost use Rattle.std.specs.List.{AllByRecursion};
ghost use Rattle.page_words.specs.Clears.{last_clear_of, last_clear_pass};
ghost use Rattle.page_words.specs.PassSteps.{clear_steps, load_steps};

use crate::{MonitorSeat, PageWords};

impl PageWords {
    /// Clears the pages of a pass, in order. The pass is 1 to 2^62 and at least that of each earlier clear.
    pub fn clear_each(&self, seat: &mut MonitorSeat, pages: &[u32], pass: u64)
        requires table { seat.old.table ≡ self.now }
        requires within { (k : ℕ) → k < length pages.now → slice_index pages.now k < self.now.words }
        requires some { 1 ≤ pass }
        requires most { pass ≤ 2 ^ 62 }
        requires later { last_clear_pass seat.old.entries ≤ pass }
        ensures seat { seat.new
            ≡ record seat.old { entries = seat.old.entries ++ clear_steps pass pages.now } }
        ensures last { last_clear_pass seat.new.entries ≤ pass }
    {
        self.peek_each(pages);
        for k in 0..pages.len() {
            let _old = self.clear(seat, pages[k], pass);
        }
    }

    /// Loads the pages of a pass, in order, with a place for the result of each: the lowest bit of its word.
    /// Where all pages were cleared last in one pass, the other bits of each word name that pass.
    pub fn load_each(&self, seat: &mut MonitorSeat, pages: &[u32], hits: &mut [bool])
        requires table { seat.old.table ≡ self.now }
        requires within { (k : ℕ) → k < length pages.now → slice_index pages.now k < self.now.words }
        requires each { length hits.old ≡ length pages.now }
        ensures each { length hits.new ≡ length hits.old }
        ensures seat { (pass : ℕ)
            → AllByRecursion (λ p. last_clear_of p seat.old.entries ≡ pass) pages.now
            → seat.new ≡ record seat.old {
              entries = seat.old.entries ++ load_steps pass pages.now hits.new;
            } }
        ensures last { last_clear_pass seat.new.entries ≡ last_clear_pass seat.old.entries }
    {
        self.peek_each(pages);
        for k in 0..pages.len() {
            let word = self.load(seat, pages[k]);
            hits[k] = word % 2 == 1;
        }
    }

    // Reads the words of all pages, from the last one to the first, so that neither a clear nor a load has to
    // wait for its word. The pages of rows in order rise, and the last ones were used last: these are found
    // fastest, and the first ones are used next.
    fn peek_each(&self, pages: &[u32])
        requires within { (k : ℕ) → k < length pages.now → slice_index pages.now k < self.now.words }
    {
        for k in (0..pages.len()).rev() {
            self.peek(pages[k]);
        }
    }
}
