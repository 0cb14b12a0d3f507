// The shared table of page words.
ghost use Rattle.std.specs.Prelude.{◌≡◌, ℕ, ◌+◌, ◌-◌, ◌^◌, ◌<◌, ◌≤◌, ◌++◌, ◌∷◌, [], IfOk, length};
ghost use Rattle.page_words.specs.declared.view.Entry.TheVariants.{Clear, Load, Gathered};
ghost use Rattle.page_words.specs.declared.view.View.TheVariants.{Toucher};
ghost use Rattle.page_words.specs.Clears.{pass_of, last_clear_of, last_clear_pass};
ghost use Rattle.page_words.specs.Rule.{Agree};
ghost use Rattle.page_words.specs.Seats.{IsMonitorSeat};
ghost use Rattle.page_words.specs.Steps.{after_split, ShowsTold};
ghost use Rattle.page_words.specs.Views.{touch, Told, GatheredTagsRise, TagsRise};

use crate::seats::{MonitorSeat, TouchSeat};
use crate::settled::Settled;
use crate::steps;
use crate::steps::{RawSeat, Words};
use atomic_table::Table;
use std::alloc::{AllocError, Global};
use std::marker::{Brand, Model};

/// The words of the pages, shared by threads. In contracts it is the identity of a table, whose
/// `words` is the number of pages. Each call takes a seat of this table and a page below that number.
///
/// Between any two atomic steps the words and all seats obey `WordRule` (`specs/Rule.antt`).
#[derive(Drop)]
pub struct PageWords {
    table: Words,
}

impl Model for PageWords {
    ghost use Rattle.std.specs.Prelude.{◌≡◌, ◌<◌};
    ghost use Rattle.atomic_table.specs.Seated.{TableId, table_id_coded};

    ghost Value = { TableId };

    ghost coded = { table_id_coded };

    ghost view = { λ w. w.table.shared.table_id };

    ghost invariant = { λ w. (w.table.shared.key ≡ w.table.shared.table_id.words)
        × (w.table.shared.table_id.slots ≡ 0) × (0 < w.table.shared.table_id.words) };
}

/// A table of words with the seat of its monitor.
#[derive(Drop)]
pub struct WordsAndSeat {
    pub words: PageWords,
    pub seat: MonitorSeat,
}

impl PageWords {
    /// A table of `pages` words (at least 1), all 0, and the seat of its monitor, or an error when out
    /// of memory. No other call takes memory.
    pub fn new(alloc: Global, pages: u32) -> Result<WordsAndSeat, AllocError>
        requires { 1 ≤ pages }
        ensures pages { IfOk result (λ r. r.words.words ≡ pages) }
        ensures seat { IfOk result (λ r. r.seat ≡ record { table = r.words; entries = []; out = 0 }) }
    {
        let zeros = vec![in alloc; 0u64; pages as usize]?;
        let (table, seat) = Table::of_words(alloc, zeros.as_slice(), &pages)?;
        Ok(WordsAndSeat {
            words: PageWords { table },
            seat: MonitorSeat {
                seat,
                out: 0,
                last: 0,
            },
        })
    }

    /// Splits off a touch seat with this worker's number and no touches. Fewer than 4,294,967,295
    /// touch seats are out before the call.
    pub fn split(&self, seat: &mut MonitorSeat, worker: u32) -> TouchSeat
        requires table { seat.old.table ≡ self.now }
        requires room { seat.old.out < 2 ^ 32 - 1 }
        ensures seat { seat.new ≡ record seat.old { out = seat.old.out + 1 } }
        ensures touch { result ≡ record { table = seat.old.table; worker = worker; touches = [] } }
    {
        let new = self.split_off(&mut seat.seat, seat.out, worker);
        seat.out += 1;
        TouchSeat { seat: new }
    }

    // The same on the seats of the table.
    fn split_off(&self, seat: &mut RawSeat, out: u32, worker: u32) -> RawSeat
        requires table { seat.old.table_id ≡ self.now }
        requires kind { IsMonitorSeat seat.old.me out }
        ensures table { seat.new.table_id ≡ seat.old.table_id }
        ensures me { seat.new.me ≡ (after_split seat.old.me.0, seat.old.me.1) }
        ensures new_table { result.table_id ≡ seat.old.table_id }
        ensures new_me { result.me ≡ (Toucher worker [], []) }
    {
        steps::split::<Brand>(&self.table, seat, worker)
    }

    /// Touches a page, and returns the tag of the touch: the pass that last cleared the page, or 0. The
    /// tags of one page never fall along a seat's touches.
    pub fn touch(&self, seat: &mut TouchSeat, page: u32) -> u64
        requires table { seat.old.table ≡ self.now }
        requires page { page < self.now.words }
        ensures seat { seat.new ≡ record seat.old {
          touches = seat.old.touches ++ touch page result ∷ [];
        } }
        ensures tags { TagsRise seat.new.touches }
    {
        steps::touch(&self.table, &mut seat.seat, page)
    }

    // Reads the word of a page and tells nothing of it, which is no step of a seat.
    pub(crate) fn peek(&self, page: u32)
        requires { page < self.now.words }
    {
        let _word = self.table.shared.peek(page as usize);
    }

    /// Clears a page in a pass, and returns its old word, which tells the same as a word returned by
    /// [`PageWords::load`]. The pass is 1 to 2^62 and at least that of each earlier clear.
    pub fn clear(&self, seat: &mut MonitorSeat, page: u32, pass: u64) -> u64
        requires table { seat.old.table ≡ self.now }
        requires page { page < self.now.words }
        requires some { 1 ≤ pass }
        requires most { pass ≤ 2 ^ 62 }
        requires later { last_clear_pass seat.old.entries ≤ pass }
        ensures entries { seat.new ≡ record seat.old {
          entries = seat.old.entries ++ Clear page pass ∷ [];
        } }
        ensures last { last_clear_pass seat.new.entries ≡ pass }
        ensures pass { pass_of result ≡ last_clear_of page seat.old.entries }
        ensures told { ShowsTold seat.old.entries page result }
    {
        let found = steps::clear(&self.table, &mut seat.seat, page, pass);
        seat.last = pass;
        found
    }

    /// Loads the word of a page. It names the pass that last cleared the page. It is odd where a touch
    /// of the page with that tag was gathered before and the page was cleared in that pass only once.
    pub fn load(&self, seat: &mut MonitorSeat, page: u32) -> u64
        requires table { seat.old.table ≡ self.now }
        requires page { page < self.now.words }
        ensures entries { seat.new ≡ record seat.old {
          entries = seat.old.entries ++ Load page result ∷ [];
        } }
        ensures last { last_clear_pass seat.new.entries ≡ last_clear_pass seat.old.entries }
        ensures pass { pass_of result ≡ last_clear_of page seat.old.entries }
        ensures told { ShowsTold seat.old.entries page result }
    {
        steps::load(&self.table, &mut seat.seat, page)
    }

    /// Gathers a touch seat: its touches become an entry of the monitor's seat.
    pub fn gather(&self, seat: &mut MonitorSeat, touch: TouchSeat)
        requires table { seat.old.table ≡ self.now }
        requires touch { touch.table ≡ self.now }
        ensures seat { seat.new ≡ record seat.old {
          entries = seat.old.entries ++ Gathered touch.worker touch.touches ∷ [];
          out = seat.old.out - 1;
        } }
        ensures last { last_clear_pass seat.new.entries ≡ last_clear_pass seat.old.entries }
    {
        let TouchSeat { seat: other } = touch;
        steps::gather(&self.table, &mut seat.seat, other);
        // At least this seat was out, but the rule that says so is known only inside a step.
        seat.out = seat.out.saturating_sub(1);
    }

    /// Ends the sharing and returns the words. No touch seat is out, so every touch was gathered. The
    /// words, the monitor's entries and the gathered touches agree.
    pub fn settle(self, seat: MonitorSeat) -> Settled
        requires table { seat.table ≡ self }
        requires out { seat.out ≡ 0 }
        ensures count { length result ≡ self.words }
        ensures agree { Agree result seat.entries (Told seat.entries) }
        ensures tags { GatheredTagsRise seat.entries }
    {
        let PageWords { table } = self;
        let MonitorSeat {
            seat,
            out: _,
            last: _,
        } = seat;
        Settled {
            closed: table.close_with(seat),
        }
    }
}
