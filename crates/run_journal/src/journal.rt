ghost use Rattle.std.specs.Prelude.{◌≡◌, ◌+◌, ◌-◌, ◌*◌, ◌≤◌, ◌<◌, ◌^◌, IfOk, Some, length, slice_get, sum};
ghost use Rattle.run_journal.specs.Results.{loads_in};

use crate::entry::{CallAnswer, Entry};
use crate::load_run::LoadRun;
use page_bits::BitSet;
use sampler::Picks;
use std::alloc::{AllocError, Global};
use std::marker::Model;

/// The entries of a live run, and the results of its loads. There is room for a fixed number of both: only
/// [`Journal::new`] takes memory.
#[derive(Drop)]
pub struct Journal {
    entries: Vec<Entry>,
    // The hits among all loads, by their index.
    loads: BitSet,
    // How many loads were made.
    loaded: u32,
    // How many of the loads each check has.
    checked: Vec<u32>,
    room: u32,
}

impl Model for Journal {
    ghost use Rattle.std.specs.Prelude.{length, take, vec_capacity};
    ghost use Rattle.run_journal.specs.Room.{IsJournal, JournalView};

    ghost Value = { JournalView };

    ghost view = { λ j. record {
      value = record { entries = j.entries.items; bits = take j.loaded j.loads };
      checked = j.checked.items;
      room = j.room;
      bit_room = length j.loads;
    } };

    ghost invariant = { λ j. IsJournal j.entries.items j.loads j.loaded j.checked.items j.room
        (vec_capacity j.entries) (vec_capacity j.checked) };
}

impl Journal {
    ghost use Rattle.run_journal.specs.declared.entry.Entry.TheVariants.{Prepare, Check, Void, Aggregate, Call};
    ghost use Rattle.run_journal.specs.Room.{empty_journal, with_entry, with_results};

    /// The journal without entries and without room.
    pub fn empty(alloc: Global) -> Journal
        ensures { result ≡ empty_journal 0 0 }
    {
        Journal {
            entries: Vec::new(alloc),
            loads: BitSet::empty(alloc),
            loaded: 0,
            checked: Vec::new(alloc),
            room: 0,
        }
    }

    /// A journal without entries, with room for this many passes of at most `cap` rows and for this many
    /// calls. A pass has at most three entries.
    pub fn new(alloc: Global, passes: u32, cap: u32, calls: u32) -> Result<Journal, AllocError>
        requires entries { 3 * passes + calls < 2 ^ 32 }
        requires bits { passes * cap < 2 ^ 32 }
        ensures { IfOk result (λ j. j ≡ empty_journal (3 * passes + calls) (passes * cap)) }
    {
        let room = 3 * passes + calls;
        let entries = Vec::with_capacity(alloc, room as usize)?;
        let loads = BitSet::none(alloc, passes * cap)?;
        let checked = Vec::with_capacity(alloc, room as usize)?;
        Ok(Journal {
            entries,
            loads,
            loaded: 0,
            checked,
            room,
        })
    }

    /// The number of entries.
    pub fn len(&self) -> u32
        ensures { result ≡ length self.now.value.entries }
    {
        self.entries.len() as u32
    }

    /// The entry with this index, which must be below [`Journal::len`].
    pub fn entry(&self, index: u32) -> Entry
        requires { index < length self.now.value.entries }
        ensures { slice_get self.now.value.entries index ≡ Some result }
    {
        self.entries[index as usize]
    }

    /// How many entries still fit.
    pub fn spare(&self) -> u32
        ensures { result ≡ self.now.room - length self.now.value.entries }
    {
        self.room - self.len()
    }

    /// How many results of loads still fit.
    pub fn spare_bits(&self) -> u32
        ensures { result ≡ self.now.bit_room - length self.now.value.bits }
    {
        self.loads.len() - self.loaded
    }

    /// Appends that a pass is prepared, before which `at` random words were drawn. An entry must still
    /// fit.
    pub fn prepare(&mut self, pass: u64, at: u64)
        requires { length self.old.value.entries < self.old.room }
        ensures { self.new ≡ with_entry (Prepare pass at) self.old }
    {
        self.entries.push_reserved(Entry::Prepare { pass, at });
    }

    /// Appends that a pass is checked, with the results of its picks. An entry and as many results must
    /// still fit.
    pub fn check(&mut self, pass: u64, picks: &Picks)
        requires room { length self.old.value.entries < self.old.room }
        requires bits { length self.old.value.bits + length picks.now.bits ≤ self.old.bit_room }
        ensures { self.new ≡ with_entry (Check pass) (with_results picks.now.bits self.old) }
    {
        self.check_hits(pass, picks.bits());
    }

    /// The same with these results, one for each pick.
    pub fn check_hits(&mut self, pass: u64, hits: &[bool])
        requires room { length self.old.value.entries < self.old.room }
        requires bits { length self.old.value.bits + length hits.now ≤ self.old.bit_room }
        ensures { self.new ≡ with_entry (Check pass) (with_results hits.now self.old) }
    {
        self.loads.put_each(self.loaded, hits);
        let count = hits.len() as u32;
        self.loaded += count;
        self.checked.push_reserved(count);
        self.entries.push_reserved(Entry::Check { pass });
    }

    /// Appends that a void pass ends. An entry must still fit.
    pub fn void(&mut self, pass: u64)
        requires { length self.old.value.entries < self.old.room }
        ensures { self.new ≡ with_entry (Void pass) self.old }
    {
        self.entries.push_reserved(Entry::Void { pass });
    }

    /// Appends an aggregation after `tick` passes, before which `at` random words were drawn. An entry must
    /// still fit.
    pub fn aggregate(&mut self, tick: u64, at: u64)
        requires { length self.old.value.entries < self.old.room }
        ensures { self.new ≡ with_entry (Aggregate tick at) self.old }
    {
        self.entries.push_reserved(Entry::Aggregate { tick, at });
    }

    /// Appends a call of a controller, and returns the index of its entry. An entry must still fit.
    pub fn call(&mut self, controller: u32, index: u32, answer: CallAnswer) -> u32
        requires { length self.old.value.entries < self.old.room }
        ensures entry { self.new ≡ with_entry (Call controller index answer) self.old }
        ensures place { result ≡ length self.old.value.entries }
    {
        let place = self.len();
        self.entries.push_reserved(Entry::Call {
            controller,
            index,
            answer,
        });
        place
    }

    /// The entries in order.
    pub fn entries(&self) -> &[Entry]
        ensures { result.now ≡ self.now.value.entries }
    {
        &self.entries
    }

    /// The results of all loads in order.
    pub fn loads(&self) -> LoadRun<'_>
        ensures bits { loads_in result ≡ self.now.value.bits }
        ensures all { sum self.now.checked ≡ length self.now.value.bits }
    {
        LoadRun::first(&self.loads, self.loaded)
    }

    /// How many results each check has.
    pub fn checked(&self) -> &[u32]
        ensures { result.now ≡ self.now.checked }
    {
        &self.checked
    }
}
