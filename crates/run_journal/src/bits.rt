// Results of checks that are kept as bits.
ghost use Rattle.std.specs.Prelude.{◌≡◌, ◌+◌, ◌≤◌, ◌<◌, [], ◌∷◌, ◌++◌, Bool, List, length, map, slice_index_or, OnOk};
ghost use Rattle.live_commit.specs.declared.phase.Phase.TheVariants.{Armed};
ghost use Rattle.damon_core.specs.Event.{load};
ghost use Rattle.damon_core.specs.Makes.{Makes};
ghost use Rattle.damon_core.specs.Stands.{Stands};
ghost use Rattle.damon_core.specs.State.{row_count};
ghost use Rattle.run_journal.specs.Bits.{place_of, run_of};
ghost use Rattle.run_journal.specs.Phases.{phase_loaded};

use damon_core::Monitor;
use std::alloc::{AllocError, Global};
use std::marker::Model;

// How many bits a word has.
const WORD: u32 = 64;

/// The results of one check.
pub trait CheckResults {
    // The results.
    ghost results: { Self → List Bool };

    // Hands the results of all picks to a monitor.
    fn load_into(&self, monitor: &mut Monitor)
        requires armed { monitor.old.core.phase ≡ Armed }
        requires each { length (results self.now) ≡ row_count monitor.old.core }
        ensures core { monitor.new.core
            ≡ record monitor.old.core { phase = phase_loaded (row_count monitor.old.core) } }
        ensures events { Makes Stands monitor.old monitor.new (map (λ bit. load bit) (results self.now)) };
}

impl CheckResults for Vec<bool> {
    ghost results = { λ v. v.items };

    fn load_into(&self, monitor: &mut Monitor) {
        load_at_once(monitor, self);
    }
}

/// A list of results, each of which takes one bit.
#[derive(Drop)]
pub struct BitList {
    words: Vec<u64>,
    // How many bits of the last word are free; these are 0.
    free: u32,
}

impl Model for BitList {
    ghost use Rattle.std.specs.Prelude.{Bool, List};
    ghost use Rattle.run_journal.specs.Bits.{ArePacked, packed_bits};

    ghost Value = { List Bool };

    ghost view = { λ b. packed_bits b.words.items b.free };

    ghost invariant = { λ b. ArePacked b.words.items b.free };
}

impl BitList {
    /// No results. Takes no memory.
    pub fn new(alloc: Global) -> BitList
        ensures { result ≡ [] }
    {
        BitList {
            words: Vec::new(alloc),
            free: 0,
        }
    }

    /// Appends results. Takes memory.
    pub fn extend(&mut self, bits: &[bool]) -> Result<(), AllocError>
        ensures { OnOk result (self.new ≡ self.old ++ bits.now) }
    {
        for k in 0..bits.len() {
            self.push(bits[k])?;
        }
        Ok(())
    }

    // Appends a result. Takes memory for each new word.
    fn push(&mut self, bit: bool) -> Result<(), AllocError>
        ensures { OnOk result (self.new ≡ self.old ++ bit ∷ []) }
    {
        if self.free == 0 {
            self.words.push(0)?;
            self.free = WORD;
        }
        if bit {
            let last = self.words.len() - 1;
            self.words[last] |= 1 << (WORD - self.free);
        }
        self.free -= 1;
        Ok(())
    }

    // The result this many places after a place.
    fn get(&self, place: BitPlace, count: u32) -> bool
        requires { place_of place + count < length self.now }
        ensures { (none : Bool) → result ≡ slice_index_or self.now (place_of place + count) none }
    {
        let BitPlace { word, bit } = self.place_after(place, count);
        self.words[word] >> bit & 1 == 1
    }

    /// The place this many results after another one.
    pub fn place_after(&self, place: BitPlace, count: u32) -> BitPlace
        requires { place_of place + count ≤ length self.now }
        ensures place { place_of result ≡ place_of place + count }
        ensures bit { result.bit < 64 }
    {
        // For its clause alone: the words are few enough to be counted.
        let _words = self.words.len();
        let bit = u64::from(place.bit) + u64::from(count);
        BitPlace {
            word: place.word + (bit / u64::from(WORD)) as usize,
            bit: (bit % u64::from(WORD)) as u32,
        }
    }
}

/// The place of a result in such a list.
#[derive(Clone, Copy)]
pub struct BitPlace {
    pub word: usize,
    pub bit: u32,
}

/// This many results of such a list, from a place on.
#[derive(Clone, Copy)]
pub struct BitRun<'a> {
    pub list: &'a BitList,
    pub start: BitPlace,
    pub count: u32,
}

impl<'a> BitRun<'a> {
    // The result with this index.
    fn get(&self, index: u32) -> bool
        requires { index < length (run_of self.now.list.now self.now.start self.now.count) }
        ensures { (none : Bool) → result
            ≡ slice_index_or (run_of self.now.list.now self.now.start self.now.count) index none }
    {
        self.list.get(self.start, index)
    }
}

impl<'a> CheckResults for BitRun<'a> {
    ghost results = { λ r. run_of r.list.now r.start r.count };

    fn load_into(&self, monitor: &mut Monitor) {
        load_each(monitor, self);
    }
}

// Hands the results of all picks to a monitor at once.
fn load_at_once(monitor: &mut Monitor, bits: &[bool])
    requires armed { monitor.old.core.phase ≡ Armed }
    requires each { length bits.now ≡ row_count monitor.old.core }
    ensures core { monitor.new.core
        ≡ record monitor.old.core { phase = phase_loaded (row_count monitor.old.core) } }
    ensures events { Makes Stands monitor.old monitor.new (map (λ bit. load bit) bits.now) }
{
    // For its clause alone: there is a row.
    let _rows = monitor.rows();
    monitor.loaded_all(bits);
}

// Hands the results of all picks to a monitor, one after another.
fn load_each(monitor: &mut Monitor, bits: &BitRun<'_>)
    requires armed { monitor.old.core.phase ≡ Armed }
    requires each { length (run_of bits.now.list.now bits.now.start bits.now.count)
        ≡ row_count monitor.old.core }
    ensures core { monitor.new.core
        ≡ record monitor.old.core { phase = phase_loaded (row_count monitor.old.core) } }
    ensures events { Makes Stands monitor.old monitor.new
        (map (λ bit. load bit) (run_of bits.now.list.now bits.now.start bits.now.count)) }
{
    for k in 0..monitor.rows().len() {
        monitor.loaded(bits.get(k));
    }
}
