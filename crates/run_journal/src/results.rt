// The results of the checks of a journal, one check after another.
ghost use Rattle.std.specs.Prelude.{◌≡◌, ◌+◌, ◌≤◌, drop, length, sum, take};
ghost use Rattle.run_journal.specs.Results.{bits_left, loads_in, results_of, sizes_left};

use crate::entry::Entry;
use crate::load_run::LoadRun;
use page_bits::BitSet;

impl<'a> LoadRun<'a> {
    // The first `count` results of a set.
    pub(crate) fn first(set: &'a BitSet, count: u32) -> LoadRun<'a>
        requires { count ≤ length set.now }
        ensures { loads_in result ≡ take count set.now }
    {
        // For its clause alone: the loads are fewer than 2^32.
        let _loads = set.len();
        LoadRun {
            set,
            start: 0,
            count,
        }
    }

    /// The number of results.
    pub fn len(&self) -> u32
        ensures { result ≡ length (loads_in self.now) }
    {
        self.count
    }

    /// The results from one on, as many as there are places for.
    pub fn read(&self, from: u32, places: &mut [bool])
        requires { from + length places.old ≤ length (loads_in self.now) }
        ensures { places.new ≡ take (length places.old) (drop from (loads_in self.now)) }
    {
        self.set.get_each(self.start + from, places);
    }

    // The first `count` results, and those after them.
    fn split_at(self, count: u32) -> (LoadRun<'a>, LoadRun<'a>)
        requires { count ≤ length (loads_in self) }
        ensures first { loads_in result.0 ≡ take count (loads_in self.entry) }
        ensures rest { loads_in result.1 ≡ drop count (loads_in self.entry) }
    {
        let first = LoadRun {
            set: self.set,
            start: self.start,
            count,
        };
        let rest = LoadRun {
            set: self.set,
            start: self.start + count,
            count: self.count - count,
        };
        (first, rest)
    }
}

/// The results of the checks that are still to come: how many each has, and all of them.
#[derive(Clone, Copy)]
pub struct Results<'a> {
    pub sizes: &'a [u32],
    pub loads: LoadRun<'a>,
}

impl<'a> Results<'a> {
    /// The results of an entry (only a check has some), and those of the checks after it.
    pub fn split(self, entry: &Entry) -> (LoadRun<'a>, Results<'a>)
        requires { sum self.sizes.now ≡ length (loads_in self.loads) }
        ensures results { loads_in result.0
            ≡ results_of entry.now self.entry.sizes.now (loads_in self.entry.loads) }
        ensures sizes { result.1.sizes.now ≡ sizes_left entry.now self.entry.sizes.now }
        ensures bits { loads_in result.1.loads
            ≡ bits_left entry.now self.entry.sizes.now (loads_in self.entry.loads) }
        ensures all { sum result.1.sizes.now ≡ length (loads_in result.1.loads) }
    {
        match (entry, self.sizes) {
            (Entry::Check { .. }, [size, sizes @ ..]) => {
                let (results, loads) = self.loads.split_at(*size);
                (results, Results { sizes, loads })
            }
            _ => (self.loads.split_at(0).0, self),
        }
    }
}
