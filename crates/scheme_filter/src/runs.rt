ghost use Rattle.std.specs.Prelude.{◌≡◌, ◌<◌, ◌≤◌, [], ◌∷◌, ◌++◌, length, slice_get, Some};

use damon_types::MAX_FILTERS;
use std::marker::Model;

/// The most runs of passing pages in a row. Along the pages of a row each filter changes at most twice
/// whether it applies, so the answer changes at most `2 × MAX_FILTERS` times, and of two changes one
/// after the other only one can begin a run.
pub const MAX_RUNS: usize = MAX_FILTERS + 1;

/// Consecutive pages.
#[derive(Clone, Copy, Debug, PartialEq, Eq)]
pub struct Run {
    /// The number of the first page.
    pub start: u32,
    /// The number of pages.
    pub pages: u32,
}

/// A list of at most [`MAX_RUNS`] runs, which takes no memory.
#[derive(Debug, Drop)]
pub struct PassRuns {
    places: [Run; MAX_RUNS],
    len: u32,
}

impl Model for PassRuns {
    ghost use Rattle.std.specs.Prelude.{List, take};
    ghost use Rattle.scheme_filter.specs.declared.runs.Run.{Run};
    ghost use Rattle.scheme_filter.specs.Runs.{IsRunList};

    ghost Value = { List Run };

    ghost view = { λ r. take r.len r.places };

    ghost invariant = { λ r. IsRunList r.places r.len };
}

impl PassRuns {
    /// The empty list.
    pub fn new() -> PassRuns
        ensures { result ≡ [] }
    {
        PassRuns {
            places: [Run { start: 0, pages: 0 }; MAX_RUNS],
            len: 0,
        }
    }

    /// The number of runs.
    pub fn len(&self) -> u32
        ensures len { result ≡ length self.now }
        ensures most { result ≤ MAX_RUNS }
    {
        self.len
    }

    /// The run with this index, which is below [`PassRuns::len`].
    pub fn get(&self, index: u32) -> Run
        requires { index < length self.now }
        ensures { slice_get self.now index ≡ Some result }
    {
        self.places[index as usize]
    }

    /// The runs in order.
    pub fn as_slice(&self) -> &[Run]
        ensures items { result.now ≡ self.now }
        ensures most { length result.now ≤ MAX_RUNS }
    {
        &self.places[..self.len as usize]
    }

    pub(crate) fn clear(&mut self)
        ensures { self.new ≡ [] }
    {
        self.len = 0;
    }

    // Appends a run. There is room for it.
    pub(crate) fn push(&mut self, run: Run)
        requires { length self.old < MAX_RUNS }
        ensures { self.new ≡ self.old ++ run ∷ [] }
    {
        self.places[self.len as usize] = run;
        self.len += 1;
    }
}
