ghost use Rattle.std.specs.Prelude.{◌≡◌, ◌*◌, ◌≤◌, ◌<◌, [], ◌∷◌, ◌++◌, length, IfOk};

use crate::SLOTS;
use scheme_filter::MAX_RUNS;
use std::alloc::{AllocError, Global};
use std::marker::Model;

/// The most runs for each row for which there is room: each slot may apply its scheme to [`MAX_RUNS`]
/// runs of a row.
pub const RUNS_PER_ROW: usize = SLOTS * MAX_RUNS;

/// Consecutive pages of a row that a scheme was applied to.
#[derive(Clone, Copy, Debug, PartialEq, Eq)]
pub struct AppliedRun {
    /// The number of the scheme's slot.
    pub slot: u8,
    /// The target of the row.
    pub target: u32,
    /// The number of the first page.
    pub start: u32,
    /// The number of pages.
    pub pages: u32,
    /// The score of the row.
    pub score: u32,
}

/// What was chosen for a set slot.
#[derive(Clone, Copy, Debug, PartialEq, Eq)]
pub struct SlotChoice {
    /// The number of the slot.
    pub slot: u8,
    /// Whether the slot was active. If not, nothing was taken.
    pub active: bool,
    /// How many pages were left of the quota before the choice; `None` without a quota and for a slot
    /// that was not active.
    pub left: Option<u64>,
    /// The number of pages that were taken.
    pub taken: u64,
    /// The lowest score of a row of which a page was taken; `None` exactly where none was.
    pub lowest: Option<u32>,
}

/// What all slots of one run were applied to.
#[derive(Drop)]
pub struct Applied {
    runs: Vec<AppliedRun>,
    choices: Vec<SlotChoice>,
    cap: u32,
}

impl Model for Applied {
    ghost use Rattle.std.specs.Prelude.{vec_capacity};
    ghost use Rattle.scheme_engine.specs.Applied.{AppliedList, IsAppliedList};

    ghost Value = { AppliedList };

    ghost view = { λ a. record { runs = a.runs.items; choices = a.choices.items; cap = a.cap } };

    ghost invariant = { λ a. IsAppliedList
        (record { runs = a.runs.items; choices = a.choices.items; cap = a.cap })
        (vec_capacity a.runs) (vec_capacity a.choices) };
}

impl Applied {
    /// No runs and no choices, with room for what a run over `cap` rows may apply, or an error when out
    /// of memory: [`RUNS_PER_ROW`] runs for each row and [`SLOTS`] choices. No other call takes memory.
    pub fn new(alloc: Global, cap: u32) -> Result<Applied, AllocError>
        ensures { IfOk result (λ a. a ≡ record { runs = []; choices = []; cap = cap }) }
    {
        let runs = Vec::with_capacity(alloc, RUNS_PER_ROW * cap as usize)?;
        let choices = Vec::with_capacity(alloc, SLOTS)?;
        Ok(Applied { runs, choices, cap })
    }

    /// The most rows for which there is room.
    pub fn cap(&self) -> u32
        ensures { result ≡ self.now.cap }
    {
        self.cap
    }

    /// The runs that the schemes were applied to, in this order: by slot, and those of a slot by the
    /// priority of their rows, and those of a row by their pages. There are at most [`RUNS_PER_ROW`] for
    /// each row.
    pub fn runs(&self) -> &[AppliedRun]
        ensures runs { result.now ≡ self.now.runs }
        ensures most { length result.now ≤ RUNS_PER_ROW * self.now.cap }
    {
        &self.runs
    }

    /// The choices of the set slots, by slot.
    pub fn choices(&self) -> &[SlotChoice]
        ensures choices { result.now ≡ self.now.choices }
        ensures most { length result.now ≤ SLOTS }
    {
        &self.choices
    }

    // Empties both lists.
    pub(crate) fn clear(&mut self)
        ensures { self.new ≡ record self.old { runs = []; choices = [] } }
    {
        self.runs.clear();
        self.choices.clear();
    }

    // Appends a run, for which there is room.
    pub(crate) fn push_run(&mut self, run: AppliedRun)
        requires { length self.old.runs < RUNS_PER_ROW * self.old.cap }
        ensures { self.new ≡ record self.old { runs = self.old.runs ++ run ∷ [] } }
    {
        self.runs.push_reserved(run);
    }

    // Appends a choice, for which there is room.
    pub(crate) fn push_choice(&mut self, choice: SlotChoice)
        requires { length self.old.choices < SLOTS }
        ensures { self.new ≡ record self.old { choices = self.old.choices ++ choice ∷ [] } }
    {
        self.choices.push_reserved(choice);
    }
}
