ghost use Rattle.std.specs.Prelude.{◌≡◌, ℕ, ◌+◌, ◌^◌, ◌≤◌, ◌<◌, List, length, IfOk};
ghost use Rattle.std.specs.List.{AllByRecursion};
ghost use Rattle.damon_types.specs.declared.scheme.TheConstants.{MAX_SLOT};
ghost use Rattle.damon_types.specs.Space.{pages_of};
ghost use Rattle.live_commit.specs.Setup.{SetupValue};
ghost use Rattle.damon_core.specs.After.{after};
ghost use Rattle.damon_core.specs.Event.{aggregate};
ghost use Rattle.damon_core.specs.Note.{Note};
ghost use Rattle.damon_core.specs.Slots.{slots_of};
ghost use Rattle.damon_core.specs.State.{State, opening};
ghost use Rattle.damon_world.specs.Touches.{touches};
ghost use Rattle.reclaim_module.specs.Pages.{out_count};
ghost use Rattle.reclaim_module.specs.Stands.{action_in, after_applied, after_events};
ghost use Rattle.script_run.specs.Calls.{IsAggregated};
ghost use Rattle.reclaim_run.specs.Reclaimed.{thousandths};
ghost use Rattle.reclaim_run.specs.Stands.{Models};

use crate::line::append_line;
use damon_core::{Changed, Monitor};
use damon_types::{Action, Space};
use live_commit::{Commit, CommitFault};
use reclaim_module::Reclaim;
use scheme_engine::{AppliedRun, Engine, SlotView};
use script_run::Callbacks;
use std::alloc::{AllocError, Global};
use std::marker::Model;

/// Follows which pages of a run are resident: a `pageout` scheme takes out the pages that it is applied to,
/// touches and `willneed` schemes bring them back. Directly after each aggregation it appends a line of what
/// is resident, and puts in a commit of the share of the pages that are out, in thousandths, as the metric.
/// The line stands once more at the end.
#[derive(Drop)]
pub struct Reclaimer {
    model: Reclaim,
    // The metric of a commit that is still to be put in.
    share: Option<u32>,
}

impl Model for Reclaimer {
    ghost use Rattle.reclaim_run.specs.Stands.{ReclaimerView};

    ghost Value = { ReclaimerView };

    ghost view = { λ r. record { model = r.model; share = r.share } };
}

impl Reclaimer {
    /// All pages are resident, as they are at the opening of each setup whose space has `pages` pages. Takes
    /// memory; no other call does, except for the text.
    pub fn new(alloc: Global, pages: u32) -> Result<Reclaimer, AllocError>
        ensures opening { IfOk result (λ r. (v : SetupValue) → pages_of v.space ≡ pages
            → Models r.model (opening v)) }
    {
        let model = Reclaim::new(alloc, pages)?;
        Ok(Reclaimer { model, share: None })
    }
}

impl Callbacks for Reclaimer {
    ghost use Rattle.reclaim_run.specs.Stands.{Models, put_of};
    ghost use Rattle.reclaim_run.specs.Reclaimed.{reclaim_callbacks};
    ghost use Rattle.reclaim_run.specs.InPlace.{reclaim_in_place};

    ghost callbacks = { reclaim_callbacks };

    ghost stands_for = { λ r memory s. Models r.model s };

    ghost pending = { λ r. put_of r.share };

    ghost in_place = { reclaim_in_place };

    #[inline]
    fn after_touches(&mut self, page: u32, count: u32) {
        touch_pages(&mut self.model, page, count);
    }

    #[inline]
    fn after_steps(&mut self) {}

    fn after_aggregation(&mut self, monitor: &Monitor) {
        follow_aggregation(&mut self.model, monitor);
        self.share = Some(share_out(&self.model, monitor.space()));
    }

    fn after_commit(&mut self, _commit: &Commit, _answer: &Result<Changed, CommitFault>) {
        self.share = None;
    }

    #[inline]
    fn next_commit(&mut self) -> Option<Commit> {
        let share = self.share.take()?;
        Some(Commit {
            attrs: None,
            ranges: None,
            slot: None,
            metric: Some(share),
            cost: None,
        })
    }

    fn append_lines(
        &self,
        _alloc: Global,
        out: &mut Vec<u8>,
        monitor: &Monitor,
    ) -> Result<(), AllocError> {
        // For its clauses alone: the figures by what has happened.
        reclaim_module::model_counts_pages();
        append_line(out, monitor.ticks(), &self.model)
    }

    fn append_end(
        &self,
        _alloc: Global,
        out: &mut Vec<u8>,
        monitor: &Monitor,
    ) -> Result<(), AllocError> {
        // For its clauses alone: the figures by what has happened.
        reclaim_module::model_counts_pages();
        append_line(out, monitor.ticks(), &self.model)
    }
}

// Touches the pages from `page` on, `count` of them, one after another.
#[inline]
fn touch_pages(model: &mut Reclaim, page: u32, count: u32)
    requires { (i : ℕ) → i < count → page + i < length model.old.out }
    ensures { (s : State) → model.new ≡ after_events (touches page count) s model.old }
{
    if count > 0 {
        model.touch_run(page, count);
    }
}

// Follows the aggregation after which the monitor stands.
fn follow_aggregation(model: &mut Reclaim, monitor: &Monitor)
    requires { (memory : List ℕ) × (s : State) × (words : List ℕ)
        × IsAggregated (λ memory t. Models model.old t) monitor.now memory s words }
    ensures { (memory : List ℕ) (s : State) (words : List ℕ)
        → IsAggregated (λ memory t. Models model.old t) monitor.now memory s words
        → Models model.new (after s (aggregate words)) }
{
    // For its clauses alone: the space is within its limits.
    let _targets = monitor.space().targets();
    let runs = monitor.report().applied.runs();
    apply_runs(model, runs, monitor.engine());
}

// Applies runs in order, each with the action of its slot.
#[tactic(auto, using(crate::proofs::Applying::applies_runs))]
fn apply_runs(model: &mut Reclaim, runs: &[AppliedRun], engine: &Engine)
    requires slots { AllByRecursion (λ run. run.slot ≤ MAX_SLOT) runs.now }
    requires within { AllByRecursion
        (λ run. run.start + run.pages ≤ length model.old.out) runs.now }
    requires few { (notes : List Note) × (engine.now.slots ≡ slots_of notes)
        × ((after_applied notes runs.now model.old).counts.pageouts < 2 ^ 64) }
    ensures { (notes : List Note) → engine.now.slots ≡ slots_of notes
        → model.new ≡ after_applied notes runs.now model.old }
{
    for run in runs {
        model.apply(run.start, run.pages, action_of(engine, run.slot));
    }
}

// The action of the scheme of a slot; where it holds none, one that moves no page.
fn action_of(engine: &Engine, slot: u8) -> Action
    requires { slot ≤ MAX_SLOT }
    ensures { (notes : List Note) → engine.now.slots ≡ slots_of notes
        → result ≡ action_in notes slot }
{
    match engine.slot(slot) {
        Some(SlotView { action, .. }) => action,
        None => Action::Stat,
    }
}

// The share of the pages of a space that are out, in thousandths.
fn share_out(model: &Reclaim, space: &Space) -> u32
    requires { length model.now.out ≡ pages_of space.now }
    ensures { result ≡ thousandths (out_count model.now.out) (pages_of space.now) }
{
    // For its clauses alone: the space has a page.
    let _targets = space.targets();
    // For its clause alone: no more pages are out than there are.
    let _resident = model.resident();
    (1000 * u64::from(model.out()) / u64::from(space.pages())) as u32
}
