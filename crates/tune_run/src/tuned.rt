// Byte quotas that follow goals along the run of a script.
ghost use Rattle.std.specs.Option.{option_map, option_map_or};
ghost use Rattle.std.specs.Prelude.{◌≡◌, [], ◌≤◌, ◌↔◌, IfSome, None, true};
ghost use Rattle.damon_types.specs.declared.scheme.TheConstants.{MAX_SLOT};
ghost use Rattle.live_commit.specs.Commit.{commit_value};
ghost use Rattle.live_commit.specs.SetupView.{value_of};
ghost use Rattle.damon_core.specs.State.{opening};
ghost use Rattle.quota_goal.specs.declared.moment.Moment.TheVariants.{Metric};
ghost use Rattle.quota_goal.specs.Tuned.{given};
ghost use Rattle.tune_run.specs.Callbacks.{change_alone, tune_callbacks};
ghost use Rattle.tune_run.specs.Kept.{IsNextChange, changes_from};

use crate::lines::{SLOTS, append_tuned};
use crate::named::Named;
use damon_core::{Changed, Monitor};
use damon_types::{MAX_SLOT, SlotChange};
use live_commit::{Commit, CommitFault, Setup};
use quota_goal::{Goals, Moment, Tuner, seen_in};
use script_run::Callbacks;
use std::alloc::{AllocError, Global};
use std::marker::PhantomData;

/// Byte quotas that follow the named goals. After each aggregation and each accepted commit with a metric
/// they put in the changes of the slots whose bytes follow from the score, and at the end they write the
/// bytes of the slots with goals.
#[derive(Drop)]
pub struct TunedQuotas<N: Named> {
    tuner: Tuner,
    // What the slots are scored by, while some are left to score.
    moment: Option<Moment>,
    // The next slot to score.
    next: u8,
    of: PhantomData<N>,
}

impl<N: Named> TunedQuotas<N> {
    /// The quotas of a setup before the first event, and the goals that they follow, which are the named
    /// ones. Takes no memory.
    pub fn new(goals: Goals, setup: &Setup) -> TunedQuotas<N>
        requires goals { goals ≡ N.goals }
        ensures opening { ⟦<TunedQuotas<N> as Callbacks>⟧.stands_for result
            ((tune_callbacks N.goals).first (opening (value_of setup.now)))
            (opening (value_of setup.now)) }
    {
        TunedQuotas {
            tuner: Tuner::new(goals, setup),
            moment: None,
            next: 0,
            of: PhantomData,
        }
    }

    // Takes a commit of the script that was accepted, and its metric as what the slots are scored by.
    fn follow(&mut self, commit: &Commit)
        requires { IfSome commit.now.slot (λ c. c.slot ≤ MAX_SLOT) }
        ensures tuner { self.new.tuner
            ≡ option_map_or (λ c. given c self.old.tuner) commit.now.slot self.old.tuner }
        ensures moment { self.new.moment ≡ option_map (λ value. Metric value) commit.now.metric }
        ensures next { self.new.next ≡ 0 }
    {
        self.tuner.committed(commit);
        self.moment = commit.metric.map(|value| Moment::Metric { value });
        self.next = 0;
    }
}

impl<N: Named> Callbacks for TunedQuotas<N> {
    ghost use Rattle.tune_run.specs.Callbacks.{tune_callbacks};
    ghost use Rattle.tune_run.specs.Kept.{StandsTuned, kept_alone, left_at, put_alone};
    ghost use Rattle.std.specs.Prelude.{refl};

    ghost callbacks = { tune_callbacks N.goals };

    ghost stands_for = { λ t tops s. StandsTuned N.goals t.tuner t.moment tops s };

    ghost pending = { λ t. left_at t.tuner t.moment t.next };

    ghost in_place = { record {
      keeps = kept_alone;
      puts = put_alone N.goals;
      writes = λ tops s e quiet. refl;
    } };

    fn after_touches(&mut self, _page: u32, _count: u32) {}

    fn after_steps(&mut self) {
        self.moment = None;
    }

    fn after_aggregation(&mut self, monitor: &Monitor) {
        damon_core::reached_states_are_bound();
        let seen = seen_in(&monitor.report().rows);
        self.moment = Some(Moment::Seen { seen });
        self.next = 0;
    }

    fn after_commit(&mut self, commit: &Commit, answer: &Result<Changed, CommitFault>) {
        self.moment = None;
        if answer.is_ok() && is_within(commit) {
            self.follow(commit);
        }
    }

    fn next_commit(&mut self) -> Option<Commit> {
        let moment = self.moment?;
        let change = next_change(&mut self.tuner, self.next, &moment)?;
        self.next = change.slot + 1;
        Some(change_alone(change))
    }

    fn append_lines(&self, _: Global, _: &mut Vec<u8>, _: &Monitor) -> Result<(), AllocError> {
        Ok(())
    }

    fn append_end(&self, _: Global, out: &mut Vec<u8>, _: &Monitor) -> Result<(), AllocError> {
        append_tuned(out, &self.tuner)
    }
}

// The next change at a moment, of the slots from `next` on.
fn next_change(tuner: &mut Tuner, next: u8, moment: &Moment) -> Option<SlotChange>
    ensures next { IfSome result (λ c. IsNextChange tuner.old tuner.new next moment.now c) }
    ensures none { result ≡ None → changes_from tuner.old next moment.now ≡ [] }
    ensures same { result ≡ None → tuner.new ≡ tuner.old }
{
    'slots: for slot in next..SLOTS {
        if let Some(change) = tuner.score(slot, moment) {
            return Some(change);
        }
    }
    None
}

// Whether the slot that a commit changes, if it does, is one of the slots. That of an accepted one always is.
fn is_within(commit: &Commit) -> bool
    ensures { result ≡ true ↔ IfSome commit.now.slot (λ c. c.slot ≤ MAX_SLOT) }
{
    match &commit.slot {
        Some(change) => change.slot <= MAX_SLOT,
        None => true,
    }
}

// A commit of a slot change alone.
fn change_alone(change: SlotChange) -> Commit
    ensures { commit_value result ≡ change_alone change }
{
    Commit {
        attrs: None,
        ranges: None,
        slot: Some(change),
        metric: None,
        cost: None,
    }
}
