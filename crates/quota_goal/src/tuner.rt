ghost use Rattle.std.specs.Prelude.{◌≡◌, ◌≤◌, IfSome};
ghost use Rattle.std.specs.List.{AllByRecursion};
ghost use Rattle.std.specs.Option.{option_map_or};
ghost use Rattle.damon_types.specs.declared.scheme.TheConstants.{MAX_SLOT};
ghost use Rattle.quota_goal.specs.Goals.{IsGoal};
ghost use Rattle.quota_goal.specs.Kept.{less};
ghost use Rattle.quota_goal.specs.Tuned.{after_change, all_given, bytes_at, change_at, given, least_of, next_of, nexts, top_after, tunable_bytes, tuned_at, untuned, with_bytes};

use crate::{Goal, Goals, Moment, next_bytes};
use damon_types::{MAX_SLOT, Quota, Scheme, SlotChange};
use live_commit::{Commit, Setup};
use std::marker::Model;

/// The number of slots.
const SLOTS: usize = MAX_SLOT as usize + 1;

/// Slots whose quotas follow goals. It knows the scheme in force of each slot, and its top: the bytes that
/// the setup or a commit of the script gave it last. A slot is tunable where it is set and its scheme has a
/// quota and no marks. No call takes memory.
#[derive(Debug, Drop)]
pub struct Tuner {
    goals: Goals,
    schemes: [Option<Scheme>; SLOTS],
    tops: [u64; SLOTS],
}

impl Model for Tuner {
    ghost use Rattle.quota_goal.specs.Tuned.{TunerView};
    ghost use Rattle.quota_goal.specs.Kept.{AreSlots};

    ghost Value = { TunerView };

    ghost view = { λ t. record { goals = t.goals; schemes = t.schemes; tops = t.tops } };

    ghost invariant = { λ t. AreSlots t.schemes t.tops };
}

impl Tuner {
    /// The slots of a setup, and goals that they follow.
    pub fn new(goals: Goals, setup: &Setup) -> Tuner
        ensures { result ≡ all_given setup.now.slots.list (untuned goals) }
    {
        let mut tuner = Tuner {
            goals,
            schemes: [None; SLOTS],
            tops: [0; SLOTS],
        };
        for change in setup.slots.as_slice() {
            tuner.give(change);
        }
        tuner
    }

    /// Takes a commit of the script that was accepted. So the slot that it changes, if it does, is at most
    /// [`MAX_SLOT`].
    pub fn committed(&mut self, commit: &Commit)
        requires { IfSome commit.now.slot (λ c. c.slot ≤ MAX_SLOT) }
        ensures { self.new ≡ option_map_or (λ c. given c self.old) commit.now.slot self.old }
    {
        if let Some(change) = &commit.slot {
            self.give(change);
        }
    }

    /// Scores the goals of a slot, at most [`MAX_SLOT`], at a moment. The answer is the change that is to be
    /// committed next: the same scheme, with the least of the next bytes by each goal that is scored. `None`
    /// exactly where the slot is not tunable, has no goal that is scored, or the bytes stay. The top stays.
    pub fn score(&mut self, slot: u8, moment: &Moment) -> Option<SlotChange>
        requires { slot ≤ MAX_SLOT }
        ensures change { result ≡ change_at self.old slot moment.now }
        ensures after { self.new ≡ after_change (change_at self.old slot moment.now) self.old }
    {
        let tuned = self.tuned(slot, moment)?;
        let index = usize::from(slot);
        self.schemes[index] = Some(tuned);
        Some(SlotChange {
            slot,
            scheme: self.schemes[index],
        })
    }

    // The scheme that a slot's scheme becomes at a moment, if its bytes change.
    fn tuned(&self, slot: u8, moment: &Moment) -> Option<Scheme>
        requires { slot ≤ MAX_SLOT }
        ensures { result ≡ tuned_at self.now slot moment.now }
    {
        let index = usize::from(slot);
        let scheme = self.schemes[index]?;
        let bytes = tunable_bytes(&scheme)?;
        let goals = self.goals.as_slice();
        let next = least_next(goals, slot, moment, bytes, self.tops[index])?;
        if next == bytes {
            return None;
        }
        Some(with_bytes(scheme, next))
    }

    /// The bytes in force of a slot, at most [`MAX_SLOT`]; `None` exactly where it is not tunable.
    pub fn bytes(&self, slot: u8) -> Option<u64>
        requires { slot ≤ MAX_SLOT }
        ensures { result ≡ bytes_at self.now slot }
    {
        let scheme = self.schemes[usize::from(slot)]?;
        tunable_bytes(&scheme)
    }

    /// The goals that the slots follow, in order.
    pub fn goals(&self) -> &[Goal]
        ensures { result.now ≡ self.now.goals }
    {
        self.goals.as_slice()
    }

    // Makes a slot change of the setup or of a commit of the script.
    fn give(&mut self, change: &SlotChange)
        requires { change.now.slot ≤ MAX_SLOT }
        ensures { self.new ≡ given change.now self.old }
    {
        let index = usize::from(change.slot);
        self.tops[index] = top_after(change.scheme, self.tops[index]);
        self.schemes[index] = change.scheme;
    }
}

// The bytes that a slot change gives, or the top as it was where it gives none.
fn top_after(scheme: Option<Scheme>, top: u64) -> u64
    ensures { result ≡ top_after scheme top }
{
    scheme
        .and_then(|scheme| scheme.quota)
        .map_or(top, |quota| quota.bytes)
}

// The bytes of a scheme with a quota and no marks.
fn tunable_bytes(scheme: &Scheme) -> Option<u64>
    ensures { result ≡ tunable_bytes scheme.now }
{
    if scheme.marks.is_some() {
        return None;
    }
    scheme.quota.map(|quota| quota.bytes)
}

// The same scheme with these bytes in its quota.
fn with_bytes(scheme: Scheme, bytes: u64) -> Scheme
    ensures { result ≡ with_bytes scheme bytes }
{
    let quota = scheme.quota.map(|quota| Quota { bytes, ..quota });
    Scheme { quota, ..scheme }
}

// The least of the next bytes by each goal of the slot that is scored at the moment.
fn least_next(goals: &[Goal], slot: u8, moment: &Moment, bytes: u64, top: u64) -> Option<u64>
    requires { AllByRecursion IsGoal goals.now }
    ensures { result ≡ least_of (nexts goals.now slot moment.now bytes top) }
{
    let mut least = None;
    for goal in goals {
        least = less(least, next_by(goal, slot, moment, bytes, top));
    }
    least
}

// The next bytes by a goal, where it is one of the slot and is scored at the moment.
fn next_by(goal: &Goal, slot: u8, moment: &Moment, bytes: u64, top: u64) -> Option<u64>
    requires { IsGoal goal.now }
    ensures { result ≡ next_of slot moment.now bytes top goal.now }
{
    if goal.slot != slot {
        return None;
    }
    let score = moment.score(goal.kind)?;
    Some(next_bytes(goal, bytes, top, score))
}

// The lesser of two numbers, of those that are there.
fn less(first: Option<u64>, second: Option<u64>) -> Option<u64>
    ensures { result ≡ less first second }
{
    match first {
        None => second,
        Some(a) => Some(second.map_or(a, |b| a.min(b))),
    }
}
