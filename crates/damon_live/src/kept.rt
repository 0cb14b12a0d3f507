ghost use Rattle.std.specs.Prelude.{◌≡◌, ◌+◌, ◌*◌, ◌<◌, ◌≤◌, [], IfOk, length, slice_index, Some};
ghost use Rattle.damon_types.specs.Space.{pages_of};
ghost use Rattle.live_commit.specs.declared.phase.Phase.TheVariants.{Armed, Idle};
ghost use Rattle.damon_core.specs.Pass.{IsBetween};
ghost use Rattle.damon_core.specs.Reached.{CanOpen};
ghost use Rattle.damon_core.specs.Stands.{Stands};
ghost use Rattle.damon_control.specs.Live.{CallValue};
ghost use Rattle.damon_control.specs.LiveText.{KeepsLimits};
ghost use Rattle.damon_control.specs.LiveView.{live_said};
ghost use Rattle.run_journal.specs.declared.entry.Entry.TheVariants.{Call};
ghost use Rattle.run_journal.specs.Phases.{IsFree, passes_open};
ghost use Rattle.run_journal.specs.Replay.{IsJournalOf, call_answer, call_at, check_sizes, replay};
ghost use Rattle.run_journal.specs.Room.{nothing_said};
ghost use Rattle.run_journal.specs.Steps.{steps};
ghost use Rattle.damon_live.specs.Kept.{CallsAreInOrder, calls_asked, calls_made};
ghost use Rattle.damon_live.specs.Machine.{passes_made, prepare_after, with_one};
ghost use Rattle.damon_live.specs.Plain.{AddsPlain};
ghost use Rattle.damon_live.specs.declared.top.TheConstants.{MAX_RESULTS};

use crate::machine::Machine;
use crate::named::Named;
use damon_control::LiveScript;
use damon_core::Monitor;
use live_commit::Phase;
use page_words::{MonitorSeat, PageWords};
use run_journal::{CallAnswer, Journal};
use std::alloc::{AllocError, Global};
use std::marker::Model;

/// What a call of a controller answered, and the number of its entry in the journal.
#[derive(Clone, Copy)]
pub struct Kept1 {
    pub place: u32,
    pub answer: CallAnswer,
}

/// What a run is made of, once no lock holds it.
#[derive(Drop)]
pub struct KeptParts {
    pub monitor: Monitor,
    pub seat: MonitorSeat,
    pub journal: Journal,
}

/// What the lock keeps: a machine between two passes, or within an armed or void one. In contracts it is
/// what its journal says.
#[derive(Drop)]
pub struct Kept<'a, N: Named> {
    machine: Machine<'a, N>,
    // How many calls each controller has made.
    counts: Vec<u32>,
}

impl<'a, N: Named> Model for Kept<'a, N> {
    ghost use Rattle.run_journal.specs.Replay.{JournalValue};
    ghost use Rattle.damon_live.specs.Kept.{IsKept};

    ghost Value = { JournalValue };

    ghost view = { λ k. k.machine };

    ghost invariant = { λ k. IsKept N.script k.machine k.counts.items };
}

impl<'a, N: Named> Kept<'a, N> {
    /// The monitor before its first pass, with a journal that says nothing. Takes memory; no other call
    /// does.
    pub fn new(
        alloc: Global,
        script: &'a LiveScript,
        seat: MonitorSeat,
    ) -> Result<Kept<'a, N>, AllocError>
        requires said { live_said script.now ≡ N.script }
        requires seat { seat ≡ record { table = N.table; entries = []; out = N.seats } }
        requires pages { N.table.words ≡ pages_of N.script.setup.space }
        requires limits { KeepsLimits N.script }
        requires product { N.script.passes * N.script.setup.cap ≤ MAX_RESULTS }
        ensures { IfOk result (λ k. k ≡ nothing_said) }
    {
        let controllers = script.controllers.len();
        let counts = vec![in alloc; 0u32; controllers as usize]?;
        let machine = Machine::new(alloc, script, seat)?;
        Ok(Kept { machine, counts })
    }

    /// Where the monitor is: Idle, Armed or Void.
    pub fn phase(&self) -> Phase
        ensures phase { result ≡ (replay N.script self.now).state.core.phase }
        ensures free { IsFree result }
    {
        self.machine.phase()
    }

    /// The passes that were prepared.
    pub fn passes(&self) -> u32
        ensures { result ≡ passes_made self.now }
    {
        self.machine.passes()
    }

    /// The passes that the script asks for.
    pub fn limit(&self) -> u32
        ensures { result ≡ N.script.passes }
    {
        self.machine.script().passes
    }

    /// How many controllers the script has.
    pub fn controllers(&self) -> u32
        ensures { result ≡ length N.script.controllers }
    {
        self.machine.script().controllers.len()
    }

    /// How many calls of a controller are in the script, 0 if there is no such controller.
    pub fn call_limit(&self, controller: u32) -> u32
        ensures { result ≡ calls_asked controller N.script }
    {
        let controllers = &self.machine.script().controllers;
        if controller < controllers.len() {
            controllers.get(controller).len()
        } else {
            0
        }
    }

    /// How many calls a controller has made.
    pub fn calls(&self, controller: u32) -> u32
        ensures { result ≡ calls_made controller self.now }
    {
        count_of(&self.counts, controller)
    }

    /// Prepares a pass and clears its picks. The phase is Idle, and passes are left.
    pub fn arm(&mut self, words: &PageWords)
        requires table { words.now ≡ N.table }
        requires idle { (replay N.script self.old).state.core.phase ≡ Idle }
        requires left { passes_made self.old < N.script.passes }
        ensures entry { self.new ≡ with_one (prepare_after (replay N.script self.old)) self.old }
        ensures armed { (replay N.script self.new).state.core.phase ≡ Armed }
        ensures made { passes_made self.new ≡ passes_made self.old + 1 }
    {
        self.machine.prepare(words);
    }

    /// Ends the pass that is armed or void, and makes the aggregation if one is due.
    pub fn check(&mut self, words: &PageWords)
        requires table { words.now ≡ N.table }
        requires begun { passes_open (replay N.script self.old).state.core.phase ≡ 1 }
        ensures adds { AddsPlain self.old self.new }
        ensures idle { (replay N.script self.new).state.core.phase ≡ Idle }
        ensures made { passes_made self.new ≡ passes_made self.old }
    {
        end_pass(&mut self.machine, words);
        make_due(&mut self.machine);
    }

    /// Carries out the next call of a controller. It has one left.
    pub fn call(&mut self, controller: u32) -> Kept1
        requires { calls_made controller self.old < calls_asked controller N.script }
        ensures entry { self.new
            ≡ with_one (Call controller (calls_made controller self.old) result.answer) self.old }
        ensures place { result.place ≡ length self.old.entries }
        ensures answer { (call : CallValue)
            → call_at N.script controller (calls_made controller self.old) ≡ Some call
            → result.answer ≡ call_answer call (replay N.script self.old).state.core }
        ensures idle { (replay N.script self.old).state.core.phase ≡ Idle
            → (replay N.script self.new).state.core.phase ≡ Idle }
        ensures made { passes_made self.new ≡ passes_made self.old }
    {
        let index = count_of(&self.counts, controller);
        let answer = self.machine.call(controller, index);
        self.counts[controller as usize] = index + 1;
        answer
    }

    /// Takes what is kept apart, once no lock holds it.
    pub fn into_parts(self) -> KeptParts
        ensures journal { result.journal.value ≡ self.entry }
        ensures fits { IsJournalOf N.script self.entry }
        ensures sizes { result.journal.checked ≡ check_sizes N.script self.entry }
        ensures stands { Stands result.monitor (replay N.script self.entry).state }
        ensures free { IsFree (replay N.script self.entry).state.core.phase }
        ensures seat { result.seat
            ≡ record { table = N.table; entries = steps N.script self.entry; out = N.seats } }
        ensures can { CanOpen N.script.setup }
        ensures pages { N.table.words ≡ pages_of N.script.setup.space }
        ensures most { passes_made self.entry ≤ N.script.passes }
        ensures calls { CallsAreInOrder N.script self.entry }
    {
        let Kept { machine, counts: _ } = self;
        machine.into_parts()
    }
}

// Ends the pass.
fn end_pass<N: Named>(machine: &mut Machine<'_, N>, words: &PageWords)
    requires table { words.now ≡ N.table }
    requires free { IsFree (replay N.script machine.old).state.core.phase }
    requires begun { passes_open (replay N.script machine.old).state.core.phase ≡ 1 }
    ensures adds { AddsPlain machine.old machine.new }
    ensures ended { IsBetween (replay N.script machine.new).state.core.phase }
    ensures made { passes_made machine.new ≡ passes_made machine.old }
{
    match machine.phase() {
        Phase::Void => machine.void(),
        _ => machine.check(words),
    }
}

// Makes the aggregation if one is due.
fn make_due<N: Named>(machine: &mut Machine<'_, N>)
    requires { IsBetween (replay N.script machine.old).state.core.phase }
    ensures adds { AddsPlain machine.old machine.new }
    ensures idle { (replay N.script machine.new).state.core.phase ≡ Idle }
    ensures made { passes_made machine.new ≡ passes_made machine.old }
{
    if let Phase::Due = machine.phase() {
        machine.aggregate();
    }
}

// The number of calls of a controller, 0 for one that the script lacks.
fn count_of(counts: &[u32], controller: u32) -> u32
    ensures { result ≡ slice_index counts.now controller }
{
    match counts.get(controller as usize) {
        Some(count) => *count,
        None => 0,
    }
}
