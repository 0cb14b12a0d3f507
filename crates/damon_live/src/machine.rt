ghost use Rattle.std.specs.Prelude.{◌≡◌, ◌+◌, ◌*◌, ◌<◌, ◌≤◌, [], Bool, List, IfOk, IsSome, Some, length};
ghost use Rattle.live_commit.specs.declared.phase.Phase.TheVariants.{Idle, Armed, Due, Void as VoidPhase};
ghost use Rattle.run_journal.specs.declared.entry.Entry.TheVariants.{Call, Check, Void};
ghost use Rattle.damon_types.specs.Space.{pages_of};
ghost use Rattle.damon_control.specs.Live.{CallValue};
ghost use Rattle.damon_control.specs.LiveText.{KeepsLimits};
ghost use Rattle.damon_control.specs.LiveView.{live_said};
ghost use Rattle.run_journal.specs.Growth.{longer};
ghost use Rattle.run_journal.specs.Phases.{IsFree, passes_open};
ghost use Rattle.run_journal.specs.Room.{nothing_said};
ghost use Rattle.damon_core.specs.Pass.{IsBetween};
ghost use Rattle.damon_core.specs.Reached.{CanOpen};
ghost use Rattle.damon_core.specs.Stands.{Stands};
ghost use Rattle.run_journal.specs.Replay.{IsJournalOf, call_answer, call_at, check_sizes, replay};
ghost use Rattle.run_journal.specs.Steps.{steps};
ghost use Rattle.damon_live.specs.Machine.{aggregate_after, calls_left, passes_made, prepare_after, with_one};
ghost use Rattle.damon_live.specs.declared.top.TheConstants.{MAX_RESULTS};

use crate::kept::{Kept1, KeptParts};
use crate::named::Named;
use crate::passes::load_all;
use damon_control::{LiveScript, MAX_CALLS};
use live_commit::Phase;
use page_words::{MonitorSeat, PageWords};
use run_journal::{Journal, Replaying};
use std::alloc::{AllocError, Global};
use std::marker::{Model, PhantomData};

/// The monitor of a live run with its journal and its seat. In contracts it is what the journal says: all
/// else is what that replays to.
#[derive(Drop)]
pub(crate) struct Machine<'a, N: Named> {
    script: &'a LiveScript,
    replaying: Replaying,
    seat: MonitorSeat,
    journal: Journal,
    passes: u32,
    // The results of the last check; the room for them is taken once.
    hits: Vec<bool>,
    of: PhantomData<N>,
}

impl<'a, N: Named> Model for Machine<'a, N> {
    ghost use Rattle.std.specs.Prelude.{vec_capacity};
    ghost use Rattle.run_journal.specs.Replay.{JournalValue};
    ghost use Rattle.damon_live.specs.Machine.{IsMachine};

    ghost Value = { JournalValue };

    ghost view = { λ m. m.journal.value };

    ghost invariant = { λ m. IsMachine N.script N.table N.seats m.script.now m.replaying m.seat
        m.journal m.passes (vec_capacity m.hits) };
}

impl<'a, N: Named> Machine<'a, N> {
    /// A machine before the first pass. Takes memory; no other call does.
    pub(crate) fn new(
        alloc: Global,
        script: &'a LiveScript,
        seat: MonitorSeat,
    ) -> Result<Machine<'a, N>, AllocError>
        requires said { live_said script.now ≡ N.script }
        requires seat { seat ≡ record { table = N.table; entries = []; out = N.seats } }
        requires pages { N.table.words ≡ pages_of N.script.setup.space }
        requires limits { KeepsLimits N.script }
        requires product { N.script.passes * N.script.setup.cap ≤ MAX_RESULTS }
        ensures { IfOk result (λ m. m ≡ nothing_said) }
    {
        let replaying = Replaying::new(alloc, script.seed, &script.setup)?;
        let journal = Journal::new(alloc, script.passes, script.setup.cap, MAX_CALLS)?;
        let hits = Vec::with_capacity(alloc, script.setup.cap as usize)?;
        Ok(Machine {
            script,
            replaying,
            seat,
            journal,
            passes: 0,
            hits,
            of: PhantomData,
        })
    }

    /// Where the monitor is.
    pub(crate) fn phase(&self) -> Phase
        ensures { result ≡ (replay N.script self.now).state.core.phase }
    {
        self.replaying.monitor().phase()
    }

    /// The passes that were prepared.
    pub(crate) fn passes(&self) -> u32
        ensures { result ≡ passes_made self.now }
    {
        self.passes
    }

    /// Prepares a pass and clears its picks. The phase is Idle, and not all passes were made.
    pub(crate) fn prepare(&mut self, words: &PageWords)
        requires table { words.now ≡ N.table }
        requires idle { (replay N.script self.old).state.core.phase ≡ Idle }
        requires left { passes_made self.old < N.script.passes }
        ensures entry { self.new ≡ with_one (prepare_after (replay N.script self.old)) self.old }
        ensures armed { (replay N.script self.new).state.core.phase ≡ Armed }
        ensures made { passes_made self.new ≡ passes_made self.old + 1 }
    {
        let pass = self.replaying.monitor().ticks() + 1;
        let at = self.replaying.drawn();
        self.replaying.prepare();
        words.clear_each(
            &mut self.seat,
            self.replaying.monitor().picks().pages(),
            pass,
        );
        self.journal.prepare(pass, at);
        self.passes += 1;
    }

    /// Loads the picks and ends the pass. The phase is Armed.
    pub(crate) fn check(&mut self, words: &PageWords)
        requires table { words.now ≡ N.table }
        requires armed { (replay N.script self.old).state.core.phase ≡ Armed }
        ensures entry { (results : List Bool) × (self.new
            ≡ longer self.old (Check ((replay N.script self.old).state.core.ticks + 1)) results) }
        ensures ended { IsBetween (replay N.script self.new).state.core.phase }
        ensures made { passes_made self.new ≡ passes_made self.old }
    {
        let pass = self.replaying.monitor().ticks() + 1;
        load_all(
            words,
            &mut self.seat,
            self.replaying.monitor(),
            &mut self.hits,
        );
        self.journal.check_hits(pass, &self.hits);
        self.replaying.check(&self.hits);
    }

    /// Ends a void pass. The phase is Void.
    pub(crate) fn void(&mut self)
        requires { (replay N.script self.old).state.core.phase ≡ VoidPhase }
        ensures entry { self.new
            ≡ with_one (Void ((replay N.script self.old).state.core.ticks + 1)) self.old }
        ensures ended { IsBetween (replay N.script self.new).state.core.phase }
        ensures made { passes_made self.new ≡ passes_made self.old }
    {
        let pass = self.replaying.monitor().ticks() + 1;
        self.replaying.void();
        self.journal.void(pass);
    }

    /// Carries out the aggregation that is due.
    pub(crate) fn aggregate(&mut self)
        requires { (replay N.script self.old).state.core.phase ≡ Due }
        ensures entry { self.new ≡ with_one (aggregate_after (replay N.script self.old)) self.old }
        ensures idle { (replay N.script self.new).state.core.phase ≡ Idle }
        ensures made { passes_made self.new ≡ passes_made self.old }
    {
        let tick = self.replaying.monitor().ticks();
        let at = self.replaying.drawn();
        self.replaying.aggregate();
        self.journal.aggregate(tick, at);
    }

    /// Carries out call `index` of a controller. No aggregation is due, and not all calls were made.
    pub(crate) fn call(&mut self, controller: u32, index: u32) -> Kept1
        requires free { IsFree (replay N.script self.old).state.core.phase }
        requires call { IsSome (call_at N.script controller index) }
        requires left { 0 < calls_left N.script self.old.entries }
        ensures answer { (call : CallValue) → call_at N.script controller index ≡ Some call
            → result.answer ≡ call_answer call (replay N.script self.old).state.core }
        ensures entry { self.new ≡ with_one (Call controller index result.answer) self.old }
        ensures place { result.place ≡ length self.old.entries }
        ensures free { IsFree (replay N.script self.new).state.core.phase }
        ensures open { passes_open (replay N.script self.new).state.core.phase
            ≡ passes_open (replay N.script self.old).state.core.phase }
        ensures made { passes_made self.new ≡ passes_made self.old }
    {
        let call = self.script.controllers.get(controller).get(index);
        let answer = self.replaying.call(call);
        let place = self.journal.call(controller, index, answer);
        Kept1 { place, answer }
    }

    /// The script.
    pub(crate) fn script(&self) -> &'a LiveScript
        ensures { live_said result.now ≡ N.script }
    {
        self.script
    }

    /// Takes the machine apart.
    pub(crate) fn into_parts(self) -> KeptParts
        ensures journal { result.journal.value ≡ self.entry }
        ensures fits { IsJournalOf N.script self.entry }
        ensures sizes { result.journal.checked ≡ check_sizes N.script self.entry }
        ensures stands { Stands result.monitor (replay N.script self.entry).state }
        ensures seat { result.seat
            ≡ record { table = N.table; entries = steps N.script self.entry; out = N.seats } }
        ensures can { CanOpen N.script.setup }
        ensures pages { N.table.words ≡ pages_of N.script.setup.space }
        ensures most { passes_made self.entry ≤ N.script.passes }
    {
        let Machine {
            script: _,
            replaying,
            seat,
            journal,
            passes: _,
            hits: _,
            of: _,
        } = self;
        KeptParts {
            monitor: replaying.into_monitor(),
            seat,
            journal,
        }
    }
}
