ghost use Rattle.std.specs.Prelude.{◌≡◌, ◌+◌, ◌*◌, ◌≤◌, ◌<◌, ◌^◌, [], IfOk, length};
ghost use Rattle.live_commit.specs.declared.phase.Phase.TheVariants.{Idle, Armed, Due, Void as VoidPhase};
ghost use Rattle.live_commit.specs.SetupView.{value_of};
ghost use Rattle.damon_core.specs.Reached.{CanOpen};
ghost use Rattle.damon_core.specs.Stands.{last_pass};
ghost use Rattle.damon_core.specs.State.{opening_core, row_count};
ghost use Rattle.damon_control.specs.Live.{LiveValue};
ghost use Rattle.damon_control.specs.LiveView.{call_value};
ghost use Rattle.run_journal.specs.declared.entry.Entry.TheVariants.{Prepare, Check, Void, Aggregate};
ghost use Rattle.run_journal.specs.Phases.{IsFree};
ghost use Rattle.run_journal.specs.Replay.{call_answer};
ghost use Rattle.run_journal.specs.Replaying.{Carries, CarriesCall, CarriesKnown, IsReplayOf};
ghost use Rattle.run_journal.specs.Room.{nothing_said};

use crate::bits::CheckResults;
use crate::calls::make_call;
use crate::entry::CallAnswer;
use damon_control::Call;
use damon_core::Monitor;
use live_commit::{Phase, Setup};
use rand_pcg::Lcg64Xsh32;
use sampler::{draw_words, generator};
use std::alloc::{AllocError, Global};
use std::marker::Model;

/// A journal that is carried out: the monitor after its entries, and the random words to come.
#[derive(Drop)]
pub struct Replaying {
    monitor: Monitor,
    words: Lcg64Xsh32,
    drawn: u64,
    // The random words of an aggregation; the room for them is taken once.
    buffer: Vec<u32>,
}

impl Model for Replaying {
    ghost use Rattle.std.specs.Prelude.{vec_capacity, ◌≤◌, ◌*◌};
    ghost use Rattle.run_journal.specs.Replaying.{ReplayingView};

    ghost Value = { ReplayingView };

    ghost view = { λ r. record { monitor = r.monitor; words = r.words; drawn = r.drawn } };

    ghost invariant = { λ r. 2 * r.monitor.core.regions.cap ≤ vec_capacity r.buffer };
}

impl Replaying {
    /// Before the first entry. Takes memory; no other call does.
    pub fn new(alloc: Global, seed: u64, setup: &Setup) -> Result<Replaying, AllocError>
        ensures begins { IfOk result (λ r. (v : LiveValue) → v.seed ≡ seed → v.setup ≡ value_of setup.now
            → IsReplayOf v nothing_said r) }
        ensures drawn { IfOk result (λ r. r.drawn ≡ 0) }
        ensures opening { IfOk result (λ r. r.monitor.core ≡ opening_core (value_of setup.now)) }
    {
        setup_opens(setup);
        let monitor = Monitor::new(alloc, setup)?;
        let buffer = Vec::with_capacity(alloc, 2 * monitor.rows().cap() as usize)?;
        Ok(Replaying {
            monitor,
            words: generator(seed),
            drawn: 0,
            buffer,
        })
    }

    /// The monitor after the entries.
    pub fn monitor(&self) -> &Monitor
        ensures { result.now ≡ self.now.monitor }
    {
        &self.monitor
    }

    /// The monitor after the last entry.
    pub fn into_monitor(self) -> Monitor
        ensures { result ≡ self.monitor }
    {
        let Replaying {
            monitor,
            words: _,
            drawn: _,
            buffer: _,
        } = self;
        monitor
    }

    /// How many random words were drawn.
    pub fn drawn(&self) -> u64
        ensures { result ≡ self.now.drawn }
    {
        self.drawn
    }

    /// Prepares a pass and clears its picks.
    pub fn prepare(&mut self)
        requires idle { self.old.monitor.core.phase ≡ Idle }
        requires drawn { self.old.drawn < 2 ^ 63 }
        ensures entry { Carries self.old self.new
            (Prepare (self.old.monitor.core.ticks + 1) self.old.drawn) [] }
        ensures phase { self.new.monitor.core.phase ≡ Armed }
        ensures ticks { self.new.monitor.core.ticks ≡ self.old.monitor.core.ticks }
        ensures drawn { self.new.drawn ≤ self.old.drawn + 2 ^ 33 }
        ensures space { self.new.monitor.core.space ≡ self.old.monitor.core.space }
    {
        let rows = self.monitor.rows().len();
        self.monitor.prepare_from(&mut self.words);
        self.monitor.cleared_next(rows);
        self.drawn += u64::from(rows);
    }

    /// Takes the results of the picks, one for each, and ends the pass.
    pub fn check<B: CheckResults>(&mut self, bits: &B)
        requires armed { self.old.monitor.core.phase ≡ Armed }
        requires each { length (B.results bits.now) ≡ row_count self.old.monitor.core }
        requires ticks { self.old.monitor.core.ticks < 2 ^ 40 }
        ensures entry { Carries self.old self.new
            (Check (self.old.monitor.core.ticks + 1)) (B.results bits.now) }
        ensures ticks { self.new.monitor.core.ticks ≡ self.old.monitor.core.ticks + 1 }
        ensures drawn { self.new.drawn ≡ self.old.drawn }
        ensures space { self.new.monitor.core.space ≡ self.old.monitor.core.space }
        ensures ended { last_pass self.new.monitor.core.phase self.new.monitor.core.ticks
            ≡ self.new.monitor.core.ticks }
    {
        // For its clause alone: there is a row.
        let _rows = self.monitor.rows();
        bits.load_into(&mut self.monitor);
        self.monitor.observe();
    }

    /// Ends a void pass.
    pub fn void(&mut self)
        requires void { self.old.monitor.core.phase ≡ VoidPhase }
        requires ticks { self.old.monitor.core.ticks < 2 ^ 40 }
        ensures entry { Carries self.old self.new
            (Void (self.old.monitor.core.ticks + 1)) [] }
        ensures ticks { self.new.monitor.core.ticks ≡ self.old.monitor.core.ticks + 1 }
        ensures drawn { self.new.drawn ≡ self.old.drawn }
        ensures space { self.new.monitor.core.space ≡ self.old.monitor.core.space }
        ensures ended { last_pass self.new.monitor.core.phase self.new.monitor.core.ticks
            ≡ self.new.monitor.core.ticks }
    {
        self.monitor.observe();
    }

    /// Carries out the aggregation that is due.
    pub fn aggregate(&mut self)
        requires due { self.old.monitor.core.phase ≡ Due }
        requires drawn { self.old.drawn < 2 ^ 63 }
        ensures entry { Carries self.old self.new
            (Aggregate self.old.monitor.core.ticks self.old.drawn) [] }
        ensures ticks { self.new.monitor.core.ticks ≡ self.old.monitor.core.ticks }
        ensures drawn { self.new.drawn ≤ self.old.drawn + 2 ^ 33 }
        ensures space { self.new.monitor.core.space ≡ self.old.monitor.core.space }
        ensures phase { self.new.monitor.core.phase ≡ Idle }
    {
        let max = self.monitor.attrs().max;
        draw_words(&mut self.words, 2 * max as usize, &mut self.buffer);
        self.monitor.aggregate(&self.buffer);
        self.drawn += 2 * u64::from(max);
    }

    /// Makes a call: the next one of a controller, or one that the script has.
    pub fn call(&mut self, call: &Call) -> CallAnswer
        requires { IsFree self.old.monitor.core.phase }
        ensures entry { CarriesCall self.old self.new (call_value call.now) result }
        ensures known { CarriesKnown self.old self.new (call_value call.now) result }
        ensures answer { result ≡ call_answer (call_value call.now) self.old.monitor.core }
        ensures ticks { self.new.monitor.core.ticks ≡ self.old.monitor.core.ticks }
        ensures drawn { self.new.drawn ≡ self.old.drawn }
        ensures space { self.new.monitor.core.space ≡ self.old.monitor.core.space }
        ensures pass { last_pass self.new.monitor.core.phase self.new.monitor.core.ticks
            ≡ last_pass self.old.monitor.core.phase self.old.monitor.core.ticks }
    {
        make_call(&mut self.monitor, call)
    }
}

// A setup is within its limits, its targets too, and its ranges are in order. It does nothing.
fn setup_opens(setup: &Setup)
    ensures { CanOpen (value_of setup.now) }
{
    // For their clauses alone.
    let (_targets, _ranges) = (setup.space.targets(), setup.ranges.len());
}
