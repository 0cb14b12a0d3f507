// A journal text that is carried out from one aggregation to the next.
ghost use Rattle.std.specs.Prelude.{◌≡◌, ◌≢◌, ◌+◌, ◌≤◌, ◌<◌, List, None, length, true, false, IfErr, IfOk, IfSome};
ghost use Rattle.live_commit.specs.declared.phase.Phase.TheVariants.{Idle, Armed, Due, Void as VoidPhase};
ghost use Rattle.damon_core.specs.State.{State};
ghost use Rattle.damon_control.specs.Live.{LiveValue};
ghost use Rattle.journal_check.specs.declared.entries.kept.Keeping.TheVariants.{Everything};
ghost use Rattle.run_journal.specs.Aggregated.{aggregated};
ghost use Rattle.journal_check.specs.Kept.{IsKept, IsOfJournal, is_call_at};
ghost use Rattle.journal_check.specs.LinesLeft.{IsFault};
ghost use Rattle.journal_text.specs.Reading.{read_journal};
ghost use Rattle.run_journal.specs.Replay.{IsJournalOf, JournalValue, replay};
ghost use Rattle.journal_check.specs.Replayer.{HasStepped, KeepsWay, Leads, ReachesLast, ReachesNext, ReadsRun, StandsForReached};
ghost use Rattle.journal_check.specs.Verified.{IsOfNoLawfulRun};

use crate::entries::kept::{Keeping, Kept, KeptCall};
use crate::laws::rejected_texts_are_unlawful;
use crate::verifying::read_text;
use damon_control::MAX_BYTES;
use damon_core::Monitor;
use damon_types::Space;
use journal_text::read_journals_are_lawful;
use live_commit::Phase;
use run_journal::{BitList, BitPlace, BitRun, Replaying, VerifyFault, hits_are_few, woven_runs};
use std::alloc::{AllocError, Global};
use std::marker::Model;

/// The journal of a lawful run, which is carried out from one aggregation to the next.
#[derive(Drop)]
pub struct Replayer {
    replay: Replaying,
    // What is kept of the text: the results of all checks, all calls, and the number of entries.
    bits: BitList,
    calls: Vec<KeptCall>,
    entries: u32,
    // How many entries and calls are done, and the place after the results that are.
    done: u32,
    bits_done: BitPlace,
    calls_done: usize,
}

impl Model for Replayer {
    ghost use Rattle.run_journal.specs.Bits.{place_of};
    ghost use Rattle.journal_check.specs.Replayer.{IsOnWay, ReplayerView, replayer_of};

    ghost Value = { ReplayerView };

    ghost view = { λ r. replayer_of r.replay r.bits r.calls.items r.entries r.done
        (place_of r.bits_done) r.calls_done };

    ghost invariant = { λ r. IsOnWay
        (replayer_of r.replay r.bits r.calls.items r.entries r.done (place_of r.bits_done)
        r.calls_done) };
}

impl Replayer {
    /// The journal of a text of at most [`MAX_BYTES`] bytes, of which nothing is carried out yet. The text is
    /// checked as [`verify`](crate::verify) checks it. Takes memory; no other call does.
    ///
    /// # Errors
    ///
    /// `Unlawful` with the first rejected line if it is not the text of a lawful run; `Memory` if memory runs
    /// out.
    pub fn new(alloc: Global, bytes: &[u8]) -> Result<Replayer, VerifyFault>
        requires { length bytes.now ≤ MAX_BYTES }
        ensures lawful { IfOk result (λ r. ReadsRun bytes.now r) }
        ensures unlawful { IfErr result (λ fault. fault ≢ VerifyFault.Memory → IsOfNoLawfulRun bytes.now) }
        ensures line { IfErr result (λ fault. IsFault fault (read_journal bytes.now)) }
    {
        // For their clauses alone: what is read is lawful and so one run, and what is rejected is not lawful.
        read_journals_are_lawful();
        woven_runs();
        hits_are_few();
        rejected_texts_are_unlawful();
        let (_counts, kept) = read_text(alloc, bytes, Keeping::Everything)?;
        let replayer = start(alloc, kept)?;
        Ok(replayer)
    }

    /// Carries out the entries up to and with the next aggregation, and returns its tick. None comes where
    /// none was left, and then all entries are carried out. Takes no memory.
    pub fn next(&mut self) -> Option<u64>
        ensures some { IfSome result (λ tick. (states : List State) (last : State)
            → Leads states last self.old → ReachesNext tick states last self.new) }
        ensures none { result ≡ None → (states : List State) (last : State)
            → Leads states last self.old → ReachesLast states last self.new }
        ensures shorter { IfSome result (λ tick. self.new.left < self.old.left) }
        ensures space { self.new.monitor.core.space ≡ self.old.monitor.core.space }
    {
        'entries: while self.done < self.entries {
            if let Some(tick) = self.carry_out() {
                return Some(tick);
            }
        }
        None
    }

    /// The monitor after the entries that are carried out. Takes no memory.
    pub fn monitor(&self) -> &Monitor
        ensures is { result.now ≡ self.now.monitor }
        ensures stands { StandsForReached result.now }
    {
        self.replay.monitor()
    }

    /// The space of the journal's setup. Takes no memory.
    pub fn space(&self) -> &Space
        ensures { result.now ≡ self.now.monitor.core.space }
    {
        self.replay.monitor().space()
    }

    // Carries out the next entry, and returns the tick of an aggregation.
    fn carry_out(&mut self) -> Option<u64>
        requires { 0 < self.old.left }
        ensures steps { (states : List State) (last : State) → Leads states last self.old
            → HasStepped result states last self.new }
        ensures shorter { self.new.left < self.old.left }
        ensures space { self.new.monitor.core.space ≡ self.old.monitor.core.space }
    {
        if self.is_at_call() {
            self.call();
            return None;
        }
        match self.replay.monitor().phase() {
            Phase::Idle => self.prepare(),
            Phase::Armed => self.check(),
            Phase::Void => self.void(),
            // Due: between two entries no pass is being cleared or checked.
            _ => return Some(self.aggregate()),
        }
        None
    }

    // Whether the next entry is a call.
    fn is_at_call(&self) -> bool
        ensures { result ≡ is_call_at self.now.done self.now.calls }
    {
        self.calls_done < self.calls.len() && self.calls[self.calls_done].place == self.done
    }

    // Makes the next call.
    fn call(&mut self)
        requires some { 0 < self.old.left }
        requires call { is_call_at self.old.done self.old.calls ≡ true }
        ensures leads { KeepsWay self.old self.new }
        ensures shorter { self.new.left < self.old.left }
        ensures space { self.new.monitor.core.space ≡ self.old.monitor.core.space }
    {
        self.replay.call(&self.calls[self.calls_done].call);
        self.calls_done += 1;
        self.done += 1;
    }

    // Prepares the next pass.
    fn prepare(&mut self)
        requires some { 0 < self.old.left }
        requires no_call { is_call_at self.old.done self.old.calls ≡ false }
        requires idle { self.old.monitor.core.phase ≡ Idle }
        ensures leads { KeepsWay self.old self.new }
        ensures shorter { self.new.left < self.old.left }
        ensures space { self.new.monitor.core.space ≡ self.old.monitor.core.space }
    {
        self.replay.prepare();
        self.done += 1;
    }

    // Takes the results of the next check, and ends the pass.
    fn check(&mut self)
        requires some { 0 < self.old.left }
        requires no_call { is_call_at self.old.done self.old.calls ≡ false }
        requires armed { self.old.monitor.core.phase ≡ Armed }
        ensures leads { KeepsWay self.old self.new }
        ensures shorter { self.new.left < self.old.left }
        ensures space { self.new.monitor.core.space ≡ self.old.monitor.core.space }
    {
        let count = self.replay.monitor().rows().len();
        self.replay.check(&BitRun {
            list: &self.bits,
            start: self.bits_done,
            count,
        });
        self.bits_done = self.bits.place_after(self.bits_done, count);
        self.done += 1;
    }

    // Ends a void pass.
    fn void(&mut self)
        requires some { 0 < self.old.left }
        requires no_call { is_call_at self.old.done self.old.calls ≡ false }
        requires void { self.old.monitor.core.phase ≡ VoidPhase }
        ensures leads { KeepsWay self.old self.new }
        ensures shorter { self.new.left < self.old.left }
        ensures space { self.new.monitor.core.space ≡ self.old.monitor.core.space }
    {
        self.replay.void();
        self.done += 1;
    }

    // Carries out the aggregation that is due, and returns its tick.
    fn aggregate(&mut self) -> u64
        requires some { 0 < self.old.left }
        requires no_call { is_call_at self.old.done self.old.calls ≡ false }
        requires due { self.old.monitor.core.phase ≡ Due }
        ensures reaches { (states : List State) (last : State) → Leads states last self.old
            → ReachesNext result states last self.new }
        ensures shorter { self.new.left < self.old.left }
        ensures space { self.new.monitor.core.space ≡ self.old.monitor.core.space }
    {
        let tick = self.replay.monitor().ticks();
        self.replay.aggregate();
        self.done += 1;
        tick
    }
}

// What is kept of a text, of which nothing is carried out yet.
fn start(alloc: Global, kept: Kept) -> Result<Replayer, AllocError>
    requires keeping { kept.keeping ≡ Everything }
    requires few { kept.entries ≤ MAX_BYTES }
    requires lawful { IsOfJournal kept }
    ensures leads { IfOk result (λ r. (v : LiveValue) (j : JournalValue) → IsJournalOf v j
        → IsKept v j kept → Leads (aggregated v j) (replay v j).state r) }
    ensures fresh { IfOk result (λ r. r.done ≡ 0) }
    ensures space { IfOk result (λ r. r.monitor.core.space ≡ kept.setup.space) }
{
    let Kept {
        seed,
        setup,
        entries,
        bits,
        calls,
        ..
    } = kept;
    let replay = Replaying::new(alloc, seed, &setup)?;
    Ok(Replayer {
        replay,
        bits,
        calls,
        entries,
        done: 0,
        bits_done: BitPlace { word: 0, bit: 0 },
        calls_done: 0,
    })
}
