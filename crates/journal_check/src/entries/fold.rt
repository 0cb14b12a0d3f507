ghost use Rattle.script_lines.specs.Words.{same_word};
ghost use Rattle.std.specs.Prelude.{◌≡◌, ◌+◌, ◌<◌, ◌^◌, IfOk, OnOk, length, true};
ghost use Rattle.std.specs.List.{count_by};
ghost use Rattle.live_commit.specs.declared.phase.Phase.TheVariants.{Idle, Armed, Due, Void as VoidPhase};
ghost use Rattle.damon_control.specs.JournalHead.{head_said};
ghost use Rattle.damon_control.specs.Live.{LiveValue};
ghost use Rattle.journal_check.specs.Folding.{AreAhead, FoldStands, GoesOn, HasRead, HasTaken, IsWithin};
ghost use Rattle.journal_check.specs.LinesLeft.{FaultIs, IsShort, said_left};
ghost use Rattle.journal_text.specs.Place.{InEntries, uncalled};
ghost use Rattle.run_journal.specs.Replay.{JournalValue};
ghost use Rattle.run_journal.specs.Room.{nothing_said};
ghost use Rattle.journal_text.specs.Spelled.{spelled_aggregate, spelled_prepare, spelled_void};

use crate::entries::kept::{Keeping, Kept};
use crate::entries::lines::{check_digits, is_number_line, is_pair_line, read_bits};
use crate::journal_lines::JournalLines;
use crate::receipts::ahead::Ahead;
use damon_control::{JournalHead, MAX_CONTROLLERS};
use damon_types::Version;
use live_commit::Phase;
use run_journal::{Lawful, Replaying, VerifyFault};
use script_lines::same_word;
use std::alloc::{AllocError, Global};

// The entries of a journal text that were read.
#[derive(Drop)]
pub(crate) struct Fold {
    pub replay: Replaying,
    pub version: Version,
    // The index of the next call of each controller.
    pub next: [u32; MAX_CONTROLLERS as usize],
    pub counts: Lawful,
    // The receipts, which stand after all entries.
    pub ahead: Ahead,
    // How many hits have no receipt.
    pub unreceived: u64,
    pub kept: Kept,
}

impl Fold {
    // Before the first entry, of which `lines` is the line.
    pub fn new(
        alloc: Global,
        head: JournalHead,
        lines: &JournalLines,
        keeping: Keeping,
    ) -> Result<Fold, AllocError>
        requires { IsShort lines.now }
        ensures begins { IfOk result (λ f. FoldStands (uncalled (head_said head)) nothing_said f) }
        ensures ahead { IfOk result (λ f. AreAhead f lines.now) }
        ensures within { IfOk result (λ f. IsWithin f lines.now.taken) }
        ensures keeping { IfOk result (λ f. f.kept.keeping ≡ keeping) }
    {
        let replay = Replaying::new(alloc, head.seed, &head.setup)?;
        let ahead = Ahead::read(alloc, &head.setup.space, lines.rest)?;
        Ok(Fold {
            replay,
            version: head.setup.version,
            next: [0; MAX_CONTROLLERS as usize],
            counts: Lawful {
                passes: 0,
                loads: 0,
                hits: 0,
            },
            ahead,
            unreceived: 0,
            kept: Kept::new(alloc, head, keeping),
        })
    }

    // Carries out the next entry. Returns false where the next line is `receipts`, in its place.
    pub fn next_entry(
        &mut self,
        alloc: Global,
        lines: &mut JournalLines,
    ) -> Result<bool, VerifyFault>
        requires short { IsShort lines.old }
        requires ahead { AreAhead self.old lines.old }
        requires within { IsWithin self.old lines.old.taken }
        ensures entry { IfOk result (λ more. (v : LiveValue) (j : JournalValue) → FoldStands v j self.old
            → HasRead more v j lines.old lines.new self.new) }
        ensures fault { (v : LiveValue) (j : JournalValue) → FoldStands v j self.old
            → FaultIs result (said_left (InEntries v j) lines.old) }
        ensures ahead { IfOk result (λ more. more ≡ true → AreAhead self.new lines.new) }
        ensures within { OnOk result (IsWithin self.new lines.new.taken) }
        ensures keeping { OnOk result (self.new.kept.keeping ≡ self.old.kept.keeping) }
        ensures short { IsShort lines.new }
        ensures shorter { OnOk result (length lines.new.rest.now < length lines.old.rest.now) }
    {
        let line = lines.take_line()?;
        if same_word(line, b"receipts") {
            return match self.replay.monitor().phase() {
                Phase::Idle => Ok(false),
                _ => Err(lines.refuse()),
            };
        }
        if !self.take_entry(alloc, line)? {
            self.take_call(alloc, lines, line)?;
        }
        Ok(true)
    }

    // Carries out the entry that a line says, if it says one that is no call.
    fn take_entry(&mut self, alloc: Global, line: &[u8]) -> Result<bool, AllocError>
        requires { IsWithin self.old (2 ^ 24) }
        ensures taken { (v : LiveValue) (j : JournalValue) → FoldStands v j self.old
            → IfOk result (λ taken. HasTaken taken v j line.now self.old self.new) }
        ensures goes { OnOk result (GoesOn self.old self.new) }
    {
        match self.replay.monitor().phase() {
            Phase::Idle => Ok(self.take_prepare(line)),
            Phase::Armed => self.take_check(alloc, line),
            Phase::Void => Ok(self.take_void(line)),
            Phase::Due => Ok(self.take_aggregate(line)),
            Phase::Clearing { .. } | Phase::Checking { .. } => Ok(false),
        }
    }

    // Prepares a pass, if the line says so.
    fn take_prepare(&mut self, line: &[u8]) -> bool
        requires idle { self.old.replay.monitor.core.phase ≡ Idle }
        requires within { IsWithin self.old (2 ^ 24) }
        ensures taken { (v : LiveValue) (j : JournalValue) → FoldStands v j self.old
            → HasTaken result v j line.now self.old self.new }
        ensures goes { GoesOn self.old self.new }
    {
        if !self.wants_prepare(line) {
            return false;
        }
        let pass = self.replay.monitor().ticks() + 1;
        self.replay.prepare();
        self.kept.add_other();
        self.ahead.prepare(pass, self.replay.monitor().picks());
        self.counts.passes += 1;
        true
    }

    // Whether a line is the one of the next pass.
    fn wants_prepare(&self, line: &[u8]) -> bool
        requires { IsWithin self.now (2 ^ 24) }
        ensures { result ≡ same_word line.now (spelled_prepare
            (self.now.replay.monitor.core.ticks + 1) self.now.replay.drawn) }
    {
        let pass = self.replay.monitor().ticks() + 1;
        is_pair_line(line, b"prepare ", pass, b" at ", self.replay.drawn())
    }

    // Checks a pass, if the line says so.
    fn take_check(&mut self, alloc: Global, line: &[u8]) -> Result<bool, AllocError>
        requires armed { self.old.replay.monitor.core.phase ≡ Armed }
        requires within { IsWithin self.old (2 ^ 24) }
        ensures taken { (v : LiveValue) (j : JournalValue) → FoldStands v j self.old
            → IfOk result (λ taken. HasTaken taken v j line.now self.old self.new) }
        ensures goes { OnOk result (GoesOn self.old self.new) }
    {
        let pass = self.replay.monitor().ticks() + 1;
        let rows = self.replay.monitor().rows().len();
        let Some(digits) = check_digits(line, pass) else {
            return Ok(false);
        };
        let Some(bits) = read_bits(alloc, digits, rows as usize)? else {
            return Ok(false);
        };
        let open = self
            .ahead
            .open_hits(pass, self.replay.monitor().picks(), &bits);
        self.unreceived += open;
        self.counts.loads += u64::from(rows);
        self.counts.hits += hits_in(&bits);
        self.kept.add_check(&bits)?;
        self.replay.check(&bits);
        Ok(true)
    }

    // Ends a void pass, if the line says so.
    fn take_void(&mut self, line: &[u8]) -> bool
        requires void { self.old.replay.monitor.core.phase ≡ VoidPhase }
        requires within { IsWithin self.old (2 ^ 24) }
        ensures taken { (v : LiveValue) (j : JournalValue) → FoldStands v j self.old
            → HasTaken result v j line.now self.old self.new }
        ensures goes { GoesOn self.old self.new }
    {
        if !self.wants_void(line) {
            return false;
        }
        self.replay.void();
        self.kept.add_other();
        true
    }

    // Whether a line is the one of the end of this pass, where it is void.
    fn wants_void(&self, line: &[u8]) -> bool
        requires { IsWithin self.now (2 ^ 24) }
        ensures { result ≡ same_word line.now
            (spelled_void (self.now.replay.monitor.core.ticks + 1)) }
    {
        let pass = self.replay.monitor().ticks() + 1;
        is_number_line(line, b"void ", pass)
    }

    // Carries out the aggregation that is due, if the line says so.
    fn take_aggregate(&mut self, line: &[u8]) -> bool
        requires due { self.old.replay.monitor.core.phase ≡ Due }
        requires within { IsWithin self.old (2 ^ 24) }
        ensures taken { (v : LiveValue) (j : JournalValue) → FoldStands v j self.old
            → HasTaken result v j line.now self.old self.new }
        ensures goes { GoesOn self.old self.new }
    {
        if !self.wants_aggregate(line) {
            return false;
        }
        self.replay.aggregate();
        self.kept.add_other();
        true
    }

    // Whether a line is the one of the aggregation that is due.
    fn wants_aggregate(&self, line: &[u8]) -> bool
        ensures { result ≡ same_word line.now
            (spelled_aggregate self.now.replay.monitor.core.ticks self.now.replay.drawn) }
    {
        let tick = self.replay.monitor().ticks();
        is_pair_line(line, b"aggregate ", tick, b" at ", self.replay.drawn())
    }
}

// How many results are hits.
fn hits_in(bits: &[bool]) -> u64
    ensures { result ≡ count_by (λ bit. bit) bits.now }
{
    let mut hits = 0;
    for k in 0..bits.len() {
        hits += u64::from(bits[k]);
    }
    hits
}
