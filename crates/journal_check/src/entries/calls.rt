// The lines of calls.
ghost use Rattle.std.specs.Prelude.{◌≡◌, ℕ, ◌≤◌, ◌<◌, true, IfOk, IfSome, OnOk, length, option_map};
ghost use Rattle.live_commit.specs.Commit.{commit_value};
ghost use Rattle.script_lines.specs.Body.{no_commit};
ghost use Rattle.script_lines.specs.Words.{same_word};
ghost use Rattle.damon_control.specs.Live.{CommitCall, LiveValue};
ghost use Rattle.damon_control.specs.LiveView.{call_value};
ghost use Rattle.damon_control.specs.Written.{part_text};
ghost use Rattle.journal_check.specs.Ahead.{after_receipts};
ghost use Rattle.journal_check.specs.CallLine.{ReadsOn, place_asked};
ghost use Rattle.journal_text.specs.EntryLine.{after_call, after_call_of, after_call_word, after_entry, is_free};
ghost use Rattle.journal_check.specs.Folding.{FoldStands, IsWithin};
ghost use Rattle.journal_check.specs.LinesLeft.{FaultIs, IsShort, lines_left, said_left, said_on};
ghost use Rattle.run_journal.specs.Phases.{IsFree};
ghost use Rattle.journal_text.specs.Place.{AtAnswer, InBlock, InEntries};
ghost use Rattle.run_journal.specs.Replay.{JournalValue};

use crate::entries::fold::Fold;
use crate::entries::lines::{call_word, is_answer};
use crate::journal_lines::JournalLines;
use damon_control::{Call, MAX_CONTROLLERS, add_part, empty_commit, write_part};
use damon_types::Version;
use journal_text::without_end;
use live_commit::{Commit, Phase};
use run_journal::VerifyFault;
use script_lines::{Part, leading_range, read_part, same_word, wants_slot};
use std::alloc::{AllocError, Global};

// What the first line of a call says.
#[derive(Clone, Copy)]
enum Asked {
    Show,
    Commit,
}

impl Fold {
    // Makes the call of which this is the first line, and compares its answer.
    pub(crate) fn take_call(
        &mut self,
        alloc: Global,
        lines: &mut JournalLines,
        line: &[u8],
    ) -> Result<(), VerifyFault>
        requires short { IsShort lines.old }
        requires within { IsWithin self.old lines.old.taken }
        ensures entry { OnOk result ((v : LiveValue) (j : JournalValue) → FoldStands v j self.old
            → after_entry v j line.now ≡ after_call v j line.now
            → ReadsOn (said_on (InEntries v j) line.now lines.old) lines.new self.new) }
        ensures fault { (v : LiveValue) (j : JournalValue) → FoldStands v j self.old
            → after_entry v j line.now ≡ after_call v j line.now
            → FaultIs result (said_on (InEntries v j) line.now lines.old) }
        ensures ahead { OnOk result (after_receipts (lines_left lines.old)
            ≡ after_receipts (lines_left lines.new)) }
        ensures receipts { self.new.ahead ≡ self.old.ahead }
        ensures space { self.new.replay.monitor.core.space ≡ self.old.replay.monitor.core.space }
        ensures within { OnOk result (IsWithin self.new lines.new.taken) }
        ensures keeping { OnOk result (self.new.kept.keeping ≡ self.old.kept.keeping) }
        ensures short { IsShort lines.new }
        ensures shorter { OnOk result (length lines.new.rest.now ≤ length lines.old.rest.now) }
    {
        let Some((controller, asked)) = self.asked(line) else {
            return Err(lines.refuse());
        };
        let call = read_asked(alloc, lines, self.version, asked)?;
        self.answer_call(alloc, lines, controller, call)
    }

    // Makes a call, and compares its answer with the next line.
    fn answer_call(
        &mut self,
        alloc: Global,
        lines: &mut JournalLines,
        controller: u32,
        call: Call,
    ) -> Result<(), VerifyFault>
        requires free { IsFree self.old.replay.monitor.core.phase }
        requires below { controller < MAX_CONTROLLERS }
        requires short { IsShort lines.old }
        requires within { IsWithin self.old lines.old.taken }
        ensures entry { OnOk result ((v : LiveValue) (j : JournalValue) → FoldStands v j self.old
            → ReadsOn (said_left (AtAnswer v j controller (call_value call)) lines.old)
            lines.new self.new) }
        ensures fault { (v : LiveValue) (j : JournalValue) → FoldStands v j self.old
            → FaultIs result (said_left (AtAnswer v j controller (call_value call)) lines.old) }
        ensures ahead { OnOk result (after_receipts (lines_left lines.old)
            ≡ after_receipts (lines_left lines.new)) }
        ensures receipts { self.new.ahead ≡ self.old.ahead }
        ensures space { self.new.replay.monitor.core.space ≡ self.old.replay.monitor.core.space }
        ensures within { OnOk result (IsWithin self.new lines.new.taken) }
        ensures keeping { OnOk result (self.new.kept.keeping ≡ self.old.kept.keeping) }
        ensures short { IsShort lines.new }
        ensures shorter { OnOk result (length lines.new.rest.now ≤ length lines.old.rest.now) }
    {
        let line = lines.take_line()?;
        let answer = self.replay.call(&call);
        let same = is_answer(alloc, line, answer)?;
        if !same {
            return Err(lines.refuse());
        }
        self.kept.add_call(call)?;
        self.next[controller as usize] += 1;
        Ok(())
    }

    // The controller of a call, and what it asks for, if the line is the first of one that may be
    // made.
    fn asked(&self, line: &[u8]) -> Option<(u32, Asked)>
        ensures place { (v : LiveValue) (j : JournalValue) → FoldStands v j self.now
            → option_map (λ x. place_asked v j x.0 x.1) result ≡ after_call v j line.now }
        ensures below { IfSome result (λ x. x.0 < MAX_CONTROLLERS) }
        ensures free { IfSome result (λ x. IsFree self.now.replay.monitor.core.phase) }
    {
        let free = is_free(self.replay.monitor().phase());
        if !free {
            return None;
        }
        for controller in 0..MAX_CONTROLLERS {
            if let Some(asked) = self.asked_of(controller, line) {
                return Some((controller, asked));
            }
        }
        None
    }

    // What a line asks for, if it is the first of the next call of this controller.
    fn asked_of(&self, controller: u32, line: &[u8]) -> Option<Asked>
        requires { controller < MAX_CONTROLLERS }
        ensures { (v : LiveValue) (j : JournalValue) → FoldStands v j self.now
            → option_map (place_asked v j controller) result
            ≡ after_call_of v j controller line.now }
    {
        let index = self.next[controller as usize];
        let word = call_word(line, controller, index)?;
        asked_by(word)
    }
}

// Whether a call may be made in a phase.
fn is_free(phase: Phase) -> bool
    ensures is { result ≡ is_free phase }
    ensures free { result ≡ true → IsFree phase }
{
    match phase {
        Phase::Idle | Phase::Armed | Phase::Void => true,
        Phase::Clearing { .. } | Phase::Checking { .. } | Phase::Due => false,
    }
}

// What the last word of the first line of a call asks for.
fn asked_by(word: &[u8]) -> Option<Asked>
    ensures { (v : LiveValue) (j : JournalValue) (controller : ℕ) →
        option_map (place_asked v j controller) result ≡ after_call_word v j controller word.now }
{
    if same_word(word, b"show") {
        Some(Asked::Show)
    } else if same_word(word, b"commit") {
        Some(Asked::Commit)
    } else {
        None
    }
}

// The call that the first line asks for, of which the other lines but the answer are taken.
fn read_asked(
    alloc: Global,
    lines: &mut JournalLines,
    version: Version,
    asked: Asked,
) -> Result<Call, VerifyFault>
    requires { IsShort lines.old }
    ensures call { IfOk result (λ call. (v : LiveValue) (j : JournalValue) (c : ℕ) →
        v.setup.version ≡ version → said_left (place_asked v j c asked) lines.old
        ≡ said_left (AtAnswer v j c (call_value call)) lines.new) }
    ensures fault { (v : LiveValue) (j : JournalValue) (c : ℕ) → v.setup.version ≡ version →
        FaultIs result (said_left (place_asked v j c asked) lines.old) }
    ensures ahead { OnOk result (after_receipts (lines_left lines.old)
        ≡ after_receipts (lines_left lines.new)) }
    ensures later { OnOk result (lines.old.taken ≤ lines.new.taken) }
    ensures short { IsShort lines.new }
    ensures shorter { OnOk result (length lines.new.rest.now ≤ length lines.old.rest.now) }
{
    match asked {
        Asked::Show => Ok(Call::Show),
        Asked::Commit => {
            let commit = read_block(alloc, lines, version)?;
            let call = boxed(alloc, commit)?;
            Ok(call)
        }
    }
}

// The call of a commit.
fn boxed(alloc: Global, commit: Commit) -> Result<Call, AllocError>
    ensures { IfOk result (λ call. call_value call ≡ CommitCall (commit_value commit)) }
{
    match Box::new(alloc, commit) {
        Ok(commit) => Ok(Call::Commit { commit }),
        Err(e) => Err(AllocError::from(e)),
    }
}

// Reads the block of a commit, up to `apply`, each line in its one spelling.
fn read_block(
    alloc: Global,
    lines: &mut JournalLines,
    version: Version,
) -> Result<Commit, VerifyFault>
    requires { IsShort lines.old }
    ensures commit { IfOk result (λ commit. (v : LiveValue) (j : JournalValue) (c : ℕ) →
        v.setup.version ≡ version → said_left (InBlock v j c no_commit) lines.old
        ≡ said_left (AtAnswer v j c (CommitCall (commit_value commit))) lines.new) }
    ensures fault { (v : LiveValue) (j : JournalValue) (c : ℕ) → v.setup.version ≡ version →
        FaultIs result (said_left (InBlock v j c no_commit) lines.old) }
    ensures ahead { OnOk result (after_receipts (lines_left lines.old)
        ≡ after_receipts (lines_left lines.new)) }
    ensures later { OnOk result (lines.old.taken ≤ lines.new.taken) }
    ensures short { IsShort lines.new }
    ensures shorter { OnOk result (length lines.new.rest.now < length lines.old.rest.now) }
{
    let mut commit = empty_commit();
    'lines: loop {
        take_ranges(alloc, lines, &mut commit)?;
        let line = lines.take_line()?;
        if same_word(line, b"apply") {
            return Ok(commit);
        }
        let Ok(part) = read_part(version, &commit, line) else {
            return Err(lines.refuse());
        };
        let same = is_spelled(alloc, line, &part)?;
        if !same {
            return Err(lines.refuse());
        }
        add_part(alloc, &mut commit, part)?;
    }
}

// Takes the range lines that come next, where ranges may come, in one pass over their bytes.
fn take_ranges(
    alloc: Global,
    lines: &mut JournalLines,
    commit: &mut Commit,
) -> Result<(), AllocError>
    requires short { IsShort lines.old }
    requires few { IfSome (commit_value commit.old).ranges (λ rs. length rs ≤ lines.old.taken) }
    ensures said { OnOk result ((v : LiveValue) (j : JournalValue) (c : ℕ) →
        said_left (InBlock v j c (commit_value commit.old)) lines.old
        ≡ said_left (InBlock v j c (commit_value commit.new)) lines.new) }
    ensures ahead { OnOk result (after_receipts (lines_left lines.old)
        ≡ after_receipts (lines_left lines.new)) }
    ensures few { OnOk result (IfSome (commit_value commit.new).ranges
        (λ rs. length rs ≤ lines.new.taken)) }
    ensures later { OnOk result (lines.old.taken ≤ lines.new.taken) }
    ensures short { IsShort lines.new }
    ensures shorter { OnOk result (length lines.new.rest.now ≤ length lines.old.rest.now) }
{
    if !wants_slot(commit) {
        return Ok(());
    }
    'lines: while let Some((range, rest)) = leading_range(lines.rest) {
        lines.rest = rest;
        lines.taken += 1;
        add_part(alloc, commit, Part::Range(range))?;
    }
    Ok(())
}

// Whether a line is the one that is written of a part.
fn is_spelled(alloc: Global, line: &[u8], part: &Part) -> Result<bool, AllocError>
    ensures { IfOk result (λ same. same ≡ same_word line.now (part_text part.now)) }
{
    let mut wanted = Vec::new(alloc);
    write_part(&mut wanted, part)?;
    Ok(same_word(line, without_end(&wanted)))
}
