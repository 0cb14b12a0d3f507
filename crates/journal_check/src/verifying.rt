ghost use Rattle.std.specs.Prelude.{◌≡◌, ◌≢◌, ◌≤◌, length, IfErr, IfOk, OnOk};
ghost use Rattle.damon_control.specs.Live.{LiveValue};
ghost use Rattle.journal_check.specs.Folding.{AreAhead, FoldStands, IsWithin, ReadsReceipts};
ghost use Rattle.journal_check.specs.LinesLeft.{FaultIs, IsFault, IsShort, said_left};
ghost use Rattle.journal_text.specs.Place.{InEntries};
ghost use Rattle.journal_text.specs.Reading.{read_journal};
ghost use Rattle.run_journal.specs.Replay.{JournalValue};
ghost use Rattle.journal_check.specs.Verified.{IsOfNoLawfulRun, IsReadAs, IsVerified};

use crate::ends::{compare_last, open_text};
use crate::entries::fold::Fold;
use crate::entries::kept::{Keeping, Kept};
use crate::journal_lines::JournalLines;
use crate::laws::rejected_texts_are_unlawful;
use crate::receipts::part::take_receipts;
use damon_control::MAX_BYTES;
use journal_text::read_journals_are_lawful;
use run_journal::{Lawful, VerifyFault, hits_are_few, woven_runs};
use std::alloc::Global;

/// Checks whether a text of at most [`MAX_BYTES`] bytes is the journal text of a lawful run, and returns
/// the counts of its journal.
///
/// Each line is gone over at most twice, and each entry is carried out once. Allocates.
///
/// # Errors
///
/// `Unlawful` with the first rejected line if it is none; `Memory` if memory runs out.
pub fn verify(alloc: Global, bytes: &[u8]) -> Result<Lawful, VerifyFault>
    requires { length bytes.now ≤ MAX_BYTES }
    ensures lawful { IfOk result (λ counts. IsVerified bytes.now counts) }
    ensures unlawful { IfErr result (λ fault. fault ≢ VerifyFault.Memory → IsOfNoLawfulRun bytes.now) }

    // It is accepted exactly where it is read line by line; else its first rejected line is named.
    ensures line { IfErr result (λ fault. IsFault fault (read_journal bytes.now)) }
{
    // For their clauses alone: what is read is lawful, and so one run with few hits, and what is rejected is
    // not lawful.
    read_journals_are_lawful();
    woven_runs();
    hits_are_few();
    rejected_texts_are_unlawful();
    let (counts, _kept) = read_text(alloc, bytes, Keeping::Nothing)?;
    Ok(counts)
}

// Reads a journal text, counts what it has, and keeps what it is asked to.
pub(crate) fn read_text(
    alloc: Global,
    bytes: &[u8],
    keeping: Keeping,
) -> Result<(Lawful, Kept), VerifyFault>
    requires { length bytes.now ≤ MAX_BYTES }
    ensures read { IfOk result (λ x. IsReadAs (read_journal bytes.now) x.0 x.1) }
    ensures keeping { IfOk result (λ x. x.1.keeping ≡ keeping) }
    ensures few { IfOk result (λ x. x.1.entries ≤ MAX_BYTES) }
    ensures fault { FaultIs result (read_journal bytes.now) }
{
    let (head, mut lines) = open_text(alloc, bytes)?;
    let mut fold = Fold::new(alloc, head, &lines, keeping)?;
    take_entries(alloc, &mut fold, &mut lines)?;
    let Fold {
        replay,
        counts,
        ahead,
        unreceived,
        kept,
        ..
    } = fold;
    take_receipts(alloc, ahead, unreceived, &mut lines)?;
    compare_last(alloc, replay.monitor(), lines)?;
    Ok((counts, kept))
}

// Carries out all entries that are left, and takes the line `receipts` after them.
fn take_entries(alloc: Global, fold: &mut Fold, lines: &mut JournalLines) -> Result<(), VerifyFault>
    requires short { IsShort lines.old }
    requires ahead { AreAhead fold.old lines.old }
    requires within { IsWithin fold.old lines.old.taken }
    ensures entries { OnOk result ((v : LiveValue) (j : JournalValue) → FoldStands v j fold.old
        → ReadsReceipts (said_left (InEntries v j) lines.old) lines.new fold.new) }
    ensures fault { (v : LiveValue) (j : JournalValue) → FoldStands v j fold.old
        → FaultIs result (said_left (InEntries v j) lines.old) }
    ensures within { OnOk result (IsWithin fold.new lines.new.taken) }
    ensures keeping { OnOk result (fold.new.kept.keeping ≡ fold.old.kept.keeping) }
    ensures short { IsShort lines.new }
{
    'entries: while fold.next_entry(alloc, lines)? {}
    Ok(())
}
