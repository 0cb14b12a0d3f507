// The receipts of a journal text, after its entries.
ghost use Rattle.std.specs.Prelude.{◌≡◌, ◌==◌, ◌&&◌, [], List, codes, IfOk, OnOk};
ghost use Rattle.script_lines.specs.Words.{same_word};
ghost use Rattle.damon_control.specs.Live.{LiveValue};
ghost use Rattle.run_journal.specs.declared.entry.Receipt.{Receipt as receipt};
ghost use Rattle.page_words.specs.declared.view.Entry.{Entry as step};
ghost use Rattle.journal_check.specs.Ahead.{named_by};
ghost use Rattle.journal_check.specs.LinesLeft.{FaultIs, IsShort, said_left};
ghost use Rattle.journal_text.specs.Place.{InReceipts};
ghost use Rattle.run_journal.specs.Replay.{JournalValue};
ghost use Rattle.journal_check.specs.SeenPart.{AreAllSeen, AreSeen, ReceiptsStand, accepted, after_all_receipts, seen_left};
ghost use Rattle.run_journal.specs.Steps.{steps};

use crate::journal_lines::JournalLines;
use crate::receipts::ahead::Ahead;
use run_journal::VerifyFault;
use script_lines::same_word;
use std::alloc::{AllocError, Global};

// Takes the lines of the receipts, which were read ahead, and `settled`.
pub(crate) fn take_receipts(
    alloc: Global,
    ahead: Ahead,
    unreceived: u64,
    lines: &mut JournalLines,
) -> Result<(), VerifyFault>
    requires { IsShort lines.old }
    ensures settled { OnOk result ((v : LiveValue) (j : JournalValue)
        → ReceiptsStand v j ahead unreceived lines.old
        → (all : List (List receipt)) × (said_left (InReceipts v j []) lines.old
        ≡ said_left (after_all_receipts v j all) lines.new)) }
    ensures fault { (v : LiveValue) (j : JournalValue)
        → ReceiptsStand v j ahead unreceived lines.old
        → FaultIs result (said_left (InReceipts v j []) lines.old) }
    ensures short { IsShort lines.new }
{
    let count = count_accepted(alloc, ahead)?;
    skip_seen(lines, count)?;
    take_settled(unreceived, lines)
}

// How many of the receipts that were read ahead come before the first that may not be seen.
#[tactic(auto, using(crate::proofs::AllSeen::count_before, crate::proofs::AllSeen::count_all))]
fn count_accepted(alloc: Global, ahead: Ahead) -> Result<usize, AllocError>
    ensures { (done : List step) → ahead.named ≡ named_by done ahead.receipts → IfOk result
        (λ count. count ≡ accepted done [] ahead.receipts) }
{
    let all = ahead.len();
    match ahead.refused(alloc)? {
        Some(number) => Ok(number),
        None => Ok(all),
    }
}

// Takes the lines of this many receipts, all that come before the first that may not be seen.
fn skip_seen(lines: &mut JournalLines, count: usize) -> Result<(), VerifyFault>
    requires { IsShort lines.old }
    ensures seen { OnOk result ((v : LiveValue) (j : JournalValue)
        → count ≡ accepted (steps v j) [] (seen_left v lines.old)
        → (all : List (List receipt)) × AreSeen 0 v j all lines.old lines.new) }
    ensures fault { (v : LiveValue) (j : JournalValue)
        → count ≡ accepted (steps v j) [] (seen_left v lines.old)
        → FaultIs result (said_left (InReceipts v j []) lines.old) }
    ensures short { IsShort lines.new }
{
    let mut left = count;
    'seen: while left > 0 {
        let _seen = lines.take_line()?;
        left -= 1;
    }
    Ok(())
}

// Takes the line `settled`, before which no receipt may be seen that was not taken, and no hit may be
// without a receipt.
fn take_settled(unreceived: u64, lines: &mut JournalLines) -> Result<(), VerifyFault>
    requires { IsShort lines.old }
    ensures settled { OnOk result ((v : LiveValue) (j : JournalValue) (all : List (List receipt))
        → AreAllSeen v j all unreceived lines.old
        → said_left (InReceipts v j all) lines.old
        ≡ said_left (after_all_receipts v j all) lines.new) }
    ensures fault { (v : LiveValue) (j : JournalValue) (all : List (List receipt))
        → AreAllSeen v j all unreceived lines.old
        → FaultIs result (said_left (InReceipts v j all) lines.old) }
    ensures short { IsShort lines.new }
{
    let line = lines.take_line()?;
    if is_settled(line, unreceived) {
        Ok(())
    } else {
        Err(lines.refuse())
    }
}

// Whether a line is `settled`, and no hit is without a receipt.
fn is_settled(line: &[u8], unreceived: u64) -> bool
    ensures { result ≡ (same_word line.now (codes "settled") && (unreceived == 0)) }
{
    same_word(line, b"settled") && unreceived == 0
}
