// The text of a journal.
ghost use Rattle.std.specs.Prelude.{◌≡◌, ◌<◌, ◌++◌, OnErr, OnOk};
ghost use Rattle.std.specs.List.{AllByRecursion};
ghost use Rattle.damon_types.specs.Space.{pages_of};
ghost use Rattle.line_text.specs.Appended.{KeepsFront};
ghost use Rattle.damon_core.specs.Stands.{Stands};
ghost use Rattle.damon_control.specs.LiveView.{live_said};
ghost use Rattle.run_journal.specs.Lawful.{all_of, receipts_said};
ghost use Rattle.run_journal.specs.Replay.{check_sizes, replay};
ghost use Rattle.journal_text.specs.Text.{journal_text};
ghost use Rattle.journal_text.specs.TextParts.{IsRecorded};

use crate::text_parts::{Part, Recorded, write_to};
use damon_control::LiveScript;
use damon_core::Monitor;
use line_text::whole_or_nothing;
use run_journal::{Journal, Receipts};
use std::alloc::{AllocError, Global};

/// Appends the text of a journal: its first line, which says the version; the setup of the script; the
/// entries in order, each check with its results and each call with its answer; the receipts of each
/// worker; and what is shown of the monitor at the end, which is in the state that the journal's replay
/// gives. The page of each receipt is a page of the script's space. Of a commit with an empty list of
/// ranges, which no text spells, the list is left out. When out of memory, nothing is appended.
pub fn journal_text(
    alloc: Global,
    out: &mut Vec<u8>,
    script: &LiveScript,
    journal: &Journal,
    receipts: &Receipts,
    monitor: &Monitor,
) -> Result<(), AllocError>
    requires sizes { journal.now.checked ≡ check_sizes (live_said script.now) journal.now.value }
    requires stands { Stands monitor.now (replay (live_said script.now) journal.now.value).state }
    requires pages { AllByRecursion (λ r. r.page < pages_of script.now.setup.space)
        (all_of (receipts_said receipts.now)) }
    ensures ok { OnOk result (out.new.items ≡ out.old.items
        ++ journal_text (live_said script.now) journal.now.value (receipts_said receipts.now)) }
    ensures err { OnErr result (out.new.items ≡ out.old.items) }
{
    let before = out.len();
    let run = Recorded {
        script,
        journal,
        receipts,
        monitor,
    };
    let written = write_journal(alloc, out, &run);
    whole_or_nothing(out, before, written)
}

// Appends the text of a journal.
fn write_journal(alloc: Global, out: &mut Vec<u8>, run: &Recorded<'_>) -> Result<(), AllocError>
    requires { IsRecorded run.now }
    ensures ok { OnOk result (out.new.items ≡ out.old.items ++ journal_text (live_said run.now.script.now)
        run.now.journal.now.value (receipts_said run.now.receipts.now)) }
    ensures kept { KeepsFront out.old.items out.new.items }
{
    write_to(alloc, out, run, Part::Head, usize::MAX)?;
    Ok(())
}
