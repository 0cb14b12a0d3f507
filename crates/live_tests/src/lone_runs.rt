// A live script that is carried out in one thread, and the text of its journal before it began.
ghost use Rattle.std.specs.Prelude.{◌≤◌, length};

use crate::texts::ONE_PAGE;
use damon_control::{MAX_BYTES, read_live};
use damon_core::Monitor;
use damon_journal::{Journal, journal_text};
use damon_live::{AloneRun, MAX_RESULTS, run_alone};
use damon_types::PlainList;
use std::alloc::{AllocError, Global};
use std::process::Abort;
use std::test::Fail;

// All passes come first, then the calls, then the touches, which find that the pass has cleared the page.
const JOURNAL: &[u8] = b"\
damon journal 1
seed 42
unit 1
cap 3
attrs 3 3 5
target 0x0 1
range 0 0x0 0x1000 0
begin
prepare 1 at 0
check 1 0
call 0 0 show
answer shown tick=1 rows=1
receipts
seen 0 0 0x0 1
seen 1 0 0x0 1
settled
show tick=1 phase=idle rows=1
row 0 0x0-0x1000 count=0 last=0 age=0
end ticks=1 rows=1 checks=1 hits=0
";

// The text of the journal of a run; none where the script asks for more passes than a journal keeps, or is
// no live script.
#[tactic(auto, using(damon_control::proofs::Lemmas::live_scripts_sound))]
fn text_of_run(alloc: Global, script: &[u8]) -> Result<Option<Vec<u8>>, AllocError>
    requires { length script.now ≤ MAX_BYTES }
{
    let Ok(script) = read_live(alloc, script) else {
        return Ok(None);
    };
    if u64::from(script.passes) * u64::from(script.setup.cap) > u64::from(MAX_RESULTS) {
        return Ok(None);
    }
    let AloneRun {
        script,
        journal,
        receipts,
        monitor,
    } = run_alone(alloc, script)?;
    let mut text = Vec::new(alloc);
    journal_text(alloc, &mut text, &script, &journal, &receipts, &monitor)?;
    Ok(Some(text))
}

#[test]
fn a_run_of_one_thread_makes_passes_calls_and_touches_in_this_order(
    rt: HostRuntime,
) -> Result<(), Fail> {
    let text = text_of_run(rt.alloc(), ONE_PAGE)?;
    assert_eq!(rt; text.as_deref(), Some(JOURNAL));
    Ok(())
}

const EMPTY_JOURNAL: &[u8] = b"\
damon journal 1
seed 42
unit 1
cap 3
attrs 3 3 5
target 0x0 1
range 0 0x0 0x1000 0
begin
receipts
settled
show tick=0 phase=idle rows=1
row 0 0x0-0x1000 count=0 last=0 age=0
end ticks=0 rows=1 checks=0 hits=0
";

// The text of the journal of a run that has not begun; none where the script is no live script.
fn text_without_entries(alloc: Global, script: &[u8]) -> Result<Option<Vec<u8>>, AllocError>
    requires { length script.now ≤ MAX_BYTES }
{
    let Ok(script) = read_live(alloc, script) else {
        return Ok(None);
    };
    let monitor = Monitor::new(alloc, &script.setup)?;
    let (journal, receipts) = (Journal::empty(alloc), PlainList::new(alloc));
    let mut text = Vec::new(alloc);
    journal_text(alloc, &mut text, &script, &journal, &receipts, &monitor)?;
    Ok(Some(text))
}

#[test]
fn a_journal_without_entries_has_a_text(rt: HostRuntime) -> Result<(), Fail> {
    let text = text_without_entries(rt.alloc(), ONE_PAGE)?;
    assert_eq!(rt; text.as_deref(), Some(EMPTY_JOURNAL));
    Ok(())
}
