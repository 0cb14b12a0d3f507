// The lines of the set slots in a show.
ghost use Rattle.std.specs.Prelude.{◌≡◌, ◌+◌, ◌≤◌, ◌++◌, length, drop, slice_index_or, OnOk};
ghost use Rattle.scheme_engine.specs.Slots.{empty_slot};
ghost use Rattle.snapshot_print.specs.Schemes.{scheme_line, scheme_part, shown_slot, shown_slots, statistics_part};
ghost use Rattle.line_text.specs.Appended.{KeepsFront};
ghost use Rattle.snapshot_print.specs.declared.widths.TheConstants.{SCHEME_LINE, STATE_PART, STATISTICS_PART};

use crate::fields::{word_before, yes_or_no};
use crate::widths::SCHEME_LINE;
use damon_types::MAX_SLOT;
use line_text::{field_before, text_before};
use scheme_engine::{Engine, SlotView};
use std::alloc::AllocError;

// Appends the lines of the set slots, in slot order.
#[tactic(auto, using(crate::proofs::Slots::shown_slots_next))]
pub(crate) fn print_slots(out: &mut Vec<u8>, engine: &Engine) -> Result<(), AllocError>
    ensures ok { OnOk result (out.new.items ≡ out.old.items ++ shown_slots 0 engine.now.slots) }
    ensures kept { KeepsFront out.old.items out.new.items }
{
    for slot in 0..engine.slots() {
        print_slot(out, slot as u8, engine)?;
    }
    Ok(())
}

// Appends the line of a slot, if it is set.
fn print_slot(out: &mut Vec<u8>, slot: u8, engine: &Engine) -> Result<(), AllocError>
    requires { slot ≤ MAX_SLOT }
    ensures ok { OnOk result (out.new.items ≡ out.old.items
        ++ shown_slot slot (slice_index_or engine.now.slots slot empty_slot)) }
    ensures kept { KeepsFront out.old.items out.new.items }
{
    let Some(view) = engine.slot(slot) else {
        return Ok(());
    };
    let mut line = [0; SCHEME_LINE];
    let start = scheme_before(&mut line, SCHEME_LINE, slot, &view);
    out.extend_from_slice(&line[start..])
}

// Writes the line of a set slot so that it ends right before index `end`, and returns the index where it
// begins. The functions below do the same for a part of it.
fn scheme_before(bytes: &mut [u8], end: usize, slot: u8, view: &SlotView) -> usize
    requires room { SCHEME_LINE ≤ end }
    requires within { end ≤ length bytes.old }
    ensures start { result ≤ end }
    ensures written { drop result bytes.new ≡ scheme_line slot view.now ++ drop end bytes.old }
{
    let statistics = statistics_before(bytes, end, view);
    state_before(bytes, statistics, slot, view)
}

// Writes the window and the statistics, and the line's end.
fn statistics_before(bytes: &mut [u8], end: usize, view: &SlotView) -> usize
    requires room { STATISTICS_PART ≤ end }
    requires within { end ≤ length bytes.old }
    ensures start { result ≤ end }
    ensures most { end ≤ result + STATISTICS_PART }
    ensures written { drop result bytes.new ≡ statistics_part view.now ++ drop end bytes.old }
{
    let line_end = text_before(bytes, end, b"\n");
    let exceeds = field_before(bytes, line_end, b" exceeds=", view.exceeds);
    let applied = field_before(bytes, exceeds, b" applied=", view.applied);
    let tried = field_before(bytes, applied, b" tried=", view.tried);
    let from = field_before(bytes, tried, b" start=", view.window.start);
    field_before(bytes, from, b" charged=", view.window.charged)
}

// Writes `scheme SLOT ACTION active=..`.
fn state_before(bytes: &mut [u8], end: usize, slot: u8, view: &SlotView) -> usize
    requires room { STATE_PART ≤ end }
    requires within { end ≤ length bytes.old }
    ensures start { result ≤ end }
    ensures written { drop result bytes.new ≡ scheme_part slot view.now ++ drop end bytes.old }
{
    let active = word_before(bytes, end, b" active=", yes_or_no(view.active).as_bytes());
    let action = word_before(bytes, active, b" ", view.action.name().as_bytes());
    field_before(bytes, action, b"scheme ", u64::from(slot))
}
