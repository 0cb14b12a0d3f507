// The lines of the slots with goals, after the last line of a report.
ghost use Rattle.std.specs.Prelude.{◌≡◌, ◌≤◌, ◌++◌, OnErr, OnOk};
ghost use Rattle.snapshot_print.specs.Fields.{number_or_none};
ghost use Rattle.line_text.specs.Appended.{KeepsFront};
ghost use Rattle.damon_types.specs.declared.scheme.TheConstants.{MAX_SLOT};
ghost use Rattle.tune_run.specs.Callbacks.{has_goal, slot_text, tuned_text};

use damon_types::MAX_SLOT;
use line_text::{append_field, end_line, whole_or_nothing, write_number};
use quota_goal::Tuner;
use std::alloc::AllocError;

/// The number of slots.
pub const SLOTS: u8 = MAX_SLOT + 1;

// Appends the line of each slot with a goal, in order. When out of memory, nothing is appended.
pub fn append_tuned(out: &mut Vec<u8>, tuner: &Tuner) -> Result<(), AllocError>
    ensures ok { OnOk result (out.new.items ≡ out.old.items ++ tuned_text tuner.now) }
    ensures err { OnErr result (out.new.items ≡ out.old.items) }
{
    let before = out.len();
    let appended = append_slots(out, tuner);
    whole_or_nothing(out, before, appended)
}

// The same, but that where memory runs out, some of the lines may have been appended.
fn append_slots(out: &mut Vec<u8>, tuner: &Tuner) -> Result<(), AllocError>
    ensures ok { OnOk result (out.new.items ≡ out.old.items ++ tuned_text tuner.now) }
    ensures err { OnErr result (KeepsFront out.old.items out.new.items) }
{
    'slots: for slot in 0..SLOTS {
        append_slot(out, tuner, slot)?;
    }
    Ok(())
}

// Appends the line of a slot, if it has a goal.
#[tactic(auto, using(line_text::proofs::Lemmas::appends))]
fn append_slot(out: &mut Vec<u8>, tuner: &Tuner, slot: u8) -> Result<(), AllocError>
    requires { slot ≤ MAX_SLOT }
    ensures ok { OnOk result (out.new.items ≡ out.old.items ++ slot_text tuner.now slot) }
    ensures kept { KeepsFront out.old.items out.new.items }
{
    if !has_goal(tuner, slot) {
        return Ok(());
    }
    append_field(out, b"tuned ", u64::from(slot))?;
    out.extend_from_slice(b" bytes=")?;
    append_bytes(out, tuner.bytes(slot))?;
    end_line(out)
}

// Appends the bytes of a slot.
#[tactic(auto, using(line_text::proofs::Lemmas::appends))]
fn append_bytes(out: &mut Vec<u8>, bytes: Option<u64>) -> Result<(), AllocError>
    ensures ok { OnOk result (out.new.items ≡ out.old.items ++ number_or_none bytes) }
    ensures kept { KeepsFront out.old.items out.new.items }
{
    match bytes {
        Some(bytes) => write_number(out, bytes),
        None => out.extend_from_slice(b"none"),
    }
}

// Whether a slot has a goal.
fn has_goal(tuner: &Tuner, slot: u8) -> bool
    ensures { result ≡ has_goal tuner.now.goals slot }
{
    tuner.goals().iter().any(|goal| goal.slot == slot)
}
