// The set slots in a show in JSON, made by `serde_json`.
ghost use Rattle.std.specs.Prelude.{◌≡◌, ◌≤◌, ◌++◌, List, length, slice_index_or, IfOk, OnOk};
ghost use Rattle.serde.specs.Event.{Log as log};
ghost use Rattle.serde_json.specs.Data.{Data};
ghost use Rattle.serde_json.specs.Events.{SendsItems, SendsValue};
ghost use Rattle.serde_json.specs.View.{items_of};
ghost use Rattle.serde_json.specs.Written.{compact_text};
ghost use Rattle.scheme_engine.specs.Slots.{empty_slot};
ghost use Rattle.snapshot_print.specs.Json.{list_of, set_slot_json, set_slots_json, slot_json};
ghost use Rattle.line_text.specs.Appended.{KeepsFront};

use crate::json_parts::{send_bool, send_count, send_text};
use damon_types::MAX_SLOT;
use scheme_engine::{Engine, SlotView};
use serde::{Described, Serialize, Serializer};
use std::alloc::{AllocError, Global};

// Appends the list of the set slots, in slot order.
#[tactic(auto, using(line_text::proofs::Lemmas::appends))]
pub(crate) fn print_slot_list(
    alloc: Global,
    out: &mut Vec<u8>,
    engine: &Engine,
) -> Result<(), AllocError>
    ensures ok { OnOk result (out.new.items ≡ out.old.items
        ++ compact_text (list_of (set_slots_json 0 engine.now.slots))) }
    ensures kept { KeepsFront out.old.items out.new.items }
{
    let list = slot_list(alloc, engine)?;
    out.extend_from_slice(&list)
}

// The list of the set slots.
#[derive(Clone, Copy)]
struct SetSlots<'a> {
    engine: &'a Engine,
}

impl Described for SetSlots<'_> {
    ghost writes = { λ s. SendsValue (list_of (set_slots_json 0 s.engine.now.slots)) };
}

impl Serialize for SetSlots<'_> {
    fn serialize<S: Serializer>(&self, out: &mut S) -> Result<(), S::Error> {
        send_slots(out, self.engine)
    }
}

// The text of the list of the set slots.
fn slot_list(alloc: Global, engine: &Engine) -> Result<Vec<u8>, AllocError>
    ensures { IfOk result
        (λ v. v.items ≡ compact_text (list_of (set_slots_json 0 engine.now.slots))) }
{
    match serde_json::to_vec(alloc, &SetSlots { engine }) {
        Ok(list) => Ok(list),
        Err(_) => Err(AllocError),
    }
}

// Sends a value for each set slot, in slot order.
#[tactic(auto, using(crate::proofs::JsonSlots::set_slots_next))]
fn send_slots<S: Serializer>(out: &mut S, engine: &Engine) -> Result<(), S::Error>
    ensures { OnOk result
        (SendsValue (list_of (set_slots_json 0 engine.now.slots))
        (S.written out.old) (S.written out.new)) }
{
    out.begin_seq(Some(count_set(engine)))?;
    for slot in 0..engine.slots() {
        send_slot(out, slot as u8, engine)?;
    }
    out.end_seq()
}

// How many slots are set.
#[tactic(auto, using(crate::proofs::JsonSlots::set_slots_length))]
fn count_set(engine: &Engine) -> usize
    ensures { result ≡ length (set_slots_json 0 engine.now.slots) }
{
    let mut set = 0;
    for slot in 0..engine.slots() {
        set += count_slot(engine, slot as u8);
    }
    set
}

// 1 for a slot that is set, and 0 for one that is not.
fn count_slot(engine: &Engine, slot: u8) -> usize
    requires { slot ≤ MAX_SLOT }
    ensures count { result
        ≡ length (set_slot_json slot (slice_index_or engine.now.slots slot empty_slot)) }
    ensures one { result ≤ 1 }
{
    match engine.slot(slot) {
        Some(_) => 1,
        None => 0,
    }
}

// Sends the value of a slot, if it is set.
fn send_slot<S: Serializer>(out: &mut S, slot: u8, engine: &Engine) -> Result<(), S::Error>
    requires { slot ≤ MAX_SLOT }
    ensures { OnOk result ((rest : List Data) (end : log)
        → SendsItems (items_of rest) (S.written out.new) end
        → SendsItems (items_of (set_slot_json slot (slice_index_or engine.now.slots slot empty_slot) ++ rest))
        (S.written out.old) end) }
{
    match engine.slot(slot) {
        Some(view) => send_set_slot(out, slot, &view),
        None => Ok(()),
    }
}

// Sends the value of a set slot.
fn send_set_slot<S: Serializer>(out: &mut S, slot: u8, view: &SlotView) -> Result<(), S::Error>
    ensures { OnOk result
        (SendsValue (slot_json slot view.now) (S.written out.old) (S.written out.new)) }
{
    out.begin_map(Some(8))?;
    send_text(out, "action", view.action.name())?;
    send_bool(out, "active", view.active)?;
    send_count(out, "applied", view.applied)?;
    send_count(out, "charged", view.window.charged)?;
    send_count(out, "exceeds", view.exceeds)?;
    send_count(out, "slot", u64::from(slot))?;
    send_count(out, "start", view.window.start)?;
    send_count(out, "tried", view.tried)?;
    out.end_map()
}
