// The choices of an aggregation in JSON, made by `serde_json`.
ghost use Rattle.std.specs.Prelude.{◌≡◌, ◌++◌, map, IfOk, OnOk};
ghost use Rattle.serde_json.specs.Events.{SendsValue};
ghost use Rattle.serde_json.specs.Written.{compact_text};
ghost use Rattle.snapshot_print.specs.Json.{choice_json, list_of};
ghost use Rattle.line_text.specs.Appended.{KeepsFront};

use crate::json_parts::{send_bool, send_count, send_option};
use scheme_engine::SlotChoice;
use serde::{Described, Serialize, Serializer};
use std::alloc::{AllocError, Global};

// Appends the list of choices.
#[tactic(auto, using(line_text::proofs::Lemmas::appends))]
pub(crate) fn print_choice_list(
    alloc: Global,
    out: &mut Vec<u8>,
    choices: &[SlotChoice],
) -> Result<(), AllocError>
    ensures ok { OnOk result
        (out.new.items ≡ out.old.items ++ compact_text (list_of (map choice_json choices.now))) }
    ensures kept { KeepsFront out.old.items out.new.items }
{
    // Without choices, no memory is taken.
    if choices.is_empty() {
        return out.extend_from_slice(b"[]");
    }
    let list = choice_list(alloc, choices)?;
    out.extend_from_slice(&list)
}

// The list of choices.
#[derive(Clone, Copy)]
struct Choices<'a> {
    choices: &'a [SlotChoice],
}

impl Described for Choices<'_> {
    ghost writes = { λ c. SendsValue (list_of (map choice_json c.choices.now)) };
}

impl Serialize for Choices<'_> {
    fn serialize<S: Serializer>(&self, out: &mut S) -> Result<(), S::Error> {
        out.begin_seq(Some(self.choices.len()))?;
        'choices: for choice in self.choices {
            send_choice(out, choice)?;
        }
        out.end_seq()
    }
}

// Sends the object of a choice.
fn send_choice<S: Serializer>(out: &mut S, choice: &SlotChoice) -> Result<(), S::Error>
    ensures { OnOk result
        (SendsValue (choice_json choice.now) (S.written out.old) (S.written out.new)) }
{
    out.begin_map(Some(5))?;
    send_bool(out, "active", choice.active)?;
    send_option(out, "left", choice.left)?;
    send_option(out, "lowest", choice.lowest.map(u64::from))?;
    send_count(out, "slot", u64::from(choice.slot))?;
    send_count(out, "taken", choice.taken)?;
    out.end_map()
}

// The text of the list of choices.
fn choice_list(alloc: Global, choices: &[SlotChoice]) -> Result<Vec<u8>, AllocError>
    ensures { IfOk result (λ v. v.items ≡ compact_text (list_of (map choice_json choices.now))) }
{
    match serde_json::to_vec(alloc, &Choices { choices }) {
        Ok(list) => Ok(list),
        Err(_) => Err(AllocError),
    }
}
