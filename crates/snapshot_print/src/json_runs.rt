// Runs in JSON.
ghost use Rattle.std.specs.Prelude.{◌≡◌, ◌+◌, ◌≤◌, ◌++◌, Option, map, flat_map, length, drop, OnOk};
ghost use Rattle.std.specs.List.{AllByRecursion};
ghost use Rattle.serde_json.specs.Written.{compact_text};
ghost use Rattle.damon_types.specs.Space.{pages_of};
ghost use Rattle.snapshot_print.specs.Json.{applied_json, list_of};
ghost use Rattle.line_text.specs.Appended.{KeepsFront};
ghost use Rattle.snapshot_print.specs.Pieces.{piece, run_prefix, run_parts, run_rest};
ghost use Rattle.snapshot_print.specs.declared.widths.TheConstants.{PREFIX_PART, REST_PART};

use crate::choice_text::{action_in, count_runs};
use crate::fields::{short_field_before, word_before};
use crate::json_list::{close_list, start_before};
use crate::line_groups::{LineOf, print_lines};
use crate::page_run::PageRun;
use crate::widths::PREFIX_PART;
use damon_types::{Action, Space};
use line_text::{address_before, text_before};
use scheme_engine::{AppliedRun, Engine};
use std::alloc::AllocError;

// Appends the list of runs, each with the action of its slot. Each run has a page, and its pages are pages
// of the space.
#[tactic(auto, using(line_text::proofs::Lemmas::appends))]
pub(crate) fn print_run_list(
    out: &mut Vec<u8>,
    runs: &[AppliedRun],
    engine: &Engine,
    space: &Space,
) -> Result<(), AllocError>
    requires { AllByRecursion (λ r. (1 ≤ r.pages) × (r.start + r.pages ≤ pages_of space.now)) runs.now }
    ensures ok { OnOk result (out.new.items ≡ out.old.items
        ++ compact_text (list_of (map (applied_json space.now engine.now.slots) runs.now))) }
    ensures kept { KeepsFront out.old.items out.new.items }
{
    let start = out.len();
    print_run_items(out, runs, engine, space)?;
    close_list(out, start)
}

// Appends the items of runs: the runs of a slot that come next are written together.
fn print_run_items(
    out: &mut Vec<u8>,
    runs: &[AppliedRun],
    engine: &Engine,
    space: &Space,
) -> Result<(), AllocError>
    requires { AllByRecursion (λ r. (1 ≤ r.pages) × (r.start + r.pages ≤ pages_of space.now)) runs.now }
    ensures ok { OnOk result (out.new.items ≡ out.old.items
        ++ flat_map (λ r. piece (applied_json space.now engine.now.slots r)) runs.now) }
    ensures kept { KeepsFront out.old.items out.new.items }
{
    let mut left = runs;
    'slots: while let Some(run) = left.first() {
        let (own, others) = left.split_at(count_runs(left, run.slot));
        print_own_items(out, own, run.slot, engine, space)?;
        left = others;
    }
    Ok(())
}

// Appends the items of runs of this slot.
fn print_own_items(
    out: &mut Vec<u8>,
    runs: &[AppliedRun],
    slot: u8,
    engine: &Engine,
    space: &Space,
) -> Result<(), AllocError>
    requires pages { AllByRecursion
        (λ r. (1 ≤ r.pages) × (r.start + r.pages ≤ pages_of space.now)) runs.now }
    requires own { AllByRecursion (λ r. r.slot ≡ slot) runs.now }
    ensures ok { OnOk result (out.new.items ≡ out.old.items
        ++ flat_map (λ r. piece (applied_json space.now engine.now.slots r)) runs.now) }
    ensures kept { KeepsFront out.old.items out.new.items }
{
    print_with_action(out, runs, action_in(engine, slot), space)
}

// Appends the items of runs of a slot with this action.
fn print_with_action(
    out: &mut Vec<u8>,
    runs: &[AppliedRun],
    action: Option<Action>,
    space: &Space,
) -> Result<(), AllocError>
    requires { AllByRecursion (λ r. (1 ≤ r.pages) × (r.start + r.pages ≤ pages_of space.now)) runs.now }
    ensures ok { OnOk result
        (out.new.items ≡ out.old.items ++ flat_map (run_parts space.now action) runs.now) }
    ensures kept { KeepsFront out.old.items out.new.items }
{
    let mut text = [0; PREFIX_PART];
    let start = prefix_before(&mut text, PREFIX_PART, action);
    let items = RunItems {
        prefix: &text[start..],
        space,
    };
    print_lines(out, runs, &items)
}

// The items of the runs of a slot, which all begin with the same bytes.
#[derive(Clone, Copy)]
struct RunItems<'a> {
    prefix: &'a [u8],
    space: &'a Space,
    ghost short: { length prefix.now ≤ PREFIX_PART },
}

impl LineOf<AppliedRun> for RunItems<'_> {
    ghost line = { λ items r. items.prefix.now ++ run_rest items.space.now r };

    ghost can_write = { λ items r. (1 ≤ r.pages) × (r.start + r.pages ≤ pages_of items.space.now) };

    #[inline(always)]
    fn line_before(&self, bytes: &mut [u8], end: usize, run: &AppliedRun) -> usize {
        let rest = rest_before(bytes, end, run, self.space);
        text_before(bytes, rest, self.prefix)
    }
}

// Writes the item of a run from the address after its pages on, so that it ends right before index `end`,
// and returns the index where it begins.
#[inline(always)]
fn rest_before(bytes: &mut [u8], end: usize, run: &AppliedRun, space: &Space) -> usize
    requires some { 1 ≤ run.now.pages }
    requires inside { run.now.start + run.now.pages ≤ pages_of space.now }
    requires room { REST_PART ≤ end }
    requires within { end ≤ length bytes.old }
    ensures start { result ≤ end }
    ensures most { end ≤ result + REST_PART }
    ensures written { drop result bytes.new ≡ run_rest space.now run.now ++ drop end bytes.old }
{
    let (from, to) = PageRun::of_applied(run).addresses(space);
    let first = start_before(bytes, end, from, run.target);
    let slot = short_field_before(bytes, first, b",\"slot\":", u32::from(run.slot));
    let score = short_field_before(bytes, slot, b"\",\"score\":", run.score);
    address_before(bytes, score, to)
}

// Writes the prefix of the items of the runs of a slot with this action in the same way.
fn prefix_before(bytes: &mut [u8], end: usize, action: Option<Action>) -> usize
    requires room { PREFIX_PART ≤ end }
    requires within { end ≤ length bytes.old }
    ensures start { result ≤ end }
    ensures written { drop result bytes.new ≡ run_prefix action ++ drop end bytes.old }
{
    match action {
        Some(action) => {
            let word = text_before(bytes, end, b"\",\"end\":\"");
            word_before(bytes, word, b",{\"action\":\"", action.name().as_bytes())
        }
        None => text_before(bytes, end, b",{\"action\":null,\"end\":\""),
    }
}
