// The lines of the slots that an aggregation served.
ghost use Rattle.std.specs.Prelude.{◌≡◌, ◌+◌, ◌≤◌, ◌++◌, length, drop, flat_map, OnOk};
ghost use Rattle.std.specs.List.{AllByRecursion};
ghost use Rattle.damon_types.specs.Space.{pages_of};
ghost use Rattle.snapshot_print.specs.Fields.{number_or_none};
ghost use Rattle.snapshot_print.specs.Schemes.{action_in, apply_line, apply_part, choice_lines, choice_part, choices_text, run_part, runs_of_slot, slot_line, taken_part};
ghost use Rattle.line_text.specs.Appended.{KeepsFront};
ghost use Rattle.snapshot_print.specs.declared.widths.TheConstants.{APPLY_PART, RUN_PART, SLOT_LINE, TAKEN_PART};

use crate::fields::word_before;
use crate::line_groups::{LineOf, print_lines};
use crate::page_run::PageRun;
use crate::row_text::pages_before;
use crate::widths::{APPLY_PART, SLOT_LINE};
use damon_types::{Action, Space};
use line_text::{field_before, number_before, text_before};
use scheme_engine::{Applied, AppliedRun, Engine, SlotChoice};
use std::alloc::AllocError;

// Appends the lines of choices in order, each with its runs, which are in slot order like the choices.
// Each run has a page, and its pages are pages of the space.
pub(crate) fn print_choices(
    out: &mut Vec<u8>,
    applied: &Applied,
    engine: &Engine,
    space: &Space,
) -> Result<(), AllocError>
    requires { AllByRecursion
        (λ r. (1 ≤ r.pages) × (r.start + r.pages ≤ pages_of space.now)) applied.now.runs }
    ensures ok { OnOk result (out.new.items ≡ out.old.items
        ++ choices_text space.now engine.now.slots applied.now.runs applied.now.choices) }
    ensures kept { KeepsFront out.old.items out.new.items }
{
    let mut left = applied.runs();
    'choices: for choice in applied.choices() {
        let (own, others) = left.split_at(count_runs(left, choice.slot));
        print_choice(out, choice, own, engine, space)?;
        left = others;
    }
    Ok(())
}

// How many of the runs, from the first on, are of this slot.
pub(crate) fn count_runs(runs: &[AppliedRun], slot: u8) -> usize
    ensures count { result ≡ runs_of_slot slot runs.now }
    ensures within { result ≤ length runs.now }
{
    runs.iter().take_while(|run| run.slot == slot).count()
}

// Appends the lines of a choice with these runs, if its slot is set.
fn print_choice(
    out: &mut Vec<u8>,
    choice: &SlotChoice,
    runs: &[AppliedRun],
    engine: &Engine,
    space: &Space,
) -> Result<(), AllocError>
    requires { AllByRecursion
        (λ r. (1 ≤ r.pages) × (r.start + r.pages ≤ pages_of space.now)) runs.now }
    ensures ok { OnOk result (out.new.items ≡ out.old.items
        ++ choice_lines space.now engine.now.slots runs.now choice.now) }
    ensures kept { KeepsFront out.old.items out.new.items }
{
    let Some(action) = action_in(engine, choice.slot) else {
        return Ok(());
    };
    print_runs(out, runs, choice.slot, action, space)?;
    print_slot_line(out, choice)
}

// The action of the scheme in the slot with this number, if it is set.
pub(crate) fn action_in(engine: &Engine, slot: u8) -> Option<Action>
    ensures { result ≡ action_in engine.now.slots slot }
{
    if usize::from(slot) >= engine.slots() {
        return None;
    }
    engine.slot(slot).map(|view| view.action)
}

// Appends the `apply` lines of runs of a slot whose scheme has this action.
fn print_runs(
    out: &mut Vec<u8>,
    runs: &[AppliedRun],
    slot: u8,
    action: Action,
    space: &Space,
) -> Result<(), AllocError>
    requires { AllByRecursion
        (λ r. (1 ≤ r.pages) × (r.start + r.pages ≤ pages_of space.now)) runs.now }
    ensures ok { OnOk result (out.new.items
        ≡ out.old.items ++ flat_map (apply_line space.now slot action) runs.now) }
    ensures kept { KeepsFront out.old.items out.new.items }
{
    let mut text = [0; APPLY_PART];
    let start = apply_before(&mut text, APPLY_PART, slot, action);
    let lines = RunLines {
        apply: &text[start..],
        space,
    };
    print_lines(out, runs, &lines)
}

// The lines of the runs of a slot, which all begin with the same bytes.
#[derive(Clone, Copy)]
struct RunLines<'a> {
    apply: &'a [u8],
    space: &'a Space,
    ghost short: { length apply.now ≤ APPLY_PART },
}

impl LineOf<AppliedRun> for RunLines<'_> {
    ghost line = { λ lines r. lines.apply.now ++ run_part lines.space.now r };

    ghost can_write = { λ lines r. (1 ≤ r.pages) × (r.start + r.pages ≤ pages_of lines.space.now) };

    #[inline(always)]
    fn line_before(&self, bytes: &mut [u8], end: usize, run: &AppliedRun) -> usize {
        let pages = run_before(bytes, end, run, self.space);
        text_before(bytes, pages, self.apply)
    }
}

// Writes `TARGET START-END score=..` and the line's end so that they end right before index `end`, and
// returns the index where they begin. The functions below do the same for other parts of lines.
#[inline(always)]
fn run_before(bytes: &mut [u8], end: usize, run: &AppliedRun, space: &Space) -> usize
    requires some { 1 ≤ run.now.pages }
    requires inside { run.now.start + run.now.pages ≤ pages_of space.now }
    requires room { RUN_PART ≤ end }
    requires within { end ≤ length bytes.old }
    ensures start { result ≤ end }
    ensures most { end ≤ result + RUN_PART }
    ensures written { drop result bytes.new ≡ run_part space.now run.now ++ drop end bytes.old }
{
    let line_end = text_before(bytes, end, b"\n");
    let score = field_before(bytes, line_end, b" score=", u64::from(run.score));
    let pages = pages_before(bytes, score, PageRun::of_applied(run), space);
    number_before(bytes, pages, u64::from(run.target))
}

// Writes `apply SLOT ACTION ` with a space at its end.
fn apply_before(bytes: &mut [u8], end: usize, slot: u8, action: Action) -> usize
    requires room { APPLY_PART ≤ end }
    requires within { end ≤ length bytes.old }
    ensures start { result ≤ end }
    ensures written { drop result bytes.new ≡ apply_part slot action ++ drop end bytes.old }
{
    let space = text_before(bytes, end, b" ");
    let word = word_before(bytes, space, b" ", action.name().as_bytes());
    field_before(bytes, word, b"apply ", u64::from(slot))
}

// Appends the `slot` line of a choice.
fn print_slot_line(out: &mut Vec<u8>, choice: &SlotChoice) -> Result<(), AllocError>
    ensures ok { OnOk result (out.new.items ≡ out.old.items ++ slot_line choice.now) }
    ensures kept { KeepsFront out.old.items out.new.items }
{
    let mut text = [0; SLOT_LINE];
    let start = slot_line_before(&mut text, SLOT_LINE, choice);
    out.extend_from_slice(&text[start..])
}

// Writes the `slot` line of a choice.
fn slot_line_before(bytes: &mut [u8], end: usize, choice: &SlotChoice) -> usize
    requires room { SLOT_LINE ≤ end }
    requires within { end ≤ length bytes.old }
    ensures start { result ≤ end }
    ensures written { drop result bytes.new ≡ slot_line choice.now ++ drop end bytes.old }
{
    let line_end = text_before(bytes, end, b"\n");
    let chosen = choice_before(bytes, line_end, choice);
    field_before(bytes, chosen, b"slot ", u64::from(choice.slot))
}

// Writes what was chosen, or that the slot was inactive.
fn choice_before(bytes: &mut [u8], end: usize, choice: &SlotChoice) -> usize
    requires room { TAKEN_PART ≤ end }
    requires within { end ≤ length bytes.old }
    ensures start { result ≤ end }
    ensures most { end ≤ result + TAKEN_PART }
    ensures written { drop result bytes.new ≡ choice_part choice.now ++ drop end bytes.old }
{
    if choice.active {
        taken_before(bytes, end, choice)
    } else {
        text_before(bytes, end, b" inactive")
    }
}

// Writes ` left=.. taken=.. lowest=..`.
fn taken_before(bytes: &mut [u8], end: usize, choice: &SlotChoice) -> usize
    requires room { TAKEN_PART ≤ end }
    requires within { end ≤ length bytes.old }
    ensures start { result ≤ end }
    ensures most { end ≤ result + TAKEN_PART }
    ensures written { drop result bytes.new ≡ taken_part choice.now ++ drop end bytes.old }
{
    let lowest = option_before(bytes, end, b" lowest=", choice.lowest.map(u64::from));
    let taken = field_before(bytes, lowest, b" taken=", choice.taken);
    option_before(bytes, taken, b" left=", choice.left)
}

// Writes a field's name, and a number or `none`.
fn option_before(bytes: &mut [u8], end: usize, name: &[u8], value: Option<u64>) -> usize
    requires room { length name.now + 20 ≤ end }
    requires within { end ≤ length bytes.old }
    ensures start { result ≤ end }
    ensures most { end ≤ result + (length name.now + 20) }
    ensures written { drop result bytes.new
        ≡ name.now ++ (number_or_none value ++ drop end bytes.old) }
{
    match value {
        Some(value) => field_before(bytes, end, name, value),
        None => word_before(bytes, end, name, b"none"),
    }
}
