// The lines of entries.
ghost use Rattle.std.specs.Prelude.{◌≡◌, ◌++◌, ◌∷◌, [], map, option_map, slice_get, slice_index_or, OnOk};
ghost use Rattle.std.specs.Option.{option_copied};
ghost use Rattle.line_text.specs.Appended.{KeepsFront};
ghost use Rattle.script_lines.specs.Lines.{lines_text};
ghost use Rattle.damon_control.specs.LiveView.{call_value, calls_of, live_said};
ghost use Rattle.run_journal.specs.Replay.{call_at};
ghost use Rattle.journal_text.specs.Spelled.{answer_said, answered_lines, bit_digit, call_front, call_lines, spelled_answer, spelled_check};
ghost use Rattle.run_journal.specs.Results.{loads_in};
ghost use Rattle.journal_text.specs.Text.{entry_lines};

use crate::line_parts::{write_line, write_pair, write_pair_line};
use damon_control::{Call, CallLists, LiveScript, write_parts};
use damon_core::Changed;
use line_text::{append_field, end_line};
use run_journal::{CallAnswer, Entry, LoadRun};
use script_lines::write_number_line;
use snapshot_print::print_answer;
use std::alloc::AllocError;

// How many results are read at once.
const BLOCK: u32 = 256;

// Appends the lines of an entry, with the results of its loads.
pub(crate) fn write_entry(
    out: &mut Vec<u8>,
    script: &LiveScript,
    entry: &Entry,
    loaded: LoadRun<'_>,
) -> Result<(), AllocError>
    ensures ok { OnOk result (out.new.items ≡ out.old.items
        ++ lines_text (entry_lines (live_said script.now) (loads_in loaded.entry) entry.now)) }
    ensures kept { KeepsFront out.old.items out.new.items }
{
    match *entry {
        Entry::Prepare { pass, at } => write_pair_line(out, b"prepare ", pass, b" at ", at),
        Entry::Check { pass } => write_check(out, pass, loaded),
        Entry::Void { pass } => write_number_line(out, b"void ", pass),
        Entry::Aggregate { tick, at } => write_pair_line(out, b"aggregate ", tick, b" at ", at),
        Entry::Call {
            controller,
            index,
            answer,
        } => write_call(out, script, controller, index, answer),
    }
}

// Appends `check PASS BITS`.
#[tactic(auto, using(line_text::proofs::Lemmas::appends))]
fn write_check(out: &mut Vec<u8>, pass: u64, loaded: LoadRun<'_>) -> Result<(), AllocError>
    ensures ok { OnOk result (out.new.items
        ≡ out.old.items ++ lines_text (spelled_check pass (loads_in loaded.entry) ∷ [])) }
    ensures kept { KeepsFront out.old.items out.new.items }
{
    append_field(out, b"check ", pass)?;
    out.extend_from_slice(b" ")?;
    write_bits(out, loaded)?;
    end_line(out)
}

// Appends a digit for each result. They are read a block at a time, since a word then is loaded once for all
// of its results.
fn write_bits(out: &mut Vec<u8>, loaded: LoadRun<'_>) -> Result<(), AllocError>
    ensures ok { OnOk result (out.new.items ≡ out.old.items ++ map bit_digit (loads_in loaded.entry)) }
    ensures kept { KeepsFront out.old.items out.new.items }
{
    let mut places = [false; BLOCK as usize];
    let mut done = 0;
    'pieces: while done < loaded.len() {
        let count = (loaded.len() - done).min(BLOCK);
        let bits = &mut places[..count as usize];
        loaded.read(done, bits);
        write_digits(out, bits)?;
        done += count;
    }
    Ok(())
}

// Appends a digit for each of these results.
fn write_digits(out: &mut Vec<u8>, bits: &[bool]) -> Result<(), AllocError>
    ensures ok { OnOk result (out.new.items ≡ out.old.items ++ map bit_digit bits.now) }
    ensures kept { KeepsFront out.old.items out.new.items }
{
    out.reserve(bits.len())?;
    for k in 0..bits.len() {
        out.push_reserved(bit_digit(bits[k]));
    }
    Ok(())
}

// The digit of a result.
fn bit_digit(bit: bool) -> u8
    ensures { result ≡ bit_digit bit }
{
    if bit { b'1' } else { b'0' }
}

// Appends the lines of a call and of its answer, if the script has the call.
fn write_call(
    out: &mut Vec<u8>,
    script: &LiveScript,
    controller: u32,
    index: u32,
    answer: CallAnswer,
) -> Result<(), AllocError>
    ensures ok { OnOk result (out.new.items ≡ out.old.items
        ++ lines_text (answered_lines controller index answer
        (call_at (live_said script.now) controller index))) }
    ensures kept { KeepsFront out.old.items out.new.items }
{
    match call_at(&script.controllers, controller, index) {
        None => Ok(()),
        Some(call) => {
            write_asked(out, controller, index, call)?;
            write_answer(out, answer)
        }
    }
}

// The call of a controller with an index, if there is one.
fn call_at(lists: &CallLists, controller: u32, index: u32) -> Option<&Call>
    ensures { option_map call_value (option_copied result)
        ≡ slice_get (slice_index_or (calls_of lists.now.list) controller []) index }
{
    let calls = lists.as_slice().get(controller as usize)?;
    calls.as_slice().get(index as usize)
}

// Appends the lines of a call before its answer.
#[tactic(auto, using(line_text::proofs::Lemmas::appends))]
fn write_asked(
    out: &mut Vec<u8>,
    controller: u32,
    index: u32,
    call: &Call,
) -> Result<(), AllocError>
    ensures ok { OnOk result (out.new.items ≡ out.old.items
        ++ lines_text (call_lines controller index (call_value call.now))) }
    ensures kept { KeepsFront out.old.items out.new.items }
{
    write_front(out, controller, index)?;
    match call {
        Call::Show => write_line(out, b"show"),
        Call::Commit { commit } => {
            write_line(out, b"commit")?;
            write_parts(out, commit)?;
            write_line(out, b"apply")
        }
    }
}

// Appends `call CONTROLLER INDEX `.
#[tactic(auto, using(line_text::proofs::Lemmas::appends))]
fn write_front(out: &mut Vec<u8>, controller: u32, index: u32) -> Result<(), AllocError>
    ensures ok { OnOk result (out.new.items ≡ out.old.items ++ call_front controller index) }
    ensures kept { KeepsFront out.old.items out.new.items }
{
    append_field(out, b"call ", u64::from(controller))?;
    append_field(out, b" ", u64::from(index))?;
    out.extend_from_slice(b" ")
}

/// Appends `answer ANSWER`.
#[tactic(auto, using(line_text::proofs::Lemmas::appends))]
pub fn write_answer(out: &mut Vec<u8>, answer: CallAnswer) -> Result<(), AllocError>
    ensures ok { OnOk result (out.new.items
        ≡ out.old.items ++ lines_text (spelled_answer answer ∷ [])) }
    ensures kept { KeepsFront out.old.items out.new.items }
{
    out.extend_from_slice(b"answer ")?;
    write_said(out, answer)?;
    end_line(out)
}

// Appends what a call answered.
#[tactic(auto, using(line_text::proofs::Lemmas::appends))]
fn write_said(out: &mut Vec<u8>, answer: CallAnswer) -> Result<(), AllocError>
    ensures ok { OnOk result (out.new.items ≡ out.old.items ++ answer_said answer) }
    ensures kept { KeepsFront out.old.items out.new.items }
{
    match answer {
        CallAnswer::Shown { tick, rows } => {
            write_pair(out, b"shown tick=", tick, b" rows=", u64::from(rows))
        }
        CallAnswer::Changed { rows, void } => print_answer(out, &Ok(Changed { rows, void })),
        CallAnswer::Refused { fault } => print_answer(out, &Err(fault)),
    }
}
