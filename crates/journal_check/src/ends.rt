// The two ends of a journal text: its head, and what is printed of its last state.
ghost use Rattle.std.specs.Prelude.{◌≡◌, ℕ, List, ◌+◌, ◌≤◌, ◌++◌, length, IfErr, IfOk, OnOk, Ok};
ghost use Rattle.line_text.specs.Parts.{parts};
ghost use Rattle.damon_core.specs.Stands.{Stands};
ghost use Rattle.damon_core.specs.State.{State};
ghost use Rattle.damon_control.specs.JournalHead.{head_said};
ghost use Rattle.damon_control.specs.Script.{head_of};
ghost use Rattle.journal_check.specs.EndsOfText.{HeadIsSkipped, Tells, head_fault, said_after_head};
ghost use Rattle.journal_check.specs.LinesLeft.{FaultIs, IsFault, IsShort, said_left};
ghost use Rattle.journal_text.specs.Place.{AtLast, JournalRead};
ghost use Rattle.journal_text.specs.Reading.{read_journal, said_from};
ghost use Rattle.journal_text.specs.Text.{last_text};

use crate::journal_lines::JournalLines;
use damon_control::{JournalHead, MAX_BYTES, ReadFail, read_journal_head};
use damon_core::Monitor;
use line_text::split_line;
use run_journal::VerifyFault;
use script_lines::same_word;
use snapshot_print::{Form, print_end, print_show};
use std::alloc::Global;

// Reads the head of a text, up to its first line `begin`, or the whole text where it has none; returns
// it with the lines after it.
pub(crate) fn open_text(
    alloc: Global,
    bytes: &[u8],
) -> Result<(JournalHead, JournalLines), VerifyFault>
    requires { length bytes.now ≤ MAX_BYTES }
    ensures head { IfOk result (λ x. read_journal bytes.now ≡ said_after_head x.1 (head_said x.0)) }
    ensures short { IfOk result (λ x. IsShort x.1) }
    ensures fault { FaultIs result (read_journal bytes.now) }
{
    let (head, lines) = split_head(bytes);
    match read_journal_head(alloc, head) {
        Ok(head) => Ok((head, lines)),
        Err(fail) => Err(fault_of(fail)),
    }
}

// The fault of a text whose head was not read.
fn fault_of(fail: ReadFail) -> VerifyFault
    ensures { result ≡ head_fault fail }
{
    match fail {
        ReadFail::Script { fault } => VerifyFault::Unlawful { line: fault.line },
        ReadFail::Memory => VerifyFault::Memory,
    }
}

// The head of a text and the lines after it. Where no line is `begin`, no head is read of the text.
fn split_head(bytes: &[u8]) -> (&[u8], JournalLines)
    requires { length bytes.now ≤ MAX_BYTES }
    ensures tells { Tells (head_of result.0.now) (said_after_head result.1)
        (read_journal bytes.now) }
    ensures short { IsShort result.1 }
    ensures within { length result.0.now ≤ length bytes.now }
{
    let mut lines = JournalLines {
        rest: bytes,
        taken: 0,
    };
    if skip_head(&mut lines) {
        (before(bytes, lines.rest), lines)
    } else {
        (bytes, lines)
    }
}

// Takes the lines up to the first `begin`, and with it; returns whether there is one.
fn skip_head(lines: &mut JournalLines) -> bool
    requires { IsShort lines.old }
    ensures skipped { HeadIsSkipped result lines.old lines.new }
    ensures short { IsShort lines.new }
    ensures shorter { length lines.new.rest.now ≤ length lines.old.rest.now }
{
    'lines: loop {
        let (line, rest) = split_line(lines.rest);
        let Some(rest) = rest else {
            return false;
        };
        lines.rest = rest;
        lines.taken += 1;
        if same_word(line, b"begin") {
            return true;
        }
    }
}

// What some bytes begin with, before the rest with which they end.
fn before<'a>(bytes: &'a [u8], rest: &[u8]) -> &'a [u8]
    requires { length rest.now ≤ length bytes.now }
    ensures front { (front : List ℕ) → bytes.now ≡ front ++ rest.now → result.now ≡ front }
    ensures within { length result.now ≤ length bytes.now }
{
    let length = bytes.len() - rest.len();
    &bytes[..length]
}

// Compares what is left of a text with what is printed of the last state.
pub(crate) fn compare_last(
    alloc: Global,
    monitor: &Monitor,
    lines: JournalLines,
) -> Result<(), VerifyFault>
    requires { IsShort lines }
    ensures ok { OnOk result ((s : State) (said : JournalRead) → Stands monitor.now s
        → said_left (AtLast said (parts 10 (last_text s))) lines.entry ≡ Ok said) }
    ensures fault { IfErr result (λ fault. (s : State) (said : JournalRead) → Stands monitor.now s
        → IsFault fault (said_left (AtLast said (parts 10 (last_text s))) lines.entry)) }
{
    let mut wanted = Vec::new(alloc);
    print_show(alloc, &mut wanted, Form::Text, monitor)?;
    print_end(alloc, &mut wanted, Form::Text, monitor)?;
    compare(lines.rest, &wanted, lines.taken)
}

// Compares two texts line by line; the first line that differs is rejected.
fn compare(text: &[u8], wanted: &[u8], taken: u64) -> Result<(), VerifyFault>
    requires { taken + length text.now ≤ MAX_BYTES }
    ensures ok { OnOk result ((said : JournalRead) →
        said_from (taken + 1) (AtLast said (parts 10 wanted.now)) (parts 10 text.now) ≡ Ok said) }
    ensures fault { IfErr result (λ fault. (said : JournalRead) → IsFault fault
        (said_from (taken + 1) (AtLast said (parts 10 wanted.now)) (parts 10 text.now))) }
{
    let mut lines = JournalLines { rest: text, taken };
    let mut left = wanted;
    'lines: loop {
        let (want, after) = split_line(left);
        let (line, rest) = split_line(lines.rest);
        lines.taken += 1;
        if !same_word(line, want) {
            return Err(lines.refuse());
        }
        match (rest, after) {
            (Some(rest), Some(after)) => {
                lines.rest = rest;
                left = after;
            }
            (None, None) => return Ok(()),
            (Some(_), None) => return Err(lines.refuse()),
            (None, Some(_)) => return Err(lines.refuse()),
        }
    }
}
