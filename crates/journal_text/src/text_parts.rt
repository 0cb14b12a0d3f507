// The text of a journal, a piece at a time.
ghost use Rattle.std.specs.Prelude.{◌≡◌, ◌≢◌, ℕ, ◌≤◌, ◌<◌, ◌++◌, [], false, Ok, IfOk, OnErr, OnOk, length, vec_len};
ghost use Rattle.std.specs.List.{AllByRecursion};
ghost use Rattle.damon_types.specs.Space.{pages_of};
ghost use Rattle.line_text.specs.Appended.{KeepsFront};
ghost use Rattle.damon_core.specs.Stands.{Stands};
ghost use Rattle.damon_control.specs.LiveView.{live_said};
ghost use Rattle.run_journal.specs.Lawful.{all_of, receipts_said};
ghost use Rattle.run_journal.specs.Replay.{check_sizes, replay};
ghost use Rattle.journal_text.specs.Text.{journal_text};
ghost use Rattle.journal_text.specs.TextParts.{AreResultsOf, IsPlaceOf, IsRecorded, is_end, steps_left, text_left};
ghost use Rattle.journal_text.specs.declared.text_parts.Part.TheVariants.{Head as head, Entries as entries, Receipts as seen, Last as last};

use crate::entry_lines::write_entry;
use crate::line_parts::write_line;
use crate::seen_lines::{OwnReceipts, write_seen};
use damon_control::{LiveScript, write_journal_head};
use damon_core::Monitor;
use run_journal::{Journal, Receipts, Results};
use snapshot_print::{Form, print_end, print_show};
use std::alloc::{AllocError, Global};
use std::marker::Model;
use text_io::{Filled, PIECE, TextSource};

// A run as it was recorded, from which the text of its journal is written.
#[derive(Clone, Copy)]
pub(crate) struct Recorded<'a> {
    pub(crate) script: &'a LiveScript,
    pub(crate) journal: &'a Journal,
    pub(crate) receipts: &'a Receipts,
    pub(crate) monitor: &'a Monitor,
}

// A place in the text of a journal, between two lines.
#[derive(Clone, Copy)]
pub(crate) enum Part<'a> {
    // Before the first line.
    Head,
    // Before the entry with this index, with the results of the checks from there on.
    Entries { next: usize, results: Results<'a> },
    // Before a receipt of a worker, or before the line after all receipts.
    Receipts { worker: u32, next: u32 },
    // Before what is shown of the monitor.
    Last,
    // After the last line.
    End,
}

/// The text of a journal that is given piece by piece. It is never in memory as a whole.
#[derive(Drop)]
pub struct TextParts<'a> {
    run: Recorded<'a>,
    part: Part<'a>,
}

impl<'a> Model for TextParts<'a> {
    ghost use Rattle.std.specs.Prelude.{ℕ, List};
    ghost use Rattle.journal_text.specs.TextParts.{IsPlaceOf, IsRecorded, text_left};

    ghost Value = { List ℕ };

    ghost view = { λ p. text_left p.run p.part };

    ghost invariant = { λ p. IsRecorded p.run × IsPlaceOf p.run p.part };
}

impl<'a> TextParts<'a> {
    /// All of the text that [`journal_text`](crate::journal_text) appends, of which nothing is given yet. As
    /// there, the monitor is in the state that the journal's replay gives, and the page of each receipt is a
    /// page of the script's space. Takes no memory.
    pub fn new(
        script: &'a LiveScript,
        journal: &'a Journal,
        receipts: &'a Receipts,
        monitor: &'a Monitor,
    ) -> TextParts<'a>
        requires sizes { journal.now.checked ≡ check_sizes (live_said script.now) journal.now.value }
        requires stands { Stands monitor.now (replay (live_said script.now) journal.now.value).state }
        requires pages { AllByRecursion (λ r. r.page < pages_of script.now.setup.space)
            (all_of (receipts_said receipts.now)) }
        ensures { result ≡ journal_text (live_said script.now) journal.now.value
            (receipts_said receipts.now) }
    {
        TextParts {
            run: Recorded {
                script,
                journal,
                receipts,
                monitor,
            },
            part: Part::Head,
        }
    }

    /// Appends the next whole lines to `out`, until `out` has [`PIECE`] bytes or more, or no line is left.
    /// Takes memory for them. Where it runs out, what stood in `out` still does, and the text that is left
    /// is the same as before.
    pub fn fill(&mut self, alloc: Global, out: &mut Vec<u8>) -> Result<Filled, AllocError>
        // What was appended and what is left are together what was left.
        ensures ok { OnOk result (out.new.items ++ self.new ≡ out.old.items ++ self.old) }
        ensures kept { KeepsFront out.old.items out.new.items }
        ensures piece { result ≡ Ok Filled.Piece → PIECE ≤ vec_len out.new }
        ensures more { result ≡ Ok Filled.Piece → self.new ≢ [] }
        ensures end { result ≡ Ok Filled.End → self.new ≡ [] }

        // It comes nearer to the end of the text.
        ensures less { result ≡ Ok Filled.Piece → vec_len out.old < PIECE →
            length self.new < length self.old }
        ensures err { OnErr result (self.new ≡ self.old) }
    {
        self.part = write_to(alloc, out, &self.run, self.part, PIECE)?;
        Ok(if is_end(self.part) {
            Filled::End
        } else {
            Filled::Piece
        })
    }
}

impl TextSource for TextParts<'_> {
    ghost use Rattle.std.specs.Prelude.{◌≡◌, length};

    ghost left = { λ s text. s ≡ text };

    ghost steps = { λ s. length s };

    fn fill(&mut self, alloc: Global, out: &mut Vec<u8>) -> Result<Filled, AllocError> {
        self.fill(alloc, out)
    }
}

// Appends whole lines from a place on, until `out` has `limit` bytes or the text ends, and returns the place
// after them.
pub(crate) fn write_to<'a>(
    alloc: Global,
    out: &mut Vec<u8>,
    run: &Recorded<'a>,
    part: Part<'a>,
    limit: usize,
) -> Result<Part<'a>, AllocError>
    requires recorded { IsRecorded run.now }
    requires place { IsPlaceOf run.now part }
    ensures ok { IfOk result (λ next.
        out.new.items ++ text_left run.now next ≡ out.old.items ++ text_left run.now part.entry) }
    ensures place { IfOk result (IsPlaceOf run.now) }
    ensures stops { IfOk result (λ next. is_end next ≡ false → limit ≤ vec_len out.new) }
    ensures kept { KeepsFront out.old.items out.new.items }
{
    let mut next = part;
    'parts: while !is_end(next) && out.len() < limit {
        next = write_part(alloc, out, run, next, limit)?;
    }
    Ok(next)
}

// Whether the text ends at a place.
fn is_end(part: Part<'_>) -> bool
    ensures { result ≡ is_end part.entry }
{
    matches!(part, Part::End)
}

// Appends the next lines of one part of the text, until `out` has `limit` bytes or the part ends.
fn write_part<'a>(
    alloc: Global,
    out: &mut Vec<u8>,
    run: &Recorded<'a>,
    part: Part<'a>,
    limit: usize,
) -> Result<Part<'a>, AllocError>
    requires recorded { IsRecorded run.now }
    requires place { IsPlaceOf run.now part }
    requires some { is_end part ≡ false }
    requires room { vec_len out.old < limit }
    ensures ok { IfOk result (λ next.
        out.new.items ++ text_left run.now next ≡ out.old.items ++ text_left run.now part.entry) }
    ensures place { IfOk result (IsPlaceOf run.now) }
    ensures less { IfOk result (λ next. steps_left run.now limit (vec_len out.new) next
        < steps_left run.now limit (vec_len out.old) part.entry) }
    ensures kept { KeepsFront out.old.items out.new.items }
{
    match part {
        Part::Head => write_head(out, run),
        Part::Entries { next, results } => write_entries(out, run, next, results, limit),
        Part::Receipts { worker, next } => write_receipts(out, run, worker, next, limit),
        Part::Last => write_last(alloc, out, run),
        Part::End => Ok(Part::End),
    }
}

// Appends the lines before the first entry.
fn write_head<'a>(out: &mut Vec<u8>, run: &Recorded<'a>) -> Result<Part<'a>, AllocError>
    requires { IsRecorded run.now }
    ensures ok { IfOk result (λ next.
        out.new.items ++ text_left run.now next ≡ out.old.items ++ text_left run.now head) }
    ensures place { IfOk result (IsPlaceOf run.now) }
    ensures less { IfOk result (λ next. (limit : ℕ) → steps_left run.now limit (vec_len out.new) next
        < steps_left run.now limit (vec_len out.old) head) }
    ensures kept { KeepsFront out.old.items out.new.items }
{
    let script = run.script;
    write_journal_head(out, script.seed, &script.setup)?;
    Ok(Part::Entries {
        next: 0,
        results: Results {
            sizes: run.journal.checked(),
            loads: run.journal.loads(),
        },
    })
}

// Appends the lines of the entries from one on, until `out` has `limit` bytes or no entry is left. After the
// last one stands the line before the receipts.
fn write_entries<'a>(
    out: &mut Vec<u8>,
    run: &Recorded<'a>,
    next: usize,
    results: Results<'a>,
    limit: usize,
) -> Result<Part<'a>, AllocError>
    requires recorded { IsRecorded run.now }
    requires place { AreResultsOf (live_said run.now.script.now) run.now.journal.now.value next results }
    requires room { vec_len out.old < limit }
    ensures ok { IfOk result (λ part. out.new.items ++ text_left run.now part
        ≡ out.old.items ++ text_left run.now (entries next results.entry)) }
    ensures place { IfOk result (IsPlaceOf run.now) }
    ensures less { IfOk result (λ part. steps_left run.now limit (vec_len out.new) part
        < steps_left run.now limit (vec_len out.old) (entries next results.entry)) }
    ensures kept { KeepsFront out.old.items out.new.items }
{
    let entries = run.journal.entries();
    let (mut at, mut left) = (next, results);
    'entries: while at < entries.len() {
        if out.len() >= limit {
            return Ok(Part::Entries {
                next: at,
                results: left,
            });
        }
        let (loaded, rest) = left.split(&entries[at]);
        write_entry(out, run.script, &entries[at], loaded)?;
        left = rest;
        at += 1;
    }
    write_line(out, b"receipts")?;
    Ok(Part::Receipts { worker: 0, next: 0 })
}

// Appends the lines of the receipts of a worker from one on, until `out` has `limit` bytes or none of them is
// left. After the last worker stands the line before the last ones.
fn write_receipts<'a>(
    out: &mut Vec<u8>,
    run: &Recorded<'a>,
    worker: u32,
    next: u32,
    limit: usize,
) -> Result<Part<'a>, AllocError>
    requires recorded { IsRecorded run.now }
    requires room { vec_len out.old < limit }
    ensures ok { IfOk result (λ part.
        out.new.items ++ text_left run.now part ≡ out.old.items ++ text_left run.now (seen worker next)) }
    ensures place { IfOk result (IsPlaceOf run.now) }
    ensures less { IfOk result (λ part. steps_left run.now limit (vec_len out.new) part
        < steps_left run.now limit (vec_len out.old) (seen worker next)) }
    ensures kept { KeepsFront out.old.items out.new.items }
{
    if worker >= run.receipts.len() {
        write_line(out, b"settled")?;
        return Ok(Part::Last);
    }
    let own = OwnReceipts {
        space: &run.script.setup.space,
        worker,
        receipts: run.receipts.get(worker),
    };
    let at = write_seen(out, &own, next, limit)?;
    if at < own.receipts.len() {
        return Ok(Part::Receipts { worker, next: at });
    }
    Ok(Part::Receipts {
        worker: worker + 1,
        next: 0,
    })
}

// Appends what is shown of the monitor.
fn write_last<'a>(
    alloc: Global,
    out: &mut Vec<u8>,
    run: &Recorded<'a>,
) -> Result<Part<'a>, AllocError>
    requires { IsRecorded run.now }
    ensures ok { IfOk result (λ next.
        out.new.items ++ text_left run.now next ≡ out.old.items ++ text_left run.now last) }
    ensures place { IfOk result (IsPlaceOf run.now) }
    ensures less { IfOk result (λ next. (limit : ℕ) → steps_left run.now limit (vec_len out.new) next
        < steps_left run.now limit (vec_len out.old) last) }
    ensures kept { KeepsFront out.old.items out.new.items }
{
    print_show(alloc, out, Form::Text, run.monitor)?;
    print_end(alloc, out, Form::Text, run.monitor)?;
    Ok(Part::End)
}
