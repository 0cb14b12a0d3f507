ghost use Rattle.std.specs.Prelude.{◌≡◌, ◌+◌, ◌≤◌, ◌++◌, length, take, drop, OnErr, OnOk};
ghost use Rattle.std.specs.List.{AllByRecursion};
ghost use Rattle.damon_types.specs.Space.{pages_of};
ghost use Rattle.damon_core.specs.Report.{report_value};
ghost use Rattle.snapshot_print.specs.Forms.{writing_of};
ghost use Rattle.snapshot_print.specs.Lines.{aggregate_line, as_text, row_lines};
ghost use Rattle.line_text.specs.Appended.{KeepsFront};
ghost use Rattle.snapshot_print.specs.Printed.{printed_monitor};
ghost use Rattle.snapshot_print.specs.declared.widths.TheConstants.{FIRST_LINE, LINE};

use crate::Form;
use crate::choice_text::print_choices;
use crate::json_lines::print_aggregate_line;
use crate::row_groups::{print_rows_from, rows_before};
use crate::row_text::print_rows;
use crate::widths::{FIRST_LINE, LINE};
use damon_core::{Monitor, Report};
use damon_types::Space;
use line_text::{field_before, text_before, whole_or_nothing};
use std::alloc::{AllocError, Global};

/// Appends the text of the last aggregation: a line with its tick, its threshold and the number of
/// rows, then the lines of the slots that it served, then a line for each row that it reported, in order.
/// A slot that was served has a line for each run of pages that its scheme was applied to, in the order of
/// application, and a line with what was chosen. After an aggregation these are the set slots, in slot
/// order. When out of memory, nothing is appended.
pub fn print_aggregate(
    alloc: Global,
    out: &mut Vec<u8>,
    form: Form,
    monitor: &Monitor,
) -> Result<(), AllocError>
    ensures ok { OnOk result (out.new.items ≡ out.old.items
        ++ (writing_of form).aggregate (printed_monitor monitor.now)) }
    ensures err { OnErr result (out.new.items ≡ out.old.items) }
{
    let before = out.len();
    let printed = match form {
        Form::Text => print_report(out, monitor),
        Form::Json => print_aggregate_line(alloc, out, monitor),
    };
    whole_or_nothing(out, before, printed)
}

// The most rows whose lines are appended together with the first line.
const FIRST_ROWS: usize = 4;

// Bytes enough for the first line and the lines of these rows.
const FIRST_ROOM: usize = FIRST_LINE + LINE * FIRST_ROWS;

// Appends the first line of an aggregation, the lines of the slots that it served, and those of the rows
// that it reported.
#[tactic(auto, using(line_text::proofs::Lemmas::appends))]
fn print_report(out: &mut Vec<u8>, monitor: &Monitor) -> Result<(), AllocError>
    ensures ok { OnOk result (out.new.items ≡ out.old.items
        ++ as_text.aggregate (printed_monitor monitor.now)) }
    ensures kept { KeepsFront out.old.items out.new.items }
{
    let report = monitor.report();
    if report.applied.choices().is_empty() {
        return print_unserved(out, monitor);
    }
    print_first_rows(out, report, 0, monitor.space())?;
    print_choices(out, &report.applied, monitor.engine(), monitor.space())?;
    print_rows(out, &report.rows, monitor.space())
}

// Appends the first line of an aggregation and the lines of its rows, the first of them together with it.
#[tactic(auto, using(line_text::proofs::Lemmas::appends))]
fn print_unserved(out: &mut Vec<u8>, monitor: &Monitor) -> Result<(), AllocError>
    ensures ok { OnOk result (out.new.items ≡ out.old.items
        ++ (aggregate_line monitor.now.core.report
        ++ row_lines monitor.now.core.space monitor.now.core.report.rows)) }
    ensures kept { KeepsFront out.old.items out.new.items }
{
    let report = monitor.report();
    let (rows, space) = (&report.rows, monitor.space());
    let count = rows.count().min(FIRST_ROWS);
    print_first_rows(out, report, count, space)?;
    print_rows_from(out, rows, count, space)
}

// Appends the first line of an aggregation and the lines of its first `count` rows.
#[tactic(auto, using(line_text::proofs::Lemmas::appends))]
fn print_first_rows(
    out: &mut Vec<u8>,
    report: &Report,
    count: usize,
    space: &Space,
) -> Result<(), AllocError>
    requires rows { AllByRecursion
        (λ r. (1 ≤ r.pages) × (r.start + r.pages ≤ pages_of space.now)) report.now.rows.rows }
    requires few { count ≤ FIRST_ROWS }
    requires within { count ≤ length report.now.rows.rows }
    ensures ok { OnOk result (out.new.items ≡ out.old.items
        ++ (aggregate_line (report_value report.now) ++ row_lines space.now (take count report.now.rows.rows))) }
    ensures kept { KeepsFront out.old.items out.new.items }
{
    let mut text = [0; FIRST_ROOM];
    let rows = rows_before(&mut text, &report.rows, 0..count, space);
    let start = first_line_before(&mut text, rows, report);
    out.extend_from_slice(&text[start..])
}

// Writes the first line of an aggregation so that it ends right before index `end`, and returns the index
// where it begins.
fn first_line_before(bytes: &mut [u8], end: usize, report: &Report) -> usize
    requires room { FIRST_LINE ≤ end }
    requires within { end ≤ length bytes.old }
    ensures start { result ≤ end }
    ensures written { drop result bytes.new ≡ aggregate_line (report_value report.now) ++ drop end bytes.old }
{
    let line_end = text_before(bytes, end, b"\n");
    let rows = field_before(bytes, line_end, b" rows=", report.rows.count() as u64);
    let threshold = field_before(bytes, rows, b" threshold=", u64::from(report.threshold));
    field_before(bytes, threshold, b"aggregate tick=", report.tick)
}
