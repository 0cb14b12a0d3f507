// The lines of a report as JSON, each an object. The lists of choices and of set slots are made by
// `serde_json`, and all else is written directly.
ghost use Rattle.std.specs.Prelude.{◌≡◌, ◌++◌, codes, OnOk};
ghost use Rattle.std.specs.Fmt.{decimal};
ghost use Rattle.snapshot_print.specs.Json.{as_json};
ghost use Rattle.line_text.specs.Appended.{KeepsFront};
ghost use Rattle.snapshot_print.specs.Pieces.{served_part};
ghost use Rattle.snapshot_print.specs.Printed.{printed_monitor};

use crate::commit::append_answer;
use crate::fields::print_word;
use crate::json_choices::print_choice_list;
use crate::json_rows::print_row_list;
use crate::json_runs::print_run_list;
use crate::json_slots::print_slot_list;
use crate::show::phase_name;
use damon_core::{Changed, Monitor};
use line_text::append_field;
use live_commit::CommitFault;
use std::alloc::{AllocError, Global};

// Appends the line of a show.
#[tactic(auto, using(line_text::proofs::Lemmas::appends))]
pub(crate) fn print_show_line(
    alloc: Global,
    out: &mut Vec<u8>,
    monitor: &Monitor,
) -> Result<(), AllocError>
    ensures ok { OnOk result (out.new.items ≡ out.old.items
        ++ as_json.show (printed_monitor monitor.now)) }
    ensures kept { KeepsFront out.old.items out.new.items }
{
    let phase = phase_name(monitor.phase()).as_bytes();
    print_word(out, b"{\"kind\":\"show\",\"phase\":\"", phase)?;
    out.extend_from_slice(b"\",\"rows\":")?;
    print_row_list(out, monitor.rows().rows(), monitor.space())?;
    out.extend_from_slice(b",\"slots\":")?;
    print_slot_list(alloc, out, monitor.engine())?;
    print_last_count(out, b",\"tick\":", monitor.ticks())
}

// Appends the line of the last aggregation.
#[tactic(auto, using(line_text::proofs::Lemmas::appends))]
pub(crate) fn print_aggregate_line(
    alloc: Global,
    out: &mut Vec<u8>,
    monitor: &Monitor,
) -> Result<(), AllocError>
    ensures ok { OnOk result (out.new.items ≡ out.old.items
        ++ as_json.aggregate (printed_monitor monitor.now)) }
    ensures kept { KeepsFront out.old.items out.new.items }
{
    let report = monitor.report();
    print_served(alloc, out, monitor)?;
    out.extend_from_slice(b",\"kind\":\"aggregate\",\"rows\":")?;
    print_row_list(out, &report.rows, monitor.space())?;
    append_field(out, b",\"threshold\":", u64::from(report.threshold))?;
    print_last_count(out, b",\"tick\":", report.tick)
}

// Appends the beginning of the line of the last aggregation: what the slots that it served were applied
// to, and what was chosen for them.
#[tactic(auto, using(line_text::proofs::Lemmas::appends))]
fn print_served(alloc: Global, out: &mut Vec<u8>, monitor: &Monitor) -> Result<(), AllocError>
    ensures ok { OnOk result (out.new.items ≡ out.old.items ++ served_part (printed_monitor monitor.now)) }
    ensures kept { KeepsFront out.old.items out.new.items }
{
    let applied = &monitor.report().applied;
    out.extend_from_slice(b"{\"applied\":")?;
    print_run_list(out, applied.runs(), monitor.engine(), monitor.space())?;
    out.extend_from_slice(b",\"choices\":")?;
    print_choice_list(alloc, out, applied.choices())
}

// Appends the last member of an object, a number, and the ends of the object and the line.
#[tactic(auto, using(line_text::proofs::Lemmas::appends))]
fn print_last_count(out: &mut Vec<u8>, name: &[u8], count: u64) -> Result<(), AllocError>
    ensures ok { OnOk result
        (out.new.items ≡ out.old.items ++ (name.now ++ (decimal count ++ codes "}\n"))) }
    ensures kept { KeepsFront out.old.items out.new.items }
{
    append_field(out, name, count)?;
    out.extend_from_slice(b"}\n")
}

// Appends the line of a commit.
#[tactic(auto, using(line_text::proofs::Lemmas::appends))]
pub(crate) fn print_commit_line(
    out: &mut Vec<u8>,
    tick: u64,
    answer: &Result<Changed, CommitFault>,
) -> Result<(), AllocError>
    ensures ok { OnOk result (out.new.items ≡ out.old.items
        ++ as_json.commit tick answer.now) }
    ensures kept { KeepsFront out.old.items out.new.items }
{
    out.extend_from_slice(b"{\"answer\":\"")?;
    append_answer(out, answer)?;
    out.extend_from_slice(b"\",\"kind\":\"commit\"")?;
    print_last_count(out, b",\"tick\":", tick)
}

// Appends the last line of a report.
#[tactic(auto, using(line_text::proofs::Lemmas::appends))]
pub(crate) fn print_end_line(out: &mut Vec<u8>, monitor: &Monitor) -> Result<(), AllocError>
    ensures ok { OnOk result (out.new.items ≡ out.old.items
        ++ as_json.end (printed_monitor monitor.now)) }
    ensures kept { KeepsFront out.old.items out.new.items }
{
    append_field(out, b"{\"checks\":", monitor.checks())?;
    append_field(out, b",\"hits\":", monitor.hits())?;
    let rows = monitor.rows().len();
    append_field(out, b",\"kind\":\"end\",\"rows\":", u64::from(rows))?;
    print_last_count(out, b",\"ticks\":", monitor.ticks())
}
