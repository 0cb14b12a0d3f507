ghost use Rattle.std.specs.Prelude.{◌≡◌, ◌++◌, IfOk, OnOk};
ghost use Rattle.snapshot_print.specs.Printed.{printed_monitor};
ghost use Rattle.damon_app.specs.Generated.{applied_in, gen_line, gen_text, run_part, totals_part};

use damon_core::Monitor;
use line_text::{append_field, end_line};
use scheme_engine::SlotView;
use script_run::play_to_end;
use std::alloc::{AllocError, Global};
use trace_gen::generate;

// The line of the generated script of a number.
pub(crate) fn make_summary(alloc: Global, number: u64) -> Result<Vec<u8>, AllocError>
    ensures { IfOk result (λ line. line.items ≡ gen_text number) }
{
    let script = generate(alloc, number)?;
    let player = play_to_end(alloc, script)?;
    let mut line = Vec::new(alloc);
    print_line(&mut line, number, player.monitor())?;
    Ok(line)
}

// Appends the line of a generated script, by the monitor at the end of its run.
fn print_line(out: &mut Vec<u8>, number: u64, monitor: &Monitor) -> Result<(), AllocError>
    ensures { OnOk result (out.new.items
        ≡ out.old.items ++ gen_line number (printed_monitor monitor.now)) }
{
    print_run(out, number, monitor)?;
    print_totals(out, monitor)
}

// Appends the number, the ticks and the regions.
fn print_run(out: &mut Vec<u8>, number: u64, monitor: &Monitor) -> Result<(), AllocError>
    ensures { OnOk result (out.new.items
        ≡ out.old.items ++ run_part number (printed_monitor monitor.now)) }
{
    append_field(out, b"gen ", number)?;
    append_field(out, b" ticks=", monitor.ticks())?;
    append_field(out, b" rows=", u64::from(monitor.rows().len()))
}

// Appends the checks and hits, the pages to which slot 0 was applied, and the line's end.
fn print_totals(out: &mut Vec<u8>, monitor: &Monitor) -> Result<(), AllocError>
    ensures { OnOk result (out.new.items
        ≡ out.old.items ++ totals_part (printed_monitor monitor.now)) }
{
    append_field(out, b" checks=", monitor.checks())?;
    append_field(out, b" hits=", monitor.hits())?;
    append_field(out, b" applied=", applied(monitor))?;
    end_line(out)
}

// The pages to which slot 0 was applied.
fn applied(monitor: &Monitor) -> u64
    ensures { result ≡ applied_in monitor.now.slots 0 }
{
    match monitor.engine().slot(0) {
        Some(SlotView { applied, .. }) => applied,
        None => 0,
    }
}
