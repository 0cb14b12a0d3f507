ghost use Rattle.std.specs.Prelude.{◌≡◌, ◌≤◌, ◌<◌, ◌++◌, length, OnOk, OnErr, IsPermutation, codes};
ghost use Rattle.std.specs.List.{AllByRecursion};
ghost use Rattle.damon_types.specs.declared.attrs.TheConstants.{MAX_AGGR};
ghost use Rattle.heat_report.specs.InSpace.{LieIn};
ghost use Rattle.line_text.specs.Appended.{KeepsFront};
ghost use Rattle.heat_report.specs.Sizes.{spread_of};
ghost use Rattle.heat_report.specs.Text.{freq_line, heat_line, heat_lines, last_line, numbers, report_text, spread_part, wss_line};

use crate::{Sizes, Spread, freq, heat_row, working_set};
use damon_types::Space;
use line_text::{append_field, end_line, whole_or_nothing};
use priority::Histogram;
use region_list::RowBuf;
use std::alloc::AllocError;

/// Appends the tables of a report at a tick: for each target in order `heat TICK TARGET` and the heat of
/// its `N` columns, then `freq TICK` and 11 numbers of pages, and then `wss TICK PAGES`. `N` is from 1 to
/// 4,096; the rows lie in the space and are disjoint, their counts are at most 1,000, and an aggregation
/// has `aggr` passes, at least 1. Takes memory; on an error `out` is unchanged.
pub fn write_report<const N: usize>(
    tick: u64,
    rows: &RowBuf,
    space: &Space,
    aggr: u32,
    out: &mut Vec<u8>,
) -> Result<(), AllocError>
    requires some { 1 ≤ N }
    requires few { N ≤ 4096 }
    requires aggr { 1 ≤ aggr }
    requires rows { LieIn space.now rows.now.rows }
    requires counts { AllByRecursion (λ r. r.count ≤ MAX_AGGR) rows.now.rows }
    ensures ok { OnOk result (out.new.items
        ≡ out.old.items ++ report_text N tick rows.now.rows space.now aggr) }
    ensures err { OnErr result (out.new.items ≡ out.old.items) }
{
    let before = out.len();
    let written = append_report::<N>(tick, rows, space, aggr, out);
    whole_or_nothing(out, before, written)
}

/// Appends the last line: `all reports=N` and the spread of the working sets of all reports,
/// `least=P median=P greatest=P`, where there is a report. The sizes are put into another order. Takes
/// memory; on an error `out` is unchanged.
pub fn write_last(sizes: &mut Sizes, out: &mut Vec<u8>) -> Result<(), AllocError>
    ensures ok { OnOk result (out.new.items ≡ out.old.items ++ last_line sizes.old) }
    ensures err { OnErr result (out.new.items ≡ out.old.items) }
    ensures same { IsPermutation sizes.old sizes.new }
{
    let before = out.len();
    let written = append_last(sizes, out);
    whole_or_nothing(out, before, written)
}

// Appends the tables of a report.
fn append_report<const N: usize>(
    tick: u64,
    rows: &RowBuf,
    space: &Space,
    aggr: u32,
    out: &mut Vec<u8>,
) -> Result<(), AllocError>
    requires some { 1 ≤ N }
    requires few { N ≤ 4096 }
    requires aggr { 1 ≤ aggr }
    requires rows { LieIn space.now rows.now.rows }
    requires counts { AllByRecursion (λ r. r.count ≤ MAX_AGGR) rows.now.rows }
    ensures ok { OnOk result (out.new.items
        ≡ out.old.items ++ report_text N tick rows.now.rows space.now aggr) }
    ensures kept { KeepsFront out.old.items out.new.items }
{
    append_heat_lines::<N>(tick, rows, space, out)?;
    append_freq_line(tick, rows, aggr, out)?;
    append_wss_line(tick, rows, out)
}

// Appends the heat lines of all targets.
fn append_heat_lines<const N: usize>(
    tick: u64,
    rows: &RowBuf,
    space: &Space,
    out: &mut Vec<u8>,
) -> Result<(), AllocError>
    requires some { 1 ≤ N }
    requires few { N ≤ 4096 }
    requires rows { LieIn space.now rows.now.rows }
    requires counts { AllByRecursion (λ r. r.count ≤ MAX_AGGR) rows.now.rows }
    ensures ok { OnOk result (out.new.items
        ≡ out.old.items ++ heat_lines N tick rows.now.rows space.now) }
    ensures kept { KeepsFront out.old.items out.new.items }
{
    for target in 0..space.targets() {
        append_heat_line::<N>(tick, rows, space, target, out)?;
    }
    Ok(())
}

// Appends the heat line of a target.
fn append_heat_line<const N: usize>(
    tick: u64,
    rows: &RowBuf,
    space: &Space,
    target: u32,
    out: &mut Vec<u8>,
) -> Result<(), AllocError>
    requires some { 1 ≤ N }
    requires few { N ≤ 4096 }
    requires target { target < length space.now }
    requires rows { LieIn space.now rows.now.rows }
    requires counts { AllByRecursion (λ r. r.count ≤ MAX_AGGR) rows.now.rows }
    ensures ok { OnOk result (out.new.items
        ≡ out.old.items ++ heat_line N tick rows.now.rows space.now target) }
    ensures kept { KeepsFront out.old.items out.new.items }
{
    let mut heat = Histogram::<N>::new();
    heat_row(rows, space, target, &mut heat);
    append_field(out, b"heat ", tick)?;
    append_field(out, b" ", u64::from(target))?;
    append_numbers(heat.sums(), out)
}

// Appends the line of the frequencies.
fn append_freq_line(
    tick: u64,
    rows: &RowBuf,
    aggr: u32,
    out: &mut Vec<u8>,
) -> Result<(), AllocError>
    requires { 1 ≤ aggr }
    ensures ok { OnOk result (out.new.items ≡ out.old.items ++ freq_line tick aggr rows.now.rows) }
    ensures kept { KeepsFront out.old.items out.new.items }
{
    let mut tenths = Histogram::<11>::new();
    freq(rows, aggr, &mut tenths);
    append_field(out, b"freq ", tick)?;
    append_numbers(tenths.sums(), out)
}

// Appends the line of the working set.
fn append_wss_line(tick: u64, rows: &RowBuf, out: &mut Vec<u8>) -> Result<(), AllocError>
    ensures ok { OnOk result (out.new.items ≡ out.old.items ++ wss_line tick rows.now.rows) }
    ensures kept { KeepsFront out.old.items out.new.items }
{
    append_field(out, b"wss ", tick)?;
    append_field(out, b" ", working_set(rows))?;
    end_line(out)
}

// Appends the last line.
fn append_last(sizes: &mut Sizes, out: &mut Vec<u8>) -> Result<(), AllocError>
    ensures ok { OnOk result (out.new.items ≡ out.old.items ++ last_line sizes.old) }
    ensures kept { KeepsFront out.old.items out.new.items }
    ensures same { IsPermutation sizes.old sizes.new }
{
    let spread = sizes.spread();
    append_field(out, b"all reports=", sizes.len() as u64)?;
    append_spread(spread, out)?;
    end_line(out)
}

// Appends a spread, where there is one.
fn append_spread(spread: Option<Spread>, out: &mut Vec<u8>) -> Result<(), AllocError>
    ensures ok { OnOk result (out.new.items ≡ out.old.items ++ spread_part spread) }
    ensures kept { KeepsFront out.old.items out.new.items }
{
    let Some(spread) = spread else {
        return Ok(());
    };
    append_field(out, b" least=", spread.least)?;
    append_field(out, b" median=", spread.median)?;
    append_field(out, b" greatest=", spread.greatest)
}

// Appends numbers, each after a space, and the line's end.
fn append_numbers(sums: &[u64], out: &mut Vec<u8>) -> Result<(), AllocError>
    ensures ok { OnOk result (out.new.items ≡ out.old.items ++ (numbers sums.now ++ codes "\n")) }
    ensures kept { KeepsFront out.old.items out.new.items }
{
    'sums: for sum in sums {
        append_field(out, b" ", *sum)?;
    }
    end_line(out)
}
