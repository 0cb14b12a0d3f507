ghost use Rattle.std.specs.Prelude.{◌≡◌, ◌+◌, ◌≤◌, ◌++◌, length, drop, OnOk};
ghost use Rattle.std.specs.List.{AllByRecursion};
ghost use Rattle.damon_types.specs.Space.{pages_of};
ghost use Rattle.snapshot_print.specs.Fields.{pages_part};
ghost use Rattle.snapshot_print.specs.Lines.{count_part, place_part, row_line, row_lines};
ghost use Rattle.line_text.specs.Appended.{KeepsFront};
ghost use Rattle.snapshot_print.specs.declared.widths.TheConstants.{COUNTS_PART, PAGES_PART, PLACE_PART};

use crate::line_groups::LineOf;
use crate::page_run::PageRun;
use crate::row_groups::print_rows_from;
use damon_types::{Row, Space};
use line_text::{address_field_before, field_before, text_before};
use region_list::RowBuf;
use std::alloc::AllocError;

// Appends the lines of rows. Each row has a page, and its pages are pages of the space.
pub(crate) fn print_rows(out: &mut Vec<u8>, rows: &RowBuf, space: &Space) -> Result<(), AllocError>
    requires { AllByRecursion (λ r. (1 ≤ r.pages) × (r.start + r.pages ≤ pages_of space.now))
        rows.now.rows }
    ensures ok { OnOk result (out.new.items ≡ out.old.items ++ row_lines space.now rows.now.rows) }
    ensures kept { KeepsFront out.old.items out.new.items }
{
    print_rows_from(out, rows, 0, space)
}

impl LineOf<Row> for Space {
    ghost line = { row_line };

    ghost can_write = { λ space r. (1 ≤ r.pages) × (r.start + r.pages ≤ pages_of space) };

    #[inline(always)]
    fn line_before(&self, bytes: &mut [u8], end: usize, row: &Row) -> usize {
        let counts = counts_before(bytes, end, row);
        place_before(bytes, counts, row, self)
    }
}

// Writes ` count=.. last=.. age=..` and the line's end, so that they end right before index `end`, and
// returns the index where they begin. The functions below do the same for other parts of a line: written
// from its end to its start, no length has to be known in advance.
#[inline(always)]
fn counts_before(bytes: &mut [u8], end: usize, row: &Row) -> usize
    requires room { COUNTS_PART ≤ end }
    requires within { end ≤ length bytes.old }
    ensures start { result ≤ end }
    ensures most { end ≤ result + COUNTS_PART }
    ensures written { drop result bytes.new ≡ count_part row.now ++ drop end bytes.old }
{
    let line_end = text_before(bytes, end, b"\n");
    let age = field_before(bytes, line_end, b" age=", u64::from(row.age));
    let last = field_before(bytes, age, b" last=", u64::from(row.last));
    field_before(bytes, last, b" count=", u64::from(row.count))
}

// Writes `row TARGET START-END`.
#[inline(always)]
fn place_before(bytes: &mut [u8], end: usize, row: &Row, space: &Space) -> usize
    requires some { 1 ≤ row.now.pages }
    requires inside { row.now.start + row.now.pages ≤ pages_of space.now }
    requires room { PLACE_PART ≤ end }
    requires within { end ≤ length bytes.old }
    ensures start { result ≤ end }
    ensures most { end ≤ result + PLACE_PART }
    ensures written { drop result bytes.new ≡ place_part space.now row.now ++ drop end bytes.old }
{
    let first = pages_before(bytes, end, PageRun::of_row(row), space);
    field_before(bytes, first, b"row ", u64::from(row.target))
}

// Writes ` START-END` of consecutive pages.
#[inline(always)]
pub(crate) fn pages_before(bytes: &mut [u8], end: usize, run: PageRun, space: &Space) -> usize
    requires some { 1 ≤ run.pages }
    requires inside { run.start + run.pages ≤ pages_of space.now }
    requires room { PAGES_PART ≤ end }
    requires within { end ≤ length bytes.old }
    ensures start { result ≤ end }
    ensures most { end ≤ result + PAGES_PART }
    ensures written { drop result bytes.new ≡ pages_part space.now run.start run.pages
        ++ drop end bytes.old }
{
    let (from, to) = run.addresses(space);
    let last = address_field_before(bytes, end, b"-", to);
    address_field_before(bytes, last, b" ", from)
}
