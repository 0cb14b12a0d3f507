// Rows in JSON.
ghost use Rattle.std.specs.Prelude.{◌≡◌, ◌+◌, ◌≤◌, ◌++◌, length, drop, OnOk};
ghost use Rattle.std.specs.List.{AllByRecursion};
ghost use Rattle.serde_json.specs.Written.{compact_text};
ghost use Rattle.damon_types.specs.Space.{pages_of};
ghost use Rattle.snapshot_print.specs.Json.{row_json, rows_json};
ghost use Rattle.line_text.specs.Appended.{KeepsFront};
ghost use Rattle.snapshot_print.specs.Pieces.{piece};
ghost use Rattle.snapshot_print.specs.declared.widths.TheConstants.{LINE, ROW_ITEM};

use crate::fields::short_field_before;
use crate::json_list::{close_list, start_before};
use crate::line_groups::LineOf;
use crate::page_run::PageRun;
use crate::row_groups::print_rows_from;
use damon_types::{Row, Space};
use line_text::address_field_before;
use region_list::RowBuf;
use std::alloc::AllocError;

// Appends the list of rows. Each row has a page, and its pages are pages of the space.
#[tactic(auto, using(line_text::proofs::Lemmas::appends))]
pub(crate) fn print_row_list(
    out: &mut Vec<u8>,
    rows: &RowBuf,
    space: &Space,
) -> Result<(), AllocError>
    requires { AllByRecursion (λ r. (1 ≤ r.pages) × (r.start + r.pages ≤ pages_of space.now))
        rows.now.rows }
    ensures ok { OnOk result
        (out.new.items ≡ out.old.items ++ compact_text (rows_json space.now rows.now.rows)) }
    ensures kept { KeepsFront out.old.items out.new.items }
{
    let start = out.len();
    print_rows_from(out, rows, 0, &RowItems { space })?;
    close_list(out, start)
}

// The items of a list of rows.
#[derive(Clone, Copy)]
struct RowItems<'a> {
    space: &'a Space,
}

impl LineOf<Row> for RowItems<'_> {
    ghost line = { λ items r. piece (row_json items.space.now r) };

    ghost can_write = { λ items r. (1 ≤ r.pages) × (r.start + r.pages ≤ pages_of items.space.now) };

    #[inline(always)]
    fn line_before(&self, bytes: &mut [u8], end: usize, row: &Row) -> usize {
        row_before(bytes, end, row, self.space)
    }
}

// Writes a comma and the object of a row so that they end right before index `end`, and returns the index
// where they begin.
#[inline(always)]
fn row_before(bytes: &mut [u8], end: usize, row: &Row, space: &Space) -> usize
    requires some { 1 ≤ row.now.pages }
    requires inside { row.now.start + row.now.pages ≤ pages_of space.now }
    requires room { LINE ≤ end }
    requires within { end ≤ length bytes.old }
    ensures start { result ≤ end }
    ensures most { end ≤ result + ROW_ITEM }
    ensures written { drop result bytes.new
        ≡ piece (row_json space.now row.now) ++ drop end bytes.old }
{
    let (from, to) = PageRun::of_row(row).addresses(space);
    let first = start_before(bytes, end, from, row.target);
    let last = short_field_before(bytes, first, b"\",\"last\":", row.last);
    let after = address_field_before(bytes, last, b",\"end\":\"", to);
    let count = short_field_before(bytes, after, b",\"count\":", row.count);
    short_field_before(bytes, count, b",{\"age\":", row.age)
}
