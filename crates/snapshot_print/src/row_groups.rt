// Lines of rows, which are appended in groups.
ghost use Rattle.std.specs.Prelude.{◌≡◌, ◌+◌, ◌-◌, ◌*◌, ◌≤◌, ◌++◌, length, take, drop, flat_map, OnOk};
ghost use Rattle.std.specs.List.{AllByRecursion};
ghost use Rattle.line_text.specs.Appended.{KeepsFront};
ghost use Rattle.snapshot_print.specs.declared.widths.TheConstants.{LINE};

use crate::line_groups::{GROUP_ROOM, LINES_AT_ONCE, LineOf};
use damon_types::Row;
use region_list::RowBuf;
use std::alloc::AllocError;
use std::ops::Range;

// Appends the lines of the rows from index `from` on, a group at a time.
pub(crate) fn print_rows_from<L: LineOf<Row>>(
    out: &mut Vec<u8>,
    rows: &RowBuf,
    from: usize,
    line_of: &L,
) -> Result<(), AllocError>
    requires within { from ≤ length rows.now.rows }
    requires rows { AllByRecursion (L.can_write line_of.now) rows.now.rows }
    ensures ok { OnOk result (out.new.items
        ≡ out.old.items ++ flat_map (L.line line_of.now) (drop from rows.now.rows)) }
    ensures kept { KeepsFront out.old.items out.new.items }
{
    // Without rows, no buffer is cleared.
    if from == rows.count() {
        return Ok(());
    }
    let mut lines = [0; GROUP_ROOM];
    let mut next = from;
    'groups: while next < rows.count() {
        let count = (rows.count() - next).min(LINES_AT_ONCE);
        let start = rows_before(&mut lines, rows, next..next + count, line_of);
        out.extend_from_slice(&lines[start..])?;
        next += count;
    }
    Ok(())
}

// Writes the lines of the rows with these indexes so that they end where the buffer ends, and returns the
// index where they begin: from the last row to the first, each line ends where the next one begins.
pub(crate) fn rows_before<L: LineOf<Row>>(
    lines: &mut [u8],
    rows: &RowBuf,
    indexes: Range<usize>,
    line_of: &L,
) -> usize
    requires order { indexes.start ≤ indexes.end }
    requires within { indexes.end ≤ length rows.now.rows }
    requires rows { AllByRecursion (L.can_write line_of.now) rows.now.rows }
    requires room { LINE * (indexes.end - indexes.start) ≤ length lines.old }
    ensures start { result ≤ length lines.new }
    ensures most { length lines.new ≤ result + LINE * (indexes.end - indexes.start) }
    ensures written { drop result lines.new ≡ flat_map (L.line line_of.now)
        (take (indexes.end - indexes.start) (drop indexes.start rows.now.rows)) }
{
    let mut start = lines.len();
    let mut index = indexes.end;
    'rows: while index > indexes.start {
        index -= 1;
        start = line_of.line_before(lines, start, &rows.at(index));
    }
    start
}
