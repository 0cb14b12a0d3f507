ghost use Rattle.std.specs.Prelude.{◌≡◌, ◌^◌, ◌≤◌, ◌<◌, true, false, length};
ghost use Rattle.region_list.specs.Rows.{row_at};
ghost use Rattle.range_update.specs.Order.{EndBy, RowsInOrder, row_end as row_end_of};
ghost use Rattle.range_update.specs.Updated.{covering_row as covering_row_of};

use damon_types::Row;
use region_list::RowBuf;

// The first index at or after `from` whose row ends after the page, or the number of rows.
pub(crate) fn skip_rows(rows: &RowBuf, page: u32, from: usize) -> usize
    requires order { RowsInOrder 0 rows.now.rows }
    requires within { from ≤ length rows.now.rows }
    requires past { EndBy page rows.now.rows from }
    ensures within { result ≤ length rows.now.rows }
    ensures past { EndBy page rows.now.rows result }
    ensures forward { from ≤ result }
    ensures next { result < length rows.now.rows → page < row_end_of (row_at rows.now.rows result) }
    ensures few { length rows.now.rows < 2 ^ 32 }
{
    let count = rows.len() as usize;
    'ended: for index in from..count {
        if page < row_end(rows, index) {
            return index;
        }
    }
    count
}

// Whether there is a row with this index, and it ends by the page.
pub(crate) fn ends_by(rows: &RowBuf, index: usize, page: u32) -> bool
    requires order { RowsInOrder 0 rows.now.rows }
    ensures yes { result ≡ true
        → (index < length rows.now.rows) × (row_end_of (row_at rows.now.rows index) ≤ page) }
    ensures no { result ≡ false
        → index < length rows.now.rows → page < row_end_of (row_at rows.now.rows index) }
{
    index < rows.count() && row_end(rows, index) <= page
}

// The page after the last page of the row with this index.
pub(crate) fn row_end(rows: &RowBuf, index: usize) -> u32
    requires here { index < length rows.now.rows }
    requires order { RowsInOrder 0 rows.now.rows }
    ensures { result ≡ row_end_of (row_at rows.now.rows index) }
{
    let row = rows.at(index);
    row.start + row.pages
}

// The row that covers the page. The rows before the index end by the page, and the row with the index
// ends after it, so no other row can.
pub(crate) fn covering_row(rows: &RowBuf, index: usize, page: u32) -> Option<Row>
    requires order { RowsInOrder 0 rows.now.rows }
    requires past { EndBy page rows.now.rows index }
    requires next { index < length rows.now.rows → page < row_end_of (row_at rows.now.rows index) }
    ensures { result ≡ covering_row_of rows.now.rows page }
{
    if starts_by(rows, index, page) {
        Some(rows.at(index))
    } else {
        None
    }
}

// Whether there is a row with this index, and it starts by the page.
fn starts_by(rows: &RowBuf, index: usize, page: u32) -> bool
    ensures yes { result ≡ true
        → (index < length rows.now.rows) × ((row_at rows.now.rows index).start ≤ page) }
    ensures no { result ≡ false
        → index < length rows.now.rows → page < (row_at rows.now.rows index).start }
{
    index < rows.count() && rows.at(index).start <= page
}
