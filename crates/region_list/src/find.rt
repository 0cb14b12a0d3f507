ghost use Rattle.std.specs.Prelude.{◌≡◌, ℕ, ◌≤◌, ◌<◌, ◌^◌, length};
ghost use Rattle.region_list.specs.Rows.{row_at};
ghost use Rattle.region_list.specs.Find.{AscendFrom, row_index};

use crate::RowBuf;

// The index of the row that holds the page. The rows ascend and do not overlap.
pub(crate) fn find_row(rows: &RowBuf, page: u32) -> Option<u32>
    requires ascending { AscendFrom 0 rows.now.rows }
    ensures { result ≡ row_index rows.now.rows page }
{
    let count = count_up_to(rows, page);
    if count == 0 {
        return None;
    }
    // For its clauses alone: the number of rows is a u32.
    let _len = rows.len();
    let row = rows.at(count - 1);
    if page - row.start < row.pages {
        Some((count - 1) as u32)
    } else {
        None
    }
}

// The number of rows that begin at or before the page, by a binary search. They are the first rows.
fn count_up_to(rows: &RowBuf, page: u32) -> usize
    requires { AscendFrom 0 rows.now.rows }
    ensures within { result ≤ length rows.now.rows }
    ensures before { (i : ℕ) → i < result → (row_at rows.now.rows i).start ≤ page }
    ensures after { (i : ℕ) → result ≤ i → i < length rows.now.rows
        → page < (row_at rows.now.rows i).start }
{
    rows.starts().partition_point(|start| *start <= page)
}
