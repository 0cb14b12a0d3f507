ghost use Rattle.std.specs.Prelude.{◌≡◌, ℕ, ◌+◌, ◌*◌, ◌≤◌, ◌<◌, ◌^◌, List, length, replicate, slice_index, sum, take, drop};
ghost use Rattle.std.specs.List.{AllByRecursion};
ghost use Rattle.damon_types.specs.declared.attrs.TheConstants.{MAX_AGGR};
ghost use Rattle.damon_types.specs.RowPages.{row_pages};
ghost use Rattle.region_list.specs.Find.{AscendFrom};
ghost use Rattle.heat_report.specs.InSpace.{LieIn};
ghost use Rattle.heat_report.specs.Heat.{border, target_heats};
ghost use Rattle.heat_report.specs.Overlap.{added, pages_in};

use crate::columns::Columns;
use damon_types::{Row, Space};
use priority::Histogram;
use region_list::RowBuf;

/// Adds the heat of the `N` columns of a target, where `N` is from 1 to 4,096. Column j of a target with
/// P pages has those from its page j × P / N to before its page (j + 1) × P / N, both rounded down. Its
/// heat is the sum, over its pages, of the count of the row that holds the page; a page that no row holds
/// adds 0. The target is one of the space, `out` is zeros, the rows lie in the space and are disjoint, and
/// their counts are at most 1,000. Takes no memory.
pub fn heat_row<const N: usize>(rows: &RowBuf, space: &Space, target: u32, out: &mut Histogram<N>)
    requires some { 1 ≤ N }
    requires few { N ≤ 4096 }
    requires target { target < length space.now }
    requires zeros { out.old ≡ replicate N 0 }
    requires rows { LieIn space.now rows.now.rows }
    requires counts { AllByRecursion (λ r. r.count ≤ MAX_AGGR) rows.now.rows }
    ensures { out.new ≡ target_heats rows.now.rows space.now target N }
{
    let columns = Columns {
        first: space.first_page(target),
        pages: space.target(target).pages,
        number: N as u32,
    };
    let from = rows_before(rows, columns.first);
    add_rows(rows, from, &columns, out);
}

// The number of rows that begin before a page. They are the first rows.
fn rows_before(rows: &RowBuf, page: u32) -> usize
    requires { AscendFrom 0 rows.now.rows }
    ensures within { result ≤ length rows.now.rows }
    ensures before { AllByRecursion (λ r. r.start < page) (take result rows.now.rows) }
    ensures after { AscendFrom page (drop result rows.now.rows) }
{
    rows.starts().partition_point(|start| *start < page)
}

// Adds the heat of the rows from index `from` on, which begin at or after the first page.
fn add_rows<const N: usize>(rows: &RowBuf, from: usize, columns: &Columns, out: &mut Histogram<N>)
    requires some { 1 ≤ N }
    requires few { N ≤ 4096 }
    requires number { columns.now.number ≡ N }
    requires pages { columns.now.first + columns.now.pages < 2 ^ 32 }
    requires within { from ≤ length rows.now.rows }
    requires ascend { AscendFrom columns.now.first (drop from rows.now.rows) }
    requires rows { AllByRecursion (λ r. r.start + r.pages < 2 ^ 32) (drop from rows.now.rows) }
    requires counts { AllByRecursion (λ r. r.count ≤ MAX_AGGR) (drop from rows.now.rows) }
    requires len { length out.old ≡ N }
    requires fits { sum out.old + MAX_AGGR * row_pages (drop from rows.now.rows) < 2 ^ 64 }
    ensures len { length out.new ≡ N }
    ensures heat { (j : ℕ) → j < N → slice_index out.new j ≡ slice_index out.old j
        + added columns.now.first columns.now.pages N j (drop from rows.now.rows) }
{
    let end = columns.first + columns.pages;
    let mut column = 0;
    let mut index = from;
    'rows: while index < rows.count() {
        let row = rows.at(index);
        if row.start >= end {
            break;
        }
        column = add_row(&row, column, columns, out);
        index += 1;
    }
}

// Adds the heat of a row, which begins in the column `from` or after it, and returns the column in which
// it ends.
fn add_row<const N: usize>(row: &Row, from: u32, columns: &Columns, out: &mut Histogram<N>) -> u32
    requires few { N ≤ 4096 }
    requires number { columns.now.number ≡ N }
    requires pages { columns.now.first + columns.now.pages < 2 ^ 32 }
    requires from { from < N }
    requires after { border columns.now.first columns.now.pages N from ≤ row.now.start }
    requires row { row.now.start + row.now.pages < 2 ^ 32 }
    requires len { length out.old ≡ N }
    requires fits { sum out.old + row.now.count * row.now.pages < 2 ^ 64 }
    ensures column { result < N }
    ensures begun { border columns.now.first columns.now.pages N result
        ≤ row.now.start + row.now.pages }
    ensures len { length out.new ≡ N }
    ensures sum { sum out.new ≤ sum out.old + row.now.count * row.now.pages }
    ensures heat { (j : ℕ) → j < N → slice_index out.new j ≡ slice_index out.old j
        + row.now.count * pages_in columns.now.first columns.now.pages N j row.now }
{
    let end = row.start + row.pages;
    let mut column = from;
    'columns: loop {
        let pages = columns.pages_in(column, row);
        out.add(column, u64::from(row.count) * u64::from(pages));
        if column + 1 == columns.number || columns.border(column + 1) >= end {
            return column;
        }
        column += 1;
    }
}
