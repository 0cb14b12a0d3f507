ghost use Rattle.std.specs.Prelude.{◌≡◌, ◌≤◌, replicate};
ghost use Rattle.damon_types.specs.RowPages.{working_set};
ghost use Rattle.heat_report.specs.Freq.{freqs, tenths};

use damon_types::Row;
use priority::Histogram;
use region_list::RowBuf;

/// Adds the pages of each row at the number of tenths that its count is of the `aggr` passes of an
/// aggregation, rounded down and at most 10. `aggr` is at least 1, and `out` is zeros. Takes no memory.
pub fn freq(rows: &RowBuf, aggr: u32, out: &mut Histogram<11>)
    requires aggr { 1 ≤ aggr }
    requires zeros { out.old ≡ replicate 11 0 }
    ensures { out.new ≡ freqs aggr rows.now.rows }
{
    for index in 0..rows.len() {
        let row = rows.next(index);
        out.add(tenths(&row, aggr), u64::from(row.pages));
    }
}

// The count of a row in tenths of the passes, at most 10.
fn tenths(row: &Row, aggr: u32) -> u32
    requires { 1 ≤ aggr }
    ensures exact { result ≡ tenths aggr row.now }
    ensures most { result ≤ 10 }
{
    (10 * u64::from(row.count) / u64::from(aggr)).min(10) as u32
}

/// The working set: the number of pages in rows with a count of at least 1. Takes no memory.
pub fn working_set(rows: &RowBuf) -> u64
    ensures { result ≡ working_set rows.now.rows }
{
    let mut pages = 0;
    for index in 0..rows.len() {
        let row = rows.next(index);
        if row.count >= 1 {
            pages += u64::from(row.pages);
        }
    }
    pages
}
