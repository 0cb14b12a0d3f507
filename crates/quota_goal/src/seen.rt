ghost use Rattle.std.specs.Prelude.{◌≡◌, ◌≤◌};
ghost use Rattle.damon_types.specs.RowPages.{row_pages};
ghost use Rattle.quota_goal.specs.Seen.{seen, thousandths};

use region_list::RowBuf;

/// The shares of hot and of cold pages in thousandths, each rounded down.
#[derive(Clone, Copy, Debug, PartialEq, Eq)]
pub struct Seen {
    /// The share of the pages in rows with a count of at least 1.
    pub hot: u32,
    /// The share of the pages in rows with count 0.
    pub cold: u32,
}

/// The shares of hot and of cold pages among those of the rows, which have at least one page in all. Takes
/// no memory.
pub fn seen_in(rows: &RowBuf) -> Seen
    requires { 1 ≤ row_pages rows.now.rows }
    ensures { result ≡ seen rows.now.rows }
{
    let mut hot = 0;
    let mut cold = 0;
    for index in 0..rows.len() {
        let row = rows.next(index);
        if row.count >= 1 {
            hot += u64::from(row.pages);
        } else {
            cold += u64::from(row.pages);
        }
    }
    Seen {
        hot: thousandths(hot, hot + cold),
        cold: thousandths(cold, hot + cold),
    }
}

// A part of a whole in thousandths, rounded down.
fn thousandths(part: u64, whole: u64) -> u32
    requires some { 1 ≤ whole }
    requires within { part ≤ whole }
    ensures { result ≡ thousandths part whole }
{
    (1000 * u128::from(part) / u128::from(whole)) as u32
}
