ghost use Rattle.std.specs.Prelude.{◌≡◌, ◌+◌, ◌≤◌, ◌<◌, ◌^◌};
ghost use Rattle.heat_report.specs.Heat.{border};
ghost use Rattle.heat_report.specs.Overlap.{pages_in};

use damon_types::Row;

// The pages of a target, divided into columns.
#[derive(Clone, Copy)]
pub(crate) struct Columns {
    // The first page.
    pub(crate) first: u32,
    // The number of pages.
    pub(crate) pages: u32,
    // The number of columns.
    pub(crate) number: u32,
}

impl Columns {
    // Where a column begins, which is also where the column before it ends.
    #[inline]
    pub(crate) fn border(&self, column: u32) -> u32
        requires within { column ≤ self.now.number }
        requires some { 1 ≤ self.now.number }
        requires fits { self.now.first + self.now.pages < 2 ^ 32 }
        ensures exact { result ≡ border self.now.first self.now.pages self.now.number column }
        ensures most { result ≤ self.now.first + self.now.pages }
    {
        let before = u64::from(column) * u64::from(self.pages) / u64::from(self.number);
        self.first + before as u32
    }

    // How many pages of a row lie in a column.
    #[inline]
    pub(crate) fn pages_in(&self, column: u32, row: &Row) -> u32
        requires within { column < self.now.number }
        requires fits { self.now.first + self.now.pages < 2 ^ 32 }
        requires row { row.now.start + row.now.pages < 2 ^ 32 }
        ensures exact { result
            ≡ pages_in self.now.first self.now.pages self.now.number column row.now }
        ensures most { result ≤ row.now.pages }
    {
        let from = self.border(column).max(row.start);
        let to = self.border(column + 1).min(row.start + row.pages);
        to.saturating_sub(from)
    }
}
