// Consecutive pages, as rows and the runs of schemes have them, and their addresses.
ghost use Rattle.std.specs.Prelude.{◌≡◌, ◌+◌, ◌*◌, ◌≤◌};
ghost use Rattle.damon_types.specs.Space.{pages_of};
ghost use Rattle.snapshot_print.specs.Fields.{page_address};

use damon_types::{PAGE_SIZE, Row, Space};
use scheme_engine::AppliedRun;

// Consecutive pages of a target. Their address is looked for in that target first.
#[derive(Clone, Copy)]
pub(crate) struct PageRun {
    pub(crate) target: u32,
    pub(crate) start: u32,
    pub(crate) pages: u32,
}

impl PageRun {
    // The pages of a row.
    #[inline(always)]
    pub(crate) fn of_row(row: &Row) -> PageRun
        ensures start { result.start ≡ row.now.start }
        ensures pages { result.pages ≡ row.now.pages }
    {
        PageRun {
            target: row.target,
            start: row.start,
            pages: row.pages,
        }
    }

    // The pages that a scheme was applied to.
    #[inline(always)]
    pub(crate) fn of_applied(run: &AppliedRun) -> PageRun
        ensures start { result.start ≡ run.now.start }
        ensures pages { result.pages ≡ run.now.pages }
    {
        PageRun {
            target: run.target,
            start: run.start,
            pages: run.pages,
        }
    }

    // The address of the first byte, and the address after the pages.
    #[inline(always)]
    pub(crate) fn addresses(self, space: &Space) -> (u64, u64)
        requires some { 1 ≤ self.pages }
        requires inside { self.start + self.pages ≤ pages_of space.now }
        ensures first { result.0 ≡ page_address space.now self.start }
        ensures after { result.1 ≡ page_address space.now self.start + 4096 * self.pages }
    {
        let from = space.addr_near(self.target, self.start).addr;
        (from, from + PAGE_SIZE * u64::from(self.pages))
    }
}
