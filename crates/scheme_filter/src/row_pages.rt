// The pages of a row, and where filters may begin or cease to apply among them.
ghost use Rattle.std.specs.Prelude.{◌≡◌, ◌≤◌};
ghost use Rattle.scheme_filter.specs.RowPages.{IsFirstWith, IsRowPages, PassesChange, changes, first_after, nearer as nearer_of, page_from as page_from_addr, place_at as place_of_page};

use crate::decision::answer;
use damon_types::{Filter, FilterKind, PAGE_SIZE, Place};

/// The pages of a row. They follow each other in one target and in one range.
#[derive(Clone, Copy)]
pub(crate) struct RowPages {
    /// The first page.
    pub(crate) start: u32,
    /// The page after the last one.
    pub(crate) end: u32,
    /// The place of the first page.
    pub(crate) first: Place,
    /// The class of the range, as `Ranges::class_of` gives it.
    pub(crate) class: Option<u8>,
}

impl RowPages {
    /// The first page at or after `from` for which filters have this answer, or the end of the row.
    pub(crate) fn first_with(&self, filters: &[Filter], wanted: bool, from: u32) -> u32
        requires row { IsRowPages self.now }
        requires start { self.now.start ≤ from }
        requires end { from ≤ self.now.end }
        ensures first { IsFirstWith filters.now self.now wanted from result }
        ensures change { PassesChange filters.now self.now from result }
    {
        let mut page = from;
        'pages: while page < self.end
            && answer(filters, self.place_at(page), self.class) != wanted
        {
            page = self.next_change(filters, page);
        }
        page
    }

    fn place_at(&self, page: u32) -> Place
        requires row { IsRowPages self.now }
        requires within { self.now.start ≤ page }
        ensures { result ≡ place_of_page self.now page }
    {
        Place {
            addr: self.first.addr + PAGE_SIZE * u64::from(page - self.start),
            ..self.first
        }
    }

    // The first page after `after` at which a filter may begin or cease to apply, or the end of the row.
    fn next_change(&self, filters: &[Filter], after: u32) -> u32
        requires { self.now.start ≤ self.now.end }
        ensures { result ≡ first_after after self.now.end (changes self.now filters.now) }
    {
        let mut next = self.end;
        for filter in filters {
            if let FilterKind::Addr { from, to } = filter.kind {
                next = nearer(after, self.page_from(from), next);
                next = nearer(after, self.page_from(to), next);
            }
        }
        next
    }

    // The first page of the row whose address is not below this one, or the end of the row.
    fn page_from(&self, addr: u64) -> u32
        requires { self.now.start ≤ self.now.end }
        ensures { result ≡ page_from_addr self.now addr }
    {
        let pages = addr.saturating_sub(self.first.addr).div_ceil(PAGE_SIZE);
        self.start + pages.min(u64::from(self.end - self.start)) as u32
    }
}

// The lesser of page `next` and a page after `after`.
fn nearer(after: u32, page: u32, next: u32) -> u32
    ensures { result ≡ nearer_of after page next }
{
    if after < page { page.min(next) } else { next }
}
