ghost use Rattle.std.specs.Prelude.{◌≡◌, ◌+◌, ◌^◌, ◌<◌, ◌≤◌, [], ◌∷◌, ◌++◌, Some, length, slice_get, IfOk};
ghost use Rattle.std.specs.Option.{option_map};
ghost use Rattle.std.specs.List.Sorted.{IsPartitionPoint};
ghost use Rattle.damon_types.specs.Ranges.{RangeList, InOrder, end_of, page_total, class_of, Follows};

use crate::append_reserved;
use std::alloc::{AllocError, Global};
use std::marker::Model;

/// The greatest class of a range.
pub const MAX_CLASS: u8 = 15;

/// Consecutive pages of one target that are watched.
#[derive(Clone, Copy, Debug, PartialEq, Eq)]
pub struct Range {
    /// The target that the pages belong to.
    pub target: u32,
    /// The number of the first page.
    pub first: u32,
    /// The number of pages, at least 1.
    pub pages: u32,
    /// A label that the user gives, which filters can match.
    pub class: u8,
}

/// A range given by addresses, as the user writes it.
#[derive(Clone, Copy, Debug, PartialEq, Eq)]
pub struct RangeSpec {
    /// The target that the range lies in.
    pub target: u32,
    /// The address of the first byte, a multiple of [`PAGE_SIZE`](crate::PAGE_SIZE).
    pub from: u64,
    /// The address after the last byte, a multiple of [`PAGE_SIZE`](crate::PAGE_SIZE).
    pub to: u64,
    /// A label that the user gives, at most [`MAX_CLASS`].
    pub class: u8,
}

/// Ranges sorted by target and then by address, without overlap, with room for a fixed number of
/// them. Adjacent ranges are not joined.
#[derive(Debug, Drop)]
pub struct Ranges {
    items: Vec<Range>,
    cap: u32,
}

impl Model for Ranges {
    ghost use Rattle.damon_types.specs.Ranges.{RangeList, IsRangeList};

    ghost Value = { RangeList };

    ghost view = { λ r. record { list = r.items.items; cap = r.cap } };

    ghost use Rattle.std.specs.Prelude.{◌≤◌, vec_capacity};

    ghost invariant = { λ r. IsRangeList r.items.items r.cap (vec_capacity r.items) };
}

impl Ranges {
    /// The empty list, with room for `cap` ranges. Allocates them; no other call allocates.
    pub fn new(alloc: Global, cap: u32) -> Result<Ranges, AllocError>
        ensures { IfOk result (λ r. r ≡ record { list = []; cap = cap }) }
    {
        let items = Vec::with_capacity(alloc, cap as usize)?;
        Ok(Ranges { items, cap })
    }

    /// How many ranges fit.
    pub fn cap(&self) -> u32
        ensures { result ≡ self.now.cap }
    {
        self.cap
    }

    /// The number of ranges.
    pub fn len(&self) -> u32
        ensures len { result ≡ length self.now.list }
        ensures room { result ≤ self.now.cap }
        ensures order { InOrder self.now.list }
    {
        self.items.len() as u32
    }

    /// The range with this index, which must be below [`Ranges::len`].
    pub fn get(&self, index: u32) -> Range
        requires { index < length self.now.list }
        ensures { slice_get self.now.list index ≡ Some result }
    {
        self.items[index as usize]
    }

    /// The page after the last page of the range with this index, which must be below [`Ranges::len`].
    pub fn end(&self, index: u32) -> u32
        requires { index < length self.now.list }
        ensures end { option_map end_of (slice_get self.now.list index) ≡ Some result }
        ensures order { InOrder self.now.list }
        ensures few { length self.now.list < 2 ^ 32 }
    {
        let range = self.items[index as usize];
        range.first + range.pages
    }

    /// Empties the list.
    pub fn clear(&mut self)
        ensures { self.new ≡ record self.old { list = [] } }
    {
        self.items.clear();
    }

    /// Appends a range. It must have a page, end before page 2^32, and come after the last range of
    /// the list: at or after its end, and of its target or a later one. There must be room for it.
    pub fn push(&mut self, range: Range)
        requires room { length self.old.list < self.old.cap }
        requires pages { 1 ≤ range.pages }
        requires end { range.first + range.pages < 2 ^ 32 }
        requires after { Follows self.old.list range }
        ensures { self.new ≡ record self.old { list = self.old.list ++ range ∷ [] } }
    {
        self.items.push_reserved(range);
    }

    /// Replaces the list by that of `other`, which must fit.
    pub fn copy_from(&mut self, other: &Ranges)
        requires { length other.now.list ≤ self.old.cap }
        ensures list { self.new ≡ record self.old { list = other.now.list } }
        ensures order { InOrder other.now.list }
    {
        self.items.clear();
        append_reserved(&mut self.items, &other.items);
    }

    /// The number of pages of all ranges.
    pub fn total(&self) -> u32
        ensures total { result ≡ page_total self.now.list }
        ensures order { InOrder self.now.list }
    {
        self.items.iter().map(|range| range.pages).sum()
    }

    /// The class of the range that holds the page, or `None` if no range does.
    pub fn class_of(&self, page: u32) -> Option<u8>
        ensures { result ≡ class_of self.now.list page }
    {
        let begun = self.begun_at(page);
        if begun == 0 {
            return None;
        }
        let range = self.items[begun - 1];
        if page < range.first + range.pages {
            Some(range.class)
        } else {
            None
        }
    }

    // How many ranges begin at or before the page.
    fn begun_at(&self, page: u32) -> usize
        ensures within { result ≤ length self.now.list }
        ensures parts { IsPartitionPoint
            (λ g. g.first ≤ page) (λ g. page < g.first) self.now.list result }
        ensures order { InOrder self.now.list }
    {
        self.items.partition_point(|range| range.first <= page)
    }
}
