ghost use Rattle.std.specs.Prelude.{◌≡◌, ◌<◌, ◌≤◌, [], ◌∷◌, ◌++◌, length, slice_get, IsOk, OnOk, OnErr, ◌↔◌};

use std::marker::Model;

/// The most filters of a scheme.
pub const MAX_FILTERS: usize = 8;

/// The pages that a filter is about.
#[derive(Clone, Copy, Debug, PartialEq, Eq)]
pub enum FilterKind {
    /// Those whose address is at least `from` and below `to`, two multiples of
    /// [`PAGE_SIZE`](crate::PAGE_SIZE).
    Addr { from: u64, to: u64 },
    /// Those of one target.
    Target { target: u32 },
    /// Those of ranges of one class, at most [`MAX_CLASS`](crate::MAX_CLASS).
    Class { class: u8 },
}

/// A filter of pages. If `matching`, it applies to the pages of its kind, else to all other pages.
/// The first filter of a scheme that applies to a page decides whether the page passes.
#[derive(Clone, Copy, Debug, PartialEq, Eq)]
pub struct Filter {
    /// Whether the pages that it applies to pass.
    pub allow: bool,
    /// Whether it applies to the pages of its kind, rather than to all others.
    pub matching: bool,
    pub kind: FilterKind,
}

/// A list of filters holds [`MAX_FILTERS`] already.
#[derive(Clone, Copy, Debug, PartialEq, Eq)]
pub struct Full;

/// A list of at most [`MAX_FILTERS`] filters, which does not allocate.
#[derive(Clone, Copy, Debug, PartialEq, Eq)]
pub struct Filters {
    // Places after the last filter hold UNUSED, so that the derived == compares the filters alone.
    places: [Filter; MAX_FILTERS],
    len: u32,
}

const UNUSED: Filter = Filter {
    allow: false,
    matching: false,
    kind: FilterKind::Class { class: 0 },
};

impl Model for Filters {
    ghost use Rattle.std.specs.Prelude.{List, take, length};
    ghost use Rattle.damon_types.specs.declared.filter.Filter.{Filter};
    ghost use Rattle.damon_types.specs.Filters.{IsPadded, padded};

    ghost Value = { List Filter };

    ghost view = { λ f. take f.len f.places };

    ghost invariant = { λ f. IsPadded f.places f.len };

    ghost inverse = { λ filters. record { places = padded filters; len = length filters } };
}

impl Filters {
    /// The empty list.
    pub fn new() -> Filters
        ensures { result ≡ [] }
    {
        Filters {
            places: [UNUSED; MAX_FILTERS],
            len: 0,
        }
    }

    /// The number of filters.
    pub fn len(&self) -> u32
        ensures len { result ≡ length self.now }
        ensures most { result ≤ MAX_FILTERS }
    {
        self.len
    }

    /// The filter with this index, which must be below [`Filters::len`].
    pub fn get(&self, index: u32) -> Filter
        requires { index < length self.now }
        ensures { slice_get self.now index ≡ Some result }
    {
        self.places[index as usize]
    }

    /// The filters in order.
    pub fn as_slice(&self) -> &[Filter]
        ensures items { result.now ≡ self.now }
        ensures most { length result.now ≤ MAX_FILTERS }
    {
        &self.places[..self.len as usize]
    }

    /// Appends a filter. Fails exactly if the list holds [`MAX_FILTERS`]; it is then unchanged.
    pub fn push(&mut self, filter: Filter) -> Result<(), Full>
        ensures room { IsOk result ↔ (length self.old < MAX_FILTERS) }
        ensures ok { OnOk result (self.new ≡ self.old ++ filter ∷ []) }
        ensures full { OnErr result (self.new ≡ self.old) }
    {
        if self.len as usize == MAX_FILTERS {
            return Err(Full);
        }
        self.places[self.len as usize] = filter;
        self.len += 1;
        Ok(())
    }
}
