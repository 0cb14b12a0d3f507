ghost use Rattle.std.specs.Prelude.{◌≡◌, IsSome};
ghost use Rattle.damon_types.specs.Ranges.{class_of};
ghost use Rattle.damon_types.specs.Within.{AreWithin};
ghost use Rattle.scheme_filter.specs.Passes.{answer as answer_of, applies as applies_to, is_of as is_of_kind, passes};

use damon_types::{Filter, FilterKind, Filters, Place, Ranges, Space};

/// Whether a page passes the filters of a scheme.
///
/// A filter that is matching applies to the pages of its kind, any other filter to all other pages. The
/// first filter that applies to the page decides: its `allow` is the answer. Where none applies, the
/// answer is the opposite of the last filter's `allow`. Without filters every page passes.
///
/// The ranges lie in the space, and one of them holds the page. The kinds of filters and these rules
/// are this project's own.
pub fn passes(filters: &Filters, space: &Space, ranges: &Ranges, page: u32) -> bool
    requires within { AreWithin space.now ranges.now.list }
    requires held { IsSome (class_of ranges.now.list page) }
    ensures { result ≡ passes filters.now space.now ranges.now.list page }
{
    answer(
        filters.as_slice(),
        space.addr_of(page),
        ranges.class_of(page),
    )
}

// Whether filters let a page pass, which has this place and lies in a range of this class.
pub(crate) fn answer(filters: &[Filter], place: Place, class: Option<u8>) -> bool
    ensures { result ≡ answer_of filters.now place class }
{
    match filters.iter().find(|filter| applies(filter, place, class)) {
        Some(filter) => filter.allow,
        None => filters.last().is_none_or(|last| !last.allow),
    }
}

fn applies(filter: &Filter, place: Place, class: Option<u8>) -> bool
    ensures { result ≡ applies_to filter.now place class }
{
    is_of(filter.kind, place, class) == filter.matching
}

// Whether a page is of the kind.
fn is_of(kind: FilterKind, place: Place, class: Option<u8>) -> bool
    ensures { result ≡ is_of_kind kind place class }
{
    match kind {
        FilterKind::Addr { from, to } => from <= place.addr && place.addr < to,
        FilterKind::Target { target } => place.target == target,
        FilterKind::Class { class: wanted } => class == Some(wanted),
    }
}
