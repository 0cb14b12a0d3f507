ghost use Rattle.std.specs.Prelude.{◌≡◌, ◌&&◌};
ghost use Rattle.scheme_match.specs.Match.{is_in_span, is_match};

use damon_types::{Pattern, Row, Span};

/// Whether a row matches a pattern: its size in pages, its count in passes and its age in
/// aggregations each lie in their span. Both ends belong to a span; this rule is the project's own.
pub fn matches(pattern: &Pattern, row: &Row) -> bool
    ensures { result ≡ is_match pattern.now row.now }
{
    fits(*pattern, row.pages, row.count, row.age)
}

// Whether a row of these pages, this count and this age matches a pattern.
pub(crate) fn fits(pattern: Pattern, pages: u32, count: u32, age: u32) -> bool
    ensures { result
        ≡ (is_in_span pattern.size pages && is_in_span pattern.count count
        && is_in_span pattern.age age) }
{
    // `&` and not `&&`: no branches, so that a loop over rows can test several at once.
    contains(pattern.size, pages) & contains(pattern.count, count) & contains(pattern.age, age)
}

// Whether a number lies in a span.
fn contains(span: Span, number: u32) -> bool
    ensures { result ≡ is_in_span span number }
{
    (span.low <= number) & (number <= span.high)
}
