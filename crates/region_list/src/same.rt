ghost use Rattle.std.specs.Prelude.{◌≡◌, ◌&&◌};
ghost use Rattle.damon_types.specs.Span.{spans};
ghost use Rattle.region_list.specs.Same.{same_spans as same_spans_of};

use crate::RowBuf;

/// Whether the rows have the same targets and pages, one by one; their counts and ages are not
/// compared.
pub fn same_spans(a: &RowBuf, b: &RowBuf) -> bool
    ensures { result ≡ same_spans_of (spans a.now.rows) (spans b.now.rows) }
{
    let starts = a.starts() == b.starts();
    let pages = a.pages() == b.pages();
    let targets = a.targets() == b.targets();
    all_three(starts, pages, targets)
}

// Whether all three are true.
fn all_three(first: bool, second: bool, third: bool) -> bool
    ensures { result ≡ (first && (second && third)) }
{
    first && second && third
}
