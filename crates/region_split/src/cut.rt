ghost use Rattle.std.specs.Prelude.{◌≡◌, ◌+◌, ◌-◌, ◌≤◌, ◌<◌, ◌^◌};
ghost use Rattle.region_split.specs.Cut.{cut_place as cut_place_of, may_cut as may_cut_at, left_side, right_side};

use damon_types::Row;
use std::marker::Model;

/// The limits of a split: the most rows, and the minimum size of a row in pages.
#[derive(Clone, Copy)]
pub(crate) struct Limits {
    pub(crate) max: u32,
    pub(crate) unit: u32,
}

impl Model for Limits {
    ghost use Rattle.region_split.specs.Cut.{SplitLimits};

    ghost Value = { SplitLimits };

    ghost view = { λ l. record { max = l.max; unit = l.unit } };

    ghost inverse = { λ l. record { max = l.max; unit = l.unit } };
}

// After how many of its pages a word cuts a row.
pub(crate) fn cut_place(pages: u32, word: u32) -> u32
    ensures exact { result ≡ cut_place_of pages word }
    ensures within { result ≤ pages }
{
    (u64::from(1 + word % 9) * u64::from(pages) / 10) as u32
}

// Whether a row may be cut after `at` of its pages, `count` being the number of rows now.
pub(crate) fn may_cut(limits: Limits, count: usize, pages: u32, at: u32) -> bool
    requires { at ≤ pages }
    ensures { result ≡ may_cut_at limits count pages at }
{
    count < limits.max as usize && at >= limits.unit && pages - at >= limits.unit
}

// The first `at` pages of a row.
pub(crate) fn left(row: &Row, at: u32) -> Row
    ensures { result ≡ left_side at row.now }
{
    Row { pages: at, ..*row }
}

// The pages of a row after the first `at`.
pub(crate) fn right(row: &Row, at: u32) -> Row
    requires within { at ≤ row.now.pages }
    requires end { row.now.start + row.now.pages < 2 ^ 32 }
    ensures { result ≡ right_side at row.now }
{
    Row {
        start: row.start + at,
        pages: row.pages - at,
        ..*row
    }
}
