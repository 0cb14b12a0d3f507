// Laws of the definitions, for the crates above.
ghost use Rattle.std.specs.Prelude.{◌≡◌, ℕ, ◌+◌, ◌^◌, ◌≤◌, ◌<◌, List, Some, length, slice_get};
ghost use Rattle.damon_types.specs.declared.range.Range.{Range as range};
ghost use Rattle.damon_types.specs.declared.row.Row.{Row as row};
ghost use Rattle.damon_types.specs.Ranges.{InOrder};
ghost use Rattle.damon_types.specs.Span.{Span, spans};
ghost use Rattle.region_list.specs.Tiles.{Tiles};
ghost use Rattle.region_list.specs.Tiling.{Tiling};
ghost use Rattle.region_list.specs.Shrink.{shrunk};

/// Rows that tile ranges range by range (`Tiling`) tile them page by page (`Tiles`), where the minimum
/// size is at least one page and the ranges are in order.
pub fn tiling_is_per_page()
    ensures { (unit : ℕ) (gs : List range) (rows : List Span)
        → 1 ≤ unit → InOrder gs → Tiling unit gs rows → Tiles gs rows unit }
{}

/// Rows that tile their ranges are at most `to` after they are shrunk to `to`, where there are at most
/// `to` ranges; and they still tile with each minimum size with which they did before.
pub fn shrunk_rows_tile()
    ensures few { (to : ℕ) (gs : List range) (rows : List row)
        → InOrder gs → Tiling 1 gs (spans rows) → length gs ≤ to
        → length (shrunk gs to rows) ≤ to }
    ensures tiling { (unit to : ℕ) (gs : List range) (rows : List row)
        → InOrder gs → Tiling 1 gs (spans rows) → length gs ≤ to
        → Tiling unit gs (spans rows) → Tiling unit gs (spans (shrunk gs to rows)) }
{}

/// Each row of a tiling has a page and ends below page 2^32.
pub fn tiled_rows_fit()
    ensures some { (gs : List range) (rows : List row) (i : ℕ) (r : row)
        → Tiling 1 gs (spans rows) → slice_get rows i ≡ Some r → 1 ≤ r.pages }
    ensures end { (gs : List range) (rows : List row) (i : ℕ) (r : row)
        → InOrder gs → Tiling 1 gs (spans rows) → slice_get rows i ≡ Some r
        → r.start + r.pages < 2 ^ 32 }
{}
