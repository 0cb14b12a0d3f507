// What holds of merged rows, for the crates above.
ghost use Rattle.std.specs.Prelude.{◌≡◌, ℕ, ◌≤◌, ◌<◌, List, length};
ghost use Rattle.std.specs.List.{AllByRecursion};
ghost use Rattle.damon_types.specs.declared.range.Range.{Range as range};
ghost use Rattle.damon_types.specs.declared.row.Row.{Row as row};
ghost use Rattle.damon_types.specs.Ranges.{InOrder};
ghost use Rattle.damon_types.specs.Span.{spans};
ghost use Rattle.region_list.specs.Tiling.{Tiling};
ghost use Rattle.region_merge.specs.Merged.{merged};
ghost use Rattle.region_merge.specs.Grouping.{IsMerged};

/// Rows are cut into groups that merge (`IsMerged`) in exactly one way, and merging them from left to
/// right finds it.
pub fn merged_rows_are_the_grouping()
    ensures some { (gs : List range) (threshold limit : ℕ) (rows : List row)
        → IsMerged gs threshold limit rows (merged gs threshold limit rows) }
    ensures one { (gs : List range) (threshold limit : ℕ) (rows a b : List row)
        → (x : IsMerged gs threshold limit rows a) → (y : IsMerged gs threshold limit rows b)
        → (x.groups ≡ y.groups) × (a ≡ b) }
{}

/// Merged rows tile their ranges with each minimum size with which the rows did, where that is at
/// least one page and the ranges are in order. There are no more rows than before, and at least one
/// if there was one. A bound on all counts still holds.
pub fn merged_rows_are_kept()
    ensures tiles { (unit : ℕ) (gs : List range) (threshold limit : ℕ) (rows : List row)
        → 1 ≤ unit → InOrder gs → Tiling unit gs (spans rows)
        → Tiling unit gs (spans (merged gs threshold limit rows)) }
    ensures fewer { (gs : List range) (threshold limit : ℕ) (rows : List row)
        → length (merged gs threshold limit rows) ≤ length rows }
    ensures some_rows { (gs : List range) (threshold limit : ℕ) (rows : List row)
        → 0 < length rows → 0 < length (merged gs threshold limit rows) }
    ensures counts { (gs : List range) (threshold limit most : ℕ) (rows : List row)
        → AllByRecursion (λ r. r.count ≤ most) rows
        → AllByRecursion (λ r. r.count ≤ most) (merged gs threshold limit rows) }
{}
