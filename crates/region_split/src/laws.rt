// What holds of split rows, for the crates above.
ghost use Rattle.std.specs.Prelude.{◌≡◌, ℕ, ◌≤◌, ◌<◌, List, length};
ghost use Rattle.std.specs.List.{AllByRecursion};
ghost use Rattle.damon_types.specs.declared.range.Range.{Range as range};
ghost use Rattle.damon_types.specs.declared.row.Row.{Row as row};
ghost use Rattle.damon_types.specs.Span.{spans};
ghost use Rattle.region_list.specs.Tiling.{Tiling};
ghost use Rattle.region_split.specs.Split.{split_rows};
ghost use Rattle.region_split.specs.RowByRow.{IsSplit};

/// Splitting from left to right splits each row by the rule, which says of each row by itself at which
/// number of rows it is split (`IsSplit`): the parts of the rows before it, and the rows from it on. No
/// other list is split so.
pub fn splits_follow_rule()
    ensures some { (max unit before : ℕ) (words : List ℕ) (rows : List row)
        → IsSplit max unit before words rows (split_rows max unit before words rows) }
    ensures one { (max unit before : ℕ) (words : List ℕ) (rows a b : List row)
        → IsSplit max unit before words rows a → IsSplit max unit before words rows b → a ≡ b }
{}

/// Rows that are split still tile their ranges with the minimum size of the split, are at most
/// `max` where they were so before, and are at least one where there was one. No count rises.
pub fn split_rows_are_kept()
    ensures tiles { (max unit before : ℕ) (words : List ℕ) (gs : List range) (rows : List row)
        → Tiling unit gs (spans rows)
        → Tiling unit gs (spans (split_rows max unit before words rows)) }
    ensures few { (max unit before : ℕ) (words : List ℕ) (rows : List row)
        → length rows ≤ max → length (split_rows max unit before words rows) ≤ max }
    ensures some { (max unit before : ℕ) (words : List ℕ) (rows : List row)
        → 0 < length rows → 0 < length (split_rows max unit before words rows) }
    ensures counts { (max unit before most : ℕ) (words : List ℕ) (rows : List row)
        → AllByRecursion (λ r. r.count ≤ most) rows
        → AllByRecursion (λ r. r.count ≤ most) (split_rows max unit before words rows) }
{}
