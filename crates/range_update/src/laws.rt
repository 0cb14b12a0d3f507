// What holds of range updates, for the crates above.
ghost use Rattle.std.specs.Prelude.{◌≡◌, ℕ, ◌≤◌, List};
ghost use Rattle.damon_types.specs.declared.range.Range.{Range as range};
ghost use Rattle.damon_types.specs.declared.row.Row.{Row as row};
ghost use Rattle.damon_types.specs.Ranges.{InOrder};
ghost use Rattle.damon_types.specs.Span.{spans};
ghost use Rattle.region_list.specs.Tiling.{Tiling};
ghost use Rattle.range_update.specs.Updated.{boundaries, kept, all_pieces};
ghost use Rattle.range_update.specs.Kept.{ArePieces, IsKept};

/// Of the boundaries of rows that tile ranges in order, those kept in one pass from left to right are
/// the ones of the rule, stated for each page by itself (`IsKept`); and no other list is.
pub fn boundaries_follow_rule()
    ensures some { (olds : List range) (rows : List row) (unit a b : ℕ)
        → InOrder olds → Tiling 1 olds (spans rows) → 1 ≤ unit
        → IsKept rows unit a b (kept unit b a (boundaries rows)) }
    ensures one { (rows : List row) (unit a b : ℕ) (ks ls : List ℕ)
        → IsKept rows unit a b ks → IsKept rows unit a b ls → ks ≡ ls }
{}

/// The pieces of new ranges are those between the boundaries of the rule, and no other list is.
pub fn pieces_follow_rule()
    ensures some { (olds gs : List range) (rows : List row) (unit : ℕ)
        → InOrder olds → Tiling 1 olds (spans rows) → 1 ≤ unit
        → ArePieces unit rows gs (all_pieces unit rows gs) }
    ensures one { (gs : List range) (rows a b : List row) (unit : ℕ)
        → ArePieces unit rows gs a → ArePieces unit rows gs b → a ≡ b }
{}
