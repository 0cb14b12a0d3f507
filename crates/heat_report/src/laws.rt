ghost use Rattle.std.specs.Prelude.{ℕ, List, IfSome};
ghost use Rattle.heat_report.specs.Sizes.{IsSpread, spread_of};

/// What `spread_of` gives is the spread of the sizes.
pub fn spread_is_of_sizes()
    ensures spread { (sizes : List ℕ) → IfSome (spread_of sizes) (IsSpread sizes) }
{}
