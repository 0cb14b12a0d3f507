// How metrics decide one after another. The function does nothing.
ghost use Rattle.std.specs.Prelude.{◌≡◌, ℕ, List, [], ◌∷◌, ◌++◌, Option, fold};
ghost use Rattle.damon_types.specs.declared.scheme.Marks.{Marks as marks_type};
ghost use Rattle.watermarks.specs.Active.{after_metric, is_active};

/// Whether a slot is active after one more metric follows from that metric and from whether it was
/// active before. So keeping this one fact gives the same answer as keeping all metrics.
pub fn metrics_decide_in_turn()
    ensures next { (marks : Option marks_type) (metrics : List ℕ) (value : ℕ)
        → is_active marks (metrics ++ value ∷ [])
        ≡ after_metric marks (is_active marks metrics) value }
    ensures all { (marks : Option marks_type) (metrics : List ℕ)
        → is_active marks metrics ≡ fold (after_metric marks) (is_active marks []) metrics }
{}
