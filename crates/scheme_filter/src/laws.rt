// What holds of runs, for the crates above. No function here does anything.
ghost use Rattle.std.specs.Prelude.{◌≡◌, ℕ, ◌+◌, Bool, List};
ghost use Rattle.scheme_filter.specs.declared.runs.Run.{Run as run};
ghost use Rattle.scheme_filter.specs.Runs.{AreLongest, runs_of};

/// There is exactly one list of longest runs, and finding runs page by page (`runs_of`) gives it.
pub fn longest_runs_are_one()
    ensures some { (passes : ℕ → Bool) (from pages : ℕ)
        → AreLongest passes from (from + pages) (runs_of passes from pages) }
    ensures one { (passes : ℕ → Bool) (from pages : ℕ) (runs : List run)
        → AreLongest passes from (from + pages) runs → runs ≡ runs_of passes from pages }
{}
