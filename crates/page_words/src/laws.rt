// A law of the definitions that contracts cite. The function does nothing.
ghost use Rattle.std.specs.Prelude.{ℕ, ◌<◌, ◌≤◌, [], replicate};
ghost use Rattle.atomic_table.specs.Table.{Me, opening};
ghost use Rattle.page_words.specs.declared.view.View.{View as view};
ghost use Rattle.page_words.specs.declared.view.View.TheVariants.{Monitor};
ghost use Rattle.page_words.specs.Clears.{last_clear_pass};
ghost use Rattle.page_words.specs.Keeping.{TouchKeeps, ClearKeeps, LoadKeeps, SplitKeeps, GatherKeeps};
ghost use Rattle.page_words.specs.Rule.{WordRule};
ghost use Rattle.page_words.specs.Seats.{IsTouchSeat, IsMonitorSeat, entries_of};

/// The rule of the page words holds of a new table, and each atomic step of a seat of its kind keeps it,
/// whatever the words and the views of all other seats are: so it holds between any two steps.
pub fn steps_keep_the_rule()
    ensures new { (pages : ℕ)
        → WordRule {S = ℕ} pages (opening (replicate pages 0) [] (Monitor [] 0)) }
    ensures touch { (pages slots id page : ℕ) (me : Me ℕ view)
        → page < pages → IsTouchSeat me → TouchKeeps pages slots id me page }
    ensures clear { (pages slots id page pass out : ℕ) (me : Me ℕ view)
        → page < pages → 1 ≤ pass → last_clear_pass (entries_of me.0) ≤ pass
        → IsMonitorSeat me out → ClearKeeps pages slots id me page pass }
    ensures load { (pages slots id page out : ℕ) (me : Me ℕ view)
        → IsMonitorSeat me out → LoadKeeps pages slots id me page }
    ensures split { (pages id worker out : ℕ) (me : Me ℕ view)
        → IsMonitorSeat me out → SplitKeeps ℕ pages id me.0 worker }
    ensures gather { (pages id other out : ℕ) (me you : Me ℕ view)
        → IsMonitorSeat me out → IsTouchSeat you → GatherKeeps ℕ pages id me.0 other you.0 }
{}
