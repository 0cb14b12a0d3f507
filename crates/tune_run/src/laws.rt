// What holds of the runs of all scripts with quotas that follow goals.
ghost use Rattle.std.specs.Prelude.{List};
ghost use Rattle.damon_control.specs.Script.{ScriptValue};
ghost use Rattle.damon_control.specs.Sound.{IsSound};
ghost use Rattle.quota_goal.specs.declared.goals.Goal.{Goal};
ghost use Rattle.script_run.specs.BoundAlong.{IsBoundWith};
ghost use Rattle.script_run.specs.Callbacks.{FitAlways};
ghost use Rattle.script_run.specs.Choices.{ChoosesBestWith};
ghost use Rattle.tune_run.specs.Along.{AreBelowTops, EachTunedRun, first_tuner};
ghost use Rattle.tune_run.specs.Callbacks.{tune_callbacks};

/// Along the run of each script and goals within their limits: what is put in fits, each state is bound, and
/// each aggregation applies each active scheme to the best choice within what is left of its quota; each
/// commit that is put in is accepted; in each state the bytes in force of a tunable slot are at most its
/// top; directly after a slot was scored its bytes lie between the least of `min(low, top)` and the least of
/// `min(high, top)` over its scored goals. Where one goal is scored, bytes within its bounds do not fall at a
/// score below the target, and do not rise at or above it; so once the one goal of a slot was scored, its
/// bytes do not fall as long as the scores stay below the target, and do not rise as long as they stay at or
/// above it. What does not depend on the scores holds with any goals. No code is run for it.
pub fn each_tuned_run_follows_its_goals()
    ensures runs { EachTunedRun }

    // With any goals, also such as are not within their limits.
    ensures fit { (goals : List Goal) → FitAlways (tune_callbacks goals) }
    ensures bound { (goals : List Goal) (s : ScriptValue) → IsSound s
        → IsBoundWith (tune_callbacks goals) s }
    ensures choices { (goals : List Goal) (s : ScriptValue) → IsSound s
        → ChoosesBestWith (tune_callbacks goals) s }
    ensures first { (goals : List Goal) (s : ScriptValue) → IsSound s
        → AreBelowTops (first_tuner goals s) }
{
    script_run::each_run_with_callbacks_is_bound();
}
