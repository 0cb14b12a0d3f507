ghost use Rattle.std.specs.Prelude.{ℕ};
ghost use Rattle.live_commit.specs.Commit.{CommitValue};
ghost use Rattle.damon_core.specs.Bound.{Bound};
ghost use Rattle.damon_core.specs.Event.{commit as commit_event};
ghost use Rattle.damon_core.specs.After.{after};
ghost use Rattle.damon_core.specs.Reached.{AllFit, Reached, ReachedByHit, run};
ghost use Rattle.damon_core.specs.State.{State};
ghost use Rattle.damon_world.specs.Moment.{Moment, events_of_steps, stepped_times};
ghost use Rattle.damon_world.specs.Pass.{EachPassTakesItsSteps};
ghost use Rattle.damon_world.specs.Touches.{touches};

/// From each moment at which no pass is under way and no aggregation is due, with r rows of which there is
/// at least one, the pass takes exactly 2 × r + 2 steps: one to prepare it, a clear and a load of each
/// row's pick, and one to observe it. The tick rises at the last of these steps, and not before.
pub fn a_pass_takes_its_steps()
    ensures { EachPassTakesItsSteps }
{}

/// A world loads its own pages: its touches, its commits and its steps lead from a state that is reached by
/// the true results of loads to such a state, from that of its opening on. Each of these states is bound.
pub fn states_of_worlds_are_bound()
    ensures touches { (s : State) (page n : ℕ) → ReachedByHit s → AllFit s (touches page n)
        → ReachedByHit (run s (touches page n)) }
    ensures commits { (s : State) (parts : CommitValue) → ReachedByHit s
        → ReachedByHit (after s (commit_event parts)) }
    ensures steps { (m : Moment) (n : ℕ) → ReachedByHit m.state → AllFit m.state (events_of_steps n m)
        → ReachedByHit (stepped_times n m).state }
    ensures reached { (s : State) → ReachedByHit s → Reached s }
    ensures bound { (s : State) → ReachedByHit s → Bound s }
{
    damon_core::reached_states_are_bound();
}
