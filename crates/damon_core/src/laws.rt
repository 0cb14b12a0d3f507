// What holds of each state to which events lead.
ghost use Rattle.std.specs.Prelude.{◌≡◌, ℕ, true, false, List, length};
ghost use Rattle.damon_types.specs.declared.scheme.Version.TheVariants as version;
ghost use Rattle.live_commit.specs.declared.phase.Phase.TheVariants as Phase;
ghost use Rattle.damon_core.specs.Aggregate.{IsServedAlike};
ghost use Rattle.damon_core.specs.After.{after};
ghost use Rattle.damon_core.specs.Event.{Event, Fits, prepare};
ghost use Rattle.damon_core.specs.State.{State, row_count};
ghost use Rattle.damon_core.specs.Reached.{Reached, ReachedByHit};
ghost use Rattle.damon_core.specs.Bound.{Bound};
ghost use Rattle.damon_core.specs.Choosing.{ServesBest};
ghost use Rattle.damon_core.specs.InPhase.{IsInPhase};
ghost use Rattle.damon_core.specs.Pass.{IsInPass, PagesRiseFrom};
ghost use Rattle.damon_core.specs.Steps.{EndsPass, TakesItsSteps, is_step};
ghost use Rattle.damon_core.specs.VersionOne.{AreOfVersionOne};

/// In each state to which fitting events lead, whatever the results of the loads, there is at least
/// one row and there are at most `cap`, and the next pick of a pass under way is that of a row; the
/// picks of such a pass rise, as each is a page of its own row; and an aggregation applies each active
/// scheme to the best choice within what is left of its quota. What the engine does for the slots is
/// what the notes say is done for them. Where the result of each load is that of its page, also the
/// rows tile their ranges within the limits, each finished pass checked one page of each row, each hit
/// rests on a touch of its page since the pass cleared it, and each run of a scheme is of a slot that
/// is set and active, and within its quota.
pub fn reached_states_are_bound()
    ensures in_phase { (s : State) → Reached s → IsInPhase s }
    ensures picks { (s : State) → Reached s → IsInPass s.core.phase
        → (length s.core.picks ≡ row_count s.core) × PagesRiseFrom 0 s.core.picks }
    ensures choices { (s : State) → Reached s → ServesBest s }
    ensures alike { (s : State) → Reached s → IsServedAlike s }
    ensures bound { (s : State) → ReachedByHit s → Bound s }
{}

/// From Idle, the first step prepares a pass, and touches, shows and commits before it leave the phase.
/// A pass that is not void when it ends takes exactly 2 × r + 2 steps, where r rows are there when it is
/// prepared: one to prepare it, a clear and a load of each row's pick, and one to observe it, in this
/// order, whatever touches, shows and commits come between them. The rows then lie where they did.
pub fn a_pass_takes_its_steps_amid_events()
    ensures waits { (s : State) (e : Event) → s.core.phase ≡ Phase.Idle → is_step e ≡ false
        → (after s e).core.phase ≡ Phase.Idle }
    ensures begins { (s : State) (e : Event) → s.core.phase ≡ Phase.Idle → Fits s e → is_step e ≡ true
        → (words : List ℕ) × (e ≡ prepare words) }
    ensures pass { (s : State) (words : List ℕ) (events : List Event) → Reached s
        → EndsPass s words events → TakesItsSteps s words events }
{
    reached_states_are_bound();
}

/// In each state of version One to which fitting events lead, no cost was handed in, and no slot was ever
/// set to a scheme whose quota has a time.
pub fn version_one_has_no_costs()
    ensures { (s : State) → Reached s → s.core.version ≡ version.One → AreOfVersionOne s.notes }
{}
