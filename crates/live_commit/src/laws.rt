// Laws of the definitions that the contracts cite, for the proofs of callers.
ghost use Rattle.std.specs.Prelude.{◌≡◌, ◌≤◌, List, Ok};
ghost use Rattle.std.specs.List.{AllByRecursion};
ghost use Rattle.damon_types.specs.declared.scheme.TheConstants.{MAX_SLOT};
ghost use Rattle.damon_types.specs.declared.space.Target.{Target};
ghost use Rattle.live_commit.specs.declared.view.View.{View};
ghost use Rattle.live_commit.specs.Accepted.{IsAccepted};
ghost use Rattle.live_commit.specs.Accepts.{checked_commit};
ghost use Rattle.live_commit.specs.Commit.{CommitValue};
ghost use Rattle.live_commit.specs.Setup.{SetupValue, IsSetup};

/// A commit that is accepted comes in a phase that allows it, and its attributes, its ranges, the
/// number of ranges after it and the slot that it changes are within their limits. The slots that a
/// setup sets are within theirs.
pub fn accepted_commits_are_within()
    ensures accepted { (space : List Target) (v : View) (c : CommitValue)
        → checked_commit space v c ≡ Ok tt → IsAccepted space v c }
    ensures setup { (v : SetupValue) → IsSetup v
        → AllByRecursion (λ c. c.slot ≤ MAX_SLOT) v.slots }
{}
