// What holds of shares and of the priority order, for the crates above. No function here does
// anything.
ghost use Rattle.std.specs.Prelude.{◌≡◌, ◌↔◌, ◌<◌, ◌≤◌, ℕ, List, Option, Some, None, All, Any, IsPermutation};
ghost use Rattle.priority.specs.declared.candidates.Candidate.{Candidate as candidate};
ghost use Rattle.priority.specs.Candidates.{DistinctStarts};
ghost use Rattle.priority.specs.Order.{InPriority, in_order};
ghost use Rattle.priority.specs.Share.{with_shares};
ghost use Rattle.priority.specs.Chosen.{lowest_of, taken_of};
ghost use Rattle.priority.specs.Best.{IsBest, IsCertified, IsChoice, shares_of};

/// The shares of candidates, no two of which start at the same page, are the best choice: no other
/// choice of passing pages within what is left of the quota has a greater sum of scores. They have
/// a certificate, and a choice with a certificate is the best one.
pub fn shares_are_best()
    ensures best { (left : Option ℕ) (cs : List candidate)
        → DistinctStarts cs → IsBest left (with_shares left cs) }
    ensures certificate { (left : Option ℕ) (cs : List candidate)
        → DistinctStarts cs → IsCertified left (with_shares left cs) }
    ensures enough { (left : Option ℕ) (cs : List candidate)
        → IsChoice left cs (shares_of cs) → IsCertified left cs → IsBest left cs }
{}

/// Candidates, no two of which start at the same page, have exactly one list in priority order: the
/// one by their ranks. It makes no difference whether they get their shares before or after.
pub fn order_is_one()
    ensures order { (cs : List candidate) → DistinctStarts cs → InPriority (in_order cs) }
    ensures same { (cs : List candidate) → DistinctStarts cs → IsPermutation cs (in_order cs) }
    ensures one { (cs ds : List candidate) → InPriority ds → IsPermutation cs ds → in_order cs ≡ ds }
    ensures shares { (left : Option ℕ) (cs : List candidate)
        → DistinctStarts cs → in_order (with_shares left cs) ≡ with_shares left (in_order cs) }
{}

/// The lowest score is the least of those candidates of which a page is taken, and one of them has
/// it. There is none exactly where no page is taken.
pub fn lowest_is_least()
    ensures none { (cs : List candidate) → (lowest_of cs ≡ None) ↔ (taken_of cs ≡ 0) }
    ensures least { (cs : List candidate) (n : ℕ)
        → lowest_of cs ≡ Some n → All (λ c. 0 < c.share → n ≤ c.score) cs }
    ensures taken { (cs : List candidate) (n : ℕ)
        → lowest_of cs ≡ Some n → Any (λ c. (0 < c.share) × (c.score ≡ n)) cs }
{}
