// What holds of runs of schemes, for the crates above. No function here does anything.
ghost use Rattle.std.specs.Prelude.{◌≡◌, ℕ, ◌+◌, ◌^◌, ◌≤◌, ◌<◌, List, Option, length, sum_by, All, IfSome};
ghost use Rattle.std.specs.List.{AllByRecursion};
ghost use Rattle.damon_types.specs.declared.scheme.Scheme.{Scheme as scheme_type};
ghost use Rattle.damon_types.specs.declared.space.Target.{Target as target};
ghost use Rattle.damon_types.specs.Space.{IsSpace};
ghost use Rattle.damon_types.specs.Within.{AreWithin};
ghost use Rattle.region_list.specs.Regions.{RegionList};
ghost use Rattle.scheme_engine.specs.Best.{IsBestRun};
ghost use Rattle.scheme_engine.specs.Engine.{BeginBy, FitsSlot};
ghost use Rattle.scheme_engine.specs.Kept.{AreTiled, CountsWithin, IsRunIn, StartBy};
ghost use Rattle.scheme_engine.specs.Outcome.{outcome_of};
ghost use Rattle.scheme_engine.specs.Served.{slots_served};
ghost use Rattle.scheme_engine.specs.Slots.{SlotValue};

/// A run of a scheme is the best choice: its candidates are in priority order, each with its share of
/// what is left of the quota; what it is applied to are the first passing pages of each, within what is
/// left; no other pages within it have a greater sum of scores, and the certificate holds.
pub fn outcome_is_best()
    ensures best { (slot aggr : ℕ) (space : List target) (scheme : scheme_type) (left : Option ℕ)
        (regions : RegionList) → AreTiled regions
        → IsBestRun slot space aggr scheme left regions
        (outcome_of slot space aggr scheme left regions) }
{}

/// What serving slots keeps: the rows still tile their ranges with the minimum size, and are at most
/// `max`; there is a row where there was one; and no count rises. The number of slots stays, and no window
/// begins after the tick. The runs of all slots have as many pages as are taken in all choices, and lie in
/// the space; each choice takes at most what is left. Numbers that are bounded by how often the slots were
/// served stay so, and fit in 64 bits.
pub fn served_slots_are_kept()
    ensures tiled { (slot aggr tick : ℕ) (space : List target) (regions : RegionList)
        (slots : List SlotValue) → AreTiled regions
        → AreTiled (record regions {
          rows = (slots_served slot space aggr tick regions slots).rows;
        }) }
    ensures some { (slot aggr tick : ℕ) (space : List target) (regions : RegionList)
        (slots : List SlotValue) → 0 < length regions.rows
        → 0 < length (slots_served slot space aggr tick regions slots).rows }
    ensures counts { (slot aggr tick most : ℕ) (space : List target) (regions : RegionList)
        (slots : List SlotValue) → AllByRecursion (λ r. r.count ≤ most) regions.rows
        → AllByRecursion (λ r. r.count ≤ most)
        (slots_served slot space aggr tick regions slots).rows }
    ensures length { (slot aggr tick : ℕ) (space : List target) (regions : RegionList)
        (slots : List SlotValue)
        → length (slots_served slot space aggr tick regions slots).slots ≡ length slots }
    ensures windows { (slot aggr tick : ℕ) (space : List target) (regions : RegionList)
        (slots : List SlotValue) → StartBy tick slots
        → StartBy tick (slots_served slot space aggr tick regions slots).slots }
    ensures begun { (last tick : ℕ) (slots : List SlotValue) → last ≤ tick → StartBy last slots
        → StartBy tick slots × BeginBy tick slots }
    ensures sum { (slot aggr tick : ℕ) (space : List target) (regions : RegionList)
        (slots : List SlotValue) → AreTiled regions
        → sum_by (λ r. r.pages) (slots_served slot space aggr tick regions slots).runs
        ≡ sum_by (λ c. c.taken) (slots_served slot space aggr tick regions slots).choices }
    ensures within { (slot aggr tick : ℕ) (space : List target) (regions : RegionList)
        (slots : List SlotValue) → AreTiled regions
        → All (λ c. IfSome c.left (λ most. c.taken ≤ most))
        (slots_served slot space aggr tick regions slots).choices }
    ensures space { (slot aggr tick : ℕ) (space : List target) (regions : RegionList)
        (slots : List SlotValue) → AreTiled regions → AreWithin space regions.ranges
        → All (IsRunIn space)
        (slots_served slot space aggr tick regions slots).runs }
    ensures bounded { (slot aggr tick t : ℕ) (space : List target) (regions : RegionList)
        (slots : List SlotValue) → AreTiled regions → AreWithin space regions.ranges
        → IsSpace space → AllByRecursion (CountsWithin t) slots
        → AllByRecursion (CountsWithin (t + 1))
        (slots_served slot space aggr tick regions slots).slots }
    ensures fits { (t : ℕ) (slots : List SlotValue) → t ≤ 2 ^ 43
        → AllByRecursion (CountsWithin t) slots → AllByRecursion FitsSlot slots }
{}
