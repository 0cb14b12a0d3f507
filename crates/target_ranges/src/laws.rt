// Laws of the definitions that the contracts cite, for the proofs of callers.
ghost use Rattle.target_ranges.specs.Laws.{MakesEach, MakesInOrder, MakesWide, MakesWithin};

/// The ranges made of a list that is accepted are in order, one for each; each lies in its target and
/// has at least `unit` pages.
pub fn made_in_order()
    ensures order { MakesInOrder }
    ensures count { MakesEach }
    ensures wide { MakesWide }
    ensures within { MakesWithin }
{}
