// Laws of the definitions. No function here does anything.
ghost use Rattle.std.specs.Prelude.{List};
ghost use Rattle.damon_control.specs.Live.{LiveValue};
ghost use Rattle.damon_core.specs.Reached.{CanOpen};
ghost use Rattle.run_journal.specs.declared.entry.Receipt.{Receipt as receipt};
ghost use Rattle.run_journal.specs.Few.{HitsAreFew};
ghost use Rattle.run_journal.specs.Lawful.{IsLawful};
ghost use Rattle.run_journal.specs.Replay.{JournalValue};
ghost use Rattle.run_journal.specs.Woven.{WovenRuns};

/// Where a journal and receipts are lawful, the events of the journal can be woven with the touches of
/// the receipts: they fit, each load is a hit by the touches before it exactly where the journal says
/// so, each state along them is bound, and they lead to the state of the replay, but for the notes of
/// touches.
pub fn woven_runs()
    ensures { (v : LiveValue) (j : JournalValue) (all : List (List receipt)) → CanOpen v.setup
        → IsLawful v j all → WovenRuns v j all }
{
    damon_core::reached_states_are_bound();
}

/// Where a journal and receipts are lawful, a page was found touched by at most as many loads as it has
/// receipts.
pub fn hits_are_few()
    ensures { (v : LiveValue) (j : JournalValue) (all : List (List receipt)) → CanOpen v.setup
        → IsLawful v j all → HitsAreFew v j all }
{
    damon_core::reached_states_are_bound();
}
