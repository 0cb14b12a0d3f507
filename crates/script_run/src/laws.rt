// What holds of the events of each script.
ghost use Rattle.script_run.specs.BoundAlong.{EachRunWithCallbacksIsBound, EachScriptIsBound};
ghost use Rattle.script_run.specs.Choices.{EachChoiceIsBest, EachRunWithCallbacksChoosesBest};
ghost use Rattle.script_run.specs.Reaching.{ReachTheirPhase};
ghost use Rattle.script_run.specs.ScriptEvents.{EventsAreAlone};
ghost use Rattle.script_run.specs.TextReport.{ReportsAreText};

/// What holds of each script within its limits holds with all callbacks whose events fit where they are
/// put in: the events of the script with these fit from the opening of its setup, each state to which a
/// prefix of them leads is bound, and each aggregation applies each set and active scheme to the best
/// choice. No code is run for it.
pub fn each_run_with_callbacks_is_bound()
    ensures bound { EachRunWithCallbacksIsBound }
    ensures choices { EachRunWithCallbacksChoosesBest }
{
    damon_core::reached_states_are_bound();
}

/// The events of each script within its limits fit from the opening of its setup, and each state to
/// which a prefix of them leads is bound. No code is run for it.
pub fn each_script_is_bound()
    ensures { EachScriptIsBound }
{
    each_run_with_callbacks_is_bound();
}

/// Each aggregation along the run of each script within its limits applies each set and active scheme to
/// the best choice within what is left of its quota, slot by slot: the first passing pages of its
/// candidates in priority order. No code is run for it.
pub fn each_choice_is_best()
    ensures { EachChoiceIsBest }
{
    each_run_with_callbacks_is_bound();
}

/// From each state to which fitting events lead, the steps of `arm` lead to where each pick of a
/// pass is cleared, and those of `finish` to where no pass is under way and no aggregation is due:
/// `2 × cap + 3` steps are enough.
pub fn passes_reach_their_phase()
    ensures { ReachTheirPhase }
{
    damon_core::reached_states_are_bound();
}

/// The text that is printed of the run of a script is the one that the states along it say. No code is
/// run for it.
pub fn reports_are_text()
    ensures { ReportsAreText }
{
    snapshot_print::texts_are_of_states();
}

/// The events of a script, by the moments along its run, are those of its run without callbacks. No code
/// is run for it.
pub fn events_are_alone()
    ensures { EventsAreAlone }
{}
