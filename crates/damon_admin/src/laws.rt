// What holds of the output of each input. These functions do nothing.
ghost use Rattle.damon_admin.specs.Laws.{ContextsAreApart, ContextsAreBound, VoicesAreReports};

/// In the output of each input the lines of a context, without its digit and the space, are the report of
/// the script that its lines spell, or the line of their fault; and each of its lines only adds to that.
pub fn voices_are_reports()
    ensures voices { VoicesAreReports }
{}

/// Two inputs in which the lines of a context are the same give the same lines of output of that context,
/// whatever the lines of the others.
pub fn contexts_are_apart()
    ensures apart { ContextsAreApart }
{
    voices_are_reports();
}

/// After each line of an input the state of each context whose lines are a script is bound: the one after
/// the commands of its lines so far.
pub fn contexts_are_bound()
    ensures bound { ContextsAreBound }
{
    damon_control::scripts_are_sound();
    script_run::each_script_is_bound();
}
