ghost use Rattle.reclaim_run.specs.Along.{CountThePages, EachReclaimedRun};

/// Along the run of each script within its limits under proactive reclaim each state is bound, and each page
/// that went out is out or came back. Whatever has happened, each page is resident or out, and it is out
/// exactly as the notes of its last run say. Each aggregation applies each set and
/// active scheme to the best choice within what is left of its quota; and what it pages out is, slot by
/// slot, what is resident of the pages that a `pageout` scheme is applied to. No code is run for it.
pub fn each_reclaimed_run_is_accounted()
    ensures runs { EachReclaimedRun }
    ensures figures { CountThePages }
{
    script_run::each_run_with_callbacks_is_bound();
}
