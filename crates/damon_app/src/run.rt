// The run of a script, whose report is handed over piece by piece.
ghost use Rattle.std.specs.Prelude.{◌≡◌, ◌≤◌, IfErr, IsErrOf, OnOk};
ghost use Rattle.std.specs.Io.KnownBytes.{Appends};
ghost use Rattle.damon_types.specs.Calls.{EndsAtFault};
ghost use Rattle.damon_types.specs.Space.{pages_of};
ghost use Rattle.damon_core.specs.State.{opening};
ghost use Rattle.script_lines.specs.Command.{work_of};
ghost use Rattle.script_lines.specs.Limits.{AreCommandsWithin};
ghost use Rattle.damon_control.specs.ScriptView.{said_by};
ghost use Rattle.run_status.specs.Status.{EndsRun};
ghost use Rattle.snapshot_print.specs.Forms.{writing_of};
ghost use Rattle.script_run.specs.RunWith.{report_with};
ghost use Rattle.reclaim_run.specs.Reclaimed.{reclaimed_report};
ghost use Rattle.tune_run.specs.Report.{tuned_report};
ghost use Rattle.text_io.specs.Taken.{WritesPart};
ghost use Rattle.damon_app.specs.Replay.{report_of};

use crate::Run;
use damon_control::{MAX_WORK, Script};
use damon_types::Sink;
use quota_goal::Goals;
use reclaim_run::Reclaimer;
use run_status::{Status, hand_over};
use script_run::{Callbacks, NoCallbacks, open_player_with};
use snapshot_print::Form;
use std::alloc::Global;
use std::marker::Brand;
use tune_run::{Named, TunedQuotas};

// Runs a script, and hands its report to the sink.
pub(crate) fn write_report<K: Sink>(
    alloc: Global,
    script: Script,
    run: Run,
    sink: &mut K,
) -> Result<(), Status>
    requires within { AreCommandsWithin (pages_of script.setup.space) script.commands.list }
    requires work { work_of script.setup.cap script.commands.list ≤ MAX_WORK }
    ensures all { OnOk result
        (Appends (K.taken sink.old) (K.taken sink.new) (report_of run (said_by script))) }
    ensures answers { IfErr result EndsRun }
    ensures writes { EndsAtFault (IsErrOf result Status.WriteFault)
        (K.calls sink.old) (K.calls sink.new) }
    ensures part { WritesPart (K.taken sink.old) (K.taken sink.new) (report_of run (said_by script)) }
{
    match run {
        Run::Plain { form } => write_played(alloc, script, form, NoCallbacks, sink),
        Run::Reclaim => write_reclaimed(alloc, script, sink),
        Run::Tune { goals } => write_tuned::<Brand, K>(alloc, script, goals, sink),
    }
}

// Runs a script over a model of the pages of its space, and hands the report to the sink.
fn write_reclaimed<K: Sink>(alloc: Global, script: Script, sink: &mut K) -> Result<(), Status>
    requires within { AreCommandsWithin (pages_of script.setup.space) script.commands.list }
    requires work { work_of script.setup.cap script.commands.list ≤ MAX_WORK }
    ensures all { OnOk result
        (Appends (K.taken sink.old) (K.taken sink.new) (reclaimed_report (said_by script))) }
    ensures answers { IfErr result EndsRun }
    ensures writes { EndsAtFault (IsErrOf result Status.WriteFault)
        (K.calls sink.old) (K.calls sink.new) }
    ensures part { WritesPart (K.taken sink.old) (K.taken sink.new) (reclaimed_report (said_by script)) }
{
    let reclaimer = Reclaimer::new(alloc, script.setup.space.pages())?;
    write_played(alloc, script, Form::Text, reclaimer, sink)
}

// Runs a script with quotas that follow goals, the named ones, and hands the report to the sink.
fn write_tuned<N: Named + Drop, K: Sink>(
    alloc: Global,
    script: Script,
    goals: Goals,
    sink: &mut K,
) -> Result<(), Status>
    requires goals { goals ≡ N.goals }
    requires within { AreCommandsWithin (pages_of script.setup.space) script.commands.list }
    requires work { work_of script.setup.cap script.commands.list ≤ MAX_WORK }
    ensures all { OnOk result
        (Appends (K.taken sink.old) (K.taken sink.new) (tuned_report N.goals (said_by script))) }
    ensures answers { IfErr result EndsRun }
    ensures writes { EndsAtFault (IsErrOf result Status.WriteFault)
        (K.calls sink.old) (K.calls sink.new) }
    ensures part { WritesPart (K.taken sink.old) (K.taken sink.new)
        (tuned_report N.goals (said_by script)) }
{
    let quotas = TunedQuotas::<N>::new(goals, &script.setup);
    write_played(alloc, script, Form::Text, quotas, sink)
}

// Plays a script with callbacks, which stand for the opening of its setup, and hands the report to the sink
// a piece at a time.
fn write_played<C: Callbacks + Drop, K: Sink>(
    alloc: Global,
    script: Script,
    form: Form,
    callbacks: C,
    sink: &mut K,
) -> Result<(), Status>
    requires within { AreCommandsWithin (pages_of script.setup.space) script.commands.list }
    requires work { work_of script.setup.cap script.commands.list ≤ MAX_WORK }
    requires opening { C.stands_for callbacks (C.callbacks.first (opening (said_by script).setup))
        (opening (said_by script).setup) }

    // The sink gained the report of the script.
    ensures all { OnOk result (Appends (K.taken sink.old) (K.taken sink.new)
        (report_with C.callbacks (writing_of form) (said_by script))) }

    // Each failure.
    ensures answers { IfErr result EndsRun }
    ensures writes { EndsAtFault (IsErrOf result Status.WriteFault)
        (K.calls sink.old) (K.calls sink.new) }
    ensures part { WritesPart (K.taken sink.old) (K.taken sink.new)
        (report_with C.callbacks (writing_of form) (said_by script)) }
{
    let mut player = open_player_with(alloc, script, form, callbacks)?;
    hand_over(alloc, &mut player, sink)
}
