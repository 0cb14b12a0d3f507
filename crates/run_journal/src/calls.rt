// Calls of controllers, as the monitor answers them.
ghost use Rattle.std.specs.Prelude.{◌≡◌, [], ◌∷◌};
ghost use Rattle.damon_control.specs.LiveView.{call_value};
ghost use Rattle.damon_core.specs.Makes.{Makes};
ghost use Rattle.damon_core.specs.Stands.{Stands, last_pass};
ghost use Rattle.run_journal.specs.Replay.{call_answer, call_event};

use crate::entry::CallAnswer;
use damon_control::Call;
use damon_core::Monitor;

/// Makes a call, and returns its answer. Takes no memory.
pub(crate) fn make_call(monitor: &mut Monitor, call: &Call) -> CallAnswer
    ensures event { Makes Stands monitor.old monitor.new (call_event (call_value call.now) ∷ []) }
    ensures answer { result ≡ call_answer (call_value call.now) monitor.old.core }

    // What no call changes.
    ensures ticks { monitor.new.core.ticks ≡ monitor.old.core.ticks }
    ensures space { monitor.new.core.space ≡ monitor.old.core.space }
    ensures pass { last_pass monitor.new.core.phase monitor.new.core.ticks
        ≡ last_pass monitor.old.core.phase monitor.old.core.ticks }
    ensures cap { monitor.new.core.regions.cap ≡ monitor.old.core.regions.cap }
{
    match call {
        Call::Show => CallAnswer::Shown {
            tick: monitor.ticks(),
            rows: monitor.rows().len(),
        },
        Call::Commit { commit } => CallAnswer::from(monitor.commit(commit)),
    }
}
