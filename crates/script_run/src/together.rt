// What a world makes together with the callbacks of a run.
ghost use Rattle.std.specs.Prelude.{◌≡◌, ◌+◌, ◌<◌, ◌≤◌, ◌^◌, ◌++◌, [], ◌∷◌, OnErr, OnOk};
ghost use Rattle.damon_types.specs.Space.{pages_of};
ghost use Rattle.damon_core.specs.Commit.{commit_answer};
ghost use Rattle.damon_core.specs.Event.{commit as commit_event};
ghost use Rattle.damon_core.specs.Makes.{Makes};
ghost use Rattle.damon_world.specs.Moment.{next_event};
ghost use Rattle.damon_world.specs.Stands.{StandsFor};
ghost use Rattle.damon_world.specs.Touches.{touches};
ghost use Rattle.live_commit.specs.Commit.{commit_value};
ghost use Rattle.snapshot_print.specs.Forms.{writing_of};
ghost use Rattle.line_text.specs.Appended.{KeepsFront};
ghost use Rattle.script_run.specs.Kept.{ArePutIn, IsMade, StandSomewhere};

use crate::callbacks::Callbacks;
use damon_world::{Jump, World};
use live_commit::{Commit, Phase};
use snapshot_print::{Form, print_aggregate, print_commit};
use std::alloc::{AllocError, Global};

// How the text of events is appended: in which form, and with which memory.
#[derive(Clone, Copy)]
pub struct Printer {
    pub alloc: Global,
    pub form: Form,
}

// Touches some pages of a world, one after another. One page alone, as most commands say, takes less time
// than a sweep.
pub fn make_touches<R: Jump + Drop>(world: &mut World<R>, page: u32, count: u32)
    requires { page + count ≤ pages_of world.old.monitor.core.space }
    ensures events { Makes StandsFor world.old world.new (touches page count) }
    ensures monitor { world.new.monitor ≡ world.old.monitor }
    ensures source { world.new.source ≡ world.old.source }
{
    if count == 1 {
        world.touch_page(page);
    } else {
        // For its clause alone: the pages are a u32.
        let _pages = world.monitor().space().pages();
        world.sweep(page, page + count);
    }
}

// Makes the aggregation that is due with the commits that are put in after it, and appends what they write.
pub fn make_aggregation<R: Jump + Drop, C: Callbacks + Drop>(
    printer: Printer,
    out: &mut Vec<u8>,
    world: &mut World<R>,
    callbacks: &mut C,
) -> Result<(), AllocError>
    requires due { world.old.monitor.core.phase ≡ Phase.Due }
    requires ticks { world.old.monitor.core.ticks < 2 ^ 40 }
    requires somewhere { StandSomewhere R.stream C.stands_for world.old callbacks.old }
    ensures made { OnOk result (IsMade R.stream C.callbacks C.stands_for world.old world.new
        callbacks.old callbacks.new (writing_of printer.form) out.old.items out.new.items
        (λ r. next_event r.moment.state r.moment.stream ∷ [])) }
    ensures err { OnErr result (KeepsFront out.old.items out.new.items) }

    // What holds in any case.
    ensures somewhere { StandSomewhere R.stream C.stands_for world.new callbacks.new }
    ensures passes { world.new.monitor.core.ticks ≤ world.old.monitor.core.ticks + 1 }
    ensures space { world.new.monitor.core.space ≡ world.old.monitor.core.space }
{
    world.advance(1);
    callbacks.after_aggregation(world.monitor());
    print_aggregate(printer.alloc, out, printer.form, world.monitor())?;
    callbacks.append_lines(printer.alloc, out, world.monitor())?;
    put_in(printer, out, world, callbacks)
}

// Makes a commit of the script with those that are put in after it, and appends their lines.
pub fn make_commit<R: Jump + Drop, C: Callbacks + Drop>(
    printer: Printer,
    out: &mut Vec<u8>,
    world: &mut World<R>,
    callbacks: &mut C,
    commit: &Commit,
) -> Result<(), AllocError>
    requires { StandSomewhere R.stream C.stands_for world.old callbacks.old }
    ensures made { OnOk result (IsMade R.stream C.callbacks C.stands_for world.old world.new
        callbacks.old callbacks.new (writing_of printer.form) out.old.items out.new.items
        (λ r. commit_event (commit_value commit.now) ∷ [])) }
    ensures err { OnErr result (KeepsFront out.old.items out.new.items) }

    // What holds in any case.
    ensures somewhere { StandSomewhere R.stream C.stands_for world.new callbacks.new }
    ensures ticks { world.new.monitor.core.ticks ≡ world.old.monitor.core.ticks }
    ensures space { world.new.monitor.core.space ≡ world.old.monitor.core.space }
{
    let answer = world.commit(commit);
    callbacks.after_commit(commit, &answer);
    let Printer { alloc, form } = printer;
    print_commit(alloc, out, form, world.monitor().ticks(), &answer)?;
    put_in(printer, out, world, callbacks)
}

// Makes the commits that callbacks still put in, and appends their lines.
#[inline]
fn put_in<R: Jump + Drop, C: Callbacks + Drop>(
    printer: Printer,
    out: &mut Vec<u8>,
    world: &mut World<R>,
    callbacks: &mut C,
) -> Result<(), AllocError>
    requires { StandSomewhere R.stream C.stands_for world.old callbacks.old }
    ensures made { OnOk result (ArePutIn R.stream C.stands_for world.old world.new
        callbacks.old callbacks.new (writing_of printer.form) out.old.items out.new.items
        (C.pending callbacks.old)) }
    ensures err { OnErr result (KeepsFront out.old.items out.new.items) }

    // What holds in any case.
    ensures somewhere { StandSomewhere R.stream C.stands_for world.new callbacks.new }
    ensures ticks { world.new.monitor.core.ticks ≡ world.old.monitor.core.ticks }
    ensures space { world.new.monitor.core.space ≡ world.old.monitor.core.space }
{
    'puts: while let Some(next) = callbacks.next_commit() {
        put_commit(printer, out, world, &next)?;
    }
    Ok(())
}

// Makes one commit of a world, and appends its line.
fn put_commit<R: Jump + Drop>(
    printer: Printer,
    out: &mut Vec<u8>,
    world: &mut World<R>,
    commit: &Commit,
) -> Result<(), AllocError>
    ensures ok { OnOk result (out.new.items ≡ out.old.items
        ++ (writing_of printer.form).commit world.old.monitor.core.ticks
        (commit_answer (commit_value commit.now) world.old.monitor.core)) }
    ensures err { OnErr result (out.new.items ≡ out.old.items) }
    ensures event { Makes StandsFor world.old world.new (commit_event (commit_value commit.now) ∷ []) }
    ensures source { world.new.source ≡ world.old.source }
    ensures space { world.new.monitor.core.space ≡ world.old.monitor.core.space }
    ensures ticks { world.new.monitor.core.ticks ≡ world.old.monitor.core.ticks }
{
    let answer = world.commit(commit);
    let Printer { alloc, form } = printer;
    print_commit(alloc, out, form, world.monitor().ticks(), &answer)
}
