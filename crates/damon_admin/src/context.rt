ghost use Rattle.std.specs.Prelude.{◌≡◌, ◌≤◌, ◌-◌, ◌==◌, ◌++◌, [], IfOk, OnOk, List, true, if◌then◌else◌, length, ℕ};
ghost use Rattle.damon_admin.specs.Kept.{AreOfKind, AreOpened, AreWithin, GoesOn, GoesOnAt, IsOfKind, IsOpened, Knows};
ghost use Rattle.damon_admin.specs.Kept.{MayGoOn, MayGoOnAt, MayPlay, MayRun, Plays, RunsOn};
ghost use Rattle.damon_admin.specs.Written.{fault_line};

use crate::fault::write_fault;
use crate::gather::Gathered;
use crate::stage::{Stage, completes, stage_after};
use damon_control::{MAX_BYTES, ReadFail, ScriptFault, read_script};
use damon_core::Monitor;
use rand_pcg::Lcg64Xsh32;
use script_run::{NoCallbacks, Player, open_waiting};
use snapshot_print::Form;
use std::alloc::{AllocError, Global};

// What plays the script of a context.
type ScriptPlayer = Player<Lcg64Xsh32, NoCallbacks>;

// One context, by its lines.
#[derive(Drop)]
pub enum Context {
    // The lines are no script; `left` of them are still to come.
    Faulty { fault: ScriptFault, left: u64 },
    // The lines are a script, which is played up to the last line that was done.
    Running { player: ScriptPlayer, stage: Stage },
}

// The context of lines that were gathered, before the first of them.
pub fn open_context(alloc: Global, gathered: Gathered) -> Result<Context, AllocError>
    requires { length gathered.text.items ≤ MAX_BYTES }
    ensures { IfOk result (λ context. IsOpened gathered context) }
{
    match read_script(alloc, &gathered.text) {
        Ok(script) => Ok(Context::Running {
            player: open_waiting(alloc, script, Form::Text)?,
            stage: Stage::Setup,
        }),
        Err(ReadFail::Script { fault }) => Ok(Context::Faulty {
            fault,
            left: gathered.lines,
        }),
        Err(ReadFail::Memory) => Err(AllocError),
    }
}

// The contexts of lines that were gathered, before the first of them.
pub fn open_contexts(alloc: Global, gathered: Vec<Gathered>) -> Result<Vec<Context>, AllocError>
    requires { AreWithin MAX_BYTES gathered.items }
    ensures { IfOk result (λ v. AreOpened gathered.items v.items) }
{
    let mut contexts = Vec::new(alloc);
    'contexts: for one in gathered {
        contexts.push(open_context(alloc, one)?)?;
    }
    Ok(contexts)
}

impl Context {
    // Does the next line of the context. What it writes is appended to `out`, which is empty.
    pub fn go_on(&mut self, alloc: Global, line: &[u8], out: &mut Vec<u8>) -> Result<(), AllocError>
        requires empty { out.old.items ≡ [] }
        requires next { MayGoOn line.now self.old }
        ensures on { OnOk result (GoesOn line.now self.old self.new out.new.items) }
        ensures kind { (own : List (List ℕ)) → IsOfKind own self.old → IsOfKind own self.new }
    {
        match self {
            Context::Faulty { fault, left } => pass_over(*fault, left, out),
            Context::Running { player, stage } => run(player, stage, alloc, line, out),
        }
    }

    // The monitor, where a script is played.
    pub fn monitor(&self) -> Option<&Monitor>
        ensures { Knows self.now result }
    {
        match self {
            Context::Faulty { .. } => None,
            Context::Running { player, .. } => Some(player.monitor()),
        }
    }
}

// Does the next line of one of the contexts.
pub fn go_on_at(
    contexts: &mut Vec<Context>,
    context: u32,
    alloc: Global,
    line: &[u8],
    out: &mut Vec<u8>,
) -> Result<(), AllocError>
    requires empty { out.old.items ≡ [] }
    requires next { MayGoOnAt context line.now contexts.old.items }
    ensures on { OnOk result (GoesOnAt context line.now contexts.old.items contexts.new.items
        out.new.items) }
    ensures kinds { AreOfKind contexts.old.items contexts.new.items }
{
    contexts[context as usize].go_on(alloc, line, out)
}

// Passes over a line of a context whose lines are no script, and writes its fault at the last.
fn pass_over(fault: ScriptFault, left: &mut u64, out: &mut Vec<u8>) -> Result<(), AllocError>
    requires { 1 ≤ left.old }
    ensures left { left.new ≡ left.old - 1 }
    ensures text { OnOk result (out.new.items ≡ out.old.items
        ++ (if left.new == 0 then fault_line fault else [])) }
{
    *left -= 1;
    if *left > 0 {
        return Ok(());
    }
    write_fault(out, fault)
}

// Does the next line of a script.
fn run(
    player: &mut ScriptPlayer,
    stage: &mut Stage,
    alloc: Global,
    line: &[u8],
    out: &mut Vec<u8>,
) -> Result<(), AllocError>
    requires empty { out.old.items ≡ [] }
    requires next { MayRun line.now player.old stage.old }
    ensures { OnOk result (RunsOn line.now player.old stage.old player.new stage.new out.new.items) }
{
    let after = stage_after(*stage, line);
    play(player, completes(*stage, after), after, alloc, out)?;
    *stage = after;
    Ok(())
}

// Plays the command that a line completes, or writes the last line of the report after the end.
fn play(
    player: &mut ScriptPlayer,
    completed: bool,
    after: Stage,
    alloc: Global,
    out: &mut Vec<u8>,
) -> Result<(), AllocError>
    requires { completed ≡ true → MayPlay player.old }
    ensures { OnOk result (Plays completed after player.old player.new
        out.old.items out.new.items) }
{
    if completed {
        return player.play_next(alloc, out);
    }
    if after == Stage::End {
        return player.write_last(alloc, out);
    }
    Ok(())
}
