ghost use Rattle.std.specs.Prelude.{◌≡◌, ◌≤◌, IfOk};
ghost use Rattle.damon_types.specs.Space.{pages_of};
ghost use Rattle.script_lines.specs.Command.{work_of};
ghost use Rattle.script_lines.specs.Limits.{AreCommandsWithin};
ghost use Rattle.damon_control.specs.ScriptView.{said_by};
ghost use Rattle.trace_gen.specs.Gen.{gen};

use crate::commands::make_commands;
use crate::setup::make_setup;
use damon_control::{MAX_WORK, Script};
use std::alloc::{AllocError, Global};

/// The generated script of a number: 2,000 passes over 1,024 pages, with the accesses that the number
/// modulo 4 asks for ([`Access`](crate::Access)), and one scheme. By the law
/// [`generated_scripts_are_sound`](crate::generated_scripts_are_sound) it is within the limits of
/// scripts. Allocates.
pub fn generate(alloc: Global, n: u64) -> Result<Script, AllocError>
    ensures script { IfOk result (λ s. said_by s ≡ gen n) }

    // What the player of a script needs.
    ensures within { IfOk result (λ s.
        AreCommandsWithin (pages_of s.setup.space) s.commands.list) }
    ensures work { IfOk result (λ s.
        work_of s.setup.cap s.commands.list ≤ MAX_WORK) }
{
    let setup = make_setup(alloc)?;
    let commands = make_commands(alloc, n)?;
    Ok(Script {
        seed: n,
        setup,
        commands,
    })
}
