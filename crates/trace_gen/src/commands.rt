ghost use Rattle.std.specs.Prelude.{◌≡◌, ◌≤◌, ◌<◌, ◌+◌, ◌*◌, ◌%◌, ◌^◌, ◌++◌, length, IfOk, OnOk};
ghost use Rattle.script_lines.specs.Command.{Touch};
ghost use Rattle.trace_gen.specs.Gen.{access_of, block, blocks, strides, sweep, touches, zone_of};

use crate::access::{Access, zone_of};
use damon_control::{Command, Commands};
use std::alloc::{AllocError, Global};

/// The blocks of a generated script, each of which is one pass.
pub const BLOCKS: u32 = 2_000;

// The touches of a block of strides.
const STRIDES: u32 = 128;

// Room enough for the commands of a block.
const BLOCK_ROOM: u32 = STRIDES + 2;

// The commands of the generated script of a number.
pub fn make_commands(alloc: Global, n: u64) -> Result<Commands, AllocError>
    ensures { IfOk result (λ commands.
        commands.list ≡ blocks (access_of n) (zone_of n) BLOCKS) }
{
    let access = Access::of(n);
    let zone = zone_of(n);
    let mut commands = Commands::new(alloc);
    commands.reserve(BLOCKS * room_of(access))?;
    'passes: for t in 0..BLOCKS {
        add_block(&mut commands, access, zone, t)?;
    }
    Ok(commands)
}

// The commands of a block.
fn room_of(access: Access) -> u32
    ensures { result ≤ 130 }
{
    match access {
        Access::Stride => BLOCK_ROOM,
        Access::Sequential | Access::HotSpot | Access::Phases => 3,
    }
}

// Appends block `t`.
fn add_block(commands: &mut Commands, access: Access, zone: u32, t: u32) -> Result<(), AllocError>
    requires few { length commands.old.list ≤ 2 ^ 31 }
    requires zone { zone < 16 }
    requires block { t < BLOCKS }
    ensures { OnOk result (commands.new.list ≡ commands.old.list ++ block access zone t) }
{
    commands.push(Command::Arm)?;
    match access {
        Access::Sequential => add_sweep(commands, 16 * t % 1024, 16)?,
        Access::Stride => add_strides(commands, t)?,
        Access::HotSpot => add_sweep(commands, 64 * zone, 64)?,
        Access::Phases => add_sweep(commands, 64 * ((zone + t / 500) % 16), 64)?,
    }
    commands.push(Command::Finish)
}

// Appends a sweep of `count` pages, the first of which is `page`.
fn add_sweep(commands: &mut Commands, page: u32, count: u32) -> Result<(), AllocError>
    requires few { length commands.old.list ≤ 2 ^ 31 + 1 }
    requires page { page + count ≤ 1024 }
    ensures sweep { OnOk result (commands.new.list ≡ commands.old.list ++ sweep page count) }
    ensures few { length commands.new.list ≤ length commands.old.list + 1 }
{
    commands.push(Command::Sweep {
        from: page,
        to: page + count,
    })
}

// Appends the touches of a stride that begins at page `t`.
fn add_strides(commands: &mut Commands, t: u32) -> Result<(), AllocError>
    requires few { length commands.old.list ≤ 2 ^ 31 + 1 }
    requires block { t < BLOCKS }
    ensures touches { OnOk result (commands.new.list ≡ commands.old.list ++ strides t 128) }
    ensures few { length commands.new.list ≤ length commands.old.list + 128 }
{
    'strides: for j in 0..STRIDES {
        commands.push(Command::Touch {
            page: (8 * j + t) % 1024,
        })?;
    }
    Ok(())
}
