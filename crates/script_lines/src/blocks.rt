// The lines of a live script that a script does not have: the passes, the first lines of blocks, and
// the touches of a worker.
ghost use Rattle.std.specs.Prelude.{◌≡◌, ◌≤◌, ◌<◌, ◌+◌, ◌-◌, IfOk, OnOk};
ghost use Rattle.damon_types.specs.Space.{pages_of};
ghost use Rattle.script_lines.specs.Blocks.{block_line, page_list, pages_said, passes_line, touched, touched_of, touches_within, touching};
ghost use Rattle.script_lines.specs.Command.{command_said, command_value};
ghost use Rattle.script_lines.specs.Limits.{IsCommandWithin};

use crate::ScriptKind;
use crate::body::{read_sweep, read_touch};
use crate::command::Command;
use crate::setup::limited;
use crate::words::{alone, arguments, first_word, one_word, read_32, same_word};
use damon_types::Space;

/// The most passes of a live script.
pub const MAX_PASSES: u32 = 1_000_000;

/// The most touches of all workers of a live script; a sweep counts its pages.
pub const MAX_TOUCHES: u32 = 1_048_576;

/// Reads `passes N`.
pub fn read_passes(line: &[u8]) -> Result<u32, ScriptKind>
    ensures exact { result ≡ passes_line line.now }
    ensures some { IfOk result (λ n. 1 ≤ n) }
    ensures most { IfOk result (λ n. n ≤ MAX_PASSES) }
{
    let passes = read_32(one_word(arguments(b"passes", line)?)?)?;
    limited(1, MAX_PASSES, passes)
}

/// Reads a line of this word alone, which begins a block: `count` blocks stand before it, and at most
/// `most` are allowed.
pub fn read_block(word: &[u8], line: &[u8], count: u32, most: u32) -> Result<(), ScriptKind>
    ensures exact { result ≡ block_line word.now line.now count most }
    ensures few { OnOk result (count < most) }
{
    alone(word, line)?;
    if count < most {
        Ok(())
    } else {
        Err(ScriptKind::Limit)
    }
}

/// The pages from one to before another.
#[derive(Clone, Copy)]
pub struct Pages {
    pub from: u32,
    pub to: u32,
}

// Reads the pages of a touch or a sweep.
fn read_pages(space: &Space, line: &[u8]) -> Result<Pages, ScriptKind>
    ensures exact { pages_said result ≡ touched_of (touching space.now line.now) }
    ensures rise { IfOk result (λ p. p.from ≤ p.to) }
    ensures within { IfOk result (λ p. p.to ≤ pages_of space.now) }
{
    let command = read_touching(space, line)?;
    Ok(command_pages(space, &command))
}

// Reads a touch or a sweep.
fn read_touching(space: &Space, line: &[u8]) -> Result<Command, ScriptKind>
    ensures exact { command_said result ≡ touching space.now line.now }
    ensures within { IfOk result (λ c. IsCommandWithin (pages_of space.now) (command_value c)) }
{
    if same_word(first_word(line), b"touch") {
        read_touch(space, line)
    } else {
        read_sweep(space, line)
    }
}

// The pages that a command touches: none, but for a touch or a sweep.
fn command_pages(space: &Space, command: &Command) -> Pages
    requires { IsCommandWithin (pages_of space.now) (command_value command.now) }
    ensures exact { page_list result ≡ touched (command_value command.now) }
    ensures rise { result.from ≤ result.to }
    ensures within { result.to ≤ pages_of space.now }
{
    // There are at most 1,048,576 pages.
    let _targets = space.targets();
    match command {
        Command::Touch { page } => Pages {
            from: *page,
            to: *page + 1,
        },
        Command::Sweep { from, to } => Pages {
            from: *from,
            to: *to,
        },
        _ => Pages { from: 0, to: 0 },
    }
}

/// Reads a touch or a sweep, after this many touches.
pub fn read_touches(space: &Space, line: &[u8], touches: u32) -> Result<Pages, ScriptKind>
    requires { touches ≤ MAX_TOUCHES }
    ensures exact { pages_said result ≡ touches_within space.now line.now touches }
    ensures rise { IfOk result (λ p. p.from ≤ p.to) }
    ensures most { IfOk result (λ p. touches + (p.to - p.from) ≤ MAX_TOUCHES) }
    ensures within { IfOk result (λ p. p.to ≤ pages_of space.now) }
{
    let pages = read_pages(space, line)?;
    if pages.to - pages.from <= MAX_TOUCHES - touches {
        Ok(pages)
    } else {
        Err(ScriptKind::TooMuch)
    }
}
