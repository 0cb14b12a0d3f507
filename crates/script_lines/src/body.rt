// The lines of a body: each command but a commit has one.
ghost use Rattle.std.specs.Prelude.{◌≡◌, ℕ, ◌<◌, ◌+◌, ◌-◌, IfOk, Ok, Err, Some, None};
ghost use Rattle.std.specs.Option.{ok_or};
ghost use Rattle.damon_types.specs.Space.{page_of, pages_of};
ghost use Rattle.script_lines.specs.Body.{command_line, step_line, sweep_line, touch_line};
ghost use Rattle.script_lines.specs.Command.{command_said, command_value};
ghost use Rattle.script_lines.specs.Limits.{IsCommandWithin};
ghost use Rattle.script_lines.specs.declared.kind.ScriptKind.TheVariants.{Outside};

use crate::ScriptKind;
use crate::command::{Command, MAX_STEPS};
use crate::setup::limited;
use crate::words::{
    alone, arguments, first_word, one_word, read_32, read_byte_address, same_word, three_words,
    two_words,
};
use damon_types::{PAGE_SIZE, Space, pages_rise};

/// Reads a command of one line.
pub fn read_command(space: &Space, line: &[u8]) -> Result<Command, ScriptKind>
    ensures exact { command_said result ≡ command_line space.now line.now }
    ensures within { IfOk result (λ c. IsCommandWithin (pages_of space.now) (command_value c)) }
{
    let word = first_word(line);
    if same_word(word, b"touch") {
        read_touch(space, line)
    } else if same_word(word, b"sweep") {
        read_sweep(space, line)
    } else if same_word(word, b"step") {
        read_step(line)
    } else if same_word(word, b"arm") {
        alone(b"arm", line)?;
        Ok(Command::Arm)
    } else if same_word(word, b"finish") {
        alone(b"finish", line)?;
        Ok(Command::Finish)
    } else if same_word(word, b"show") {
        alone(b"show", line)?;
        Ok(Command::Show)
    } else {
        Err(ScriptKind::Word)
    }
}

// Reads `touch TARGET ADDRESS`.
pub fn read_touch(space: &Space, line: &[u8]) -> Result<Command, ScriptKind>
    ensures exact { command_said result ≡ touch_line space.now line.now }
    ensures within { IfOk result (λ c. IsCommandWithin (pages_of space.now) (command_value c)) }
{
    let (target, addr) = two_words(arguments(b"touch", line)?)?;
    let target = read_32(target)?;
    let addr = read_byte_address(addr)?;
    let page = read_page(space, target, addr)?;
    Ok(Command::Touch { page })
}

// The page that holds a byte.
fn read_page(space: &Space, target: u32, addr: u64) -> Result<u32, ScriptKind>
    ensures exact { result ≡ ok_or (page_of space.now target addr) Outside }
    ensures below { IfOk result (λ page. page < pages_of space.now) }
{
    pages_rise();
    match space.page_of(target, addr) {
        Some(page) => Ok(page),
        None => Err(ScriptKind::Outside),
    }
}

// Reads `sweep TARGET FROM TO`.
pub fn read_sweep(space: &Space, line: &[u8]) -> Result<Command, ScriptKind>
    ensures exact { command_said result ≡ sweep_line space.now line.now }
    ensures within { IfOk result (λ c. IsCommandWithin (pages_of space.now) (command_value c)) }
{
    pages_rise();
    // There are at most 1,048,576 pages.
    let _targets = space.targets();
    let (target, from, to) = three_words(arguments(b"sweep", line)?)?;
    let target = read_32(target)?;
    let from = read_byte_address(from)?;
    let to = read_byte_address(to)?;
    if from % PAGE_SIZE != 0 || to % PAGE_SIZE != 0 || from >= to {
        return Err(ScriptKind::Limit);
    }
    let first = read_page(space, target, from)?;
    let last = read_page(space, target, to - PAGE_SIZE)?;
    Ok(Command::Sweep {
        from: first,
        to: last + 1,
    })
}

// Reads `step TIMES`.
fn read_step(line: &[u8]) -> Result<Command, ScriptKind>
    ensures exact { command_said result ≡ step_line line.now }
    ensures within { (pages : ℕ) → IfOk result (λ c. IsCommandWithin pages (command_value c)) }
{
    let times = read_32(one_word(arguments(b"step", line)?)?)?;
    let times = limited(1, MAX_STEPS, times)?;
    Ok(Command::Step { times })
}
