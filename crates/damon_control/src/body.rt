ghost use Rattle.std.specs.Prelude.{◌≡◌, ℕ, IfSome, ◌≤◌, ◌<◌, ◌+◌, ◌-◌, IfOk, OnOk, Ok, Err, Some, None, length, nat_le};
ghost use Rattle.damon_types.specs.Space.{pages_of};
ghost use Rattle.live_commit.specs.Commit.{commit_value};
ghost use Rattle.live_commit.specs.SetupView.{value_of};
ghost use Rattle.script_lines.specs.Body.{no_commit};
ghost use Rattle.damon_control.specs.BodyLine.{LineIsWithin, body_at, body_said, script_at};
ghost use Rattle.script_lines.specs.Command.{command_value, weight, work_of};
ghost use Rattle.damon_control.specs.Left.{FaultOf, IsShort, MovesTo, reads_command, reads_commit, reads_left};
ghost use Rattle.script_lines.specs.Limits.{AreCommandsWithin, IsCommandWithin};
ghost use Rattle.script_lines.specs.Refusal.{only_if};
ghost use Rattle.damon_control.specs.Script.{AtEnd, Body, InBody, InCommit, Within, after_body, begun, version_in};
ghost use Rattle.damon_control.specs.declared.grammar.Grammar.{Grammar as grammar};
ghost use Rattle.damon_control.specs.declared.grammar.Grammar.TheVariants.{OfScript as of_script};
ghost use Rattle.script_lines.specs.declared.kind.ScriptKind.TheVariants.{TooMuch};

use crate::ReadFail;
use crate::commands::Commands;
use crate::commit::read_commit;
use crate::lines::Lines;
use crate::script::MAX_WORK;
use damon_types::{Space, Version};
use line_text::same_text;
use live_commit::{Commit, Setup};
use script_lines::{Command, ScriptKind, alone, first_word, read_command, same_word};
use std::alloc::Global;

// What a line of a body says.
pub enum BodyLine {
    // The script ends.
    End,
    // A commit begins.
    Commit,
    // A command of one line.
    Say(Command),
}

// Reads the commands of a script, up to its last line.
pub fn read_body(alloc: Global, lines: &mut Lines, setup: &Setup) -> Result<Commands, ReadFail>
    requires { IsShort lines.old }
    ensures ok { IfOk result (λ commands. (seed : ℕ) →
        MovesTo of_script (InBody (begun seed (value_of setup.now))) lines.old
        (AtEnd (script_at seed (value_of setup.now) commands.list)) lines.new) }
    ensures fault { (seed : ℕ) →
        FaultOf result (reads_left of_script (InBody (begun seed (value_of setup.now))) lines.old) }
    ensures within { IfOk result (λ commands.
        AreCommandsWithin (pages_of setup.now.space) commands.list) }
    ensures work { IfOk result (λ commands.
        work_of setup.now.cap commands.list ≤ MAX_WORK) }
    ensures small { IsShort lines.new }
{
    let mut commands = Commands::new(alloc);
    let mut work = 0;
    'lines: while let Some(sum) = take_command(alloc, lines, setup, &mut commands, work)? {
        work = sum;
    }
    Ok(commands)
}

// Reads one more command, and gives the work of all so far; or None where the script ends.
#[tactic(auto, using(crate::proofs::WorkLemmas::work_of_more, crate::proofs::WorkLemmas::within_more))]
fn take_command(
    alloc: Global,
    lines: &mut Lines,
    setup: &Setup,
    commands: &mut Commands,
    work: u64,
) -> Result<Option<u64>, ReadFail>
    requires small { IsShort lines.old }
    requires few { length commands.old.list ≤ lines.old.taken }
    requires most { work ≤ MAX_WORK }
    ensures more { IfOk result (λ answer. IfSome answer (λ sum. (seed : ℕ) →
        MovesTo of_script (InBody (body_at seed (value_of setup.now) commands.old.list work)) lines.old
        (InBody (body_at seed (value_of setup.now) commands.new.list sum)) lines.new)) }
    ensures end { IfOk result (λ answer. answer ≡ None → (seed : ℕ) →
        MovesTo of_script (InBody (body_at seed (value_of setup.now) commands.old.list work)) lines.old
        (AtEnd (script_at seed (value_of setup.now) commands.new.list)) lines.new) }
    ensures fault { (seed : ℕ) →
        let body = body_at seed (value_of setup.now) commands.old.list work in
        FaultOf result (reads_left of_script (InBody body) lines.old) }
    ensures sum { IfOk result (λ answer. IfSome answer (λ sum.
        sum + work_of setup.now.cap commands.old.list
        ≡ work + work_of setup.now.cap commands.new.list)) }
    ensures same { IfOk result (λ answer.
        answer ≡ None → commands.new ≡ commands.old) }
    ensures within { OnOk result (AreCommandsWithin (pages_of setup.now.space) commands.old.list
        → AreCommandsWithin (pages_of setup.now.space) commands.new.list) }
    ensures few { OnOk result (length commands.new.list ≤ lines.new.taken) }
    ensures most { IfOk result (λ answer. IfSome answer (λ sum. sum ≤ MAX_WORK)) }
    ensures small { IsShort lines.new }
    ensures shorter { OnOk result (length lines.new.rest.now < length lines.old.rest.now) }
{
    let Some(command) = next_command(alloc, lines, setup)? else {
        return Ok(None);
    };
    let sum = lines.refuse(added_work(work, setup.cap, &command))?;
    commands.push(command)?;
    Ok(Some(sum))
}

// Reads the next command, or None where the script ends.
fn next_command(
    alloc: Global,
    lines: &mut Lines,
    setup: &Setup,
) -> Result<Option<Command>, ReadFail>
    requires { IsShort lines.old }
    ensures command { IfOk result (λ answer. IfSome answer (λ c. (b : Body) →
        b.said.setup ≡ value_of setup.now →
        reads_left of_script (InBody b) lines.old
        ≡ reads_command b (command_value c) lines.new)) }
    ensures end { IfOk result (λ answer. answer ≡ None → (b : Body) →
        b.said.setup ≡ value_of setup.now →
        MovesTo of_script (InBody b) lines.old (AtEnd b.said) lines.new) }
    ensures fault { (b : Body) → b.said.setup ≡ value_of setup.now →
        FaultOf result (reads_left of_script (InBody b) lines.old) }
    ensures within { IfOk result (λ answer. IfSome answer (λ c.
        IsCommandWithin (pages_of setup.now.space) (command_value c))) }
    ensures later { OnOk result (lines.old.taken < lines.new.taken) }
    ensures shorter { OnOk result (length lines.new.rest.now < length lines.old.rest.now) }
    ensures small { IsShort lines.new }
{
    if let Some(page) = lines.take_touch(&setup.space) {
        return Ok(Some(Command::Touch { page }));
    }
    next_other(alloc, lines, setup)
}

// The same, where the next line is read as any other. It is kept apart: its locals would be cleared for each
// touch.
#[inline(never)]
fn next_other(alloc: Global, lines: &mut Lines, setup: &Setup) -> Result<Option<Command>, ReadFail>
    requires { IsShort lines.old }
    ensures command { IfOk result (λ answer. IfSome answer (λ c. (b : Body) →
        b.said.setup ≡ value_of setup.now →
        reads_left of_script (InBody b) lines.old
        ≡ reads_command b (command_value c) lines.new)) }
    ensures end { IfOk result (λ answer. answer ≡ None → (b : Body) →
        b.said.setup ≡ value_of setup.now →
        MovesTo of_script (InBody b) lines.old (AtEnd b.said) lines.new) }
    ensures fault { (b : Body) → b.said.setup ≡ value_of setup.now →
        FaultOf result (reads_left of_script (InBody b) lines.old) }
    ensures within { IfOk result (λ answer. IfSome answer (λ c.
        IsCommandWithin (pages_of setup.now.space) (command_value c))) }
    ensures later { OnOk result (lines.old.taken < lines.new.taken) }
    ensures shorter { OnOk result (length lines.new.rest.now < length lines.old.rest.now) }
    ensures small { IsShort lines.new }
{
    let line = lines.take_line()?;
    match lines.refuse(read_body_line(&setup.space, line))? {
        BodyLine::End => Ok(None),
        BodyLine::Commit => {
            let commit = next_commit(alloc, lines, setup.version)?;
            Ok(Some(Command::Commit { commit }))
        }
        BodyLine::Say(command) => Ok(Some(command)),
    }
}

// Reads the lines of a commit after its first. It is kept apart: a commit has room for a scheme, which would
// be cleared for each line of a body.
#[inline(never)]
fn next_commit(alloc: Global, lines: &mut Lines, version: Version) -> Result<Box<Commit>, ReadFail>
    requires { IsShort lines.old }
    ensures ok { IfOk result (λ c. (g : grammar) (b : Within g) → version_in g b ≡ version →
        reads_left g (InCommit b no_commit) lines.old ≡ reads_commit g b (commit_value c.value) lines.new) }
    ensures fault { (g : grammar) (b : Within g) → version_in g b ≡ version →
        FaultOf result (reads_left g (InCommit b no_commit) lines.old) }
    ensures later { OnOk result (lines.old.taken ≤ lines.new.taken) }
    ensures shorter { OnOk result (length lines.new.rest.now < length lines.old.rest.now) }
    ensures small { IsShort lines.new }
{
    let commit = read_commit(alloc, lines, version)?;
    let boxed = Box::new(alloc, commit)?;
    Ok(boxed)
}

// Reads a line of a body.
fn read_body_line(space: &Space, line: &[u8]) -> Result<BodyLine, ScriptKind>
    ensures exact { (b : Body) → b.said.setup.space ≡ space.now
        → body_said b result ≡ after_body b line.now }
    ensures within { IfOk result (λ line. LineIsWithin (pages_of space.now) line) }
{
    // Most lines that are no touches are one of these two.
    if same_text(line, b"arm") {
        return Ok(BodyLine::Say(Command::Arm));
    }
    if same_text(line, b"finish") {
        return Ok(BodyLine::Say(Command::Finish));
    }
    let word = first_word(line);
    if same_word(word, b"end") {
        alone(b"end", line)?;
        Ok(BodyLine::End)
    } else if same_word(word, b"commit") {
        alone(b"commit", line)?;
        Ok(BodyLine::Commit)
    } else {
        Ok(BodyLine::Say(read_command(space, line)?))
    }
}

// The work so far and that of one more command, where both are within the limit.
fn added_work(work: u64, cap: u32, command: &Command) -> Result<u64, ScriptKind>
    requires { work ≤ MAX_WORK }
    ensures exact { let sum = work + weight cap (command_value command.now) in
        result ≡ only_if (nat_le sum MAX_WORK) TooMuch sum }
    ensures sum { IfOk result (λ sum. sum ≡ work + weight cap (command_value command.now)) }
    ensures most { IfOk result (λ sum. sum ≤ MAX_WORK) }
{
    let sum = work + command.weight(cap);
    if sum <= MAX_WORK {
        Ok(sum)
    } else {
        Err(ScriptKind::TooMuch)
    }
}
