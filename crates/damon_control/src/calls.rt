// The lines of controllers.
ghost use Rattle.std.specs.Prelude.{◌≡◌, List, [], ◌∷◌, ◌++◌, ◌≤◌, ◌<◌, ◌+◌, ◌||◌, true, false, Ok, Err, IfOk, IfErr, OnOk, codes, length, map};
ghost use Rattle.damon_control.specs.declared.grammar.Grammar.TheVariants.{OfLive as of_live};
ghost use Rattle.damon_control.specs.Left.{FaultOf, IsShort, MovesTo, first_begins, reads_left};
ghost use Rattle.damon_control.specs.Live.{CallValue, LiveValue as live, call_within, count_all};
ghost use Rattle.damon_control.specs.LiveView.{NoCall, call_value, calls_of, reads_call, reads_controller, with_controllers};
ghost use Rattle.damon_control.specs.Script.{InBody};

use crate::commit::read_commit;
use crate::lines::Lines;
use crate::live::{Call, CallList, CallLists, MAX_CALLS, MAX_CONTROLLERS};
use crate::{ReadFail, ScriptFault};
use damon_types::Version;
use script_lines::{ScriptKind, alone, first_word, read_block, same_word};
use std::alloc::Global;

// Reads the blocks of the controllers.
pub fn read_controllers(
    alloc: Global,
    lines: &mut Lines,
    version: Version,
) -> Result<CallLists, ReadFail>
    requires { IsShort lines.old }
    ensures ok { IfOk result (λ w. (v : live) → v.setup.version ≡ version →
        MovesTo of_live (InBody (with_controllers v [])) lines.old
        (InBody (with_controllers v (calls_of w.list))) lines.new) }
    ensures fault { (v : live) → v.setup.version ≡ version →
        FaultOf result (reads_left of_live (InBody (with_controllers v [])) lines.old) }
    ensures past { OnOk result (first_begins (codes "controller") lines.new.rest.now ≡ false) }
    ensures calls { IfOk result (λ w. 1 ≤ length w.list → NoCall lines.new.rest.now) }
    ensures same { IfOk result (λ w. w.list ≡ [] → lines.new ≡ lines.old) }
    ensures few { IfOk result (λ w. length w.list ≤ MAX_CONTROLLERS) }
    ensures sum { IfOk result (λ w. count_all (calls_of w.list) ≤ MAX_CALLS) }
    ensures small { IsShort lines.new }
{
    let mut controllers = CallLists::new(alloc);
    let mut calls = 0;
    'controllers: while lines.next_is(b"controller") {
        begin_controller(lines, controllers.len())?;
        let list = read_calls(alloc, lines, version, &mut calls)?;
        controllers.push(list)?;
    }
    Ok(controllers)
}

// Reads the line `controller`, after this many controllers.
fn begin_controller(lines: &mut Lines, count: u32) -> Result<(), ScriptFault>
    requires wanted { first_begins (codes "controller") lines.old.rest.now ≡ true }
    requires small { IsShort lines.old }
    ensures ok { OnOk result ((v : live) (cs : List (List CallValue)) → length cs ≡ count →
        MovesTo of_live (InBody (with_controllers v cs)) lines.old
        (InBody (with_controllers v (cs ++ [] ∷ []))) lines.new) }
    ensures fault { IfErr result (λ fault. (v : live) (cs : List (List CallValue)) →
        length cs ≡ count →
        reads_left of_live (InBody (with_controllers v cs)) lines.old ≡ Err fault) }
    ensures few { OnOk result (count < MAX_CONTROLLERS) }
    ensures small { IsShort lines.new }
    ensures shorter { OnOk result (length lines.new.rest.now < length lines.old.rest.now) }
{
    let line = take_controller(lines)?;
    lines.refuse(read_block(b"controller", line, count, MAX_CONTROLLERS))
}

// Takes a line that begins a controller.
fn take_controller<'a>(lines: &mut Lines<'a>) -> Result<&'a [u8], ScriptFault>
    requires wanted { first_begins (codes "controller") lines.old.rest.now ≡ true }
    requires small { IsShort lines.old }
    ensures line { IfOk result (λ line. (v : live) (cs : List (List CallValue)) →
        reads_left of_live (InBody (with_controllers v cs)) lines.old
        ≡ reads_controller v cs line.now lines.new) }
    ensures cut { IfErr result (λ fault. (v : live) (cs : List (List CallValue)) →
        reads_left of_live (InBody (with_controllers v cs)) lines.old ≡ Err fault) }
    ensures small { IsShort lines.new }
    ensures shorter { IfOk result (λ _. length lines.new.rest.now < length lines.old.rest.now) }
{
    let line = lines.take_line()?;
    Ok(line)
}

// Reads the calls of a controller, where those before it and its own are counted.
fn read_calls(
    alloc: Global,
    lines: &mut Lines,
    version: Version,
    calls: &mut u32,
) -> Result<CallList, ReadFail>
    requires small { IsShort lines.old }
    requires most { calls.old ≤ MAX_CALLS }
    ensures ok { IfOk result (λ l. (v : live) (cs : List (List CallValue)) → v.setup.version ≡ version
        → count_all cs ≡ calls.old →
        MovesTo of_live (InBody (with_controllers v (cs ++ [] ∷ []))) lines.old
        (InBody (with_controllers v (cs ++ map call_value l.list ∷ []))) lines.new) }
    ensures fault { (v : live) (cs : List (List CallValue)) → v.setup.version ≡ version
        → count_all cs ≡ calls.old →
        FaultOf result (reads_left of_live (InBody (with_controllers v (cs ++ [] ∷ []))) lines.old) }
    ensures sum { IfOk result (λ l. calls.new ≡ calls.old + length l.list) }
    ensures most { OnOk result (calls.new ≤ MAX_CALLS) }
    ensures past { OnOk result (NoCall lines.new.rest.now) }
    ensures small { IsShort lines.new }
    ensures shorter { OnOk result (length lines.new.rest.now ≤ length lines.old.rest.now) }
{
    let mut list = CallList::new(alloc);
    'calls: while is_called(lines) {
        let call = take_call(alloc, lines, version)?;
        lines.refuse(check_calls(*calls))?;
        list.push(call)?;
        *calls += 1;
    }
    Ok(list)
}

// Whether the next line is a show or begins a commit.
fn is_called(lines: &Lines) -> bool
    ensures { result ≡ (first_begins (codes "show") lines.now.rest.now
        || first_begins (codes "commit") lines.now.rest.now) }
{
    lines.next_is(b"show") || lines.next_is(b"commit")
}

// Checks that one call more is not too much.
fn check_calls(calls: u32) -> Result<(), ScriptKind>
    ensures exact { result ≡ call_within calls }
    ensures most { OnOk result (calls < MAX_CALLS) }
{
    if calls < MAX_CALLS {
        Ok(())
    } else {
        Err(ScriptKind::TooMuch)
    }
}

// Reads one more call, whose place among the calls is checked by the caller.
fn take_call(alloc: Global, lines: &mut Lines, version: Version) -> Result<Call, ReadFail>
    requires wanted { (first_begins (codes "show") lines.old.rest.now
        || first_begins (codes "commit") lines.old.rest.now) ≡ true }
    requires small { IsShort lines.old }
    ensures ok { IfOk result (λ c. (v : live) (cs : List (List CallValue)) (t : List CallValue) →
        v.setup.version ≡ version →
        reads_left of_live (InBody (with_controllers v (cs ++ t ∷ []))) lines.old
        ≡ reads_call v cs t (call_value c) lines.new) }
    ensures fault { (v : live) (cs : List (List CallValue)) (t : List CallValue) →
        v.setup.version ≡ version →
        FaultOf result (reads_left of_live (InBody (with_controllers v (cs ++ t ∷ []))) lines.old) }
    ensures small { IsShort lines.new }
    ensures shorter { OnOk result (length lines.new.rest.now < length lines.old.rest.now) }
{
    let line = lines.take_line()?;
    if same_word(first_word(line), b"commit") {
        lines.refuse(alone(b"commit", line))?;
        let commit = Box::new(alloc, read_commit(alloc, lines, version)?)?;
        Ok(Call::Commit { commit })
    } else {
        lines.refuse(alone(b"show", line))?;
        Ok(Call::Show)
    }
}
