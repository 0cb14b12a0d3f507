ghost use Rattle.std.specs.Prelude.{◌≡◌, ◌≤◌, ◌<◌, ◌^◌, List, Ok, Err, IfOk, IfErr, OnOk, codes, false, length};
ghost use Rattle.damon_types.specs.Space.{checked, pages_of};
ghost use Rattle.live_commit.specs.SetupView.{value_of};
ghost use Rattle.damon_control.specs.HeadView.{IsHead};
ghost use Rattle.damon_types.specs.declared.range.RangeSpec.{RangeSpec as spec};
ghost use Rattle.damon_types.specs.declared.scheme.SlotChange.{SlotChange as change};
ghost use Rattle.damon_types.specs.declared.space.Target.{Target as target};
ghost use Rattle.script_lines.specs.declared.setup.Frame.{Frame as frame};
ghost use Rattle.damon_control.specs.declared.fault.ReadFail.TheVariants.{Memory};
ghost use Rattle.script_lines.specs.Command.{work_of};
ghost use Rattle.script_lines.specs.Head.{setup_said};
ghost use Rattle.damon_control.specs.Left.{FaultOf, IsShort, MovesTo, first_begins, reads_left};
ghost use Rattle.script_lines.specs.Limits.{AreCommandsWithin};
ghost use Rattle.damon_control.specs.Script.{AtHeader, AtSchemes, InBody, begun, opened, script_of};
ghost use Rattle.damon_control.specs.declared.grammar.Grammar.TheVariants.{OfScript as of_script};
ghost use Rattle.damon_control.specs.ScriptView.{said_by};

use crate::body::read_body;
use crate::grammar::Grammar;
use crate::head::{read_frame, read_ranges, read_slots, read_targets};
use crate::lines::Lines;
use crate::script::MAX_WORK;
use crate::{ReadFail, Script, ScriptFault};
use damon_types::{RangeSpecs, SlotChanges, Space, Target};
use live_commit::Setup;
use script_lines::{Frame, alone};
use std::alloc::Global;

/// The most bytes of a text that is read as a script.
pub const MAX_BYTES: usize = 16_777_216;

/// Reads a script of at most [`MAX_BYTES`] bytes. For any other text, returns the first line that is
/// rejected and the first kind that applies to it. By the law [`texts_are_exactly_read`] a text is a
/// script exactly where it says one, line by line; by [`scripts_are_sound`] its script is within its
/// limits. Allocates; returns `Memory` only if out of memory.
///
/// [`texts_are_exactly_read`]: crate::texts_are_exactly_read
/// [`scripts_are_sound`]: crate::scripts_are_sound
pub fn read_script(alloc: Global, bytes: &[u8]) -> Result<Script, ReadFail>
    requires { length bytes.now ≤ MAX_BYTES }
    ensures script { IfOk result (λ s. script_of bytes.now ≡ Ok (said_by s)) }
    ensures fault { FaultOf result (script_of bytes.now) }
    ensures within { IfOk result (λ s.
        AreCommandsWithin (pages_of s.setup.space) s.commands.list) }
    ensures work { IfOk result (λ s.
        work_of s.setup.cap s.commands.list ≤ MAX_WORK) }
{
    let mut lines = Lines::new(bytes);
    let Opening { seed, setup } = read_opening(alloc, &mut lines)?;
    let commands = read_body(alloc, &mut lines, &setup)?;
    lines.end()?;
    Ok(Script {
        seed,
        setup,
        commands,
    })
}

// What the lines before the body say.
#[derive(Drop)]
struct Opening {
    seed: u64,
    setup: Setup,
}

// The lines of a setup: its numbers, and what is made of the others.
#[derive(Drop)]
pub struct Head {
    pub frame: Frame,
    pub space: Space,
    pub specs: RangeSpecs,
    pub slots: SlotChanges,
}

// Reads the lines up to the last scheme.
pub fn read_head(alloc: Global, lines: &mut Lines, form: Grammar) -> Result<Head, ReadFail>
    requires { IsShort lines.old }
    ensures ok { IfOk result (λ h. MovesTo form AtHeader lines.old
        (AtSchemes h.frame h.space h.specs.list h.slots.list) lines.new) }
    ensures fault { FaultOf result (reads_left form AtHeader lines.old) }
    ensures all { OnOk result (first_begins (codes "scheme") lines.new.rest.now ≡ false) }
    ensures sound { IfOk result (λ h. IsHead h) }
    ensures small { IsShort lines.new }
{
    let frame = read_frame(lines, form)?;
    let targets = read_targets(alloc, lines)?;
    let space = make_space(alloc, &targets)?;
    let specs = read_ranges(alloc, lines, &frame, &space)?;
    let slots = read_slots(alloc, lines, form, &frame)?;
    Ok(Head {
        frame,
        space,
        specs,
        slots,
    })
}

// Reads the lines up to `begin`.
fn read_opening(alloc: Global, lines: &mut Lines) -> Result<Opening, ReadFail>
    requires { IsShort lines.old }
    ensures ok { IfOk result (λ o.
        MovesTo of_script AtHeader lines.old (InBody (begun o.seed (value_of o.setup))) lines.new) }
    ensures fault { FaultOf result (reads_left of_script AtHeader lines.old) }
    ensures small { IsShort lines.new }
{
    let head = read_head(alloc, lines, Grammar::OfScript)?;
    read_begin(lines)?;
    let seed = head.frame.seed;
    let setup = make_setup(alloc, head)?;
    Ok(Opening { seed, setup })
}

// Reads the line `begin`.
fn read_begin(lines: &mut Lines) -> Result<(), ScriptFault>
    requires small { IsShort lines.old }
    requires all { first_begins (codes "scheme") lines.old.rest.now ≡ false }
    ensures ok { OnOk result ((f : frame) (ts : List target) (rs : List spec) (cs : List change) →
        MovesTo of_script (AtSchemes f ts rs cs) lines.old (InBody (opened f ts rs cs)) lines.new) }
    ensures fault { IfErr result (λ fault.
        (f : frame) (ts : List target) (rs : List spec) (cs : List change) →
        reads_left of_script (AtSchemes f ts rs cs) lines.old ≡ Err fault) }
    ensures small { IsShort lines.new }
{
    let line = lines.take_line()?;
    lines.refuse(alone(b"begin", line))
}

// The space of targets that are accepted.
fn make_space(alloc: Global, targets: &[Target]) -> Result<Space, ReadFail>
    requires sound { checked targets.now ≡ Ok tt }
    requires few { length targets.now < 2 ^ 32 }
    ensures space { IfOk result (λ s. s ≡ targets.now) }
    ensures memory { IfErr result (λ fail. fail ≡ Memory) }
{
    match Space::new(alloc, targets) {
        Ok(space) => Ok(space),
        // The targets are accepted, so memory ran out.
        Err(_) => Err(ReadFail::Memory),
    }
}

// The setup that accepted lines say.
pub fn make_setup(alloc: Global, head: Head) -> Result<Setup, ReadFail>
    requires { IsHead head }
    ensures setup { IfOk result (λ s.
        value_of s ≡ setup_said head.frame head.space head.specs.list head.slots.list) }
    ensures memory { IfErr result (λ fail. fail ≡ Memory) }
{
    let Head {
        frame,
        space,
        specs,
        slots,
    } = head;
    // For its clause alone: there are fewer than 2^32 slot changes.
    let _changes = slots.len();
    let setup = Setup::of_checked(
        alloc,
        frame.version,
        space,
        frame.unit,
        frame.cap,
        frame.attrs,
        specs.as_slice(),
        slots.as_slice(),
    )?;
    Ok(setup)
}
