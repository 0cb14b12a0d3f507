ghost use Rattle.std.specs.Prelude.{◌≡◌, ◌≤◌, ◌<◌, ◌^◌, Ok, Err, true, false, IfOk, IfErr, OnOk, is_ok, List, [], ◌-◌, codes, length};
ghost use Rattle.damon_types.specs.declared.range.RangeSpec.{RangeSpec as spec};
ghost use Rattle.damon_types.specs.declared.space.Target.{Target as target};
ghost use Rattle.damon_types.specs.Space.{checked};
ghost use Rattle.target_ranges.specs.Checked.{checked_ranges};
ghost use Rattle.script_lines.specs.declared.setup.Frame.{Frame as frame};
ghost use Rattle.live_commit.specs.Checked.{checked_cap, checked_unit};
ghost use Rattle.live_commit.specs.Slots.{checked_slot, checked_slots, has_scheme, kept_slots};
ghost use Rattle.script_lines.specs.Limits.{AreLimits};
ghost use Rattle.damon_control.specs.Left.{FaultOf, IsShort, IsWanted, MovesTo, first_begins, reads_left};
ghost use Rattle.damon_control.specs.Script.{AtAttrs, AtHeader, AtRanges, AtSchemes, AtTargets, header_of, scheme_line_in, version_said};
ghost use Rattle.damon_control.specs.declared.grammar.Grammar.{Grammar as grammar};
ghost use Rattle.script_lines.specs.Refusal.{only_if};
ghost use Rattle.script_lines.specs.declared.kind.ScriptKind.TheVariants.{Limit};
ghost use Rattle.script_lines.specs.Words.{same_word};
ghost use Rattle.script_lines.specs.WrittenLine.{change_text};
ghost use Rattle.damon_control.specs.declared.grammar.Grammar.TheVariants.{OfJournal as of_journal};

use crate::grammar::Grammar;
use crate::lines::Lines;
use crate::{MAX_BYTES, ReadFail, ScriptFault};
use damon_types::{RangeSpecs, SlotChange, SlotChanges, Space, Target, Version};
use live_commit::MAX_CAP;
use script_lines::{
    Frame, ScriptKind, read_attrs_line, read_cap, read_range_line, read_scheme_line, read_seed,
    read_target_line, read_unit, same_word, write_change_line,
};
use std::alloc::{AllocError, Global};

// Reads the lines before the targets.
pub fn read_frame(lines: &mut Lines, form: Grammar) -> Result<Frame, ScriptFault>
    requires { IsShort lines.old }
    ensures ok { IfOk result (λ f. MovesTo form AtHeader lines.old (AtTargets f []) lines.new) }
    ensures fault { IfErr result (λ fault. reads_left form AtHeader lines.old ≡ Err fault) }
    ensures limits { IfOk result (λ f. AreLimits f) }
    ensures small { IsShort lines.new }
{
    let (version, seed, unit, cap) = read_numbers(lines, form)?;
    let line = lines.take_line()?;
    let attrs = lines.refuse(read_attrs_line(cap, line))?;
    Ok(Frame {
        version,
        seed,
        unit,
        cap,
        attrs,
    })
}

// Reads the lines before the attributes: the version, the seed, the unit and the cap.
fn read_numbers(lines: &mut Lines, form: Grammar) -> Result<(Version, u64, u32, u32), ScriptFault>
    requires { IsShort lines.old }
    ensures ok { IfOk result (λ n. MovesTo form AtHeader lines.old (AtAttrs n.0 n.1 n.2 n.3) lines.new) }
    ensures fault { IfErr result (λ fault. reads_left form AtHeader lines.old ≡ Err fault) }
    ensures unit { IfOk result (λ n. checked_unit n.2 ≡ Ok tt) }
    ensures cap { IfOk result (λ n. checked_cap n.3 ≡ Ok tt) }
    ensures small { IsShort lines.new }
{
    let line = lines.take_line()?;
    let version = lines.refuse(read_header(line, form))?;
    let line = lines.take_line()?;
    let seed = lines.refuse(read_seed(line))?;
    let line = lines.take_line()?;
    let unit = lines.refuse(read_unit(line))?;
    let line = lines.take_line()?;
    let cap = lines.refuse(read_cap(line))?;
    Ok((version, seed, unit, cap))
}

// Reads the lines of the targets, at least one.
pub fn read_targets(alloc: Global, lines: &mut Lines) -> Result<Vec<Target>, ReadFail>
    requires { IsShort lines.old }
    ensures ok { IfOk result (λ v. (g : grammar) (f : frame) →
        MovesTo g (AtTargets f []) lines.old (AtRanges f v.items []) lines.new) }
    ensures fault { (g : grammar) (f : frame) →
        FaultOf result (reads_left g (AtTargets f []) lines.old) }
    ensures sound { IfOk result (λ v. checked v.items ≡ Ok tt) }
    ensures small { IsShort lines.new }
{
    let mut targets = Vec::new(alloc);
    take_target(lines, &mut targets)?;
    'targets: while lines.next_is(b"target") {
        take_target(lines, &mut targets)?;
    }
    Ok(targets)
}

// Reads one more `target BASE PAGES`.
fn take_target(lines: &mut Lines, targets: &mut Vec<Target>) -> Result<(), ReadFail>
    requires wanted { IsWanted (codes "target") (length targets.old.items) lines.old }
    requires small { IsShort lines.old }
    requires few { length targets.old.items < 2 ^ 32 - 1 }
    ensures ok { OnOk result ((g : grammar) (f : frame) →
        MovesTo g (AtTargets f targets.old.items) lines.old
        (AtTargets f targets.new.items) lines.new) }
    ensures fault { (g : grammar) (f : frame) →
        FaultOf result (reads_left g (AtTargets f targets.old.items) lines.old) }
    ensures sound { OnOk result (checked targets.new.items ≡ Ok tt) }
    ensures some { OnOk result (1 ≤ length targets.new.items) }
    ensures few { OnOk result (length targets.new.items ≤ 64) }
    ensures small { IsShort lines.new }
    ensures shorter { OnOk result (length lines.new.rest.now < length lines.old.rest.now) }
{
    let line = lines.take_line()?;
    let target = lines.refuse(read_target_line(line))?;
    targets.push(target)?;
    lines.refuse(check_targets(targets))?;
    Ok(())
}

// Whether targets make a space.
fn check_targets(targets: &[Target]) -> Result<(), ScriptKind>
    requires { length targets.now < 2 ^ 32 }
    ensures { result ≡ only_if (is_ok (checked targets.now)) Limit (tt {0}) }
{
    match Space::check(targets) {
        Ok(()) => Ok(()),
        Err(_) => Err(ScriptKind::Limit),
    }
}

// Reads the lines of the ranges, at least one.
pub fn read_ranges(
    alloc: Global,
    lines: &mut Lines,
    frame: &Frame,
    space: &Space,
) -> Result<RangeSpecs, ReadFail>
    requires small { IsShort lines.old }
    requires cap { frame.now.cap ≤ MAX_CAP }
    ensures ok { IfOk result (λ specs. (g : grammar) →
        MovesTo g (AtRanges frame.now space.now []) lines.old
        (AtSchemes frame.now space.now specs.list []) lines.new) }
    ensures fault { (g : grammar) →
        FaultOf result (reads_left g (AtRanges frame.now space.now []) lines.old) }
    ensures sound { IfOk result (λ specs.
        checked_ranges space.now frame.now.unit frame.now.cap specs.list ≡ Ok tt) }
    ensures some { IfOk result (λ specs. 1 ≤ length specs.list) }
    ensures most { IfOk result (λ specs. length specs.list ≤ frame.now.attrs.max) }
    ensures small { IsShort lines.new }
{
    let mut specs = RangeSpecs::new(alloc);
    take_range(lines, frame, space, &mut specs)?;
    'more: while lines.next_is(b"range") {
        take_range(lines, frame, space, &mut specs)?;
    }
    Ok(specs)
}

// Reads one more `range TARGET FROM TO CLASS`.
#[tactic(auto, using(crate::proofs::SetupChecks::one_more))]
fn take_range(
    lines: &mut Lines,
    frame: &Frame,
    space: &Space,
    specs: &mut RangeSpecs,
) -> Result<(), ReadFail>
    requires wanted { IsWanted (codes "range") (length specs.old.list) lines.old }
    requires small { IsShort lines.old }
    requires cap { frame.now.cap ≤ MAX_CAP }
    requires sound { checked_ranges space.now frame.now.unit frame.now.cap specs.old.list ≡ Ok tt }
    ensures ok { OnOk result ((g : grammar) →
        MovesTo g (AtRanges frame.now space.now specs.old.list) lines.old
        (AtRanges frame.now space.now specs.new.list) lines.new) }
    ensures fault { (g : grammar) →
        FaultOf result (reads_left g (AtRanges frame.now space.now specs.old.list) lines.old) }
    ensures sound { OnOk result (
        checked_ranges space.now frame.now.unit frame.now.cap specs.new.list ≡ Ok tt) }
    ensures some { OnOk result (1 ≤ length specs.new.list) }
    ensures most { OnOk result (length specs.new.list ≤ frame.now.attrs.max) }
    ensures small { IsShort lines.new }
    ensures shorter { OnOk result (length lines.new.rest.now < length lines.old.rest.now) }
{
    let line = lines.take_line()?;
    let spec = lines.refuse(read_range_line(frame, space, specs.as_slice(), line))?;
    specs.push(spec)?;
    Ok(())
}

// Reads the lines of the schemes.
pub fn read_slots(
    alloc: Global,
    lines: &mut Lines,
    form: Grammar,
    frame: &Frame,
) -> Result<SlotChanges, ReadFail>
    requires small { IsShort lines.old }
    ensures ok { IfOk result (λ slots. (ts : List target) (rs : List spec) →
        MovesTo form (AtSchemes frame.now ts rs []) lines.old
        (AtSchemes frame.now ts rs slots.list) lines.new) }
    ensures fault { (ts : List target) (rs : List spec) →
        FaultOf result (reads_left form (AtSchemes frame.now ts rs []) lines.old) }
    ensures all { OnOk result (first_begins (codes "scheme") lines.new.rest.now ≡ false) }
    ensures sound { IfOk result (λ slots. checked_slots frame.now.version slots.list ≡ Ok tt) }
    ensures set { IfOk result (λ slots. kept_slots slots.list ≡ slots.list) }
    ensures few { IfOk result (λ slots. length slots.list ≤ MAX_BYTES) }
    ensures small { IsShort lines.new }
{
    let mut slots = SlotChanges::new(alloc);
    'schemes: while lines.next_is(b"scheme") {
        let line = lines.take_line()?;
        let said = read_change(alloc, form, frame.version, slots.as_slice(), line)?;
        let change = lines.refuse(said)?;
        slots.push(change)?;
    }
    Ok(slots)
}

// Reads a line of schemes. In a journal the line is compared with its one spelling.
fn read_change(
    alloc: Global,
    form: Grammar,
    version: Version,
    before: &[SlotChange],
    line: &[u8],
) -> Result<Result<SlotChange, ScriptKind>, AllocError>
    ensures exact { IfOk result (λ said. said ≡ scheme_line_in form version before.now line.now) }
    ensures accepted { IfOk result (λ said.
        IfOk said (λ c. checked_slot version (length before.now) before.now c ≡ Ok tt)) }
    ensures set { IfOk result (λ said. IfOk said (λ c. has_scheme c ≡ true)) }
{
    match form {
        Grammar::OfScript | Grammar::OfLive => Ok(read_scheme_line(version, before, line)),
        Grammar::OfJournal => read_spelled(alloc, version, before, line),
    }
}

// Reads a line of schemes that is in its one spelling.
fn read_spelled(
    alloc: Global,
    version: Version,
    before: &[SlotChange],
    line: &[u8],
) -> Result<Result<SlotChange, ScriptKind>, AllocError>
    ensures exact { IfOk result (λ said.
        said ≡ scheme_line_in of_journal version before.now line.now) }
    ensures accepted { IfOk result (λ said.
        IfOk said (λ c. checked_slot version (length before.now) before.now c ≡ Ok tt)) }
    ensures set { IfOk result (λ said. IfOk said (λ c. has_scheme c ≡ true)) }
{
    match read_scheme_line(version, before, line) {
        Ok(change) => {
            let spelling = spell(alloc, &change)?;
            if same_word(line, &spelling) {
                Ok(Ok(change))
            } else {
                Ok(Err(ScriptKind::Form))
            }
        }
        Err(kind) => Ok(Err(kind)),
    }
}

// The line that is written of a slot change.
fn spell(alloc: Global, change: &SlotChange) -> Result<Vec<u8>, AllocError>
    ensures { IfOk result (λ text. text.items ≡ change_text change.now) }
{
    let mut text = Vec::new(alloc);
    write_change_line(&mut text, change)?;
    // Its LF is not part of the line.
    text.pop();
    Ok(text)
}

// Reads the first line.
fn read_header(line: &[u8], form: Grammar) -> Result<Version, ScriptKind>
    ensures { result ≡ version_said form line.now }
{
    if same_word(line, header_of(form, Version::One)) {
        Ok(Version::One)
    } else if same_word(line, header_of(form, Version::Two)) {
        Ok(Version::Two)
    } else {
        Err(ScriptKind::Header)
    }
}

// The first line of a text of this version.
pub fn header_of(form: Grammar, version: Version) -> &'static [u8]
    ensures { result.now ≡ header_of form version }
{
    match (form, version) {
        (Grammar::OfScript, Version::One) => b"damon script 1",
        (Grammar::OfScript, Version::Two) => b"damon script 2",
        (Grammar::OfLive, Version::One) => b"damon live 1",
        (Grammar::OfLive, Version::Two) => b"damon live 2",
        (Grammar::OfJournal, Version::One) => b"damon journal 1",
        (Grammar::OfJournal, Version::Two) => b"damon journal 2",
    }
}
