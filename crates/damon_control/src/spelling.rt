// Appending the lines of a setup and of a commit, each in its one spelling.
ghost use Rattle.std.specs.Prelude.{◌≡◌, ◌+◌, ◌<◌, [], ◌∷◌, ◌++◌, map, OnErr, OnOk, All, option_map};
ghost use Rattle.damon_types.specs.Space.{pages_of};
ghost use Rattle.live_commit.specs.Commit.{commit_value};
ghost use Rattle.live_commit.specs.SetupView.{value_of};
ghost use Rattle.line_text.specs.Appended.{KeepsFront};
ghost use Rattle.script_lines.specs.Spelling.{spelled_range, spelled_target};
ghost use Rattle.script_lines.specs.Lines.{lines_text};
ghost use Rattle.damon_control.specs.WriteBack.{SpellsRanges};
ghost use Rattle.script_lines.specs.WrittenLine.{change_text};
ghost use Rattle.damon_control.specs.Written.{commit_text, number_lines, part_given, part_text, ranges_given, setup_text, spec_of};
ghost use Rattle.script_lines.specs.declared.part.Part.TheVariants.{Attrs as attrs_part, Slot as slot_part, Metric as metric_part, Cost as cost_part};

use damon_types::{
    Attrs, CostPart, PAGE_SIZE, Range, RangeSpec, RangeSpecs, Ranges, SlotChange, Space,
};
use line_text::whole_or_nothing;
use live_commit::{Commit, Setup};
use script_lines::{
    Part, write_attrs, write_change_line, write_cost, write_number_line, write_range, write_target,
};
use std::alloc::{AllocError, Global};

/// Appends the lines of a seed and a setup, as they stand in a script between its first line, which says
/// the version, and `begin`, each ended by its LF: the seed, the unit, the cap, the attributes, the targets,
/// the ranges by their addresses, and the schemes. A key whose value is the default is left out. By the law
/// [`setups_are_read_back`] they are read as the same seed and setup. When out of memory, nothing is
/// appended.
///
/// [`setups_are_read_back`]: crate::setups_are_read_back
pub fn write_setup(
    alloc: Global,
    out: &mut Vec<u8>,
    seed: u64,
    setup: &Setup,
) -> Result<(), AllocError>
    ensures ok { OnOk result (out.new.items ≡ out.old.items ++ setup_text seed (value_of setup.now)) }
    ensures err { OnErr result (out.new.items ≡ out.old.items) }
{
    let before = out.len();
    let written = write_setup_lines(out, seed, setup);
    whole_or_nothing(out, before, written)
}

/// Appends the lines of a commit, as they stand in a script between `commit` and `apply`, each ended by
/// its LF: its attributes, its ranges, its slot change, its metric and its cost, where it has them. A
/// key whose value is the default is left out. By the law [`commits_are_read_back`] they are read as
/// the same commit, in a text of version Two where it has a cost or a quota with a time. No text spells an
/// empty list of ranges, so a commit may not have one. The ranges of a commit are given by addresses already,
/// so nothing is asked of the space. When out of memory, nothing is appended.
///
/// [`commits_are_read_back`]: crate::commits_are_read_back
pub fn write_commit(
    alloc: Global,
    out: &mut Vec<u8>,
    space: &Space,
    commit: &Commit,
) -> Result<(), AllocError>
    requires { SpellsRanges (commit_value commit.now) }
    ensures ok { OnOk result (out.new.items ≡ out.old.items ++ commit_text (commit_value commit.now)) }
    ensures err { OnErr result (out.new.items ≡ out.old.items) }
{
    let before = out.len();
    let written = write_parts(out, commit);
    whole_or_nothing(out, before, written)
}

/// Appends the lines of a commit, as [`write_commit`] does. When out of memory, a prefix was appended.
pub fn write_parts(out: &mut Vec<u8>, commit: &Commit) -> Result<(), AllocError>
    ensures ok { OnOk result (out.new.items ≡ out.old.items ++ commit_text (commit_value commit.now)) }
    ensures kept { KeepsFront out.old.items out.new.items }
{
    write_new_attrs(out, &commit.attrs)?;
    write_new_ranges(out, &commit.ranges)?;
    write_new_slot(out, &commit.slot)?;
    write_new_metric(out, commit.metric)?;
    write_new_cost(out, commit.cost)
}

/// Appends the line of one part of a commit, with its LF. When out of memory, a prefix was
/// appended.
#[tactic(auto, using(line_text::proofs::Lemmas::appends))]
pub fn write_part(out: &mut Vec<u8>, part: &Part) -> Result<(), AllocError>
    ensures ok { OnOk result (out.new.items
        ≡ out.old.items ++ lines_text (part_text part.now ∷ [])) }
    ensures kept { KeepsFront out.old.items out.new.items }
{
    match part {
        Part::Attrs(attrs) => write_attrs(out, attrs),
        Part::Range(range) => write_range(out, range),
        Part::Slot(change) => write_change_line(out, change),
        Part::Metric(value) => write_number_line(out, b"metric ", u64::from(*value)),
        Part::Cost(cost) => write_cost(out, cost),
    }
}

// Appends the lines of a seed and a setup.
pub fn write_setup_lines(out: &mut Vec<u8>, seed: u64, setup: &Setup) -> Result<(), AllocError>
    ensures ok { OnOk result (out.new.items ≡ out.old.items ++ setup_text seed (value_of setup.now)) }
    ensures kept { KeepsFront out.old.items out.new.items }
{
    write_numbers(out, seed, setup.unit, setup.cap, &setup.attrs)?;
    write_targets(out, &setup.space)?;
    write_ranges(out, &setup.space, &setup.ranges)?;
    write_changes(out, setup.slots.as_slice())
}

// Appends the lines before the targets.
#[tactic(auto, using(line_text::proofs::Lemmas::appends))]
fn write_numbers(
    out: &mut Vec<u8>,
    seed: u64,
    unit: u32,
    cap: u32,
    attrs: &Attrs,
) -> Result<(), AllocError>
    ensures ok { OnOk result (out.new.items
        ≡ out.old.items ++ lines_text (number_lines seed unit cap attrs.now)) }
    ensures kept { KeepsFront out.old.items out.new.items }
{
    write_number_line(out, b"seed ", seed)?;
    write_number_line(out, b"unit ", u64::from(unit))?;
    write_number_line(out, b"cap ", u64::from(cap))?;
    write_attrs(out, attrs)
}

// Appends the lines of the targets.
fn write_targets(out: &mut Vec<u8>, space: &Space) -> Result<(), AllocError>
    ensures ok { OnOk result (out.new.items
        ≡ out.old.items ++ lines_text (map spelled_target space.now)) }
    ensures kept { KeepsFront out.old.items out.new.items }
{
    for index in 0..space.targets() {
        write_target(out, &space.target(index))?;
    }
    Ok(())
}

// Appends the lines of ranges of pages.
fn write_ranges(out: &mut Vec<u8>, space: &Space, ranges: &Ranges) -> Result<(), AllocError>
    requires { All (λ g. g.first < pages_of space.now) ranges.now.list }
    ensures ok { OnOk result (out.new.items ≡ out.old.items
        ++ lines_text (map (λ g. spelled_range (spec_of space.now g)) ranges.now.list)) }
    ensures kept { KeepsFront out.old.items out.new.items }
{
    for index in 0..ranges.len() {
        let spec = spec_of(space, ranges.get(index));
        write_range(out, &spec)?;
    }
    Ok(())
}

// A range by its addresses.
fn spec_of(space: &Space, range: Range) -> RangeSpec
    requires { range.first < pages_of space.now }
    ensures { result ≡ spec_of space.now range }
{
    let from = space.addr_of(range.first).addr;
    RangeSpec {
        target: range.target,
        from,
        to: from + PAGE_SIZE * u64::from(range.pages),
        class: range.class,
    }
}

// Appends the lines of slot changes.
fn write_changes(out: &mut Vec<u8>, changes: &[SlotChange]) -> Result<(), AllocError>
    ensures ok { OnOk result (out.new.items
        ≡ out.old.items ++ lines_text (map change_text changes.now)) }
    ensures kept { KeepsFront out.old.items out.new.items }
{
    for change in changes {
        write_change_line(out, change)?;
    }
    Ok(())
}

// Appends the line of new attributes, if there are some.
#[tactic(auto, using(line_text::proofs::Lemmas::appends))]
fn write_new_attrs(out: &mut Vec<u8>, attrs: &Option<Attrs>) -> Result<(), AllocError>
    ensures ok { OnOk result (out.new.items ≡ out.old.items
        ++ lines_text (map part_text (part_given (λ a. attrs_part a) attrs.now))) }
    ensures kept { KeepsFront out.old.items out.new.items }
{
    match attrs {
        Some(attrs) => write_attrs(out, attrs),
        None => Ok(()),
    }
}

// Appends the lines of new ranges, if there are some.
fn write_new_ranges(out: &mut Vec<u8>, ranges: &Option<RangeSpecs>) -> Result<(), AllocError>
    ensures ok { OnOk result (out.new.items ≡ out.old.items
        ++ lines_text (map part_text (ranges_given (option_map (λ l. l.list) ranges.now)))) }
    ensures kept { KeepsFront out.old.items out.new.items }
{
    match ranges {
        Some(ranges) => write_specs(out, ranges.as_slice()),
        None => Ok(()),
    }
}

// Appends the lines of ranges.
fn write_specs(out: &mut Vec<u8>, specs: &[RangeSpec]) -> Result<(), AllocError>
    ensures ok { OnOk result (out.new.items
        ≡ out.old.items ++ lines_text (map spelled_range specs.now)) }
    ensures kept { KeepsFront out.old.items out.new.items }
{
    for spec in specs {
        write_range(out, spec)?;
    }
    Ok(())
}

// Appends the line of a new slot change, if there is one.
#[tactic(auto, using(line_text::proofs::Lemmas::appends))]
fn write_new_slot(out: &mut Vec<u8>, slot: &Option<SlotChange>) -> Result<(), AllocError>
    ensures ok { OnOk result (out.new.items ≡ out.old.items
        ++ lines_text (map part_text (part_given (λ c. slot_part c) slot.now))) }
    ensures kept { KeepsFront out.old.items out.new.items }
{
    match slot {
        Some(change) => write_change_line(out, change),
        None => Ok(()),
    }
}

// Appends the line of a new metric, if there is one.
#[tactic(auto, using(line_text::proofs::Lemmas::appends))]
fn write_new_metric(out: &mut Vec<u8>, metric: Option<u32>) -> Result<(), AllocError>
    ensures ok { OnOk result (out.new.items ≡ out.old.items
        ++ lines_text (map part_text (part_given (λ m. metric_part m) metric))) }
    ensures kept { KeepsFront out.old.items out.new.items }
{
    match metric {
        Some(value) => write_number_line(out, b"metric ", u64::from(value)),
        None => Ok(()),
    }
}

// Appends the line of a new cost, if there is one.
#[tactic(auto, using(line_text::proofs::Lemmas::appends))]
fn write_new_cost(out: &mut Vec<u8>, cost: Option<CostPart>) -> Result<(), AllocError>
    ensures ok { OnOk result (out.new.items ≡ out.old.items
        ++ lines_text (map part_text (part_given (λ p. cost_part p) cost))) }
    ensures kept { KeepsFront out.old.items out.new.items }
{
    match cost {
        Some(cost) => write_cost(out, &cost),
        None => Ok(()),
    }
}
