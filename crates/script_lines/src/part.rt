// The lines of a commit.
ghost use Rattle.std.specs.Prelude.{◌≡◌};
ghost use Rattle.live_commit.specs.Commit.{commit_value};
ghost use Rattle.script_lines.specs.Body.{change_line, drop_line, part_line, wants_attrs, wants_cost, wants_metric, wants_slot};

use crate::ScriptKind;
use crate::fields::{read_attrs, read_cost, read_range};
use crate::keys::read_scheme;
use crate::words::{arguments, first_word, one_word, read_8, read_32, same_word};
use damon_types::{Attrs, CostPart, RangeSpec, SlotChange, Version};
use live_commit::Commit;

/// What one line of a commit says.
#[derive(Drop)]
pub enum Part {
    Attrs(Attrs),
    Range(RangeSpec),
    Slot(SlotChange),
    Metric(u32),
    Cost(CostPart),
}

/// Reads a line of a commit of a version, after the parts that are there already.
pub fn read_part(version: Version, commit: &Commit, line: &[u8]) -> Result<Part, ScriptKind>
    ensures { result ≡ part_line version (commit_value commit.now) line.now }
{
    let word = first_word(line);
    if same_word(word, b"attrs") && wants_attrs(commit) {
        let attrs = read_attrs(arguments(b"attrs", line)?)?;
        Ok(Part::Attrs(attrs))
    } else if same_word(word, b"range") && wants_slot(commit) {
        let range = read_range(arguments(b"range", line)?)?;
        Ok(Part::Range(range))
    } else if same_word(word, b"scheme") && wants_slot(commit) {
        Ok(Part::Slot(read_change(version, line)?))
    } else if same_word(word, b"drop") && wants_slot(commit) {
        Ok(Part::Slot(read_drop(line)?))
    } else if same_word(word, b"metric") && wants_metric(commit) {
        let value = read_32(one_word(arguments(b"metric", line)?)?)?;
        Ok(Part::Metric(value))
    } else if same_word(word, b"cost") && wants_cost(version, commit) {
        let cost = read_cost(arguments(b"cost", line)?)?;
        Ok(Part::Cost(cost))
    } else {
        Err(ScriptKind::Word)
    }
}

// Whether a cost may still come: in version Two, and only one.
fn wants_cost(version: Version, commit: &Commit) -> bool
    ensures { result ≡ wants_cost version (commit_value commit.now) }
{
    match version {
        Version::One => false,
        Version::Two => commit.cost.is_none(),
    }
}

// Whether a metric may still come: before a metric and a cost.
fn wants_metric(commit: &Commit) -> bool
    ensures { result ≡ wants_metric (commit_value commit.now) }
{
    commit.metric.is_none() && commit.cost.is_none()
}

/// Whether ranges and a slot change may still come in a commit: before a slot change, a metric and a cost.
pub fn wants_slot(commit: &Commit) -> bool
    ensures { result ≡ wants_slot (commit_value commit.now) }
{
    commit.slot.is_none() && wants_metric(commit)
}

// Whether attributes may still come: before all else.
fn wants_attrs(commit: &Commit) -> bool
    ensures { result ≡ wants_attrs (commit_value commit.now) }
{
    commit.attrs.is_none() && commit.ranges.is_none() && wants_slot(commit)
}

// Reads `scheme SLOT ACTION KEYS`, of which only the form is checked.
fn read_change(version: Version, line: &[u8]) -> Result<SlotChange, ScriptKind>
    ensures { result ≡ change_line version line.now }
{
    let (slot, scheme) = read_scheme(version, arguments(b"scheme", line)?)?;
    Ok(SlotChange {
        slot,
        scheme: Some(scheme),
    })
}

// Reads `drop SLOT`.
fn read_drop(line: &[u8]) -> Result<SlotChange, ScriptKind>
    ensures { result ≡ drop_line line.now }
{
    let slot = read_8(one_word(arguments(b"drop", line)?)?)?;
    Ok(SlotChange { slot, scheme: None })
}
