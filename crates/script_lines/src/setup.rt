// The lines of a setup.
ghost use Rattle.std.specs.Prelude.{◌≡◌, ◌<◌, Ok, true, IfOk, OnOk, length};
ghost use Rattle.target_ranges.specs.Checked.{checked_next};
ghost use Rattle.live_commit.specs.Slots.{checked_slot, has_scheme};
ghost use Rattle.script_lines.specs.Head.{attrs_line, cap_line, is_changed, limited, one_target, range_line, scheme_line, seed_line, target_in, unit_line};
ghost use Rattle.script_lines.specs.Words.{words_in};

use crate::ScriptKind;
use crate::fields::{read_attrs, read_range};
use crate::keys::read_scheme;
use crate::words::{Words, arguments, one_word, read_32, read_64, read_byte_address, two_words};
use damon_types::{Attrs, RangeSpec, SlotChange, Space, Target, Version};
use live_commit::{MAX_CAP, MAX_UNIT, MIN_CAP};
use target_ranges::check_next;

/// What the lines of a setup say before its targets.
#[derive(Clone, Copy)]
pub struct Frame {
    pub version: Version,
    pub seed: u64,
    pub unit: u32,
    pub cap: u32,
    pub attrs: Attrs,
}

/// Reads `seed N`.
pub fn read_seed(line: &[u8]) -> Result<u64, ScriptKind>
    ensures { result ≡ seed_line line.now }
{
    read_64(one_word(arguments(b"seed", line)?)?)
}

/// Reads `unit PAGES`.
pub fn read_unit(line: &[u8]) -> Result<u32, ScriptKind>
    ensures { result ≡ unit_line line.now }
{
    let unit = read_32(one_word(arguments(b"unit", line)?)?)?;
    limited(1, MAX_UNIT, unit)
}

/// Reads `cap REGIONS`.
pub fn read_cap(line: &[u8]) -> Result<u32, ScriptKind>
    ensures { result ≡ cap_line line.now }
{
    let cap = read_32(one_word(arguments(b"cap", line)?)?)?;
    limited(MIN_CAP, MAX_CAP, cap)
}

// The number, where it is within these limits.
pub fn limited(least: u32, most: u32, number: u32) -> Result<u32, ScriptKind>
    ensures { result ≡ limited least most number }
{
    if least <= number && number <= most {
        Ok(number)
    } else {
        Err(ScriptKind::Limit)
    }
}

/// Reads `attrs MIN MAX AGGR`, where max is at most cap.
pub fn read_attrs_line(cap: u32, line: &[u8]) -> Result<Attrs, ScriptKind>
    ensures { result ≡ attrs_line cap line.now }
{
    let attrs = read_attrs(arguments(b"attrs", line)?)?;
    attrs.check().map_err(|why| ScriptKind::Attrs { why })?;
    if attrs.max > cap {
        return Err(ScriptKind::OverCap);
    }
    Ok(attrs)
}

/// Reads `target BASE PAGES`.
pub fn read_target_line(line: &[u8]) -> Result<Target, ScriptKind>
    ensures { result ≡ one_target line.now }
{
    read_target(arguments(b"target", line)?)
}

// Reads `BASE PAGES`.
fn read_target(words: Words) -> Result<Target, ScriptKind>
    ensures { result ≡ target_in (words_in words.entry) }
{
    let (base, pages) = two_words(words)?;
    Ok(Target {
        base: read_byte_address(base)?,
        pages: read_32(pages)?,
    })
}

/// Reads `range TARGET FROM TO CLASS` after other ranges.
pub fn read_range_line(
    frame: &Frame,
    space: &Space,
    before: &[RangeSpec],
    line: &[u8],
) -> Result<RangeSpec, ScriptKind>
    ensures exact { result ≡ range_line frame.now space.now before.now line.now }
    ensures accepted { IfOk result (λ s.
        checked_next space.now frame.now.unit frame.now.cap before.now s ≡ Ok tt) }
    ensures room { OnOk result (length before.now < frame.now.attrs.max) }
{
    let range = read_range(arguments(b"range", line)?)?;
    check_next(space, frame.unit, frame.cap, before, &range).map_err(|why| ScriptKind::Range {
        why,
    })?;
    if before.len() >= frame.attrs.max as usize {
        return Err(ScriptKind::RangesOverMax);
    }
    Ok(range)
}

/// Reads `scheme SLOT ACTION KEYS` of a version, after other schemes.
#[tactic(auto, using(crate::proofs::SlotLemmas::checked_slot_accepted))]
pub fn read_scheme_line(
    version: Version,
    before: &[SlotChange],
    line: &[u8],
) -> Result<SlotChange, ScriptKind>
    ensures exact { result ≡ scheme_line version before.now line.now }
    ensures accepted { IfOk result (λ c. checked_slot version (length before.now) before.now c ≡ Ok tt) }
    ensures set { IfOk result (λ c. has_scheme c ≡ true) }
{
    let (slot, scheme) = read_scheme(version, arguments(b"scheme", line)?)?;
    scheme
        .check_in(version, slot)
        .map_err(|why| ScriptKind::Scheme { why })?;
    if is_changed(slot, before) {
        return Err(ScriptKind::Repeated);
    }
    Ok(SlotChange {
        slot,
        scheme: Some(scheme),
    })
}

// Whether one of these changes is of this slot.
fn is_changed(slot: u8, changes: &[SlotChange]) -> bool
    ensures { result ≡ is_changed slot changes.now }
{
    changes.iter().any(|change| change.slot == slot)
}
