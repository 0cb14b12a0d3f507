ghost use Rattle.std.specs.Prelude.{◌≡◌, ◌≤◌, ◌<◌, ◌-◌, ◌^◌, IfOk, IfSome, OnErr, OnOk, Ok, Some, None, option_map, length, Result};
ghost use Rattle.live_commit.specs.Commit.{commit_value};
ghost use Rattle.script_lines.specs.Body.{no_commit, with_part, with_range};
ghost use Rattle.damon_control.specs.declared.grammar.Grammar.{Grammar as grammar};
ghost use Rattle.damon_control.specs.Left.{FaultOf, IsShort, reads_commit, reads_left};
ghost use Rattle.damon_control.specs.Script.{InCommit, Within, version_in};

use crate::ReadFail;
use crate::lines::Lines;
use damon_types::{RangeSpec, RangeSpecs, Version};
use live_commit::Commit;
use script_lines::{Part, alone, first_word, leading_range, read_part, same_word, wants_slot};
use std::alloc::{AllocError, Global};

/// The commit of which no part is read.
pub fn empty_commit() -> Commit
    ensures { commit_value result ≡ no_commit }
{
    Commit {
        attrs: None,
        ranges: None,
        slot: None,
        metric: None,
        cost: None,
    }
}

// Reads the lines of a commit after its first, up to the line `apply`, in a text of this version.
pub fn read_commit(alloc: Global, lines: &mut Lines, version: Version) -> Result<Commit, ReadFail>
    requires { IsShort lines.old }
    ensures ok { IfOk result (λ c. (g : grammar) (b : Within g) → version_in g b ≡ version →
        reads_left g (InCommit b no_commit) lines.old
        ≡ reads_commit g b (commit_value c) lines.new) }
    ensures fault { (g : grammar) (b : Within g) → version_in g b ≡ version →
        FaultOf result (reads_left g (InCommit b no_commit) lines.old) }
    ensures later { OnOk result (lines.old.taken ≤ lines.new.taken) }
    ensures shorter { OnOk result (length lines.new.rest.now < length lines.old.rest.now) }
    ensures small { IsShort lines.new }
{
    let mut commit = empty_commit();
    'lines: loop {
        read_ranges(alloc, lines, &mut commit)?;
        let line = lines.take_line()?;
        if same_word(first_word(line), b"apply") {
            lines.refuse(alone(b"apply", line))?;
            return Ok(commit);
        }
        let part = lines.refuse(read_part(version, &commit, line))?;
        add_part(alloc, &mut commit, part)?;
    }
}

// Takes the range lines that come next, where ranges may come. Read as any other line, each would have
// room for a scheme cleared and copied.
fn read_ranges(alloc: Global, lines: &mut Lines, commit: &mut Commit) -> Result<(), AllocError>
    requires small { IsShort lines.old }
    requires few { IfSome commit.old.ranges (λ l. length l.list ≤ lines.old.taken) }
    ensures said { OnOk result ((g : grammar) (b : Within g) →
        reads_left g (InCommit b (commit_value commit.old)) lines.old
        ≡ reads_left g (InCommit b (commit_value commit.new)) lines.new) }
    ensures few { OnOk result (IfSome commit.new.ranges (λ l. length l.list ≤ lines.new.taken)) }
    ensures later { OnOk result (lines.old.taken ≤ lines.new.taken) }
    ensures shorter { OnOk result (length lines.new.rest.now ≤ length lines.old.rest.now) }
    ensures small { IsShort lines.new }
{
    if !wants_slot(commit) {
        return Ok(());
    }
    'lines: while let Some((range, rest)) = leading_range(lines.rest) {
        lines.rest = rest;
        lines.taken += 1;
        add_range(alloc, &mut commit.ranges, range)?;
    }
    Ok(())
}

/// Adds a part to those of a commit: new ranges come after those that are there, and any other part
/// takes the place of the one that is there. When out of memory, nothing is added.
pub fn add_part(alloc: Global, commit: &mut Commit, part: Part) -> Result<(), AllocError>
    requires { IfSome commit.old.ranges (λ l. length l.list < 2 ^ 32 - 1) }
    ensures ok { OnOk result (commit_value commit.new ≡ with_part (commit_value commit.old) part) }
    ensures err { OnErr result (commit_value commit.new ≡ commit_value commit.old) }
{
    match part {
        Part::Range(range) => return add_range(alloc, &mut commit.ranges, range),
        Part::Attrs(attrs) => commit.attrs = Some(attrs),
        Part::Slot(change) => commit.slot = Some(change),
        Part::Metric(value) => commit.metric = Some(value),
        Part::Cost(cost) => commit.cost = Some(cost),
    }
    Ok(())
}

// Adds a range to those of a commit. When out of memory, nothing is added.
fn add_range(
    alloc: Global,
    ranges: &mut Option<RangeSpecs>,
    range: RangeSpec,
) -> Result<(), AllocError>
    requires { IfSome ranges.old (λ l. length l.list < 2 ^ 32 - 1) }
    ensures ok { OnOk result (option_map (λ l. l.list) ranges.new
        ≡ with_range (option_map (λ l. l.list) ranges.old) range) }
    ensures err { OnErr result (option_map (λ l. l.list) ranges.new
        ≡ option_map (λ l. l.list) ranges.old) }
{
    match ranges {
        Some(list) => list.push(range),
        None => {
            let mut list = RangeSpecs::new(alloc);
            list.push(range)?;
            *ranges = Some(list);
            Ok(())
        }
    }
}
