// The head of a journal: its reader, and its one spelling.
ghost use Rattle.std.specs.Prelude.{◌≡◌, ◌≤◌, [], ◌∷◌, ◌++◌, List, Ok, Err, false, IfOk, IfErr, OnOk, codes, length};
ghost use Rattle.damon_types.specs.declared.range.RangeSpec.{RangeSpec as spec};
ghost use Rattle.damon_types.specs.declared.scheme.SlotChange.{SlotChange as change};
ghost use Rattle.damon_types.specs.declared.space.Target.{Target as target};
ghost use Rattle.live_commit.specs.SetupView.{value_of};
ghost use Rattle.script_lines.specs.declared.setup.Frame.{Frame as frame};
ghost use Rattle.line_text.specs.Appended.{KeepsFront};
ghost use Rattle.script_lines.specs.Lines.{lines_text};
ghost use Rattle.damon_control.specs.JournalHead.{head_at, head_lines, head_said};
ghost use Rattle.damon_control.specs.Left.{FaultOf, IsShort, MovesTo, first_begins, reads_left};
ghost use Rattle.damon_control.specs.Script.{AtEnd, AtHeader, AtSchemes, head_of, header_of};
ghost use Rattle.damon_control.specs.declared.grammar.Grammar.TheVariants.{OfJournal as of_journal};

use crate::grammar::Grammar;
use crate::head::header_of;
use crate::lines::Lines;
use crate::reader::{make_setup, read_head};
use crate::spelling::write_setup_lines;
use crate::{MAX_BYTES, ReadFail, ScriptFault};
use damon_types::Version;
use line_text::end_line;
use live_commit::Setup;
use script_lines::alone;
use std::alloc::{AllocError, Global};

/// What the head of a journal says: the seed of its random words, and its setup.
#[derive(Drop)]
pub struct JournalHead {
    pub seed: u64,
    pub setup: Setup,
}

/// Reads the head of a journal, of at most [`MAX_BYTES`] bytes: its first line, the lines of a
/// setup, each in its one spelling, and `begin`, after which nothing follows. For any other text,
/// returns the first line that is rejected and the first kind that applies to it. So a text that is
/// read is the one that [`write_journal_head`] appends for what it says. Allocates; returns `Memory`
/// only if out of memory.
pub fn read_journal_head(alloc: Global, bytes: &[u8]) -> Result<JournalHead, ReadFail>
    requires { length bytes.now ≤ MAX_BYTES }
    ensures head { IfOk result (λ h. head_of bytes.now ≡ Ok (head_said h)) }
    ensures fault { FaultOf result (head_of bytes.now) }
{
    let mut lines = Lines::new(bytes);
    let head = read_lines(alloc, &mut lines)?;
    lines.end()?;
    Ok(head)
}

// Reads the lines up to `begin`.
fn read_lines(alloc: Global, lines: &mut Lines) -> Result<JournalHead, ReadFail>
    requires { IsShort lines.old }
    ensures ok { IfOk result (λ h.
        MovesTo of_journal AtHeader lines.old (AtEnd (head_said h)) lines.new) }
    ensures fault { FaultOf result (reads_left of_journal AtHeader lines.old) }
    ensures small { IsShort lines.new }
{
    let head = read_head(alloc, lines, Grammar::OfJournal)?;
    read_begin(lines)?;
    let seed = head.frame.seed;
    let setup = make_setup(alloc, head)?;
    Ok(JournalHead { seed, setup })
}

// Reads the line `begin`.
fn read_begin(lines: &mut Lines) -> Result<(), ScriptFault>
    requires small { IsShort lines.old }
    requires all { first_begins (codes "scheme") lines.old.rest.now ≡ false }
    ensures ok { OnOk result ((f : frame) (ts : List target) (rs : List spec) (cs : List change) →
        MovesTo of_journal (AtSchemes f ts rs cs) lines.old (AtEnd (head_at f ts rs cs)) lines.new) }
    ensures fault { IfErr result (λ fault.
        (f : frame) (ts : List target) (rs : List spec) (cs : List change) →
        reads_left of_journal (AtSchemes f ts rs cs) lines.old ≡ Err fault) }
    ensures small { IsShort lines.new }
{
    let line = lines.take_line()?;
    lines.refuse(alone(b"begin", line))
}

/// Appends the head of a journal with this seed and setup, up to and with the line `begin`. When
/// out of memory, a prefix was appended.
pub fn write_journal_head(out: &mut Vec<u8>, seed: u64, setup: &Setup) -> Result<(), AllocError>
    ensures ok { OnOk result (out.new.items
        ≡ out.old.items ++ lines_text (head_lines seed (value_of setup.now))) }
    ensures kept { KeepsFront out.old.items out.new.items }
{
    write_header(out, setup.version)?;
    write_setup_lines(out, seed, setup)?;
    write_begin(out)
}

// Appends the first line.
#[tactic(auto, using(line_text::proofs::Lemmas::appends))]
fn write_header(out: &mut Vec<u8>, version: Version) -> Result<(), AllocError>
    ensures ok { OnOk result (out.new.items
        ≡ out.old.items ++ lines_text (header_of of_journal version ∷ [])) }
    ensures kept { KeepsFront out.old.items out.new.items }
{
    out.extend_from_slice(header_of(Grammar::OfJournal, version))?;
    end_line(out)
}

// Appends the last line.
#[tactic(auto, using(line_text::proofs::Lemmas::appends))]
fn write_begin(out: &mut Vec<u8>) -> Result<(), AllocError>
    ensures ok { OnOk result (out.new.items ≡ out.old.items ++ lines_text (codes "begin" ∷ [])) }
    ensures kept { KeepsFront out.old.items out.new.items }
{
    out.extend_from_slice(b"begin\n")
}
