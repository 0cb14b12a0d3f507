// Lines and parts of lines that are appended.
ghost use Rattle.std.specs.Prelude.{◌≡◌, ℕ, List, ◌++◌, ◌∷◌, [], OnOk};
ghost use Rattle.std.specs.Fmt.{decimal};
ghost use Rattle.line_text.specs.Appended.{KeepsFront};
ghost use Rattle.script_lines.specs.Lines.{lines_text};

use line_text::{append_field, end_line};
use std::alloc::AllocError;

// Appends a line.
#[tactic(auto, using(line_text::proofs::Lemmas::appends))]
pub(crate) fn write_line(out: &mut Vec<u8>, line: &[u8]) -> Result<(), AllocError>
    ensures ok { OnOk result (out.new.items ≡ out.old.items ++ lines_text (line.now ∷ [])) }
    ensures kept { KeepsFront out.old.items out.new.items }
{
    out.extend_from_slice(line)?;
    end_line(out)
}

// Appends two numbers, each after its words.
#[tactic(auto, using(line_text::proofs::Lemmas::appends))]
pub(crate) fn write_pair(
    out: &mut Vec<u8>,
    name: &[u8],
    first: u64,
    between: &[u8],
    second: u64,
) -> Result<(), AllocError>
    ensures ok { OnOk result (out.new.items
        ≡ out.old.items ++ (name.now ++ (decimal first ++ (between.now ++ decimal second)))) }
    ensures kept { KeepsFront out.old.items out.new.items }
{
    append_field(out, name, first)?;
    append_field(out, between, second)
}

// Appends a line of two numbers, each after its words.
#[tactic(auto, using(line_text::proofs::Lemmas::appends))]
pub(crate) fn write_pair_line(
    out: &mut Vec<u8>,
    name: &[u8],
    first: u64,
    between: &[u8],
    second: u64,
) -> Result<(), AllocError>
    ensures ok { OnOk result (out.new.items ≡ out.old.items
        ++ lines_text ((name.now ++ (decimal first ++ (between.now ++ decimal second))) ∷ [])) }
    ensures kept { KeepsFront out.old.items out.new.items }
{
    write_pair(out, name, first, between, second)?;
    end_line(out)
}

/// A line without its LF.
pub fn without_end(line: &[u8]) -> &[u8]
    ensures { (text : List ℕ) → line.now ≡ lines_text (text ∷ []) → result.now ≡ text }
{
    match line {
        [text @ .., _] => text,
        [] => line,
    }
}
