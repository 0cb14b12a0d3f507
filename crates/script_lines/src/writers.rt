// Appending single lines, each in its one spelling and with its LF.
ghost use Rattle.std.specs.Prelude.{◌≡◌, [], ◌∷◌, ◌++◌, OnOk};
ghost use Rattle.std.specs.Fmt.{decimal};
ghost use Rattle.line_text.specs.Appended.{KeepsFront};
ghost use Rattle.script_lines.specs.Lines.{lines_text};
ghost use Rattle.script_lines.specs.Spelling.{spelled_attrs, spelled_cost, spelled_range, spelled_target};
ghost use Rattle.script_lines.specs.WrittenLine.{change_text};

use crate::written::{write_address, write_change};
use damon_types::{Attrs, CostPart, RangeSpec, SlotChange, Target};
use line_text::{append_field, end_line};
use std::alloc::AllocError;

/// Appends a line of a word and a number.
#[tactic(auto, using(line_text::proofs::Lemmas::appends))]
pub fn write_number_line(out: &mut Vec<u8>, name: &[u8], value: u64) -> Result<(), AllocError>
    ensures ok { OnOk result (out.new.items
        ≡ out.old.items ++ lines_text ((name.now ++ decimal value) ∷ [])) }
    ensures kept { KeepsFront out.old.items out.new.items }
{
    append_field(out, name, value)?;
    end_line(out)
}

/// Appends `attrs MIN MAX AGGR`.
#[tactic(auto, using(line_text::proofs::Lemmas::appends))]
pub fn write_attrs(out: &mut Vec<u8>, attrs: &Attrs) -> Result<(), AllocError>
    ensures ok { OnOk result (out.new.items
        ≡ out.old.items ++ lines_text (spelled_attrs attrs.now ∷ [])) }
    ensures kept { KeepsFront out.old.items out.new.items }
{
    append_field(out, b"attrs ", u64::from(attrs.min))?;
    append_field(out, b" ", u64::from(attrs.max))?;
    append_field(out, b" ", u64::from(attrs.aggr))?;
    end_line(out)
}

/// Appends `target BASE PAGES`.
#[tactic(auto, using(line_text::proofs::Lemmas::appends))]
pub fn write_target(out: &mut Vec<u8>, target: &Target) -> Result<(), AllocError>
    ensures ok { OnOk result (out.new.items
        ≡ out.old.items ++ lines_text (spelled_target target.now ∷ [])) }
    ensures kept { KeepsFront out.old.items out.new.items }
{
    write_address(out, b"target ", target.base)?;
    append_field(out, b" ", u64::from(target.pages))?;
    end_line(out)
}

/// Appends `range TARGET FROM TO CLASS`.
#[tactic(auto, using(line_text::proofs::Lemmas::appends))]
pub fn write_range(out: &mut Vec<u8>, range: &RangeSpec) -> Result<(), AllocError>
    ensures ok { OnOk result (out.new.items
        ≡ out.old.items ++ lines_text (spelled_range range.now ∷ [])) }
    ensures kept { KeepsFront out.old.items out.new.items }
{
    append_field(out, b"range ", u64::from(range.target))?;
    write_address(out, b" ", range.from)?;
    write_address(out, b" ", range.to)?;
    append_field(out, b" ", u64::from(range.class))?;
    end_line(out)
}

/// Appends the line of a slot change.
#[tactic(auto, using(line_text::proofs::Lemmas::appends))]
pub fn write_change_line(out: &mut Vec<u8>, change: &SlotChange) -> Result<(), AllocError>
    ensures ok { OnOk result (out.new.items
        ≡ out.old.items ++ lines_text (change_text change.now ∷ [])) }
    ensures kept { KeepsFront out.old.items out.new.items }
{
    write_change(out, change)?;
    end_line(out)
}

/// Appends `cost SLOT NANOSECONDS`.
#[tactic(auto, using(line_text::proofs::Lemmas::appends))]
pub fn write_cost(out: &mut Vec<u8>, cost: &CostPart) -> Result<(), AllocError>
    ensures ok { OnOk result (out.new.items
        ≡ out.old.items ++ lines_text (spelled_cost cost.now ∷ [])) }
    ensures kept { KeepsFront out.old.items out.new.items }
{
    append_field(out, b"cost ", u64::from(cost.slot))?;
    append_field(out, b" ", cost.nanos)?;
    end_line(out)
}
