ghost use Rattle.std.specs.Prelude.{◌≡◌, ◌++◌, OnErr, OnOk};
ghost use Rattle.line_text.specs.Appended.{KeepsFront};
ghost use Rattle.reclaim_run.specs.Reclaimed.{counts_part, reclaim_line};
ghost use Rattle.reclaim_run.specs.Stands.{figures_of};

use line_text::{append_field, end_line, whole_or_nothing};
use reclaim_module::{Counts, Reclaim};
use std::alloc::AllocError;

// Appends the line of a model of resident pages at a tick. When out of memory, nothing is appended.
pub fn append_line(out: &mut Vec<u8>, tick: u64, model: &Reclaim) -> Result<(), AllocError>
    ensures ok { OnOk result (out.new.items
        ≡ out.old.items ++ reclaim_line tick (figures_of model.now)) }
    ensures err { OnErr result (out.new.items ≡ out.old.items) }
{
    let before = out.len();
    let appended = append_figures(out, tick, model);
    whole_or_nothing(out, before, appended)
}

// The same, but that where memory runs out, some of the line may have been appended.
#[tactic(auto, using(line_text::proofs::Lemmas::appends))]
fn append_figures(out: &mut Vec<u8>, tick: u64, model: &Reclaim) -> Result<(), AllocError>
    ensures ok { OnOk result (out.new.items
        ≡ out.old.items ++ reclaim_line tick (figures_of model.now)) }
    ensures kept { KeepsFront out.old.items out.new.items }
{
    append_field(out, b"reclaim tick=", tick)?;
    append_field(out, b" resident=", u64::from(model.resident()))?;
    append_field(out, b" out=", u64::from(model.out()))?;
    append_counts(out, model.counts())
}

// Appends how many pages went out and came back.
#[tactic(auto, using(line_text::proofs::Lemmas::appends))]
fn append_counts(out: &mut Vec<u8>, counts: Counts) -> Result<(), AllocError>
    ensures ok { OnOk result (out.new.items ≡ out.old.items ++ counts_part counts) }
    ensures kept { KeepsFront out.old.items out.new.items }
{
    append_field(out, b" pageouts=", counts.pageouts)?;
    append_field(out, b" refaults=", counts.refaults)?;
    append_field(out, b" prefetches=", counts.prefetches)?;
    end_line(out)
}
