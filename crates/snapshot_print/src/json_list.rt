// Parts of the lists of a report in JSON whose length grows: rows and runs. Their items are written from
// the end to the start, like lines.
ghost use Rattle.std.specs.Prelude.{◌≡◌, ◌+◌, ◌≤◌, ◌++◌, length, take, drop, codes, OnOk};
ghost use Rattle.std.specs.Fmt.{decimal};
ghost use Rattle.line_text.specs.Address.{spelled_address};
ghost use Rattle.line_text.specs.Appended.{KeepsFront};
ghost use Rattle.snapshot_print.specs.declared.widths.TheConstants.{START_PART};

use crate::fields::short_field_before;
use line_text::{address_field_before, text_before};
use std::alloc::AllocError;

// Makes a list of the items from index `start` on, which each begin with a comma: the first comma becomes
// the bracket that opens the list.
#[tactic(auto, using(line_text::proofs::Lemmas::appends))]
pub(crate) fn close_list(out: &mut Vec<u8>, start: usize) -> Result<(), AllocError>
    requires { start ≤ length out.old.items }
    ensures ok { OnOk result (out.new.items ≡ take start out.old.items
        ++ (codes "[" ++ (drop (start + 1) out.old.items ++ codes "]"))) }
    ensures kept { KeepsFront (take start out.old.items) out.new.items }
{
    open_list(out, start)?;
    out.extend_from_slice(b"]")
}

// Puts the bracket that opens a list where its first comma is, or at the end of a list without items.
#[tactic(auto, using(line_text::proofs::Lemmas::appends))]
fn open_list(out: &mut Vec<u8>, start: usize) -> Result<(), AllocError>
    requires { start ≤ length out.old.items }
    ensures ok { OnOk result (out.new.items ≡ take start out.old.items
        ++ (codes "[" ++ drop (start + 1) out.old.items)) }
    ensures kept { KeepsFront (take start out.old.items) out.new.items }
{
    if start == out.len() {
        return out.extend_from_slice(b"[");
    }
    out[start] = b'[';
    Ok(())
}

// Writes the members `start` and `target` and the end of their object so that they end right before index
// `end`, and returns the index where they begin.
#[inline(always)]
pub(crate) fn start_before(bytes: &mut [u8], end: usize, from: u64, target: u32) -> usize
    requires room { START_PART ≤ end }
    requires within { end ≤ length bytes.old }
    ensures start { result ≤ end }
    ensures most { end ≤ result + START_PART }
    ensures written { drop result bytes.new ≡ codes ",\"start\":\"" ++ (spelled_address from
        ++ (codes "\",\"target\":" ++ (decimal target ++ (codes "}" ++ drop end bytes.old)))) }
{
    let brace = text_before(bytes, end, b"}");
    let number = short_field_before(bytes, brace, b"\",\"target\":", target);
    address_field_before(bytes, number, b",\"start\":\"", from)
}
