// Appending to a text.
ghost use Rattle.std.specs.Prelude.{◌≡◌, ◌++◌, OnErr, OnOk, codes, take};
ghost use Rattle.std.specs.Fmt.{decimal};
ghost use Rattle.line_text.specs.Appended.{KeepsFront};

use crate::write_number;
use std::alloc::AllocError;

/// Appends a field: its name, and a number in decimal. Allocates; on an error a part of it may have been
/// appended.
#[tactic(auto, using(crate::proofs::Appending::appends))]
pub fn append_field(out: &mut Vec<u8>, name: &[u8], value: u64) -> Result<(), AllocError>
    ensures ok { OnOk result (out.new.items ≡ out.old.items ++ (name.now ++ decimal value)) }
    ensures kept { KeepsFront out.old.items out.new.items }
{
    out.extend_from_slice(name)?;
    write_number(out, value)
}

/// Ends a line. Allocates.
#[tactic(auto, using(crate::proofs::Appending::appends))]
pub fn end_line(out: &mut Vec<u8>) -> Result<(), AllocError>
    ensures ok { OnOk result (out.new.items ≡ out.old.items ++ codes "\n") }
    ensures kept { KeepsFront out.old.items out.new.items }
{
    out.extend_from_slice(b"\n")
}

/// Removes what was appended after the first `before` bytes, if writing failed.
pub fn whole_or_nothing<T, E>(
    out: &mut Vec<u8>,
    before: usize,
    written: Result<T, E>,
) -> Result<T, E>
    ensures same { result ≡ written }
    ensures ok { OnOk result (out.new.items ≡ out.old.items) }
    ensures err { OnErr result (out.new.items ≡ take before out.old.items) }
{
    if written.is_err() {
        out.truncate(before);
    }
    written
}
