ghost use Rattle.std.specs.Prelude.{◌≡◌, ◌≤◌, ◌+◌, length, vec_len, IfOk, OnOk, IsErrOf};
ghost use Rattle.std.specs.Io.KnownBytes.{Consumes, IsAtEnd};
ghost use Rattle.damon_types.specs.Calls.{EndsAtFault};
ghost use Rattle.text_io.specs.Given.{GaveOver, GaveUpTo};

use crate::PIECE;
use damon_types::{Failed, Source};
use std::alloc::{AllocError, Global};

/// The most bytes that an input may have.
pub const INPUT_LIMIT: usize = 16_777_216;

/// Why an input was not read to its end.
#[derive(Clone, Copy, Debug, PartialEq, Eq)]
pub enum InputFault {
    /// Memory for its bytes ran out.
    Memory,
    /// A read failed.
    Fault,
    /// The source gave more than [`INPUT_LIMIT`] bytes.
    TooLong,
}

impl From<AllocError> for InputFault {
    ghost use Rattle.text_io.specs.declared.input.InputFault.TheVariants.{Memory};

    ghost from_gives = { λ _ fault. fault ≡ Memory };

    fn from(_error: AllocError) -> InputFault {
        InputFault::Memory
    }
}

impl From<Failed> for InputFault {
    ghost use Rattle.text_io.specs.declared.input.InputFault.TheVariants.{Fault};

    ghost from_gives = { λ _ fault. fault ≡ Fault };

    fn from(_failed: Failed) -> InputFault {
        InputFault::Fault
    }
}

/// Reads the source to its end, in pieces of at most [`PIECE`] bytes, or to the byte after
/// [`INPUT_LIMIT`]. After a failed read the source is left alone.
pub fn read_all<S: Source>(alloc: Global, source: &mut S) -> Result<Vec<u8>, InputFault>
    // What was read.
    ensures all { IfOk result (λ v. Consumes (S.left source.old) (S.left source.new) v.items) }
    ensures end { OnOk result (IsAtEnd (S.left source.new)) }
    ensures limit { IfOk result (λ v. length v.items ≤ INPUT_LIMIT) }
    ensures most { GaveUpTo (INPUT_LIMIT + 1) (S.left source.old) (S.left source.new) }

    // When each refusal comes.
    ensures too_long { IsErrOf result InputFault.TooLong →
        GaveOver INPUT_LIMIT (S.left source.old) (S.left source.new) }
    ensures within { IsErrOf result InputFault.Fault →
        GaveUpTo INPUT_LIMIT (S.left source.old) (S.left source.new) }

    // How often the source was read. That each read but the last gives a byte is no clause.
    ensures reads { EndsAtFault (IsErrOf result InputFault.Fault)
        (S.calls source.old) (S.calls source.new) }
    ensures calls { (S.calls source.new).made ≤ (S.calls source.old).made + (INPUT_LIMIT + 1) }
{
    let mut piece = empty_piece(alloc)?;
    let mut bytes = Vec::new(alloc);
    'reads: while bytes.len() <= INPUT_LIMIT {
        let room = PIECE.min(INPUT_LIMIT + 1 - bytes.len());
        let part = &mut piece[..room];
        let count = source.read(part)?;
        if count == 0 {
            return Ok(bytes);
        }
        bytes.extend_from_slice(&part[..count])?;
    }
    Err(InputFault::TooLong)
}

// Room for one read.
fn empty_piece(alloc: Global) -> Result<Vec<u8>, AllocError>
    ensures { IfOk result (λ piece. vec_len piece ≡ PIECE) }
{
    vec![in alloc; 0; PIECE]
}
