// Handing over a text that is made a piece at a time.
ghost use Rattle.std.specs.Prelude.{◌≡◌, ℕ, ◌<◌, List, Ok, IsErrOf, OnOk, vec_len};
ghost use Rattle.std.specs.Io.KnownBytes.{Appends};
ghost use Rattle.damon_types.specs.Calls.{EndsAtFault};
ghost use Rattle.text_io.specs.Taken.{WritesPart};
ghost use Rattle.text_io.specs.Pumped.{Ends, GoesOn};

use crate::{PIECE, write_all};
use damon_types::{Failed, Sink};
use std::alloc::{AllocError, Global};

/// Where [`TextSource::fill`] stopped.
#[derive(Clone, Copy, Debug, PartialEq, Eq)]
pub enum Filled {
    /// The text so far has [`PIECE`] bytes or more.
    Piece,
    /// No line is left.
    End,
}

/// Why a text was not handed over.
#[derive(Clone, Copy, Debug, PartialEq, Eq)]
pub enum PumpFault {
    /// Memory for it ran out.
    Memory,
    /// A write failed.
    Fault,
}

impl From<AllocError> for PumpFault {
    ghost use Rattle.text_io.specs.declared.source.PumpFault.TheVariants.{Memory};

    ghost from_gives = { λ _ fault. fault ≡ Memory };

    fn from(_error: AllocError) -> PumpFault {
        PumpFault::Memory
    }
}

impl From<Failed> for PumpFault {
    ghost use Rattle.text_io.specs.declared.source.PumpFault.TheVariants.{Fault};

    ghost from_gives = { λ _ fault. fault ≡ Fault };

    fn from(_failed: Failed) -> PumpFault {
        PumpFault::Fault
    }
}

/// A text that is made a piece at a time.
pub trait TextSource {
    /// The texts that it may still give.
    ghost left: { Self → List ℕ → Type 0 };

    /// How near it is to the end of them.
    ghost steps: { Self → ℕ };

    /// Appends the next whole lines to `out`, until `out` has [`PIECE`] bytes or more, or no line is left.
    fn fill(&mut self, alloc: Global, out: &mut Vec<u8>) -> Result<Filled, AllocError>
        ensures on { result ≡ Ok Filled.Piece →
            GoesOn (left self.old) out.old.items (left self.new) out.new.items }
        ensures end { result ≡ Ok Filled.End → Ends (left self.old) out.old.items out.new.items }
        ensures less { result ≡ Ok Filled.Piece → vec_len out.old < PIECE →
            steps self.new < steps self.old };
}

/// Hands a text to the sink, a piece at a time. After a failure the sink is left alone.
pub fn pump<T: TextSource, K: Sink>(
    alloc: Global,
    source: &mut T,
    sink: &mut K,
) -> Result<(), PumpFault>
    ensures all { OnOk result ((text : List ℕ) → T.left source.old text
        → Appends (K.taken sink.old) (K.taken sink.new) text) }
    ensures part { (text : List ℕ) → T.left source.old text
        → WritesPart (K.taken sink.old) (K.taken sink.new) text }
    ensures writes { EndsAtFault (IsErrOf result PumpFault.Fault)
        (K.calls sink.old) (K.calls sink.new) }
{
    let mut piece = Vec::new(alloc);
    'pieces: loop {
        let filled = source.fill(alloc, &mut piece)?;
        write_all(sink, &piece)?;
        match filled {
            Filled::Piece => piece.clear(),
            Filled::End => return Ok(()),
        }
    }
}
