// Text that is handed over piece by piece.
ghost use Rattle.std.specs.Prelude.{IsErr, OnOk};
ghost use Rattle.damon_types.specs.Calls.{EndsAtFault};
ghost use Rattle.text_io.specs.Taken.{WritesPart};
ghost use Rattle.damon_app.specs.Pieces.{HandsOver};

use damon_types::{Failed, Sink};
use text_io::{PIECE, write_all};

// Hands a piece over once it has [`PIECE`] bytes.
pub(crate) fn hand_over<K: Sink>(sink: &mut K, piece: &mut Vec<u8>) -> Result<(), Failed>
    ensures all { OnOk result
        (HandsOver (K.taken sink.old) (K.taken sink.new) piece.old.items piece.new.items) }
    ensures part { WritesPart (K.taken sink.old) (K.taken sink.new) piece.old.items }
    ensures writes { EndsAtFault (IsErr result) (K.calls sink.old) (K.calls sink.new) }
{
    if piece.len() < PIECE {
        return Ok(());
    }
    write_all(sink, piece)?;
    piece.clear();
    Ok(())
}
