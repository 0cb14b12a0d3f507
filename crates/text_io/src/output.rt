ghost use Rattle.std.specs.Prelude.{◌≡◌, ◌≤◌, ◌<◌, ◌-◌, ◌≢◌, ◌⊎◌, [], All, length, take, slice_index, IsErr, OnOk};
ghost use Rattle.std.specs.Io.KnownBytes.{Appends};
ghost use Rattle.damon_types.specs.Calls.{EndsAtFault};
ghost use Rattle.text_io.specs.Taken.{WritesPart};

use damon_types::{Failed, Sink};
use memchr::memrchr;

/// The bytes that are made, read or handed over at once: 64 KiB.
pub const PIECE: usize = 65_536;

/// Hands a text to the sink, until all of it is taken. A text longer than [`PIECE`] goes in pieces
/// that end at line ends. After a failure the sink is left alone.
pub fn write_all<K: Sink>(sink: &mut K, text: &[u8]) -> Result<(), Failed>
    ensures all { OnOk result (Appends (K.taken sink.old) (K.taken sink.new) text.now) }
    ensures part { WritesPart (K.taken sink.old) (K.taken sink.new) text.now }
    ensures writes { EndsAtFault (IsErr result) (K.calls sink.old) (K.calls sink.new) }
    ensures empty { text.now ≡ [] → sink.new ≡ sink.old }
{
    let mut rest = text;
    'pieces: while !rest.is_empty() {
        let (piece, later) = rest.split_at(piece_length(rest));
        write_piece(sink, piece)?;
        rest = later;
    }
    Ok(())
}

// Hands a piece to the sink, until all of it is taken.
fn write_piece<K: Sink>(sink: &mut K, piece: &[u8]) -> Result<(), Failed>
    ensures all { OnOk result (Appends (K.taken sink.old) (K.taken sink.new) piece.now) }
    ensures part { WritesPart (K.taken sink.old) (K.taken sink.new) piece.now }
    ensures writes { EndsAtFault (IsErr result) (K.calls sink.old) (K.calls sink.new) }
{
    let mut rest = piece;
    'writes: while !rest.is_empty() {
        let count = sink.write(rest)?;
        let (_, later) = rest.split_at(count);
        rest = later;
    }
    Ok(())
}

// How many bytes of a text are handed over first: whole lines of at most `PIECE` bytes together, or
// all of the text where it is short or has no line end there.
fn piece_length(text: &[u8]) -> usize
    ensures within { result ≤ length text.now }
    ensures some { 0 < length text.now → 0 < result }
    ensures lines { (result ≡ length text.now) ⊎ (slice_index text.now (result - 1) ≡ 10) }
    ensures short { (result ≤ PIECE) ⊎ All (λ byte. byte ≢ 10) (take PIECE text.now) }
{
    if text.len() <= PIECE {
        return text.len();
    }
    let (front, _) = text.split_at(PIECE);
    match memrchr(b'\n', front) {
        Some(last) => last + 1,
        None => text.len(),
    }
}
