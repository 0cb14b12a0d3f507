// Inputs and outputs, each with a count of its calls.
ghost use Rattle.std.specs.Prelude.{◌≡◌, ℕ, ◌<◌, List, length, is_err, IfOk, Option};
ghost use Rattle.std.specs.Io.{ReadsAtMost, WritesAtMost};
ghost use Rattle.std.specs.Io.KnownBytes.{ReadConsumes, WriteAppends};
ghost use Rattle.damon_types.specs.Calls.{after_call};
ghost use Rattle.damon_types.specs.declared.calls.Calls.{Calls};

/// A read or a write failed.
#[derive(Clone, Copy, Debug, PartialEq, Eq)]
pub struct Failed;

/// An input: bytes that come in pieces.
pub trait Source {
    /// The bytes that are left, where the source names them.
    ghost left: { Self → Option (List ℕ) };

    /// How often it was read, and how often that failed.
    ghost calls: { Self → Calls };

    /// Reads bytes into the front of the buffer, and returns how many. 0 for a buffer that is not
    /// empty is the end of the input. A failed read gives no bytes.
    fn read(&mut self, buf: &mut [u8]) -> Result<usize, Failed>
        ensures bound { ReadsAtMost result buf.new }
        ensures bytes { ReadConsumes (left self.old) (left self.new) result buf.new }
        ensures counted { calls self.new ≡ after_call (is_err result) (calls self.old) };
}

/// An output: takes bytes in pieces.
pub trait Sink {
    /// The bytes that were written, where the sink names them.
    ghost taken: { Self → Option (List ℕ) };

    /// How often it was written to, and how often that failed.
    ghost calls: { Self → Calls };

    /// Writes bytes from the front of the piece, and returns how many: at least one, unless the
    /// piece is empty. A failed write takes none.
    fn write(&mut self, piece: &[u8]) -> Result<usize, Failed>
        ensures bound { WritesAtMost result piece.now }
        ensures bytes { WriteAppends (taken self.old) (taken self.new) result piece.now }
        ensures some { 0 < length piece.now → IfOk result (λ n. 0 < n) }
        ensures counted { calls self.new ≡ after_call (is_err result) (calls self.old) };
}
