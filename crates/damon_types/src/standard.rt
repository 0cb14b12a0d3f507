// Streams over readers and writers of std: the trusted edge to the system.
ghost use Rattle.std.specs.Prelude.{◌≡◌, ◌<◌, length, IfOk, is_err};
ghost use Rattle.std.specs.Io.{ReadsAtMost, WritesAtMost};
ghost use Rattle.std.specs.Io.KnownBytes.{ReadConsumes, WriteAppends};
ghost use Rattle.damon_types.specs.Calls.{after_call, no_calls};
ghost use Rattle.damon_types.specs.Standard.{Counted};

use crate::{Calls, Failed, Sink, Source};
use std::io::{Read, Write};
use std::marker::Model;

/// A source over a reader of std. Its contracts name the bytes that the reader's contracts name:
/// none for standard input.
#[derive(Debug, Drop)]
pub struct StdSource<R: Read> {
    inner: R,
    calls: Calls,
}

impl<R: Read> Model for StdSource<R> {
    ghost use Rattle.damon_types.specs.Standard.{Counted};

    ghost Value = { Counted R };

    ghost view = { λ s. record { inner = s.inner; calls = s.calls } };
}

impl<R: Read> StdSource<R> {
    /// A source over this reader, with no call so far.
    pub fn new(inner: R) -> Self
        ensures { result ≡ record { inner = inner; calls = no_calls } }
    {
        StdSource {
            inner,
            calls: Calls::new(),
        }
    }
}

impl<R: Read> Source for StdSource<R> {
    ghost left = { λ s. R.remaining s.inner };

    ghost calls = { λ s. s.calls };

    /// Makes one read of the reader, and no second one where that fails.
    fn read(&mut self, buf: &mut [u8]) -> Result<usize, Failed>
        ensures bound { ReadsAtMost result buf.new }
        ensures bytes { ReadConsumes
            (R.remaining self.old.inner) (R.remaining self.new.inner) result buf.new }
        ensures counted { self.new.calls ≡ after_call (is_err result) self.old.calls }
    {
        match self.inner.read(buf) {
            Ok(count) => {
                self.calls.count(false);
                Ok(count)
            }
            Err(_) => {
                self.calls.count(true);
                Err(Failed)
            }
        }
    }
}

/// A sink over a writer of std. A write that takes 0 bytes of a piece that is not empty has failed.
#[derive(Debug, Drop)]
pub struct StdSink<W: Write> {
    inner: W,
    calls: Calls,
}

impl<W: Write> Model for StdSink<W> {
    ghost use Rattle.damon_types.specs.Standard.{Counted};

    ghost Value = { Counted W };

    ghost view = { λ s. record { inner = s.inner; calls = s.calls } };
}

impl<W: Write> StdSink<W> {
    /// A sink over this writer, with no call so far.
    pub fn new(inner: W) -> Self
        ensures { result ≡ record { inner = inner; calls = no_calls } }
    {
        StdSink {
            inner,
            calls: Calls::new(),
        }
    }
}

impl<W: Write> Sink for StdSink<W> {
    ghost taken = { λ s. W.contents s.inner };

    ghost calls = { λ s. s.calls };

    /// Makes one write of the writer, and no second one where that fails.
    fn write(&mut self, piece: &[u8]) -> Result<usize, Failed>
        ensures bound { WritesAtMost result piece.now }
        ensures bytes { WriteAppends
            (W.contents self.old.inner) (W.contents self.new.inner) result piece.now }
        ensures some { 0 < length piece.now → IfOk result (λ n. 0 < n) }
        ensures counted { self.new.calls ≡ after_call (is_err result) self.old.calls }
    {
        match self.inner.write(piece) {
            Ok(0) if !piece.is_empty() => {
                self.calls.count(true);
                Err(Failed)
            }
            Ok(count) => {
                self.calls.count(false);
                Ok(count)
            }
            Err(_) => {
                self.calls.count(true);
                Err(Failed)
            }
        }
    }
}
