// Streams over memory that limit the bytes of a call, and fail at stated calls.
ghost use Rattle.std.specs.Prelude.{◌≡◌, ◌⊎◌, ◌-◌, ◌≤◌, ◌<◌, ◌↔◌, [], length, min, Some, true, IfOk, OnErr, IsErr, is_err};
ghost use Rattle.std.specs.Io.{ReadsAtMost, WritesAtMost};
ghost use Rattle.std.specs.Io.KnownBytes.{ReadConsumes, WriteAppends};
ghost use Rattle.damon_types.specs.Calls.{after_call, next_count, no_calls};
ghost use Rattle.damon_types.specs.Faulty.{is_listed};

use crate::{Calls, Failed, MemSink, MemSource, Sink, Source};
use std::alloc::{AllocError, Global};
use std::marker::Model;

/// A source of bytes in memory that gives at most a fixed number of bytes per call, and fails at
/// stated calls.
#[derive(Debug, Drop)]
pub struct FaultSource<'a> {
    bytes: MemSource<'a>,
    piece: u32,
    fails: &'a [u32],
    calls: Calls,
}

impl<'a> Model for FaultSource<'a> {
    ghost use Rattle.std.specs.Prelude.{◌≤◌};
    ghost use Rattle.damon_types.specs.Faulty.{FaultyGiven};

    ghost Value = { FaultyGiven };

    ghost view = { λ s. record {
      bytes = s.bytes.bytes;
      piece = s.piece;
      fails = s.fails.now;
      calls = s.calls;
    } };

    ghost invariant = { λ s. 1 ≤ s.piece };
}

impl<'a> FaultSource<'a> {
    /// A source that gives these bytes, at most `piece` (at least 1) per call. `fails` are the
    /// numbers of the calls that fail, counted from 1.
    pub fn new(bytes: &'a [u8], piece: u32, fails: &'a [u32]) -> FaultSource<'a>
        requires { 1 ≤ piece }
        ensures { result ≡ record {
          bytes = bytes.now;
          piece = piece;
          fails = fails.now;
          calls = no_calls;
        } }
    {
        FaultSource {
            bytes: MemSource::new(bytes),
            piece,
            fails,
            calls: Calls::new(),
        }
    }

    /// The number of calls so far; at 2^64 - 1 it stays there.
    pub fn calls(&self) -> u64
        ensures { result ≡ self.now.calls.made }
    {
        self.calls.made
    }
}

impl Source for FaultSource<'_> {
    ghost left = { λ s. Some s.bytes };

    ghost calls = { λ s. s.calls };

    /// Gives the bytes that are left, at most `piece` and as many as fit into the buffer, unless
    /// this call is to fail.
    fn read(&mut self, buf: &mut [u8]) -> Result<usize, Failed>
        ensures bound { ReadsAtMost result buf.new }
        ensures bytes { ReadConsumes (Some self.old.bytes) (Some self.new.bytes) result buf.new }
        ensures counted { self.new.calls ≡ after_call (is_err result) self.old.calls }

        ensures fails { is_err result ≡ is_listed (next_count self.old.calls.made) self.old.fails }
        ensures count { IfOk result (λ n.
            n ≡ min (min (length self.old.bytes) (length buf.old)) self.old.piece) }
        ensures kept { OnErr result (buf.new ≡ buf.old) }
        ensures piece { self.new.piece ≡ self.old.piece }
        ensures listed { self.new.fails ≡ self.old.fails }
    {
        let fails = is_listed(self.calls.made.saturating_add(1), self.fails);
        self.calls.count(fails);
        if fails {
            return Err(Failed);
        }
        let room = buf.len().min(self.piece as usize);
        self.bytes.read(&mut buf[..room])
    }
}

/// A sink that keeps what is written, up to a fixed number of bytes, and takes at most `piece`
/// bytes per call. It fails at stated calls, and when it is full and the piece is not empty.
#[derive(Debug, Drop)]
pub struct FaultSink<'a> {
    bytes: MemSink,
    piece: u32,
    fails: &'a [u32],
    calls: Calls,
}

impl<'a> Model for FaultSink<'a> {
    ghost use Rattle.std.specs.Prelude.{◌≤◌};
    ghost use Rattle.damon_types.specs.Faulty.{FaultyTaken};

    ghost Value = { FaultyTaken };

    ghost view = { λ s. record {
      bytes = s.bytes.bytes;
      room = s.bytes.room;
      piece = s.piece;
      fails = s.fails.now;
      calls = s.calls;
    } };

    ghost invariant = { λ s. 1 ≤ s.piece };
}

impl<'a> FaultSink<'a> {
    /// A sink with room for `room` bytes, which takes at most `piece` (at least 1) per call.
    /// `fails` are the numbers of the calls that fail, counted from 1. Allocates the room; `write`
    /// does not allocate.
    pub fn new(
        alloc: Global,
        room: u32,
        piece: u32,
        fails: &'a [u32],
    ) -> Result<FaultSink<'a>, AllocError>
        requires { 1 ≤ piece }
        ensures { IfOk result (λ s. s ≡ record {
          bytes = [];
          room = room;
          piece = piece;
          fails = fails.now;
          calls = no_calls;
        }) }
    {
        let bytes = MemSink::new(alloc, room)?;
        Ok(FaultSink {
            bytes,
            piece,
            fails,
            calls: Calls::new(),
        })
    }

    /// The bytes that were written.
    pub fn bytes(&self) -> &[u8]
        ensures { result.now ≡ self.now.bytes }
    {
        self.bytes.bytes()
    }

    /// The number of calls so far; at 2^64 - 1 it stays there.
    pub fn calls(&self) -> u64
        ensures { result ≡ self.now.calls.made }
    {
        self.calls.made
    }
}

impl Sink for FaultSink<'_> {
    ghost taken = { λ s. Some s.bytes };

    ghost calls = { λ s. s.calls };

    /// Takes bytes from the front of the piece, at most `piece` and as many as fit, unless this
    /// call is to fail.
    fn write(&mut self, piece: &[u8]) -> Result<usize, Failed>
        ensures bound { WritesAtMost result piece.now }
        ensures bytes { WriteAppends (Some self.old.bytes) (Some self.new.bytes) result piece.now }
        ensures some { 0 < length piece.now → IfOk result (λ n. 0 < n) }
        ensures counted { self.new.calls ≡ after_call (is_err result) self.old.calls }

        ensures fails { IsErr result
            ↔ ((is_listed (next_count self.old.calls.made) self.old.fails ≡ true)
            ⊎ ((0 < length piece.now) × (self.old.room - length self.old.bytes ≡ 0))) }
        ensures count { IfOk result (λ n. n ≡ min (min (length piece.now) self.old.piece)
            (self.old.room - length self.old.bytes)) }
        ensures room { self.new.room ≡ self.old.room }
        ensures piece { self.new.piece ≡ self.old.piece }
        ensures listed { self.new.fails ≡ self.old.fails }
    {
        let front = piece.len().min(self.piece as usize);
        let written = if is_listed(self.calls.made.saturating_add(1), self.fails) {
            Err(Failed)
        } else {
            self.bytes.write(&piece[..front])
        };
        self.calls.count(written.is_err());
        written
    }
}

// Whether the call with this number is to fail.
fn is_listed(call: u64, fails: &[u32]) -> bool
    ensures { result ≡ is_listed call fails.now }
{
    fails.iter().any(|number| u64::from(*number) == call)
}
