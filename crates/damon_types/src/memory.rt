// Streams over memory, whose contracts name all their bytes.
ghost use Rattle.std.specs.Prelude.{◌≡◌, ◌<◌, ◌↔◌, [], drop, length, min, Some, Ok, IfOk, IsErr, is_err};
ghost use Rattle.std.specs.Io.{ReadsAtMost, WritesAtMost};
ghost use Rattle.std.specs.Io.KnownBytes.{ReadConsumes, WriteAppends};
ghost use Rattle.damon_types.specs.Calls.{after_call, no_calls};
ghost use Rattle.damon_types.specs.Memory.{spare};

use crate::{Calls, Failed, Sink, Source, append_reserved};
use std::alloc::{AllocError, Global};
use std::marker::Model;

/// A source of bytes in memory. It never fails.
#[derive(Debug, Drop)]
pub struct MemSource<'a> {
    bytes: &'a [u8],
    calls: Calls,
}

impl<'a> Model for MemSource<'a> {
    ghost use Rattle.damon_types.specs.Memory.{Given};

    ghost Value = { Given };

    ghost view = { λ s. record { bytes = s.bytes.now; calls = s.calls } };
}

impl<'a> MemSource<'a> {
    /// A source that gives these bytes.
    pub fn new(bytes: &'a [u8]) -> MemSource<'a>
        ensures { result ≡ record { bytes = bytes.now; calls = no_calls } }
    {
        MemSource {
            bytes,
            calls: Calls::new(),
        }
    }
}

impl Source for MemSource<'_> {
    ghost left = { λ s. Some s.bytes };

    ghost calls = { λ s. s.calls };

    /// Gives all bytes that are left, or as many as fit into the buffer. The rest of the buffer is
    /// unchanged.
    fn read(&mut self, buf: &mut [u8]) -> Result<usize, Failed>
        ensures bound { ReadsAtMost result buf.new }
        ensures bytes { ReadConsumes (Some self.old.bytes) (Some self.new.bytes) result buf.new }
        ensures counted { self.new.calls ≡ after_call (is_err result) self.old.calls }
        ensures count { result ≡ Ok (min (length self.old.bytes) (length buf.old)) }
        ensures rest { let n = min (length self.old.bytes) (length buf.old) in
            drop n buf.new ≡ drop n buf.old }
    {
        let count = self.bytes.len().min(buf.len());
        let (front, rest) = self.bytes.split_at(count);
        buf[..count].copy_from_slice(front);
        self.bytes = rest;
        self.calls.count(false);
        Ok(count)
    }
}

/// A sink that keeps what is written, up to a fixed number of bytes. When it is full, a write of a
/// piece that is not empty fails.
#[derive(Debug, Drop)]
pub struct MemSink {
    bytes: Vec<u8>,
    room: u32,
    calls: Calls,
}

impl Model for MemSink {
    ghost use Rattle.std.specs.Prelude.{◌≤◌, vec_capacity};
    ghost use Rattle.damon_types.specs.Memory.{Taken};

    ghost Value = { Taken };

    ghost view = { λ s. record { bytes = s.bytes.items; room = s.room; calls = s.calls } };

    ghost invariant = { λ s. s.room ≤ vec_capacity s.bytes };
}

impl MemSink {
    /// A sink with room for `room` bytes. Allocates them; `write` does not allocate.
    pub fn new(alloc: Global, room: u32) -> Result<MemSink, AllocError>
        ensures { IfOk result (λ s. s ≡ record { bytes = []; room = room; calls = no_calls }) }
    {
        let bytes = Vec::with_capacity(alloc, room as usize)?;
        Ok(MemSink {
            bytes,
            room,
            calls: Calls::new(),
        })
    }

    /// The bytes that were written.
    pub fn bytes(&self) -> &[u8]
        ensures { result.now ≡ self.now.bytes }
    {
        &self.bytes
    }
}

impl Sink for MemSink {
    ghost taken = { λ s. Some s.bytes };

    ghost calls = { λ s. s.calls };

    /// Takes the whole piece, or as much of it as fits.
    fn write(&mut self, piece: &[u8]) -> Result<usize, Failed>
        ensures bound { WritesAtMost result piece.now }
        ensures bytes { WriteAppends (Some self.old.bytes) (Some self.new.bytes) result piece.now }
        ensures some { 0 < length piece.now → IfOk result (λ n. 0 < n) }
        ensures counted { self.new.calls ≡ after_call (is_err result) self.old.calls }

        ensures count { IfOk result (λ n. n ≡ min (length piece.now) (spare self.old)) }
        ensures full { IsErr result ↔ ((0 < length piece.now) × (spare self.old ≡ 0)) }
        ensures room { self.new.room ≡ self.old.room }
    {
        let room = (self.room as usize).saturating_sub(self.bytes.len());
        let count = piece.len().min(room);
        if count == 0 && !piece.is_empty() {
            self.calls.count(true);
            return Err(Failed);
        }
        append_reserved(&mut self.bytes, &piece[..count]);
        self.calls.count(false);
        Ok(count)
    }
}
