//! Readers and writers of std as sources and sinks.
ghost use Rattle.std.specs.Prelude.{◌≡◌, ◌+◌, ◌<◌, ◌≤◌, length, take, None, IfOk, OnErr, OnOk};
ghost use Rattle.std.specs.Io.{ReadsAtMost};
ghost use Rattle.std.specs.Io.KnownBytes.{Appends, ReadConsumes, WriteAppends};
ghost use Rattle.orc_io.specs.Causes.{HasCause, next_count};
ghost use Rattle.orc_io.specs.Streams.{PutsSome};

use crate::sink::Sink;
use crate::source::{Failed, Source};
use std::io::{Read, Write};

/// A reader of std as a source. It tells the bytes that are left where the reader does.
#[derive(Drop)]
pub struct ReadEdge<R> {
    /// The reader.
    pub inner: R,
    /// How often a read failed, up to 2^64 - 1.
    pub faults: u64,
}

impl<R: Read> Source for ReadEdge<R> {
    ghost left = { λ s. R.remaining s.inner };

    ghost faults = { λ s. s.faults };

    ghost takes = { λ _. 0 };

    fn take(&mut self, room: &mut [u8]) -> Result<usize, Failed>
        ensures bound { ReadsAtMost result room.new }
        ensures bytes { ReadConsumes (R.remaining self.old.inner) (R.remaining self.new.inner) result room.new }
        ensures cause { HasCause self.old.faults self.new.faults result }
        ensures asked { 0 ≤ 0 + 1 }
        ensures fault { OnErr result (self.new.faults ≡ next_count self.old.faults) }
        ensures no_fault { OnOk result (self.new.faults ≡ self.old.faults) }
    {
        match self.inner.read(room) {
            Ok(count) => Ok(count),
            Err(_) => {
                self.faults = self.faults.saturating_add(1);
                Err(Failed)
            }
        }
    }
}

/// A writer of std as a sink, flushed after each write.
///
/// It tells no bytes: a flush that fails may follow a write that went out.
#[derive(Drop)]
pub struct WriteEdge<W> {
    /// The writer.
    pub inner: W,
    /// How often a write or a flush failed, up to 2^64 - 1. A write that takes no byte of a piece
    /// that is not empty counts as a failure.
    pub faults: u64,
}

impl<W: Write> Sink for WriteEdge<W> {
    ghost held = { λ _. None };

    ghost faults = { λ s. s.faults };

    ghost puts = { λ _. 0 };

    fn put(&mut self, piece: &[u8]) -> Result<usize, Failed>
        ensures count { PutsSome result piece.now }
        ensures bytes { WriteAppends None None result piece.now }
        ensures cause { HasCause self.old.faults self.new.faults result }
        ensures offered { 0 ≤ 0 + 1 }
        ensures fault { OnErr result (self.new.faults ≡ next_count self.old.faults) }
        ensures no_fault { OnOk result (self.new.faults ≡ self.old.faults) }

        // The writer itself got the bytes, where it tells what it got.
        ensures passes { IfOk result (λ n. Appends (W.contents self.old.inner) (W.contents self.new.inner) (take n piece.now)) }
    {
        let Ok(count) = self.inner.write(piece) else {
            self.faults = self.faults.saturating_add(1);
            return Err(Failed);
        };
        if self.inner.flush().is_err() || (count == 0 && !piece.is_empty()) {
            self.faults = self.faults.saturating_add(1);
            return Err(Failed);
        }
        Ok(count)
    }
}
