//! Sources and a sink in memory, which fail where they are told to.
ghost use Rattle.std.specs.Prelude.{◌≡◌, [], ◌+◌, ◌-◌, ◌<◌, ◌≤◌, ◌++◌, ◌↔◌, ◌⊎◌, min, length, drop, take, Contains, Some, vec_len, vec_capacity, IfOk, OnErr, OnOk, IsErr, IsOk};
ghost use Rattle.std.specs.Io.{ReadsAtMost};
ghost use Rattle.std.specs.Io.KnownBytes.{ReadConsumes, WriteAppends};
ghost use Rattle.orc_io.specs.Causes.{HasCause, next_count};
ghost use Rattle.orc_io.specs.Streams.{PutsSome};
ghost use Rattle.orc_io.specs.Memory.{given_count, appended_count, Fills};

use crate::sink::Sink;
use crate::source::{Failed, Source};
use std::alloc::{AllocError, Global};

/// A source in memory, which fails at the takes that it is told.
#[derive(Debug, Drop)]
pub struct Piece {
    /// All bytes of the source.
    pub bytes: Vec<u8>,
    /// How many of them were taken.
    pub at: usize,
    /// How many bytes one take gives at most, at least 1.
    pub most: usize,
    /// The numbers of the takes that fail, counted from 1.
    pub fail: Vec<u64>,
    /// How many takes there were, up to 2^64 - 1.
    pub calls: u64,
    /// How many takes failed, up to 2^64 - 1.
    pub faults: u64,
    ghost within: { at ≤ vec_len bytes },
    ghost some: { 0 < most },
}

/// Fills the front of the room from the front of `left`, with `most` bytes at most.
fn fill(left: &[u8], most: usize, room: &mut [u8]) -> usize
    requires { 0 < most }
    ensures count { result ≡ given_count most left.now room.old }
    ensures within { result ≤ length left.now }
    ensures front { left.now ≡ take result room.new ++ drop result left.now }
    ensures end { result ≡ 0 → 0 < length room.new → left.now ≡ [] }
    ensures fills { Fills result left.now room.old room.new }
{
    let count = most.min(room.len().min(left.len()));
    room[..count].copy_from_slice(&left[..count]);
    count
}

impl Source for Piece {
    ghost left = { λ s. Some (drop s.at s.bytes.items) };

    ghost faults = { λ s. s.faults };

    ghost takes = { λ s. s.calls };

    fn take(&mut self, room: &mut [u8]) -> Result<usize, Failed>
        ensures bound { ReadsAtMost result room.new }
        ensures bytes { ReadConsumes (Some (drop self.old.at self.old.bytes.items)) (Some (drop self.new.at self.new.bytes.items)) result room.new }
        ensures cause { HasCause self.old.faults self.new.faults result }
        ensures asked { self.new.calls ≤ self.old.calls + 1 }

        // When it fails.
        ensures fails { IsErr result ↔ Contains self.old.fail.items self.new.calls }
        ensures counted { self.new.calls ≡ next_count self.old.calls }
        ensures fault { OnErr result (self.new.faults ≡ next_count self.old.faults) }
        ensures no_fault { OnOk result (self.new.faults ≡ self.old.faults) }

        // What it gives.
        ensures gives { IfOk result (λ n. n ≡ given_count self.old.most (drop self.old.at self.old.bytes.items) room.old) }
        ensures fills { IfOk result (λ n. Fills n (drop self.old.at self.old.bytes.items) room.old room.new) }
        ensures moves { IfOk result (λ n. self.new.at ≡ self.old.at + n) }

        // What stays.
        ensures stays { OnErr result ((self.new.at ≡ self.old.at) × (room.new ≡ room.old)) }
        ensures rest { (self.new.bytes ≡ self.old.bytes) × (self.new.most ≡ self.old.most) × (self.new.fail ≡ self.old.fail) }
    {
        self.calls = self.calls.saturating_add(1);
        if self.fail.contains(&self.calls) {
            self.faults = self.faults.saturating_add(1);
            return Err(Failed);
        }
        let count = fill(&self.bytes[self.at..], self.most, room);
        self.at += count;
        Ok(count)
    }
}

/// A source in memory that never fails: its count of faults is always 0.
#[derive(Debug, Drop)]
pub struct Still {
    /// All bytes of the source.
    pub bytes: Vec<u8>,
    /// How many of them were taken.
    pub at: usize,
    /// How many bytes one take gives at most, at least 1.
    pub most: usize,
    ghost within: { at ≤ vec_len bytes },
    ghost some: { 0 < most },
}

impl Source for Still {
    ghost left = { λ s. Some (drop s.at s.bytes.items) };

    ghost faults = { λ _. 0 };

    ghost takes = { λ _. 0 };

    fn take(&mut self, room: &mut [u8]) -> Result<usize, Failed>
        ensures bound { ReadsAtMost result room.new }
        ensures bytes { ReadConsumes (Some (drop self.old.at self.old.bytes.items)) (Some (drop self.new.at self.new.bytes.items)) result room.new }
        ensures cause { HasCause 0 0 result }
        ensures asked { 0 ≤ 0 + 1 }

        // It never fails, and what it gives is exact.
        ensures always { IsOk result }
        ensures gives { IfOk result (λ n. n ≡ given_count self.old.most (drop self.old.at self.old.bytes.items) room.old) }
        ensures fills { IfOk result (λ n. Fills n (drop self.old.at self.old.bytes.items) room.old room.new) }
        ensures moves { IfOk result (λ n. self.new.at ≡ self.old.at + n) }
        ensures rest { (self.new.bytes ≡ self.old.bytes) × (self.new.most ≡ self.old.most) }
    {
        let count = fill(&self.bytes[self.at..], self.most, room);
        self.at += count;
        Ok(count)
    }
}

/// A sink in memory with a fixed room, which fails at the puts that it is told.
#[derive(Debug, Drop)]
pub struct Buffer {
    /// The bytes that were put.
    pub held: Vec<u8>,
    /// How many bytes it can hold.
    pub room: usize,
    /// How many bytes one put takes at most, at least 1.
    pub most: usize,
    /// The numbers of the puts that fail, counted from 1.
    pub fail: Vec<u64>,
    /// How many puts there were, up to 2^64 - 1.
    pub calls: u64,
    /// How many puts failed, up to 2^64 - 1.
    pub faults: u64,
    ghost within: { vec_len held ≤ room },
    ghost reserved: { room ≤ vec_capacity held },
    ghost some: { 0 < most },
}

impl Buffer {
    /// An empty buffer. The whole room is reserved here, so that no put takes memory.
    ///
    /// # Errors
    ///
    /// [`AllocError`] where memory for the room is wanting.
    pub fn with_room(
        alloc: Global,
        room: usize,
        most: usize,
        fail: Vec<u64>,
    ) -> Result<Buffer, AllocError>
        requires { 0 < most }
        ensures empty { IfOk result (λ b. b.held.items ≡ []) }
        ensures numbers { IfOk result (λ b. (b.room ≡ room) × (b.most ≡ most) × (b.calls ≡ 0) × (b.faults ≡ 0)) }
        ensures fail { IfOk result (λ b. b.fail ≡ fail) }
    {
        let held = Vec::with_capacity(alloc, room)?;
        Ok(Buffer {
            held,
            room,
            most,
            fail,
            calls: 0,
            faults: 0,
        })
    }
}

impl Sink for Buffer {
    ghost held = { λ s. Some s.held.items };

    ghost faults = { λ s. s.faults };

    ghost puts = { λ s. s.calls };

    fn put(&mut self, piece: &[u8]) -> Result<usize, Failed>
        ensures count { PutsSome result piece.now }
        ensures bytes { WriteAppends (Some self.old.held.items) (Some self.new.held.items) result piece.now }
        ensures cause { HasCause self.old.faults self.new.faults result }
        ensures offered { self.new.calls ≤ self.old.calls + 1 }

        // When it fails: at a number of `fail`, or with no room free for a piece that is not empty.
        ensures fails { IsErr result ↔ (Contains self.old.fail.items self.new.calls ⊎ ((0 < length piece.now) × (vec_len self.old.held ≡ self.old.room))) }
        ensures counted { self.new.calls ≡ next_count self.old.calls }
        ensures fault { OnErr result (self.new.faults ≡ next_count self.old.faults) }
        ensures no_fault { OnOk result (self.new.faults ≡ self.old.faults) }

        // How much it takes, and what stays.
        ensures takes { IfOk result (λ n. n ≡ appended_count self.old.most (length piece.now) (self.old.room - vec_len self.old.held)) }
        ensures rest { (self.new.room ≡ self.old.room) × (self.new.most ≡ self.old.most) × (self.new.fail ≡ self.old.fail) }
    {
        self.calls = self.calls.saturating_add(1);
        let free = self.room - self.held.len();
        if self.fail.contains(&self.calls) {
            self.faults = self.faults.saturating_add(1);
            return Err(Failed);
        }
        if free == 0 && !piece.is_empty() {
            self.faults = self.faults.saturating_add(1);
            return Err(Failed);
        }
        let count = self.most.min(piece.len().min(free));
        // The room is reserved, so this finds its memory.
        let _ = self.held.extend_from_slice(&piece[..count]);
        Ok(count)
    }
}
