//! Where bytes come from, and how all of them are read.
ghost use Rattle.std.specs.Prelude.{◌≡◌, ℕ, ◌+◌, ◌≤◌, List, IfErr, MatchResult};
ghost use Rattle.std.specs.declared.option.Option.{Option};
ghost use Rattle.std.specs.Io.{ReadsAtMost};
ghost use Rattle.std.specs.Io.KnownBytes.{ReadConsumes};
ghost use Rattle.orc_io.specs.Causes.{Rose, HasCause};
ghost use Rattle.orc_io.specs.Streams.{ReadsAll, StopsReading};

use std::alloc::Global;

/// The outside failed: a take or a put moved no byte.
#[derive(Clone, Copy, Debug, PartialEq, Eq)]
pub struct Failed;

/// Where bytes come from, in order, each of them once.
pub trait Source {
    /// The bytes that are left, where the source tells them.
    ghost left: { Self → Option (List ℕ) };

    /// How often the outside has failed. It never falls, and stops at its last value, 2^64 - 1.
    ghost faults: { Self → ℕ };

    /// How often bytes were asked for, as far as the source counts that.
    ghost takes: { Self → ℕ };

    /// Moves the next bytes into the front of `room`, and says how many they are.
    ///
    /// For room that is not empty, 0 comes only at the end of the bytes.
    ///
    /// # Errors
    ///
    /// [`Failed`] only where the count of faults rose in this call, or stands at its last value.
    /// The bytes that are left are then as they were.
    fn take(&mut self, room: &mut [u8]) -> Result<usize, Failed>
        ensures bound { ReadsAtMost result room.new }
        ensures bytes { ReadConsumes (left self.old) (left self.new) result room.new }
        ensures cause { HasCause (faults self.old) (faults self.new) result }
        ensures asked { takes self.new ≤ takes self.old + 1 };
}

/// Why an input was not read to its end. The bytes that were taken are gone.
#[derive(Clone, Copy, Debug, PartialEq, Eq)]
pub enum TakeFault {
    /// The source failed.
    Read,
    /// The input has more bytes than the limit. The rest is left unread.
    TooLong,
    /// Want of memory.
    Memory,
}

/// The bytes that one take asks for at most.
const CHUNK: usize = 4096;

/// Reads an input to its end, where it has at most `limit` bytes.
///
/// Each take that goes on takes a byte, so there are at most `limit + 1` takes.
///
/// # Errors
///
/// [`TakeFault::Read`] only where the source's count of faults rose in this call, or stands at its
/// last value. [`TakeFault::TooLong`] exactly where `limit + 1` bytes were taken.
/// [`TakeFault::Memory`] where memory is wanting.
pub fn read_all<S: Source>(alloc: Global, input: &mut S, limit: usize) -> Result<Vec<u8>, TakeFault>
    requires { limit ≤ 67108864 }
    ensures bytes { MatchResult result (λ v. ReadsAll limit (S.left input.old) (S.left input.new) v.items) (StopsReading limit (S.left input.old) (S.left input.new)) }
    ensures cause { IfErr result (λ e. e ≡ TakeFault.Read → Rose (S.faults input.old) (S.faults input.new)) }
    ensures later { S.faults input.old ≤ S.faults input.new }
    ensures asked { S.takes input.new ≤ S.takes input.old + limit + 1 }
{
    let mut bytes = Vec::new(alloc);
    let mut chunk = [0u8; CHUNK];
    'reading: while bytes.len() <= limit {
        let room = CHUNK.min(limit + 1 - bytes.len());
        let Ok(count) = input.take(&mut chunk[..room]) else {
            return Err(TakeFault::Read);
        };
        if count == 0 {
            return Ok(bytes);
        }
        // Asked before the vector grows, so that want of memory cannot hide this answer.
        if bytes.len() + count > limit {
            return Err(TakeFault::TooLong);
        }
        if bytes.extend_from_slice(&chunk[..count]).is_err() {
            return Err(TakeFault::Memory);
        }
    }
    Err(TakeFault::TooLong)
}
