//! Where bytes go, and how all of them are written.
ghost use Rattle.std.specs.Prelude.{◌≡◌, ℕ, ◌+◌, ◌≤◌, List, length, OnErr, OnOk};
ghost use Rattle.std.specs.declared.option.Option.{Option};
ghost use Rattle.std.specs.Io.KnownBytes.{WriteAppends, Appends};
ghost use Rattle.orc_io.specs.Causes.{Rose, HasCause};
ghost use Rattle.orc_io.specs.Streams.{PutsSome, AppendsSome};

use crate::source::Failed;

/// Where bytes go, in order.
pub trait Sink {
    /// The bytes that it holds, where the sink tells them.
    ghost held: { Self → Option (List ℕ) };

    /// How often the outside has failed. It never falls, and stops at its last value, 2^64 - 1.
    ghost faults: { Self → ℕ };

    /// How often bytes were offered, as far as the sink counts that.
    ghost puts: { Self → ℕ };

    /// Appends the first bytes of a piece, and says how many they are: at least one, but for an
    /// empty piece.
    ///
    /// # Errors
    ///
    /// [`Failed`] only where the count of faults rose in this call, or stands at its last value.
    /// The bytes that a sink tells are then as they were.
    fn put(&mut self, piece: &[u8]) -> Result<usize, Failed>
        ensures count { PutsSome result piece.now }
        ensures bytes { WriteAppends (held self.old) (held self.new) result piece.now }
        ensures cause { HasCause (faults self.old) (faults self.new) result }
        ensures offered { puts self.new ≤ puts self.old + 1 };
}

/// The sink failed before all bytes were put.
#[derive(Clone, Copy, Debug, PartialEq, Eq)]
pub struct PutFault;

/// Appends all bytes. It takes no memory.
///
/// Each put that goes on takes a byte, so there are at most as many puts as bytes.
///
/// # Errors
///
/// [`PutFault`] only where the sink's count of faults rose in this call, or stands at its last
/// value. Some first bytes may then have been appended, and nothing else.
pub fn write_all<K: Sink>(output: &mut K, bytes: &[u8]) -> Result<(), PutFault>
    ensures all { OnOk result (Appends (K.held output.old) (K.held output.new) bytes.now) }
    ensures some { AppendsSome (K.held output.old) (K.held output.new) bytes.now }
    ensures cause { HasCause (K.faults output.old) (K.faults output.new) result }
    ensures offered { K.puts output.new ≤ K.puts output.old + length bytes.now }
{
    let mut done = 0;
    'putting: while done < bytes.len() {
        let Ok(count) = output.put(&bytes[done..]) else {
            return Err(PutFault);
        };
        done += count;
    }
    Ok(())
}
