//! Writing what was built.
ghost use Rattle.std.specs.Prelude.{◌≡◌, ◌≢◌, ◌⊎◌};
ghost use Rattle.std.specs.Io.KnownBytes.{Appends};
ghost use Rattle.orc_io.specs.Causes.{Rose};
ghost use Rattle.orc_io.specs.Streams.{AppendsSome};

use crate::status::Status;
use orc_io::{PutFault, Sink, write_all};

/// Writes all bytes to a sink, and ends with the status that was asked, or with a fault.
pub fn write<K: Sink>(sink: &mut K, bytes: &[u8], status: Status) -> Status
    requires { status ≢ Status.WriteFault }
    ensures either { (result ≡ status) ⊎ (result ≡ Status.WriteFault) }
    ensures whole { result ≡ status → Appends (K.held sink.old) (K.held sink.new) bytes.now }
    ensures part { result ≡ Status.WriteFault → AppendsSome (K.held sink.old) (K.held sink.new) bytes.now }
    ensures cause { result ≡ Status.WriteFault → Rose (K.faults sink.old) (K.faults sink.new) }
{
    match write_all(sink, bytes) {
        Ok(()) => status,
        Err(PutFault) => Status::WriteFault,
    }
}
