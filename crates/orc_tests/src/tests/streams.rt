ghost use Rattle.std.specs.Prelude.{◌≡◌, ◌<◌, IfOk};

use orc_io::*;
use std::alloc::{AllocError, Global};
use std::io;
use std::io::Write;

const DIGITS: &[u8] = b"0123456789abcdef";

fn piece(alloc: Global, most: usize, fail: &[u64]) -> Result<Piece, AllocError>
    requires { 0 < most }
{
    Ok(Piece {
        bytes: Vec::from_slice(alloc, DIGITS)?,
        at: 0,
        most,
        fail: Vec::from_slice(alloc, fail)?,
        calls: 0,
        faults: 0,
    })
}

#[test]
fn reads_to_the_end_or_says_why_not(rt: HostRuntime) -> Result<(), AllocError> {
    let alloc = rt.alloc();
    // The limit, the takes that fail, the answer; then takes, bytes taken and faults.
    let rows: [(usize, &[u64], Result<(), TakeFault>, u64, usize, u64); 3] = [
        (16, &[], Ok(()), 3, 16, 0),
        (15, &[], Err(TakeFault::TooLong), 2, 16, 0),
        (16, &[2], Err(TakeFault::Read), 2, 10, 1),
    ];
    for (limit, fail, answer, calls, at, faults) in rows {
        let mut source = piece(alloc, 10, fail)?;
        let read = read_all(alloc, &mut source, limit);
        if let Ok(bytes) = &read {
            assert!(rt; bytes.as_slice() == DIGITS);
        }
        assert_eq!(rt; read.map(|_| ()), answer, "limit {limit}");
        assert_eq!(rt; source.calls, calls, "limit {limit}");
        assert_eq!(rt; source.at, at, "limit {limit}");
        assert_eq!(rt; source.faults, faults, "limit {limit}");
    }
    Ok(())
}

#[test]
fn a_still_source_gives_its_bytes_in_pieces(rt: HostRuntime) -> Result<(), AllocError> {
    let mut source = Still {
        bytes: Vec::from_slice(rt.alloc(), DIGITS)?,
        at: 14,
        most: 3,
    };
    let mut room = *b"....";
    assert_eq!(rt; source.take(&mut room), Ok(2));
    assert!(rt; room.as_slice() == b"ef..".as_slice());
    Ok(())
}

#[test]
fn puts_a_front_where_the_sink_fails(rt: HostRuntime) -> Result<(), AllocError> {
    let alloc = rt.alloc();
    // The room, the puts that fail, the answer; then the bytes held and the puts.
    let rows: [(usize, &[u64], Result<(), PutFault>, usize, u64); 2] = [
        (16, &[], Ok(()), 16, 2),
        (100, &[2], Err(PutFault), 10, 2),
    ];
    for (room, fail, answer, held, calls) in rows {
        let mut sink = Buffer::with_room(alloc, room, 10, Vec::from_slice(alloc, fail)?)?;
        assert_eq!(rt; write_all(&mut sink, DIGITS), answer, "room {room}");
        assert!(rt; DIGITS.starts_with(sink.held.as_slice()));
        assert_eq!(rt; sink.held.len(), held, "room {room}");
        assert_eq!(rt; sink.calls, calls, "room {room}");
    }
    Ok(())
}

#[test]
fn edges_pass_bytes_on(rt: HostRuntime) {
    let alloc = rt.alloc();
    let mut reader = ReadEdge {
        inner: DIGITS,
        faults: 0,
    };
    let read = read_all(alloc, &mut reader, 16);
    assert!(rt; matches!(&read, Ok(bytes) if bytes.as_slice() == DIGITS));
    assert_eq!(rt; reader.faults, 0);

    let mut writer = WriteEdge {
        inner: Vec::new(alloc),
        faults: 0,
    };
    assert_eq!(rt; write_all(&mut writer, DIGITS), Ok(()));
    assert!(rt; writer.inner.as_slice() == DIGITS);
    assert_eq!(rt; writer.faults, 0);
}

/// A writer that takes all bytes and fails in each flush.
#[derive(Drop)]
struct Unflushed;

impl Write for Unflushed {
    fn write(&mut self, buf: &[u8]) -> io::Result<usize> {
        Ok(buf.len())
    }

    fn flush(&mut self) -> io::Result<()> {
        Err(io::Error::from(io::ErrorKind::BrokenPipe))
    }
}

#[test]
fn a_failed_flush_is_a_fault(rt: HostRuntime) {
    let mut writer = WriteEdge {
        inner: Unflushed,
        faults: 0,
    };
    assert_eq!(rt; write_all(&mut writer, DIGITS), Err(PutFault));
    assert_eq!(rt; writer.faults, 1);
}
