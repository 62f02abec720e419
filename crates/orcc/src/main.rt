//! The program orcc: the top call over the standard streams.
#![tactic(auto)]

use orc_io::{ReadEdge, WriteEdge};
use orcc_top::{Status, orcc};
use std::process::ExitCode;
use std::{env, io};

/// The words after the program's name: None where memory is wanting. The words come as a whole or
/// not at all, so where one of them is no text there are none, which is wrong usage.
fn words(rt: &HostRuntime) -> Option<Vec<String>> {
    let mut words = Vec::new(rt.alloc());
    match env::args(rt) {
        Ok(all) => {
            for word in all.skip(1) {
                if words.push(word).is_err() {
                    return None;
                }
            }
        }
        Err(error) => {
            if error.kind() == io::ErrorKind::OutOfMemory {
                return None;
            }
        }
    }
    Some(words)
}

fn main(rt: HostRuntime) -> ExitCode {
    let Some(words) = words(&rt) else {
        return ExitCode::from(Status::Memory as u8);
    };
    let mut input = ReadEdge {
        inner: rt.stdin(),
        faults: 0,
    };
    let mut output = WriteEdge {
        inner: rt.stdout(),
        faults: 0,
    };
    let mut notes = WriteEdge {
        inner: rt.stderr(),
        faults: 0,
    };
    let status = orcc(
        rt.alloc(),
        words.as_slice(),
        &mut input,
        &mut output,
        &mut notes,
    );
    ExitCode::from(status as u8)
}
