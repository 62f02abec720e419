//! What a run leaves where its streams fail.

ghost use Rattle.std.specs.Prelude.{◌<◌};

use super::{ADD8, DEMO, Outcome, Stream, VOLUME, run, run_with};
use orcc_top::Status;
use std::alloc::{AllocError, Global};
use std::process::Abort;

/// A job for the text that adds rows of bytes.
const JOB: &str =
    r#"{"function":"add8","n":3,"m":1,"arrays":[{"base":4096,"stride":0,"size":1},{"base":8192,"stride":0,"size":1},{"base":12288,"stride":0,"size":1}],"params":[],"memory":[{"at":4096,"bytes":"000000"},{"at":8192,"bytes":"01ff80"},{"at":12288,"bytes":"010180"}],"budget":1000}"#;

/// The commands that read no job, each with an input that it accepts.
const COMMANDS: [(&str, &str); 5] = [
    ("asm", ADD8),
    ("obj", ADD8),
    ("c", ADD8),
    ("check", VOLUME),
    ("fmt", DEMO),
];

/// Runs with one failing take after the other, until none fails.
fn takes_fail(
    rt: &impl Abort,
    alloc: Global,
    words: &[&str],
    input: &[u8],
) -> Result<(), AllocError> {
    for call in 1..u64::MAX {
        let ran = run_with(alloc, words, input, 60_000, 7, Some((Stream::Input, call)))?;
        if !ran.failed {
            return Ok(());
        }
        assert_eq!(rt; ran.status, Status::ReadFault, "{words:?} {call}");
        assert!(rt;
            ran.output.is_empty() && ran.notes.is_empty(),
            "{words:?} {call}"
        );
    }
    Ok(())
}

/// What one sink holds, and what the other one holds.
fn held(ran: &Outcome, sink: Stream) -> (&[u8], &[u8]) {
    if sink == Stream::Notes {
        (ran.notes.as_slice(), ran.output.as_slice())
    } else {
        (ran.output.as_slice(), ran.notes.as_slice())
    }
}

/// Runs with one failing put of so many bytes to a sink after the other, until none fails.
fn puts_fail(
    rt: &impl Abort,
    alloc: Global,
    words: &[&str],
    input: &[u8],
    sink: Stream,
    most: usize,
) -> Result<(), AllocError>
    requires { 0 < most }
{
    let whole = run(alloc, words, input)?;
    let mut before = Vec::new(alloc);
    for (call, piece) in (1..u64::MAX).zip(held(&whole, sink).0.chunks(most)) {
        let ran = run_with(alloc, words, input, 60_000, most, Some((sink, call)))?;
        assert_eq!(rt; ran.status, Status::WriteFault, "{words:?} {call}");
        let (cut, other) = held(&ran, sink);
        assert!(rt;
            cut == before.as_slice() && other.is_empty(),
            "{words:?} {call}"
        );
        before.extend_from_slice(piece)?;
    }
    Ok(())
}

/// Runs a command on an input that it accepts, with each of its calls failing.
fn each_call_fails(
    rt: &impl Abort,
    alloc: Global,
    words: &[&str],
    input: &[u8],
) -> Result<(), AllocError> {
    let whole = run(alloc, words, input)?;
    assert_eq!(rt; whole.status, Status::Done, "{words:?}");
    takes_fail(rt, alloc, words, input)?;
    puts_fail(rt, alloc, words, input, Stream::Output, 7)
}

#[test]
fn a_failing_stream_is_told(rt: HostRuntime) -> Result<(), AllocError> {
    let alloc = rt.alloc();
    for (word, input) in COMMANDS {
        each_call_fails(&rt, alloc, &[word], input.as_bytes())?;
    }
    let image = run(alloc, &["asm"], ADD8.as_bytes())?.output;
    each_call_fails(&rt, alloc, &["dis"], image.as_slice())?;
    let called = [image.as_slice(), JOB.as_bytes()].concat(alloc)?;
    each_call_fails(&rt, alloc, &["run"], called.as_slice())?;
    each_call_fails(&rt, alloc, &["jobs", "2", "5"], called.as_slice())?;
    let meant = [ADD8.as_bytes(), b"%%\n", JOB.as_bytes()].concat(alloc)?;
    each_call_fails(&rt, alloc, &["emulate"], meant.as_slice())?;
    // Each run of `gen` makes eight functions and runs them, so its puts are longer and fewer.
    puts_fail(&rt, alloc, &["gen", "7"], b"", Stream::Output, 96)?;
    puts_fail(&rt, alloc, &["asm"], b"x", Stream::Notes, 7)?;
    puts_fail(&rt, alloc, &[], b"", Stream::Notes, 7)
}

#[test]
fn a_full_output_holds_what_fits(rt: HostRuntime) -> Result<(), AllocError> {
    let ran = run_with(rt.alloc(), &["fmt"], ADD8.as_bytes(), 10, 7, None)?;
    assert_eq!(rt; ran.status, Status::WriteFault);
    assert!(rt; ran.output.as_slice() == b".function ".as_slice() && ran.notes.is_empty());
    Ok(())
}
