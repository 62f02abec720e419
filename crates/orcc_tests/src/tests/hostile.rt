//! Input that is cut, drawn at random or at the ends of what is allowed.
use super::{ADD8, run};
use orcc_top::Status;
use std::alloc::{AllocError, Global};

/// A command, its input, and the status with what is written.
const ANSWERS: [(&str, &[u8], Status, &str); 8] = [
    // Numbers at the ends of 64 bits, and past them.
    (
        "fmt",
        b".function f\n.const 8 c 0xffffffffffffffff\n.const 8 e 18446744073709551615\n",
        Status::Done,
        ".function f\n.const 8 c -1\n.const 8 e -1\n",
    ),
    (
        "fmt",
        b".function f\n.const 4 c -9223372036854775808\n",
        Status::Done,
        ".function f\n.const 4 c -9223372036854775808\n",
    ),
    (
        "fmt",
        b".function f\n.const 4 c 18446744073709551616\n",
        Status::Refused,
        "line 2: BadNumber\n",
    ),
    (
        "fmt",
        b".function f\n.const 4 c -9223372036854775809\n",
        Status::Refused,
        "line 2: BadNumber\n",
    ),
    (
        "fmt",
        b".function f\n.const 4 c 0x10000000000000000\n",
        Status::Refused,
        "line 2: BadNumber\n",
    ),
    // A byte that is no text.
    (
        "fmt",
        b".function f # \x80\n",
        Status::Done,
        ".function f\n",
    ),
    (
        "fmt",
        b".function f\n\x80\n",
        Status::Refused,
        "line 2: BadByte\n",
    ),
    ("emulate", b"%%\n{", Status::Refused, "job: NotJson\n"),
];

#[test]
fn the_ends_of_what_is_allowed(rt: HostRuntime) -> Result<(), AllocError> {
    let alloc = rt.alloc();
    for (word, input, status, said) in ANSWERS {
        let ran = run(alloc, &[word], input)?;
        assert_eq!(rt; ran.status, status, "{said}");
        assert!(rt;
            ran.output.as_slice() == said.as_bytes() || ran.notes.as_slice() == said.as_bytes(),
            "{said}"
        );
    }
    let mut nested = Vec::from_slice(alloc, b"%%\n")?;
    for bracket in *b"[]" {
        for _ in 0..200 {
            nested.push(bracket)?;
        }
    }
    let ran = run(alloc, &["emulate"], nested.as_slice())?;
    assert_eq!(rt; ran.status, Status::Refused);
    assert!(rt; ran.notes.as_slice() == b"job: NotJson\n".as_slice());
    Ok(())
}

#[test]
fn a_cut_image_says_what_is_wanting(rt: HostRuntime) -> Result<(), AllocError> {
    let alloc = rt.alloc();
    let image = run(alloc, &["asm"], ADD8.as_bytes())?.output;
    // The ends of the fields: magic, version, functions, length of the name, name, flags, dests, sources, parameters, accumulators, length
    // of the code, code.
    let ends = [4, 5, 6, 7, 11, 12, 13, 14, 15, 16, 20, image.len()];
    let mut cut = 0;
    for end in ends {
        let wanting = format!(in alloc; "image: Short {end}\n")?;
        for size in cut..end {
            assert!(rt; size < image.len());
            let ran = run(alloc, &["run"], &image[..size])?;
            assert_eq!(rt; ran.status, Status::Refused, "{size}");
            assert!(rt; ran.notes.as_slice() == wanting.as_bytes(), "{size}");
        }
        cut = end;
    }
    let ran = run(alloc, &["run"], image.as_slice())?;
    assert!(rt; ran.notes.as_slice() == b"job: NotJson\n".as_slice());
    Ok(())
}

/// The image of a function without arrays, whose code is 32 bytes drawn from a seed, and a job behind it.
fn drawn(alloc: Global, seed: u64) -> Result<Vec<u8>, AllocError> {
    let mut input = Vec::from_slice(
        alloc,
        b"ORCI\x01\x01\x01f\x00\x00\x00\x00\x00\x20\x00\x00\x00",
    )?;
    let mut state = seed;
    for _ in 0..32 {
        state = state
            .wrapping_mul(6_364_136_223_846_793_005)
            .wrapping_add(1_442_695_040_888_963_407);
        input.push(state.to_le_bytes()[4])?;
    }
    input.extend_from_slice(
        b"{\"function\":\"f\",\"n\":0,\"m\":0,\"arrays\":[],\"params\":[],\"memory\":[],\"budget\":10000}",
    )?;
    Ok(input)
}

#[test]
fn drawn_codes_end(rt: HostRuntime) -> Result<(), AllocError> {
    let alloc = rt.alloc();
    for seed in 1..=64 {
        let input = drawn(alloc, seed)?;
        let ran = run(alloc, &["run"], input.as_slice())?;
        assert_eq!(rt; ran.status, Status::Done, "{seed}");
        assert!(rt; ran.output.as_slice().starts_with(b"end "), "{seed}");
    }
    Ok(())
}
