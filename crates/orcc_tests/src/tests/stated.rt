//! Facts that a text states of calls: what the image has of them, and jobs that don't meet them.

use super::{has_at_most, run};
use orcc_top::Status;
use std::alloc::{AllocError, Global};

/// The image of the first kernel up to its code's length, where n is a multiple of 16 and the dest begins at one.
const HEAD: [u8; 72] = [
    0x4f, 0x52, 0x43, 0x49, 2, 1, 4, b'a', b'd', b'd', b'8', 0, 1, 2, 0, 0, // counts
    0, 0, 0, 0, 16, 0, 0, 0, 0, 0, 0, 0, 0xff, 0xff, 0xff, 0x7f, // n
    0, 0, 0, 0, 1, 0, 0, 0, 0, 0, 0, 0, 0xff, 0xff, 0xff, 0x7f, // m
    16, 0, 1, 0, 1, 0, 1, 0, 1, 0, 1, 0, 1, 0, 1, 0, 1, 0, 1, 0, 1, 0, 1, 0,
];

/// A text's second line and what follows it, the version of its image, the elements and the dest's base of a call, and what is noted of it.
type Case = (&'static str, u8, &'static str, &'static str, &'static str);

/// A kernel's lines but for the instruction, calls of it, and what is wrong with them.
const CASES: [Case; 10] = [
    (".dest 1 d1 align 16\n.n mult 16\n", 2, "16", "4096", ""),
    (
        ".dest 1 d1 align 16\n.n mult 16\n",
        2,
        "17",
        "4096",
        "job: BadField n\n",
    ),
    (
        ".dest 1 d1 align 16\n.n mult 16\n",
        2,
        "16",
        "4100",
        "job: BadField arrays\n",
    ),
    // no count meets both, so nothing is stated
    (".dest 1 d1\n.n min 8 max 4\n", 1, "17", "4100", ""),
    // the last of its kind counts, where it is in range
    (
        ".dest 1 d1\n.n 17 16\n",
        2,
        "17",
        "4096",
        "job: BadField n\n",
    ),
    (".dest 1 d1\n.n 16 0\n", 1, "17", "4096", ""),
    (
        ".dest 1 d1\n.n mult 5 mult 16 min 17\n",
        2,
        "16",
        "4096",
        "job: BadField n\n",
    ),
    (".dest 1 d1 align 16 align 1\n", 1, "16", "4100", ""),
    // a function without rows states nothing of them
    (".dest 1 d1\n.m 2\n", 1, "16", "4096", ""),
    (
        ".flags 2d\n.dest 1 d1\n.m 2\n",
        2,
        "16",
        "4096",
        "job: BadField m\n",
    ),
];

/// A kernel's lines but for the instruction, the bound on the steps of a call of 1,600 elements, and whether single elements are loaded.
const BOUNDS: [(&str, u64, bool); 4] = [
    (".dest 1 d1 align 16\n.n mult 16\n", 1912, false),
    (".dest 1 d1 align 16\n", 2182, true),
    (".dest 1 d1\n.n 1600\n", 1912, false),
    (".dest 1 d1\n", 2452, true),
];

/// The image of a kernel with these lines that adds bytes.
fn image_with(alloc: Global, declared: &str) -> Result<Vec<u8>, AllocError> {
    let mut text = Vec::from_slice(alloc, b".function add8\n")?;
    text.extend_from_slice(declared.as_bytes())?;
    text.extend_from_slice(b".source 1 s1\n.source 1 s2\naddb d1, s1, s2\n")?;
    Ok(run(alloc, &["asm"], text.as_slice())?.output)
}

/// Whether a word stands in a listing.
fn has_word(listing: &[u8], word: &str) -> bool {
    let Ok(text) = str::from_utf8(listing) else {
        return false;
    };
    text.contains(word)
}

#[test]
fn facts_drop_single_elements(rt: HostRuntime) -> Result<(), AllocError> {
    let alloc = rt.alloc();
    for (declared, most, singles) in BOUNDS {
        let mut input = image_with(alloc, declared)?;
        let listing = run(alloc, &["dis"], input.as_slice())?.output;
        assert_eq!(rt;
            has_word(listing.as_slice(), "movzx"),
            singles,
            "{declared}"
        );
        input.extend_from_slice(
            b"{\"function\":\"add8\",\"n\":1600,\"m\":1,\"arrays\":[{\"base\":4096,\"stride\":0},{\"base\":8192,\"stride\":0},{\"base\":8192,\"stride\":0}],\"params\":[],\"memory\":[{\"at\":4096,\"bytes\":\"",
        )?;
        for _ in 0..1600 {
            input.extend_from_slice(b"00")?;
        }
        input.extend_from_slice(b"\"},{\"at\":8192,\"bytes\":\"")?;
        for _ in 0..1600 {
            input.extend_from_slice(b"7b")?;
        }
        input.extend_from_slice(b"\"}],\"budget\":100000}")?;
        let ran = run(alloc, &["run"], input.as_slice())?;
        assert!(rt;
            has_at_most(ran.output.as_slice(), "end returned ", most),
            "{declared}"
        );
    }
    Ok(())
}

#[test]
fn facts_are_stated_and_asked(rt: HostRuntime) -> Result<(), AllocError> {
    let alloc = rt.alloc();
    for (declared, version, n, base, noted) in CASES {
        let mut input = image_with(alloc, declared)?;
        if version == 2 && noted == "" {
            assert!(rt; input.as_slice().starts_with(&HEAD));
        }
        assert!(rt;
            input
                .as_slice()
                .starts_with(&[b'O', b'R', b'C', b'I', version]),
            "{declared}"
        );
        input.extend_from_slice(b"{\"function\":\"add8\",\"n\":")?;
        input.extend_from_slice(n.as_bytes())?;
        input.extend_from_slice(b",\"m\":1,\"arrays\":[{\"base\":")?;
        input.extend_from_slice(base.as_bytes())?;
        input.extend_from_slice(
            b",\"stride\":0},{\"base\":8192,\"stride\":0},{\"base\":8192,\"stride\":0}],\"params\":[],\"memory\":[{\"at\":4096,\"bytes\":\"0000000000000000000000000000000000000000000000000000000000000000\"},{\"at\":8192,\"bytes\":\"0101010101010101010101010101010101\"}],\"budget\":100000}",
        )?;
        let ran = run(alloc, &["run"], input.as_slice())?;
        let status = if noted == "" {
            Status::Done
        } else {
            Status::Refused
        };
        assert_eq!(rt; ran.status, status, "{declared}");
        assert!(rt; ran.notes.as_slice() == noted.as_bytes(), "{declared}");
    }
    Ok(())
}
