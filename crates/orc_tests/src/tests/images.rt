use orc_image::{ImageError, list, one_image, one_listing, read_image, write_image};
use std::alloc::Global;
use std::test::Fail;

// No functions.
const EMPTY: [u8; 6] = [0x4f, 0x52, 0x43, 0x49, 1, 0];

// Functions a and b_1, the first over rows with 4 dests, 8 sources, 8 parameters and 4 accumulators.
const PAIR: [u8; 55] = [
    0x4f, 0x52, 0x43, 0x49, 1, 2, 1, 0x61, 1, 4, 8, 8, 4, 17, 0, 0, 0, 0x66, 0x0f, 0xfc, 0xc1,
    0x48, 0x83, 0xc0, 0x7f, 0x06, 0xe9, 0xfb, 0xff, 0xff, 0xff, 0x0f, 0xb6, 0xc3, 3, 0x62, 0x5f,
    0x31, 0, 0, 0, 0, 0, 8, 0, 0, 0, 0x0f, 0x84, 0, 0, 0, 0, 0xc3, 0x66,
];

// Two functions of the name a.
const TWICE: [u8; 30] = [
    0x4f, 0x52, 0x43, 0x49, 1, 2, 1, 0x61, 0, 0, 0, 0, 0, 1, 0, 0, 0, 0xc3, 1, 0x61, 0, 0, 0, 0, 0,
    1, 0, 0, 0, 0xc3,
];

// A function f over a dest and two sources in version 2: n is a multiple of 16, and so are the dest's addresses.
const STATED: [u8; 74] = [
    0x4f, 0x52, 0x43, 0x49, 2, 1, 1, 0x66, 0, 1, 2, 0, 0, 0, 0, 0, 0, 16, 0, 0, 0, 0, 0, 0, 0,
    0xff, 0xff, 0xff, 0x7f, 0, 0, 0, 0, 1, 0, 0, 0, 0, 0, 0, 0, 0xff, 0xff, 0xff, 0x7f, 16, 0, 1,
    0, 1, 0, 1, 0, 1, 0, 1, 0, 1, 0, 1, 0, 1, 0, 1, 0, 1, 0, 1, 0, 1, 0, 0, 0, 0xc3,
];

fn refusal(alloc: Global, bytes: &[u8]) -> Option<ImageError> {
    match read_image(alloc, bytes) {
        Ok(_) => None,
        Err(e) => Some(e),
    }
}

#[test]
fn images_read_back_and_listed(rt: HostRuntime) -> Result<(), Fail> {
    one_image();
    one_listing();
    let alloc = rt.alloc();
    let listings: [(&[u8], &str); 3] = [
        (&EMPTY, ""),
        (&STATED, "function f\n00000000 c3 ret\n"),
        (
            &PAIR,
            "function a\n\
            00000000 660ffcc1 paddb\n00000004 4883c07f add\n00000008 06 bad\n00000009 e9fbffffff jmp\n\
            0000000e 0f bad\n0000000f b6 bad\n00000010 c3 ret\n\
            function b_1\n00000000 0f8400000000 je\n00000006 c3 ret\n00000007 66 bad\n",
        ),
    ];
    for (bytes, want) in listings {
        let (image, size) = read_image(alloc, bytes)?;
        assert_eq!(rt; size, bytes.len());
        assert_eq!(rt; write_image(alloc, &image)?.as_slice(), bytes);
        assert_eq!(rt; list(alloc, &image)?.as_slice(), want.as_bytes());
    }
    Ok(())
}

#[test]
fn refusals(rt: HostRuntime) -> Result<(), Fail> {
    let alloc = rt.alloc();
    // The end of the field in which the image is cut at each length.
    for (length, need) in [(0, 4), (5, 6), (16, 17), (54, 55)] {
        assert!(rt; length <= PAIR.len());
        assert_eq!(rt;
            refusal(alloc, &PAIR[..length]),
            Some(ImageError::Short { need }),
            "{length}"
        );
    }
    assert_eq!(rt;
        refusal(alloc, &TWICE),
        Some(ImageError::BadField { at: 19 })
    );
    let changes = [
        (3, 0x4a, ImageError::BadMagic),
        (4, 3, ImageError::BadVersion),
        (7, 0x31, ImageError::BadField { at: 7 }),
        (15, 0x10, ImageError::BadField { at: 13 }),
    ];
    for (at, byte, want) in changes {
        let mut bytes = PAIR;
        assert!(rt; at < bytes.len());
        bytes[at] = byte;
        assert_eq!(rt; refusal(alloc, &bytes), Some(want), "{at}");
    }
    // Each field of the facts: a byte that is changed, and the first byte of the field that is refused.
    let facts = [
        (16, 0x80, 13),
        (13, 32, 17),
        (17, 0, 17),
        (24, 0x80, 21),
        (28, 0xff, 25),
        (29, 1, 29),
        (33, 2, 33),
        (37, 1, 37),
        (41, 0xfe, 41),
        (45, 17, 45),
        (47, 2, 47),
        (53, 3, 53),
        (57, 2, 57),
    ];
    for (at, byte, field) in facts {
        let mut bytes = STATED;
        assert!(rt; at < bytes.len());
        bytes[at] = byte;
        assert_eq!(rt;
            refusal(alloc, &bytes),
            Some(ImageError::BadField { at: field }),
            "{at}"
        );
    }
    Ok(())
}
