//! What the C text of a kernel means.
use super::ADD8;
use arrayvec::ArrayVec;
use c_emit::{emit, means_first, means_second, print};
use c_run::{CEnd, CTree, run_c};
use orc_bits::Part;
use orc_emul::{Store, are_low};
use orc_program::{Call, Place, has_far};
use orc_text::read;
use sqlite_items::Items;
use std::alloc::{AllocError, Global};
use std::process::Abort;

/// Where the arrays stand, and their bytes.
const ARRAYS: [(u64, [u8; 3]); 3] = [
    (4096, [0, 0, 0]),
    (8192, [0x01, 0xff, 0x80]),
    (12288, [0x01, 0x01, 0x80]),
];

/// The C text of the kernel that adds rows of bytes.
const TEXT: &str = "#include <stdint.h>\n\
    void orc_add8(int64_t n, int64_t m, unsigned char *a0, int64_t s0, unsigned char *a1, int64_t s1, unsigned char *a2, int64_t s2)\n\
    {\nint64_t i;\nint64_t j;\nuint64_t v0;\nuint64_t v1;\n\
    for (j = 0; j < 1; j++) {\nfor (i = 0; i < n; i++) {\n\
    v0 = (uint64_t)a1[(j * s1) + (i * 1) + 0];\n\
    v1 = (uint64_t)a2[(j * s2) + (i * 1) + 0];\n\
    a0[(j * s0) + (i * 1) + 0] = (unsigned char)(((v0 + v1) & (uint64_t)255ull) & 255ull);\n\
    }\n}\n}\n";

#[test]
fn the_c_text_of_a_kernel_is_run_and_printed(rt: HostRuntime) -> Result<(), AllocError> {
    means_first();
    means_second();
    let alloc = rt.alloc();
    let program = read(alloc, ADD8.as_bytes()).expect(&rt, "a program");
    let f = program
        .functions
        .as_slice()
        .first()
        .expect(&rt, "a function");
    assert!(rt; !has_far(f));
    let c = emit(alloc, f)?;
    let mut parts = Items::new(alloc);
    let mut call = Call {
        n: 3,
        m: 1,
        arrays: ArrayVec::new(),
        params: ArrayVec::new(),
    };
    for (base, bytes) in ARRAYS {
        parts.push(Part {
            at: base,
            bytes: Items::from_slice(alloc, &bytes)?,
        })?;
        assert!(rt; call.arrays.try_push(Place { base, stride: 0 }).is_ok());
    }
    assert!(rt; are_low(parts.as_slice()));
    let mut store = Store::build(alloc, parts).expect(&rt, "a store");
    assert!(rt; call.arrays.len() == usize::from(c.arrays));
    assert!(rt; call.params.len() == usize::from(c.params));
    assert!(rt; matches!(run_c(&c, &call, &mut store, 100), CEnd::Ended { .. }));
    assert_eq!(rt;
        (store.get(4096), store.get(4097), store.get(4098)),
        (Some(2), Some(0), Some(0))
    );
    let mut tree = CTree {
        functions: Items::new(alloc),
    };
    tree.functions.push(c)?;
    assert_eq!(rt; print(alloc, &tree)?.as_slice(), TEXT.as_bytes());
    Ok(())
}
