use crate::{CError, read_c};
use c_emit::print;
use std::alloc::Global;
use std::test::Fail;

// The beginning of a function, up to its statements.
const BEGIN: &str =
    "#include <stdint.h>\nvoid orc_f(int64_t n, int64_t m)\n{\nint64_t i;\nint64_t j;\nfor (j = 0; j < 1; j++) {\nfor (i = 0; i < n; i++) {\n";

// The place of the first wrong byte, where the bytes are no text.
fn wrong(alloc: Global, bytes: &[u8]) -> Option<usize> {
    match read_c(alloc, bytes) {
        Err(CError::Syntax { at }) => Some(at),
        _ => None,
    }
}

#[test]
fn texts_read_back(rt: HostRuntime) -> Result<(), Fail> {
    let alloc = rt.alloc();
    let texts: [&str; 3] = [
        "#include <stdint.h>\n",
        "#include <stdint.h>\nvoid orc_f(int64_t n, int64_t m)\n{\nint64_t i;\nint64_t j;\nfor (j = 0; j < m; j++) {\nfor (i = 0; i < n; i++) {\n}\n}\n}\n",
        "#include <stdint.h>\nvoid orc_g1(int64_t n, int64_t m, unsigned char *a0, int64_t s0, unsigned char *a1, int64_t s1, uint64_t p0, uint64_t *g0)\n{\nint64_t i;\nint64_t j;\nuint64_t v0;\nuint64_t v1;\nuint64_t w0;\nw0 = 0ull;\nfor (j = 0; j < 1; j++) {\nfor (i = 0; i < n; i++) {\nv0 = ((uint64_t)a1[(j * s1) + (i * 2) + 1] << (uint64_t)8ull);\nv1 = ((uint64_t)(v0 == p0) ? (v0 + (w0 >> v1)) : (uint64_t)((v0 & v1) < (uint64_t)18446744073709551615ull));\nw0 = (w0 + v1);\na0[(j * s0) + (i * 1) + 0] = (unsigned char)((v1 / p0) & 255ull);\n}\n}\n*g0 = w0;\n}\n",
    ];
    for text in texts {
        let tree = read_c(alloc, text.as_bytes())?;
        assert_eq!(rt; print(alloc, &tree)?.as_slice(), text.as_bytes());
    }
    Ok(())
}

#[test]
fn first_wrong_bytes(rt: HostRuntime) -> Result<(), Fail> {
    let alloc = rt.alloc();
    let heads: [(&str, usize); 6] = [
        ("", 0),
        ("#include", 8),
        ("#include <stdint.h>\nint", 20),
        ("#include <stdint.h>\nvoid orc_(", 29),
        (
            "#include <stdint.h>\nvoid orc_f(int64_t n, int64_t m, uint64_t p1",
            63,
        ),
        (
            "#include <stdint.h>\nvoid orc_f(int64_t n, int64_t m, uint64_t *g0, uint64_t p",
            76,
        ),
    ];
    for (text, at) in heads {
        assert_eq!(rt; wrong(alloc, text.as_bytes()), Some(at));
    }
    let stmts: [(&str, usize); 6] = [
        ("v0 = (uint64_t)010ull;", 16),
        ("v256 = v0;", 3),
        ("v0 = (uint64_t)18446744073709551616ull;", 34),
        ("a0[(j * s0) + (i * 3) + 0]", 19),
        ("a0[(j * s0) + (i * 8) + 8]", 24),
        ("v0 = (v0 + v1 + v2);", 13),
    ];
    for (stmt, at) in stmts {
        let mut text = Vec::from_slice(alloc, BEGIN.as_bytes())?;
        text.extend_from_slice(stmt.as_bytes())?;
        assert_eq!(rt; wrong(alloc, &text), Some(BEGIN.len() + at));
    }
    Ok(())
}
