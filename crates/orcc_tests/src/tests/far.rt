//! What far loads mean, what their code does, and where they are refused.
use super::{Row, push_row, run};
use orcc_top::Status;
use std::alloc::{AllocError, Global};

/// Far loads from a source of bytes at 8192 to a dest at 4096: the line, the number of elements, the bytes of the dest, the segment of the
/// source, what `emulate` writes, and the figures of `check`.
const LOADS: [(&str, &str, &str, &str, &str, &str); 7] = [
    (
        "ldreslinb d1, s1, 0, 32768\n",
        "4",
        "00000000",
        r#"{"at":8192,"bytes":"0064c8"}"#,
        "end emulated\nmem 4096 00326496\nmem 8192 0064c8\n",
        "f need 0 lanes 4 cost 150\n",
    ),
    (
        "loadupib d1, s1\n",
        "4",
        "00000000",
        r#"{"at":8192,"bytes":"102030"}"#,
        "end emulated\nmem 4096 10182028\nmem 8192 102030\n",
        "f need 0 lanes 16 cost 404\n",
    ),
    (
        "loadoffb d1, s1, -1\n",
        "2",
        "0000",
        r#"{"at":8191,"bytes":"0a0b"}"#,
        "end emulated\nmem 4096 0a0b\nmem 8191 0a0b\n",
        "f need 0 lanes 4 cost 21\n",
    ),
    (
        "loadupdb d1, s1\n",
        "4",
        "00000000",
        r#"{"at":8192,"bytes":"10"}"#,
        "end unmapped 0 2 8193\n",
        "f need 0 lanes 16 cost 404\n",
    ),
    // a step downwards, one of exactly an element, and places past the end of 32 bits
    (
        "ldresnearb d1, s1, 131072, -65536\n",
        "3",
        "000000",
        r#"{"at":8192,"bytes":"0a0b0c"}"#,
        "end emulated\nmem 4096 0c0b0a\nmem 8192 0a0b0c\n",
        "f need 0 lanes 4 cost 118\n",
    ),
    (
        "ldreslinb d1, s1, 0, 65536\n",
        "2",
        "0000",
        r#"{"at":8192,"bytes":"0a0b0c"}"#,
        "end emulated\nmem 4096 0a0b\nmem 8192 0a0b0c\n",
        "f need 0 lanes 4 cost 150\n",
    ),
    (
        "ldresnearb d1, s1, 2147483647, 2147483647\n",
        "2",
        "0000",
        r#"{"at":40959,"bytes":"0a"},{"at":73727,"bytes":"0b"}"#,
        "end emulated\nmem 4096 0a0b\nmem 40959 0a\nmem 73727 0b\n",
        "f need 0 lanes 4 cost 118\n",
    ),
];

/// The text of a function with the line.
fn text_of(alloc: Global, line: &str) -> Result<String, AllocError> {
    format!(in alloc; ".function f\n.dest 1 d1\n.source 1 s1\n{line}")
}

/// A job of the function with `n` elements, a source's segments and a budget.
fn job_of(
    alloc: Global,
    n: &str,
    dest: &str,
    source: &str,
    budget: &str,
) -> Result<String, AllocError> {
    format!(in alloc;
        "{{\"function\":\"f\",\"n\":{n},\"m\":1,\"arrays\":[{{\"base\":4096,\"stride\":0}},{{\"base\":8192,\"stride\":0}}],\"params\":[],\"memory\":[{{\"at\":4096,\"bytes\":\"{dest}\"}},{source}],\"budget\":{budget}}}"
    )
}

#[test]
fn far_loads_have_meaning_figures_and_code_and_no_c(rt: HostRuntime) -> Result<(), AllocError> {
    let alloc = rt.alloc();
    for (line, n, dest, source, said, figures) in LOADS {
        let text = text_of(alloc, line)?;
        let job = job_of(alloc, n, dest, source, "100000")?;
        let input = format!(in alloc; "{text}%%\n{job}")?;
        let meant = run(alloc, &["emulate"], input.as_bytes())?;
        assert_eq!(rt; meant.status, Status::Done, "{line}");
        assert!(rt; meant.output.as_slice() == said.as_bytes(), "{line}");
        let shown = run(alloc, &["fmt"], text.as_bytes())?;
        assert!(rt; shown.output.as_slice() == text.as_bytes(), "{line}");
        for word in ["check", "check41"] {
            let checked = run(alloc, &[word], text.as_bytes())?;
            assert!(rt;
                checked.output.as_slice() == figures.as_bytes(),
                "{word} {line}"
            );
        }
        for word in ["asm", "asm41"] {
            let mut image = run(alloc, &[word], text.as_bytes())?.output;
            image.extend_from_slice(job.as_bytes())?;
            let ran = run(alloc, &["run"], image.as_slice())?;
            let memory = said.trim_start_matches("end emulated");
            assert_eq!(rt;
                ran.output.as_slice().starts_with(b"end returned ")
                    && ran.output.as_slice().ends_with(memory.as_bytes()),
                memory.starts_with("\n"),
                "{word} {line}"
            );
        }
        assert_eq!(rt;
            run(alloc, &["obj"], text.as_bytes())?.status,
            Status::Done,
            "{line}"
        );
        let refused = run(alloc, &["c"], text.as_bytes())?;
        assert_eq!(rt; refused.status, Status::Refused, "{line}");
        assert!(rt;
            refused.notes.as_slice() == b"line 4: Unsupported\n".as_slice(),
            "{line}"
        );
    }
    Ok(())
}

/// Functions of bytes at 8192 with far loads among other instructions, with values in registers and in the frame, sums and rows.
const TEXTS: [&str; 4] = [
    ".function f\n.dest 1 d1\n.source 1 s1\n.temp 1 t1\nloadupib t1, s1\naddb d1, t1, s1\n",
    ".function f\n.dest 1 d1\n.source 1 s1\n.temp 1 t1\n.temp 1 t2\nloadoffb t1, s1, 1\nldreslinb t2, s1, 16384, 40000\navgub d1, t1, t2\n",
    ".function f\n.dest 1 d1\n.source 1 s1\n.accumulator 2 a1\n.temp 1 t1\n.temp 2 t2\nldresnearb t1, s1, 0, 65536\ncopyb d1, t1\nconvubw t2, t1\naccw a1, t2\n",
    ".function f\n.flags 2d\n.dest 1 d1\n.source 1 s1\nloadupdb d1, s1\n",
];

#[test]
fn far_loads_are_done_in_heads_bodies_and_tails(rt: HostRuntime) -> Result<(), AllocError> {
    let alloc = rt.alloc();
    let mut bytes = Vec::new(alloc);
    push_row(&mut bytes, Row::Source, 64, 1)?;
    let mut source = Vec::from_slice(alloc, b"{\"at\":8192,\"bytes\":\"")?;
    source.extend_from_slice(bytes.as_slice())?;
    source.extend_from_slice(b"\"}")?;
    for text in TEXTS {
        let image = run(alloc, &["asm"], text.as_bytes())?;
        assert_eq!(rt; image.status, Status::Done, "{text}");
        for n in ["1", "2", "17", "37"] {
            for base in ["4096", "4097", "4111"] {
                let mut job = Vec::from_slice(alloc, b"{\"function\":\"f\",\"n\":")?;
                job.extend_from_slice(n.as_bytes())?;
                job.extend_from_slice(b",\"m\":1,\"arrays\":[{\"base\":")?;
                job.extend_from_slice(base.as_bytes())?;
                job.extend_from_slice(
                    b",\"stride\":0},{\"base\":8192,\"stride\":0}],\"params\":[],\"memory\":[{\"at\":4096,\"bytes\":\"",
                )?;
                job.extend_from_slice(bytes.as_slice())?;
                job.extend_from_slice(b"\"},")?;
                job.extend_from_slice(source.as_slice())?;
                job.extend_from_slice(b"],\"budget\":100000}")?;
                let mut asked = Vec::from_slice(alloc, text.as_bytes())?;
                asked.extend_from_slice(b"%%\n")?;
                asked.extend_from_slice(job.as_slice())?;
                let meant = run(alloc, &["emulate"], asked.as_slice())?;
                let mut given = Vec::from_slice(alloc, image.output.as_slice())?;
                given.extend_from_slice(job.as_slice())?;
                let ran = run(alloc, &["run"], given.as_slice())?;
                assert!(rt;
                    meant.output.as_slice().starts_with(b"end emulated\n"),
                    "{text} {n} {base}"
                );
                assert!(rt;
                    ran.output.as_slice().starts_with(b"end returned "),
                    "{text} {n} {base}"
                );
                assert!(rt;
                    ran.output
                        .as_slice()
                        .ends_with(&meant.output.as_slice()[12..]),
                    "{text} {n} {base}"
                );
            }
        }
    }
    Ok(())
}
