use orc_ops::Op;
use orc_program::{Fault, Operand, VarKind};
use orc_text::{TextError, read, show};
use std::alloc::{AllocError, Global};
use std::process::Abort;

/// The first fault of a text, and its line.
fn first_fault(rt: &impl Abort, alloc: Global, text: &[u8]) -> Option<(u32, Fault)> {
    assert!(rt; text.len() < 100_000);
    match read(alloc, text) {
        Ok(_) => None,
        Err(TextError::Fault { line, fault }) => Some((line, fault)),
        Err(TextError::Memory) => panic!(rt; "memory ran out"),
    }
}

/// Six lines of a function.
const HEAD: &str =
    ".function f\n.dest 4 d1\n.source 4 s1\n.temp 4 t1\n.accumulator 4 a1\n.param 4 p1\n";

#[test]
fn a_text_has_its_first_fault(rt: HostRuntime) -> Result<(), AllocError> {
    for (text, want) in [
        ("\n \t,\r\n# a comment \u{80}\n.function f", None),
        ("addl d1, s1, s1", Some((1, Fault::NoFunction))),
        ("\r\r\n", Some((1, Fault::BadByte))),
        (".x", Some((1, Fault::UnknownDirective))),
        (".init a\n.init", Some((2, Fault::WrongWords))),
        (
            ".function f\n.function g\n.function f",
            Some((3, Fault::Duplicate)),
        ),
    ] {
        assert_eq!(rt;
            first_fault(&rt, rt.alloc(), text.as_bytes()),
            want,
            "{text}"
        );
    }
    for (lines, want) in [
        (".dest 4 4d align 3", Some(Fault::BadName)),
        (".const 4 c 18446744073709551616", Some(Fault::BadNumber)),
        (".accumulator 8 a2", Some(Fault::BadSize)),
        (".temp 4 s1", Some(Fault::Duplicate)),
        ("x4 addf", Some(Fault::Unsupported)),
        ("x2 x2 addw d1, s1, s1", Some(Fault::UnknownOpcode)),
        ("x4 addl", Some(Fault::BadPrefix)),
        ("addl d1, s9, 010", Some(Fault::UnknownName)),
        ("addl d1, a1, s9", Some(Fault::NotReadable)),
        ("mulswl d1, t1, 1", Some(Fault::SizeMismatch)),
        ("addl t1, t1, s1", Some(Fault::Unset)),
        ("copyl t1, s1\naddl d1, t1, -1", None),
    ] {
        let text = format!(in rt.alloc(); "{HEAD}{lines}")?;
        let want = match want {
            Some(fault) => Some((7, fault)),
            None => None,
        };
        assert_eq!(rt;
            first_fault(&rt, rt.alloc(), text.as_bytes()),
            want,
            "{lines}"
        );
    }
    Ok(())
}

#[test]
fn a_text_reads_as_its_program(rt: HostRuntime) {
    let text =
        ".init start\n.function add8\n.flags 2d\n.dest 1 d1 align 16\n.const 2 c1 -1\n\naddb d1,d1,0x10L\n";
    let Ok(program) = read(rt.alloc(), text.as_bytes()) else {
        panic!(rt; "a fault");
    };
    assert!(rt; program.init.is_some());
    let [f] = program.functions.as_slice() else {
        panic!(rt; "one function");
    };
    assert!(rt; f.two_d);
    let [_d1, c1] = f.vars.as_slice() else {
        panic!(rt; "two variables");
    };
    assert_eq!(rt; c1.kind, VarKind::Const);
    assert_eq!(rt; c1.number, u64::MAX);
    let [addb] = f.insns.as_slice() else {
        panic!(rt; "one instruction");
    };
    assert_eq!(rt; addb.op, Op::Addb);
    assert_eq!(rt; addb.results.as_slice(), [Operand::Var(0)].as_slice());
    assert_eq!(rt;
        addb.sources.as_slice(),
        [Operand::Var(0), Operand::Number(16)].as_slice()
    );
    assert_eq!(rt; addb.line, 7);
}

#[test]
fn a_program_has_its_canonical_text(rt: HostRuntime) -> Result<(), AllocError> {
    let text =
        "# demo\n.function f\n.backup g\n.flags 2d\n.m  min 4\n.n 1,mult 2\n.longparam 8 p x\n.const 1 c 0xffL\n.dest 2 d\nx2 addb d c -1\n.init i";
    let want =
        ".init i\n.function f\n.flags 2d\n.param 8 p x\n.const 1 c 255\n.dest 2 d\n.n 1 mult 2\n.m min 4\n.backup g\nx2 addb d, c, -1\n";
    let Ok(program) = read(rt.alloc(), text.as_bytes()) else {
        panic!(rt; "a fault");
    };
    let shown = show(rt.alloc(), &program)?;
    assert_eq!(rt; shown.as_slice(), want.as_bytes());
    Ok(())
}
