ghost use Rattle.std.specs.Prelude.{◌≡◌, true, IfSome};
ghost use Rattle.orc_program.specs.Kept.{is_var};

use crate::*;
use Operand::{Number, Var as Place};
use arrayvec::ArrayVec;
use orc_ops::Op;
use sqlite_items::Items;
use std::alloc::{AllocError, Global};
use std::process::Abort;

/// A variable of one byte with no words after its name.
fn byte_var(alloc: Global, kind: VarKind, name: &[u8], number: u64) -> Option<Var>
    ensures { IfSome result (λ v. is_var v ≡ true) }
{
    let name = Name::new(name)?;
    let _name = name.as_slice();
    if !is_size_for(kind, 1) || (number != 0 && !matches!(kind, VarKind::Const)) {
        return None;
    }
    Some(Var {
        kind,
        size: 1,
        name,
        number,
        words: Items::new(alloc),
    })
}

fn insn(op: Op, prefix: u8, target: Operand, sources: &[Operand]) -> Insn {
    let mut made = Insn {
        op,
        prefix,
        results: ArrayVec::new(),
        sources: ArrayVec::new(),
        line: 1,
    };
    let _ = made.results.try_push(target);
    let _ = made.sources.try_extend_from_slice(sources);
    made
}

/// Adds an instruction, which has to pass.
fn add_passing(rt: &impl Abort, f: &mut Function, insn: Insn) -> Result<(), AllocError> {
    assert!(rt; is_shaped(f, &insn));
    let fault = check_insn(f, &insn);
    assert!(rt; fault.is_ok());
    add_insn(f, insn)
}

const D1: Operand = Place(0);

const S1: Operand = Place(1);

const P1: Operand = Place(2);

const C5: Operand = Place(3);

const T1: Operand = Place(4);

/// A function with a dest, a source, a parameter, the constant 5 and a temp, all of one byte.
fn sample(rt: &impl Abort, alloc: Global) -> Result<Function, AllocError> {
    let name = Name::new(b"f").expect(rt, "a name");
    let mut f = new_function(alloc, name);
    for (kind, name, number) in [
        (VarKind::Dest, b"d1", 0),
        (VarKind::Source, b"s1", 0),
        (VarKind::Param, b"p1", 0),
        (VarKind::Const, b"c5", 5),
        (VarKind::Temp, b"t1", 0),
    ] {
        let var = byte_var(alloc, kind, name.as_slice(), number).expect(rt, "a right variable");
        assert!(rt; find_var(&f, var.name.as_slice()).is_none());
        assert!(rt; count_of(&f, var.kind) < most_of(var.kind));
        declare(&mut f, var)?;
    }
    Ok(f)
}

#[test]
fn an_instruction_has_its_first_fault(rt: HostRuntime) -> Result<(), AllocError> {
    let f = sample(&rt, rt.alloc())?;
    for (op, prefix, result, sources, want) in [
        (Op::Addb, 1, D1, [S1, C5], Ok(())),
        (Op::Addl, 4, P1, [T1, T1], Err(Fault::BadPrefix)),
        (Op::Addw, 1, S1, [T1, T1], Err(Fault::NotWritable)),
        (Op::Shlb, 1, D1, [S1, T1], Err(Fault::NotScalar)),
        (Op::Addw, 1, D1, [T1, T1], Err(Fault::SizeMismatch)),
        (Op::Addb, 1, T1, [T1, S1], Err(Fault::Unset)),
    ] {
        let insn = insn(op, prefix, result, &sources);
        assert!(rt; is_shaped(&f, &insn));
        assert_eq!(rt; check_insn(&f, &insn), want, "{op:?} {prefix}");
    }
    Ok(())
}

#[test]
fn a_limit_comes_last(rt: HostRuntime) -> Result<(), AllocError> {
    let mut f = sample(&rt, rt.alloc())?;
    for number in 0..48 {
        add_passing(&rt, &mut f, insn(Op::Addb, 1, D1, &[S1, Number(number)]))?;
    }
    for (number, want) in [(47, Ok(())), (48, Err(Fault::TooMany))] {
        let insn = insn(Op::Addb, 1, D1, &[S1, Number(number)]);
        assert!(rt; is_shaped(&f, &insn));
        assert_eq!(rt; check_insn(&f, &insn), want);
    }
    Ok(())
}

#[test]
fn patterns_are_numbers_with_their_ways(rt: HostRuntime) -> Result<(), AllocError> {
    let mut f = sample(&rt, rt.alloc())?;
    for (op, sources) in [
        (Op::Addb, [Number(255), P1]),
        (Op::Shlb, [Number(1), Number(1)]),
        (Op::Addb, [C5, Number(5)]),
    ] {
        add_passing(&rt, &mut f, insn(op, 1, D1, &sources))?;
    }
    let want = [
        (Number(255), 1),
        (P1, 1),
        (Number(1), 1),
        (Number(1), 0),
        (Number(5), 1),
    ];
    let found = patterns(&f);
    assert_eq!(rt; found.len(), want.len());
    for (pattern, (number, way)) in found.as_slice().iter().zip(want.as_slice()) {
        assert_eq!(rt; pattern.number, *number);
        assert_eq!(rt; pattern.way, *way);
    }
    Ok(())
}
