ghost use Rattle.std.specs.Prelude.{◌≡◌, true, IfSome, OnOk};
ghost use Rattle.orc_program.specs.Kept.{is_var};
ghost use Rattle.orc_emul.specs.State.{HasCounts};

use crate::*;
use Operand::{Number, Var as At};
use VarKind::{Accumulator, Const, Dest, Param, Source, Temp};
use arrayvec::ArrayVec;
use orc_bits::{BuildError, Part, Parts};
use orc_ops::Op;
use orc_program::{
    Call, Function, Insn, Name, Operand, Place, Var, VarKind, add_insn, check_insn, count_of,
    declare, find_var, is_shaped, is_size_for, most_of, new_function, set_two_d,
};
use sqlite_items::Items;
use std::alloc::{AllocError, Global};
use std::process::Abort;

/// A variable with no words after its name, where it can be one.
fn plain_var(alloc: Global, kind: VarKind, size: u8, name: &[u8], number: u64) -> Option<Var>
    ensures { IfSome result (λ v. is_var v ≡ true) }
{
    let name = Name::new(name)?;
    let _name = name.as_slice();
    if !is_size_for(kind, size) || (number != 0 && !matches!(kind, Const)) {
        return None;
    }
    Some(Var {
        kind,
        size,
        name,
        number,
        words: Items::new(alloc),
    })
}

/// Declares a variable, named by its place.
fn declare_plain(
    rt: &impl Abort,
    alloc: Global,
    f: &mut Function,
    kind: VarKind,
    size: u8,
    number: u64,
) -> Result<(), AllocError> {
    let place = f.vars.len();
    assert!(rt; place < 20);
    let name = [b'v', b'a' + place as u8];
    let var = plain_var(alloc, kind, size, name.as_slice(), number).expect(rt, "a right variable");
    assert!(rt; find_var(f, var.name.as_slice()).is_none());
    assert!(rt; count_of(f, var.kind) < most_of(var.kind));
    declare(f, var)
}

/// Adds an instruction, which has to pass.
fn add_passing(
    rt: &impl Abort,
    f: &mut Function,
    op: Op,
    prefix: u8,
    results: &[Operand],
    sources: &[Operand],
) -> Result<(), AllocError> {
    let mut insn = Insn {
        op,
        prefix,
        results: ArrayVec::new(),
        sources: ArrayVec::new(),
        line: 1,
    };
    let _ = insn.results.try_extend_from_slice(results);
    let _ = insn.sources.try_extend_from_slice(sources);
    assert!(rt; is_shaped(f, &insn));
    let fault = check_insn(f, &insn);
    assert!(rt; fault.is_ok());
    add_insn(f, insn)
}

/// The parts of a table.
fn parts_of(alloc: Global, table: &[(u64, &[u8])]) -> Result<Parts, AllocError> {
    let mut parts = Items::new(alloc);
    for (at, bytes) in table {
        let bytes = Items::from_slice(alloc, bytes)?;
        parts.push(Part { at: *at, bytes })?;
    }
    Ok(parts)
}

/// A store of parts that end below 2^64 and share no byte.
fn store_of(rt: &impl Abort, alloc: Global, table: &[(u64, &[u8])]) -> Result<Store, AllocError> {
    let parts = parts_of(alloc, table)?;
    assert!(rt; are_low(parts.as_slice()));
    Ok(Store::build(alloc, parts).expect(rt, "a store"))
}

type Line<'a> = (Op, u8, &'a [Operand], &'a [Operand]);

/// A function on a call: its variables, by kind, size and a constant's number, and its lines by the variables' places.
#[derive(Clone, Copy)]
struct Case<'a> {
    vars: &'a [(VarKind, u8, u64)],
    lines: &'a [Line<'a>],
    two_d: bool,
    counts: (u32, u32),
    places: &'a [(u64, i64)],
    params: &'a [u64],
    memory: &'a [(u64, &'a [u8])],
}

fn function_of(rt: &impl Abort, alloc: Global, case: &Case) -> Result<Function, AllocError> {
    let mut f = new_function(alloc, Name::new(b"f").expect(rt, "a name"));
    if case.two_d {
        set_two_d(&mut f);
    }
    for (kind, size, number) in case.vars {
        declare_plain(rt, alloc, &mut f, *kind, *size, *number)?;
    }
    for (op, prefix, results, sources) in case.lines {
        add_passing(rt, &mut f, *op, *prefix, results, sources)?;
    }
    Ok(f)
}

fn call_of(rt: &impl Abort, case: &Case) -> Call {
    let mut call = Call {
        n: case.counts.0,
        m: case.counts.1,
        arrays: ArrayVec::new(),
        params: ArrayVec::new(),
    };
    for (base, stride) in case.places {
        let place = Place {
            base: *base,
            stride: *stride,
        };
        assert!(rt; call.arrays.try_push(place).is_ok());
    }
    assert!(rt; call.params.try_extend_from_slice(case.params).is_ok());
    call
}

/// Runs a case, and compares its answer and then the memory.
fn check(
    rt: &impl Abort,
    alloc: Global,
    name: &str,
    case: &Case,
    want: Result<&[u64], Unmapped>,
    after: &[(u64, &[u8])],
) -> Result<(), AllocError> {
    let f = function_of(rt, alloc, case)?;
    let call = call_of(rt, case);
    let mut store = store_of(rt, alloc, case.memory)?;
    assert!(rt; call.arrays.len() == count_of(&f, Dest) + count_of(&f, Source));
    assert!(rt; call.params.len() == count_of(&f, Param));
    match (emulate(&f, &call, &mut store), want) {
        (Ok(sums), Ok(wanted)) => assert!(rt; sums.as_slice() == wanted, "the sums of {name}"),
        (Err(u), Err(wanted)) => assert_eq!(rt; u, wanted, "the end of {name}"),
        _ => assert!(rt; false, "the end of {name}"),
    }
    for (at, bytes) in after {
        for (i, b) in bytes.iter().enumerate() {
            assert_eq!(rt;
                store.get(at.wrapping_add(i as u64)),
                Some(*b),
                "byte {i} at {at} of {name}"
            );
        }
    }
    Ok(())
}

type Table<'a> = &'a [(u64, &'a [u8])];

macro_rules! list {
    ($($x:expr),*) => { &[$($x),*] };
}

/// One element of three arrays apart.
const PLAIN: Case<'static> = Case {
    vars: list![],
    lines: list![],
    two_d: false,
    counts: (1, 1),
    places: list![(4096, 0), (8192, 0), (12288, 0)],
    params: list![],
    memory: list![],
};

const BYTES: Case<'static> = Case {
    vars: list![(Dest, 1, 0), (Source, 1, 0), (Source, 1, 0)],
    lines: list![(Op::Addb, 1, list![At(0)], list![At(1), At(2)])],
    counts: (3, 1),
    memory: list![
        (4096, list![0, 0, 0]),
        (8192, list![1, 0xff, 0x80]),
        (12288, list![1, 1, 0x80])
    ],
    ..PLAIN
};

const SUMS: Case<'static> = Case {
    vars: list![
        (Accumulator, 4, 0),
        (Source, 1, 0),
        (Source, 1, 0),
        (Accumulator, 2, 0),
        (Source, 2, 0)
    ],
    lines: list![
        (Op::Accw, 1, list![At(3)], list![At(4)]),
        (Op::Accsadubl, 1, list![At(0)], list![At(1), At(2)])
    ],
    counts: (2, 1),
    memory: list![
        (4096, list![1, 200]),
        (8192, list![255, 100]),
        (12288, list![7, 0, 1, 0])
    ],
    ..PLAIN
};

const VOLUME: Case<'static> = Case {
    vars: list![(Dest, 2, 0), (Param, 2, 0), (Temp, 4, 0)],
    lines: list![
        (Op::Mulswl, 1, list![At(2)], list![At(0), At(1)]),
        (Op::Shrsl, 1, list![At(2)], list![At(2), Number(11)]),
        (Op::Convlw, 1, list![At(0)], list![At(2)])
    ],
    counts: (3, 1),
    places: list![(4096, 0)],
    params: list![1024],
    memory: list![(4096, list![0xe8, 0x03, 0x18, 0xfc, 0xff, 0x7f])],
    ..PLAIN
};

const ROWS: Case<'static> = Case {
    vars: list![(Dest, 1, 0), (Source, 1, 0)],
    lines: list![(Op::Addb, 1, list![At(0)], list![At(0), At(1)])],
    two_d: true,
    counts: (2, 3),
    places: list![(4096, 0), (8196, -2)],
    memory: list![(4096, list![0, 0]), (8192, list![1, 2, 3, 4, 5, 6])],
    ..PLAIN
};

const LINEAR: Case<'static> = Case {
    vars: list![(Dest, 1, 0), (Source, 1, 0)],
    lines: list![(
        Op::Ldreslinb,
        1,
        list![At(0)],
        list![At(1), Number(0), Number(32768)]
    )],
    counts: (4, 1),
    places: list![(4096, 0), (8192, 0)],
    memory: list![(4096, list![0, 0, 0, 0]), (8192, list![0x00, 0x64, 0xc8])],
    ..PLAIN
};

const AVERAGES: Case<'static> = Case {
    lines: list![(Op::Loadupib, 1, list![At(0)], list![At(1)])],
    memory: list![(4096, list![0, 0, 0, 0]), (8192, list![0x10, 0x20, 0x30])],
    ..LINEAR
};

const OFFSET: Case<'static> = Case {
    lines: list![(
        Op::Loadoffb,
        1,
        list![At(0)],
        list![At(1), Number(0xffff_ffff)]
    )],
    counts: (2, 1),
    memory: list![(4096, list![0, 0]), (8191, list![0x0a, 0x0b])],
    ..LINEAR
};

const TWICE: Case<'static> = Case {
    lines: list![(Op::Loadupdb, 1, list![At(0)], list![At(1)])],
    memory: list![(4096, list![0, 0, 0, 0]), (8192, list![7])],
    ..LINEAR
};

#[test]
fn far_loads_on_memories(rt: HostRuntime) -> Result<(), AllocError> {
    let at_two = Unmapped {
        row: 0,
        element: 2,
        at: 8193,
    };
    let rows: [(&str, Case, Result<&[u64], Unmapped>, Table); 4] = [
        (
            "halves of places",
            LINEAR,
            Ok(list![]),
            list![(4096, list![0x00, 0x32, 0x64, 0x96])],
        ),
        (
            "averages",
            AVERAGES,
            Ok(list![]),
            list![(4096, list![0x10, 0x18, 0x20, 0x28])],
        ),
        (
            "an offset",
            OFFSET,
            Ok(list![]),
            list![(4096, list![0x0a, 0x0b])],
        ),
        (
            "one byte twice",
            TWICE,
            Err(at_two),
            list![(4096, list![7, 7, 0, 0])],
        ),
    ];
    for (name, case, want, after) in rows {
        check(&rt, rt.alloc(), name, &case, want, after)?;
    }
    Ok(())
}

#[test]
fn functions_on_memories(rt: HostRuntime) -> Result<(), AllocError> {
    let four = Case {
        counts: (4, 1),
        ..BYTES
    };
    let at_four = Unmapped {
        row: 0,
        element: 3,
        at: 8195,
    };
    let rows: [(&str, Case, Result<&[u64], Unmapped>, Table); 5] = [
        (
            "three bytes",
            BYTES,
            Ok(list![]),
            list![(4096, list![2, 0, 0])],
        ),
        (
            "a fourth byte",
            four,
            Err(at_four),
            list![(4096, list![2, 0, 0])],
        ),
        ("two sums", SUMS, Ok(list![354, 8]), list![]),
        (
            "volume",
            VOLUME,
            Ok(list![]),
            list![(4096, list![0xf4, 0x01, 0x0c, 0xfe, 0xff, 0x3f])],
        ),
        (
            "rows onto one",
            ROWS,
            Ok(list![]),
            list![(4096, list![9, 12])],
        ),
    ];
    for (name, case, want, after) in rows {
        check(&rt, rt.alloc(), name, &case, want, after)?;
    }
    Ok(())
}

#[test]
fn parts_share_no_byte(rt: HostRuntime) -> Result<(), AllocError> {
    let alloc = rt.alloc();
    let parts = parts_of(alloc, list![(8, list![1, 2, 3]), (10, list![4])])?;
    assert!(rt; are_low(parts.as_slice()));
    assert_eq!(rt; Store::build(alloc, parts).err(), Some(BuildError::Overlap));

    let mut store = store_of(&rt, alloc, list![(11, list![4]), (8, list![1, 2, 3])])?;
    assert!(rt; store.set(9, 7));
    assert!(rt; !store.set(12, 7));
    assert_eq!(rt; store.get(9), Some(7));
    let parts = store.into_parts();
    let [first, second] = parts.as_slice() else {
        panic!(rt; "two parts");
    };
    assert_eq!(rt; first.at, 11);
    assert!(rt; second.bytes.as_slice() == [1, 7, 3].as_slice());
    Ok(())
}
