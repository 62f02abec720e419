ghost use Rattle.std.specs.Prelude.{◌≡◌, true, IfSome};
ghost use Rattle.orc_program.specs.Kept.{is_var};

use crate::header;
use orc_program::{
    Function, Name, Var, VarKind, add_function, count_of, declare, find_var, has_function,
    is_size_for, most_of, new_function, new_program, set_two_d,
};
use sqlite_items::Items;
use std::alloc::{AllocError, Global};
use std::process::Abort;

/// A variable with no words after its name.
fn plain_var(alloc: Global, kind: VarKind, size: u8, name: &[u8]) -> Option<Var>
    ensures { IfSome result (λ v. is_var v ≡ true) }
{
    let name = Name::new(name)?;
    let _name = name.as_slice();
    if !is_size_for(kind, size) {
        return None;
    }
    Some(Var {
        kind,
        size,
        name,
        number: 0,
        words: Items::new(alloc),
    })
}

/// A function with rows, and with variables that are declared in another order than the arguments have.
fn sample(rt: &impl Abort, alloc: Global) -> Result<Function, AllocError> {
    let name = Name::new(b"f").expect(rt, "a name");
    let mut f = new_function(alloc, name);
    for (kind, size, name) in [
        (VarKind::Param, 4, b"x"),
        (VarKind::Source, 1, b"y"),
        (VarKind::Accumulator, 4, b"z"),
        (VarKind::Param, 4, b"v"),
        (VarKind::Dest, 2, b"w"),
    ] {
        let var = plain_var(alloc, kind, size, name.as_slice()).expect(rt, "a right variable");
        assert!(rt; find_var(&f, var.name.as_slice()).is_none());
        assert!(rt; count_of(&f, var.kind) < most_of(var.kind));
        declare(&mut f, var)?;
    }
    set_two_d(&mut f);
    Ok(f)
}

#[test]
fn a_header_has_prototypes(rt: HostRuntime) -> Result<(), AllocError> {
    let f = sample(&rt, rt.alloc())?;
    let mut program = new_program(rt.alloc());
    assert!(rt; !has_function(program.functions.as_slice(), f.name.as_slice()));
    add_function(&mut program, f)?;
    let text =
        b".function f\n.param 4 x\n.source 1 y\n.accumulator 4 z\n.longparam 4 v\n.dest 2 w\n.flags 2d\n";
    let header = header(rt.alloc(), &program, text)?;
    let want =
        b"void f (orc_uint16 * ORC_RESTRICT d1, int d1_stride, orc_uint32 * ORC_RESTRICT a1, const orc_uint8 * ORC_RESTRICT s1, int s1_stride, int p1, orc_int64 p2, int n, int m);\n\n#ifdef __cplusplus\n}\n#endif\n";
    assert!(rt; header.as_slice().ends_with(want));
    Ok(())
}
