ghost use Rattle.std.specs.Prelude.{◌≡◌, true, IfSome};
ghost use Rattle.orc_program.specs.Kept.{is_var};

use crate::*;
use arrayvec::ArrayVec;
use orc_ops::Op;
use orc_program::Operand::Var as Place;
use orc_program::{
    Function, Insn, Name, Operand, Var, VarKind, add_insn, check_insn, count_of, declare, find_var,
    is_shaped, is_size_for, most_of, new_function,
};
use sqlite_items::Items;
use std::alloc::{AllocError, Global};
use std::process::Abort;

/// A variable with no words after its name.
fn plain_var(alloc: Global, kind: VarKind, size: u8, name: &[u8]) -> Option<Var>
    ensures { IfSome result (λ v. is_var v ≡ true) }
{
    let name = Name::new(name)?;
    let _name = name.as_slice();
    if !is_size_for(kind, size) {
        return None;
    }
    Some(Var {
        kind,
        size,
        name,
        number: 0,
        words: Items::new(alloc),
    })
}

/// A function with variables of these kinds and sizes.
fn function_of(
    rt: &impl Abort,
    alloc: Global,
    vars: &[(VarKind, u8)],
) -> Result<Function, AllocError> {
    let mut f = new_function(alloc, Name::new(b"p").expect(rt, "a name"));
    for (declared, letter) in vars.iter().zip(b"abcdefghijklmnop".iter()) {
        let (kind, size) = *declared;
        let var = plain_var(alloc, kind, size, &[*letter]).expect(rt, "a right variable");
        assert!(rt; find_var(&f, var.name.as_slice()).is_none());
        assert!(rt; count_of(&f, var.kind) < most_of(var.kind));
        declare(&mut f, var)?;
    }
    Ok(f)
}

/// Adds an instruction, which has to pass.
fn add_passing(
    rt: &impl Abort,
    f: &mut Function,
    op: Op,
    line: u32,
    target: Operand,
    sources: &[Operand],
) -> Result<(), AllocError> {
    let mut insn = Insn {
        op,
        prefix: 1,
        results: ArrayVec::new(),
        sources: ArrayVec::new(),
        line,
    };
    let _ = insn.results.try_push(target);
    let _ = insn.sources.try_extend_from_slice(sources);
    assert!(rt; is_shaped(f, &insn));
    let fault = check_insn(f, &insn);
    assert!(rt; fault.is_ok());
    add_insn(f, insn)
}

#[test]
fn the_value_that_is_used_last_goes_to_the_frame(rt: HostRuntime) -> Result<(), AllocError> {
    let mut vars = [(VarKind::Temp, 1); 12];
    vars[0] = (VarKind::Dest, 1);
    vars[1] = (VarKind::Source, 1);
    let mut f = function_of(&rt, rt.alloc(), &vars)?;
    for temp in 2..12 {
        add_passing(
            &rt,
            &mut f,
            Op::Loadb,
            u32::from(temp),
            Place(temp),
            &[Place(1)],
        )?;
    }
    // the addition makes an eleventh value
    add_passing(&rt, &mut f, Op::Addb, 24, Place(2), &[Place(2), Place(3)])?;
    for temp in 2..12 {
        add_passing(&rt, &mut f, Op::Copyb, 25, Place(0), &[Place(temp)])?;
    }
    let core = lower(&f);
    assert_eq!(rt; widest_need(&core), 11);
    let placed = place(&core).expect(&rt, "so many places");
    let at = placed.places.as_slice();
    assert_eq!(rt; at, [0, 1, 2, 3, 4, 5, 6, 7, 8, 10, 9].as_slice());
    Ok(())
}

#[test]
fn a_function_has_its_figures(rt: HostRuntime) -> Result<(), AllocError> {
    let vars = [(VarKind::Dest, 2), (VarKind::Param, 2), (VarKind::Temp, 4)];
    let mut f = function_of(&rt, rt.alloc(), &vars)?;
    add_passing(&rt, &mut f, Op::Mulswl, 5, Place(2), &[Place(0), Place(1)])?;
    add_passing(
        &rt,
        &mut f,
        Op::Shrsl,
        6,
        Place(2),
        &[Place(2), Operand::Number(11)],
    )?;
    add_passing(&rt, &mut f, Op::Convlw, 7, Place(0), &[Place(2)])?;
    assert_eq!(rt; cost(&f), 30);
    assert_eq!(rt; lanes(&f), 4);
    let core = lower(&f);
    assert_eq!(rt; widest_need(&core), 2);
    assert!(rt; place(&core).is_ok());
    Ok(())
}

#[test]
fn sixteen_bytes_are_done_at_once(rt: HostRuntime) -> Result<(), AllocError> {
    let vars = [(VarKind::Dest, 1), (VarKind::Source, 1)];
    let mut f = function_of(&rt, rt.alloc(), &vars)?;
    assert_eq!(rt; lanes(&f), 16);
    add_passing(&rt, &mut f, Op::Copyb, 3, Place(0), &[Place(1)])?;
    assert_eq!(rt; lanes(&f), 16);
    Ok(())
}

#[test]
fn sixteen_elements_of_no_size_are_done_at_once(rt: HostRuntime) -> Result<(), AllocError> {
    // the size of a parameter does not count
    let f = function_of(&rt, rt.alloc(), &[(VarKind::Param, 8)])?;
    assert_eq!(rt; lanes(&f), 16);
    let f = function_of(&rt, rt.alloc(), &[])?;
    assert_eq!(rt; lanes(&f), 16);
    Ok(())
}
