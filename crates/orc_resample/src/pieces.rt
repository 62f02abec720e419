//! Instructions of the code that gathers a far load's values, and pieces of it.

ghost use Rattle.std.specs.Prelude.{◌≡◌, ◌<◌, ◌≤◌, ◌+◌, ◌*◌, ◌^◌, ◌++◌, ◌∷◌, [], OnOk, length, pos, true, false};
ghost use Rattle.x86_ins.specs.declared.ins.AluOp.{AluOp};
ghost use Rattle.x86_ins.specs.declared.ins.ShiftOp.{ShiftOp};
ghost use Rattle.x86_ins.specs.declared.ins.Ins.TheVariants as ins;
ghost use Rattle.x86_ins.specs.declared.ins.MoveOp.TheVariants.{Movd};
ghost use Rattle.x86_ins.specs.declared.ins.AluOp.TheVariants.{And};
ghost use Rattle.x86_ins.specs.Spelling.{IsIns};
ghost use Rattle.x86_ins.specs.Way.{Each};
ghost use Rattle.x86_flow.specs.Moves.{away, IsWidth};
ghost use Rattle.orc_resample.specs.Code.{slot, scalar_at, bits_of, scale_code, narrow_code, element_code, sum_code, start_code, floor_code, row_code, push_gpr_code, half_code, average_code, place_code, near_byte_code, near_long_code, address_code, mixed_byte_code, spread_code, mixed_long_code};

use crate::plan::FarPlan;
use std::alloc::AllocError;
use x86_flow::away;
use x86_ins::{Addr, AluOp, Gpr, Ins, InsList, MoveOp, ShiftOp, VecImmOp, VecOp, Xmm, allowed};

/// RSP.
const STACK: Gpr = Gpr { number: 4 };
/// Takes the values: XMM0.
const VALUES: Xmm = Xmm { number: 0 };
/// Takes an element: XMM1.
const FIRST: Xmm = Xmm { number: 1 };
/// Takes the element behind it: XMM2.
const SECOND: Xmm = Xmm { number: 2 };
/// Takes zeros: XMM3.
const ZEROS: Xmm = Xmm { number: 3 };

/// The address of a slot of the frame.
pub fn slot(disp: i32) -> Addr
    ensures { result ≡ slot disp }
{
    Addr { base: STACK, disp }
}

/// `op dst, src`.
pub fn alu(op: AluOp, dst: Gpr, src: Gpr) -> Ins
    ensures { result ≡ ins.Alu op dst src }
{
    Ins::Alu { op, dst, src }
}

/// `op dst, count`.
pub fn shift(op: ShiftOp, dst: Gpr, count: u8) -> Ins
    ensures { result ≡ ins.Shift op dst count }
{
    Ins::Shift { op, dst, count }
}

/// `mov dst, [rsp + disp]`.
pub fn load(dst: Gpr, disp: i32) -> Ins
    ensures { result ≡ ins.Load dst (slot disp) }
{
    Ins::Load {
        dst,
        at: slot(disp),
    }
}

/// `movzx dst, byte [base + by]`.
fn load_byte(dst: Gpr, base: Gpr, by: usize) -> Ins
    requires { by < 2 ^ 31 }
    ensures { result ≡ ins.Load8 dst (away base by) }
{
    Ins::Load8 {
        dst,
        at: away(base, by),
    }
}

/// The places that a size takes in a shift.
pub fn bits_of(size: usize) -> u8
    ensures { result ≡ bits_of size }
{
    match size {
        1 => 0,
        2 => 1,
        _ => 2,
    }
}

/// The displacement of a scalar's pattern.
fn scalar_at(plan: &FarPlan, j: usize) -> i32
    requires { j < length plan.now.scalars.items }
    ensures { result ≡ scalar_at plan.now j }
{
    plan.scalars[j]
}

/// An instruction's fields are always in the ranges of their types, which is known where it is read.
fn look(ins: &Ins)
    ensures { IsIns ins.now }
{
    let _ = allowed(ins);
}

/// The same of each instruction of a list.
pub fn look_through(list: &[Ins])
    ensures { Each IsIns list.now }
{
    for ins in list {
        look(ins);
    }
}

/// Adds instructions.
pub fn push_each(list: &mut InsList, more: &[Ins]) -> Result<(), AllocError>
    ensures { OnOk result (list.new ≡ list.old ++ more.now) }
{
    for ins in more {
        list.push(*ins)?;
    }
    Ok(())
}

/// Adds what multiplies a register by 2^bits.
#[tactic(auto, using(crate::proofs::Appends::unscaled))]
fn push_scale(list: &mut InsList, bits: u8, a: Gpr) -> Result<(), AllocError>
    ensures { OnOk result (list.new ≡ list.old ++ scale_code bits a) }
{
    if bits == 0 {
        Ok(())
    } else {
        list.push(shift(ShiftOp::Shl, a, bits))
    }
}

/// Adds what divides a register by 2^bits.
#[tactic(auto, using(crate::proofs::Appends::unscaled))]
pub fn push_narrow(list: &mut InsList, bits: u8, a: Gpr) -> Result<(), AllocError>
    ensures { OnOk result (list.new ≡ list.old ++ narrow_code bits a) }
{
    if bits == 0 {
        Ok(())
    } else {
        list.push(shift(ShiftOp::Shr, a, bits))
    }
}

/// Adds what makes the address of the element whose number is in `a`. Elements have 2^bits bytes.
#[tactic(auto, using(crate::proofs::Appends::extended))]
fn push_element(
    list: &mut InsList,
    plan: &FarPlan,
    bits: u8,
    a: Gpr,
    b: Gpr,
) -> Result<(), AllocError>
    ensures { OnOk result (list.new ≡ list.old ++ element_code plan.now bits a b) }
{
    push_scale(list, bits, a)?;
    push_each(list, &[load(b, plan.array), alu(AluOp::Add, a, b)])
}

/// Adds what makes the address of the elements from the first one plus an offset on.
#[tactic(auto, using(crate::proofs::Appends::extended))]
pub fn push_offset(
    list: &mut InsList,
    plan: &FarPlan,
    bits: u8,
    a: Gpr,
    b: Gpr,
) -> Result<(), AllocError>
    requires { length plan.now.scalars.items ≡ 1 }
    ensures { OnOk result (list.new ≡ list.old ++ start_code plan.now bits a b) }
{
    push_sum(list, plan, a, b)?;
    push_element(list, plan, bits, a, b)
}

/// Adds what makes the first element's number plus the offset of `a`.
fn push_sum(list: &mut InsList, plan: &FarPlan, a: Gpr, b: Gpr) -> Result<(), AllocError>
    requires { length plan.now.scalars.items ≡ 1 }
    ensures { OnOk result (list.new ≡ list.old ++ sum_code plan.now a b) }
{
    push_each(
        list,
        &[
            load(a, plan.index),
            load(b, scalar_at(plan, 0)),
            shift(ShiftOp::Shl, b, 32),
            shift(ShiftOp::Sar, b, 32),
            alu(AluOp::Add, a, b),
        ],
    )
}

/// `movd XMM0, a`: the low 32 bits.
fn values_from(a: Gpr) -> Ins
    ensures { result ≡ ins.FromGpr false 0 a }
{
    Ins::FromGpr {
        wide: false,
        dst: VALUES,
        src: a,
    }
}

/// A load of 4, 8 or 16 bytes into XMM0.
fn load_values(op: MoveOp, a: Gpr) -> Ins
    ensures { result ≡ ins.VecLoad op 0 (away a 0) }
{
    Ins::VecLoad {
        op,
        dst: VALUES,
        at: away(a, 0),
    }
}

/// `movzx dst, word [base]`.
fn load_word(dst: Gpr, base: Gpr) -> Ins
    ensures { result ≡ ins.Load16 dst (away base 0) }
{
    Ins::Load16 {
        dst,
        at: away(base, 0),
    }
}

/// `lea dst, [base + by]`.
fn lea(dst: Gpr, base: Gpr, by: usize) -> Ins
    requires { by < 2 ^ 31 }
    ensures { result ≡ ins.Lea dst (away base by) }
{
    Ins::Lea {
        dst,
        at: away(base, by),
    }
}

/// `movd dst, [base + by]`.
fn load_long(dst: Xmm, base: Gpr, by: usize) -> Ins
    requires { by < 2 ^ 31 }
    ensures { result ≡ ins.VecLoad Movd dst (away base by) }
{
    Ins::VecLoad {
        op: MoveOp::Movd,
        dst,
        at: away(base, by),
    }
}

/// `op dst, src`, of vector registers.
pub fn vector(op: VecOp, dst: Xmm, src: Xmm) -> Ins
    ensures { result ≡ ins.Vec op dst src }
{
    Ins::Vec { op, dst, src }
}

/// `op dst, count`, of a vector register.
fn vector_shift(op: VecImmOp, dst: Xmm, count: u8) -> Ins
    ensures { result ≡ ins.VecImm op dst count }
{
    Ins::VecImm { op, dst, count }
}

/// `movd` or, where `wide`, `movq XMM1, src`.
fn first_from(wide: bool, src: Gpr) -> Ins
    ensures { result ≡ ins.FromGpr wide 1 src }
{
    Ins::FromGpr {
        wide,
        dst: FIRST,
        src,
    }
}

/// `movq dst, src`.
fn word_of(dst: Gpr, src: Xmm) -> Ins
    ensures { result ≡ ins.ToGpr true dst src }
{
    Ins::ToGpr {
        wide: true,
        dst,
        src,
    }
}

/// `imul dst, src`.
fn product(dst: Gpr, src: Gpr) -> Ins
    ensures { result ≡ ins.Imul dst src }
{
    Ins::Imul { dst, src }
}

/// `mov dst, src`.
fn copy(dst: Gpr, src: Gpr) -> Ins
    ensures { result ≡ ins.Move dst src }
{
    Ins::Move { dst, src }
}

/// `and dst, 255`.
fn low_byte(dst: Gpr) -> Ins
    ensures { result ≡ ins.AluImm And dst (pos 255) }
{
    Ins::AluImm {
        op: AluOp::And,
        dst,
        value: 255,
    }
}

/// Adds what puts the low bytes of `a` below the values, as one element of a byte.
pub fn push_byte(list: &mut InsList, a: Gpr) -> Result<(), AllocError>
    ensures { OnOk result (list.new ≡ list.old ++ push_gpr_code 1 a) }
{
    push_each(
        list,
        &[
            first_from(false, a),
            vector_shift(VecImmOp::Pslldq, VALUES, 1),
            vector(VecOp::Por, VALUES, FIRST),
        ],
    )
}

/// Adds what loads the byte at half the first element's number plus `k`.
pub fn push_half(
    list: &mut InsList,
    plan: &FarPlan,
    k: usize,
    a: Gpr,
    b: Gpr,
) -> Result<(), AllocError>
    requires { k < 2 ^ 31 }
    ensures { OnOk result (list.new ≡ list.old ++ half_code plan.now k a b) }
{
    push_each(
        list,
        &[
            load(a, plan.index),
            lea(a, a, k),
            shift(ShiftOp::Shr, a, 1),
            load(b, plan.array),
            alu(AluOp::Add, a, b),
            load_byte(a, a, 0),
        ],
    )
}

/// Adds the same, once `a` is kept in `e`.
pub fn push_other_half(
    list: &mut InsList,
    plan: &FarPlan,
    k: usize,
    a: Gpr,
    b: Gpr,
    e: Gpr,
) -> Result<(), AllocError>
    requires { k < 2 ^ 31 }
    ensures { OnOk result (list.new ≡ list.old ++ (ins.Move e a ∷ half_code plan.now k a b)) }
{
    push_each(
        list,
        &[
            copy(e, a),
            load(a, plan.index),
            lea(a, a, k),
            shift(ShiftOp::Shr, a, 1),
            load(b, plan.array),
            alu(AluOp::Add, a, b),
            load_byte(a, a, 0),
        ],
    )
}

/// Adds what puts the average of the bytes in `a` and `e` below the values.
pub fn push_average(list: &mut InsList, a: Gpr, e: Gpr) -> Result<(), AllocError>
    ensures { OnOk result (list.new ≡ list.old ++ average_code a e) }
{
    push_each(
        list,
        &[
            alu(AluOp::Add, a, e),
            lea(a, a, 1),
            shift(ShiftOp::Shr, a, 1),
            first_from(false, a),
            vector_shift(VecImmOp::Pslldq, VALUES, 1),
            vector(VecOp::Por, VALUES, FIRST),
        ],
    )
}

/// Adds what makes the place of the first element plus `k` of a register.
pub fn push_place(
    list: &mut InsList,
    plan: &FarPlan,
    k: usize,
    a: Gpr,
    b: Gpr,
) -> Result<(), AllocError>
    requires few { k < 2 ^ 31 }
    requires two { length plan.now.scalars.items ≡ 2 }
    ensures { OnOk result (list.new ≡ list.old ++ place_code plan.now k a b) }
{
    push_each(
        list,
        &[
            load(a, plan.index),
            lea(a, a, k),
            load(b, scalar_at(plan, 1)),
            shift(ShiftOp::Shl, b, 32),
            shift(ShiftOp::Sar, b, 32),
            product(a, b),
            load(b, scalar_at(plan, 0)),
            shift(ShiftOp::Shl, b, 32),
            shift(ShiftOp::Sar, b, 32),
            alu(AluOp::Add, a, b),
        ],
    )
}

/// Adds what puts the byte at the place in `a` below the values.
pub fn push_near_byte(list: &mut InsList, plan: &FarPlan, a: Gpr, b: Gpr) -> Result<(), AllocError>
    ensures { OnOk result (list.new ≡ list.old ++ near_byte_code plan.now a b) }
{
    push_each(
        list,
        &[
            shift(ShiftOp::Sar, a, 16),
            load(b, plan.array),
            alu(AluOp::Add, a, b),
            load_byte(a, a, 0),
            first_from(false, a),
            vector_shift(VecImmOp::Pslldq, VALUES, 1),
            vector(VecOp::Por, VALUES, FIRST),
        ],
    )
}

/// Adds what puts the long at the place in `a` below the values.
pub fn push_near_long(list: &mut InsList, plan: &FarPlan, a: Gpr, b: Gpr) -> Result<(), AllocError>
    ensures { OnOk result (list.new ≡ list.old ++ near_long_code plan.now a b) }
{
    push_each(
        list,
        &[
            shift(ShiftOp::Sar, a, 16),
            shift(ShiftOp::Shl, a, 2),
            load(b, plan.array),
            alu(AluOp::Add, a, b),
            load_long(FIRST, a, 0),
            vector_shift(VecImmOp::Pslldq, VALUES, 4),
            vector(VecOp::Por, VALUES, FIRST),
        ],
    )
}

/// Adds what keeps the place in `a` in `e`, and makes the number of the element there of `a`.
fn push_floor(list: &mut InsList, a: Gpr, e: Gpr) -> Result<(), AllocError>
    ensures { OnOk result (list.new ≡ list.old ++ floor_code a e) }
{
    push_each(list, &[copy(e, a), shift(ShiftOp::Sar, a, 16)])
}

/// Adds the same, and then what makes the address of that element.
#[tactic(auto, using(crate::proofs::Appends::extended))]
pub fn push_address(
    list: &mut InsList,
    plan: &FarPlan,
    bits: u8,
    a: Gpr,
    b: Gpr,
    e: Gpr,
) -> Result<(), AllocError>
    ensures { OnOk result (list.new ≡ list.old ++ address_code plan.now bits a b e) }
{
    push_floor(list, a, e)?;
    push_element(list, plan, bits, a, b)
}

/// Adds what puts both bytes from the address in `a`, mixed by the place in `e`, below the values.
pub fn push_mixed_byte(list: &mut InsList, a: Gpr, b: Gpr, e: Gpr) -> Result<(), AllocError>
    ensures { OnOk result (list.new ≡ list.old ++ mixed_byte_code a b e) }
{
    push_each(
        list,
        &[
            load_byte(b, a, 1),
            load_byte(a, a, 0),
            shift(ShiftOp::Sar, e, 8),
            low_byte(e),
            alu(AluOp::Sub, b, a),
            product(b, e),
            shift(ShiftOp::Shl, a, 8),
            alu(AluOp::Add, a, b),
            shift(ShiftOp::Shr, a, 8),
            first_from(false, a),
            vector_shift(VecImmOp::Pslldq, VALUES, 1),
            vector(VecOp::Por, VALUES, FIRST),
        ],
    )
}

/// Adds what spreads the bytes of both longs from the address in `a` to the words of `a` and `b`.
pub fn push_spread(list: &mut InsList, a: Gpr, b: Gpr) -> Result<(), AllocError>
    ensures { OnOk result (list.new ≡ list.old ++ spread_code a b) }
{
    push_each(
        list,
        &[
            load_long(FIRST, a, 0),
            load_long(SECOND, a, 4),
            vector(VecOp::Pxor, ZEROS, ZEROS),
            vector(VecOp::Punpcklbw, FIRST, ZEROS),
            vector(VecOp::Punpcklbw, SECOND, ZEROS),
            word_of(a, FIRST),
            word_of(b, SECOND),
        ],
    )
}

/// Adds what puts such longs, mixed by the place in `e`, below the values.
pub fn push_mixed_long(list: &mut InsList, a: Gpr, b: Gpr, e: Gpr) -> Result<(), AllocError>
    ensures { OnOk result (list.new ≡ list.old ++ mixed_long_code a b e) }
{
    push_each(
        list,
        &[
            shift(ShiftOp::Sar, e, 8),
            low_byte(e),
            alu(AluOp::Sub, b, a),
            product(b, e),
            shift(ShiftOp::Shl, a, 8),
            alu(AluOp::Add, a, b),
            first_from(true, a),
            vector_shift(VecImmOp::Psrlw, FIRST, 8),
            vector(VecOp::Packuswb, FIRST, ZEROS),
            vector_shift(VecImmOp::Pslldq, VALUES, 4),
            vector(VecOp::Por, VALUES, FIRST),
        ],
    )
}

/// Adds what loads `width` bytes, 1, 2, 4, 8 or 16, from the address in `a` into XMM0.
pub fn push_row(list: &mut InsList, width: usize, a: Gpr) -> Result<(), AllocError>
    requires { IsWidth width }
    ensures { OnOk result (list.new ≡ list.old ++ row_code width a) }
{
    match width {
        1 => push_each(list, &[load_byte(a, a, 0), values_from(a)]),
        2 => push_each(list, &[load_word(a, a), values_from(a)]),
        4 => list.push(load_values(MoveOp::Movd, a)),
        8 => list.push(load_values(MoveOp::Movq, a)),
        _ => list.push(load_values(MoveOp::Movdqu, a)),
    }
}
