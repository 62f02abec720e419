//! The code inside a turn for far loads that read elements side by side: a move takes several at once.

ghost use Rattle.std.specs.Prelude.{◌≡◌, ◌≤◌, ◌*◌, ◌++◌, ◌∷◌, [], OnOk, pos, length, false};
ghost use Rattle.x86_ins.specs.declared.ins.Ins.TheVariants as ins;
ghost use Rattle.x86_ins.specs.declared.ins.MoveOp.{MoveOp};
ghost use Rattle.x86_flow.specs.Moves.{IsWidth};
ghost use Rattle.orc_resample.specs.Code.{slot, front, bytes_code, shifted_code, beside_code, halve_code, lower_code, upper_code, half_count, odd_places_code, doubled_code, averages_code, between_code};

use crate::pieces::{alu, load, push_each, shift, vector};
use crate::turn::FarSource;
use std::alloc::AllocError;
use x86_ins::{Addr, AluOp, Gpr, Ins, InsList, MoveOp, ShiftOp, VecOp, Xmm};

/// RAX, which holds addresses of elements.
const ADDRESS: Gpr = Gpr { number: 0 };
/// RDI, which holds the block's address: it is brought back behind the elements.
const HALF: Gpr = Gpr { number: 7 };
/// Takes the values, and before that the elements at even places: XMM0.
const VALUES: Xmm = Xmm { number: 0 };
/// Takes the elements at odd places, or those between: XMM1.
const ODD: Xmm = Xmm { number: 1 };
/// Takes the elements behind those in XMM0: XMM2.
const BEHIND: Xmm = Xmm { number: 2 };

/// The first element's address, if elements were not doubled.
fn front(source: &FarSource) -> Addr
    ensures { result ≡ front source.now }
{
    Addr {
        base: source.pointer,
        disp: source.ahead,
    }
}

/// `lea dst, [at]`.
fn lea(dst: Gpr, at: Addr) -> Ins
    ensures { result ≡ ins.Lea dst at }
{
    Ins::Lea { dst, at }
}

/// `movd dst, src`.
fn from_gpr(dst: Xmm, src: Gpr) -> Ins
    ensures { result ≡ ins.FromGpr false dst src }
{
    Ins::FromGpr {
        wide: false,
        dst,
        src,
    }
}

/// `op dst, [RAX + disp]`.
fn vector_load(op: MoveOp, dst: Xmm, disp: i32) -> Ins
    ensures { result ≡ ins.VecLoad op dst (record { base = 0; disp = disp }) }
{
    Ins::VecLoad {
        op,
        dst,
        at: Addr {
            base: ADDRESS,
            disp,
        },
    }
}

/// `movzx dst, byte [RAX + disp]`.
fn byte_load(dst: Gpr, disp: i32) -> Ins
    ensures { result ≡ ins.Load8 dst (record { base = 0; disp = disp }) }
{
    Ins::Load8 {
        dst,
        at: Addr {
            base: ADDRESS,
            disp,
        },
    }
}

/// `movzx dst, word [RAX + disp]`.
fn pair_load(dst: Gpr, disp: i32) -> Ins
    ensures { result ≡ ins.Load16 dst (record { base = 0; disp = disp }) }
{
    Ins::Load16 {
        dst,
        at: Addr {
            base: ADDRESS,
            disp,
        },
    }
}

/// Adds what loads `width` bytes, 1, 2, 4, 8 or 16, from `disp` bytes behind RAX on into `dst`; one or two go through `through`.
fn push_bytes(
    list: &mut InsList,
    width: usize,
    dst: Xmm,
    through: Gpr,
    disp: i32,
) -> Result<(), AllocError>
    requires { IsWidth width }
    ensures { OnOk result (list.new ≡ list.old ++ bytes_code width dst through disp) }
{
    match width {
        1 => push_each(list, &[byte_load(through, disp), from_gpr(dst, through)]),
        2 => push_each(list, &[pair_load(through, disp), from_gpr(dst, through)]),
        4 => list.push(vector_load(MoveOp::Movd, dst, disp)),
        8 => list.push(vector_load(MoveOp::Movq, dst, disp)),
        _ => list.push(vector_load(MoveOp::Movdqu, dst, disp)),
    }
}

/// Adds what makes the pointer plus the offset of RAX. Elements have 2^bits bytes.
fn push_shifted(list: &mut InsList, source: &FarSource, bits: u8) -> Result<(), AllocError>
    requires one { length source.now.scalars.items ≡ 1 }
    requires few { bits ≤ 2 }
    ensures { OnOk result (list.new ≡ list.old ++ shifted_code source.now bits) }
{
    push_each(
        list,
        &[
            load(ADDRESS, source.scalars[0]),
            shift(ShiftOp::Shl, ADDRESS, 32),
            shift(ShiftOp::Sar, ADDRESS, 32 - bits),
            alu(AluOp::Add, ADDRESS, source.pointer),
        ],
    )
}

/// Adds the code of an offset load of `width` bytes.
#[tactic(auto, using(crate::proofs::Appends::extended))]
pub fn push_beside(
    list: &mut InsList,
    source: &FarSource,
    bits: u8,
    width: usize,
) -> Result<(), AllocError>
    requires one { length source.now.scalars.items ≡ 1 }
    requires few { bits ≤ 2 }
    requires width { IsWidth width }
    ensures { OnOk result (list.new ≡ list.old ++ beside_code source.now bits width) }
{
    push_shifted(list, source, bits)?;
    push_bytes(list, width, VALUES, ADDRESS, source.ahead)
}

/// Adds what makes half of the first element's number of RDI, and the address of element 0 of RAX.
fn push_halve(list: &mut InsList, source: &FarSource) -> Result<(), AllocError>
    ensures { OnOk result (list.new ≡ list.old ++ halve_code source.now) }
{
    push_each(
        list,
        &[
            load(ADDRESS, source.array),
            lea(HALF, front(source)),
            alu(AluOp::Sub, HALF, ADDRESS),
            shift(ShiftOp::Shr, HALF, 1),
        ],
    )
}

/// Adds what makes the address of the element at half the number, rounded down, of RAX.
fn push_lower(list: &mut InsList) -> Result<(), AllocError>
    ensures { OnOk result (list.new ≡ list.old ++ lower_code) }
{
    push_each(list, &[alu(AluOp::Add, ADDRESS, HALF)])
}

/// Adds what makes that of the one rounded up.
fn push_upper(list: &mut InsList, source: &FarSource) -> Result<(), AllocError>
    ensures { OnOk result (list.new ≡ list.old ++ upper_code source.now) }
{
    push_each(
        list,
        &[lea(ADDRESS, front(source)), alu(AluOp::Sub, ADDRESS, HALF)],
    )
}

/// How many of the elements have an even place, or the one that there is.
fn half_count(count: usize) -> usize
    ensures { result ≡ half_count count }
{
    if count == 1 { 1 } else { count / 2 }
}

/// Adds what puts the elements at odd places between those in XMM0.
#[tactic(auto, using(crate::proofs::Appends::extended_3, crate::proofs::Appends::unscaled))]
fn push_odd_places(list: &mut InsList, source: &FarSource, count: usize) -> Result<(), AllocError>
    requires { IsWidth count }
    ensures { OnOk result (list.new ≡ list.old ++ odd_places_code source.now count) }
{
    if count == 1 {
        return Ok(());
    }
    push_upper(list, source)?;
    push_bytes(list, half_count(count), ODD, ADDRESS, 0)?;
    push_each(list, &[vector(VecOp::Punpcklbw, VALUES, ODD)])
}

/// Adds what loads RDI again.
fn push_block(list: &mut InsList, source: &FarSource) -> Result<(), AllocError>
    ensures { OnOk result (list.new ≡ list.old ++ (ins.Load 7 (slot source.now.block) ∷ [])) }
{
    push_each(list, &[load(HALF, source.block)])
}

/// Adds the code of `Loadupdb`.
pub fn push_doubled(list: &mut InsList, source: &FarSource, count: usize) -> Result<(), AllocError>
    requires { IsWidth count }
    ensures { OnOk result (list.new ≡ list.old ++ doubled_code source.now count) }
{
    push_halve(list, source)?;
    push_lower(list)?;
    push_bytes(list, half_count(count), VALUES, ADDRESS, 0)?;
    push_odd_places(list, source, count)?;
    push_block(list, source)
}

/// Adds what makes averages of the elements between, and puts both kinds side by side.
#[tactic(auto, using(crate::proofs::Appends::extended))]
fn push_averages(list: &mut InsList, count: usize) -> Result<(), AllocError>
    requires { IsWidth count }
    ensures { OnOk result (list.new ≡ list.old ++ averages_code count) }
{
    if count == 1 {
        return push_each(list, &[vector(VecOp::Pavgb, VALUES, ODD)]);
    }
    push_bytes(list, half_count(count), BEHIND, HALF, 1)?;
    push_each(
        list,
        &[
            vector(VecOp::Pavgb, VALUES, ODD),
            vector(VecOp::Pavgb, BEHIND, ODD),
            vector(VecOp::Punpcklbw, VALUES, BEHIND),
        ],
    )
}

/// Adds what makes the address of element 0 of RAX, and then that of the element at half the number, rounded down.
fn push_lower_anew(list: &mut InsList, source: &FarSource) -> Result<(), AllocError>
    ensures { OnOk result (list.new ≡ list.old ++ (ins.Load 0 (slot source.now.array) ∷ lower_code)) }
{
    push_each(
        list,
        &[load(ADDRESS, source.array), alu(AluOp::Add, ADDRESS, HALF)],
    )
}

/// Adds the code of `Loadupib`.
pub fn push_between(list: &mut InsList, source: &FarSource, count: usize) -> Result<(), AllocError>
    requires { IsWidth count }
    ensures { OnOk result (list.new ≡ list.old ++ between_code source.now count) }
{
    push_halve(list, source)?;
    push_upper(list, source)?;
    push_bytes(list, half_count(count), ODD, ADDRESS, 0)?;
    push_lower_anew(list, source)?;
    push_bytes(list, half_count(count), VALUES, HALF, 0)?;
    push_averages(list, count)?;
    push_block(list, source)
}
