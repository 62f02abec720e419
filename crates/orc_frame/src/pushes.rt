//! Instructions that fill and read slots.

ghost use Rattle.std.specs.Prelude.{◌≡◌, ◌<◌, ◌≤◌, ◌≤ℤ◌, ◌+◌, ◌++◌, [], ◌∷◌, OnOk, length, pos};
ghost use Rattle.x86_ins.specs.declared.ins.Ins.TheVariants.{Shuffle};
ghost use Rattle.orc_frame.specs.Layout.{index_in, frame_size};
ghost use Rattle.orc_frame.specs.Frame.{saved};
ghost use Rattle.orc_frame.specs.Code.{slot, repeated, twice_code, constant_code, spread_code, spread_to_code, param_code, fill_code, is_narrow, add_down_code, total_code, to_rax_code, sum_code};

use crate::words::{param_word, sum_word};
use orc_program::{Operand, Pattern};
use std::alloc::AllocError;
use x86_flow::{SCRATCH, away};
use x86_ins::{Addr, AluOp, Gpr, Ins, InsList, MoveOp, ShuffleOp, VecImmOp, VecOp, Xmm};

/// RSP.
pub const STACK: Gpr = Gpr { number: 4 };

/// Points at the argument block: RDI.
pub const BLOCK: Gpr = Gpr { number: 7 };

/// Takes patterns and sums: XMM0.
const FIRST: Xmm = Xmm { number: 0 };

/// Takes the lanes that are moved down: XMM1.
const SECOND: Xmm = Xmm { number: 1 };

/// The address of a slot of the frame, by its displacement from RSP.
pub fn slot(at: i32) -> Addr
    ensures { result ≡ slot at }
{
    Addr {
        base: STACK,
        disp: at,
    }
}

/// The registers that a call keeps, by their place in the frame: RBX, RBP, R12 to R15.
pub fn saved(place: usize) -> Gpr
    requires { place < 6 }
    ensures { result ≡ saved place }
{
    let number = match place {
        0 => 3,
        1 => 5,
        _ => place as u8 + 10,
    };
    Gpr { number }
}

/// Adds what stores RAX to both words of a slot.
fn push_twice(list: &mut InsList, at: i32) -> Result<(), AllocError>
    requires { at ≤ℤ pos frame_size }
    ensures { OnOk result (list.new ≡ list.old ++ twice_code at) }
{
    list.push(Ins::Store {
        src: SCRATCH,
        at: slot(at),
    })?;
    list.push(Ins::Store {
        src: SCRATCH,
        at: slot(at + 8),
    })
}

/// Adds what fills both words of a slot with a number.
pub fn push_constant(list: &mut InsList, number: u64, at: i32) -> Result<(), AllocError>
    requires { at ≤ℤ pos frame_size }
    ensures { OnOk result (list.new ≡ list.old ++ constant_code number at) }
{
    list.push(Ins::MovImm {
        dst: SCRATCH,
        value: number,
    })?;
    push_twice(list, at)
}

/// The low bytes of a number, as many as its way has, repeated to a word.
fn repeated(way: u8, number: u64) -> u64
    ensures { result ≡ repeated way number }
{
    match way {
        1 => number % 0x100 * 0x0101_0101_0101_0101,
        2 => number % 0x1_0000 * 0x0001_0001_0001_0001,
        4 => number % 0x1_0000_0000 * 0x0000_0001_0000_0001,
        _ => number,
    }
}

/// Adds what repeats unit 0 of XMM0 in the units that the shuffle takes.
fn push_shuffle(list: &mut InsList, op: ShuffleOp) -> Result<(), AllocError>
    ensures { OnOk result (list.new ≡ list.old ++ Shuffle op 0 0 0 ∷ []) }
{
    list.push(Ins::Shuffle {
        op,
        dst: FIRST,
        src: FIRST,
        order: 0,
    })
}

/// Adds what repeats the low 1, 2 or 4 bytes of XMM0 in all of it.
fn push_spread(list: &mut InsList, way: u8) -> Result<(), AllocError>
    ensures { OnOk result (list.new ≡ list.old ++ spread_code way) }
{
    if way == 1 {
        list.push(Ins::Vec {
            op: VecOp::Punpcklbw,
            dst: FIRST,
            src: FIRST,
        })?;
    }
    if way == 1 || way == 2 {
        push_shuffle(list, ShuffleOp::Pshuflw)?;
    }
    push_shuffle(list, ShuffleOp::Pshufd)
}

/// Adds what repeats the low bytes of RAX in a slot.
fn push_spread_to(list: &mut InsList, way: u8, at: i32) -> Result<(), AllocError>
    ensures { OnOk result (list.new ≡ list.old ++ spread_to_code way at) }
{
    list.push(Ins::FromGpr {
        wide: false,
        dst: FIRST,
        src: SCRATCH,
    })?;
    push_spread(list, way)?;
    list.push(Ins::VecStore {
        op: MoveOp::Movdqu,
        src: FIRST,
        at: slot(at),
    })
}

/// Adds what fills a slot with a parameter.
fn push_param(list: &mut InsList, way: u8, number: usize, at: i32) -> Result<(), AllocError>
    requires number { number ≤ 8 }
    requires at { at ≤ℤ pos frame_size }
    ensures { OnOk result (list.new ≡ list.old ++ param_code way number at) }
{
    list.push(Ins::Load {
        dst: SCRATCH,
        at: away(BLOCK, param_word(number)),
    })?;
    if matches!(way, 1 | 2 | 4) {
        push_spread_to(list, way, at)
    } else {
        push_twice(list, at)
    }
}

/// The number of the parameter at a place of the variables, or how many there are.
fn index_in(params: &[u16], place: u16) -> usize
    ensures value { result ≡ index_in params.now place }
    ensures bound { result ≤ length params.now }
{
    let [first, rest @ ..] = params else {
        return 0;
    };
    if *first == place {
        0
    } else {
        1 + index_in(rest, place)
    }
}

/// Adds what fills a slot with a pattern.
pub fn push_pattern(
    list: &mut InsList,
    params: &[u16],
    pattern: Pattern,
    at: i32,
) -> Result<(), AllocError>
    requires few { length params.now ≤ 8 }
    requires at { at ≤ℤ pos frame_size }
    ensures { OnOk result (list.new ≡ list.old ++ fill_code params.now pattern.way pattern.number at) }
{
    match pattern.number {
        Operand::Number(number) => push_constant(list, repeated(pattern.way, number), at),
        Operand::Var(place) => push_param(list, pattern.way, index_in(params, place), at),
    }
}

/// Adds what adds to XMM0's lanes those so many bytes above.
fn push_add_down(list: &mut InsList, op: VecOp, far: u8) -> Result<(), AllocError>
    ensures { OnOk result (list.new ≡ list.old ++ add_down_code op far) }
{
    list.push(Ins::Vec {
        op: VecOp::Movdqa,
        dst: SECOND,
        src: FIRST,
    })?;
    list.push(Ins::VecImm {
        op: VecImmOp::Psrldq,
        dst: SECOND,
        count: far,
    })?;
    list.push(Ins::Vec {
        op,
        dst: FIRST,
        src: SECOND,
    })
}

/// Adds what makes XMM0's lowest lane of 2 or 4 bytes the sum of all.
fn push_total(list: &mut InsList, size: u8) -> Result<(), AllocError>
    ensures { OnOk result (list.new ≡ list.old ++ total_code size) }
{
    if size == 2 {
        push_add_down(list, VecOp::Paddw, 8)?;
        push_add_down(list, VecOp::Paddw, 4)?;
        push_add_down(list, VecOp::Paddw, 2)
    } else {
        push_add_down(list, VecOp::Paddd, 8)?;
        push_add_down(list, VecOp::Paddd, 4)
    }
}

/// Adds what moves XMM0's lowest lane to RAX.
fn push_to_rax(list: &mut InsList, size: u8) -> Result<(), AllocError>
    ensures { OnOk result (list.new ≡ list.old ++ to_rax_code size) }
{
    list.push(Ins::ToGpr {
        wide: false,
        dst: SCRATCH,
        src: FIRST,
    })?;
    if size == 2 {
        list.push(Ins::AluImm {
            op: AluOp::And,
            dst: SCRATCH,
            value: 0xffff,
        })?;
    }
    Ok(())
}

/// Adds what stores the running sum in a slot to the word of an accumulator.
pub fn push_sum(list: &mut InsList, size: u8, at: i32, number: usize) -> Result<(), AllocError>
    requires { number < 4 }
    ensures { OnOk result (list.new ≡ list.old ++ sum_code size at number) }
{
    list.push(Ins::VecLoad {
        op: MoveOp::Movdqu,
        dst: FIRST,
        at: slot(at),
    })?;
    push_total(list, size)?;
    push_to_rax(list, size)?;
    list.push(Ins::Store {
        src: SCRATCH,
        at: away(BLOCK, sum_word(number)),
    })
}
