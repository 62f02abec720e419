//! The lists of instructions before and behind a function's code.

ghost use Rattle.std.specs.Prelude.{◌≡◌, ◌<◌, ◌≤◌, ◌+◌, ◌++◌, ◌^◌, [], ◌∷◌, IfOk, OnOk, length, pos, slice_index};
ghost use Rattle.x86_ins.specs.declared.ins.Ins.TheVariants.{AluImm, Shift};
ghost use Rattle.orc_frame.specs.Code.{joined};
ghost use Rattle.orc_prototype.specs.Arguments.{IsSmall, is_long};
ghost use Rattle.orc_entry.specs.Arguments.{IsNear, register_of, stack_word};
ghost use Rattle.orc_entry.specs.Code.{fetch_code, class_code, source_code, fill_code, fills_code, joined_fills, array_fills, param_fills, pointer_fills, entry_code, sum_code, exit_code};

use crate::sources::{Source, base_argument, elements_source, rows_source, stride_of};
use orc_frame::{
    BLOCK, ELEMENTS_WORD, ROWS_WORD, STACK, base_word, layout, param_word, stride_word, sum_word,
};
use orc_program::Function;
use orc_prototype::{Class, Shape, class_of, param_argument, shape_of, sum_argument};
use std::alloc::{AllocError, Global};
use x86_flow::{SCRATCH, away};
use x86_ins::{AluOp, Gpr, Ins, InsList, MoveOp, ShiftOp, Xmm};

/// The bytes that an entry takes from the stack: a word that nothing uses, the block, and the accumulators' pointers. With the return word
/// they are a multiple of 16.
const STACK_SIZE: usize = 344;

/// Where the block is, above RSP.
const BLOCK_AT: usize = 8;

/// Where the first accumulator's pointer is, above RSP.
const POINTERS_AT: usize = 312;

/// How many arguments are in registers.
const IN_REGISTERS: usize = 6;

/// Takes a count's sign: R11.
const SIGN: Gpr = Gpr { number: 11 };

/// Takes an accumulator's pointer: RCX.
const POINTER: Gpr = Gpr { number: 1 };

/// Takes a sum: XMM0.
const SUM: Xmm = Xmm { number: 0 };

/// The register of one of the first six arguments.
#[tactic(auto, using(crate::proofs::Built::register_last))]
fn register_of(number: usize) -> Gpr
    requires { number < 6 }
    ensures { result ≡ register_of number }
{
    let number = match number {
        0 => 7,
        1 => 6,
        2 => 2,
        3 => 1,
        4 => 8,
        _ => 9,
    };
    Gpr { number }
}

/// How far one of the other arguments is from the return word, in bytes.
fn stack_word(number: usize) -> usize
    requires stacked { 6 ≤ number }
    requires few { number < 100 }
    ensures { result ≡ stack_word number }
{
    8 + 8 * (number - IN_REGISTERS)
}

/// Adds what brings an argument to RAX.
fn push_fetch(list: &mut InsList, number: usize) -> Result<(), AllocError>
    requires { number < 100 }
    ensures { OnOk result (list.new ≡ list.old ++ fetch_code number) }
{
    if number < IN_REGISTERS {
        list.push(Ins::Move {
            dst: SCRATCH,
            src: register_of(number),
        })
    } else {
        list.push(Ins::Load {
            dst: SCRATCH,
            at: away(STACK, STACK_SIZE + stack_word(number)),
        })
    }
}

/// Adds a shift by so many bits.
fn push_shift(list: &mut InsList, op: ShiftOp, dst: Gpr, count: u8) -> Result<(), AllocError>
    ensures { OnOk result (list.new ≡ list.old ++ Shift op dst count ∷ []) }
{
    list.push(Ins::Shift { op, dst, count })
}

/// Adds what makes RAX its low 32 bits, and 0 where they are negative.
fn push_counted(list: &mut InsList) -> Result<(), AllocError>
    ensures { OnOk result (list.new ≡ list.old ++ class_code Class.Count) }
{
    push_shift(list, ShiftOp::Shl, SCRATCH, 32)?;
    list.push(Ins::Move {
        dst: SIGN,
        src: SCRATCH,
    })?;
    push_shift(list, ShiftOp::Shr, SCRATCH, 32)?;
    push_shift(list, ShiftOp::Shr, SIGN, 63)?;
    list.push(Ins::AluImm {
        op: AluOp::Sub,
        dst: SIGN,
        value: 1,
    })?;
    list.push(Ins::Alu {
        op: AluOp::And,
        dst: SCRATCH,
        src: SIGN,
    })
}

/// Adds what makes RAX the word of a class.
fn push_class(list: &mut InsList, class: Class) -> Result<(), AllocError>
    ensures { OnOk result (list.new ≡ list.old ++ class_code class) }
{
    match class {
        Class::Word => Ok(()),
        Class::Int => {
            push_shift(list, ShiftOp::Shl, SCRATCH, 32)?;
            push_shift(list, ShiftOp::Sar, SCRATCH, 32)
        }
        Class::Count => push_counted(list),
    }
}

/// Adds what brings the word of a source to RAX.
fn push_source(list: &mut InsList, source: Source) -> Result<(), AllocError>
    requires { IsNear source }
    ensures { OnOk result (list.new ≡ list.old ++ source_code source) }
{
    match source {
        Source::Argument { class, number } => {
            push_fetch(list, number)?;
            push_class(list, class)
        }
        Source::Number(value) => list.push(Ins::MovImm {
            dst: SCRATCH,
            value: u64::from(value),
        }),
    }
}

/// Adds what fills a word, so far above RSP.
fn push_fill(list: &mut InsList, source: Source, to: usize) -> Result<(), AllocError>
    requires near { IsNear source }
    requires to { to < 344 }
    ensures { OnOk result (list.new ≡ list.old ++ fill_code source to) }
{
    push_source(list, source)?;
    list.push(Ins::Store {
        src: SCRATCH,
        at: away(STACK, to),
    })
}

/// Adds what fills the words of an array: its base, and its stride.
#[tactic(auto, using(crate::proofs::Built::two_fills))]
fn push_array(list: &mut InsList, shape: Shape, slot: usize) -> Result<(), AllocError>
    requires small { IsSmall shape }
    requires slot { slot < 12 }
    ensures { OnOk result (list.new ≡ list.old ++ fills_code (array_fills shape slot)) }
{
    let base = base_argument(shape, slot);
    push_fill(
        list,
        Source::Argument {
            class: Class::Word,
            number: base,
        },
        BLOCK_AT + base_word(slot),
    )?;
    push_fill(list, stride_of(shape, base), BLOCK_AT + stride_word(slot))
}

/// Adds what fills the words of `n` arrays from slot `first` on.
#[tactic(auto, using(crate::proofs::Built::fills_none, crate::proofs::Built::fills_more))]
fn push_arrays(list: &mut InsList, shape: Shape, first: usize, n: usize) -> Result<(), AllocError>
    requires small { IsSmall shape }
    requires slots { first + n ≤ 12 }
    ensures { OnOk result (list.new ≡ list.old ++ fills_code (joined_fills (λ k. array_fills shape (first + k)) n)) }
{
    for k in 0..n {
        push_array(list, shape, first + k)?;
    }
    Ok(())
}

/// Whether a parameter is said by `.longparam`.
fn is_long(longs: &[bool], number: usize) -> bool
    ensures { result ≡ is_long longs.now number }
{
    match longs.get(number) {
        Some(long) => *long,
        None => false,
    }
}

/// Adds what fills the words of the parameters.
#[tactic(auto, using(crate::proofs::Built::fills_none, crate::proofs::Built::fills_more))]
fn push_params(list: &mut InsList, shape: Shape, longs: &[bool]) -> Result<(), AllocError>
    requires { IsSmall shape }
    ensures { OnOk result (list.new ≡ list.old ++ fills_code (joined_fills (param_fills shape longs.now) shape.params)) }
{
    for j in 0..shape.params {
        push_fill(
            list,
            Source::Argument {
                class: class_of(is_long(longs, j)),
                number: param_argument(shape, j),
            },
            BLOCK_AT + param_word(j),
        )?;
    }
    Ok(())
}

/// Adds what keeps the accumulators' pointers.
#[tactic(auto, using(crate::proofs::Built::fills_none, crate::proofs::Built::fills_more))]
fn push_pointers(list: &mut InsList, shape: Shape) -> Result<(), AllocError>
    requires { IsSmall shape }
    ensures { OnOk result (list.new ≡ list.old ++ fills_code (joined_fills (pointer_fills shape) shape.sums)) }
{
    for g in 0..shape.sums {
        push_fill(
            list,
            Source::Argument {
                class: Class::Word,
                number: sum_argument(shape, g),
            },
            POINTERS_AT + 8 * g,
        )?;
    }
    Ok(())
}

/// Moves RSP by so many bytes.
fn moved_stack(op: AluOp, by: usize) -> Ins
    requires { by < 2 ^ 31 }
    ensures { result ≡ AluImm op 4 (pos by) }
{
    Ins::AluImm {
        op,
        dst: STACK,
        value: by as i32,
    }
}

/// The list before a function's code: RSP goes down, the block is filled, and RDI points at it.
#[tactic(auto)]
pub fn entry_list(alloc: Global, f: &Function, longs: &[bool]) -> Result<InsList, AllocError>
    ensures { IfOk result (λ list. list ≡ entry_code f.now longs.now) }
{
    let shape = shape_of(f);
    let mut list = InsList::new(alloc);
    list.push(moved_stack(AluOp::Sub, STACK_SIZE))?;
    push_fill(&mut list, elements_source(shape), BLOCK_AT + ELEMENTS_WORD)?;
    push_fill(&mut list, rows_source(shape), BLOCK_AT + ROWS_WORD)?;
    push_arrays(&mut list, shape, 0, shape.dests)?;
    push_arrays(&mut list, shape, 4, shape.sources)?;
    push_params(&mut list, shape, longs)?;
    push_pointers(&mut list, shape)?;
    list.push(Ins::Lea {
        dst: BLOCK,
        at: away(STACK, BLOCK_AT),
    })?;
    Ok(list)
}

/// Adds what stores a sum of so many bytes through its pointer.
fn push_sum(list: &mut InsList, size: u8, number: usize) -> Result<(), AllocError>
    requires { number < 4 }
    ensures { OnOk result (list.new ≡ list.old ++ sum_code size number) }
{
    let from = away(STACK, BLOCK_AT + sum_word(number));
    let to = away(POINTER, 0);
    list.push(Ins::Load {
        dst: POINTER,
        at: away(STACK, POINTERS_AT + 8 * number),
    })?;
    if size == 2 {
        list.push(Ins::Load16 {
            dst: SCRATCH,
            at: from,
        })?;
        list.push(Ins::Store16 {
            src: SCRATCH,
            at: to,
        })
    } else {
        list.push(Ins::VecLoad {
            op: MoveOp::Movd,
            dst: SUM,
            at: from,
        })?;
        list.push(Ins::VecStore {
            op: MoveOp::Movd,
            src: SUM,
            at: to,
        })
    }
}

/// Adds what stores sums of so many bytes through their pointers.
#[tactic(auto, using(orc_frame::proofs::Grown::joined_none, orc_frame::proofs::Grown::joined_more))]
fn push_sums(list: &mut InsList, sizes: &[u8]) -> Result<(), AllocError>
    requires { length sizes.now ≤ 4 }
    ensures { OnOk result (list.new ≡ list.old ++ joined (λ g. sum_code (slice_index sizes.now g) g) (length sizes.now)) }
{
    for g in 0..sizes.len() {
        push_sum(list, sizes[g], g)?;
    }
    Ok(())
}

/// The list behind a function's code: the sums go to where their pointers point, and RSP goes up.
pub fn exit_list(alloc: Global, f: &Function) -> Result<InsList, AllocError>
    ensures { IfOk result (λ list. list ≡ exit_code f.now) }
{
    let layout = layout(f);
    let mut list = InsList::new(alloc);
    push_sums(&mut list, layout.acc_sizes.as_slice())?;
    list.push(moved_stack(AluOp::Add, STACK_SIZE))?;
    Ok(list)
}
