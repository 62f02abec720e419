//! The code that gathers values inside a turn of a function's loop, where all general registers are in use.

ghost use Rattle.std.specs.Prelude.{◌≡◌, ◌+◌, ◌*◌, ◌≤◌, ◌++◌, OnOk, IfOk, length};
ghost use Rattle.x86_ins.specs.declared.ins.Ins.TheVariants as ins;
ghost use Rattle.x86_ins.specs.Spelling.{IsIns, IsAllowed};
ghost use Rattle.x86_ins.specs.Way.{Each};
ghost use Rattle.x86_flow.specs.Moves.{IsWidth};
ghost use Rattle.orc_ops.specs.Far.{far_size, far_scalars, far_weight};
ghost use Rattle.orc_resample.specs.Code.{slot, plan_of, distance_code, number_code, enter_code, leave_code, singly_code, bring_code};
ghost use Rattle.orc_resample.specs.Bring.{IsFarSource, Brings, array_count};

use crate::assembly::push_values;
use crate::beside::{push_beside, push_between, push_doubled};
use crate::pieces::{alu, bits_of, load, look_through, push_each, push_narrow, slot};
use crate::plan::FarPlan;
use arrayvec::ArrayVec;
use orc_ops::{Far, far_size};
use std::alloc::{AllocError, Global};
use x86_ins::{Addr, AluOp, Gpr, Ins, InsList};

/// RAX, which nothing is kept in.
const RESULT: Gpr = Gpr { number: 0 };
/// RCX, the loop's counter.
const COUNTER: Gpr = Gpr { number: 1 };
/// RDI, which holds the block's address.
const BLOCK: Gpr = Gpr { number: 7 };

/// Where a far load's code stands in a function: what it finds, and what it may change. The displacements are in bytes from RSP, which
/// is the address of the frame's first byte.
#[derive(Debug, Drop)]
pub struct FarSource {
    /// The far load.
    pub far: Far,
    /// Of the word with the address of the array's element 0 in this row.
    pub array: i32,
    /// Of the pattern of each scalar, in order: its low 32 bits count.
    pub scalars: ArrayVec<i32, 2>,
    /// Of a word that may be overwritten: the first element's number is put there.
    pub index: i32,
    /// Of another word that may be overwritten: RCX waits there.
    pub work: i32,
    /// Of the word with the argument block's address: RDI holds it, and is brought back from there.
    pub block: i32,
    /// The register that holds the address of an element of the array in this row, modulo 2^64.
    pub pointer: Gpr,
    /// How many bytes behind it the first element is.
    pub ahead: i32,
}

/// `mov [rsp + disp], src`.
fn store(src: Gpr, disp: i32) -> Ins
    ensures { result ≡ ins.Store src (slot disp) }
{
    Ins::Store {
        src,
        at: slot(disp),
    }
}

/// `lea dst, [base + disp]`.
fn lea(dst: Gpr, base: Gpr, disp: i32) -> Ins
    ensures { result ≡ ins.Lea dst (record { base = base; disp = disp }) }
{
    Ins::Lea {
        dst,
        at: Addr { base, disp },
    }
}

/// The scalars' displacements.
fn scalars_of(source: &FarSource) -> ArrayVec<i32, 2>
    ensures { result.items ≡ source.now.scalars.items }
{
    let mut scalars = ArrayVec::new();
    for at in source.scalars.as_slice() {
        scalars.push(*at);
    }
    scalars
}

/// The plan of the values' part, whose code writes no memory.
fn plan_of(source: &FarSource) -> FarPlan
    ensures { result ≡ plan_of source.now }
{
    FarPlan {
        array: source.array,
        scalars: scalars_of(source),
        index: source.index,
        work: source.work,
        scratch: [RESULT.number, COUNTER.number, BLOCK.number],
        odd: None,
    }
}

/// Adds what makes the distance from the array's element 0 to the first element, in bytes.
fn push_distance(list: &mut InsList, source: &FarSource) -> Result<(), AllocError>
    ensures { OnOk result (list.new ≡ list.old ++ distance_code source.now) }
{
    push_each(
        list,
        &[
            store(COUNTER, source.work),
            lea(RESULT, source.pointer, source.ahead),
            load(COUNTER, source.array),
            alu(AluOp::Sub, RESULT, COUNTER),
        ],
    )
}

/// Adds what puts the first element's number in its word.
#[tactic(auto, using(crate::proofs::Appends::extended))]
fn push_number(list: &mut InsList, source: &FarSource) -> Result<(), AllocError>
    ensures { OnOk result (list.new ≡ list.old ++ number_code source.now) }
{
    push_narrow(list, bits_of(usize::from(far_size(source.far))), RESULT)?;
    push_each(list, &[store(RESULT, source.index)])
}

/// Adds both.
#[tactic(auto, using(crate::proofs::Appends::extended))]
fn push_enter(list: &mut InsList, source: &FarSource) -> Result<(), AllocError>
    ensures { OnOk result (list.new ≡ list.old ++ enter_code source.now) }
{
    push_distance(list, source)?;
    push_number(list, source)
}

/// Adds what loads RDI and RCX again.
fn push_leave(list: &mut InsList, source: &FarSource) -> Result<(), AllocError>
    ensures { OnOk result (list.new ≡ list.old ++ leave_code source.now) }
{
    push_each(
        list,
        &[load(BLOCK, source.block), load(COUNTER, source.work)],
    )
}

/// Adds the code that goes element by element.
#[tactic(auto, using(crate::proofs::Appends::extended_3))]
fn push_singly(
    list: &mut InsList,
    source: &FarSource,
    plan: &FarPlan,
    count: u8,
) -> Result<(), AllocError>
    requires plan { plan.now ≡ plan_of source.now }
    requires scalars { length source.now.scalars.items ≡ far_scalars source.now.far }
    requires few { count ≤ 16 }
    requires room { count * far_size source.now.far ≤ 16 }
    requires width { IsWidth (count * far_size source.now.far) }
    ensures { OnOk result (list.new ≡ list.old ++ singly_code source.now count) }
{
    push_enter(list, source)?;
    push_values(
        list,
        plan,
        source.far,
        usize::from(count),
        RESULT,
        COUNTER,
        BLOCK,
    )?;
    push_leave(list, source)
}

/// Adds the code of any far load.
fn push_bring(
    list: &mut InsList,
    source: &FarSource,
    plan: &FarPlan,
    count: u8,
) -> Result<(), AllocError>
    requires plan { plan.now ≡ plan_of source.now }
    requires scalars { length source.now.scalars.items ≡ far_scalars source.now.far }
    requires few { count ≤ 16 }
    requires room { count * far_size source.now.far ≤ 16 }
    requires width { IsWidth (count * far_size source.now.far) }
    ensures { OnOk result (list.new ≡ list.old ++ bring_code source.now count) }
{
    let number = usize::from(count);
    match source.far {
        Far::Loadoffb => push_beside(list, source, 0, number),
        Far::Loadoffw => push_beside(list, source, 1, number * 2),
        Far::Loadoffl => push_beside(list, source, 2, number * 4),
        Far::Loadupdb => push_doubled(list, source, number),
        Far::Loadupib => push_between(list, source, number),
        _ => push_singly(list, source, plan, count),
    }
}

/// The list inside a turn.
fn bring_list(alloc: Global, source: &FarSource, count: u8) -> Result<InsList, AllocError>
    requires source { IsFarSource source.now }
    requires few { count ≤ 16 }
    requires room { count * far_size source.now.far ≤ 16 }
    requires width { IsWidth (count * far_size source.now.far) }
    ensures list { IfOk result (λ list. list ≡ bring_code source.now count) }
    ensures ranges { IfOk result (λ list. Each IsIns list) }
{
    let plan = plan_of(source);
    let mut list = InsList::new(alloc);
    push_bring(&mut list, source, &plan, count)?;
    look_through(list.as_slice());
    Ok(list)
}

/// The code that leaves the next `count` values of a far load side by side in XMM0, the first one lowest, inside a turn of a function's
/// loop: the first element stands `ahead` bytes behind the address in `pointer`, and its number is below 2^31. `count` is 1, 2, 4, 8 or
/// 16, and so many results have 1, 2, 4, 8 or 16 bytes. The code has no jumps, writes no memory but two words of the frame, and no
/// registers but RAX, XMM0 to XMM5 and the flags; RCX and RDI are as before at its end.
pub fn bring(alloc: Global, source: &FarSource, count: u8) -> Result<InsList, AllocError>
    requires source { IsFarSource source.now }
    requires width { IsWidth (count * far_size source.now.far) }
    ensures values { IfOk result (λ list. Brings count source.now list) }
    ensures short { IfOk result (λ list. length list ≤ far_weight source.now.far count + 1) }

    // By a register that is neither RSP nor RDI.
    ensures touches { IfOk result (λ list. array_count list ≤ 2 * count) }
    ensures allowed { IfOk result (λ list. Each IsAllowed list) }

    // It is the list that the specification states.
    ensures is { IfOk result (λ list. list ≡ bring_code source.now count) }
{
    bring_list(alloc, source, count)
}
