//! The lists of instructions around rows.

ghost use Rattle.std.specs.Prelude.{◌≡◌, ◌<◌, ◌≤◌, ◌+◌, ◌++◌, All, IfOk, IsTrue, OnOk, true, false};
ghost use Rattle.x86_ins.specs.Spelling.{has_spelling};
ghost use Rattle.x86_flow.specs.Flow.{Plain, flat, size, spell_all, with_return};
ghost use Rattle.x86_flow.specs.Moves.{away};
ghost use Rattle.x86_flow.specs.Tree.{flat_of};
ghost use Rattle.orc_frame.specs.Frame.{IsLayout};
ghost use Rattle.orc_frame.specs.Layout.{row_slot, rows_slot};
ghost use Rattle.orc_asm.specs.Rows.{slot_code, slots_code, arrays_code, base_code, start_code, stride_code, rows_code, counter_code, row_entry_code, row_step_code, row_flow, rows_flow, whole_flow};

use orc_bits::Code;
use orc_frame::{BLOCK, ELEMENTS_WORD, Layout, ROWS_WORD, base_word, row_at, rows_at, stride_word};
use orc_region::{COUNTER, pointer};
use sqlite_items::Items;
use std::alloc::{AllocError, Global};
use x86_flow::tree::{Flow, put_flow};
use x86_flow::{SCRATCH, away, put, put_list, put_loop};
use x86_ins::{Addr, AluOp, Cond, Ins, InsList};

/// What is done for each array.
#[derive(Clone, Copy)]
pub enum SlotCode {
    /// Its base becomes that of the first row.
    Base,
    /// Its pointer becomes the base of the row.
    Pointer,
    /// Its base and its pointer become that of the only row.
    Start,
    /// Its row goes on by its stride.
    Stride,
}

/// The word of the frame that holds the base of an array slot's row.
fn base_at(layout: &Layout, slot: usize) -> Addr
    requires layout { IsLayout layout.now }
    requires slot { slot < 12 }
    ensures { result ≡ away 4 (row_slot slot) }
{
    orc_frame::slot(row_at(layout, slot))
}

/// The word of the frame that holds the number of rows that are left.
fn left_at(layout: &Layout) -> Addr
    requires { IsLayout layout.now }
    ensures { result ≡ away 4 rows_slot }
{
    orc_frame::slot(rows_at(layout))
}

/// Adds what makes an array's base that of the first row.
fn push_base(list: &mut InsList, layout: &Layout, slot: usize) -> Result<(), AllocError>
    requires layout { IsLayout layout.now }
    requires slot { slot < 12 }
    ensures { OnOk result (list.new ≡ list.old ++ base_code slot) }
{
    list.push(Ins::Load {
        dst: SCRATCH,
        at: away(BLOCK, base_word(slot)),
    })?;
    list.push(Ins::Store {
        src: SCRATCH,
        at: base_at(layout, slot),
    })
}

/// Adds what makes an array's pointer and its base that of the only row.
fn push_start(list: &mut InsList, layout: &Layout, slot: usize) -> Result<(), AllocError>
    requires layout { IsLayout layout.now }
    requires slot { slot < 12 }
    ensures { OnOk result (list.new ≡ list.old ++ start_code slot) }
{
    list.push(Ins::Load {
        dst: pointer(slot),
        at: away(BLOCK, base_word(slot)),
    })?;
    list.push(Ins::Store {
        src: pointer(slot),
        at: base_at(layout, slot),
    })
}

/// Adds what moves an array's row on by its stride.
fn push_stride(list: &mut InsList, layout: &Layout, slot: usize) -> Result<(), AllocError>
    requires layout { IsLayout layout.now }
    requires slot { slot < 12 }
    ensures { OnOk result (list.new ≡ list.old ++ stride_code slot) }
{
    list.push(Ins::Load {
        dst: SCRATCH,
        at: base_at(layout, slot),
    })?;
    list.push(Ins::Load {
        dst: COUNTER,
        at: away(BLOCK, stride_word(slot)),
    })?;
    list.push(Ins::Alu {
        op: AluOp::Add,
        dst: SCRATCH,
        src: COUNTER,
    })?;
    list.push(Ins::Store {
        src: SCRATCH,
        at: base_at(layout, slot),
    })
}

/// Adds what is done for one array.
fn push_slot(
    list: &mut InsList,
    layout: &Layout,
    what: SlotCode,
    slot: usize,
) -> Result<(), AllocError>
    requires layout { IsLayout layout.now }
    requires slot { slot < 12 }
    ensures { OnOk result (list.new ≡ list.old ++ slot_code what slot) }
{
    match what {
        SlotCode::Base => push_base(list, layout, slot),
        SlotCode::Pointer => list.push(Ins::Load {
            dst: pointer(slot),
            at: base_at(layout, slot),
        }),
        SlotCode::Start => push_start(list, layout, slot),
        SlotCode::Stride => push_stride(list, layout, slot),
    }
}

/// Adds what is done for `n` slots from `first` on.
#[tactic(auto, using(crate::proofs::Row::Built::slots_none, crate::proofs::Row::Built::slots_more))]
fn push_slots(
    list: &mut InsList,
    layout: &Layout,
    what: SlotCode,
    first: usize,
    n: usize,
) -> Result<(), AllocError>
    requires layout { IsLayout layout.now }
    requires slots { first + n ≤ 12 }
    ensures { OnOk result (list.new ≡ list.old ++ slots_code (slot_code what) first n) }
{
    for k in 0..n {
        push_slot(list, layout, what, first + k)?;
    }
    Ok(())
}

/// Adds what is done for all arrays.
#[tactic(auto, using(crate::proofs::Row::Built::arrays_both))]
fn push_arrays(
    list: &mut InsList,
    layout: &Layout,
    what: SlotCode,
    dests: usize,
    sources: usize,
) -> Result<(), AllocError>
    requires layout { IsLayout layout.now }
    requires dests { dests ≤ 4 }
    requires sources { sources ≤ 8 }
    ensures { OnOk result (list.new ≡ list.old ++ arrays_code (slot_code what) dests sources) }
{
    push_slots(list, layout, what, 0, dests)?;
    push_slots(list, layout, what, 4, sources)
}

/// What comes before the first row of a function with rows.
#[tactic(auto, using(crate::proofs::Row::Built::rows_whole))]
fn rows_list(
    alloc: Global,
    layout: &Layout,
    dests: usize,
    sources: usize,
) -> Result<InsList, AllocError>
    requires layout { IsLayout layout.now }
    requires dests { dests ≤ 4 }
    requires sources { sources ≤ 8 }
    ensures { IfOk result (λ list. list ≡ rows_code dests sources) }
{
    let mut list = InsList::new(alloc);
    push_arrays(&mut list, layout, SlotCode::Base, dests, sources)?;
    list.push(Ins::Load {
        dst: SCRATCH,
        at: away(BLOCK, ROWS_WORD),
    })?;
    list.push(Ins::Store {
        src: SCRATCH,
        at: left_at(layout),
    })?;
    list.push(Ins::Test {
        a: SCRATCH,
        b: SCRATCH,
    })?;
    Ok(list)
}

/// What comes before the elements of a row: what is done for each array, and the number of elements goes to the counter.
#[tactic(auto, using(crate::proofs::Row::Built::entry_whole))]
fn entry_list(
    alloc: Global,
    layout: &Layout,
    what: SlotCode,
    dests: usize,
    sources: usize,
) -> Result<InsList, AllocError>
    requires layout { IsLayout layout.now }
    requires dests { dests ≤ 4 }
    requires sources { sources ≤ 8 }
    ensures { IfOk result (λ list. list ≡ arrays_code (slot_code what) dests sources ++ counter_code) }
{
    let mut list = InsList::new(alloc);
    push_arrays(&mut list, layout, what, dests, sources)?;
    list.push(Ins::Load {
        dst: COUNTER,
        at: away(BLOCK, ELEMENTS_WORD),
    })?;
    list.push(Ins::Test {
        a: COUNTER,
        b: COUNTER,
    })?;
    Ok(list)
}

/// What comes after the elements of a row.
#[tactic(auto, using(crate::proofs::Row::Built::step_whole))]
fn row_step_list(
    alloc: Global,
    layout: &Layout,
    dests: usize,
    sources: usize,
) -> Result<InsList, AllocError>
    requires layout { IsLayout layout.now }
    requires dests { dests ≤ 4 }
    requires sources { sources ≤ 8 }
    ensures { IfOk result (λ list. list ≡ row_step_code dests sources) }
{
    let mut list = InsList::new(alloc);
    push_arrays(&mut list, layout, SlotCode::Stride, dests, sources)?;
    list.push(Ins::Load {
        dst: SCRATCH,
        at: left_at(layout),
    })?;
    list.push(Ins::AluImm {
        op: AluOp::Sub,
        dst: SCRATCH,
        value: 1,
    })?;
    list.push(Ins::Store {
        src: SCRATCH,
        at: left_at(layout),
    })?;
    Ok(list)
}

/// The bytes of a row: its start, what does its elements, and its end.
fn row_bytes(
    alloc: Global,
    layout: &Layout,
    elements: &Flow,
    dests: usize,
    sources: usize,
) -> Result<Vec<u8>, AllocError>
    requires layout { IsLayout layout.now }
    requires dests { dests ≤ 4 }
    requires sources { sources ≤ 8 }
    ensures { IfOk result (λ bytes. bytes.items ≡ spell_all (flat (row_flow (Plain (flat_of elements.now)) dests sources))) }
{
    let enter = entry_list(alloc, layout, SlotCode::Pointer, dests, sources)?;
    let leave = row_step_list(alloc, layout, dests, sources)?;
    let mut row = Vec::new(alloc);
    put_list(&mut row, enter.as_slice())?;
    put_flow(alloc, &mut row, elements)?;
    put_list(&mut row, leave.as_slice())?;
    Ok(row)
}

/// Adds the code of a function with rows: a loop over them.
fn put_loop_of_rows(
    alloc: Global,
    code: &mut Vec<u8>,
    layout: &Layout,
    elements: &Flow,
    dests: usize,
    sources: usize,
) -> Result<(), AllocError>
    requires layout { IsLayout layout.now }
    requires few { size (flat_of elements.now) ≤ 960000 }
    requires dests { dests ≤ 4 }
    requires sources { sources ≤ 8 }
    ensures { OnOk result (code.new.items ≡ code.old.items ++ spell_all (flat (rows_flow (Plain (flat_of elements.now)) true dests sources))) }
{
    let starts = rows_list(alloc, layout, dests, sources)?;
    let row = row_bytes(alloc, layout, elements, dests, sources)?;
    put_list(code, starts.as_slice())?;
    put_loop(code, Cond::Ne, &row)
}

/// Adds the code of a function without rows, which has one: its start and its elements.
fn put_one_row(
    alloc: Global,
    code: &mut Vec<u8>,
    layout: &Layout,
    elements: &Flow,
    dests: usize,
    sources: usize,
) -> Result<(), AllocError>
    requires layout { IsLayout layout.now }
    requires dests { dests ≤ 4 }
    requires sources { sources ≤ 8 }
    ensures { OnOk result (code.new.items ≡ code.old.items ++ spell_all (flat (rows_flow (Plain (flat_of elements.now)) false dests sources))) }
{
    let enter = entry_list(alloc, layout, SlotCode::Start, dests, sources)?;
    put_list(code, enter.as_slice())?;
    put_flow(alloc, code, elements)
}

/// Adds the code of all rows, in which a tree does the elements of a row.
fn put_rows(
    alloc: Global,
    code: &mut Vec<u8>,
    layout: &Layout,
    elements: &Flow,
    dests: usize,
    sources: usize,
) -> Result<(), AllocError>
    requires layout { IsLayout layout.now }
    requires few { size (flat_of elements.now) ≤ 960000 }
    requires dests { dests ≤ 4 }
    requires sources { sources ≤ 8 }
    ensures { OnOk result (code.new.items ≡ code.old.items ++ spell_all (flat (rows_flow (Plain (flat_of elements.now)) layout.now.two_d dests sources))) }
{
    if layout.two_d {
        put_loop_of_rows(alloc, code, layout, elements, dests, sources)
    } else {
        put_one_row(alloc, code, layout, elements, dests, sources)
    }
}

/// Code of rows between two lists, in which a tree does the elements of a row.
pub fn whole_code(
    alloc: Global,
    layout: &Layout,
    first: &[Ins],
    elements: &Flow,
    last: &[Ins],
    dests: usize,
    sources: usize,
) -> Result<Code, AllocError>
    requires layout { IsLayout layout.now }
    requires first_spelled { All (λ i. IsTrue (has_spelling i)) first.now }
    requires last_spelled { All (λ i. IsTrue (has_spelling i)) last.now }
    requires few { size (flat_of elements.now) ≤ 960000 }
    requires dests { dests ≤ 4 }
    requires sources { sources ≤ 8 }
    ensures { IfOk result (λ code. code ≡ spell_all (with_return (whole_flow first.now (Plain (flat_of elements.now)) last.now layout.now.two_d dests sources))) }
{
    let mut code = Vec::new(alloc);
    put_list(&mut code, first)?;
    put_rows(alloc, &mut code, layout, elements, dests, sources)?;
    put_list(&mut code, last)?;
    put(&mut code, &Ins::Ret)?;
    Ok(Items::from_vec(code))
}
