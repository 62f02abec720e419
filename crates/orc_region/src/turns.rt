//! What does the elements of a row: blocks and turns of one element and of several, in loops.

ghost use Rattle.std.specs.Prelude.{◌≡◌, ◌<◌, ◌≤◌, ◌+◌, ◌*◌, ◌==◌, All, IfOk, nat_le, slice_index, true};
ghost use Rattle.orc_program.specs.Program.{FunctionValue};
ghost use Rattle.orc_program.specs.Need.{divides_each};
ghost use Rattle.orc_frame.specs.Frame.{IsLayout};
ghost use Rattle.x86_flow.specs.Tree.{flat_of};
ghost use Rattle.sse_laws.specs.Targets.{IsCodeFor};
ghost use Rattle.orc_region.specs.Code.{AreActions, IsReady, IsBlockBy, AreBlocks, IsTurnBy, IsShare, IsBlock, IsTurnOf, AreByParts, AreWholeTurns, AreFromFirst, AreFromBoundary, IsElements, aligned_first, seats_with, blocks_of, shift_of, used_from};
ghost use Rattle.orc_region.specs.Elements.{AreOf, DoesElements, DoesRow};
ghost use Rattle.orc_region.specs.Making.{AreFor};

use crate::lists::{COUNTER, push_actions, push_advances};
use crate::loops::{
    Ends, aligned_loops, larger_ends, no_ends, plain_loops, tested_loops, whole_loops, wide_loops,
};
use crate::residents::seats_by;
use crate::span::{Setting, Span};
use orc_frame::Layout;
use orc_ops::Target;
use orc_plan::{Core, Placed};
use orc_program::CountFacts;
use std::alloc::{AllocError, Global};
use x86_flow::Block;
use x86_flow::tree::{Flow, plain, repeat};
use x86_ins::{AluOp, Cond, Ins, InsList};

/// The bytes of a vector register.
const REGISTER: usize = 16;

/// The most instructions of a turn of several elements, but fewer than are done at once.
const MOST_OF_PART: usize = 100;

/// What the turns of a function's code are made of: its steps, the places of their values, its layout, and the target.
#[derive(Clone, Copy)]
struct Making<'a> {
    core: &'a Core,
    places: &'a [u8],
    layout: &'a Layout,
    target: Target,
}

/// How many of `most` slots from `first` on are in use: a slot has the bytes of an element, and 0 where it is in no use.
#[tactic(auto, using(crate::proofs::Built::Slots::used_few))]
fn used(sizes: &[u8; 12], first: usize, most: usize) -> usize
    requires { first + most ≤ 12 }
    ensures is { result ≡ used_from (slice_index sizes.now) first most }
    ensures few { result ≤ most }
{
    let mut count = 0;
    for k in 0..most {
        if sizes[first + k] != 0 {
            count += 1;
        }
    }
    count
}

/// Does elements of a turn.
fn block_list(
    alloc: Global,
    core: &Core,
    places: &[u8],
    layout: &Layout,
    span: Span,
) -> Result<InsList, AllocError>
    requires layout { IsLayout layout.now }
    requires ready { All (IsReady layout.now (seats_with layout.now places.now) (slice_index core.now.sizes) span.count) core.now.steps }
    requires near { span.first ≤ 64 }
    ensures { IfOk result (IsBlockBy (seats_with layout.now places.now) core.now.sizes core.now.steps span) }
{
    let setting = Setting {
        seats: seats_by(places, layout),
        sizes: &core.sizes,
        layout,
        span,
    };
    let mut list = InsList::new(alloc);
    push_actions(alloc, &mut list, &setting, core.steps.as_slice())?;
    Ok(list)
}

/// Does so many blocks of a turn, one behind another, of which the span is the first.
fn blocks_list(
    alloc: Global,
    core: &Core,
    places: &[u8],
    layout: &Layout,
    span: Span,
    blocks: usize,
) -> Result<InsList, AllocError>
    requires layout { IsLayout layout.now }
    requires ready { All (IsReady layout.now (seats_with layout.now places.now) (slice_index core.now.sizes) span.count) core.now.steps }
    requires count { span.count ≤ 16 }
    requires blocks { blocks ≤ 4 }
    ensures { IfOk result (AreBlocks (AreActions span.target (seats_with layout.now places.now) span.count core.now.steps) span.count (slice_index core.now.sizes) (aligned_first span.aligned) blocks) }
{
    let mut list = InsList::new(alloc);
    for k in 0..blocks {
        let setting = Setting {
            seats: seats_by(places, layout),
            sizes: &core.sizes,
            layout,
            span: Span {
                first: k * span.count,
                ..span
            },
        };
        push_actions(alloc, &mut list, &setting, core.steps.as_slice())?;
    }
    Ok(list)
}

/// Does so many blocks from the elements that the pointers are at, and moves the pointers and the counter on.
fn turn_list(
    alloc: Global,
    core: &Core,
    places: &[u8],
    layout: &Layout,
    span: Span,
    blocks: usize,
) -> Result<InsList, AllocError>
    requires layout { IsLayout layout.now }
    requires ready { All (IsReady layout.now (seats_with layout.now places.now) (slice_index core.now.sizes) span.count) core.now.steps }
    requires count { span.count ≤ 16 }
    requires blocks { blocks ≤ 4 }
    ensures { IfOk result (IsTurnBy (seats_with layout.now places.now) core.now.sizes core.now.steps (used_from (slice_index core.now.sizes) 0 4) (used_from (slice_index core.now.sizes) 4 8) span blocks) }
{
    let sizes = &core.sizes;
    let by = blocks * span.count;
    let mut list = blocks_list(alloc, core, places, layout, span, blocks)?;
    push_advances(&mut list, sizes, by, 0, used(sizes, 0, 4))?;
    push_advances(&mut list, sizes, by, 4, used(sizes, 4, 8))?;
    list.push(Ins::AluImm {
        op: AluOp::Sub,
        dst: COUNTER,
        value: by as i32,
    })?;
    Ok(list)
}

/// A turn of so many blocks, each of `count` elements, with aligned stores to the first dest or without.
fn turn(
    alloc: Global,
    making: &Making,
    count: usize,
    aligned: bool,
    blocks: usize,
) -> Result<Block, AllocError>
    requires of { (f : FunctionValue) × AreFor f making.now }
    requires count { IsShare making.now.core.now.lanes count }
    requires blocks { blocks ≤ 4 }
    ensures { IfOk result (λ block. (f : FunctionValue) → AreFor f making.now → IsTurnOf f making.now.target making.now.places.now count aligned blocks block.list) }
{
    let span = Span {
        first: 0,
        count,
        aligned,
        target: making.target,
    };
    let list = turn_list(
        alloc,
        making.core,
        making.places,
        making.layout,
        span,
        blocks,
    )?;
    Ok(Block { list })
}

/// A block for `count` elements, with aligned stores to the first dest or without.
fn block(alloc: Global, making: &Making, count: usize, aligned: bool) -> Result<Block, AllocError>
    requires of { (f : FunctionValue) × AreFor f making.now }
    requires count { IsShare making.now.core.now.lanes count }
    ensures { IfOk result (λ block. (f : FunctionValue) → AreFor f making.now → IsBlock f making.now.target making.now.places.now count aligned block.list) }
{
    let span = Span {
        first: 0,
        count,
        aligned,
        target: making.target,
    };
    let list = block_list(alloc, making.core, making.places, making.layout, span)?;
    Ok(Block { list })
}

/// Whether so many elements of the first slot fill a register.
fn fills(core: &Core, count: u8) -> bool
    ensures { result ≡ (count * slice_index core.now.sizes 0 == 16) }
{
    count as usize * core.sizes[0] as usize == REGISTER
}

/// Does `count` elements of a row from the one that the pointers of arrays are at, by the layout of the same function. `count` is as many as
/// are done at once, or so many halved until, at last, it is 1. Where `aligned` is true, the cell of the first dest has to be at a multiple of 16, and is stored to by aligned
/// stores where so many of its elements fill a register. The pointers stay. The instructions are the target's, and at most as many as a turn
/// costs for it.
pub fn region(
    alloc: Global,
    p: &Placed,
    l: &Layout,
    count: u8,
    aligned: bool,
    target: Target,
) -> Result<Block, AllocError>
    requires of { (f : FunctionValue) × AreOf f p.now l.now }
    requires count { IsShare p.now.core.lanes count }
    ensures does { IfOk result (λ block. (f : FunctionValue) → AreOf f p.now l.now → DoesElements f target p.now.places count aligned block.list) }
    ensures target { IfOk result (λ block. IsCodeFor target block.list) }
{
    let aligned = aligned & fills(&p.core, count);
    let making = Making {
        core: &p.core,
        places: p.places.as_slice(),
        layout: l,
        target,
    };
    block(alloc, &making, count as usize, aligned)
}

/// The size of an element as a power of two.
fn shift_of(size: usize) -> u8
    ensures is { result ≡ shift_of size }
    ensures few { result ≤ 3 }
{
    match size {
        8 => 3,
        4 => 2,
        2 => 1,
        _ => 0,
    }
}

/// The loops over the elements of a row, by the layout of the same function. The pointers of arrays are at the first element, and the counter
/// has the number of elements. Where elements of the first dest fill a register, several elements at once are stored to it at multiples of 16.
/// Those before the first such one and those behind the last whole turn are done by turns of fewer and fewer elements, and by no loop where by
/// the facts there are none.
/// The instructions are the target's.
pub fn row_flow(alloc: Global, p: &Placed, l: &Layout, target: Target) -> Result<Flow, AllocError>
    requires of { (f : FunctionValue) × AreOf f p.now l.now }
    ensures is { IfOk result (λ flow. (f : FunctionValue) → AreOf f p.now l.now → IsElements f target p.now.places flow) }
    ensures does { IfOk result (λ flow. (f : FunctionValue) → AreOf f p.now l.now → DoesRow f target p.now.places (flat_of flow)) }
    ensures target { IfOk result (λ flow. IsCodeFor target (flat_of flow)) }
{
    let making = Making {
        core: &p.core,
        places: p.places.as_slice(),
        layout: l,
        target,
    };
    elements(alloc, &making)
}

/// How many blocks a large turn has, where a turn of one block has so many instructions.
fn blocks_of(length: usize) -> usize
    ensures is { result ≡ blocks_of length }
    ensures some { 1 ≤ result }
    ensures few { result ≤ 4 }
{
    if length < 15 {
        4
    } else if length < 31 {
        2
    } else {
        1
    }
}

/// Whole turns of a row: large ones of so many blocks, where that is more than one, and then the turn of one block.
fn whole_turns(
    alloc: Global,
    making: &Making,
    aligned: bool,
    blocks: usize,
    turn_of_one: Block,
) -> Result<Flow, AllocError>
    requires of { (f : FunctionValue) × AreFor f making.now }
    requires some { 1 ≤ blocks }
    requires few { blocks ≤ 4 }
    ensures { IfOk result (λ flow. (f : FunctionValue) → AreFor f making.now → AreWholeTurns f making.now.target making.now.places.now aligned blocks turn_of_one.list (flat_of flow)) }
{
    let core = making.core;
    let lanes = core.lanes as usize;
    if blocks == 1 {
        return repeat(alloc, Cond::Ns, plain(turn_of_one));
    }
    let large = turn(alloc, making, lanes, aligned, blocks)?;
    wide_loops(
        alloc,
        lanes,
        blocks * lanes,
        plain(large),
        plain(turn_of_one),
    )
}

/// Turns of `count` elements and of fewer and fewer, down to one, from where the counter is `from` less than the elements left. Those of several elements that are long are left out.
fn ends(alloc: Global, making: &Making, from: usize, count: usize) -> Result<Ends, AllocError>
    requires of { (f : FunctionValue) × AreFor f making.now }
    requires count { IsShare making.now.core.now.lanes count }
    requires half { 2 * count ≤ from }
    requires most { from ≤ 64 }
    ensures same { IfOk result (λ ends. flat_of ends.head ≡ flat_of ends.tail) }
    ensures is { IfOk result (λ ends. (f : FunctionValue) → AreFor f making.now → AreByParts f making.now.target making.now.places.now from (flat_of ends.tail)) }
{
    let block = turn(alloc, making, count, false, 1)?;
    if count == 1 {
        return larger_ends(alloc, from, count, block, no_ends(alloc));
    }
    if block.list.len() > MOST_OF_PART {
        return ends(alloc, making, from, count / 2);
    }
    let smaller = ends(alloc, making, count, count / 2)?;
    larger_ends(alloc, from, count, block, smaller)
}

/// Whether each count that meets facts is a multiple of a number.
fn divides_each(lanes: usize, facts: CountFacts) -> bool
    requires { 0 < lanes }
    ensures { result ≡ divides_each lanes facts }
{
    (facts.exact != 0 && facts.exact as usize % lanes == 0) || facts.mult as usize % lanes == 0
}

/// Whether the first dest, if there is one, is at a multiple of 16 at the beginning of each row.
fn begins_aligned(layout: &Layout) -> bool
    ensures { result ≡ nat_le 16 (slice_index layout.now.facts.aligns.items 0) }
{
    match layout.facts.aligns.as_slice() {
        [align, ..] => *align >= 16,
        [] => false,
    }
}

/// Whole turns from the first element of a row on, and parts of one where those may leave some elements.
fn from_first(alloc: Global, making: &Making, turns: Flow) -> Result<Flow, AllocError>
    requires of { (f : FunctionValue) × AreFor f making.now }
    ensures { IfOk result (λ flow. (f : FunctionValue) → AreFor f making.now → AreFromFirst f making.now.target making.now.places.now (flat_of turns) (flat_of flow)) }
{
    let core = making.core;
    let lanes = core.lanes as usize;
    let layout = making.layout;
    if divides_each(lanes, layout.facts.n) {
        return whole_loops(alloc, lanes, turns);
    }
    let Ends { head: _, tail } = ends(alloc, making, lanes, lanes / 2)?;
    plain_loops(alloc, lanes, turns, tail)
}

/// Whole turns with aligned stores from where the first dest, which fills a register, is at a multiple of 16, and by the turn `wide` where
/// it is so nowhere; and parts of one before and behind them, where there may be some elements.
fn from_boundary(
    alloc: Global,
    making: &Making,
    wide: Block,
    turns: Flow,
) -> Result<Flow, AllocError>
    requires of { (f : FunctionValue) × AreFor f making.now }
    requires filled { making.now.core.now.lanes * slice_index making.now.core.now.sizes 0 ≡ 16 }
    ensures { IfOk result (λ flow. (f : FunctionValue) → AreFor f making.now → AreFromBoundary f making.now.target making.now.places.now wide.list (flat_of turns) (flat_of flow)) }
{
    let core = making.core;
    let lanes = core.lanes as usize;
    let wide = repeat(alloc, Cond::Ns, plain(wide))?;
    let layout = making.layout;
    if divides_each(lanes, layout.facts.n) {
        return tested_loops(alloc, lanes, wide, turns);
    }
    let ends = ends(alloc, making, lanes, lanes / 2)?;
    let shift = shift_of(core.sizes[0] as usize);
    aligned_loops(alloc, layout, shift, lanes, ends, wide, turns)
}

/// The loops over the elements of a row.
fn elements(alloc: Global, making: &Making) -> Result<Flow, AllocError>
    requires of { (f : FunctionValue) × AreFor f making.now }
    ensures { IfOk result (λ flow. (f : FunctionValue) → AreFor f making.now → IsElements f making.now.target making.now.places.now flow) }
{
    let core = making.core;
    let lanes = core.lanes as usize;
    let size = core.sizes[0] as usize;
    let wide = turn(alloc, making, lanes, false, 1)?;
    let blocks = blocks_of(wide.list.len());
    if lanes * size != REGISTER {
        let turns = whole_turns(alloc, making, false, blocks, wide)?;
        return from_first(alloc, making, turns);
    }
    let stored = turn(alloc, making, lanes, true, 1)?;
    let turns = whole_turns(alloc, making, true, blocks, stored)?;
    if begins_aligned(making.layout) {
        return from_first(alloc, making, turns);
    }
    from_boundary(alloc, making, wide, turns)
}
