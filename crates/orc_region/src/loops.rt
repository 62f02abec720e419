//! The loops over a row's elements: fewer than a turn does until the first dest's cell is at a multiple of 16, whole turns, and those that are left.

ghost use Rattle.std.specs.Prelude.{◌≡◌, ◌≤◌, ◌++◌, ◌∷◌, [], All, IfOk, IsTrue, pos};
ghost use Rattle.x86_ins.specs.Spelling.{has_spelling};
ghost use Rattle.x86_ins.specs.declared.ins.AluOp.TheVariants.{Add};
ghost use Rattle.x86_ins.specs.declared.ins.Ins.TheVariants.{Alu, AluImm};
ghost use Rattle.x86_flow.specs.Flow.{Plain, flat};
ghost use Rattle.x86_flow.specs.Tree.{flat_of};
ghost use Rattle.orc_frame.specs.Frame.{IsLayout};
ghost use Rattle.orc_region.specs.Regions.{TurnParts, gap_code, gap_flow, low_bits_code, behind_code, enter_head_code, leave_head_code, part_flow, parts_flow, wide_loops, aligned_row, whole_row, plain_row, tested_row};

use crate::lists::{COUNTER, pointer};
use orc_frame::{Layout, left_at, slot};
use std::alloc::{AllocError, Global};
use x86_flow::tree::{Flow, chain, choice, plain, repeat};
use x86_flow::{Block, SCRATCH};
use x86_ins::{AluOp, Cond, Ins, InsList, ShiftOp};

/// More elements than a row has.
const NEVER: u64 = 1 << 31;

/// What does fewer elements than a turn: the same turns before a boundary and behind the last whole turn.
#[derive(Drop)]
pub struct Ends {
    /// The elements before a boundary.
    pub head: Flow,
    /// The elements behind the last whole turn.
    pub tail: Flow,
}

/// Leaves in RAX how many elements of `1 << shift` bytes are before the first dest's next multiple of 16.
#[tactic(auto, using(crate::proofs::Built::Loops::gap_zero, crate::proofs::Built::Loops::gap_more))]
fn gap_list(alloc: Global, shift: u8) -> Result<InsList, AllocError>
    requires { shift ≤ 3 }
    ensures { IfOk result (λ list. list ≡ gap_code shift) }
{
    let mut list = InsList::new(alloc);
    list.push(Ins::MovImm {
        dst: SCRATCH,
        value: 0,
    })?;
    list.push(Ins::Alu {
        op: AluOp::Sub,
        dst: SCRATCH,
        src: pointer(0),
    })?;
    list.push(Ins::AluImm {
        op: AluOp::And,
        dst: SCRATCH,
        value: 15,
    })?;
    if shift > 0 {
        list.push(Ins::Shift {
            op: ShiftOp::Shr,
            dst: SCRATCH,
            count: shift,
        })?;
    }
    Ok(list)
}

/// Leaves in RAX the first dest's address modulo `1 << shift`, and tells whether that is 0.
fn low_bits_list(alloc: Global, shift: u8) -> Result<InsList, AllocError>
    requires { shift ≤ 4 }
    ensures { IfOk result (λ list. list ≡ low_bits_code shift) }
{
    let mut list = InsList::new(alloc);
    list.push(Ins::Move {
        dst: SCRATCH,
        src: pointer(0),
    })?;
    list.push(Ins::AluImm {
        op: AluOp::And,
        dst: SCRATCH,
        value: (1 << shift) - 1,
    })?;
    Ok(list)
}

/// A flow of instructions that have spellings.
fn of(list: InsList) -> Flow
    requires { All (λ i. IsTrue (has_spelling i)) list }
    ensures { flat_of result ≡ list }
{
    plain(Block { list })
}

/// A list of one instruction.
fn alone(alloc: Global, ins: Ins) -> Result<InsList, AllocError>
    ensures { IfOk result (λ list. list ≡ ins ∷ []) }
{
    let mut list = InsList::new(alloc);
    list.push(ins)?;
    Ok(list)
}

/// Leaves in RAX how many elements are before the boundary, or, where no number of them reaches one, more than a row has.
#[tactic(auto, using(crate::proofs::Built::Loops::spelled_gap, crate::proofs::Built::Loops::spelled_low_bits, crate::proofs::Built::Loops::spelled_one, crate::proofs::Built::Loops::gap_alone, crate::proofs::Built::Loops::gap_either))]
fn gap(alloc: Global, shift: u8) -> Result<Flow, AllocError>
    requires { shift ≤ 3 }
    ensures { IfOk result (λ flow. flat_of flow ≡ flat (gap_flow shift)) }
{
    let gap = of(gap_list(alloc, shift)?);
    if shift == 0 {
        return Ok(gap);
    }
    let never = of(alone(
        alloc,
        Ins::MovImm {
            dst: SCRATCH,
            value: NEVER,
        },
    )?);
    let bits = of(low_bits_list(alloc, shift)?);
    let either = choice(alloc, Cond::E, gap, never)?;
    chain(alloc, bits, either)
}

/// Makes the counter so many elements less than there are behind the gap.
fn behind_list(alloc: Global, lanes: usize) -> Result<InsList, AllocError>
    requires { lanes ≤ 64 }
    ensures { IfOk result (λ list. list ≡ behind_code lanes) }
{
    let mut list = InsList::new(alloc);
    list.push(Ins::Alu {
        op: AluOp::Sub,
        dst: COUNTER,
        src: SCRATCH,
    })?;
    list.push(Ins::AluImm {
        op: AluOp::Sub,
        dst: COUNTER,
        value: lanes as i32,
    })?;
    Ok(list)
}

/// Keeps the body's count, and makes the counter so many elements less than there are in the head.
fn enter_head_list(alloc: Global, layout: &Layout, lanes: usize) -> Result<InsList, AllocError>
    requires layout { IsLayout layout.now }
    requires most { lanes ≤ 64 }
    ensures { IfOk result (λ list. list ≡ enter_head_code lanes) }
{
    let mut list = InsList::new(alloc);
    list.push(Ins::Store {
        src: COUNTER,
        at: slot(left_at(layout)),
    })?;
    list.push(Ins::Move {
        dst: COUNTER,
        src: SCRATCH,
    })?;
    list.push(Ins::AluImm {
        op: AluOp::Sub,
        dst: COUNTER,
        value: lanes as i32,
    })?;
    Ok(list)
}

/// Takes the body's count again.
fn leave_head_list(alloc: Global, layout: &Layout) -> Result<InsList, AllocError>
    requires { IsLayout layout.now }
    ensures { IfOk result (λ list. list ≡ leave_head_code) }
{
    let mut list = InsList::new(alloc);
    list.push(Ins::Load {
        dst: COUNTER,
        at: slot(left_at(layout)),
    })?;
    list.push(Ins::Test {
        a: COUNTER,
        b: COUNTER,
    })?;
    Ok(list)
}

/// Changes the counter by so many elements.
fn counted(alloc: Global, op: AluOp, by: usize) -> Result<InsList, AllocError>
    requires { by ≤ 64 }
    ensures { IfOk result (λ list. list ≡ AluImm op 1 (pos by) ∷ []) }
{
    alone(
        alloc,
        Ins::AluImm {
            op,
            dst: COUNTER,
            value: by as i32,
        },
    )
}

/// The elements to the boundary, and then whole turns.
#[tactic(auto, using(crate::proofs::Built::Loops::spelled_enter, crate::proofs::Built::Loops::spelled_leave))]
fn reached(
    alloc: Global,
    layout: &Layout,
    lanes: usize,
    head: Flow,
    aligned: Flow,
) -> Result<Flow, AllocError>
    requires layout { IsLayout layout.now }
    requires most { lanes ≤ 64 }
    ensures { IfOk result (λ flow. flat_of flow ≡ enter_head_code lanes ++ (flat_of head ++ (leave_head_code ++ flat_of aligned))) }
{
    let enter = of(enter_head_list(alloc, layout, lanes)?);
    let leave = of(leave_head_list(alloc, layout)?);
    let body = chain(alloc, leave, aligned)?;
    let rest = chain(alloc, head, body)?;
    chain(alloc, enter, rest)
}

/// Several at once from the first element on.
#[tactic(auto, using(crate::proofs::Built::Loops::spelled_one))]
fn unreached(alloc: Global, wide: Flow) -> Result<Flow, AllocError>
    ensures { IfOk result (λ flow. flat_of flow ≡ Alu Add 1 0 ∷ flat_of wide) }
{
    let back = of(alone(
        alloc,
        Ins::Alu {
            op: AluOp::Add,
            dst: COUNTER,
            src: SCRATCH,
        },
    )?);
    chain(alloc, back, wide)
}

/// Turns of `count` elements while as many are left, from where the counter is `from` less than the elements left, and then those that do fewer.
#[tactic(auto, using(crate::proofs::Built::Loops::spelled_one))]
fn part(
    alloc: Global,
    from: usize,
    count: usize,
    turn: Block,
    smaller: Flow,
) -> Result<Flow, AllocError>
    requires under { count ≤ from }
    requires most { from ≤ 64 }
    ensures { IfOk result (λ flow. flat_of flow ≡ flat (part_flow from count (Plain turn.list)) ++ flat_of smaller) }
{
    let back = of(counted(alloc, AluOp::Add, from - count)?);
    let turns = repeat(alloc, Cond::Ns, plain(turn))?;
    let own = chain(alloc, back, turns)?;
    chain(alloc, own, smaller)
}

/// No elements at either end.
pub fn no_ends(alloc: Global) -> Ends
    ensures same { flat_of result.head ≡ flat_of result.tail }
    ensures none { flat_of result.tail ≡ [] }
{
    Ends {
        head: of(InsList::new(alloc)),
        tail: of(InsList::new(alloc)),
    }
}

/// Turns of `count` elements while as many are left, from where the counter is `from` less than the elements left, and then those that do fewer: at both ends.
pub fn larger_ends(
    alloc: Global,
    from: usize,
    count: usize,
    turn: Block,
    smaller: Ends,
) -> Result<Ends, AllocError>
    requires under { count ≤ from }
    requires most { from ≤ 64 }
    requires same { flat_of smaller.head ≡ flat_of smaller.tail }
    ensures same { IfOk result (λ ends. flat_of ends.head ≡ flat_of ends.tail) }
    ensures is { IfOk result (λ ends. flat_of ends.tail ≡ flat (part_flow from count (Plain turn.list)) ++ flat_of smaller.tail) }
{
    let again = Block {
        list: InsList::from_slice(alloc, turn.list.as_slice())?,
    };
    let Ends { head, tail } = smaller;
    Ok(Ends {
        head: part(alloc, from, count, again, head)?,
        tail: part(alloc, from, count, turn, tail)?,
    })
}

/// Turns of `more` elements while as many are left, and then turns of `lanes`, from where the counter is `lanes` less than the elements left.
#[tactic(auto, using(crate::proofs::Built::Loops::spelled_one))]
pub fn wide_loops(
    alloc: Global,
    lanes: usize,
    more: usize,
    large: Flow,
    turn: Flow,
) -> Result<Flow, AllocError>
    requires under { lanes ≤ more }
    requires most { more ≤ 64 }
    ensures { IfOk result (λ flow. flat_of flow ≡ flat (wide_loops lanes more (Plain (flat_of large)) (Plain (flat_of turn)))) }
{
    let less = of(counted(alloc, AluOp::Sub, more - lanes)?);
    let larges = repeat(alloc, Cond::Ns, large)?;
    let first = chain(alloc, less, larges)?;
    let back = of(counted(alloc, AluOp::Add, more - lanes)?);
    let turns = repeat(alloc, Cond::Ns, turn)?;
    let last = chain(alloc, back, turns)?;
    chain(alloc, first, last)
}

/// The loops of a row whose first dest has elements of `1 << shift` bytes, of which `lanes` fill a register: `ends` does fewer elements, and `wide` and `aligned` do whole turns, without and with aligned stores to the first dest.
#[tactic(auto, using(crate::proofs::Built::Loops::spelled_behind, crate::proofs::Built::Loops::aligned_whole))]
pub fn aligned_loops(
    alloc: Global,
    layout: &Layout,
    shift: u8,
    lanes: usize,
    ends: Ends,
    wide: Flow,
    aligned: Flow,
) -> Result<Flow, AllocError>
    requires layout { IsLayout layout.now }
    requires shift { shift ≤ 3 }
    requires lanes { lanes ≤ 64 }
    requires same { flat_of ends.head ≡ flat_of ends.tail }
    ensures { IfOk result (λ flow. (parts : TurnParts) → flat_of ends.tail ≡ flat (parts_flow lanes parts) → flat_of flow ≡ flat (aligned_row shift lanes parts (Plain (flat_of wide)) (Plain (flat_of aligned)))) }
{
    let Ends { head, tail } = ends;
    let gap = gap(alloc, shift)?;
    let behind = of(behind_list(alloc, lanes)?);
    let yes = reached(alloc, layout, lanes, head, aligned)?;
    let no = unreached(alloc, wide)?;
    let either = choice(alloc, Cond::Ns, yes, no)?;
    let turns = chain(alloc, either, tail)?;
    let counted = chain(alloc, behind, turns)?;
    chain(alloc, gap, counted)
}

/// The loops of a row that is whole turns: `wide` does them from the first element on.
#[tactic(auto, using(crate::proofs::Built::Loops::spelled_one))]
pub fn whole_loops(alloc: Global, lanes: usize, wide: Flow) -> Result<Flow, AllocError>
    requires { lanes ≤ 64 }
    ensures { IfOk result (λ flow. flat_of flow ≡ flat (whole_row lanes (Plain (flat_of wide)))) }
{
    let less = of(counted(alloc, AluOp::Sub, lanes)?);
    chain(alloc, less, wide)
}

/// The loops of a row: whole turns from the first element on, and then the elements that are left.
#[tactic(auto, using(crate::proofs::Built::Loops::plain_whole))]
pub fn plain_loops(alloc: Global, lanes: usize, wide: Flow, tail: Flow) -> Result<Flow, AllocError>
    requires { lanes ≤ 64 }
    ensures { IfOk result (λ flow. (parts : TurnParts) → flat_of tail ≡ flat (parts_flow lanes parts) → flat_of flow ≡ flat (plain_row lanes parts (Plain (flat_of wide)))) }
{
    let turns = whole_loops(alloc, lanes, wide)?;
    chain(alloc, turns, tail)
}

/// The loops of a row that is whole turns: `aligned` does them where the first dest's first cell is at a multiple of 16, and else `wide`.
#[tactic(auto, using(crate::proofs::Built::Loops::spelled_low_bits, crate::proofs::Built::Loops::tested_whole))]
pub fn tested_loops(
    alloc: Global,
    lanes: usize,
    wide: Flow,
    aligned: Flow,
) -> Result<Flow, AllocError>
    requires { lanes ≤ 64 }
    ensures { IfOk result (λ flow. flat_of flow ≡ flat (tested_row lanes (Plain (flat_of wide)) (Plain (flat_of aligned)))) }
{
    let bits = of(low_bits_list(alloc, 4)?);
    let yes = whole_loops(alloc, lanes, aligned)?;
    let no = whole_loops(alloc, lanes, wide)?;
    let either = choice(alloc, Cond::E, yes, no)?;
    chain(alloc, bits, either)
}
