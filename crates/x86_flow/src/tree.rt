//! Structured code as a tree, and the bytes that it is.

ghost use Rattle.std.specs.Prelude.{◌≡◌, ◌<◌, ◌++◌, IfOk, OnOk, length};
ghost use Rattle.x86_flow.specs.Flow.{spell_all, choice_code, loop_code};
ghost use Rattle.x86_flow.specs.Tree.{flat_of};

use crate::block::Block;
use crate::placing::{put_choice, put_list, put_loop};
use sqlite_items::{Boxed, Items};
use std::alloc::{AllocError, Global};
use x86_ins::Cond;

/// Flows, one after another.
pub type Flows = Items<Flow>;

/// Structured code. A choice or a repeat tests the flags as they stand.
#[derive(Drop)]
pub enum Flow {
    /// Does a block.
    Plain(Block),
    /// Does these, one after another.
    Chain(Flows),
    /// Does `yes` where the condition holds, and else `no`.
    Choice {
        cond: Cond,
        yes: Boxed<Flow>,
        no: Boxed<Flow>,
    },
    /// Tests before each turn, and does the body while the condition holds.
    Repeat {
        cond: Cond,
        body: Boxed<Flow>,
    },
}

/// Bytes that a jump can pass. As more can't be held, more is want of memory.
fn passed(bytes: &[u8]) -> Result<(), AllocError>
    ensures { OnOk result (length bytes.now < 2000000000) }
{
    if bytes.len() < 2_000_000_000 {
        Ok(())
    } else {
        Err(AllocError)
    }
}

/// Appends the bytes of structured code.
pub fn put_flow(alloc: Global, code: &mut Vec<u8>, flow: &Flow) -> Result<(), AllocError>
    ensures { OnOk result (code.new.items ≡ code.old.items ++ spell_all (flat_of flow.now)) }
{
    match flow {
        Flow::Plain(block) => put_list(code, block.list.as_slice()),
        Flow::Chain(flows) => {
            'each: for one in flows.as_slice() {
                put_flow(alloc, code, one)?;
            }
            Ok(())
        }
        Flow::Choice { cond, yes, no } => {
            let mut one = Vec::new(alloc);
            put_flow(alloc, &mut one, yes.get())?;
            passed(&one)?;
            let mut two = Vec::new(alloc);
            put_flow(alloc, &mut two, no.get())?;
            passed(&two)?;
            put_choice(code, *cond, &one, &two)
        }
        Flow::Repeat { cond, body } => {
            let mut turn = Vec::new(alloc);
            put_flow(alloc, &mut turn, body.get())?;
            passed(&turn)?;
            put_loop(code, *cond, &turn)
        }
    }
}

/// A block as a flow.
#[tactic(auto, using(crate::proofs::Trees::plain_is))]
pub fn plain(block: Block) -> Flow
    ensures { flat_of result ≡ block.list }
{
    Flow::Plain(block)
}

/// One flow, and then another.
#[tactic(auto, using(crate::proofs::Trees::chain_is))]
pub fn chain(alloc: Global, first: Flow, second: Flow) -> Result<Flow, AllocError>
    ensures { IfOk result (λ flow. flat_of flow ≡ flat_of first ++ flat_of second) }
{
    let mut flows = Flows::new(alloc);
    flows.push(first)?;
    flows.push(second)?;
    Ok(Flow::Chain(flows))
}

/// `yes` where the condition holds, and else `no`.
#[tactic(auto, using(crate::proofs::Trees::choice_is))]
pub fn choice(alloc: Global, cond: Cond, yes: Flow, no: Flow) -> Result<Flow, AllocError>
    ensures { IfOk result (λ flow. flat_of flow ≡ choice_code cond (flat_of yes) (flat_of no)) }
{
    let yes = Boxed::new(alloc, yes)?;
    let no = Boxed::new(alloc, no)?;
    Ok(Flow::Choice { cond, yes, no })
}

/// The body, while the condition holds.
#[tactic(auto, using(crate::proofs::Trees::repeat_is))]
pub fn repeat(alloc: Global, cond: Cond, body: Flow) -> Result<Flow, AllocError>
    ensures { IfOk result (λ flow. flat_of flow ≡ loop_code cond (flat_of body)) }
{
    let body = Boxed::new(alloc, body)?;
    Ok(Flow::Repeat { cond, body })
}
