//! The code before and after a function's rows.

ghost use Rattle.std.specs.Prelude.{◌≡◌, ◌<◌, ◌≤◌, ◌≤ℤ◌, ◌+◌, ◌*◌, ◌++◌, IfOk, OnOk, length, pos};
ghost use Rattle.orc_ops.specs.declared.target.Target.TheVariants.{Sse2};
ghost use Rattle.sse_laws.specs.Targets.{IsCodeFor};
ghost use Rattle.x86_ins.specs.declared.ins.Ins.TheVariants.{AluImm};
ghost use Rattle.x86_ins.specs.Spelling.{IsAllowed};
ghost use Rattle.x86_ins.specs.Way.{Each};
ghost use Rattle.x86_flow.specs.Flow.{size};
ghost use Rattle.x86_flow.specs.Touching.{AreOwn};
ghost use Rattle.orc_frame.specs.Layout.{frame_size};
ghost use Rattle.orc_frame.specs.Frame.{IsLayout, Prepares, Finishes};
ghost use Rattle.orc_frame.specs.Code.{IsWhole, joined, save_code, pattern_code, clear_code, store_code, restore_code, prologue_code, epilogue_code};

use crate::frame::Layout;
use crate::pushes::{BLOCK, STACK, push_constant, push_pattern, push_sum, saved, slot};
use crate::slots::FRAME_SIZE;
use std::alloc::{AllocError, Global};
use x86_ins::{AluOp, Ins, InsList};

/// The code that lowers RSP, saves registers and the block's address, fills patterns and clears running sums, by instructions of SSE2. It uses RAX and XMM0.
pub fn prologue(alloc: Global, l: &Layout) -> Result<InsList, AllocError>
    requires { IsLayout l.now }
    ensures prepares { IfOk result (λ list. Prepares l.now list) }
    ensures own { IfOk result (λ list. AreOwn list) }
    ensures allowed { IfOk result (λ list. Each IsAllowed list) }
    ensures sse2 { IfOk result (λ list. IsCodeFor Sse2 list) }
    ensures bytes { IfOk result (λ list. size list ≤ 11 * length list) }
    ensures short { IfOk result (λ list. length list ≤ 8 + 8 * length l.now.patterns.items + 3 * length l.now.acc_sizes.items) }
{
    prologue_list(alloc, l)
}

/// The code that stores each accumulator's word, restores registers and raises RSP, by instructions of SSE2. It uses RAX, XMM0 and XMM1.
pub fn epilogue(alloc: Global, l: &Layout) -> Result<InsList, AllocError>
    requires { IsLayout l.now }
    ensures finishes { IfOk result (λ list. Finishes l.now list) }
    ensures own { IfOk result (λ list. AreOwn list) }
    ensures allowed { IfOk result (λ list. Each IsAllowed list) }
    ensures sse2 { IfOk result (λ list. IsCodeFor Sse2 list) }
    ensures bytes { IfOk result (λ list. size list ≤ 11 * length list) }
    ensures short { IfOk result (λ list. length list ≤ 7 + 13 * length l.now.acc_sizes.items) }
{
    epilogue_list(alloc, l)
}

/// The prologue's instructions.
fn prologue_list(alloc: Global, layout: &Layout) -> Result<InsList, AllocError>
    requires { IsWhole layout.now }
    ensures { IfOk result (λ list. list ≡ prologue_code layout.now) }
{
    let mut list = InsList::new(alloc);
    list.push(moved_stack(AluOp::Sub))?;
    push_saves(&mut list, layout)?;
    list.push(Ins::Store {
        src: BLOCK,
        at: slot(layout.block_at),
    })?;
    push_patterns(&mut list, layout)?;
    push_clears(&mut list, layout)?;
    Ok(list)
}

/// The epilogue's instructions.
fn epilogue_list(alloc: Global, layout: &Layout) -> Result<InsList, AllocError>
    requires { IsWhole layout.now }
    ensures { IfOk result (λ list. list ≡ epilogue_code layout.now) }
{
    let mut list = InsList::new(alloc);
    push_sums(&mut list, layout)?;
    push_restores(&mut list, layout)?;
    list.push(moved_stack(AluOp::Add))?;
    Ok(list)
}

/// Moves RSP over the frame.
fn moved_stack(op: AluOp) -> Ins
    ensures { result ≡ AluImm op 4 (pos frame_size) }
{
    Ins::AluImm {
        op,
        dst: STACK,
        value: FRAME_SIZE as i32,
    }
}

/// Adds what stores the registers that a call keeps.
#[tactic(auto, using(crate::proofs::Grown::joined_none, crate::proofs::Grown::saves_more))]
fn push_saves(list: &mut InsList, layout: &Layout) -> Result<(), AllocError>
    ensures { OnOk result (list.new ≡ list.old ++ joined (save_code layout.now) 6) }
{
    for place in 0..6 {
        list.push(Ins::Store {
            src: saved(place),
            at: slot(layout.saved_at[place]),
        })?;
    }
    Ok(())
}

/// Adds what loads them again.
#[tactic(auto, using(crate::proofs::Grown::joined_none, crate::proofs::Grown::restores_more))]
fn push_restores(list: &mut InsList, layout: &Layout) -> Result<(), AllocError>
    ensures { OnOk result (list.new ≡ list.old ++ joined (restore_code layout.now) 6) }
{
    for place in 0..6 {
        list.push(Ins::Load {
            dst: saved(place),
            at: slot(layout.saved_at[place]),
        })?;
    }
    Ok(())
}

/// Adds what fills the patterns' slots.
#[tactic(auto, using(crate::proofs::Grown::joined_none, crate::proofs::Grown::patterns_more))]
fn push_patterns(list: &mut InsList, layout: &Layout) -> Result<(), AllocError>
    requires { IsWhole layout.now }
    ensures { OnOk result (list.new ≡ list.old ++ joined (pattern_code layout.now) (length layout.now.patterns.items)) }
{
    for k in 0..layout.patterns.len() {
        push_pattern(
            list,
            layout.params.as_slice(),
            layout.patterns[k],
            layout.pattern_at[k],
        )?;
    }
    Ok(())
}

/// Adds what clears the running sums.
#[tactic(auto, using(crate::proofs::Grown::joined_none, crate::proofs::Grown::joined_more))]
fn push_clears(list: &mut InsList, layout: &Layout) -> Result<(), AllocError>
    requires { IsWhole layout.now }
    ensures { OnOk result (list.new ≡ list.old ++ joined (clear_code layout.now) (length layout.now.acc_sizes.items)) }
{
    for number in 0..layout.acc_sizes.len() {
        push_constant(list, 0, layout.sum_at[number])?;
    }
    Ok(())
}

/// Adds what stores the accumulators' words.
#[tactic(auto, using(crate::proofs::Grown::joined_none, crate::proofs::Grown::joined_more))]
fn push_sums(list: &mut InsList, layout: &Layout) -> Result<(), AllocError>
    requires { IsWhole layout.now }
    ensures { OnOk result (list.new ≡ list.old ++ joined (store_code layout.now) (length layout.now.acc_sizes.items)) }
{
    for number in 0..layout.acc_sizes.len() {
        push_sum(
            list,
            layout.acc_sizes[number],
            layout.sum_at[number],
            number,
        )?;
    }
    Ok(())
}
