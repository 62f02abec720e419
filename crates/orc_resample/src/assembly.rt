//! The code that gathers the next values of a far load.

ghost use Rattle.std.specs.Prelude.{◌≡◌, ◌<◌, ◌≤◌, ◌*◌, ◌++◌, OnOk, IfOk, true, IsTrue, length, get_or};
ghost use Rattle.orc_ops.specs.declared.far.Far.TheVariants as loads;
ghost use Rattle.orc_ops.specs.Far.{far_size, far_scalars, far_weight};
ghost use Rattle.x86_ins.specs.Spelling.{IsIns, IsAllowed};
ghost use Rattle.x86_ins.specs.Way.{Each};
ghost use Rattle.x86_flow.specs.Moves.{IsWidth};
ghost use Rattle.orc_resample.specs.Code.{scratch, element_of, elements_code, offset_code, is_one_by_one, gather_with, gather_code};
ghost use Rattle.orc_resample.specs.Ready.{IsPlan, Gathers, far_count};

use crate::pieces::{
    bits_of, look_through, push_address, push_average, push_byte, push_half, push_mixed_byte,
    push_mixed_long, push_near_byte, push_near_long, push_offset, push_other_half, push_place,
    push_row, push_spread,
};
use crate::plan::FarPlan;
use orc_ops::{Far, far_size};
use std::alloc::{AllocError, Global};
use x86_ins::{Gpr, InsList};

/// Adds the code of `Loadupdb` for the first element plus `k`.
#[tactic(auto, using(crate::proofs::Appends::extended))]
fn push_double(
    list: &mut InsList,
    plan: &FarPlan,
    k: usize,
    a: Gpr,
    b: Gpr,
    e: Gpr,
) -> Result<(), AllocError>
    requires { k < 16 }
    ensures { OnOk result (list.new ≡ list.old ++ element_of loads.Loadupdb plan.now k a b e) }
{
    push_half(list, plan, k, a, b)?;
    push_byte(list, a)
}

/// Adds the code of `Loadupib` for the first element plus `k`.
#[tactic(auto, using(crate::proofs::Appends::extended_3))]
fn push_middle(
    list: &mut InsList,
    plan: &FarPlan,
    k: usize,
    a: Gpr,
    b: Gpr,
    e: Gpr,
) -> Result<(), AllocError>
    requires { k < 16 }
    ensures { OnOk result (list.new ≡ list.old ++ element_of loads.Loadupib plan.now k a b e) }
{
    push_half(list, plan, k + 1, a, b)?;
    push_other_half(list, plan, k, a, b, e)?;
    push_average(list, a, e)
}

/// Adds the code of `Ldresnearb` for the first element plus `k`.
#[tactic(auto, using(crate::proofs::Appends::extended))]
fn push_nearest_byte(
    list: &mut InsList,
    plan: &FarPlan,
    k: usize,
    a: Gpr,
    b: Gpr,
    e: Gpr,
) -> Result<(), AllocError>
    requires few { k < 16 }
    requires two { length plan.now.scalars.items ≡ 2 }
    ensures { OnOk result (list.new ≡ list.old ++ element_of loads.Ldresnearb plan.now k a b e) }
{
    push_place(list, plan, k, a, b)?;
    push_near_byte(list, plan, a, b)
}

/// Adds the code of `Ldresnearl` for the first element plus `k`.
#[tactic(auto, using(crate::proofs::Appends::extended))]
fn push_nearest_long(
    list: &mut InsList,
    plan: &FarPlan,
    k: usize,
    a: Gpr,
    b: Gpr,
    e: Gpr,
) -> Result<(), AllocError>
    requires few { k < 16 }
    requires two { length plan.now.scalars.items ≡ 2 }
    ensures { OnOk result (list.new ≡ list.old ++ element_of loads.Ldresnearl plan.now k a b e) }
{
    push_place(list, plan, k, a, b)?;
    push_near_long(list, plan, a, b)
}

/// Adds the code of `Ldreslinb` for the first element plus `k`.
#[tactic(auto, using(crate::proofs::Appends::extended_3))]
fn push_linear_byte(
    list: &mut InsList,
    plan: &FarPlan,
    k: usize,
    a: Gpr,
    b: Gpr,
    e: Gpr,
) -> Result<(), AllocError>
    requires few { k < 16 }
    requires two { length plan.now.scalars.items ≡ 2 }
    ensures { OnOk result (list.new ≡ list.old ++ element_of loads.Ldreslinb plan.now k a b e) }
{
    push_place(list, plan, k, a, b)?;
    push_address(list, plan, 0, a, b, e)?;
    push_mixed_byte(list, a, b, e)
}

/// Adds the code of `Ldreslinl` for the first element plus `k`.
#[tactic(auto, using(crate::proofs::Appends::extended_4))]
fn push_linear_long(
    list: &mut InsList,
    plan: &FarPlan,
    k: usize,
    a: Gpr,
    b: Gpr,
    e: Gpr,
) -> Result<(), AllocError>
    requires few { k < 16 }
    requires two { length plan.now.scalars.items ≡ 2 }
    ensures { OnOk result (list.new ≡ list.old ++ element_of loads.Ldreslinl plan.now k a b e) }
{
    push_place(list, plan, k, a, b)?;
    push_address(list, plan, 2, a, b, e)?;
    push_spread(list, a, b)?;
    push_mixed_long(list, a, b, e)
}

/// Adds the code of one element of a far load that goes element by element.
fn push_one(
    list: &mut InsList,
    plan: &FarPlan,
    far: Far,
    k: usize,
    a: Gpr,
    b: Gpr,
    e: Gpr,
) -> Result<(), AllocError>
    requires few { k < 16 }
    requires one { IsTrue (is_one_by_one far) }
    requires scalars { length plan.now.scalars.items ≡ far_scalars far }
    ensures { OnOk result (list.new ≡ list.old ++ element_of far plan.now k a b e) }
{
    match far {
        Far::Loadupdb => push_double(list, plan, k, a, b, e),
        Far::Loadupib => push_middle(list, plan, k, a, b, e),
        Far::Ldresnearb => push_nearest_byte(list, plan, k, a, b, e),
        Far::Ldresnearl => push_nearest_long(list, plan, k, a, b, e),
        Far::Ldreslinb => push_linear_byte(list, plan, k, a, b, e),
        _ => push_linear_long(list, plan, k, a, b, e),
    }
}

/// Adds the code of `count` elements, the last one first.
#[tactic(auto, using(crate::proofs::Appends::elements_none, crate::proofs::Appends::elements_more))]
fn push_elements(
    list: &mut InsList,
    plan: &FarPlan,
    far: Far,
    count: usize,
    a: Gpr,
    b: Gpr,
    e: Gpr,
) -> Result<(), AllocError>
    requires few { count ≤ 16 }
    requires one { IsTrue (is_one_by_one far) }
    requires scalars { length plan.now.scalars.items ≡ far_scalars far }
    ensures { OnOk result (list.new ≡ list.old ++ elements_code far plan.now count a b e count) }
{
    for n in 0..count {
        push_one(list, plan, far, count - 1 - n, a, b, e)?;
    }
    Ok(())
}

/// Whether a far load goes element by element.
pub fn is_single(far: Far) -> bool
    ensures { result ≡ is_one_by_one far }
{
    !matches!(far, Far::Loadoffb | Far::Loadoffw | Far::Loadoffl)
}

/// The scratch register with a number of the plan.
fn register(plan: &FarPlan, j: usize) -> Gpr
    requires there { j < 3 }
    requires low { get_or plan.now.scratch j 0 < 16 }
    ensures { result ≡ scratch plan.now j }
{
    Gpr {
        number: plan.scratch[j],
    }
}

/// Adds the code of an offset load for `count` elements of `size` bytes.
#[tactic(auto, using(crate::proofs::Appends::extended))]
fn push_row_of(
    list: &mut InsList,
    plan: &FarPlan,
    size: usize,
    count: usize,
    a: Gpr,
    b: Gpr,
) -> Result<(), AllocError>
    requires one { length plan.now.scalars.items ≡ 1 }
    requires room { count * size ≤ 16 }
    requires width { IsWidth (count * size) }
    ensures { OnOk result (list.new ≡ list.old ++ offset_code plan.now size count a b) }
{
    push_offset(list, plan, bits_of(size), a, b)?;
    push_row(list, count * size, a)
}

/// Adds the code for `count` elements.
pub fn push_values(
    list: &mut InsList,
    plan: &FarPlan,
    far: Far,
    count: usize,
    a: Gpr,
    b: Gpr,
    e: Gpr,
) -> Result<(), AllocError>
    requires scalars { length plan.now.scalars.items ≡ far_scalars far }
    requires few { count ≤ 16 }
    requires room { count * far_size far ≤ 16 }
    requires width { IsWidth (count * far_size far) }
    ensures { OnOk result (list.new ≡ list.old ++ gather_with far plan.now count a b e) }
{
    if is_single(far) {
        push_elements(list, plan, far, count, a, b, e)
    } else {
        push_row_of(list, plan, usize::from(far_size(far)), count, a, b)
    }
}

/// The list of a far load.
fn gather_list(alloc: Global, far: Far, count: u8, plan: &FarPlan) -> Result<InsList, AllocError>
    requires plan { IsPlan far plan.now }
    requires few { count ≤ 16 }
    requires room { count * far_size far ≤ 16 }
    requires width { IsWidth (count * far_size far) }
    ensures list { IfOk result (λ list. list ≡ gather_code far count plan.now) }
    ensures ranges { IfOk result (λ list. Each IsIns list) }
{
    let a = register(plan, 0);
    let b = register(plan, 1);
    let e = register(plan, 2);
    let mut list = InsList::new(alloc);
    push_values(&mut list, plan, far, usize::from(count), a, b, e)?;
    look_through(list.as_slice());
    Ok(list)
}

/// The code that leaves the next `count` values of a far load side by side in XMM0, the first one lowest. `count` is 1, 2, 4, 8 or
/// 16, and so many results have 1, 2, 4, 8 or 16 bytes. The code has no jumps and writes no memory, and no registers but the plan's
/// scratch registers, XMM0 to XMM5 and the flags.
pub fn gather(alloc: Global, far: Far, count: u8, plan: &FarPlan) -> Result<InsList, AllocError>
    requires plan { IsPlan far plan.now }
    requires width { IsWidth (count * far_size far) }
    ensures values { IfOk result (λ list. Gathers far count plan.now list) }
    ensures short { IfOk result (λ list. length list ≤ far_weight far count) }
    ensures touches { IfOk result (λ list. far_count list ≤ 2 * count) }
    ensures allowed { IfOk result (λ list. Each IsAllowed list) }
{
    gather_list(alloc, far, count, plan)
}
