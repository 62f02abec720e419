//! Far loads: the code that brings their values to a register.

ghost use Rattle.std.specs.Prelude.{◌≡◌, ◌<◌, ◌≤◌, ◌++◌, ℕ, Bool, OnOk, length, map, slice_index, pos};
ghost use Rattle.x86_ins.specs.Way.{Each};
ghost use Rattle.orc_frame.specs.Frame.{IsLayout};
ghost use Rattle.orc_frame.specs.Layout.{pattern_slot};
ghost use Rattle.orc_region.specs.Code.{FromFar, IsLoaded, far_by, far_source, far_sources, from_zero_code, scalar_pattern, source_far_code, sources_far_code};

use crate::lists::pointer;
use crate::span::Setting;
use arrayvec::ArrayVec;
use orc_frame::{Layout, block_at, index_at, pattern_at, row_at, work_at};
use orc_ops::Far;
use orc_plan::Item;
use orc_resample::{FarSource, bring};
use std::alloc::{AllocError, Global};
use x86_ins::{Ins, InsList, VecOp, Xmm};

/// Holds the values when they are gathered: XMM0.
const VALUES: Xmm = Xmm { number: 0 };

/// The number of the pattern that a scalar is.
fn scalar_pattern(item: Item) -> u8
    ensures { result ≡ scalar_pattern item }
{
    match item {
        Item::Pattern(number) => number,
        Item::Value(_) | Item::Array(_) | Item::Acc { .. } => 0,
    }
}

/// Where the pattern of a scalar is in the frame.
fn scalar_at(layout: &Layout, scalar: Item) -> i32
    requires layout { IsLayout layout.now }
    requires inside { scalar_pattern scalar < length layout.now.patterns.items }
    ensures { result ≡ pos (pattern_slot (scalar_pattern scalar)) }
{
    pattern_at(layout, usize::from(scalar_pattern(scalar)))
}

/// Where the patterns of scalars are in the frame.
fn scalars_at(layout: &Layout, scalars: &[Item]) -> ArrayVec<i32, 2>
    requires layout { IsLayout layout.now }
    requires few { length scalars.now ≤ 2 }
    requires inside { Each (λ j. j < length layout.now.patterns.items) (map scalar_pattern scalars.now) }
    ensures { result.items ≡ map (λ j. pos (pattern_slot j)) (map scalar_pattern scalars.now) }
{
    let mut slots = ArrayVec::new();
    for scalar in scalars {
        slots.push(scalar_at(layout, *scalar));
    }
    slots
}

/// Where the code of a far load finds what it needs.
fn far_source(setting: &Setting<'_>, far: Far, slot: usize, scalars: &[Item]) -> FarSource
    requires layout { IsLayout setting.now.layout.now }
    requires loaded { IsLoaded setting.now.layout.now (slice_index setting.now.sizes.now) setting.now.span.count (FromFar far slot (map scalar_pattern scalars.now)) }
    requires near { setting.now.span.first ≤ 64 }
    ensures { result ≡ far_source (far_by setting.now.span.first (slice_index setting.now.sizes.now) slot) far slot (map scalar_pattern scalars.now) }
{
    let layout = setting.layout;
    FarSource {
        far,
        array: row_at(layout, slot),
        scalars: scalars_at(layout, scalars),
        index: index_at(layout),
        work: work_at(layout),
        block: block_at(layout),
        pointer: pointer(slot),
        ahead: (setting.span.first * setting.sizes[slot] as usize) as i32,
    }
}

/// Adds what moves the values to another register.
fn push_moved(list: &mut InsList, dst: Xmm) -> Result<(), AllocError>
    ensures { OnOk result (list.new ≡ list.old ++ from_zero_code dst) }
{
    if dst.number == 0 {
        return Ok(());
    }
    list.push(Ins::Vec {
        op: VecOp::Movdqa,
        dst,
        src: VALUES,
    })
}

/// Adds what brings a far load's values to a register, by the slot of its array and the scalars behind it.
fn push_values(
    alloc: Global,
    list: &mut InsList,
    setting: &Setting<'_>,
    far: Far,
    slot: usize,
    scalars: &[Item],
    dst: Xmm,
) -> Result<(), AllocError>
    requires layout { IsLayout setting.now.layout.now }
    requires loaded { IsLoaded setting.now.layout.now (slice_index setting.now.sizes.now) setting.now.span.count (FromFar far slot (map scalar_pattern scalars.now)) }
    requires near { setting.now.span.first ≤ 64 }
    ensures { OnOk result (list.new ≡ list.old ++ source_far_code setting.now.span.count (slice_index setting.now.sizes.now) (far_by setting.now.span.first (slice_index setting.now.sizes.now)) dst (FromFar far slot (map scalar_pattern scalars.now))) }
{
    let source = far_source(setting, far, slot, scalars);
    list.append(bring(alloc, &source, setting.span.count as u8)?)?;
    push_moved(list, dst)
}

/// Adds what brings the values of a far load with these sources to a register, unless nothing has to.
pub fn push_far(
    alloc: Global,
    list: &mut InsList,
    setting: &Setting<'_>,
    far: Far,
    sources: &[Item],
    taken: bool,
    dst: Xmm,
) -> Result<(), AllocError>
    requires layout { IsLayout setting.now.layout.now }
    requires loaded { Each (IsLoaded setting.now.layout.now (slice_index setting.now.sizes.now) setting.now.span.count) (far_sources far sources.now) }
    requires near { setting.now.span.first ≤ 64 }
    ensures { OnOk result ((two : Bool) (y : ℕ) → list.new ≡ list.old ++ sources_far_code taken two setting.now.span.count (slice_index setting.now.sizes.now) (far_by setting.now.span.first (slice_index setting.now.sizes.now)) dst y (far_sources far sources.now)) }
{
    match sources {
        [Item::Array(slot), scalars @ ..] if !taken => {
            push_values(alloc, list, setting, far, *slot as usize, scalars, dst)
        }
        _ => Ok(()),
    }
}
