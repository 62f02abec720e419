//! The lists of instructions of a function's blocks and turns.

ghost use Rattle.std.specs.Prelude.{◌≡◌, ◌≢◌, ◌<◌, ◌≤◌, ◌+◌, ◌-◌, ◌*◌, ◌++◌, ◌∷◌, [], All, OnOk, length, map, slice_index, true, pos, is_some, ◌||◌};
ghost use Rattle.x86_ins.specs.declared.ins.AluOp.TheVariants.{Add};
ghost use Rattle.x86_ins.specs.declared.ins.Ins.TheVariants.{AluImm, VecLoad, VecStore};
ghost use Rattle.x86_ins.specs.declared.ins.MoveOp.TheVariants.{Movdqu};
ghost use Rattle.x86_ins.specs.Renaming.{IsPermutation, renamed, renaming};
ghost use Rattle.x86_ins.specs.Spelling.{IsIns};
ghost use Rattle.x86_ins.specs.Way.{Each};
ghost use Rattle.x86_flow.specs.Moves.{IsWidth, away, load_far_code, store_either_code};
ghost use Rattle.orc_frame.specs.Frame.{IsLayout};
ghost use Rattle.orc_frame.specs.Layout.{pattern_slot, sum_slot, spill_slot};
ghost use Rattle.orc_ops.specs.Far.{far_of};
ghost use Rattle.orc_program.specs.Need.{places, registers};
ghost use Rattle.orc_region.specs.Code.{HasRule, pointer, place_register, aligned_first, far_by, source_of, target_of, source_far_code, brought, sources_far_code, sum_code, result_far_code, results_far_code, advance_code, first_register, second_register, third_register, AddsRule, AddsAction, AddsNamed, AddsActions, IsMoved, IsLoaded, IsStored, IsReady, seats_in, from_pattern, count_by, sources_of};

use crate::fars::push_far;
use crate::homes::{
    Homes, REGISTERS, SUM, homes_of, names_of, own_names, place_register, source_names,
};
use crate::residents::{Seats, is_resident, pattern_number, resident_register};
use crate::rules::{has_count, rule_of};
use crate::span::Setting;
use crate::taking::{Takes, register_sources, takes_of};
use orc_frame::{Layout, STACK, pattern_at, spill_slot_at, sum_at};
use orc_ops::far_of;
use orc_plan::{Item, Step, place_of};
use std::alloc::{AllocError, Global};
use x86_flow::{push_aligned_store, push_load_far, push_store_far};
use x86_ins::{Addr, AluOp, Gpr, Ins, InsList, MoveOp, VecOp, Xmm, allowed, rename};

/// Counts the elements that are left: RCX.
pub const COUNTER: Gpr = Gpr { number: 1 };

/// Holds a first result that is stored: XMM0.
const FIRST: Xmm = Xmm { number: 0 };

/// Holds a second result that is stored: XMM1.
const SECOND: Xmm = Xmm { number: 1 };

/// The register that points at the next element of an array slot: RDX, RBX, RBP, RSI, R8 to R15.
pub fn pointer(slot: usize) -> Gpr
    requires { slot < 12 }
    ensures { result ≡ pointer slot }
{
    let number = match slot {
        0 => 2,
        1 => 3,
        2 => 5,
        3 => 6,
        _ => slot as u8 + 4,
    };
    Gpr { number }
}

/// Adds what loads elements of a slot.
fn load_cells(
    list: &mut InsList,
    setting: &Setting<'_>,
    slot: usize,
    dst: Xmm,
) -> Result<(), AllocError>
    requires moved { IsMoved (slice_index setting.now.sizes.now) setting.now.span.count slot }
    requires near { setting.now.span.first ≤ 64 }
    ensures { OnOk result (list.new ≡ list.old ++ load_far_code (setting.now.span.count * slice_index setting.now.sizes.now slot) dst (pointer slot) (far_by setting.now.span.first (slice_index setting.now.sizes.now) slot)) }
{
    let size = setting.sizes[slot] as usize;
    push_load_far(
        list,
        setting.span.count * size,
        dst,
        pointer(slot),
        setting.span.first * size,
    )
}

/// Adds what stores elements of a slot, which for the first dest may be an aligned store.
fn store_cells(
    list: &mut InsList,
    setting: &Setting<'_>,
    slot: usize,
    src: Xmm,
) -> Result<(), AllocError>
    requires moved { IsMoved (slice_index setting.now.sizes.now) setting.now.span.count slot }
    requires near { setting.now.span.first ≤ 64 }
    ensures { OnOk result (list.new ≡ list.old ++ store_either_code (aligned_first setting.now.span.aligned slot) (setting.now.span.count * slice_index setting.now.sizes.now slot) src (pointer slot) (far_by setting.now.span.first (slice_index setting.now.sizes.now) slot)) }
{
    let span = setting.span;
    let size = setting.sizes[slot] as usize;
    let far = span.first * size;
    if span.aligned && slot == 0 {
        push_aligned_store(list, src, pointer(slot), far)
    } else {
        push_store_far(list, span.count * size, src, pointer(slot), far)
    }
}

/// Where the spill slot of a place past the registers is, in bytes above RSP.
fn slot_of_place(layout: &Layout, place: u8) -> i32
    requires layout { IsLayout layout.now }
    requires slot { registers ≤ place }
    requires inside { place < places }
    ensures { result ≡ pos (spill_slot (place - registers)) }
{
    spill_slot_at(layout, usize::from(place - REGISTERS))
}

/// Adds what moves 16 bytes of the frame to a vector register.
fn load_slot(list: &mut InsList, dst: Xmm, disp: i32) -> Result<(), AllocError>
    ensures { OnOk result (list.new ≡ list.old ++ VecLoad Movdqu dst (record { base = 4; disp = disp }) ∷ []) }
{
    list.push(Ins::VecLoad {
        op: MoveOp::Movdqu,
        dst,
        at: Addr { base: STACK, disp },
    })
}

/// Adds what moves a vector register to 16 bytes of the frame.
fn store_slot(list: &mut InsList, src: Xmm, disp: i32) -> Result<(), AllocError>
    ensures { OnOk result (list.new ≡ list.old ++ VecStore Movdqu src (record { base = 4; disp = disp }) ∷ []) }
{
    list.push(Ins::VecStore {
        op: MoveOp::Movdqu,
        src,
        at: Addr { base: STACK, disp },
    })
}

/// Adds what brings a pattern to a register, from the one in which it stands or from the frame.
fn push_pattern(
    list: &mut InsList,
    setting: &Setting<'_>,
    pattern: u8,
    dst: Xmm,
) -> Result<(), AllocError>
    requires layout { IsLayout setting.now.layout.now }
    requires loaded { IsLoaded setting.now.layout.now (slice_index setting.now.sizes.now) setting.now.span.count (from_pattern (seats_in setting.now.seats) pattern) }
    ensures { OnOk result (list.new ≡ list.old ++ source_far_code setting.now.span.count (slice_index setting.now.sizes.now) (far_by setting.now.span.first (slice_index setting.now.sizes.now)) dst (from_pattern (seats_in setting.now.seats) pattern)) }
{
    let number = pattern_number(setting.seats.sums, pattern);
    if is_resident(setting.seats.places, number) {
        list.push(Ins::Vec {
            op: VecOp::Movdqa,
            dst,
            src: resident_register(number),
        })
    } else {
        load_slot(list, dst, pattern_at(setting.layout, usize::from(pattern)))
    }
}

/// Adds what brings a source to a register: elements of an array, a pattern, or a value from its place, a register or a slot of the frame.
fn push_source(
    list: &mut InsList,
    setting: &Setting<'_>,
    item: Item,
    dst: Xmm,
) -> Result<(), AllocError>
    requires layout { IsLayout setting.now.layout.now }
    requires loaded { IsLoaded setting.now.layout.now (slice_index setting.now.sizes.now) setting.now.span.count (source_of (seats_in setting.now.seats) item) }
    requires near { setting.now.span.first ≤ 64 }
    ensures { OnOk result (list.new ≡ list.old ++ source_far_code setting.now.span.count (slice_index setting.now.sizes.now) (far_by setting.now.span.first (slice_index setting.now.sizes.now)) dst (source_of (seats_in setting.now.seats) item)) }
{
    match item {
        Item::Value(value) => {
            let place = place_of(setting.seats.places, value);
            if place < REGISTERS {
                list.push(Ins::Vec {
                    op: VecOp::Movdqa,
                    dst,
                    src: place_register(place),
                })
            } else {
                load_slot(list, dst, slot_of_place(setting.layout, place))
            }
        }
        Item::Array(slot) => load_cells(list, setting, slot as usize, dst),
        Item::Acc { slot, .. } => load_cells(list, setting, slot as usize, dst),
        Item::Pattern(number) => push_pattern(list, setting, number, dst),
    }
}

/// Adds what brings a source to a register, unless nothing has to.
fn push_brought(
    list: &mut InsList,
    setting: &Setting<'_>,
    item: Item,
    taken: bool,
    dst: Xmm,
) -> Result<(), AllocError>
    requires layout { IsLayout setting.now.layout.now }
    requires loaded { IsLoaded setting.now.layout.now (slice_index setting.now.sizes.now) setting.now.span.count (source_of (seats_in setting.now.seats) item) }
    requires near { setting.now.span.first ≤ 64 }
    ensures { OnOk result (list.new ≡ list.old ++ brought taken (source_far_code setting.now.span.count (slice_index setting.now.sizes.now) (far_by setting.now.span.first (slice_index setting.now.sizes.now)) dst (source_of (seats_in setting.now.seats) item))) }
{
    if taken {
        Ok(())
    } else {
        push_source(list, setting, item, dst)
    }
}

/// Adds what brings sources one by one to registers, but for those that nothing has to bring.
fn push_near(
    list: &mut InsList,
    setting: &Setting<'_>,
    sources: &[Item],
    takes: Takes,
    homes: &Homes,
) -> Result<(), AllocError>
    requires layout { IsLayout setting.now.layout.now }
    requires loaded { Each (IsLoaded setting.now.layout.now (slice_index setting.now.sizes.now) setting.now.span.count) (map (source_of (seats_in setting.now.seats)) sources.now) }
    requires near { setting.now.span.first ≤ 64 }
    ensures { OnOk result (list.new ≡ list.old ++ sources_far_code takes.first takes.second setting.now.span.count (slice_index setting.now.sizes.now) (far_by setting.now.span.first (slice_index setting.now.sizes.now)) homes.now.first homes.now.second (map (source_of (seats_in setting.now.seats)) sources.now)) }
{
    let (one, two) = (takes.first, takes.second);
    match sources {
        [] => Ok(()),
        [first] => push_brought(list, setting, *first, one, homes.first),
        [first, second, ..] => {
            push_brought(list, setting, *first, one, homes.first)?;
            push_brought(list, setting, *second, two, homes.second)
        }
    }
}

/// Adds what brings a step's sources to registers, but for those that nothing has to bring.
fn push_sources(
    alloc: Global,
    list: &mut InsList,
    setting: &Setting<'_>,
    step: &Step,
    takes: Takes,
    homes: &Homes,
) -> Result<(), AllocError>
    requires layout { IsLayout setting.now.layout.now }
    requires loaded { Each (IsLoaded setting.now.layout.now (slice_index setting.now.sizes.now) setting.now.span.count) (sources_of (seats_in setting.now.seats) (far_of step.now.op) step.now.sources.items) }
    requires near { setting.now.span.first ≤ 64 }
    ensures { OnOk result (list.new ≡ list.old ++ sources_far_code takes.first takes.second setting.now.span.count (slice_index setting.now.sizes.now) (far_by setting.now.span.first (slice_index setting.now.sizes.now)) homes.now.first homes.now.second (sources_of (seats_in setting.now.seats) (far_of step.now.op) step.now.sources.items)) }
{
    let sources = step.sources.as_slice();
    match far_of(step.op) {
        None => push_near(list, setting, sources, takes, homes),
        Some(far) => push_far(alloc, list, setting, far, sources, takes.first, homes.first),
    }
}

/// Adds what loads the running sum that the first result is, if it is one and stands in the frame.
fn push_sum(list: &mut InsList, setting: &Setting<'_>, results: &[Item]) -> Result<(), AllocError>
    requires layout { IsLayout setting.now.layout.now }
    requires stored { Each (IsStored setting.now.layout.now (slice_index setting.now.sizes.now) setting.now.span.count) (map (target_of setting.now.seats.places.now) results.now) }
    ensures { OnOk result (list.new ≡ list.old ++ sum_code (map (target_of setting.now.seats.places.now) results.now)) }
{
    match results {
        [Item::Acc { slot, .. }, ..] => {
            if is_resident(setting.seats.places, u16::from(*slot)) {
                Ok(())
            } else {
                load_slot(list, SUM, sum_at(setting.layout, *slot as usize))
            }
        }
        _ => Ok(()),
    }
}

/// Adds what stores a result: elements of an array, or a running sum or a value that stands in the frame. One that stands in a register is
/// there already.
fn push_result(
    list: &mut InsList,
    setting: &Setting<'_>,
    item: Item,
    src: Xmm,
) -> Result<(), AllocError>
    requires layout { IsLayout setting.now.layout.now }
    requires stored { IsStored setting.now.layout.now (slice_index setting.now.sizes.now) setting.now.span.count (target_of setting.now.seats.places.now item) }
    requires near { setting.now.span.first ≤ 64 }
    ensures { OnOk result (list.new ≡ list.old ++ result_far_code setting.now.span.count (slice_index setting.now.sizes.now) (far_by setting.now.span.first (slice_index setting.now.sizes.now)) (aligned_first setting.now.span.aligned) src (target_of setting.now.seats.places.now item)) }
{
    match item {
        Item::Value(value) => {
            let place = place_of(setting.seats.places, value);
            if place < REGISTERS {
                Ok(())
            } else {
                store_slot(list, src, slot_of_place(setting.layout, place))
            }
        }
        Item::Array(slot) => store_cells(list, setting, slot as usize, src),
        Item::Pattern(slot) => store_cells(list, setting, slot as usize, src),
        Item::Acc { slot, .. } => {
            if is_resident(setting.seats.places, u16::from(slot)) {
                Ok(())
            } else {
                store_slot(list, SUM, sum_at(setting.layout, slot as usize))
            }
        }
    }
}

/// Adds what stores results: the first from XMM0, and then a second one from XMM1.
fn push_results(
    list: &mut InsList,
    setting: &Setting<'_>,
    results: &[Item],
) -> Result<(), AllocError>
    requires layout { IsLayout setting.now.layout.now }
    requires stored { Each (IsStored setting.now.layout.now (slice_index setting.now.sizes.now) setting.now.span.count) (map (target_of setting.now.seats.places.now) results.now) }
    requires near { setting.now.span.first ≤ 64 }
    ensures { OnOk result (list.new ≡ list.old ++ results_far_code setting.now.span.count (slice_index setting.now.sizes.now) (far_by setting.now.span.first (slice_index setting.now.sizes.now)) (aligned_first setting.now.span.aligned) (map (target_of setting.now.seats.places.now) results.now)) }
{
    match results {
        [] => Ok(()),
        [first] => push_result(list, setting, *first, FIRST),
        [first, second, ..] => {
            push_result(list, setting, *first, FIRST)?;
            push_result(list, setting, *second, SECOND)
        }
    }
}

/// An instruction as it is. Its fields are always in the ranges of their types, which is known where they are read.
fn known(ins: &Ins) -> Ins
    ensures same { result ≡ ins.now }
    ensures ranges { IsIns ins.now }
{
    let _ = allowed(ins);
    *ins
}

/// Adds a list of instructions under other names of the vector registers.
fn push_renamed(list: &mut InsList, more: &[Ins], names: &[u8; 16]) -> Result<(), AllocError>
    requires { IsPermutation names.now }
    ensures added { OnOk result (list.new ≡ list.old ++ map (renamed (renaming names.now)) more.now) }
    ensures ranges { OnOk result (Each IsIns more.now) }
{
    for ins in more {
        list.push(rename(&known(ins), names))?;
    }
    Ok(())
}

/// Adds what computes an opcode in the registers of its results, or adds its numbers of elements to a running sum.
fn push_rule(
    list: &mut InsList,
    setting: &Setting<'_>,
    step: &Step,
    results: &[Item],
    homes: &Homes,
) -> Result<(), AllocError>
    requires rule { HasRule setting.now.span.count step.now.op }
    requires first { homes.now.first ≡ first_register (map (target_of setting.now.seats.places.now) results.now) }
    requires second { homes.now.second ≡ second_register (map (target_of setting.now.seats.places.now) results.now) }
    requires sum { homes.now.sum ≡ third_register (map (target_of setting.now.seats.places.now) results.now) }
    ensures { OnOk result (AddsRule setting.now.span.target setting.now.span.count step.now.op (count_by (seats_in setting.now.seats) step.now.op step.now.sources.items) (map (target_of setting.now.seats.places.now) results.now) list.old list.new) }
{
    let span = setting.span;
    let rule = rule_of(&setting.seats, step, span.target, span.count);
    push_renamed(list, rule.as_slice(), &names_of(homes))
}

/// Which sources nothing has to bring: those that are taken over, and a count that the rule has in itself.
fn spared_by(seats: &Seats<'_>, step: &Step, takes: Takes) -> Takes
    ensures first { result.first ≡ takes.first }
    ensures second { result.second ≡ (is_some (count_by (seats_in seats.now) step.now.op step.now.sources.items) || takes.second) }
{
    Takes {
        first: takes.first,
        second: has_count(seats, step) || takes.second,
    }
}

/// Adds what does an instruction on elements, of whose sources some are taken over.
fn push_action(
    alloc: Global,
    list: &mut InsList,
    setting: &Setting<'_>,
    step: &Step,
    takes: Takes,
) -> Result<(), AllocError>
    requires layout { IsLayout setting.now.layout.now }
    requires ready { IsReady setting.now.layout.now (seats_in setting.now.seats) (slice_index setting.now.sizes.now) setting.now.span.count step.now }
    requires near { setting.now.span.first ≤ 64 }
    ensures { OnOk result (AddsAction (seats_in setting.now.seats) (slice_index setting.now.sizes.now) setting.now.span step.now takes.first takes.second list.old list.new) }
{
    let results = step.results.as_slice();
    let homes = homes_of(setting.seats.places, results);
    let spared = spared_by(&setting.seats, step, takes);
    push_sources(alloc, list, setting, step, spared, &homes)?;
    push_sum(list, setting, results)?;
    push_rule(list, setting, step, results, &homes)?;
    push_results(list, setting, results)
}

/// Adds what does an instruction and those after it on elements, under these names of the vector registers.
fn push_named(
    alloc: Global,
    list: &mut InsList,
    setting: &Setting<'_>,
    names: &[u8; 16],
    steps: &[Step],
) -> Result<(), AllocError>
    requires names { IsPermutation names.now }
    requires layout { IsLayout setting.now.layout.now }
    requires ready { All (IsReady setting.now.layout.now (seats_in setting.now.seats) (slice_index setting.now.sizes.now) setting.now.span.count) steps.now }
    requires near { setting.now.span.first ≤ 64 }
    ensures { OnOk result (AddsNamed names.now (seats_in setting.now.seats) (slice_index setting.now.sizes.now) setting.now.span steps.now list.old list.new) }
{
    let [step, later @ ..] = steps else {
        return Ok(());
    };
    let sources = register_sources(step);
    let takes = takes_of(&setting.seats, later, sources);
    let homes = homes_of(setting.seats.places, step.results.as_slice());
    let names = source_names(takes, &homes, &setting.seats, sources, names);
    let mut own = InsList::new(alloc);
    push_action(alloc, &mut own, setting, step, takes)?;
    push_renamed(list, own.as_slice(), &names)?;
    push_named(alloc, list, setting, &names, later)
}

/// Adds what does the steps on elements.
pub fn push_actions(
    alloc: Global,
    list: &mut InsList,
    setting: &Setting<'_>,
    steps: &[Step],
) -> Result<(), AllocError>
    requires layout { IsLayout setting.now.layout.now }
    requires ready { All (IsReady setting.now.layout.now (seats_in setting.now.seats) (slice_index setting.now.sizes.now) setting.now.span.count) steps.now }
    requires near { setting.now.span.first ≤ 64 }
    ensures { OnOk result (AddsActions (seats_in setting.now.seats) (slice_index setting.now.sizes.now) setting.now.span steps.now list.old list.new) }
{
    push_named(alloc, list, setting, &own_names(), steps)
}

/// Moves the pointer of a slot on by `count` elements.
fn advance(sizes: &[u8; 12], slot: usize, count: usize) -> Ins
    requires slot { slot < 12 }
    requires count { count ≤ 64 }
    ensures { result ≡ AluImm Add (pointer slot) (pos (count * slice_index sizes.now slot)) }
{
    Ins::AluImm {
        op: AluOp::Add,
        dst: pointer(slot),
        value: count as i32 * sizes[slot] as i32,
    }
}

/// Adds what moves the pointers of `n` slots from `first` on by `count` elements.
pub fn push_advances(
    list: &mut InsList,
    sizes: &[u8; 12],
    count: usize,
    first: usize,
    n: usize,
) -> Result<(), AllocError>
    requires count { count ≤ 64 }
    requires slots { first + n ≤ 12 }
    ensures { OnOk result (list.new ≡ list.old ++ advance_code (slice_index sizes.now) count first n) }
{
    for k in 0..n {
        list.push(advance(sizes, first + k, count))?;
    }
    Ok(())
}
