//! Residents: running sums and patterns that stand in registers through all rows.

ghost use Rattle.std.specs.Prelude.{◌≡◌, ◌<◌, ◌≤◌, ◌+◌, ◌++◌, IfOk, OnOk, length, max, true};
ghost use Rattle.x86_ins.specs.declared.ins.Ins.TheVariants.{VecLoad};
ghost use Rattle.x86_ins.specs.declared.ins.MoveOp.TheVariants.{Movdqu};
ghost use Rattle.x86_flow.specs.Moves.{away};
ghost use Rattle.orc_frame.specs.Frame.{IsLayout};
ghost use Rattle.orc_frame.specs.Layout.{sum_slot, pattern_slot};
ghost use Rattle.orc_program.specs.Need.{registers};
ghost use Rattle.orc_region.specs.Code.{last_place, is_resident, resident_register, resident_code, residents_code, cleared, loaded, resident_loads_code, sum_store_code, sum_stores_code, seats_in, seats_with};

use crate::homes::REGISTERS;
use orc_frame::{Layout, STACK, pattern_at, sum_at};
use orc_plan::Placed;
use orc_program::Pattern;
use std::alloc::{AllocError, Global};
use x86_ins::{Addr, Ins, InsList, MoveOp, VecOp, Xmm};

/// Where values stand, and patterns.
#[derive(Clone, Copy)]
pub struct Seats<'t> {
    /// The places of values, by their numbers.
    pub places: &'t [u8],
    /// The number of running sums, behind which patterns are residents.
    pub sums: u8,
    /// The patterns.
    pub patterns: &'t [Pattern],
}

/// The larger of two places.
fn larger(a: u8, b: u8) -> u8
    ensures { result ≡ max a b }
{
    if a < b { b } else { a }
}

/// The last place of a value, 0 where there is none.
fn last_place(at: &[u8]) -> u8
    ensures { result ≡ last_place at.now }
{
    let mut last = 0;
    for place in at {
        last = larger(last, *place);
    }
    last
}

/// Whether the resident with a number stands in its register: where no value has that register's place or one past it.
pub fn is_resident(at: &[u8], number: u16) -> bool
    ensures is { result ≡ is_resident (last_place at.now) number }
    ensures few { result ≡ true → number < registers }
{
    usize::from(last_place(at)) + usize::from(number) + 1 < usize::from(REGISTERS)
}

/// The register of a resident: XMM15 for the first, and so on downwards.
pub fn resident_register(number: u16) -> Xmm
    requires { number < registers }
    ensures { result ≡ resident_register number }
{
    Xmm {
        number: 15 - number as u8,
    }
}

/// The number of a pattern among residents.
pub fn pattern_number(sums: u8, pattern: u8) -> u16
    ensures { result ≡ sums + pattern }
{
    u16::from(sums) + u16::from(pattern)
}

/// The slot of a running sum in the frame.
fn slot_of_sum(layout: &Layout, sum: usize) -> Addr
    requires layout { IsLayout layout.now }
    requires inside { sum < length layout.now.acc_sizes.items }
    ensures { result ≡ away 4 (sum_slot sum) }
{
    Addr {
        base: STACK,
        disp: sum_at(layout, sum),
    }
}

/// The slot of a pattern in the frame.
fn slot_of_pattern(layout: &Layout, pattern: usize) -> Addr
    requires layout { IsLayout layout.now }
    requires inside { pattern < length layout.now.patterns.items }
    ensures { result ≡ away 4 (pattern_slot pattern) }
{
    Addr {
        base: STACK,
        disp: pattern_at(layout, pattern),
    }
}

/// Where values with these places stand, and the patterns of a layout.
pub fn seats_by<'t>(places: &'t [u8], layout: &'t Layout) -> Seats<'t>
    ensures { seats_in result ≡ seats_with layout.now places.now }
{
    Seats {
        places,
        sums: layout.acc_sizes.len() as u8,
        patterns: layout.patterns.as_slice(),
    }
}

/// Adds what clears the register of a running sum that stands in one.
fn push_clear(list: &mut InsList, at: &[u8], number: u16) -> Result<(), AllocError>
    ensures { OnOk result (list.new ≡ list.old ++ resident_code at.now number (cleared number)) }
{
    if !is_resident(at, number) {
        return Ok(());
    }
    list.push(Ins::Vec {
        op: VecOp::Pxor,
        dst: resident_register(number),
        src: resident_register(number),
    })
}

/// Adds what loads a pattern that stands in a register.
fn push_load(list: &mut InsList, at: &[u8], number: u16, from: Addr) -> Result<(), AllocError>
    ensures { OnOk result (list.new ≡ list.old ++ resident_code at.now number (VecLoad Movdqu (resident_register number) from)) }
{
    if !is_resident(at, number) {
        return Ok(());
    }
    list.push(Ins::VecLoad {
        op: MoveOp::Movdqu,
        dst: resident_register(number),
        at: from,
    })
}

/// Adds what stores a running sum that stands in a register.
fn push_store(list: &mut InsList, at: &[u8], layout: &Layout, sum: usize) -> Result<(), AllocError>
    requires layout { IsLayout layout.now }
    requires inside { sum < length layout.now.acc_sizes.items }
    requires few { sum < 4 }
    ensures { OnOk result (list.new ≡ list.old ++ sum_store_code at.now sum) }
{
    if !is_resident(at, sum as u16) {
        return Ok(());
    }
    list.push(Ins::VecStore {
        op: MoveOp::Movdqu,
        src: resident_register(sum as u16),
        at: slot_of_sum(layout, sum),
    })
}

/// Adds what clears the registers of the running sums that stand in one.
fn push_sums(list: &mut InsList, at: &[u8], layout: &Layout) -> Result<(), AllocError>
    requires { IsLayout layout.now }
    ensures { OnOk result (list.new ≡ list.old ++ residents_code at.now (λ g. g) cleared (length layout.now.acc_sizes.items)) }
{
    for sum in 0..layout.acc_sizes.len() {
        push_clear(list, at, sum as u16)?;
    }
    Ok(())
}

/// Adds what loads the patterns that stand in registers.
fn push_patterns(list: &mut InsList, at: &[u8], layout: &Layout) -> Result<(), AllocError>
    requires { IsLayout layout.now }
    ensures { OnOk result (list.new ≡ list.old ++
        residents_code at.now (λ j. length layout.now.acc_sizes.items + j) (loaded (length layout.now.acc_sizes.items)) (length layout.now.patterns.items)) }
{
    let sums = layout.acc_sizes.len() as u8;
    for pattern in 0..layout.patterns.len() {
        let number = pattern_number(sums, pattern as u8);
        push_load(list, at, number, slot_of_pattern(layout, pattern))?;
    }
    Ok(())
}

/// Clears the running sums that stand in registers, and loads the patterns that do from their slots of the frame.
pub fn resident_loads(alloc: Global, p: &Placed, l: &Layout) -> Result<InsList, AllocError>
    requires { IsLayout l.now }
    ensures { IfOk result (λ list. list ≡ resident_loads_code p.now.places (length l.now.acc_sizes.items) (length l.now.patterns.items)) }
{
    let mut list = InsList::new(alloc);
    push_sums(&mut list, p.places.as_slice(), l)?;
    push_patterns(&mut list, p.places.as_slice(), l)?;
    Ok(list)
}

/// Stores the running sums that stand in registers to their slots of the frame.
pub fn sum_stores(alloc: Global, p: &Placed, l: &Layout) -> Result<InsList, AllocError>
    requires { IsLayout l.now }
    ensures { IfOk result (λ list. list ≡ sum_stores_code p.now.places (length l.now.acc_sizes.items)) }
{
    let mut list = InsList::new(alloc);
    for sum in 0..l.acc_sizes.len() {
        push_store(&mut list, p.places.as_slice(), l, sum)?;
    }
    Ok(list)
}
