//! Statements, turns of the loops, and whole calls.

ghost use Rattle.std.specs.Prelude.{◌≡◌, ◌≤◌, ◌<◌, ◌+◌, ◌-◌, ◌%◌, ◌^◌, List, [], None, Some, length, nat_lt};
ghost use Rattle.orc_bits.specs.Memory.{bind};
ghost use Rattle.orc_bits.specs.Lanes.{change};
ghost use Rattle.orc_bits.specs.declared.parts.Part.{Part};
ghost use Rattle.orc_bits.specs.Parts.{memory_of, layout};
ghost use Rattle.c_run.specs.Meaning as meaning;
ghost use Rattle.c_run.specs.State.{HasCounts, state_of, turn_of, after, assigned, memory_if, ending_of, ending, end_of};

use crate::eval::{byte_address, value};
use crate::state::{CStop, MOST_SUMS, MOST_VARIABLES, Spot, Values};
use crate::tree::{CFunction, CIndex, CStmt};
use orc_emul::{Accs, Store};
use orc_program::Call;

/// How a call ends.
#[derive(Debug, Drop)]
pub enum CEnd {
    /// It returned.
    Ended {
        /// The numbers stored to the `g` pointers, in order.
        accs: Accs,
        /// The number of statements that were done.
        statements: u64,
    },
    /// A statement has no meaning.
    NoMeaning {
        /// The number of statements done before it.
        statement: u64,
    },
    /// The budget's statements were done, and another one follows.
    Budget,
}

/// Sets a byte of an array, where it is mapped.
fn set_byte(call: &Call, store: &mut Store, spot: Spot, d: u8, x: CIndex, b: u64) -> Option<()>
    ensures memory { bind (meaning.byte_address call.now (turn_of spot) d x)
        (λ a. meaning.put_byte (memory_of store.old) a (b % 256)) ≡ memory_if result (memory_of store.new) }
    ensures layout { layout store.new ≡ layout store.old }
    ensures unchanged { result ≡ None → store.new ≡ store.old }
{
    let at = byte_address(call, spot, d, x)?;
    if store.set(at, (b % 256) as u8) {
        Some(())
    } else {
        None
    }
}

/// Sets a variable, where it is declared.
fn set_v(f: &CFunction, values: &mut Values, d: u8, x: u64) -> Option<()>
    ensures value { (parts : List Part) → meaning.set_if (nat_lt d f.now.temps)
        (record (state_of parts values.old) { v = change (state_of parts values.old).v d (Some x) })
        ≡ assigned result parts values.new }
    ensures unchanged { result ≡ None → values.new ≡ values.old }
{
    if u16::from(d) >= f.temps {
        return None;
    }
    values.v[usize::from(d)] = Some(x);
    Some(())
}

/// The number of running sums.
fn sums_of(f: &CFunction) -> u8
    ensures value { result ≡ f.now.accs }
    ensures few { result ≤ 4 }
{
    f.accs
}

/// Sets a running sum, of which there are so many.
fn set_w(accs: u8, values: &mut Values, d: u8, x: u64) -> Option<()>
    requires { accs ≤ 4 }
    ensures value { (parts : List Part) → meaning.set_if (nat_lt d accs)
        (record (state_of parts values.old) { w = change (state_of parts values.old).w d (Some x) })
        ≡ assigned result parts values.new }
    ensures unchanged { result ≡ None → values.new ≡ values.old }
{
    if d >= accs {
        return None;
    }
    values.w[usize::from(d)] = Some(x);
    Some(())
}

/// Does an assignment, where it has a meaning; else nothing changes.
fn assign(
    f: &CFunction,
    call: &Call,
    store: &mut Store,
    values: &mut Values,
    spot: Spot,
    s: &CStmt,
) -> Option<()>
    ensures value { meaning.assign f.now call.now (turn_of spot) s.now (state_of store.old values.old)
        ≡ assigned result store.new values.new }
    ensures layout { layout store.new ≡ layout store.old }
    ensures unchanged { result ≡ None → (store.new ≡ store.old) × (values.new ≡ values.old) }
{
    match s {
        CStmt::SetV(d, e) => {
            let x = value(call, store, values, spot, e)?;
            set_v(f, values, *d, x)
        }
        CStmt::SetW(d, e) => {
            let x = value(call, store, values, spot, e)?;
            set_w(sums_of(f), values, *d, x)
        }
        CStmt::SetByte(d, x, e) => {
            let b = value(call, store, values, spot, e)?;
            set_byte(call, store, spot, *d, *x, b)
        }
    }
}

/// Whether the budget has a statement left.
fn has_room(values: &Values, budget: u64) -> bool
    ensures { result ≡ nat_lt values.now.done budget }
{
    values.done < budget
}

/// Counts a statement that was done.
fn count(values: &mut Values)
    requires { values.old.done < 2 ^ 64 - 1 }
    ensures { values.new ≡ record values.old { done = values.old.done + 1 } }
{
    values.done += 1;
}

/// Begins a turn of a loop.
fn begin_turn(values: &mut Values, budget: u64) -> Result<(), CStop>
    ensures { (parts : List Part) → meaning.begin_turn budget (state_of parts values.old) ≡ after result parts values.new }
{
    if !has_room(values, budget) {
        return Err(CStop::Budget);
    }
    count(values);
    Ok(())
}

/// Does a statement of the body.
fn statement(
    f: &CFunction,
    call: &Call,
    store: &mut Store,
    values: &mut Values,
    spot: Spot,
    budget: u64,
    s: &CStmt,
) -> Result<(), CStop>
    ensures value { meaning.count budget (meaning.assign f.now call.now (turn_of spot) s.now)
        (state_of store.old values.old) ≡ after result store.new values.new }
    ensures layout { layout store.new ≡ layout store.old }
{
    if !has_room(values, budget) {
        return Err(CStop::Budget);
    }
    if assign(f, call, store, values, spot, s).is_none() {
        return Err(CStop::NoMeaning(values.done));
    }
    count(values);
    Ok(())
}

/// Does the statements of the body, in order.
fn body_of(
    f: &CFunction,
    call: &Call,
    store: &mut Store,
    values: &mut Values,
    spot: Spot,
    budget: u64,
) -> Result<(), CStop>
    ensures value { meaning.body_of f.now call.now budget (turn_of spot) f.now.body (state_of store.old values.old)
        ≡ after result store.new values.new }
    ensures layout { layout store.new ≡ layout store.old }
{
    for s in f.body.as_slice() {
        statement(f, call, store, values, spot, budget, s)?;
    }
    Ok(())
}

/// Does one element: a turn of the inner loop.
fn element_of(
    f: &CFunction,
    call: &Call,
    store: &mut Store,
    values: &mut Values,
    spot: Spot,
    budget: u64,
) -> Result<(), CStop>
    ensures value { meaning.element f.now call.now budget spot.row spot.element (state_of store.old values.old)
        ≡ after result store.new values.new }
    ensures layout { layout store.new ≡ layout store.old }
{
    begin_turn(values, budget)?;
    body_of(f, call, store, values, spot, budget)
}

/// Does the elements of a row.
fn elements_of(
    f: &CFunction,
    call: &Call,
    store: &mut Store,
    values: &mut Values,
    row: u32,
    budget: u64,
) -> Result<(), CStop>
    ensures value { meaning.times call.now.n (meaning.element f.now call.now budget row) (state_of store.old values.old)
        ≡ after result store.new values.new }
    ensures layout { layout store.new ≡ layout store.old }
{
    for i in 0..call.n {
        element_of(f, call, store, values, Spot { row, element: i }, budget)?;
    }
    Ok(())
}

/// Does one row: a turn of the outer loop.
fn row_of(
    f: &CFunction,
    call: &Call,
    store: &mut Store,
    values: &mut Values,
    row: u32,
    budget: u64,
) -> Result<(), CStop>
    ensures value { meaning.row f.now call.now budget row (state_of store.old values.old)
        ≡ after result store.new values.new }
    ensures layout { layout store.new ≡ layout store.old }
{
    begin_turn(values, budget)?;
    elements_of(f, call, store, values, row, budget)
}

/// The turns of the loop over rows.
fn rows(f: &CFunction, call: &Call) -> u32
    ensures { result ≡ meaning.rows f.now call.now }
{
    if f.two_d { call.m } else { 1 }
}

/// Does all rows.
fn rows_of(
    f: &CFunction,
    call: &Call,
    store: &mut Store,
    values: &mut Values,
    budget: u64,
) -> Result<(), CStop>
    ensures value { meaning.times (meaning.rows f.now call.now) (meaning.row f.now call.now budget)
        (state_of store.old values.old) ≡ after result store.new values.new }
    ensures layout { layout store.new ≡ layout store.old }
{
    for j in 0..rows(f, call) {
        row_of(f, call, store, values, j, budget)?;
    }
    Ok(())
}

/// Sets a running sum to 0.
fn clear_one(values: &mut Values, budget: u64, k: u8) -> Result<(), CStop>
    requires { k < 4 }
    ensures { (parts : List Part) → meaning.clear budget k (state_of parts values.old) ≡ after result parts values.new }
{
    if !has_room(values, budget) {
        return Err(CStop::Budget);
    }
    values.w[usize::from(k)] = Some(0);
    count(values);
    Ok(())
}

/// Sets the running sums to 0.
fn clear(values: &mut Values, budget: u64, accs: u8) -> Result<(), CStop>
    requires { accs ≤ 4 }
    ensures { (parts : List Part) → meaning.times accs (meaning.clear budget) (state_of parts values.old)
        ≡ after result parts values.new }
{
    for k in 0..accs {
        clear_one(values, budget, k)?;
    }
    Ok(())
}

/// Stores a running sum.
fn store_one(values: &mut Values, sums: &mut Accs, budget: u64, k: u8) -> Result<(), CStop>
    requires index { k < 4 }
    requires room { length sums.old.items < 4 }
    ensures value { (parts : List Part) → meaning.finish budget k (ending_of parts values.old sums.old.items)
        ≡ ending result parts values.new sums.new.items }
    ensures more { length sums.new.items ≤ length sums.old.items + 1 }
{
    if !has_room(values, budget) {
        return Err(CStop::Budget);
    }
    let Some(sum) = values.w[usize::from(k)] else {
        return Err(CStop::NoMeaning(values.done));
    };
    sums.push(sum);
    count(values);
    Ok(())
}

/// Stores the running sums, in order.
fn finish(values: &mut Values, sums: &mut Accs, budget: u64, accs: u8) -> Result<(), CStop>
    requires few { accs ≤ 4 }
    requires none { sums.old.items ≡ [] }
    ensures { (parts : List Part) → meaning.times accs (meaning.finish budget) (state_of parts values.old)
        ≡ ending result parts values.new sums.new.items }
{
    for k in 0..accs {
        store_one(values, sums, budget, k)?;
    }
    Ok(())
}

/// Nothing is set before the first statement.
fn start() -> Values
    ensures { (parts : List Part) → state_of parts result ≡ meaning.start (memory_of parts) }
{
    Values {
        v: [None; MOST_VARIABLES],
        w: [None; MOST_SUMS],
        done: 0,
    }
}

/// Does a whole function.
fn run_from(
    f: &CFunction,
    call: &Call,
    store: &mut Store,
    values: &mut Values,
    sums: &mut Accs,
    budget: u64,
) -> Result<(), CStop>
    requires { sums.old.items ≡ [] }
    ensures value { meaning.run_from f.now call.now budget (state_of store.old values.old)
        ≡ ending result store.new values.new sums.new.items }
    ensures layout { layout store.new ≡ layout store.old }
{
    let accs = sums_of(f);
    clear(values, budget, accs)?;
    rows_of(f, call, store, values, budget)?;
    finish(values, sums, budget, accs)
}

/// What the end of the statements is for the call.
fn end_with(done: Result<(), CStop>, values: &Values, accs: Accs) -> CEnd
    ensures { (parts : List Part) → meaning.go_on (ending done parts values.now accs.items) meaning.ended
        ≡ end_of result parts }
{
    match done {
        Ok(()) => CEnd::Ended {
            accs,
            statements: values.done,
        },
        Err(CStop::NoMeaning(statement)) => CEnd::NoMeaning { statement },
        Err(CStop::Budget) => CEnd::Budget,
    }
}

/// Does a C function on a store, as C means it, within a budget of statements: assignments to a variable, a running
/// sum, an array's byte or through a `g` pointer, and turns of the loops. The call has a place for each array of the
/// function and a number for each parameter. Takes no memory.
///
/// The end is `NoMeaning` exactly where a statement has no meaning and fewer than `budget` were done before it, and
/// `Budget` exactly where `budget` statements were done and another one follows. The store keeps what was written
/// until then.
pub fn run_c(f: &CFunction, call: &Call, store: &mut Store, budget: u64) -> CEnd
    requires { HasCounts f.now call.now }
    ensures end { meaning.meaning f.now call.now (memory_of store.old) budget ≡ end_of result store.new }
    ensures layout { layout store.new ≡ layout store.old }
{
    let mut values = start();
    let mut accs = Accs::new();
    let done = run_from(f, call, store, &mut values, &mut accs, budget);
    end_with(done, &values, accs)
}
