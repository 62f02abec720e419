//! The value of a far load.

ghost use Rattle.std.specs.Prelude.{◌≡◌, ◌<◌, ◌^◌, ℕ, true, None, Some, if◌then◌else◌, IfOk, length};
ghost use Rattle.std.specs.List.{list_all};
ghost use Rattle.orc_bits.specs.Numbers.{wrap};
ghost use Rattle.orc_bits.specs.Parts.{memory_of};
ghost use Rattle.orc_ops.specs.Far.{far_size};
ghost use Rattle.orc_program.specs.Program.{var_at, is_array, far_array};
ghost use Rattle.orc_program.specs.Kept.{is_in_range};
ghost use Rattle.orc_program.specs.Meaning as meaning;
ghost use Rattle.orc_emul.specs.State.{HasCounts, number_or};

use crate::access::read;
use crate::places::{address, param_at, variable};
use crate::state::{Spot, Unmapped};
use crate::store::Store;
use orc_ops::{Far, Reach, blend, reach};
use orc_program::{Call, Function, Operand, VarKind};

/// The number of a scalar that is a variable.
fn scalar_var(f: &Function, call: &Call, p: u16) -> u64
    requires inside { p < length f.now.vars }
    requires counts { HasCounts f.now call.now }
    ensures { result ≡ meaning.scalar_var f.now call.now p (var_at f.now.vars p).kind }
{
    let var = variable(f, p);
    match var.kind {
        VarKind::Param => param_at(f, call, p),
        VarKind::Const => var.number,
        VarKind::Source | VarKind::Dest | VarKind::Accumulator | VarKind::Temp => 0,
    }
}

/// The number of a scalar.
fn scalar(f: &Function, call: &Call, source: Operand) -> u64
    requires known { is_in_range f.now.vars source ≡ true }
    requires counts { HasCounts f.now call.now }
    ensures { result ≡ meaning.scalar_number f.now call.now source }
{
    match source {
        Operand::Var(p) => scalar_var(f, call, p),
        Operand::Number(n) => n,
    }
}

/// The elements that a far load with these sources reads for element `i`.
fn reach_of(f: &Function, call: &Call, far: Far, sources: &[Operand], i: u32) -> Reach
    requires known { list_all (is_in_range f.now.vars) sources.now ≡ true }
    requires counts { HasCounts f.now call.now }
    ensures { result ≡ meaning.reach_of f.now call.now far sources.now i }
{
    match sources {
        [] => reach(far, i, 0, 0),
        [_] => reach(far, i, 0, 0),
        [_, p] => reach(far, i, scalar(f, call, *p), 0),
        [_, p, q, ..] => reach(far, i, scalar(f, call, *p), scalar(f, call, *q)),
    }
}

/// A variable that is an array.
fn array_at(f: &Function, p: u16) -> Option<u16>
    requires { p < length f.now.vars }
    ensures { result ≡ (if is_array (var_at f.now.vars p) then Some p else None) }
{
    match variable(f, p).kind {
        VarKind::Dest | VarKind::Source => Some(p),
        VarKind::Param | VarKind::Const | VarKind::Accumulator | VarKind::Temp => None,
    }
}

/// The array that a far load reads, which is its first source.
fn array_of(f: &Function, sources: &[Operand]) -> Option<u16>
    requires known { list_all (is_in_range f.now.vars) sources.now ≡ true }
    ensures { result ≡ far_array f.now.vars sources.now }
{
    let [first, ..] = sources else {
        return None;
    };
    match *first {
        Operand::Var(p) => array_at(f, p),
        Operand::Number(_) => None,
    }
}

/// A whole number modulo 2^64.
fn low_word(k: i64) -> u64
    ensures { result ≡ wrap 64 k }
{
    k.cast_unsigned()
}

/// The number in element `k` of the row.
fn read_element(
    f: &Function,
    call: &Call,
    store: &Store,
    spot: Spot,
    p: u16,
    k: i64,
) -> Result<u64, Unmapped>
    requires inside { p < length f.now.vars }
    requires array { is_array (var_at f.now.vars p) ≡ true }
    requires counts { HasCounts f.now call.now }
    ensures value { meaning.read_far f.now call.now spot.row spot.element p (meaning.start (memory_of store.now)) k ≡ number_or result (memory_of store.now) }
    ensures low { IfOk result (λ v. v < 256 ^ (var_at f.now.vars p).size) }
{
    match read(
        store,
        address(f, call, p, spot.row, low_word(k)),
        variable(f, p).size,
    ) {
        Ok(v) => Ok(v),
        Err(at) => Err(spot.unmapped(at)),
    }
}

/// The number in the second element; where there is none, that of the first again.
fn read_second(
    f: &Function,
    call: &Call,
    store: &Store,
    spot: Spot,
    p: u16,
    x: u64,
    second: Option<i64>,
) -> Result<u64, Unmapped>
    requires inside { p < length f.now.vars }
    requires array { is_array (var_at f.now.vars p) ≡ true }
    requires counts { HasCounts f.now call.now }
    requires low { x < 256 ^ (var_at f.now.vars p).size }
    ensures value { meaning.read_second f.now call.now spot.row spot.element p (meaning.start (memory_of store.now)) x second ≡ number_or result (memory_of store.now) }
    ensures low { IfOk result (λ v. v < 256 ^ (var_at f.now.vars p).size) }
{
    match second {
        Some(k) => read_element(f, call, store, spot, p, k),
        None => Ok(x),
    }
}

/// The value of a far load from an array, of which the lower element is read first.
fn load_from(
    f: &Function,
    call: &Call,
    store: &Store,
    spot: Spot,
    p: u16,
    far: Far,
    at: Reach,
) -> Result<u64, Unmapped>
    requires inside { p < length f.now.vars }
    requires array { is_array (var_at f.now.vars p) ≡ true }
    requires counts { HasCounts f.now call.now }
    requires size { (var_at f.now.vars p).size ≡ far_size far }
    ensures { meaning.load_far f.now call.now spot.row spot.element far at (meaning.start (memory_of store.now)) (Some p) ≡ number_or result (memory_of store.now) }
{
    let x = read_element(f, call, store, spot, p, at.first)?;
    let y = read_second(f, call, store, spot, p, x, at.second)?;
    Ok(blend(far, x, y, at.part))
}

/// The value of a far load with these sources.
pub fn load(
    f: &Function,
    call: &Call,
    store: &Store,
    spot: Spot,
    far: Far,
    sources: &[Operand],
) -> Result<u64, Unmapped>
    requires known { list_all (is_in_range f.now.vars) sources.now ≡ true }
    requires counts { HasCounts f.now call.now }
    requires size { (p : ℕ) → far_array f.now.vars sources.now ≡ Some p → (var_at f.now.vars p).size ≡ far_size far }
    ensures { meaning.load_far f.now call.now spot.row spot.element far (meaning.reach_of f.now call.now far sources.now spot.element) (meaning.start (memory_of store.now)) (far_array f.now.vars sources.now) ≡ number_or result (memory_of store.now) }
{
    let at = reach_of(f, call, far, sources, spot.element);
    match array_of(f, sources) {
        Some(p) => load_from(f, call, store, spot, p, far, at),
        None => Ok(0),
    }
}
