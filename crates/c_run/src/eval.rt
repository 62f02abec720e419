//! The value of an expression.

ghost use Rattle.std.specs.Prelude.{◌≡◌, ◌+ℤ◌, ◌*ℤ◌, pos, slice_get};
ghost use Rattle.orc_bits.specs.Memory.{bind};
ghost use Rattle.orc_bits.specs.Parts.{memory_of};
ghost use Rattle.c_run.specs.Meaning as meaning;
ghost use Rattle.c_run.specs.State.{state_of, turn_of};

use crate::state::{Spot, Values};
use crate::tree::{CCmp, CExpr, CIndex, COp};
use orc_emul::Store;
use orc_program::{Call, Place};

/// An operator on two numbers, where that has a meaning.
fn operate(op: COp, x: u64, y: u64) -> Option<u64>
    ensures { result ≡ meaning.operate op x y }
{
    match op {
        COp::Add => Some(x.wrapping_add(y)),
        COp::Sub => Some(x.wrapping_sub(y)),
        COp::Mul => Some(x.wrapping_mul(y)),
        COp::Div => x.checked_div(y),
        COp::And => Some(x & y),
        COp::Or => Some(x | y),
        COp::Xor => Some(x ^ y),
        COp::Shl => if y < 64 { Some(x << y) } else { None },
        COp::Shr => if y < 64 { Some(x >> y) } else { None },
    }
}

/// A comparison of two numbers: 1 where it holds, else 0.
fn compare(cmp: CCmp, x: u64, y: u64) -> u64
    ensures { result ≡ meaning.compare cmp x y }
{
    let holds = match cmp {
        CCmp::Less => x < y,
        CCmp::Equal => x == y,
    };
    u64::from(holds)
}

/// Where an array of the call lies.
fn place_of(call: &Call, d: u8) -> Option<Place>
    ensures { result ≡ slice_get call.now.arrays.items d }
{
    call.arrays.as_slice().get(usize::from(d)).copied()
}

/// The number of a parameter of the call.
fn param_of(call: &Call, d: u8) -> Option<u64>
    ensures { result ≡ slice_get call.now.params.items d }
{
    call.params.as_slice().get(usize::from(d)).copied()
}

/// A product of two numbers, where it fits.
fn product(x: i64, y: i64) -> Option<i64>
    ensures { result ≡ meaning.int64 (x *ℤ y) }
{
    x.checked_mul(y)
}

/// A sum of two numbers, where it fits.
fn sum(x: i64, y: i64) -> Option<i64>
    ensures { result ≡ meaning.int64 (x +ℤ y) }
{
    x.checked_add(y)
}

/// The index of a byte by its array's place.
fn index_by(spot: Spot, x: CIndex, place: Place) -> Option<i64>
    ensures { result ≡ meaning.index_by (turn_of spot) x place }
{
    let row = product(i64::from(spot.row), place.stride)?;
    let element = product(i64::from(spot.element), i64::from(x.size))?;
    sum(sum(row, element)?, i64::from(x.offset))
}

/// The index of a byte.
fn index(call: &Call, spot: Spot, x: CIndex) -> Option<i64>
    ensures { result ≡ meaning.index call.now (turn_of spot) x }
{
    index_by(spot, x, place_of(call, x.stride)?)
}

/// The address so far from a base, where there is one.
fn away(base: u64, by: i64) -> Option<u64>
    ensures { result ≡ meaning.address (pos base +ℤ by) }
{
    if by < 0 {
        base.checked_sub(by.unsigned_abs())
    } else {
        base.checked_add(by.unsigned_abs())
    }
}

/// The address of a byte of an array.
pub fn byte_address(call: &Call, spot: Spot, d: u8, x: CIndex) -> Option<u64>
    ensures { result ≡ meaning.byte_address call.now (turn_of spot) d x }
{
    let place = place_of(call, d)?;
    away(place.base, index(call, spot, x)?)
}

/// A byte of an array.
fn byte_at(call: &Call, store: &Store, spot: Spot, d: u8, x: CIndex) -> Option<u64>
    ensures { result ≡ bind (meaning.byte_address call.now (turn_of spot) d x) (memory_of store.now) }
{
    let at = byte_address(call, spot, d, x)?;
    store.get(at).map(u64::from)
}

/// The value of an expression, where it has one.
pub fn value(call: &Call, store: &Store, values: &Values, spot: Spot, e: &CExpr) -> Option<u64>
    ensures { result ≡ meaning.value call.now (turn_of spot) (state_of store.now values.now) e.now }
{
    match e {
        CExpr::Number(n) => Some(*n),
        CExpr::V(d) => values.v[usize::from(*d)],
        CExpr::W(d) => values.w.get(usize::from(*d)).copied().flatten(),
        CExpr::P(d) => param_of(call, *d),
        CExpr::Byte(d, x) => byte_at(call, store, spot, *d, *x),
        CExpr::Two(op, a, b) => {
            let x = value(call, store, values, spot, a.get())?;
            let y = value(call, store, values, spot, b.get())?;
            operate(*op, x, y)
        }
        CExpr::Test(cmp, a, b) => {
            let x = value(call, store, values, spot, a.get())?;
            let y = value(call, store, values, spot, b.get())?;
            Some(compare(*cmp, x, y))
        }
        CExpr::Choose(c, a, b) => {
            let x = value(call, store, values, spot, c.get())?;
            value(
                call,
                store,
                values,
                spot,
                if x == 0 { b.get() } else { a.get() },
            )
        }
    }
}
