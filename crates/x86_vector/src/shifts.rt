//! Shifts of lanes and of registers.

ghost use Rattle.std.specs.Prelude.{◌≡◌, ◌≤◌, ◌<◌, ◌+◌, ◌-◌, ◌*◌, ◌/◌, ◌%◌, ◌^◌};
ghost use Rattle.orc_bits.specs.Lanes.{lane};
ghost use Rattle.x86_ins.specs.Vectors.{shl, shr, sar, sar_by};
ghost use Rattle.x86_vector.specs.Forms.{bytes_of, shift_fn, lane_in};

use crate::forms::{Form, ShiftFn};
use crate::width::{Width, bits, ones};
use orc_bits::lane::lane_at;

/// A lane shifted left, 0 where the count passes its width.
fn shift_left(w: Width, a: u64, count: u64) -> u64
    ensures { result ≡ shl (8 * bytes_of w) a count }
{
    match w {
        Width::One => if count < 8 { (a << count) % 0x100 } else { 0 },
        Width::Two => if count < 16 {
            (a << count) % 0x1_0000
        } else {
            0
        },
        Width::Four => if count < 32 {
            (a << count) % 0x1_0000_0000
        } else {
            0
        },
        Width::Eight => if count < 64 { a << count } else { 0 },
    }
}

/// A lane shifted right, 0 where the count passes its width.
fn shift_right(w: Width, a: u64, count: u64) -> u64
    ensures { result ≡ shr (8 * bytes_of w) a count }
{
    if count < u64::from(bits(w)) {
        a >> count
    } else {
        0
    }
}

/// A lane shifted right by less than its width, with its sign in the bits that come in.
fn sign_shifted(w: Width, a: u64, count: u64) -> u64
    requires lane { a < 2 ^ (8 * bytes_of w) }
    requires count { count < 8 * bytes_of w }
    ensures { result ≡ sar_by (8 * bytes_of w) a count }
{
    let half = 1u64 << (bits(w) - 1);
    if a < half {
        a >> count
    } else {
        ones(w) - ((ones(w) - a) >> count)
    }
}

/// A lane shifted right, its sign in every bit where the count passes its width.
fn shift_right_signed(w: Width, a: u64, count: u64) -> u64
    requires lane { a < 2 ^ (8 * bytes_of w) }
    ensures { result ≡ sar (8 * bytes_of w) a count }
{
    let most = u64::from(bits(w)) - 1;
    sign_shifted(w, a, count.min(most))
}

/// A lane shifted by a count.
pub fn shift_value(f: ShiftFn, w: Width, a: u64, count: u64) -> u64
    requires lane { a < 2 ^ (8 * bytes_of w) }
    ensures { result ≡ shift_fn f (8 * bytes_of w) a count }
{
    match f {
        ShiftFn::Left => shift_left(w, a, count),
        ShiftFn::Right => shift_right(w, a, count),
        ShiftFn::RightSigned => shift_right_signed(w, a, count),
    }
}

/// Byte q of a register whose bytes go up by some places.
pub fn byte_from_below(x: &[u8; 16], count: u8, q: usize) -> u64
    requires { q < 16 }
    ensures { result ≡ lane_in (Form.BytesUp count) x.now x.now q }
{
    let count = usize::from(count);
    if q < count {
        0
    } else {
        lane_at(x, 1, q - count)
    }
}

/// Byte q of a register whose bytes go down by some places.
pub fn byte_from_above(x: &[u8; 16], count: u8, q: usize) -> u64
    requires { q < 16 }
    ensures { result ≡ lane_in (Form.BytesDown count) x.now x.now q }
{
    let from = q + usize::from(count);
    if from < 16 { lane_at(x, 1, from) } else { 0 }
}
