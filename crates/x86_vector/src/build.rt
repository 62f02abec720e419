//! Results, lane by lane.

ghost use Rattle.std.specs.Prelude.{◌≡◌, ℕ, ◌≤◌, ◌<◌, ◌+◌, ◌*◌, ◌/◌, ◌%◌, ◌^◌, get_or};
ghost use Rattle.x86_ins.specs.Vectors.{shape, result_of, imm_shape, imm_result, shuffle_result};
ghost use Rattle.x86_vector.specs.Forms.{bytes_of, width_in, lane_in, result_in};

use crate::arithmetic::{bit_value, lane_value, low_product, product, signed_product, word_value};
use crate::extends::extended_lane;
use crate::forms::{Form, Half, PackFn};
use crate::packs::pack_lane;
use crate::select::{form, shift_form, shuffle_form};
use crate::shifts::{byte_from_above, byte_from_below, shift_value};
use crate::shuffles::{distance_sum, doubleword, high_word, interleave_lane, low_word};
use crate::width::{Width, size};
use orc_bits::lane::{byte_at, lane_at};
use x86_ins::{ShuffleOp, VecImmOp, VecOp};

/// The width of a lane of the result.
fn width(f: Form) -> Width
    ensures { bytes_of result ≡ width_in f }
{
    match f {
        Form::Bits(_) => Width::One,
        Form::Each(_, w) => w,
        Form::Words(_) => Width::Two,
        Form::LowProducts => Width::Four,
        Form::Products => Width::Eight,
        Form::SignedProducts => Width::Eight,
        Form::Counted(_, w) => w,
        Form::Shifted(_, w, _) => w,
        Form::Interleaved(w, _) => w,
        Form::Packed(PackFn::SignedBytes) => Width::One,
        Form::Packed(PackFn::UnsignedBytes) => Width::One,
        Form::Packed(PackFn::SignedWords) => Width::Two,
        Form::Packed(PackFn::UnsignedWords) => Width::Two,
        Form::Extended(Half::Byte, _) => Width::Two,
        Form::Extended(Half::Word, _) => Width::Four,
        Form::Extended(Half::Doubleword, _) => Width::Eight,
        Form::Distances => Width::Eight,
        Form::BytesUp(_) => Width::One,
        Form::BytesDown(_) => Width::One,
        Form::Doublewords(_) => Width::Four,
        Form::LowWords(_) => Width::Two,
        Form::HighWords(_) => Width::Two,
    }
}

/// Lane q of the result.
fn lane(f: Form, x: &[u8; 16], y: &[u8; 16], q: usize) -> u64
    requires inside { q * width_in f + width_in f ≤ 16 }
    ensures { result ≡ lane_in f x.now y.now q }
{
    match f {
        Form::Bits(f) => bit_value(f, lane_at(x, 1, q), lane_at(y, 1, q)),
        Form::Each(f, w) => lane_value(f, w, lane_at(x, size(w), q), lane_at(y, size(w), q)),
        Form::Words(f) => word_value(f, lane_at(x, 2, q), lane_at(y, 2, q)),
        Form::LowProducts => low_product(lane_at(x, 4, q), lane_at(y, 4, q)),
        Form::Products => product(lane_at(x, 8, q), lane_at(y, 8, q)),
        Form::SignedProducts => signed_product(lane_at(x, 8, q), lane_at(y, 8, q)),
        Form::Counted(f, w) => shift_value(f, w, lane_at(x, size(w), q), lane_at(y, 8, 0)),
        Form::Shifted(f, w, count) => shift_value(f, w, lane_at(x, size(w), q), u64::from(count)),
        Form::Interleaved(w, high) => interleave_lane(w, high, x, y, q),
        Form::Packed(f) => pack_lane(f, x, y, q),
        Form::Extended(h, sign) => extended_lane(h, sign, y, q),
        Form::Distances => distance_sum(x, y, q),
        Form::BytesUp(count) => byte_from_below(x, count, q),
        Form::BytesDown(count) => byte_from_above(x, count, q),
        Form::Doublewords(order) => doubleword(y, order, q),
        Form::LowWords(order) => low_word(y, order, q),
        Form::HighWords(order) => high_word(y, order, q),
    }
}

/// Writes lane q, of w bytes, and no other byte.
fn put_lane(out: &mut [u8; 16], w: usize, q: usize, v: u64)
    requires few { w ≤ 8 }
    requires inside { q * w + w ≤ 16 }
    ensures here { (k : ℕ) → k < w → get_or out.new (q * w + k) 0 ≡ v / 256 ^ k % 256 }
    ensures below { (j : ℕ) → j < q * w → get_or out.new j 0 ≡ get_or out.old j 0 }
{
    for k in 0..w {
        out[q * w + k] = byte_at(v, k);
    }
}

/// The result, lane by lane.
fn build(f: Form, x: &[u8; 16], y: &[u8; 16]) -> [u8; 16]
    ensures { result ≡ result_in f x.now y.now }
{
    let w = size(width(f));
    let mut out = [0; 16];
    for q in 0..16 / w {
        put_lane(&mut out, w, q, lane(f, x, y, q));
    }
    out
}

/// What a vector operation makes of its first operand, which is the destination's register, and its second.
///
/// A shift takes its count from the low quadword of the second operand. Each operation's page is in the Intel SDM, volume
/// 2B; the definition `shape` of the instructions' crate names it.
pub fn vec_result(op: VecOp, x: &[u8; 16], y: &[u8; 16]) -> [u8; 16]
    ensures { result ≡ result_of (shape op) x.now y.now }
{
    build(form(op), x, y)
}

/// What a shift by a count makes of a register. A count that passes the width of a lane gives 0, or the sign in every
/// bit.
pub fn shift_result(op: VecImmOp, count: u8, x: &[u8; 16]) -> [u8; 16]
    ensures { result ≡ imm_result (imm_shape op) count x.now }
{
    build(shift_form(op, count), x, x)
}

/// What a shuffle makes of a register: lane k of those that move comes from the place in bits 2k and 2k + 1 of the order.
pub fn shuffle_result(op: ShuffleOp, order: u8, y: &[u8; 16]) -> [u8; 16]
    ensures { result ≡ shuffle_result op order y.now }
{
    build(shuffle_form(op, order), y, y)
}
