//! Arithmetic on lanes.

ghost use Rattle.std.specs.Prelude.{◌≡◌, ◌≤◌, ◌<◌, ◌+◌, ◌-◌, ◌*◌, ◌/◌, ◌%◌, ◌^◌, ◌<ℤ◌, neg_ℤ, pos, FitsSigned};
ghost use Rattle.std.specs.Int.{w32};
ghost use Rattle.orc_bits.specs.Numbers.{signed, wrap};
ghost use Rattle.x86_ins.specs.Vectors.{add_wrap, sub_wrap, add_s, sub_s, add_u, average, equal, greater_s, min_s, max_s};
ghost use Rattle.x86_ins.specs.Vectors.{mul_low, mul_high_s, mul_high_u, mul_pair, mul_pair_s, absolute};
ghost use Rattle.x86_vector.specs.Forms.{bytes_of, lane_fn, word_fn, bit_fn};

use crate::forms::{BitFn, LaneFn, WordFn};
use crate::width::{Width, bits, low_bits, mask, modulus};
use orc_bits::{clamp_s, signed};

/// The sum, modulo 2^w for lanes of w bits.
fn add_wrap(w: Width, a: u64, b: u64) -> u64
    ensures { result ≡ add_wrap (8 * bytes_of w) a b }
{
    low_bits(w, a.wrapping_add(b))
}

/// The difference, modulo 2^w for lanes of w bits.
fn sub_wrap(w: Width, a: u64, b: u64) -> u64
    requires second { b < 2 ^ (8 * bytes_of w) }
    ensures { result ≡ sub_wrap (8 * bytes_of w) a b }
{
    low_bits(w, a.wrapping_sub(b))
}

/// A lane as a signed number.
fn signed_lane(w: Width, a: u64) -> i128
    requires { a < 2 ^ (8 * bytes_of w) }
    ensures value { result ≡ signed (8 * bytes_of w) a }
    ensures low { neg_ℤ (pos (2 ^ 64)) <ℤ result }
    ensures high { result <ℤ pos (2 ^ 64) }
{
    i128::from(signed(a, bits(w)))
}

/// The signed sum, clamped.
fn add_signed(w: Width, a: u64, b: u64) -> u64
    requires first { a < 2 ^ (8 * bytes_of w) }
    requires second { b < 2 ^ (8 * bytes_of w) }
    ensures { result ≡ add_s (8 * bytes_of w) a b }
{
    clamp_s(signed_lane(w, a) + signed_lane(w, b), bits(w))
}

/// The signed difference, clamped.
fn sub_signed(w: Width, a: u64, b: u64) -> u64
    requires first { a < 2 ^ (8 * bytes_of w) }
    requires second { b < 2 ^ (8 * bytes_of w) }
    ensures { result ≡ sub_s (8 * bytes_of w) a b }
{
    clamp_s(signed_lane(w, a) - signed_lane(w, b), bits(w))
}

/// The unsigned sum, clamped.
fn add_unsigned(w: Width, a: u64, b: u64) -> u64
    ensures { result ≡ add_u (8 * bytes_of w) a b }
{
    (u128::from(a) + u128::from(b)).min(modulus(w) - 1) as u64
}

/// The average, rounded up at a half.
fn average(w: Width, a: u64, b: u64) -> u64
    ensures { result ≡ average (8 * bytes_of w) a b }
{
    ((u128::from(a) + u128::from(b) + 1) / 2) as u64
}

/// All ones where the first is greater as a signed number.
fn greater_signed(w: Width, a: u64, b: u64) -> u64
    requires first { a < 2 ^ (8 * bytes_of w) }
    requires second { b < 2 ^ (8 * bytes_of w) }
    ensures { result ≡ greater_s (8 * bytes_of w) a b }
{
    mask(w, signed_lane(w, b) < signed_lane(w, a))
}

/// The lesser signed number.
fn min_signed(w: Width, a: u64, b: u64) -> u64
    requires first { a < 2 ^ (8 * bytes_of w) }
    requires second { b < 2 ^ (8 * bytes_of w) }
    ensures { result ≡ min_s (8 * bytes_of w) a b }
{
    if signed_lane(w, b) < signed_lane(w, a) {
        b
    } else {
        a
    }
}

/// The greater signed number.
fn max_signed(w: Width, a: u64, b: u64) -> u64
    requires first { a < 2 ^ (8 * bytes_of w) }
    requires second { b < 2 ^ (8 * bytes_of w) }
    ensures { result ≡ max_s (8 * bytes_of w) a b }
{
    if signed_lane(w, b) < signed_lane(w, a) {
        a
    } else {
        b
    }
}

/// The absolute value, modulo 2^w for lanes of w bits.
fn absolute(w: Width, b: u64) -> u64
    requires { b < 2 ^ (8 * bytes_of w) }
    ensures { result ≡ absolute (8 * bytes_of w) b b }
{
    let half = modulus(w) / 2;
    let v = u128::from(b);
    if v < half { b } else { (modulus(w) - v) as u64 }
}

/// A function of two lanes.
pub fn lane_value(f: LaneFn, w: Width, a: u64, b: u64) -> u64
    requires first { a < 2 ^ (8 * bytes_of w) }
    requires second { b < 2 ^ (8 * bytes_of w) }
    ensures { result ≡ lane_fn f (8 * bytes_of w) a b }
{
    match f {
        LaneFn::AddWrap => add_wrap(w, a, b),
        LaneFn::SubWrap => sub_wrap(w, a, b),
        LaneFn::AddSigned => add_signed(w, a, b),
        LaneFn::SubSigned => sub_signed(w, a, b),
        LaneFn::AddUnsigned => add_unsigned(w, a, b),
        LaneFn::SubUnsigned => a.saturating_sub(b),
        LaneFn::Average => average(w, a, b),
        LaneFn::MinUnsigned => a.min(b),
        LaneFn::MaxUnsigned => a.max(b),
        LaneFn::Equal => mask(w, a == b),
        LaneFn::GreaterSigned => greater_signed(w, a, b),
        LaneFn::MinSigned => min_signed(w, a, b),
        LaneFn::MaxSigned => max_signed(w, a, b),
        LaneFn::Absolute => absolute(w, b),
    }
}

/// A signed number of 32 bits, modulo 2^32.
fn wrapped(v: i64) -> u64
    requires { FitsSigned w32 v }
    ensures { result ≡ wrap 32 v }
{
    if v < 0 {
        (v + 0x1_0000_0000) as u64
    } else {
        v as u64
    }
}

/// The high half of the signed product of two words.
fn mul_high_signed(a: u64, b: u64) -> u64
    requires first { a < 2 ^ 16 }
    requires second { b < 2 ^ 16 }
    ensures { result ≡ mul_high_s 16 a b }
{
    wrapped(signed(a, 16) * signed(b, 16)) / 0x1_0000
}

/// A function of two words.
pub fn word_value(f: WordFn, a: u64, b: u64) -> u64
    requires first { a < 2 ^ 16 }
    requires second { b < 2 ^ 16 }
    ensures { result ≡ word_fn f 16 a b }
{
    match f {
        WordFn::MulLow => a * b % 0x1_0000,
        WordFn::MulHighSigned => mul_high_signed(a, b),
        WordFn::MulHighUnsigned => a * b / 0x1_0000,
    }
}

/// The product of the low doublewords of two quadwords.
pub fn product(a: u64, b: u64) -> u64
    ensures { result ≡ mul_pair a b }
{
    a % 0x1_0000_0000 * (b % 0x1_0000_0000)
}

/// The low half of the product of two doublewords.
pub fn low_product(a: u64, b: u64) -> u64
    requires first { a < 2 ^ 32 }
    requires second { b < 2 ^ 32 }
    ensures { result ≡ mul_low 32 a b }
{
    a * b % 0x1_0000_0000
}

/// A signed number of 64 bits, modulo 2^64.
fn wrapped_64(v: i64) -> u64
    ensures { result ≡ wrap 64 v }
{
    if v < 0 {
        (i128::from(v) + 0x1_0000_0000_0000_0000) as u64
    } else {
        v as u64
    }
}

/// The product of the low signed doublewords of two quadwords.
pub fn signed_product(a: u64, b: u64) -> u64
    ensures { result ≡ mul_pair_s a b }
{
    wrapped_64(signed(a % 0x1_0000_0000, 32) * signed(b % 0x1_0000_0000, 32))
}

/// A function of the bits of two bytes.
pub fn bit_value(f: BitFn, a: u64, b: u64) -> u64
    requires first { a < 256 }
    ensures { result ≡ bit_fn f 8 a b }
{
    match f {
        BitFn::And => a & b,
        BitFn::Or => a | b,
        BitFn::Xor => a ^ b,
        BitFn::Andn => (255 - a) & b,
        BitFn::Second => b,
    }
}
