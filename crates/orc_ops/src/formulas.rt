//! The formula of each stem.

ghost use Rattle.std.specs.Prelude.{◌≡◌, ◌<◌, ◌≤◌, ◌+◌, ◌*◌, ◌/◌, ◌%◌, ◌^◌, pos, ◌+ℤ◌, ◌-ℤ◌, ◌*ℤ◌};
ghost use Rattle.std.specs.Int.{int_shr};
ghost use Rattle.orc_bits.specs.Widths.{IsWidth};
ghost use Rattle.orc_bits.specs.Numbers as numbers;
ghost use Rattle.orc_ops.specs.Stems.{reversed};
ghost use Rattle.orc_ops.specs.Stems as stems;
ghost use Rattle.orc_ops.specs.Widths.{Takes, TakesSecond};

use crate::stem::Stem;
use orc_bits::{clamp_s, clamp_u, cut, signed};

/// A number of w bits that are all ones.
fn ones(w: u32) -> u64
    requires { IsWidth w }
    ensures { result ≡ stems.ones w }
{
    match w {
        8 => 0xff,
        16 => 0xffff,
        32 => 0xffff_ffff,
        _ => u64::MAX,
    }
}

// ---- exact integers

/// The signed reading of a number of w bits.
fn read(a: u64, w: u32) -> i64
    requires width { IsWidth w }
    requires small { a < 2 ^ w }
    ensures { result ≡ numbers.signed w a }
{
    signed(a, w)
}

fn widened(x: i64) -> i128
    ensures { result ≡ x }
{
    x as i128
}

fn sum(x: i64, y: i64) -> i128
    ensures { result ≡ x +ℤ y }
{
    x as i128 + y as i128
}

fn sum_and_one(x: i64, y: i64) -> i128
    ensures { result ≡ x +ℤ y +ℤ pos 1 }
{
    x as i128 + y as i128 + 1
}

fn difference(x: i64, y: i64) -> i128
    ensures { result ≡ x -ℤ y }
{
    x as i128 - y as i128
}

fn unsigned_difference(x: u64, y: u64) -> i128
    ensures { result ≡ pos x -ℤ pos y }
{
    x as i128 - y as i128
}

fn product(x: i64, y: i64) -> i128
    ensures { result ≡ x *ℤ y }
{
    x as i128 * y as i128
}

/// v / 2^k, rounded towards minus infinity.
fn shifted(v: i128, k: u32) -> i128
    requires { k < 128 }
    ensures { result ≡ int_shr v k }
{
    v >> k
}

/// The low 64 bits of an integer.
fn low_bits(v: i128) -> u64
    ensures { result ≡ numbers.wrap 64 v }
{
    if v >= 0 {
        (v as u128 % 0x1_0000_0000_0000_0000) as u64
    } else {
        (0x1_0000_0000_0000_0000 - 1 - (-1 - v) as u128 % 0x1_0000_0000_0000_0000) as u64
    }
}

/// The low w bits of an integer.
fn wrap(v: i128, w: u32) -> u64
    requires { IsWidth w }
    ensures { result ≡ numbers.wrap w v }
{
    cut(low_bits(v), w)
}

// ---- bytes in reverse order

fn reversed2(a: u64) -> u64
    ensures { result ≡ reversed 2 a }
{
    a % 256 * 0x100 + a / 256 % 256
}

fn reversed4(a: u64) -> u64
    ensures { result ≡ reversed 4 a }
{
    let b = a / 256;
    let c = b / 256;
    let d = c / 256;
    a % 256 * 0x100_0000 + (b % 256 * 0x1_0000 + (c % 256 * 0x100 + d % 256))
}

fn reversed8(a: u64) -> u64
    ensures { result ≡ reversed 8 a }
{
    let b = a / 256;
    let c = b / 256;
    let d = c / 256;
    let e = d / 256;
    let f = e / 256;
    let g = f / 256;
    let h = g / 256;
    a % 256 * 0x100_0000_0000_0000
        + (b % 256 * 0x1_0000_0000_0000
            + (c % 256 * 0x100_0000_0000
                + (d % 256 * 0x1_0000_0000
                    + (e % 256 * 0x100_0000 + (f % 256 * 0x1_0000 + (g % 256 * 0x100 + h % 256))))))
}

// ---- the first result of each stem, from sources of w bits to t bits

fn abs_of(w: u32, t: u32, a: u64) -> u64
    requires wide { IsWidth w }
    requires to { IsWidth t }
    requires a { a < 2 ^ w }
    ensures { result ≡ (stems.apply Stem.Abs w t a 0).0 }
{
    cut(read(a, w).unsigned_abs(), t)
}

fn add_of(t: u32, a: u64, b: u64) -> u64
    requires { IsWidth t }
    ensures { result ≡ (stems.apply Stem.Add 64 t a b).0 }
{
    cut(a.wrapping_add(b), t)
}

fn addss_of(w: u32, t: u32, a: u64, b: u64) -> u64
    requires wide { IsWidth w }
    requires to { IsWidth t }
    requires a { a < 2 ^ w }
    requires b { b < 2 ^ w }
    ensures { result ≡ (stems.apply Stem.Addss w t a b).0 }
{
    clamp_s(sum(read(a, w), read(b, w)), t)
}

fn addus_of(t: u32, a: u64, b: u64) -> u64
    requires { IsWidth t }
    ensures { result ≡ (stems.apply Stem.Addus 64 t a b).0 }
{
    clamp_u((a as u128 + b as u128) as i128, t)
}

fn andn_of(w: u32, a: u64, b: u64) -> u64
    requires wide { IsWidth w }
    requires a { a < 2 ^ w }
    requires b { b < 2 ^ w }
    ensures { result ≡ (stems.apply Stem.Andn w 64 a b).0 }
{
    (ones(w) - a) & b
}

fn avgs_of(w: u32, t: u32, a: u64, b: u64) -> u64
    requires wide { IsWidth w }
    requires to { IsWidth t }
    requires a { a < 2 ^ w }
    requires b { b < 2 ^ w }
    ensures { result ≡ (stems.apply Stem.Avgs w t a b).0 }
{
    wrap(shifted(sum_and_one(read(a, w), read(b, w)), 1), t)
}

fn avgu_of(t: u32, a: u64, b: u64) -> u64
    requires { IsWidth t }
    ensures { result ≡ (stems.apply Stem.Avgu 64 t a b).0 }
{
    cut(((a as u128 + b as u128 + 1) / 2) as u64, t)
}

fn cmpeq_of(t: u32, a: u64, b: u64) -> u64
    requires { IsWidth t }
    ensures { result ≡ (stems.apply Stem.Cmpeq 64 t a b).0 }
{
    if a == b { ones(t) } else { 0 }
}

fn cmpgts_of(w: u32, t: u32, a: u64, b: u64) -> u64
    requires wide { IsWidth w }
    requires to { IsWidth t }
    requires a { a < 2 ^ w }
    requires b { b < 2 ^ w }
    ensures { result ≡ (stems.apply Stem.Cmpgts w t a b).0 }
{
    if read(b, w) < read(a, w) { ones(t) } else { 0 }
}

fn maxs_of(w: u32, a: u64, b: u64) -> u64
    requires wide { IsWidth w }
    requires a { a < 2 ^ w }
    requires b { b < 2 ^ w }
    ensures { result ≡ (stems.apply Stem.Maxs w 64 a b).0 }
{
    if read(a, w) < read(b, w) { b } else { a }
}

fn mins_of(w: u32, a: u64, b: u64) -> u64
    requires wide { IsWidth w }
    requires a { a < 2 ^ w }
    requires b { b < 2 ^ w }
    ensures { result ≡ (stems.apply Stem.Mins w 64 a b).0 }
{
    if read(b, w) < read(a, w) { b } else { a }
}

fn mull_of(t: u32, a: u64, b: u64) -> u64
    requires { IsWidth t }
    ensures { result ≡ (stems.apply Stem.Mull 64 t a b).0 }
{
    cut(a.wrapping_mul(b), t)
}

fn mulhs_of(w: u32, t: u32, a: u64, b: u64) -> u64
    requires wide { IsWidth w }
    requires to { IsWidth t }
    requires a { a < 2 ^ w }
    requires b { b < 2 ^ w }
    ensures { result ≡ (stems.apply Stem.Mulhs w t a b).0 }
{
    wrap(shifted(product(read(a, w), read(b, w)), w), t)
}

fn mulhu_of(w: u32, t: u32, a: u64, b: u64) -> u64
    requires wide { IsWidth w }
    requires to { IsWidth t }
    requires a { a < 2 ^ w }
    requires b { b < 2 ^ w }
    ensures { result ≡ (stems.apply Stem.Mulhu w t a b).0 }
{
    cut(((a as u128 * b as u128) >> w) as u64, t)
}

fn shl_of(w: u32, t: u32, a: u64, b: u64) -> u64
    requires wide { IsWidth w }
    requires to { IsWidth t }
    requires a { a < 2 ^ w }
    ensures { result ≡ (stems.apply Stem.Shl w t a b).0 }
{
    if b < w as u64 { cut(a << b, t) } else { 0 }
}

fn shrs_of(w: u32, t: u32, a: u64, b: u64) -> u64
    requires wide { IsWidth w }
    requires to { IsWidth t }
    requires a { a < 2 ^ w }
    ensures { result ≡ (stems.apply Stem.Shrs w t a b).0 }
{
    let count = b.min(w as u64 - 1) as u32;
    wrap(shifted(widened(read(a, w)), count), t)
}

fn shru_of(w: u32, a: u64, b: u64) -> u64
    requires wide { IsWidth w }
    requires a { a < 2 ^ w }
    ensures { result ≡ (stems.apply Stem.Shru w 64 a b).0 }
{
    if b < w as u64 { a >> b } else { 0 }
}

fn sign_of(w: u32, t: u32, a: u64) -> u64
    requires wide { IsWidth w }
    requires to { IsWidth t }
    requires a { a < 2 ^ w }
    ensures { result ≡ (stems.apply Stem.Sign w t a 0).0 }
{
    wrap(widened(read(a, w).signum()), t)
}

fn sub_of(t: u32, a: u64, b: u64) -> u64
    requires { IsWidth t }
    ensures { result ≡ (stems.apply Stem.Sub 64 t a b).0 }
{
    wrap(unsigned_difference(a, b), t)
}

fn subss_of(w: u32, t: u32, a: u64, b: u64) -> u64
    requires wide { IsWidth w }
    requires to { IsWidth t }
    requires a { a < 2 ^ w }
    requires b { b < 2 ^ w }
    ensures { result ≡ (stems.apply Stem.Subss w t a b).0 }
{
    clamp_s(difference(read(a, w), read(b, w)), t)
}

fn subus_of(t: u32, a: u64, b: u64) -> u64
    requires { IsWidth t }
    ensures { result ≡ (stems.apply Stem.Subus 64 t a b).0 }
{
    clamp_u(unsigned_difference(a, b), t)
}

fn convs_of(w: u32, t: u32, a: u64) -> u64
    requires wide { IsWidth w }
    requires to { IsWidth t }
    requires a { a < 2 ^ w }
    ensures { result ≡ (stems.apply Stem.Convs w t a 0).0 }
{
    wrap(widened(read(a, w)), t)
}

fn splat_of(w: u32, t: u32, a: u64) -> u64
    requires wide { IsWidth w }
    requires to { IsWidth t }
    requires takes { Takes Stem.Splat w t }
    requires a { a < 2 ^ w }
    ensures { result ≡ (stems.apply Stem.Splat w t a 0).0 }
{
    match t {
        8 => a,
        16 => a * 0x101,
        _ => a * 0x101_0101,
    }
}

fn splatw3_of(a: u64) -> u64
    ensures { result ≡ (stems.apply Stem.Splatw3 64 64 a 0).0 }
{
    (a >> 48) * 0x1_0001_0001_0001
}

fn high_of(w: u32, t: u32, a: u64) -> u64
    requires wide { IsWidth w }
    requires to { IsWidth t }
    requires takes { Takes Stem.High w t }
    requires a { a < 2 ^ w }
    ensures { result ≡ (stems.apply Stem.High w t a 0).0 }
{
    a >> t
}

fn convsss_of(w: u32, t: u32, a: u64) -> u64
    requires wide { IsWidth w }
    requires to { IsWidth t }
    requires a { a < 2 ^ w }
    ensures { result ≡ (stems.apply Stem.Convsss w t a 0).0 }
{
    clamp_s(widened(read(a, w)), t)
}

fn convsus_of(w: u32, t: u32, a: u64) -> u64
    requires wide { IsWidth w }
    requires to { IsWidth t }
    requires a { a < 2 ^ w }
    ensures { result ≡ (stems.apply Stem.Convsus w t a 0).0 }
{
    clamp_u(widened(read(a, w)), t)
}

fn convuss_of(t: u32, a: u64) -> u64
    requires { IsWidth t }
    ensures { result ≡ (stems.apply Stem.Convuss 64 t a 0).0 }
{
    clamp_s(a as i128, t)
}

fn convuus_of(t: u32, a: u64) -> u64
    requires { IsWidth t }
    ensures { result ≡ (stems.apply Stem.Convuus 64 t a 0).0 }
{
    clamp_u(a as i128, t)
}

fn muls_of(w: u32, t: u32, a: u64, b: u64) -> u64
    requires wide { IsWidth w }
    requires to { IsWidth t }
    requires a { a < 2 ^ w }
    requires b { b < 2 ^ w }
    ensures { result ≡ (stems.apply Stem.Muls w t a b).0 }
{
    wrap(product(read(a, w), read(b, w)), t)
}

fn merge_of(w: u32, t: u32, a: u64, b: u64) -> u64
    requires wide { IsWidth w }
    requires to { IsWidth t }
    requires takes { Takes Stem.Merge w t }
    requires a { a < 2 ^ w }
    requires b { b < 2 ^ w }
    ensures { result ≡ (stems.apply Stem.Merge w t a b).0 }
{
    match w {
        8 => a + b * 0x100,
        16 => a + b * 0x1_0000,
        _ => a + b * 0x1_0000_0000,
    }
}

fn swap_of(w: u32, t: u32, a: u64) -> u64
    requires wide { IsWidth w }
    requires to { IsWidth t }
    requires takes { Takes Stem.Swap w t }
    requires a { a < 2 ^ w }
    ensures { result ≡ (stems.apply Stem.Swap w t a 0).0 }
{
    match w {
        16 => reversed2(a),
        32 => reversed4(a),
        _ => reversed8(a),
    }
}

fn exchange_of(w: u32, t: u32, a: u64) -> u64
    requires wide { IsWidth w }
    requires to { IsWidth t }
    requires takes { Takes Stem.Exchange w t }
    requires a { a < 2 ^ w }
    ensures { result ≡ (stems.apply Stem.Exchange w t a 0).0 }
{
    match w {
        32 => a % 0x1_0000 * 0x1_0000 + a / 0x1_0000,
        _ => a % 0x1_0000_0000 * 0x1_0000_0000 + a / 0x1_0000_0000,
    }
}

fn div255_of(w: u32, t: u32, a: u64) -> u64
    requires wide { IsWidth w }
    requires to { IsWidth t }
    requires takes { Takes Stem.Div255 w t }
    requires a { a < 2 ^ w }
    ensures { result ≡ (stems.apply Stem.Div255 w t a 0).0 }
{
    let x = (a + 128) % 0x1_0000;
    (x + x / 0x100) % 0x1_0000 / 0x100
}

fn divlu_of(a: u64, b: u64) -> u64
    ensures { result ≡ (stems.apply Stem.Divlu 64 64 a b).0 }
{
    match b % 256 {
        0 => 255,
        d => (a / d).min(255),
    }
}

fn accsad_of(t: u32, a: u64, b: u64) -> u64
    requires { IsWidth t }
    ensures { result ≡ (stems.apply Stem.Accsad 64 t a b).0 }
{
    cut(a.abs_diff(b), t)
}

/// The two results of a stem on sources of w bits, or on one and a count; the first result has t bits.
pub(crate) fn apply(stem: Stem, w: u32, t: u32, a: u64, b: u64) -> (u64, u64)
    requires wide { IsWidth w }
    requires to { IsWidth t }
    requires takes { Takes stem w t }
    requires a { a < 2 ^ w }
    requires b { TakesSecond stem w b }
    ensures { result ≡ stems.apply stem w t a b }
{
    match stem {
        Stem::Abs => (abs_of(w, t, a), 0),
        Stem::Accsad => (accsad_of(t, a, b), 0),
        Stem::Add => (add_of(t, a, b), 0),
        Stem::Addss => (addss_of(w, t, a, b), 0),
        Stem::Addus => (addus_of(t, a, b), 0),
        Stem::And => (a & b, 0),
        Stem::Andn => (andn_of(w, a, b), 0),
        Stem::Avgs => (avgs_of(w, t, a, b), 0),
        Stem::Avgu => (avgu_of(t, a, b), 0),
        Stem::Cmpeq => (cmpeq_of(t, a, b), 0),
        Stem::Cmpgts => (cmpgts_of(w, t, a, b), 0),
        Stem::Convs => (convs_of(w, t, a), 0),
        Stem::Convsss => (convsss_of(w, t, a), 0),
        Stem::Convsus => (convsus_of(w, t, a), 0),
        Stem::Convuss => (convuss_of(t, a), 0),
        Stem::Convuus => (convuus_of(t, a), 0),
        Stem::Copy => (a, 0),
        Stem::Div255 => (div255_of(w, t, a), 0),
        Stem::Divlu => (divlu_of(a, b), 0),
        Stem::Exchange => (exchange_of(w, t, a), 0),
        Stem::High => (high_of(w, t, a), 0),
        Stem::Low => (cut(a, t), 0),
        Stem::Maxs => (maxs_of(w, a, b), 0),
        Stem::Maxu => (a.max(b), 0),
        Stem::Merge => (merge_of(w, t, a, b), 0),
        Stem::Mins => (mins_of(w, a, b), 0),
        Stem::Minu => (a.min(b), 0),
        Stem::Mulhs => (mulhs_of(w, t, a, b), 0),
        Stem::Mulhu => (mulhu_of(w, t, a, b), 0),
        Stem::Mull => (mull_of(t, a, b), 0),
        Stem::Muls => (muls_of(w, t, a, b), 0),
        Stem::Mulu => (mull_of(t, a, b), 0),
        Stem::Or => (a | b, 0),
        Stem::Shl => (shl_of(w, t, a, b), 0),
        Stem::Shrs => (shrs_of(w, t, a, b), 0),
        Stem::Shru => (shru_of(w, a, b), 0),
        Stem::Sign => (sign_of(w, t, a), 0),
        Stem::Splat => (splat_of(w, t, a), 0),
        Stem::Splatw3 => (splatw3_of(a), 0),
        Stem::Split => (high_of(w, t, a), cut(a, t)),
        Stem::Sub => (sub_of(t, a, b), 0),
        Stem::Subss => (subss_of(w, t, a, b), 0),
        Stem::Subus => (subus_of(t, a, b), 0),
        Stem::Swap => (swap_of(w, t, a), 0),
        Stem::Xor => (a ^ b, 0),
    }
}
