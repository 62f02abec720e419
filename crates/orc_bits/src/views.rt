//! Numbers at a width of 8, 16, 32 or 64 bits, in two's complement: cut, read as signed, and clamped.

ghost use Rattle.std.specs.Prelude.{◌≡◌, ◌<◌, ◌≤◌, ◌^◌, ◌%◌};
ghost use Rattle.orc_bits.specs.Widths.{IsWidth};
ghost use Rattle.orc_bits.specs.Numbers as numbers;

/// The low `w` bits of `v`: `v` modulo 2^w.
pub fn cut(v: u64, w: u32) -> u64
    requires { IsWidth w }
    ensures value { result ≡ numbers.cut w v }
    ensures low { result < 2 ^ w }
{
    match w {
        8 => v % 0x100,
        16 => v % 0x1_0000,
        32 => v % 0x1_0000_0000,
        _ => v,
    }
}

/// The signed reading of the low `w` bits of `v`: the integer from -2^(w-1) up to 2^(w-1) - 1 that has these bits.
pub fn signed(v: u64, w: u32) -> i64
    requires { IsWidth w }
    ensures value { result ≡ numbers.signed w (numbers.cut w v) }
    ensures small { v < 2 ^ w → result ≡ numbers.signed w v }
{
    let low = cut(v, w) as i128;
    let (half, whole) = match w {
        8 => (0x80, 0x100),
        16 => (0x8000, 0x1_0000),
        32 => (0x8000_0000, 0x1_0000_0000),
        _ => (0x8000_0000_0000_0000, 0x1_0000_0000_0000_0000),
    };
    if low < half {
        low as i64
    } else {
        (low - whole) as i64
    }
}

fn clamp_s8(v: i128) -> u64
    ensures { result ≡ numbers.clamp_s 8 v }
{
    if v >= 0x80 {
        0x7f
    } else if v >= 0 {
        v as u64
    } else if v >= -0x80 {
        (v + 0x100) as u64
    } else {
        0x80
    }
}

fn clamp_s16(v: i128) -> u64
    ensures { result ≡ numbers.clamp_s 16 v }
{
    if v >= 0x8000 {
        0x7fff
    } else if v >= 0 {
        v as u64
    } else if v >= -0x8000 {
        (v + 0x1_0000) as u64
    } else {
        0x8000
    }
}

fn clamp_s32(v: i128) -> u64
    ensures { result ≡ numbers.clamp_s 32 v }
{
    if v >= 0x8000_0000 {
        0x7fffffff
    } else if v >= 0 {
        v as u64
    } else if v >= -0x8000_0000 {
        (v + 0x1_0000_0000) as u64
    } else {
        0x8000_0000
    }
}

fn clamp_s64(v: i128) -> u64
    ensures { result ≡ numbers.clamp_s 64 v }
{
    if v >= 0x8000_0000_0000_0000 {
        0x7fffffffffffffff
    } else if v >= 0 {
        v as u64
    } else if v >= -0x8000_0000_0000_0000 {
        (v + 0x1_0000_0000_0000_0000) as u64
    } else {
        0x8000_0000_0000_0000
    }
}

/// The nearest integer to `v` from -2^(w-1) up to 2^(w-1) - 1, as its `w` bits.
pub fn clamp_s(v: i128, w: u32) -> u64
    requires { IsWidth w }
    ensures { result ≡ numbers.clamp_s w v }
{
    match w {
        8 => clamp_s8(v),
        16 => clamp_s16(v),
        32 => clamp_s32(v),
        _ => clamp_s64(v),
    }
}

/// The nearest integer to `v` from 0 up to 2^w - 1.
pub fn clamp_u(v: i128, w: u32) -> u64
    requires { IsWidth w }
    ensures { result ≡ numbers.clamp_u w v }
{
    let most: i128 = match w {
        8 => 0xff,
        16 => 0xffff,
        32 => 0xffff_ffff,
        _ => 0xffff_ffff_ffff_ffff,
    };
    if v < 0 {
        0
    } else if v > most {
        most as u64
    } else {
        v as u64
    }
}
