//! The elements that a far load reads, and its value.

ghost use Rattle.std.specs.Prelude.{◌≡◌, ◌≤◌, ◌<◌, ◌+◌, ◌-◌, ◌*◌, ◌^◌, ◌≤ℤ◌, pos, ◌+ℤ◌, ◌*ℤ◌};
ghost use Rattle.std.specs.Int.{int_shr};
ghost use Rattle.orc_bits.specs.Numbers as numbers;
ghost use Rattle.orc_ops.specs.Far.{far_size, far_blend, scalar, place, fraction, mixed, mixed_bytes};
ghost use Rattle.orc_ops.specs.Reach.{reach};

use crate::elements::Reach;
use crate::far::Far;
use orc_bits::signed;

/// The low 32 bits, read as a signed number.
fn scalar(p: u64) -> i64
    ensures value { result ≡ scalar p }
    ensures low { pos 0 ≤ℤ (result +ℤ pos (2 ^ 31)) }
    ensures high { result ≤ℤ pos (2 ^ 31 - 1) }
{
    signed(p, 32)
}

/// i * step, exactly: at most 2^63 away from 0.
fn stretched(i: u32, step: i64) -> i128
    requires low { pos 0 ≤ℤ (step +ℤ pos (2 ^ 31)) }
    requires high { step ≤ℤ pos (2 ^ 31 - 1) }
    ensures value { result ≡ pos i *ℤ step }
    ensures low { pos 0 ≤ℤ (result +ℤ pos (2 ^ 63)) }
    ensures high { result ≤ℤ pos (2 ^ 63) }
{
    i128::from(i) * i128::from(step)
}

/// p + i * q, exactly: at most 2^64 away from 0.
fn place(i: u32, p: u64, q: u64) -> i128
    ensures value { result ≡ place i p q }
    ensures low { pos 0 ≤ℤ (result +ℤ pos (2 ^ 64)) }
    ensures high { result ≤ℤ pos (2 ^ 64) }
{
    i128::from(scalar(p)) + stretched(i, scalar(q))
}

/// v / 2^k, rounded towards minus infinity.
fn shifted(v: i128, k: u32) -> i128
    requires { k < 64 }
    ensures { result ≡ int_shr v k }
{
    v >> k
}

/// The low 8 bits of an integer.
fn low_byte(v: i128) -> u8
    ensures { result ≡ numbers.wrap 8 v }
{
    if v >= 0 {
        (v % 256) as u8
    } else {
        (255 - (-1 - v) % 256) as u8
    }
}

/// Bits 8 to 15 of a place.
fn fraction(i: u32, p: u64, q: u64) -> u8
    ensures { result ≡ fraction i p q }
{
    low_byte(shifted(place(i, p, q), 8))
}

/// The same number in 64 bits.
fn narrow(v: i128) -> i64
    requires low { pos 0 ≤ℤ (v +ℤ pos (2 ^ 48)) }
    requires high { v ≤ℤ pos (2 ^ 48) }
    ensures { result ≡ v }
{
    v as i64
}

/// The element before a place.
fn floor(i: u32, p: u64, q: u64) -> i64
    ensures value { result ≡ int_shr (place i p q) 16 }
    ensures high { result ≤ℤ pos (2 ^ 48) }
{
    narrow(shifted(place(i, p, q), 16))
}

/// The elements that a far load reads for element `i`, in order. `p` and `q` are its scalars, of which the
/// low 32 bits count, read as a signed number; `p` is the offset of `Loadoff`.
pub fn reach(far: Far, i: u32, p: u64, q: u64) -> Reach
    ensures { result ≡ reach far i p q }
{
    match far {
        Far::Loadoffb | Far::Loadoffw | Far::Loadoffl => Reach {
            first: i as i64 + scalar(p),
            second: None,
            part: 0,
        },
        Far::Loadupdb => Reach {
            first: (i / 2) as i64,
            second: None,
            part: 0,
        },
        Far::Loadupib => Reach {
            first: (i / 2) as i64,
            second: if i % 2 == 0 {
                None
            } else {
                Some((i / 2 + 1) as i64)
            },
            part: 0,
        },
        Far::Ldresnearb | Far::Ldresnearl => Reach {
            first: floor(i, p, q),
            second: None,
            part: 0,
        },
        Far::Ldreslinb | Far::Ldreslinl => {
            let first = floor(i, p, q);
            Reach {
                first,
                second: Some(first + 1),
                part: fraction(i, p, q),
            }
        }
    }
}

/// ((256 - part) * x + part * y) >> 8.
fn mixed(part: u8, x: u64, y: u64) -> u64
    requires first { x < 2 ^ 8 }
    requires second { y < 2 ^ 8 }
    ensures value { result ≡ mixed part x y }
    ensures low { result < 2 ^ 8 }
{
    ((256 - part as u64) * x + part as u64 * y) / 256
}

/// The same in each of the four low bytes.
fn mixed4(part: u8, x: u64, y: u64) -> u64
    ensures { result ≡ mixed_bytes 4 part x y }
{
    let a = mixed(part, x % 256, y % 256);
    let b = mixed(part, x / 256 % 256, y / 256 % 256);
    let c = mixed(part, x / 256 / 256 % 256, y / 256 / 256 % 256);
    let d = mixed(part, x / 256 / 256 / 256 % 256, y / 256 / 256 / 256 % 256);
    a + 256 * (b + 256 * (c + 256 * d))
}

/// The value of a far load from the elements that it read, `x` before `y`, each below 2^(8 * size), and the share of the second.
/// One that reads a single element gives it as `x`; for even elements of `Loadupib` it is `y` too.
pub fn blend(far: Far, x: u64, y: u64, part: u8) -> u64
    requires first { x < 2 ^ (8 * far_size far) }
    requires second { y < 2 ^ (8 * far_size far) }
    ensures { result ≡ far_blend far x y part }
{
    match far {
        Far::Loadupib => (x + y + 1) / 2,
        Far::Ldreslinb => mixed(part, x % 256, y % 256),
        Far::Ldreslinl => mixed4(part, x, y),
        _ => x,
    }
}
