//! Lanes that move, and sums of distances.

ghost use Rattle.std.specs.Prelude.{◌≡◌, if◌then◌else◌, ◌≤◌, ◌<◌, ◌+◌, ◌-◌, ◌*◌, ◌/◌, ◌%◌, ◌^◌};
ghost use Rattle.orc_bits.specs.Lanes.{lane};
ghost use Rattle.x86_ins.specs.Vectors.{lane_of, interleaved, distance, distance_sum};
ghost use Rattle.x86_vector.specs.Forms.{bytes_of, lane_in};

use crate::forms::Form;
use crate::width::{Width, size};
use orc_bits::lane::lane_at;

/// The place of lane q's source in an interleave.
fn interleave_place(w: Width, high: bool, q: usize) -> usize
    requires { q * bytes_of w + bytes_of w ≤ 16 }
    ensures value { result ≡ q / 2 + (if high then 1 else 0) * (8 / bytes_of w) }
    ensures inside { result * bytes_of w + bytes_of w ≤ 16 }
{
    match w {
        Width::One => if high { q / 2 + 8 } else { q / 2 },
        Width::Two => if high { q / 2 + 4 } else { q / 2 },
        Width::Four => if high { q / 2 + 2 } else { q / 2 },
        Width::Eight => if high { q / 2 + 1 } else { q / 2 },
    }
}

/// A lane of an interleave.
pub fn interleave_lane(w: Width, high: bool, x: &[u8; 16], y: &[u8; 16], q: usize) -> u64
    requires { q * bytes_of w + bytes_of w ≤ 16 }
    ensures { result ≡ lane_of (interleaved (bytes_of w) (if high then 1 else 0)) x.now y.now q }
{
    let place = interleave_place(w, high, q);
    if q % 2 == 0 {
        lane_at(x, size(w), place)
    } else {
        lane_at(y, size(w), place)
    }
}

/// Lane k's choice in an order: two bits of it.
fn choice(order: u8, k: usize) -> usize
    requires { k < 4 }
    ensures value { result ≡ order / 4 ^ k % 4 }
    ensures few { result < 4 }
{
    usize::from((order >> (2 * k)) % 4)
}

/// Doubleword q of a shuffle of doublewords.
pub fn doubleword(y: &[u8; 16], order: u8, q: usize) -> u64
    requires { q < 4 }
    ensures { result ≡ lane_in (Form.Doublewords order) y.now y.now q }
{
    lane_at(y, 4, choice(order, q))
}

/// Word q of a shuffle of the low words.
pub fn low_word(y: &[u8; 16], order: u8, q: usize) -> u64
    requires { q < 8 }
    ensures { result ≡ lane_in (Form.LowWords order) y.now y.now q }
{
    if q < 4 {
        lane_at(y, 2, choice(order, q))
    } else {
        lane_at(y, 2, q)
    }
}

/// Word q of a shuffle of the high words.
pub fn high_word(y: &[u8; 16], order: u8, q: usize) -> u64
    requires { q < 8 }
    ensures { result ≡ lane_in (Form.HighWords order) y.now y.now q }
{
    if q < 4 {
        lane_at(y, 2, q)
    } else {
        lane_at(y, 2, 4 + choice(order, q - 4))
    }
}

/// The sum of the distances of eight bytes, those of quadword q.
pub fn distance_sum(x: &[u8; 16], y: &[u8; 16], q: usize) -> u64
    requires { q < 2 }
    ensures { result ≡ distance_sum x.now y.now (8 * q) 8 }
{
    let mut sum: u64 = 0;
    for k in 0..8 {
        let at = 8 * q + 7 - k;
        sum += lane_at(x, 1, at).abs_diff(lane_at(y, 1, at));
    }
    sum
}
