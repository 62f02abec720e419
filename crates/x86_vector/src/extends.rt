//! Lanes at twice their width.

ghost use Rattle.std.specs.Prelude.{◌≡◌, ◌≤◌, ◌<◌, ◌+◌, ◌*◌, ◌^◌};
ghost use Rattle.x86_ins.specs.Vectors.{lane_of, extended, sign_extended};
ghost use Rattle.x86_vector.specs.Forms.{half_of, extend_fn};

use crate::forms::Half;
use orc_bits::lane::lane_at;

/// The bytes of a lane before it is extended.
fn half_size(h: Half) -> usize
    ensures value { result ≡ half_of h }
    ensures some { 0 < result }
    ensures few { result ≤ 8 }
{
    match h {
        Half::Byte => 1,
        Half::Word => 2,
        Half::Doubleword => 4,
    }
}

/// A lane with its sign.
fn with_sign(h: Half, v: u64) -> u64
    requires { v < 2 ^ (8 * half_of h) }
    ensures { result ≡ sign_extended (8 * half_of h) v }
{
    match h {
        Half::Byte => if v < 0x80 { v } else { v + 0xff00 },
        Half::Word => if v < 0x8000 { v } else { v + 0xffff_0000 },
        Half::Doubleword => if v < 0x8000_0000 {
            v
        } else {
            v + 0xffff_ffff_0000_0000
        },
    }
}

/// A lane of the low half of a register at twice its width.
pub fn extended_lane(h: Half, sign: bool, y: &[u8; 16], q: usize) -> u64
    requires { q * (half_of h + half_of h) + (half_of h + half_of h) ≤ 16 }
    ensures { result ≡ lane_of (extended (half_of h) (extend_fn sign)) y.now y.now q }
{
    let v = lane_at(y, half_size(h), q);
    if sign { with_sign(h, v) } else { v }
}
