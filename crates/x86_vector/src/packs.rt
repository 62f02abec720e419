//! Packs of signed lanes into lanes of half the width.

ghost use Rattle.std.specs.Prelude.{◌≡◌, if◌then◌else◌, ◌≤◌, ◌<◌, ◌+◌, ◌-◌, ◌*◌, ◌/◌, ◌%◌, ◌^◌, nat_lt};
ghost use Rattle.orc_bits.specs.Lanes.{lane};
ghost use Rattle.orc_bits.specs.Numbers.{signed};
ghost use Rattle.x86_ins.specs.Vectors.{lane_of, packed};
ghost use Rattle.x86_vector.specs.Forms.{pack_width, pack_fn};

use crate::forms::PackFn;
use orc_bits::lane::lane_at;
use orc_bits::{clamp_s, clamp_u, signed};

/// A signed lane of a register that is to be packed.
fn source(f: PackFn, x: &[u8; 16], q: usize) -> i64
    requires { q * pack_width f + pack_width f ≤ 16 }
    ensures { result ≡ signed (8 * pack_width f) (lane (pack_width f) q x.now) }
{
    match f {
        PackFn::SignedBytes => signed(lane_at(x, 2, q), 16),
        PackFn::UnsignedBytes => signed(lane_at(x, 2, q), 16),
        PackFn::SignedWords => signed(lane_at(x, 4, q), 32),
        PackFn::UnsignedWords => signed(lane_at(x, 4, q), 32),
    }
}

/// A signed number clamped to half its width.
fn pack_value(f: PackFn, v: i64) -> u64
    ensures { result ≡ pack_fn f v }
{
    match f {
        PackFn::SignedBytes => clamp_s(i128::from(v), 8),
        PackFn::UnsignedBytes => clamp_u(i128::from(v), 8),
        PackFn::SignedWords => clamp_s(i128::from(v), 16),
        PackFn::UnsignedWords => clamp_u(i128::from(v), 16),
    }
}

/// How many lanes a register has for a pack.
fn lane_count(f: PackFn) -> usize
    ensures { result ≡ 16 / pack_width f }
{
    match f {
        PackFn::SignedBytes => 8,
        PackFn::UnsignedBytes => 8,
        PackFn::SignedWords => 4,
        PackFn::UnsignedWords => 4,
    }
}

/// The place of lane q's source in its register.
fn place(f: PackFn, q: usize) -> usize
    requires { q * (pack_width f / 2) + pack_width f / 2 ≤ 16 }
    ensures value { result ≡ (if nat_lt q (16 / pack_width f) then q else q - 16 / pack_width f) }
    ensures inside { result * pack_width f + pack_width f ≤ 16 }
{
    match f {
        PackFn::SignedBytes => if q < 8 { q } else { q - 8 },
        PackFn::UnsignedBytes => if q < 8 { q } else { q - 8 },
        PackFn::SignedWords => if q < 4 { q } else { q - 4 },
        PackFn::UnsignedWords => if q < 4 { q } else { q - 4 },
    }
}

/// A lane of a pack.
pub fn pack_lane(f: PackFn, x: &[u8; 16], y: &[u8; 16], q: usize) -> u64
    requires { q * (pack_width f / 2) + pack_width f / 2 ≤ 16 }
    ensures { result ≡ lane_of (packed (pack_width f) (pack_fn f)) x.now y.now q }
{
    let place = place(f, q);
    if q < lane_count(f) {
        pack_value(f, source(f, x, place))
    } else {
        pack_value(f, source(f, y, place))
    }
}
