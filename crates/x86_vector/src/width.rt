//! Widths of lanes.

ghost use Rattle.std.specs.Prelude.{◌≡◌, ℕ, ◌≤◌, ◌<◌, ◌+◌, ◌-◌, ◌*◌, ◌/◌, ◌%◌, ◌^◌, Bool, cond};
ghost use Rattle.orc_bits.specs.Widths.{IsWidth};
ghost use Rattle.x86_ins.specs.Vectors.{mask};
ghost use Rattle.x86_vector.specs.Forms.{bytes_of};

/// The width of a lane, in bytes.
#[derive(Clone, Copy)]
pub enum Width {
    One,
    Two,
    Four,
    Eight,
}

/// The bytes of a lane.
pub fn size(w: Width) -> usize
    ensures value { result ≡ bytes_of w }
    ensures some { 0 < result }
    ensures few { result ≤ 8 }
    ensures whole { 16 / result * result ≡ 16 }
    ensures fits { (q : ℕ) → q < 16 / result → q * result + result ≤ 16 }
{
    match w {
        Width::One => 1,
        Width::Two => 2,
        Width::Four => 4,
        Width::Eight => 8,
    }
}

/// The bits of a lane.
pub fn bits(w: Width) -> u32
    ensures value { result ≡ 8 * bytes_of w }
    ensures width { IsWidth result }
{
    match w {
        Width::One => 8,
        Width::Two => 16,
        Width::Four => 32,
        Width::Eight => 64,
    }
}

/// How many values a lane has.
pub fn modulus(w: Width) -> u128
    ensures value { result ≡ 2 ^ (8 * bytes_of w) }
    ensures some { 0 < result }
    ensures most { result ≤ 2 ^ 64 }
{
    match w {
        Width::One => 0x100,
        Width::Two => 0x1_0000,
        Width::Four => 0x1_0000_0000,
        Width::Eight => 0x1_0000_0000_0000_0000,
    }
}

/// A number cut to the bits of a lane.
pub fn low_bits(w: Width, v: u64) -> u64
    ensures { result ≡ v % 2 ^ (8 * bytes_of w) }
{
    match w {
        Width::One => v % 0x100,
        Width::Two => v % 0x1_0000,
        Width::Four => v % 0x1_0000_0000,
        Width::Eight => v,
    }
}

/// The lane whose bits are all 1.
pub fn ones(w: Width) -> u64
    ensures { result ≡ 2 ^ (8 * bytes_of w) - 1 }
{
    (modulus(w) - 1) as u64
}

/// All bits 1 where a test holds, and all 0 elsewhere.
pub fn mask(w: Width, test: bool) -> u64
    ensures { result ≡ mask (8 * bytes_of w) test }
{
    if test { ones(w) } else { 0 }
}
