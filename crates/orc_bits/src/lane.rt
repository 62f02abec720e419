//! Lanes of 16 bytes: numbers of 1, 2, 4 or 8 bytes side by side, each with its lowest byte first.

ghost use Rattle.std.specs.Prelude.{◌≡◌, ◌≢◌, ◌≤◌, ◌<◌, ◌+◌, ◌*◌, ◌/◌, ◌%◌, ◌^◌, ℕ};
ghost use Rattle.orc_bits.specs.Widths.{IsLaneWidth};
ghost use Rattle.orc_bits.specs.Lanes.{lane, HalvesLanes};

/// Sixteen bytes as lanes of `W` bytes, `W` being 1, 2, 4 or 8: there are `16 / W` of them.
#[derive(Clone, Copy, Debug, PartialEq, Eq)]
pub struct LaneView<const W: usize> {
    pub bytes: [u8; 16],
}

impl<const W: usize> LaneView<W> {
    /// Lane `i`.
    pub fn get(&self, i: usize) -> u64
        requires width { IsLaneWidth W }
        requires inside { i < 16 / W }
        ensures { result ≡ lane W i self.now.bytes }
    {
        lane_at(&self.bytes, W, i)
    }

    /// The same bytes but for lane `i`, which is `v` cut to its `8 * W` bits.
    pub fn with(&self, i: usize, v: u64) -> LaneView<W>
        requires width { IsLaneWidth W }
        requires inside { i < 16 / W }
        ensures changed { lane W i result.bytes ≡ v % 2 ^ (8 * W) }
        ensures others { (j : ℕ) → j < 16 / W → j ≢ i → lane W j result.bytes ≡ lane W j self.now.bytes }
    {
        let mut bytes = self.bytes;
        for k in 0..W {
            bytes[i * W + k] = byte_at(v, k);
        }
        LaneView { bytes }
    }
}

/// Lane `q` of `w` bytes, lowest byte first.
pub fn lane_at(x: &[u8; 16], w: usize, q: usize) -> u64
    requires width { w ≤ 8 }
    requires inside { q * w + w ≤ 16 }
    ensures value { result ≡ lane w q x.now }
    ensures bound { result < 256 ^ w }
{
    let end = q * w + w;
    let mut v: u64 = 0;
    for k in 0..w {
        v = v * 256 + x[end - 1 - k] as u64;
    }
    v
}

/// Byte `k` of a number, the lowest being byte 0.
pub fn byte_at(v: u64, k: usize) -> u8
    requires { k < 8 }
    ensures { result ≡ v / 256 ^ k % 256 }
{
    v.to_le_bytes()[k]
}

/// The law of lanes at twice a width.
pub fn lane_law()
    ensures { HalvesLanes }
{}
