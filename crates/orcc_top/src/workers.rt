//! Workers that share a job.
ghost use Rattle.std.specs.Prelude.{◌≤◌, ◌<◌, ◌^◌};

/// How many workers share a job, and the seed that their turns are drawn from.
#[derive(Clone, Copy, Debug, PartialEq, Eq)]
pub struct Workers {
    /// How many, from 1 to 64.
    pub count: u8,
    /// The seed.
    pub seed: u64,
    pub ghost some: { 1 ≤ count },
    pub ghost few: { count ≤ 64 },
    pub ghost word: { seed < 2 ^ 64 },
}
