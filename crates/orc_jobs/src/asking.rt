//! What a schedule needs, as a test.

ghost use Rattle.std.specs.Prelude.{◌+◌, ◌<◌, ◌^◌, true, length, All, IsTrue, ◌↔◌};
ghost use Rattle.orc_jobs.specs.World.{seen, stand_of, HasRoom, IsSchedule};

use crate::world::{Runner, World};

/// Whether each number is below this count.
fn are_below(schedule: &[u32], count: usize) -> bool
    ensures { IsTrue result ↔ All (λ k. k < count) schedule.now }
{
    schedule.iter().all(|k| (*k as usize) < count)
}

/// Whether each runner's steps stay below 2^64 through so many turns.
fn have_room(runners: &[Runner], turns: u64) -> bool
    ensures { IsTrue result ↔ All (λ r. r.steps + turns < 2 ^ 64) runners.now }
{
    runners.iter().all(|r| r.steps <= u64::MAX - turns)
}

/// Whether every runner's steps have room for so many turns.
pub fn has_room(w: &World, turns: u64) -> bool
    ensures { IsTrue result → HasRoom (seen w.now) turns }
{
    have_room(w.runners.as_slice(), turns)
}

/// Whether a schedule can be played: each number is a runner's, and every runner's steps have room for as many turns.
pub fn can_play(w: &World, schedule: &[u32]) -> bool
    ensures schedule { IsTrue result → IsSchedule (seen w.now) schedule.now }
    ensures room { IsTrue result → HasRoom (seen w.now) (length schedule.now) }
{
    are_below(schedule, w.runners.len()) && has_room(w, schedule.len() as u64)
}
