//! Drawn turns of the parts of a job.
ghost use Rattle.std.specs.Prelude.{◌≡◌, ◌<◌, ◌≤◌, ◌+◌, ℕ, length, map, IfOk};
ghost use Rattle.orc_bits.specs.Memory.{IsMapped};
ghost use Rattle.orc_bits.specs.Parts.{memory_of};
ghost use Rattle.orc_frame.specs.Parts.{block_size};
ghost use Rattle.orc_job.specs.Kept.{IsJob};
ghost use Rattle.orc_worlds.specs.Worlds.{block_of};
ghost use Rattle.orc_worlds.specs.Played.{AreTotals, IsTotal, PlayedOut};
ghost use Rattle.orc_worlds.specs.Whole.{DoesWhole};

use crate::parting::{block_of, world_of};
use crate::remaining::{parts_now, word_at};
use arrayvec::ArrayVec;
use orc_bits::Parts;
use orc_emul::Accs;
use orc_frame::sum_word;
use orc_image::ImageFunction;
use orc_job::Job;
use orc_jobs::{Runner, Stopped, play_drawn};
use std::alloc::{AllocError, Global};
use x86_machine::Segments;

/// The steps of the parts of a job, in order.
pub type Steps = ArrayVec<u64, 64>;

/// What drawn turns of the parts of a job left.
#[derive(Debug, Drop)]
pub struct Played {
    /// Why no more turns were taken.
    pub why: Stopped,
    /// The turns that were taken. One that trapped is not counted.
    pub turns: u64,
    /// The steps of each part.
    pub steps: Steps,
    /// The sums of the parts' accumulators, in order of declaration, modulo 2^64.
    pub accs: Accs,
    /// The segments in the job's order, with their bytes at the end.
    pub memory: Parts,
}

/// The steps that each runner has taken.
fn steps_of(runners: &[Runner]) -> Steps
    requires { length runners.now ≤ 64 }
    ensures { result.items ≡ map (λ r. r.steps) runners.now }
{
    let mut steps = Steps::new();
    let mut left = runners;
    while let [runner, rest @ ..] = left {
        steps.push(runner.steps);
        left = rest;
    }
    steps
}

/// The sum of the words of accumulator `g` in the blocks of the first parts, modulo 2^64.
fn total_of(memory: &Segments, workers: u8, g: u8) -> u64
    requires few { g < 4 }
    requires mapped { (k : ℕ) → k < workers → (i : ℕ) → i < block_size → IsMapped (memory_of memory.now) (block_of k + i) }
    ensures { IsTotal (memory_of memory.now) workers g result }
{
    let mut total = 0u64;
    for k in 0..workers {
        total = total.wrapping_add(word_at(memory, block_of(k) + sum_word(usize::from(g)) as u64));
    }
    total
}

/// Of so many accumulators the sums of the parts' words, modulo 2^64.
fn totals_of(memory: &Segments, workers: u8, count: u8) -> Accs
    requires few { count ≤ 4 }
    requires mapped { (k : ℕ) → k < workers → (i : ℕ) → i < block_size → IsMapped (memory_of memory.now) (block_of k + i) }
    ensures { AreTotals (memory_of memory.now) workers count result.items }
{
    let mut sums = Accs::new();
    for g in 0..count {
        sums.push(total_of(memory, workers, g));
    }
    sums
}

/// Plays the turns of the parts of a job that a seed draws, as many as the job's budget at most.
pub fn play_job(
    alloc: Global,
    f: &ImageFunction,
    job: &Job,
    sizes: &[u8],
    workers: u8,
    seed: u64,
) -> Result<Played, AllocError>
    requires kept { IsJob job.now }
    requires counts { length job.now.call.arrays.items ≡ f.now.dests + f.now.sources }
    requires sized { length sizes.now ≡ length job.now.call.arrays.items }
    requires some { 0 < workers }
    requires few { workers ≤ 64 }
    ensures played { IfOk result (PlayedOut f.now job.now sizes.now workers seed) }
    ensures whole { IfOk result (DoesWhole f.now job.now sizes.now workers) }
{
    let mut world = world_of(alloc, f, job, sizes, workers)?;
    let drawn = play_drawn(&mut world, seed, job.budget);
    let memory = parts_now(alloc, &world.memory, job.memory.as_slice())?;
    Ok(Played {
        why: drawn.why,
        turns: drawn.turns,
        steps: steps_of(world.runners.as_slice()),
        accs: totals_of(&world.memory, workers, f.accs),
        memory,
    })
}
