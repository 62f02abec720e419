//! The text and its jobs.
ghost use Rattle.std.specs.Prelude.{◌≡◌, IfOk};
ghost use Rattle.orc_gen.specs.Generator.{text_of, jobs_of};

use crate::jobs::jobs;
use crate::text::put_text;
use orc_job::Job;
use std::alloc::{AllocError, Global};

/// The bytes of a text.
pub type Text = Vec<u8>;

/// A job for each function, in order.
pub type Jobs = Vec<Job>;

/// What is made from a number.
#[derive(Debug, Drop)]
pub struct Made {
    /// The text, of eight functions.
    pub text: Text,
    /// The jobs of its functions.
    pub jobs: Jobs,
}

/// The text and the jobs that a number gives.
///
/// # Errors
///
/// Want of memory.
#[tactic(auto, using(crate::proofs::Draws::after_after), unfolding(crate::specs::Generator::jobs_of))]
pub fn generate(alloc: Global, seed: u64) -> Result<Made, AllocError>
    ensures text { IfOk result (λ made. made.text.items ≡ text_of seed) }
    ensures jobs { IfOk result (λ made. made.jobs.items ≡ jobs_of seed) }
{
    let mut state = seed;
    let mut text = Vec::new(alloc);
    put_text(alloc, &mut text, &mut state)?;
    let jobs = jobs(alloc, state)?;
    Ok(Made { text, jobs })
}
