//! Running a job on the code of an image.
ghost use Rattle.std.specs.Prelude.{◌≡◌, ◌≤◌, ◌<◌, ◌+◌, ℕ, Ok, Err, Some, None, length, IfOk, IfSome, MatchOption, MatchResult};
ghost use Rattle.std.specs.List.{find};
ghost use Rattle.std.specs.Str.{bytes_eq};
ghost use Rattle.orc_bits.specs.Memory.{IsMapped};
ghost use Rattle.orc_bits.specs.Parts.{memory_of};
ghost use Rattle.orc_frame.specs.Parts.{block_size};
ghost use Rattle.orc_image.specs.Spelling.{IsFunction, ImageBegins};
ghost use Rattle.orc_job.specs.Kept.{IsJob};
ghost use Rattle.orc_job.specs.Told.{UnlessMemory};
ghost use Rattle.orc_worlds.specs.Placement.{block_at};
ghost use Rattle.orcc_top.specs.Execution.{AreSums, Ran, RunsTo, end_line, entry_called, entry_met, refusal_on_image};
ghost use Rattle.orcc_top.specs.Jobs.{job_refusal};
ghost use Rattle.orcc_top.specs.Replies.{Replies};

use crate::calling::job_of;
use crate::command::Command;
use crate::refusal::{Refusal, line_of};
use crate::reply::Reply;
use orc_emul::Accs;
use orc_frame::sum_word;
use orc_image::{Image, ImageError, ImageFunction, read_image};
use orc_job::{EndLine, Field, Job, JobError, Outcome, fit, meets, print_result};
use orc_worlds::{BLOCK, machine_of, parts_now, word_at};
use std::alloc::{AllocError, Global};
use x86_machine::{End, Segments, run};

/// The words of so many accumulators.
fn sums_of(memory: &Segments, count: u8) -> Accs
    requires few { count ≤ 4 }
    requires mapped { (i : ℕ) → i < block_size → IsMapped (memory_of memory.now) (block_at + i) }
    ensures { AreSums (memory_of memory.now) count result.items }
{
    let mut sums = Accs::new();
    for g in 0..count {
        sums.push(word_at(memory, BLOCK + sum_word(usize::from(g)) as u64));
    }
    sums
}

/// A run's end as it is told.
fn end_line(end: End, budget: u64) -> EndLine
    ensures { result ≡ end_line budget end }
{
    match end {
        End::Returned { steps } => EndLine::Returned { steps },
        End::Trapped { steps, trap } => EndLine::Trap {
            why: trap.why,
            at: trap.at,
            steps,
        },
        End::Budget => EndLine::Budget { steps: budget },
    }
}

/// What a job's run on a function's code ends with.
pub fn executed(alloc: Global, f: &ImageFunction, job: &Job) -> Result<Outcome, AllocError>
    requires kept { IsJob job.now }
    requires counts { f.now.dests ≤ length job.now.call.arrays.items }
    ensures { IfOk result (Ran f.now job.now) }
{
    let mut m = machine_of(alloc, f, job)?;
    let end = run(&mut m, job.budget);
    let memory = parts_now(alloc, &m.memory, job.memory.as_slice())?;
    Ok(Outcome {
        end: end_line(end, job.budget),
        accs: sums_of(&m.memory, f.accs),
        memory,
    })
}

/// Whether the function has this name.
fn has_name(f: &ImageFunction, name: &[u8]) -> bool
    ensures same { result ≡ bytes_eq name.now f.now.name }
    ensures kept { IsFunction f.now }
{
    name == f.name_bytes()
}

/// The first function of this name.
fn entry_of<'a>(functions: &'a [ImageFunction], name: &[u8]) -> Option<&'a ImageFunction>
    ensures first { MatchOption result
        (find (λ g. bytes_eq name.now g.name) functions.now ≡ None)
        (λ f. find (λ g. bytes_eq name.now g.name) functions.now ≡ Some f.now) }
    ensures kept { IfSome result (λ f. IsFunction f.now) }
{
    let [f, rest @ ..] = functions else {
        return None;
    };
    if has_name(f, name) {
        return Some(f);
    }
    entry_of(rest, name)
}

/// The function of an image that the job calls. It has as many arrays and parameters as the job.
pub fn entry_called<'a>(
    functions: &'a [ImageFunction],
    job: &Job,
) -> Result<&'a ImageFunction, JobError>
    ensures called { MatchResult result
        (λ f. entry_called functions.now job.now ≡ Ok f.now)
        (λ e. entry_called functions.now job.now ≡ Err e) }
    ensures counts { IfOk result (λ f. f.now.dests ≤ length job.now.call.arrays.items) }
    ensures arrays { IfOk result (λ f. length job.now.call.arrays.items ≡ f.now.dests + f.now.sources) }
    ensures kept { IfOk result (λ f. IsFunction f.now) }
{
    let Some(f) = entry_of(functions, job.function.as_slice()) else {
        return Err(JobError::BadField {
            field: Field::Function,
        });
    };
    let arrays = usize::from(f.dests) + usize::from(f.sources);
    match fit(job, arrays, usize::from(f.params)) {
        Ok(()) => Ok(f),
        Err(error) => Err(error),
    }
}

/// The function of an image that the job calls, where the job's call meets its facts.
fn entry_met<'a>(functions: &'a [ImageFunction], job: &Job) -> Result<&'a ImageFunction, JobError>
    ensures met { MatchResult result
        (λ f. entry_met functions.now job.now ≡ Ok f.now)
        (λ e. entry_met functions.now job.now ≡ Err e) }
    ensures counts { IfOk result (λ f. f.now.dests ≤ length job.now.call.arrays.items) }
{
    let f = entry_called(functions, job)?;
    match meets(&f.facts, f.two_d, &job.call) {
        Ok(()) => Ok(f),
        Err(error) => Err(error),
    }
}

/// The outcome of the job that bytes say, run on the code of the function that it calls.
fn outcome_on(alloc: Global, functions: &[ImageFunction], bytes: &[u8]) -> Result<Outcome, JobError>
    ensures outcome { IfOk result (λ o. RunsTo functions.now bytes.now o) }
    ensures refused { UnlessMemory result (job_refusal result ≡ refusal_on_image functions.now bytes.now) }
{
    let job = job_of(alloc, bytes)?;
    let f = entry_met(functions, &job)?;
    match executed(alloc, f, &job) {
        Ok(outcome) => Ok(outcome),
        Err(AllocError) => Err(JobError::Memory),
    }
}

/// What `run` answers to an input that an image of this length begins.
fn answer_behind(
    alloc: Global,
    input: &[u8],
    image: &Image,
    size: usize,
) -> Result<Reply, AllocError>
    requires short { length input.now ≤ 67108864 }
    requires begins { ImageBegins input.now image.now size }
    requires within { size ≤ length input.now }
    ensures { IfOk result (λ reply. Replies Command.Run input.now reply) }
{
    let (_, rest) = input.split_at(size);
    match outcome_on(alloc, image.functions.as_slice(), rest) {
        Ok(outcome) => Ok(Reply::Output(print_result(alloc, &outcome)?)),
        Err(error) => match error {
            JobError::Memory => Err(AllocError),
            _ => Ok(Reply::Refusal(line_of(alloc, Refusal::Job(error))?)),
        },
    }
}

/// What `run` answers to an image and a job.
pub fn run_job(alloc: Global, input: &[u8]) -> Result<Reply, AllocError>
    requires { length input.now ≤ 67108864 }
    ensures { IfOk result (λ reply. Replies Command.Run input.now reply) }
{
    match read_image(alloc, input) {
        Ok((image, size)) => answer_behind(alloc, input, &image, size),
        Err(error) => match error {
            ImageError::Memory => Err(AllocError),
            _ => Ok(Reply::Refusal(line_of(alloc, Refusal::Image(error))?)),
        },
    }
}
