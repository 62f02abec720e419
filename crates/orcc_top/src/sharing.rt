//! Sharing a job among workers, on the code of an image.
ghost use Rattle.std.specs.Prelude.{◌≡◌, ◌≤◌, length, IfOk};
ghost use Rattle.std.specs.Result.{result_map_both};
ghost use Rattle.orc_image.specs.Spelling.{ImageBegins};
ghost use Rattle.orc_job.specs.Told.{UnlessMemory};
ghost use Rattle.orcc_top.specs.Jobs.{job_refusal};
ghost use Rattle.orcc_top.specs.Replies.{Replies};
ghost use Rattle.orcc_top.specs.Sharing.{sizes_read, SharedOut, refusal_of_sharing};

use crate::calling::job_of;
use crate::command::Command;
use crate::execution::entry_called;
use crate::refusal::{Refusal, line_of};
use crate::reply::Reply;
use crate::workers::Workers;
use orc_image::{Image, ImageError, ImageFunction, read_image};
use orc_job::{JobError, Sizes, read_sizes};
use orc_worlds::{Played, parts_meet, play_job, print_played};
use std::alloc::{AllocError, Global};

/// The sizes of the elements of the arrays of the job that bytes say.
fn sizes_of(alloc: Global, bytes: &[u8]) -> Result<Sizes, JobError>
    ensures { UnlessMemory result (result_map_both (λ ns. ns.items) (λ e. e) result ≡ sizes_read bytes.now) }
{
    read_sizes(alloc, bytes)
}

/// The outcome of the job that bytes say, shared among workers, on the code of the function that it calls.
fn outcome_on(
    alloc: Global,
    functions: &[ImageFunction],
    bytes: &[u8],
    workers: Workers,
) -> Result<Played, JobError>
    ensures outcome { IfOk result (λ o. SharedOut functions.now bytes.now workers o) }
    ensures refused { UnlessMemory result (job_refusal result ≡ refusal_of_sharing workers.count functions.now bytes.now) }
{
    let job = job_of(alloc, bytes)?;
    let sizes = sizes_of(alloc, bytes)?;
    let f = entry_called(functions, &job)?;
    let Workers { count, seed } = workers;
    parts_meet(f, &job, sizes.as_slice(), count)?;
    match play_job(alloc, f, &job, sizes.as_slice(), count, seed) {
        Ok(outcome) => Ok(outcome),
        Err(AllocError) => Err(JobError::Memory),
    }
}

/// What `jobs` answers to an input that an image of this length begins.
fn answer_behind(
    alloc: Global,
    input: &[u8],
    image: &Image,
    size: usize,
    workers: Workers,
) -> Result<Reply, AllocError>
    requires short { length input.now ≤ 67108864 }
    requires begins { ImageBegins input.now image.now size }
    requires within { size ≤ length input.now }
    ensures { IfOk result (λ reply. Replies (Command.Jobs workers) input.now reply) }
{
    let (_, rest) = input.split_at(size);
    match outcome_on(alloc, image.functions.as_slice(), rest, workers) {
        Ok(outcome) => Ok(Reply::Output(print_played(alloc, &outcome)?)),
        Err(error) => match error {
            JobError::Memory => Err(AllocError),
            _ => Ok(Reply::Refusal(line_of(alloc, Refusal::Job(error))?)),
        },
    }
}

/// What `jobs` answers to an image and a job.
pub fn share_job(alloc: Global, input: &[u8], workers: Workers) -> Result<Reply, AllocError>
    requires { length input.now ≤ 67108864 }
    ensures { IfOk result (λ reply. Replies (Command.Jobs workers) input.now reply) }
{
    match read_image(alloc, input) {
        Ok((image, size)) => answer_behind(alloc, input, &image, size, workers),
        Err(error) => match error {
            ImageError::Memory => Err(AllocError),
            _ => Ok(Reply::Refusal(line_of(alloc, Refusal::Image(error))?)),
        },
    }
}
