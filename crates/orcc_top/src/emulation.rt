//! Emulating a job.
ghost use Rattle.std.specs.Prelude.{◌≡◌, ◌≤◌, length, IfOk};
ghost use Rattle.orc_bits.specs.Parts.{memory_of};
ghost use Rattle.orc_emul.specs.State.{HasCounts};
ghost use Rattle.orc_job.specs.Kept.{IsJob};
ghost use Rattle.orc_program.specs.Meaning as meaning;
ghost use Rattle.orc_job.specs.Told.{UnlessMemory};
ghost use Rattle.orcc_top.specs.Emulation.{Comes, IsOutcome, refusal_on};
ghost use Rattle.orcc_top.specs.Jobs.{job_refusal};
ghost use Rattle.orcc_top.specs.Replies.{Replies};

use crate::calling::{function_called, job_of};
use crate::command::Command;
use crate::parsing::read_text;
use crate::refusal::{Refusal, line_of};
use crate::reply::Reply;
use crate::separating::separate;
use orc_emul::{Accs, Store, Unmapped, emulate};
use orc_job::{EndLine, Job, JobError, Outcome, print_result};
use orc_program::{Function, Program};
use std::alloc::{AllocError, Global};

/// What a job's emulation on a function ends with.
fn emulated(alloc: Global, f: &Function, job: Job) -> Result<Outcome, AllocError>
    requires counts { HasCounts f.now job.call }
    requires kept { IsJob job }
    ensures { IfOk result (Comes job.memory (meaning.emulate f.now job.call (memory_of job.memory))) }
{
    let Job { call, memory, .. } = job;
    let Ok(mut store) = Store::build(alloc, memory) else {
        return Err(AllocError);
    };
    match emulate(f, &call, &mut store) {
        Ok(accs) => Ok(Outcome {
            end: EndLine::Emulated,
            accs,
            memory: store.into_parts(),
        }),
        Err(Unmapped { row, element, at }) => Ok(Outcome {
            end: EndLine::Unmapped { row, element, at },
            accs: Accs::new(),
            memory: store.into_parts(),
        }),
    }
}

/// The outcome of the job that bytes say, emulated on the function that it calls.
fn outcome_on(alloc: Global, functions: &[Function], bytes: &[u8]) -> Result<Outcome, JobError>
    ensures outcome { IfOk result (λ o. IsOutcome functions.now bytes.now o) }
    ensures refused { UnlessMemory result (job_refusal result ≡ refusal_on functions.now bytes.now) }
{
    let job = job_of(alloc, bytes)?;
    let f = function_called(functions, &job)?;
    match emulated(alloc, f, job) {
        Ok(outcome) => Ok(outcome),
        Err(AllocError) => Err(JobError::Memory),
    }
}

/// What `emulate` answers to a text and a job.
pub fn emulate_job(alloc: Global, input: &[u8]) -> Result<Reply, AllocError>
    requires { length input.now ≤ 67108864 }
    ensures { IfOk result (λ reply. Replies Command.Emulate input.now reply) }
{
    let (text, rest) = separate(input);
    let program = match read_text(alloc, text)? {
        Ok(program) => program,
        Err(line) => return Ok(Reply::Refusal(line)),
    };
    match outcome_on(alloc, program.functions.as_slice(), rest) {
        Ok(outcome) => Ok(Reply::Output(print_result(alloc, &outcome)?)),
        Err(error) => match error {
            JobError::Memory => Err(AllocError),
            _ => Ok(Reply::Refusal(line_of(alloc, Refusal::Job(error))?)),
        },
    }
}
