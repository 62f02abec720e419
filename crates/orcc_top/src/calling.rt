//! Jobs, and the functions that they call.
ghost use Rattle.std.specs.Prelude.{◌≡◌, true, Ok, Err, Some, None, IfOk, IfSome, MatchOption, MatchResult};
ghost use Rattle.std.specs.List.{find};
ghost use Rattle.std.specs.Str.{bytes_eq};
ghost use Rattle.orc_emul.specs.State.{HasCounts};
ghost use Rattle.orc_job.specs.Kept.{IsJob};
ghost use Rattle.orc_job.specs.Told.{UnlessMemory};
ghost use Rattle.orc_program.specs.Kept.{is_function};
ghost use Rattle.orcc_top.specs.Jobs.{job_read, function_called};

use crate::assembly::count;
use orc_job::{Field, Job, JobError, fit, read_job};
use orc_program::{Function, VarKind};
use std::alloc::Global;

/// The job that bytes say.
#[tactic(auto, using(crate::proofs::Reading::read_alike))]
pub fn job_of(alloc: Global, bytes: &[u8]) -> Result<Job, JobError>
    ensures read { UnlessMemory result (result ≡ job_read bytes.now) }
    ensures kept { IfOk result IsJob }
{
    read_job(alloc, bytes)
}

/// Whether the function has this name.
fn has_name(f: &Function, name: &[u8]) -> bool
    ensures same { result ≡ bytes_eq name.now f.now.name }
    ensures kept { is_function f.now ≡ true }
{
    name == f.name.as_slice()
}

/// The first function of this name.
fn function_of<'a>(functions: &'a [Function], name: &[u8]) -> Option<&'a Function>
    ensures first { MatchOption result
        (find (λ g. bytes_eq name.now g.name) functions.now ≡ None)
        (λ f. find (λ g. bytes_eq name.now g.name) functions.now ≡ Some f.now) }
    ensures kept { IfSome result (λ f. is_function f.now ≡ true) }
{
    let [f, rest @ ..] = functions else {
        return None;
    };
    if has_name(f, name) {
        return Some(f);
    }
    function_of(rest, name)
}

/// The function of a program that the job calls. It has as many arrays and parameters as the job.
#[tactic(auto, using(crate::proofs::Calls::called_unfit, crate::proofs::Calls::called_fit))]
pub fn function_called<'a>(functions: &'a [Function], job: &Job) -> Result<&'a Function, JobError>
    ensures called { MatchResult result
        (λ f. function_called functions.now job.now ≡ Ok f.now)
        (λ e. function_called functions.now job.now ≡ Err e) }
    ensures counts { IfOk result (λ f. HasCounts f.now job.now.call) }
{
    let Some(f) = function_of(functions, job.function.as_slice()) else {
        return Err(JobError::BadField {
            field: Field::Function,
        });
    };
    let arrays = usize::from(count(f, VarKind::Dest)) + usize::from(count(f, VarKind::Source));
    match fit(job, arrays, usize::from(count(f, VarKind::Param))) {
        Ok(()) => Ok(f),
        Err(error) => Err(error),
    }
}
