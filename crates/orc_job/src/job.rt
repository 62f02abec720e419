//! Jobs.

ghost use Rattle.std.specs.Prelude.{◌≡◌, OnOk, length};
ghost use Rattle.orc_job.specs.Limits.{fitting};

use crate::error::{Field, JobError};
use orc_bits::Parts;
use orc_program::{Call, Name};

/// A call of a function on a memory, with a bound on the steps that are done.
#[derive(Debug, Drop)]
pub struct Job {
    /// The function that is called.
    pub function: Name,
    /// The numbers of elements and rows, the arrays and the parameters.
    pub call: Call,
    /// The segments of memory, in the order given.
    pub memory: Parts,
    /// The most steps that are done.
    pub budget: u64,
}

/// Whether a job has as many arrays and parameters as a function takes.
///
/// # Errors
///
/// `BadField` of the arrays where their number is another, else of the parameters where theirs is.
pub fn fit(job: &Job, arrays: usize, params: usize) -> Result<(), JobError>
    ensures value { result ≡ fitting job.now arrays params }
    ensures fits { OnOk result ((length job.now.call.arrays.items ≡ arrays) × (length job.now.call.params.items ≡ params)) }
{
    if job.call.arrays.len() != arrays {
        return Err(JobError::BadField {
            field: Field::Arrays,
        });
    }
    if job.call.params.len() != params {
        return Err(JobError::BadField {
            field: Field::Params,
        });
    }
    Ok(())
}
