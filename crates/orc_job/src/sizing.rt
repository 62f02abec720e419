//! Reading the sizes of elements.

ghost use Rattle.std.specs.Prelude.{◌≡◌};
ghost use Rattle.std.specs.Result.{result_map_both};
ghost use Rattle.serde_json.specs.View.{view};
ghost use Rattle.orc_job.specs.Forms.{size_in, few_in};
ghost use Rattle.orc_job.specs.Fields.{field_at};
ghost use Rattle.orc_job.specs.Reading.{HasValue, HasNoValue, IsReading, IsSizing};
ghost use Rattle.orc_job.specs.Told.{UnlessMemory};

use crate::error::{Field, JobError};
use crate::lists::{Sizes, sizes_in};
use crate::reading::{find, parse, read_job};
use serde_json::Value;
use std::alloc::Global;

/// The sizes of the arrays' elements.
fn sizes_of(value: &Value) -> Result<Sizes, JobError>
    ensures { result_map_both (λ ns. ns.items) (λ e. e) result ≡ field_at Field.Arrays (few_in 12 size_in) (view value.now) }
{
    let inner = find(value, Field::Arrays)?;
    match sizes_in(inner) {
        Some(sizes) => Ok(sizes),
        None => Err(JobError::BadField {
            field: Field::Arrays,
        }),
    }
}

/// The sizes of the elements of the arrays of the job that a JSON text says, in the order of the arrays: each object of
/// `arrays` has a third part `size`, which is 1, 2, 4 or 8.
///
/// # Errors
///
/// As [`read_job`] where that refuses; else `BadField` of the arrays exactly where some object has no such `size`. `Memory`
/// where memory is wanting.
pub fn read_sizes(alloc: Global, bytes: &[u8]) -> Result<Sizes, JobError>
    ensures { UnlessMemory result (IsSizing bytes.now (result_map_both (λ ns. ns.items) (λ e. e) result)) }
{
    read_job(alloc, bytes)?;
    match parse(alloc, bytes) {
        Ok(value) => sizes_of(&value),
        Err(e) => Err(e),
    }
}
