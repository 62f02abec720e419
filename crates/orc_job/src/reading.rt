//! Reading a job.

ghost use Rattle.std.specs.Prelude.{◌≡◌, ◌⊎◌, ◌^◌, nat_lt, Result, None, Some, Ok, Err, IfOk, IfErr, MatchResult};
ghost use Rattle.std.specs.Result.{result_map_both};
ghost use Rattle.serde_json.specs.View.{view};
ghost use Rattle.serde_json.specs.Find.{get};
ghost use Rattle.orc_job.specs.Forms.{whole, below, wrapped, name_in, place_in, segment_in, list_in, few_in};
ghost use Rattle.orc_job.specs.Fields.{name_of, field_at, fields_of};
ghost use Rattle.orc_job.specs.Limits.{byte_count, within_limits, job_of};
ghost use Rattle.orc_job.specs.Reading.{HasValue, HasNoValue, IsAnswer, IsReading, OneReading};
ghost use Rattle.orc_job.specs.Kept.{IsJob};
ghost use Rattle.orc_job.specs.Told.{UnlessMemory};

use crate::error::{Field, JobError};
use crate::forms::{Unformed, count_in, name_in, whole_in};
use crate::job::Job;
use crate::lists::{params_in, places_in, segments_in};
use orc_bits::{Part, Parts};
use orc_memory::overlaps;
use orc_program::{Call, Name, Params, Places};
use serde_json::Value;
use std::alloc::{AllocError, Global};

/// The value of a JSON text.
pub fn parse(alloc: Global, bytes: &[u8]) -> Result<Value, JobError>
    ensures value { IfOk result (λ v. HasValue bytes.now (view v)) }
    ensures refused { IfErr result (λ e. e ≡ JobError.NotJson → HasNoValue bytes.now) }
    ensures kind { IfErr result (λ e. (e ≡ JobError.NotJson) ⊎ (e ≡ JobError.Memory)) }
{
    match Value::from_slice(alloc, bytes) {
        Ok(value) => Ok(value),
        Err(error) => {
            if error.is_memory() {
                return Err(JobError::Memory);
            }
            Err(JobError::NotJson)
        }
    }
}

/// The value of a field.
pub fn find(value: &Value, field: Field) -> Result<&Value, JobError>
    ensures { MatchResult result
        (λ v. get (name_of field) (view value.now) ≡ Some (view v.now))
        (λ e. (e ≡ JobError.Missing field) × (get (name_of field) (view value.now) ≡ None)) }
{
    match value.get(field.name()) {
        Some(inner) => Ok(inner),
        None => Err(JobError::Missing { field }),
    }
}

/// The function's name.
fn read_function(value: &Value) -> Result<Name, JobError>
    ensures { result ≡ field_at Field.Function name_in (view value.now) }
{
    let inner = find(value, Field::Function)?;
    match name_in(inner) {
        Some(name) => Ok(name),
        None => Err(JobError::BadField {
            field: Field::Function,
        }),
    }
}

/// A number of elements or rows.
fn read_count(value: &Value, field: Field) -> Result<u32, JobError>
    ensures { result ≡ field_at field (below (2 ^ 31)) (view value.now) }
{
    let inner = find(value, field)?;
    match count_in(inner) {
        Some(count) => Ok(count),
        None => Err(JobError::BadField { field }),
    }
}

/// The arrays' places.
fn read_arrays(value: &Value) -> Result<Places, JobError>
    ensures { result_map_both (λ ps. ps.items) (λ e. e) result ≡ field_at Field.Arrays (few_in 12 place_in) (view value.now) }
{
    let inner = find(value, Field::Arrays)?;
    match places_in(inner) {
        Some(places) => Ok(places),
        None => Err(JobError::BadField {
            field: Field::Arrays,
        }),
    }
}

/// The parameters' numbers.
fn read_params(value: &Value) -> Result<Params, JobError>
    ensures { result_map_both (λ ns. ns.items) (λ e. e) result ≡ field_at Field.Params (few_in 8 wrapped) (view value.now) }
{
    let inner = find(value, Field::Params)?;
    match params_in(inner) {
        Some(numbers) => Ok(numbers),
        None => Err(JobError::BadField {
            field: Field::Params,
        }),
    }
}

/// The segments of memory.
fn read_memory(alloc: Global, value: &Value) -> Result<Parts, JobError>
    ensures { UnlessMemory result (result ≡ field_at Field.Memory (list_in segment_in) (view value.now)) }
{
    let inner = find(value, Field::Memory)?;
    match segments_in(alloc, inner) {
        Ok(parts) => Ok(parts),
        Err(Unformed::Memory) => Err(JobError::Memory),
        Err(Unformed::Other) => Err(JobError::BadField {
            field: Field::Memory,
        }),
    }
}

/// The budget.
fn read_budget(value: &Value) -> Result<u64, JobError>
    ensures { result ≡ field_at Field.Budget whole (view value.now) }
{
    let inner = find(value, Field::Budget)?;
    match whole_in(inner) {
        Some(budget) => Ok(budget),
        None => Err(JobError::BadField {
            field: Field::Budget,
        }),
    }
}

/// The fields of a job.
#[tactic(auto, using(crate::proofs::Unless::unless), unfolding(crate::specs::Fields::fields_of))]
fn read_fields(alloc: Global, value: &Value) -> Result<Job, JobError>
    ensures { UnlessMemory result (result ≡ fields_of (view value.now)) }
{
    let function = read_function(value)?;
    let n = read_count(value, Field::N)?;
    let m = read_count(value, Field::M)?;
    let arrays = read_arrays(value)?;
    let params = read_params(value)?;
    let memory = read_memory(alloc, value)?;
    let budget = read_budget(value)?;
    Ok(Job {
        function,
        call: Call {
            n,
            m,
            arrays,
            params,
        },
        memory,
        budget,
    })
}

/// Whether the segments have more bytes than so many.
fn has_more_bytes(parts: &[Part], most: usize) -> bool
    ensures { result ≡ nat_lt most (byte_count parts.now) }
{
    let mut room = most;
    let mut left = parts;
    while let [part, rest @ ..] = left {
        let count = part.bytes.len();
        if room < count {
            return true;
        }
        room -= count;
        left = rest;
    }
    false
}

/// The greatest number of elements in a row, of rows, and of elements in all rows together.
const MOST_CELLS: u64 = 1_048_576;

/// The most bytes of all segments together.
const MOST_BYTES: usize = 16_777_216;

/// The greatest budget.
const MOST_STEPS: u64 = 100_000_000;

/// The refusal of a limit that is passed.
fn too_large(field: Field) -> Result<Job, JobError>
    ensures { result ≡ Err (JobError.TooLarge field) }
{
    Err(JobError::TooLarge { field })
}

/// A job that passes no limit.
fn within_limits(job: Job) -> Result<Job, JobError>
    ensures { result ≡ within_limits job }
{
    let n = u64::from(job.call.n);
    let m = u64::from(job.call.m);
    if n > MOST_CELLS {
        return too_large(Field::N);
    }
    if m > MOST_CELLS {
        return too_large(Field::M);
    }
    if n * m > MOST_CELLS {
        return too_large(Field::M);
    }
    if has_more_bytes(job.memory.as_slice(), MOST_BYTES) {
        return too_large(Field::Memory);
    }
    if job.budget > MOST_STEPS {
        return too_large(Field::Budget);
    }
    Ok(job)
}

/// The job that a JSON value says.
#[tactic(auto, using(crate::proofs::Unless::unless))]
fn read_value(alloc: Global, value: &Value) -> Result<Job, JobError>
    ensures { UnlessMemory result (result ≡ job_of (view value.now)) }
{
    let job = read_fields(alloc, value)?;
    within_limits(job)
}

/// A job of which no two segments share a byte.
fn without_overlap(alloc: Global, job: Job) -> Result<Job, JobError>
    ensures { UnlessMemory result (IsAnswer (Ok job) result) }
{
    match overlaps(alloc, job.memory.as_slice()) {
        Ok(true) => Err(JobError::Overlap),
        Ok(false) => Ok(job),
        Err(AllocError) => Err(JobError::Memory),
    }
}

/// The job that a JSON text says.
///
/// # Errors
///
/// The first of these: `NotJson` where the bytes are no JSON text; `Missing` or `BadField` of the first field that isn't there or has
/// another form; `TooLarge` of the first limit that is passed; `Overlap` where two segments share a byte. `Memory` where memory is
/// wanting.
#[tactic(auto, using(crate::proofs::Faults::never_not_json, crate::proofs::Keeping::kept), unfolding(crate::specs::Reading::IsReading))]
pub fn read_job(alloc: Global, bytes: &[u8]) -> Result<Job, JobError>
    // What is answered is the answer to the bytes, and the only one, unless memory runs out.
    ensures found { UnlessMemory result (IsReading bytes.now result) }
    ensures only { (r : Result Job JobError) → IsReading bytes.now r → UnlessMemory result (result ≡ r) }
    ensures kept { IfOk result IsJob }
    ensures not_json { result ≡ Err JobError.NotJson → HasNoValue bytes.now }
{
    let value = parse(alloc, bytes)?;
    let job = read_value(alloc, &value)?;
    without_overlap(alloc, job)
}

/// The law of one answer: bytes say one job at most, and those that say a job are not refused, and bytes are refused for one reason.
pub fn one_reading()
    ensures { OneReading }
{}
