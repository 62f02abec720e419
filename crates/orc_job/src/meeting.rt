//! Calls that meet the facts of their function.

ghost use Rattle.std.specs.Prelude.{◌≡◌, ◌==◌, ◌%◌, true, OnOk, length};
ghost use Rattle.orc_program.specs.Facts.{meets, is_aligned, are_aligned, call_meets};
ghost use Rattle.orc_job.specs.Limits.{meeting};

use crate::error::{Field, JobError};
use orc_program::{Call, CountFacts, Facts, Place};

/// Whether a number is a multiple of another one, of which 0 is that of 0 alone.
fn is_multiple(n: u64, divisor: u64) -> bool
    ensures { result ≡ (n % divisor == 0) }
{
    if divisor == 0 {
        n == 0
    } else {
        n % divisor == 0
    }
}

fn count_meets(facts: CountFacts, count: u32) -> bool
    ensures { result ≡ meets facts count }
{
    (facts.exact == 0 || facts.exact == count)
        && is_multiple(u64::from(count), u64::from(facts.mult))
        && facts.min <= count
        && count <= facts.max
}

/// Whether an array's base, and where there are rows its stride, are multiples of an align.
fn is_aligned(two_d: bool, align: u16, place: Place) -> bool
    ensures { result ≡ is_aligned two_d align place }
{
    is_multiple(place.base, u64::from(align))
        && (!two_d || is_multiple(place.stride.cast_unsigned(), u64::from(align)))
}

fn are_aligned(two_d: bool, aligns: &[u16], places: &[Place]) -> bool
    ensures { result ≡ are_aligned two_d aligns.now places.now }
{
    let [align, aligns @ ..] = aligns else {
        return true;
    };
    let [place, places @ ..] = places else {
        return true;
    };
    is_aligned(two_d, *align, *place) && are_aligned(two_d, aligns, places)
}

/// Whether a call meets the facts of its function, which has rows or none.
///
/// # Errors
///
/// `BadField` of the first that doesn't: n, then m where the function has rows, then the arrays.
pub fn meets(facts: &Facts, two_d: bool, call: &Call) -> Result<(), JobError>
    requires { length facts.now.aligns.items ≡ length call.now.arrays.items }
    ensures value { result ≡ meeting facts.now two_d call.now }
    ensures met { OnOk result (call_meets facts.now two_d call.now ≡ true) }
{
    if !count_meets(facts.n, call.n) {
        return Err(JobError::BadField { field: Field::N });
    }
    if two_d && !count_meets(facts.m, call.m) {
        return Err(JobError::BadField { field: Field::M });
    }
    if !are_aligned(two_d, facts.aligns.as_slice(), call.arrays.as_slice()) {
        return Err(JobError::BadField {
            field: Field::Arrays,
        });
    }
    Ok(())
}
