//! The lists of a job.

ghost use Rattle.std.specs.Prelude.{◌≡◌, ◌≤◌, length, option_map};
ghost use Rattle.serde_json.specs.View.{view, items_view};
ghost use Rattle.orc_job.specs.Forms.{wrapped, place_in, segment_in, size_in, each, list_in, few_in};
ghost use Rattle.orc_job.specs.Told.{Formed};

use crate::forms::{Unformed, place_in, segment_in, size_in, wrapped_in};
use arrayvec::ArrayVec;
use orc_bits::Parts;
use orc_program::{Params, Places};
use serde_json::Value;
use sqlite_items::Items;
use std::alloc::Global;

/// The sizes of arrays' elements in bytes.
pub type Sizes = ArrayVec<u8, 12>;

/// The places of these values.
fn each_place(values: &[Value]) -> Option<Places>
    requires { length values.now ≤ 12 }
    ensures { option_map (λ ps. ps.items) result ≡ each place_in (items_view values.now) }
{
    let mut places = Places::new();
    let mut left = values;
    while let [value, rest @ ..] = left {
        places.push(place_in(value)?);
        left = rest;
    }
    Some(places)
}

/// The places of at most 12 arrays.
#[tactic(auto, using(crate::proofs::Each::few, crate::proofs::Each::many))]
pub fn places_in(value: &Value) -> Option<Places>
    ensures { option_map (λ ps. ps.items) result ≡ few_in 12 place_in (view value.now) }
{
    let values = value.as_array()?;
    if values.len() > 12 {
        return None;
    }
    each_place(values)
}

/// The sizes of these values' elements.
fn each_size(values: &[Value]) -> Option<Sizes>
    requires { length values.now ≤ 12 }
    ensures { option_map (λ ns. ns.items) result ≡ each size_in (items_view values.now) }
{
    let mut sizes = Sizes::new();
    let mut left = values;
    while let [value, rest @ ..] = left {
        sizes.push(size_in(value)?);
        left = rest;
    }
    Some(sizes)
}

/// The sizes of the elements of at most 12 arrays.
#[tactic(auto, using(crate::proofs::Each::few, crate::proofs::Each::many))]
pub fn sizes_in(value: &Value) -> Option<Sizes>
    ensures { option_map (λ ns. ns.items) result ≡ few_in 12 size_in (view value.now) }
{
    let values = value.as_array()?;
    if values.len() > 12 {
        return None;
    }
    each_size(values)
}

/// The numbers of these values.
fn each_number(values: &[Value]) -> Option<Params>
    requires { length values.now ≤ 8 }
    ensures { option_map (λ ns. ns.items) result ≡ each wrapped (items_view values.now) }
{
    let mut numbers = Params::new();
    let mut left = values;
    while let [value, rest @ ..] = left {
        numbers.push(wrapped_in(value)?);
        left = rest;
    }
    Some(numbers)
}

/// The numbers of at most 8 parameters.
#[tactic(auto, using(crate::proofs::Each::few, crate::proofs::Each::many))]
pub fn params_in(value: &Value) -> Option<Params>
    ensures { option_map (λ ns. ns.items) result ≡ few_in 8 wrapped (view value.now) }
{
    let values = value.as_array()?;
    if values.len() > 8 {
        return None;
    }
    each_number(values)
}

/// The segments of these values.
fn each_segment(alloc: Global, values: &[Value]) -> Result<Parts, Unformed>
    ensures { Formed result (each segment_in (items_view values.now)) }
{
    let mut parts = Items::new(alloc);
    let mut left = values;
    while let [value, rest @ ..] = left {
        let part = segment_in(alloc, value)?;
        if parts.push(part).is_err() {
            return Err(Unformed::Memory);
        }
        left = rest;
    }
    Ok(parts)
}

/// The segments of memory.
pub fn segments_in(alloc: Global, value: &Value) -> Result<Parts, Unformed>
    ensures { Formed result (list_in segment_in (view value.now)) }
{
    match value.as_array() {
        Some(values) => each_segment(alloc, values),
        None => Err(Unformed::Other),
    }
}
