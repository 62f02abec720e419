//! The forms of the values in a job.

ghost use Rattle.std.specs.Prelude.{◌≡◌, ◌^◌, codes};
ghost use Rattle.serde_json.specs.View.{view};
ghost use Rattle.orc_job.specs.Forms.{whole, below, signed, wrapped, name_in, bytes_in, part_in, size_in, place_in, if_within, segment_in};
ghost use Rattle.orc_job.specs.Told.{Formed};

use hex::FromHexError;
use orc_bits::Part;
use orc_program::{Name, Place};
use serde_json::Value;
use sqlite_items::Items;
use std::alloc::Global;

/// Why a value is refused.
#[derive(Clone, Copy, Debug)]
pub enum Unformed {
    /// It has another form.
    Other,
    /// There was not enough memory.
    Memory,
}

/// A whole number below 2^31.
pub fn count_in(value: &Value) -> Option<u32>
    ensures { result ≡ below (2 ^ 31) (view value.now) }
{
    match value.as_u64() {
        Some(n) if n < 0x8000_0000 => Some(n as u32),
        _ => None,
    }
}

/// A whole number of 64 bits without a sign.
pub fn whole_in(value: &Value) -> Option<u64>
    ensures { result ≡ whole (view value.now) }
{
    value.as_u64()
}

/// A whole number of 64 bits with a sign.
fn signed_in(value: &Value) -> Option<i64>
    ensures { result ≡ signed (view value.now) }
{
    value.as_i64()
}

/// A whole number of 64 bits with or without a sign, modulo 2^64.
pub fn wrapped_in(value: &Value) -> Option<u64>
    ensures { result ≡ wrapped (view value.now) }
{
    match value.as_u64() {
        Some(n) => Some(n),
        None => match value.as_i64() {
            Some(n) => Some(n.cast_unsigned()),
            None => None,
        },
    }
}

/// A text that is a name.
pub fn name_in(value: &Value) -> Option<Name>
    ensures { result ≡ name_in (view value.now) }
{
    match value.as_str() {
        Some(text) => Name::new(text.as_bytes()),
        None => None,
    }
}

/// The base of an array.
fn base_in(value: &Value) -> Option<u64>
    ensures { result ≡ part_in (codes "base") whole (view value.now) }
{
    match value.get("base") {
        Some(inner) => whole_in(inner),
        None => None,
    }
}

/// The stride of an array.
fn stride_in(value: &Value) -> Option<i64>
    ensures { result ≡ part_in (codes "stride") signed (view value.now) }
{
    match value.get("stride") {
        Some(inner) => signed_in(inner),
        None => None,
    }
}

/// The number beside an array's `size`.
fn size_number(value: &Value) -> Option<u64>
    ensures { result ≡ part_in (codes "size") whole (view value.now) }
{
    match value.get("size") {
        Some(inner) => whole_in(inner),
        None => None,
    }
}

/// The size of an array's elements: 1, 2, 4 or 8 bytes.
#[tactic(auto, unfolding(crate::specs::Forms::size_in))]
pub fn size_in(value: &Value) -> Option<u8>
    ensures { result ≡ size_in (view value.now) }
{
    match size_number(value)? {
        1 => Some(1),
        2 => Some(2),
        4 => Some(4),
        8 => Some(8),
        _ => None,
    }
}

/// The place of an array.
#[tactic(auto, unfolding(crate::specs::Forms::place_in))]
pub fn place_in(value: &Value) -> Option<Place>
    ensures { result ≡ place_in (view value.now) }
{
    let base = base_in(value)?;
    let stride = stride_in(value)?;
    Some(Place { base, stride })
}

/// Bytes as a text of hexadecimal digits, of either case.
fn bytes_in(alloc: Global, value: &Value) -> Result<Items<u8>, Unformed>
    ensures { Formed result (bytes_in (view value.now)) }
{
    let Some(text) = value.as_str() else {
        return Err(Unformed::Other);
    };
    match hex::decode(alloc, text) {
        Ok(bytes) => Ok(Items::from_vec(bytes)),
        Err(FromHexError::OutOfMemory) => Err(Unformed::Memory),
        Err(_) => Err(Unformed::Other),
    }
}

/// The address of a segment.
fn start_in(value: &Value) -> Option<u64>
    ensures { result ≡ part_in (codes "at") whole (view value.now) }
{
    match value.get("at") {
        Some(inner) => whole_in(inner),
        None => None,
    }
}

/// The bytes of a segment.
fn content_in(alloc: Global, value: &Value) -> Result<Items<u8>, Unformed>
    ensures { Formed result (part_in (codes "bytes") bytes_in (view value.now)) }
{
    match value.get("bytes") {
        Some(inner) => bytes_in(alloc, inner),
        None => Err(Unformed::Other),
    }
}

/// The lowest address of a job's memory.
const LOWEST: u64 = 4096;

/// The greatest end of a job's segments.
const HIGHEST: u64 = 0x6000_0000_0000;

/// Bytes at an address, where a job's memory may have them.
fn segment_at(at: u64, bytes: Items<u8>) -> Option<Part>
    ensures { result ≡ if_within at bytes }
{
    if LOWEST <= at && at <= HIGHEST && bytes.len() as u64 <= HIGHEST - at {
        Some(Part { at, bytes })
    } else {
        None
    }
}

/// A segment of memory.
#[tactic(auto, unfolding(crate::specs::Forms::segment_in))]
pub fn segment_in(alloc: Global, value: &Value) -> Result<Part, Unformed>
    ensures { Formed result (segment_in (view value.now)) }
{
    let Some(at) = start_in(value) else {
        return Err(Unformed::Other);
    };
    let bytes = content_in(alloc, value)?;
    match segment_at(at, bytes) {
        Some(part) => Ok(part),
        None => Err(Unformed::Other),
    }
}
