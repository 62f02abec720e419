//! Parts in the order of their addresses.

ghost use Rattle.std.specs.Prelude.{◌≡◌, ◌↔◌, ◌<◌, ◌≤◌, ◌-◌, ℕ, true, false, length, All, IfOk, IfErr, IfSome, OnOk, IsTrue};
ghost use Rattle.std.specs.List.Sorted.{IsNonDecreasingBy};
ghost use Rattle.orc_bits.specs.Parts.{layout, span_at, Finds, Overlaps};
ghost use Rattle.orc_memory.specs.Extents.{spans, AreApart, AreExtents, IsIndex};

use orc_bits::{BuildError, Part};
use std::alloc::{AllocError, Global};

/// Where a part that has bytes lies, and its place among the parts.
#[derive(Clone, Copy, Debug)]
pub struct Extent {
    /// The address of its first byte.
    pub at: u64,
    /// Its number of bytes.
    pub count: u64,
    /// Its place, from 0.
    pub place: usize,
}

/// The extents of the parts that have bytes, in the order given.
fn gather(alloc: Global, parts: &[Part]) -> Result<Vec<Extent>, AllocError>
    ensures { IfOk result (λ v. AreExtents (layout parts.now) v.items) }
{
    let mut extents = Vec::new(alloc);
    for (place, part) in parts.iter().enumerate() {
        let count = part.bytes.len() as u64;
        if count > 0 {
            extents.push(Extent {
                at: part.at,
                count,
                place,
            })?;
        }
    }
    Ok(extents)
}

/// The extents of the parts that have bytes, sorted by address.
fn sorted(alloc: Global, parts: &[Part]) -> Result<Vec<Extent>, AllocError>
    ensures extents { IfOk result (λ v. AreExtents (layout parts.now) v.items) }
    ensures order { IfOk result (λ v. IsNonDecreasingBy (λ e. e.at) v.items) }
{
    let mut extents = gather(alloc, parts)?;
    extents.sort_by_key(|e| e.at)?;
    Ok(extents)
}

/// Whether an extent, none of which is empty, shares an address with the one before it.
fn meet(extents: &[Extent]) -> bool
    requires some { All (λ e. 0 < e.count) extents.now }
    requires order { IsNonDecreasingBy (λ e. e.at) extents.now }
    ensures yes { result ≡ true → Overlaps (spans extents.now) }
    ensures no { result ≡ false → AreApart (spans extents.now) }
{
    for i in 1..extents.len() {
        let before = extents[i - 1];
        if extents[i].at - before.at < before.count {
            return true;
        }
    }
    false
}

/// The extents of parts of which no two share an address, sorted.
///
/// # Errors
///
/// `Overlap` exactly where two parts share an address; `Memory` where memory is wanting.
pub fn index(alloc: Global, parts: &[Part]) -> Result<Vec<Extent>, BuildError>
    ensures index { IfOk result (λ v. IsIndex (layout parts.now) v.items) }
    ensures apart { OnOk result (Overlaps (layout parts.now) → ⊥) }
    ensures overlap { IfErr result (λ e. e ≡ BuildError.Overlap → Overlaps (layout parts.now)) }
{
    let Ok(extents) = sorted(alloc, parts) else {
        return Err(BuildError::Memory);
    };
    if meet(&extents) {
        return Err(BuildError::Overlap);
    }
    Ok(extents)
}

/// Whether two of the parts share an address.
///
/// # Errors
///
/// Where memory is wanting.
pub fn overlaps(alloc: Global, parts: &[Part]) -> Result<bool, AllocError>
    ensures { IfOk result (λ b. IsTrue b ↔ Overlaps (layout parts.now)) }
{
    match index(alloc, parts) {
        Ok(_) => Ok(false),
        Err(BuildError::Overlap) => Ok(true),
        Err(BuildError::Memory) => Err(AllocError),
    }
}

/// How many extents begin at an address or before it.
fn begun(extents: &[Extent], at: u64) -> usize
    requires { AreApart (spans extents.now) }
    ensures within { result ≤ length extents.now }
    ensures before { (j : ℕ) → j < result → (span_at (spans extents.now) j).at ≤ at }
    ensures behind { (j : ℕ) → result ≤ j → j < length extents.now → at < (span_at (spans extents.now) j).at }
{
    extents.partition_point(|e| e.at <= at)
}

/// The place of the part that has the byte at an address.
pub fn place_of(parts: &[Part], extents: &[Extent], at: u64) -> Option<usize>
    requires { IsIndex (layout parts.now) extents.now }
    ensures value { Finds parts.now at result }
    ensures within { IfSome result (λ k. k < length parts.now) }
{
    let count = begun(extents, at);
    if count == 0 {
        return None;
    }
    let last = extents[count - 1];
    if at - last.at < last.count {
        Some(last.place)
    } else {
        None
    }
}
