//! The map.

ghost use Rattle.std.specs.Prelude.{◌≡◌, ◌+◌, ◌<◌, ◌-◌, ◌%◌, ◌^◌, ℕ, Some, true, false, length, get_or, is_some, if◌then◌else◌, IfOk, OnOk, IfErr, IfSome};
ghost use Rattle.orc_bits.specs.Memory.{put, fill, all_mapped};
ghost use Rattle.orc_bits.specs.Parts.{layout, memory_of, Overlaps};
ghost use Rattle.orc_memory.specs.Extents.{IsIndex, IsSpot};

use crate::extents::{Extent, index, place_of};
use orc_bits::{BuildError, Part, Parts};
use sqlite_items::Items;
use std::alloc::Global;
use std::marker::Model;

/// Bytes at addresses: parts of which no two share an address, in the order given.
#[derive(Debug, Drop)]
pub struct PartMap {
    parts: Vec<Part>,
    extents: Vec<Extent>,
}

impl Model for PartMap {
    ghost use Rattle.std.specs.Prelude.{List};
    ghost use Rattle.orc_bits.specs.declared.parts.Part.{Part};
    ghost use Rattle.orc_bits.specs.Parts.{layout};
    ghost use Rattle.orc_memory.specs.Extents.{IsIndex};

    ghost Value = { List Part };

    ghost view = { λ m. m.parts.items };

    ghost invariant = { λ m. IsIndex (layout m.parts.items) m.extents.items };
}

/// The byte at an address of the parts, where one is mapped.
fn byte_of(parts: &[Part], extents: &[Extent], at: u64) -> Option<u8>
    requires { IsIndex (layout parts.now) extents.now }
    ensures { result ≡ memory_of parts.now at }
{
    let part = &parts[place_of(parts, extents, at)?];
    Some(part.bytes.as_slice()[(at - part.at) as usize])
}

/// Changes the byte at an address of the parts, where one is mapped.
fn change(parts: &mut [Part], extents: &[Extent], at: u64, b: u8) -> bool
    requires { IsIndex (layout parts.old) extents.now }
    ensures mapped { result ≡ is_some (memory_of parts.old at) }
    ensures memory { memory_of parts.new ≡ (if result then put (memory_of parts.old) at b else memory_of parts.old) }
    ensures layout { layout parts.new ≡ layout parts.old }
    ensures unchanged { result ≡ false → parts.new ≡ parts.old }
{
    match place_of(parts, extents, at) {
        Some(k) => {
            let part = &mut parts[k];
            let i = (at - part.at) as usize;
            part.bytes.set(i, b);
            true
        }
        None => false,
    }
}

/// Where bytes that stand side by side in one part begin.
#[derive(Clone, Copy)]
struct Spot {
    /// The place of the part, from 0.
    part: usize,
    /// The place of the first byte in it, from 0.
    first: usize,
}

/// The spot of n bytes from an address on, where one part has them all and none passes the last address.
fn spot_of(parts: &[Part], extents: &[Extent], at: u64, n: usize) -> Option<Spot>
    requires { IsIndex (layout parts.now) extents.now }
    ensures { IfSome result (λ spot. IsSpot (layout parts.now) at n spot.part spot.first) }
{
    let place = place_of(parts, extents, at)?;
    let part = &parts[place];
    let first = (at - part.at) as usize;
    if n <= part.bytes.len() - first && n as u64 <= u64::MAX - at {
        Some(Spot { part: place, first })
    } else {
        None
    }
}

/// The n bytes from an address on, where they stand side by side in one part.
fn slice_of<'a>(parts: &'a [Part], extents: &[Extent], at: u64, n: usize) -> Option<&'a [u8]>
    requires { IsIndex (layout parts.now) extents.now }
    ensures count { IfSome result (λ s. length s.now ≡ n) }
    ensures bytes { IfSome result (λ s. (j : ℕ) → j < n → memory_of parts.now ((at + j) % 2 ^ 64) ≡ Some (get_or s.now j 0)) }
{
    let spot = spot_of(parts, extents, at, n)?;
    let (_, rest) = parts[spot.part].bytes.as_slice().split_at(spot.first);
    let (slice, _) = rest.split_at(n);
    Some(slice)
}

/// Changes the bytes from an address on, where they stand side by side in one part.
fn change_slice(parts: &mut [Part], extents: &[Extent], at: u64, from: &[u8]) -> bool
    requires { IsIndex (layout parts.old) extents.now }
    ensures mapped { result ≡ true → all_mapped (length from.now) (memory_of parts.old) at ≡ true }
    ensures memory { memory_of parts.new ≡ (if result then fill (length from.now) (memory_of parts.old) at (λ j. get_or from.now j 0) else memory_of parts.old) }
    ensures layout { layout parts.new ≡ layout parts.old }
    ensures unchanged { result ≡ false → parts.new ≡ parts.old }
{
    let Some(spot) = spot_of(parts, extents, at, from.len()) else {
        return false;
    };
    for j in 0..from.len() {
        let part = &mut parts[spot.part];
        part.bytes.set(spot.first + j, from[j]);
    }
    true
}

/// The parts in the order given.
fn list(alloc: Global, mut parts: Parts) -> Option<Vec<Part>>
    ensures { IfSome result (λ v. v.items ≡ parts) }
{
    let mut own = Vec::new(alloc);
    while let Some(part) = parts.pop() {
        own.push(part).ok()?;
    }
    own.reverse();
    Some(own)
}

impl PartMap {
    /// The map that has the bytes of these parts. A refusal drops them.
    ///
    /// # Errors
    ///
    /// `Overlap` exactly where two parts share an address; `Memory` where memory is wanting.
    pub fn build(alloc: Global, parts: Parts) -> Result<PartMap, BuildError>
        ensures parts { IfOk result (λ map. map ≡ parts) }
        ensures apart { OnOk result (Overlaps (layout parts) → ⊥) }
        ensures overlap { IfErr result (λ e. e ≡ BuildError.Overlap → Overlaps (layout parts)) }
    {
        let Some(own) = list(alloc, parts) else {
            return Err(BuildError::Memory);
        };
        let extents = index(alloc, &own)?;
        Ok(PartMap {
            parts: own,
            extents,
        })
    }

    /// The parts in the order given, with their bytes as they are now.
    pub fn parts(&self) -> &[Part]
        ensures { result.now ≡ self.now }
    {
        &self.parts
    }

    /// Gives the parts back, in the order given, with their bytes as they are now.
    pub fn into_parts(self) -> Parts
        ensures { result ≡ self }
    {
        let PartMap { parts, .. } = self;
        Items::from_vec(parts)
    }

    /// The byte at an address, where one is mapped.
    pub fn get(&self, at: u64) -> Option<u8>
        ensures { result ≡ memory_of self.now at }
    {
        byte_of(&self.parts, &self.extents, at)
    }

    /// Changes the byte at an address. False exactly where none is mapped, and then nothing has changed.
    pub fn set(&mut self, at: u64, b: u8) -> bool
        ensures mapped { result ≡ is_some (memory_of self.old at) }
        ensures memory { memory_of self.new ≡ (if result then put (memory_of self.old) at b else memory_of self.old) }
        ensures layout { layout self.new ≡ layout self.old }
        ensures unchanged { result ≡ false → self.new ≡ self.old }
    {
        change(&mut self.parts, &self.extents, at, b)
    }

    /// The n bytes from an address on, where they stand side by side in one part; None where they don't.
    pub fn slice(&self, at: u64, n: usize) -> Option<&[u8]>
        ensures count { IfSome result (λ s. length s.now ≡ n) }
        ensures bytes { IfSome result (λ s. (j : ℕ) → j < n → memory_of self.now ((at + j) % 2 ^ 64) ≡ Some (get_or s.now j 0)) }
    {
        slice_of(&self.parts, &self.extents, at, n)
    }

    /// Changes the bytes from an address on, where they stand side by side in one part. False where they don't, and then
    /// nothing has changed.
    pub fn set_slice(&mut self, at: u64, from: &[u8]) -> bool
        ensures mapped { result ≡ true → all_mapped (length from.now) (memory_of self.old) at ≡ true }
        ensures memory { memory_of self.new ≡ (if result then fill (length from.now) (memory_of self.old) at (λ j. get_or from.now j 0) else memory_of self.old) }
        ensures layout { layout self.new ≡ layout self.old }
        ensures unchanged { result ≡ false → self.new ≡ self.old }
    {
        change_slice(&mut self.parts, &self.extents, at, from)
    }
}
