//! A finite store of bytes.

ghost use Rattle.std.specs.Prelude.{◌≡◌, is_some, if◌then◌else◌, false, IfOk, OnOk, IfErr};
ghost use Rattle.std.specs.List.{list_all};
ghost use Rattle.orc_bits.specs.Memory.{put};
ghost use Rattle.orc_bits.specs.Parts.{span, layout, memory_of, Overlaps};
ghost use Rattle.orc_emul.specs.Store.{is_low, AreLow};

use orc_bits::{BuildError, Part, Parts};
use orc_memory::PartMap;
use std::alloc::Global;
use std::marker::Model;

/// Bytes at addresses: parts of which no two share an address, in the order given.
#[derive(Debug, Drop)]
pub struct Store {
    map: PartMap,
}

impl Model for Store {
    ghost use Rattle.std.specs.Prelude.{List};
    ghost use Rattle.orc_bits.specs.declared.parts.Part.{Part};
    ghost use Rattle.orc_bits.specs.Parts.{layout};
    ghost use Rattle.orc_emul.specs.Store.{AreLow};

    ghost Value = { List Part };

    ghost view = { λ s. s.map };

    ghost invariant = { λ s. AreLow (layout s.map) };
}

/// Whether a part ends at 2^64 or below.
fn is_low(part: &Part) -> bool
    ensures { result ≡ is_low (span part.now) }
{
    let at = part.at;
    let count = part.bytes.len() as u64;
    count == 0 || at <= u64::MAX - (count - 1)
}

fn all_low(parts: &[Part]) -> bool
    ensures { result ≡ list_all (λ p. is_low (span p)) parts.now }
{
    parts.iter().all(|p| is_low(p))
}

/// Whether none of the parts ends above 2^64, as a store asks it.
pub fn are_low(parts: &[Part]) -> bool
    ensures { result ≡ list_all is_low (layout parts.now) }
{
    all_low(parts)
}

impl Store {
    /// A store of these parts, none of which ends above 2^64. A refusal drops them.
    ///
    /// # Errors
    ///
    /// `Overlap` exactly where two parts share a byte; `Memory` where memory is wanting.
    pub fn build(alloc: Global, parts: Parts) -> Result<Store, BuildError>
        requires { AreLow (layout parts) }
        ensures parts { IfOk result (λ store. store ≡ parts) }
        ensures apart { OnOk result (Overlaps (layout parts) → ⊥) }
        ensures overlap { IfErr result (λ e. e ≡ BuildError.Overlap → Overlaps (layout parts)) }
    {
        let map = PartMap::build(alloc, parts)?;
        Ok(Store { map })
    }

    /// The parts in the order given, with their bytes as they are now.
    pub fn parts(&self) -> &[Part]
        ensures { result.now ≡ self.now }
    {
        self.map.parts()
    }

    /// Gives the parts back, in the order given, with their bytes as they are now.
    pub fn into_parts(self) -> Parts
        ensures { result ≡ self }
    {
        let Store { map } = self;
        map.into_parts()
    }

    /// The byte at an address, where one is mapped.
    pub fn get(&self, at: u64) -> Option<u8>
        ensures { result ≡ memory_of self.now at }
    {
        self.map.get(at)
    }

    /// Changes the byte at an address. False exactly where none is mapped, and then nothing has changed.
    pub fn set(&mut self, at: u64, b: u8) -> bool
        ensures mapped { result ≡ is_some (memory_of self.old at) }
        ensures memory { memory_of self.new ≡ (if result then put (memory_of self.old) at b else memory_of self.old) }
        ensures layout { layout self.new ≡ layout self.old }
        ensures unchanged { result ≡ false → self.new ≡ self.old }
    {
        self.map.set(at, b)
    }
}
