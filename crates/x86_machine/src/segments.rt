//! A memory of bytes, in segments.

ghost use Rattle.std.specs.Prelude.{◌≡◌, IfOk, OnOk, IfErr};
ghost use Rattle.orc_bits.specs.Parts.{layout, memory_of, Overlaps};

use orc_bits::{BuildError, Parts};
use orc_memory::PartMap;
use std::alloc::Global;
use std::marker::Model;
use x86_ins::state::Bytes;

/// A memory: segments of bytes, of which no two share an address.
#[derive(Debug, Drop)]
pub struct Segments {
    map: PartMap,
}

impl Model for Segments {
    ghost use Rattle.std.specs.Prelude.{List};
    ghost use Rattle.orc_bits.specs.declared.parts.Part.{Part};

    ghost Value = { List Part };

    ghost view = { λ s. s.map };
}

impl Segments {
    /// The memory that has the bytes of these parts. A refusal drops them.
    ///
    /// # Errors
    ///
    /// `Overlap` exactly where two parts share an address; `Memory` where memory is wanting.
    pub fn build(alloc: Global, parts: Parts) -> Result<Segments, BuildError>
        ensures memory { IfOk result (λ s. memory_of s ≡ memory_of parts) }
        ensures apart { OnOk result (Overlaps (layout parts) → ⊥) }
        ensures overlap { IfErr result (λ e. e ≡ BuildError.Overlap → Overlaps (layout parts)) }
    {
        let map = PartMap::build(alloc, parts)?;
        Ok(Segments { map })
    }
}

impl Bytes for Segments {
    ghost use Rattle.orc_bits.specs.Parts.{memory_of};

    ghost bytes = { memory_of };

    fn mapped(&self, at: u64) -> bool {
        self.map.get(at).is_some()
    }

    fn get(&self, at: u64) -> Option<u8> {
        self.map.get(at)
    }

    fn set(&mut self, at: u64, b: u8) -> bool {
        self.map.set(at, b)
    }

    fn slice(&self, at: u64, n: usize) -> Option<&[u8]> {
        self.map.slice(at, n)
    }

    fn set_slice(&mut self, at: u64, from: &[u8]) -> bool {
        self.map.set_slice(at, from)
    }
}
