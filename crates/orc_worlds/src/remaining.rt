//! What a memory has at the end of a run.
ghost use Rattle.std.specs.Prelude.{◌≡◌, ◌<◌, ◌≤◌, ◌+◌, ◌^◌, ℕ, Some, IfOk};
ghost use Rattle.orc_bits.specs.Memory.{IsMapped, word};
ghost use Rattle.orc_bits.specs.Parts.{span, memory_of};
ghost use Rattle.orc_worlds.specs.Mapped.{IsMappedPart, AreMapped};
ghost use Rattle.orc_worlds.specs.Now.{IsPartOf, AreNow};

use orc_bits::{Part, Parts};
use sqlite_items::Items;
use std::alloc::{AllocError, Global};
use x86_ins::state::Bytes;
use x86_machine::Segments;

/// The byte at an address that is mapped.
fn byte_at(memory: &Segments, at: u64) -> u8
    requires { IsMapped (memory_of memory.now) at }
    ensures { memory_of memory.now at ≡ Some result }
{
    match memory.get(at) {
        Some(byte) => byte,
        None => unreachable!(),
    }
}

/// The word at an address whose eight bytes are mapped.
pub fn word_at(memory: &Segments, at: u64) -> u64
    requires mapped { (i : ℕ) → i < 8 → IsMapped (memory_of memory.now) (at + i) }
    requires low { at + 8 ≤ 2 ^ 64 }
    ensures { word (memory_of memory.now) at ≡ Some result }
{
    u64::from_le_bytes([
        byte_at(memory, at),
        byte_at(memory, at + 1),
        byte_at(memory, at + 2),
        byte_at(memory, at + 3),
        byte_at(memory, at + 4),
        byte_at(memory, at + 5),
        byte_at(memory, at + 6),
        byte_at(memory, at + 7),
    ])
}

/// A part with its bytes as they are now.
fn part_now(alloc: Global, memory: &Segments, part: &Part) -> Result<Part, AllocError>
    requires { IsMappedPart (memory_of memory.now) part.now }
    ensures lies { IfOk result (λ now. span now ≡ span part.now) }
    ensures has { IfOk result (λ now. IsPartOf (memory_of memory.now) now) }
{
    let mut bytes = Items::new(alloc);
    for i in 0..part.bytes.len() {
        bytes.push(byte_at(memory, part.at + i as u64))?;
    }
    Ok(Part { at: part.at, bytes })
}

/// Parts, all of whose bytes are mapped, with their bytes as they are now.
pub fn parts_now(alloc: Global, memory: &Segments, parts: &[Part]) -> Result<Parts, AllocError>
    requires { AreMapped (memory_of memory.now) parts.now }
    ensures { IfOk result (λ now. AreNow (memory_of memory.now) parts.now now) }
{
    let mut now = Items::new(alloc);
    let mut left = parts;
    while let [part, rest @ ..] = left {
        now.push(part_now(alloc, memory, part)?)?;
        left = rest;
    }
    Ok(now)
}
