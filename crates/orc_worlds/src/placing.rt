//! Where a function's code and a job are placed to be run.
ghost use Rattle.std.specs.Prelude.{◌≡◌, ◌≤◌, ◌++◌, ◌∷◌, [], length, OnOk, IfOk, take, drop, replicate};
ghost use Rattle.std.specs.Int.{w64, cast_unsigned};
ghost use Rattle.orc_bits.specs.Parts.{memory_of};
ghost use Rattle.orc_frame.specs.Layout.{frame_size};
ghost use Rattle.orc_image.specs.Spelling.{IsFunction};
ghost use Rattle.x86_machine.specs.Ends.{code_of, point, stop_of};
ghost use Rattle.orc_worlds.specs.Placement.{stack_at, return_to, word_bytes, frame_bytes, words_bytes, place_bytes, places_bytes, padded, block_bytes, placed_parts, state_at, start, placed_code, stop};

use orc_bits::{Part, Parts};
use orc_frame::{BLOCK_SIZE, FRAME_SIZE, base_word, param_word};
use orc_image::ImageFunction;
use orc_job::Job;
use orc_program::{Call, Place};
use sqlite_items::Items;
use std::alloc::{AllocError, Global};
use x86_ins::state::State;
use x86_machine::{Machine, Segments};

/// The address of the code's first byte.
pub const CODE: u64 = 0x6000_0000_0000;

/// The address of the argument block.
pub const BLOCK: u64 = 0x7000_0000_0000;

/// RSP at the entry, where the return word stands.
const STACK: u64 = 0x7000_0001_0000;

/// The value of the return word.
pub const RETURN: u64 = 0x7f00_0000_0000;

/// The array slot of the first source.
const FIRST_SOURCE: usize = 4;

/// A byte of the frame, and of each register that holds nothing else.
const FILLER: u8 = 0xa5;

/// Appends a word, lowest byte first.
#[tactic(auto, unfolding(crate::specs::Placement::word_bytes))]
fn put_word(out: &mut Vec<u8>, word: u64) -> Result<(), AllocError>
    ensures { OnOk result (out.new.items ≡ out.old.items ++ word_bytes word) }
{
    out.extend_from_slice(&word.to_le_bytes())
}

/// Appends words.
fn put_words(out: &mut Vec<u8>, words: &[u64]) -> Result<(), AllocError>
    ensures { OnOk result (out.new.items ≡ out.old.items ++ words_bytes words.now) }
{
    let [word, rest @ ..] = words else {
        return Ok(());
    };
    put_word(out, *word)?;
    put_words(out, rest)
}

/// Appends the words of a base and a stride.
fn put_place(out: &mut Vec<u8>, place: Place) -> Result<(), AllocError>
    ensures { OnOk result (out.new.items ≡ out.old.items ++ place_bytes place) }
{
    put_word(out, place.base)?;
    put_word(out, place.stride.cast_unsigned())
}

/// Appends the words of bases and strides.
fn put_places(out: &mut Vec<u8>, places: &[Place]) -> Result<(), AllocError>
    ensures { OnOk result (out.new.items ≡ out.old.items ++ places_bytes places.now) }
{
    let [place, rest @ ..] = places else {
        return Ok(());
    };
    put_place(out, *place)?;
    put_places(out, rest)
}

/// Appends zeros up to a length.
fn pad(out: &mut Vec<u8>, size: usize) -> Result<(), AllocError>
    ensures { OnOk result (out.new.items ≡ padded size out.old.items) }
{
    while out.len() < size {
        out.push(0)?;
    }
    Ok(())
}

/// The bytes of the argument block of a call, whose first arrays are so many dests.
#[tactic(auto, unfolding(crate::specs::Placement::block_bytes))]
pub fn block_bytes_of(alloc: Global, dests: usize, call: &Call) -> Result<Items<u8>, AllocError>
    requires { dests ≤ length call.now.arrays.items }
    ensures value { IfOk result (λ bytes. bytes ≡ block_bytes dests call.now) }
    ensures few { OnOk result (length call.now.params.items ≤ 8) }
{
    let (written, read) = call.arrays.as_slice().split_at(dests);
    let mut out = Vec::new(alloc);
    put_word(&mut out, u64::from(call.n))?;
    put_word(&mut out, u64::from(call.m))?;
    put_places(&mut out, written)?;
    pad(&mut out, base_word(FIRST_SOURCE))?;
    put_places(&mut out, read)?;
    pad(&mut out, param_word(0))?;
    put_words(&mut out, call.params.as_slice())?;
    pad(&mut out, BLOCK_SIZE)?;
    Ok(Items::from_vec(out))
}

/// A copy of parts.
pub fn copy_of(alloc: Global, parts: &[Part]) -> Result<Parts, AllocError>
    ensures { IfOk result (λ copy. copy ≡ parts.now) }
{
    let mut copy = Items::new(alloc);
    let mut left = parts;
    while let [part, rest @ ..] = left {
        copy.push(Part {
            at: part.at,
            bytes: Items::from_slice(alloc, part.bytes.as_slice())?,
        })?;
        left = rest;
    }
    Ok(copy)
}

/// The bytes of a word.
pub fn word_of(alloc: Global, word: u64) -> Result<Items<u8>, AllocError>
    ensures { IfOk result (λ bytes. bytes ≡ word_bytes word) }
{
    let mut out = Vec::new(alloc);
    put_word(&mut out, word)?;
    Ok(Items::from_vec(out))
}

/// The bytes of the frame, which ends where the return word begins.
#[tactic(auto, unfolding(crate::specs::Placement::frame_bytes))]
pub fn frame_of(alloc: Global) -> Result<Items<u8>, AllocError>
    ensures { IfOk result (λ bytes. bytes ≡ frame_bytes) }
{
    Items::from_slice(alloc, &[FILLER; FRAME_SIZE])
}

/// The bytes that are mapped at the start of a job.
#[tactic(auto, using(crate::proofs::Padding::three_more), unfolding(crate::specs::Placement::placed_parts))]
fn parts_of(alloc: Global, dests: usize, job: &Job) -> Result<Parts, AllocError>
    requires { dests ≤ length job.now.call.arrays.items }
    ensures { IfOk result (λ parts. parts ≡ placed_parts dests job.now) }
{
    let mut parts = copy_of(alloc, job.memory.as_slice())?;
    parts.push(Part {
        at: BLOCK,
        bytes: block_bytes_of(alloc, dests, &job.call)?,
    })?;
    parts.push(Part {
        at: STACK,
        bytes: word_of(alloc, RETURN)?,
    })?;
    parts.push(Part {
        at: STACK - FRAME_SIZE as u64,
        bytes: frame_of(alloc)?,
    })?;
    Ok(parts)
}

/// The state at the code's first byte, with a block at one address and RSP at another.
pub fn state_at(block: u64, stack: u64) -> State
    ensures { result ≡ state_at block stack }
{
    let mut gpr = [u64::from_le_bytes([FILLER; 8]); 16];
    gpr[4] = stack;
    gpr[7] = block;
    State {
        gpr,
        xmm: [[FILLER; 16]; 16],
        flags: None,
        rip: CODE,
    }
}

/// The machine at the start of a job on a function.
pub fn machine_of(alloc: Global, f: &ImageFunction, job: &Job) -> Result<Machine, AllocError>
    requires { f.now.dests ≤ length job.now.call.arrays.items }
    ensures code { IfOk result (λ m. code_of m ≡ placed_code f.now) }
    ensures stop { IfOk result (λ m. stop_of m ≡ stop) }
    ensures start { IfOk result (λ m. point m ≡ start f.now.dests job.now) }
{
    let code = Items::from_slice(alloc, f.code_bytes())?;
    let parts = parts_of(alloc, usize::from(f.dests), job)?;
    let Ok(memory) = Segments::build(alloc, parts) else {
        return Err(AllocError);
    };
    Ok(Machine {
        state: state_at(BLOCK, STACK),
        code_at: CODE,
        code,
        memory,
        stop_rip: RETURN,
        stop_rsp: STACK + 8,
    })
}
