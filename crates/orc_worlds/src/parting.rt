//! The parts of a job's call, and their world.
ghost use Rattle.std.specs.Prelude.{◌≡◌, ◌<◌, ◌≤◌, ◌+◌, ◌++◌, length, OnOk, IfOk};
ghost use Rattle.std.specs.Int.{w64, cast_unsigned};
ghost use Rattle.std.specs.Int.RustNames.{FitsSigned};
ghost use Rattle.orc_image.specs.Spelling.{IsFunction};
ghost use Rattle.orc_jobs.specs.World.{seen, stand_of};
ghost use Rattle.orc_parts.specs.Even.{begin_of, even_part};
ghost use Rattle.orc_worlds.specs.Meeting.{part_meeting, first_meeting, parts_meeting};
ghost use Rattle.orc_worlds.specs.Worlds.{block_of, stack_of, moved_place, moved_places, AreSigned, part_call, own_parts, part_stand, placed_world};

use crate::placing::{BLOCK, CODE, RETURN, block_bytes_of, copy_of, frame_of, state_at, word_of};
use orc_bits::{Part, Parts};
use orc_frame::FRAME_SIZE;
use orc_image::ImageFunction;
use orc_job::{Job, JobError, meets};
use orc_jobs::{Runner, World};
use orc_program::{Call, Params, Place, Places, Rect};
use sqlite_items::Items;
use std::alloc::{AllocError, Global};

/// From one part's block to the next part's, in bytes.
const APART: u64 = 0x10_0000;

/// From a part's block to its RSP at the entry, in bytes.
const STACK_ABOVE: u64 = 0x1_0000;

/// The address of the block of part `k`.
pub fn block_of(k: u8) -> u64
    ensures { result ≡ block_of k }
{
    BLOCK + u64::from(k) * APART
}

/// RSP at the entry of part `k`.
fn stack_of(k: u8) -> u64
    ensures { result ≡ stack_of k }
{
    block_of(k) + STACK_ABOVE
}

/// Where part `k` of so many begins.
#[tactic(auto, using(crate::proofs::Begins::begins_within))]
fn begin_of(count: u32, workers: u8, k: u8) -> u32
    requires some { 0 < workers }
    requires within { k ≤ workers }
    ensures { result ≡ begin_of count workers k }
{
    (u64::from(k) * u64::from(count) / u64::from(workers)) as u32
}

/// The rectangle of part `k` of so many.
#[tactic(auto, using(crate::proofs::Begins::rises_by_one))]
fn rect_of(two_d: bool, call: &Call, workers: u8, k: u8) -> Rect
    requires { k < workers }
    ensures { result ≡ even_part two_d call.now workers k }
{
    if two_d {
        let row = begin_of(call.m, workers, k);
        let rows = begin_of(call.m, workers, k + 1) - row;
        return Rect {
            row,
            rows,
            element: 0,
            elements: call.n,
        };
    }
    let element = begin_of(call.n, workers, k);
    let elements = begin_of(call.n, workers, k + 1) - element;
    Rect {
        row: 0,
        rows: 1,
        element,
        elements,
    }
}

/// An array with elements of a size, from its first cell in a rectangle on.
#[tactic(auto, using(crate::proofs::Begins::wrapped_twice))]
fn moved_place(q: Rect, place: Place, size: u8) -> Place
    ensures value { result ≡ moved_place q place size }
    ensures signed { FitsSigned w64 place.stride }
{
    let rows = u64::from(q.row).wrapping_mul(place.stride.cast_unsigned());
    let elements = u64::from(q.element) * u64::from(size);
    Place {
        base: place.base.wrapping_add(rows).wrapping_add(elements),
        stride: place.stride,
    }
}

/// Arrays, each with elements of a size, from their first cells in a rectangle on.
fn moved_places(q: Rect, places: &[Place], sizes: &[u8]) -> Places
    requires few { length places.now ≤ 12 }
    requires sized { length sizes.now ≡ length places.now }
    ensures value { result.items ≡ moved_places q places.now sizes.now }
    ensures signed { AreSigned places.now }
{
    let mut moved = Places::new();
    let mut sizes_left = sizes;
    let mut left = places;
    while let [place, rest @ ..] = left {
        let [size, others @ ..] = sizes_left else {
            return moved;
        };
        moved.push(moved_place(q, *place, *size));
        sizes_left = others;
        left = rest;
    }
    moved
}

/// The call of a rectangle.
fn part_call(call: &Call, sizes: &[u8], q: Rect) -> Result<Call, AllocError>
    requires { length sizes.now ≡ length call.now.arrays.items }
    ensures value { IfOk result (λ part. part ≡ part_call call.now sizes.now q) }
    ensures signed { OnOk result (AreSigned call.now.arrays.items) }
{
    Ok(Call {
        n: q.elements,
        m: q.rows,
        arrays: moved_places(q, call.arrays.as_slice(), sizes),
        params: call.params.clone()?,
    })
}

/// Whether the call of part `k` meets the facts of its function.
fn part_meets(
    f: &ImageFunction,
    job: &Job,
    sizes: &[u8],
    workers: u8,
    k: u8,
) -> Result<(), JobError>
    requires arrays { length job.now.call.arrays.items ≡ f.now.dests + f.now.sources }
    requires sized { length sizes.now ≡ length job.now.call.arrays.items }
    requires within { k < workers }
    ensures { result ≡ part_meeting f.now job.now sizes.now workers k }
{
    let q = rect_of(f.two_d, &job.call, workers, k);
    // no fact speaks of parameters
    let call = Call {
        n: q.elements,
        m: q.rows,
        arrays: moved_places(q, job.call.arrays.as_slice(), sizes),
        params: Params::new(),
    };
    meets(&f.facts, f.two_d, &call)
}

/// Whether the call of each part meets the facts of its function. The parts are asked in order.
///
/// # Errors
///
/// `BadField` of the first that doesn't, as [`meets`] answers for its call.
#[tactic(auto, using(crate::proofs::Meet::one_met, crate::proofs::Meet::all_met))]
pub fn parts_meet(f: &ImageFunction, job: &Job, sizes: &[u8], workers: u8) -> Result<(), JobError>
    requires arrays { length job.now.call.arrays.items ≡ f.now.dests + f.now.sources }
    requires sized { length sizes.now ≡ length job.now.call.arrays.items }
    ensures { result ≡ parts_meeting f.now job.now sizes.now workers }
{
    for k in 0..workers {
        part_meets(f, job, sizes, workers, k)?;
    }
    Ok(())
}

/// Appends the mapped bytes that are part `k`'s alone.
fn put_own(
    alloc: Global,
    parts: &mut Parts,
    dests: usize,
    call: &Call,
    k: u8,
) -> Result<(), AllocError>
    requires { dests ≤ length call.now.arrays.items }
    ensures value { OnOk result (parts.new ≡ parts.old ++ own_parts dests call.now k) }
    ensures few { OnOk result (length call.now.params.items ≤ 8) }
{
    parts.push(Part {
        at: block_of(k),
        bytes: block_bytes_of(alloc, dests, call)?,
    })?;
    parts.push(Part {
        at: stack_of(k),
        bytes: word_of(alloc, RETURN)?,
    })?;
    parts.push(Part {
        at: stack_of(k) - FRAME_SIZE as u64,
        bytes: frame_of(alloc)?,
    })
}

/// The runner of part `k`.
fn runner_of(alloc: Global, f: &ImageFunction, k: u8) -> Result<Runner, AllocError>
    ensures { IfOk result (λ r. stand_of r ≡ part_stand f.now k) }
{
    Ok(Runner {
        state: state_at(block_of(k), stack_of(k)),
        code_at: CODE,
        code: Items::from_slice(alloc, f.code_bytes())?,
        stop_rip: RETURN,
        stop_rsp: stack_of(k) + 8,
        steps: 0,
    })
}

/// The world of as many runners as there are workers, each of which stands at the start of its part of a job's call.
pub fn world_of(
    alloc: Global,
    f: &ImageFunction,
    job: &Job,
    sizes: &[u8],
    workers: u8,
) -> Result<World, AllocError>
    requires counts { f.now.dests ≤ length job.now.call.arrays.items }
    requires sized { length sizes.now ≡ length job.now.call.arrays.items }
    ensures world { IfOk result (λ w. seen w ≡ placed_world f.now job.now sizes.now workers) }
    ensures signed { OnOk result (0 < workers → AreSigned job.now.call.arrays.items) }
    ensures few { OnOk result (0 < workers → length job.now.call.params.items ≤ 8) }
{
    let mut parts = copy_of(alloc, job.memory.as_slice())?;
    let mut runners = Vec::new(alloc);
    for k in 0..workers {
        let call = part_call(&job.call, sizes, rect_of(f.two_d, &job.call, workers, k))?;
        put_own(alloc, &mut parts, usize::from(f.dests), &call, k)?;
        runners.push(runner_of(alloc, f, k)?)?;
    }
    match World::build(alloc, parts, runners) {
        Ok(world) => Ok(world),
        Err(_) => Err(AllocError),
    }
}
