//! The jobs.
ghost use Rattle.std.specs.Prelude.{◌≡◌, ◌∷◌, [], ◌++◌, ◌<◌, codes, decimal, IfOk, OnOk};
ghost use Rattle.orc_gen.specs.Generator.{joined, after, elements, place, zeros, segments, job_of, job_at};

use crate::drawing::draw;
use orc_bits::{Part, Parts};
use orc_job::Job;
use orc_program::{Call, Name, Params, Place, Places};
use sqlite_items::Items;
use std::alloc::{AllocError, Global};

/// The elements of an array, which are its one row.
const ELEMENTS: u32 = 1024;

/// The bytes of an array.
const BYTES: usize = 4096;

/// Where the dest begins.
const DEST: u64 = 65_536;

/// Where the first source begins.
const FIRST: u64 = 131_072;

/// Where the second source begins.
const SECOND: u64 = 196_608;

/// The steps that are allowed.
const BUDGET: u64 = 100_000_000;

/// The bytes of an array whose elements are drawn.
#[tactic(auto, unfolding(crate::specs::Generator::elements))]
fn draw_elements(alloc: Global, state: &mut u64) -> Result<Vec<u8>, AllocError>
    ensures bytes { IfOk result (λ bytes. bytes.items ≡ elements state.old) }
    ensures state { OnOk result (state.new ≡ after 1024 state.old) }
{
    let mut bytes = Vec::new(alloc);
    for _ in 0..ELEMENTS {
        let element = draw(state);
        bytes.extend_from_slice(&element.to_le_bytes())?;
    }
    Ok(bytes)
}

/// The name of a function.
#[tactic(auto, using(crate::proofs::Names::is_function_name))]
fn name_of(alloc: Global, number: u32) -> Result<Name, AllocError>
    requires { number < 8 }
    ensures { IfOk result (λ name. name ≡ codes "g" ++ decimal number) }
{
    let text = format!(in alloc; "g{number}")?;
    let Some(name) = Name::new(text.as_bytes()) else {
        unreachable!();
    };
    Ok(name)
}

/// The call of a function: one row, of arrays that lie apart.
fn call() -> Call
    ensures count { result.n ≡ 1024 }
    ensures rows { result.m ≡ 1 }
    ensures arrays { result.arrays.items ≡ place 65536 ∷ place 131072 ∷ place 196608 ∷ [] }
    ensures params { result.params.items ≡ [] }
{
    let mut arrays = Places::new();
    arrays.push(Place {
        base: DEST,
        stride: 0,
    });
    arrays.push(Place {
        base: FIRST,
        stride: 0,
    });
    arrays.push(Place {
        base: SECOND,
        stride: 0,
    });
    Call {
        n: ELEMENTS,
        m: 1,
        arrays,
        params: Params::new(),
    }
}

/// The bytes of the dest at the start.
#[tactic(auto, unfolding(crate::specs::Generator::zeros))]
fn zeros(alloc: Global) -> Result<Items<u8>, AllocError>
    ensures { IfOk result (λ bytes. bytes ≡ zeros) }
{
    Items::from_slice(alloc, &[0; BYTES])
}

/// The segments of a job: the dest's, and those of the sources.
fn segments(alloc: Global, first: &[u8], second: &[u8]) -> Result<Parts, AllocError>
    ensures { IfOk result (λ parts. parts ≡ segments first.now second.now) }
{
    let mut parts = Items::new(alloc);
    parts.push(Part {
        at: DEST,
        bytes: zeros(alloc)?,
    })?;
    parts.push(Part {
        at: FIRST,
        bytes: Items::from_slice(alloc, first)?,
    })?;
    parts.push(Part {
        at: SECOND,
        bytes: Items::from_slice(alloc, second)?,
    })?;
    Ok(parts)
}

/// The job of a function.
#[tactic(auto, unfolding(crate::specs::Generator::job_of))]
fn job_of(alloc: Global, first: &[u8], second: &[u8], number: u32) -> Result<Job, AllocError>
    requires { number < 8 }
    ensures { IfOk result (λ job. job ≡ job_of first.now second.now number) }
{
    Ok(Job {
        function: name_of(alloc, number)?,
        call: call(),
        memory: segments(alloc, first, second)?,
        budget: BUDGET,
    })
}

/// The jobs of all functions, from the state after the text's draws.
pub fn jobs(alloc: Global, state: u64) -> Result<Vec<Job>, AllocError>
    ensures { IfOk result (λ jobs. jobs.items ≡ joined (job_at (elements state) (elements (after 1024 state))) 8) }
{
    let mut state = state;
    let first = draw_elements(alloc, &mut state)?;
    let second = draw_elements(alloc, &mut state)?;
    let mut jobs = Vec::new(alloc);
    for number in 0..8 {
        jobs.push(job_of(alloc, first.as_slice(), second.as_slice(), number)?)?;
    }
    Ok(jobs)
}
