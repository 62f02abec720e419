//! The summary of the generator's jobs.
ghost use Rattle.std.specs.Prelude.{◌≡◌, ◌++◌, ◌%◌, ◌^◌, ◌<◌, length, IfOk, OnOk};
ghost use Rattle.std.specs.List.{AllByRecursion};
ghost use Rattle.orc_job.specs.Kept.{IsJob};
ghost use Rattle.orcc_top.specs.Summary.{elements_sum, first_bytes, line_text, IsLine, AreLines, AreCodes, IsSummary, Extends};

use crate::assembly::image_of;
use crate::execution::{entry_called, executed};
use orc_bits::Part;
use orc_gen::generate;
use orc_image::{Image, ImageFunction};
use orc_job::{EndLine, Job};
use orc_ops::Target;
use orc_program::first_far_line;
use orc_text::read;
use std::alloc::{AllocError, Global};

/// The sum of numbers of four bytes each, lowest byte first, modulo 2^32.
fn sum_of(bytes: &[u8]) -> u32
    ensures { result ≡ elements_sum bytes.now % 2 ^ 32 }
{
    let [a, b, c, d, rest @ ..] = bytes else {
        return 0;
    };
    u32::from_le_bytes([*a, *b, *c, *d]).wrapping_add(sum_of(rest))
}

/// The sum of the dest's elements, modulo 2^32. The dest's segment is the first.
fn dest_sum(memory: &[Part]) -> u32
    ensures { result ≡ elements_sum (first_bytes memory.now) % 2 ^ 32 }
{
    match memory {
        [dest, ..] => sum_of(dest.bytes.as_slice()),
        [] => 0,
    }
}

/// Appends the line of a job whose run returned after so many steps.
fn put_text(
    alloc: Global,
    out: &mut Vec<u8>,
    job: &Job,
    sum: u32,
    steps: u64,
) -> Result<(), AllocError>
    ensures { OnOk result (out.new.items ≡ out.old.items ++ line_text job.now.function sum steps) }
{
    let figures = format!(in alloc; " sum {sum} steps {steps}\n")?;
    out.extend_from_slice(job.function.as_slice())?;
    out.extend_from_slice(figures.as_bytes())
}

/// Appends the line of a job, run on the code of the function that it calls.
fn put_line(
    alloc: Global,
    out: &mut Vec<u8>,
    functions: &[ImageFunction],
    job: &Job,
) -> Result<(), AllocError>
    requires { IsJob job.now }
    ensures { OnOk result (Extends (IsLine functions.now job.now) out.old.items out.new.items) }
{
    let Ok(f) = entry_called(functions, job) else {
        return Err(AllocError);
    };
    let outcome = executed(alloc, f, job)?;
    let EndLine::Returned { steps } = outcome.end else {
        return Err(AllocError);
    };
    let sum = dest_sum(outcome.memory.as_slice());
    put_text(alloc, out, job, sum, steps)
}

/// Appends the lines of jobs, in order.
fn put_lines(
    alloc: Global,
    out: &mut Vec<u8>,
    functions: &[ImageFunction],
    jobs: &[Job],
) -> Result<(), AllocError>
    requires { AllByRecursion IsJob jobs.now }
    ensures { OnOk result (Extends (AreLines functions.now jobs.now) out.old.items out.new.items) }
{
    let [job, rest @ ..] = jobs else {
        return Ok(());
    };
    put_line(alloc, out, functions, job)?;
    put_lines(alloc, out, functions, rest)
}

/// Codes of a text's functions, in order.
fn codes_of(alloc: Global, text: &[u8]) -> Result<Image, AllocError>
    requires { length text.now < 2 ^ 32 }
    ensures { IfOk result (λ image. AreCodes text.now image.functions) }
{
    let program = match read(alloc, text) {
        Ok(program) => program,
        Err(_) => return Err(AllocError),
    };
    let functions = program.functions.as_slice();
    // the generator draws no far loads
    if first_far_line(functions).is_some() {
        return Err(AllocError);
    }
    match image_of(alloc, functions, Target::Sse2) {
        Ok(image) => Ok(image),
        Err(_) => Err(AllocError),
    }
}

/// The summary of a number: the generator's text is assembled, and its jobs are run on the code.
pub fn summary_of(alloc: Global, seed: u64) -> Result<Vec<u8>, AllocError>
    ensures { IfOk result (λ bytes. IsSummary seed bytes.items) }
{
    let made = generate(alloc, seed)?;
    let image = codes_of(alloc, made.text.as_slice())?;
    let mut out = Vec::new(alloc);
    put_lines(
        alloc,
        &mut out,
        image.functions.as_slice(),
        made.jobs.as_slice(),
    )?;
    Ok(out)
}
