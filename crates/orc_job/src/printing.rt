//! Printed results.

ghost use Rattle.std.specs.Prelude.{◌≡◌, ◌++◌, ◌+◌, ◌^◌, ◌<◌, IfOk, OnOk, string_bytes, length};
ghost use Rattle.orc_job.specs.Printed.{why_text, end_text, acc_text, accs_text, segment_text, memory_text, rest_text, result_text};

use crate::outcome::{EndLine, Outcome};
use orc_bits::Part;
use std::alloc::{AllocError, Global};
use x86_ins::Why;

/// The name of a reason.
pub fn why_text(why: Why) -> &'static str
    ensures { result.now ≡ why_text why }
{
    match why {
        Why::Misaligned => "Misaligned",
        Why::Unmapped => "Unmapped",
        Why::NoFlags => "NoFlags",
        Why::NoCode => "NoCode",
        Why::NoRow => "NoRow",
    }
}

/// The first line, without its end.
fn end_text(alloc: Global, end: EndLine) -> Result<String, AllocError>
    ensures { IfOk result (λ text. string_bytes text ≡ end_text end) }
{
    match end {
        EndLine::Returned { steps } => format!(in alloc; "end returned {steps}"),
        EndLine::Trap { why, at, steps } => {
            let reason = why_text(why);
            format!(in alloc; "end trap {reason} 0x{at:x} {steps}")
        }
        EndLine::Budget { steps } => format!(in alloc; "end budget {steps}"),
        EndLine::Emulated => String::from_str(alloc, "end emulated"),
        EndLine::Unmapped { row, element, at } => format!(in alloc;
            "end unmapped {row} {element} {at}"
        ),
    }
}

/// Appends an accumulator's line.
fn put_acc(alloc: Global, out: &mut Vec<u8>, number: u32, value: u64) -> Result<(), AllocError>
    ensures { OnOk result (out.new.items ≡ out.old.items ++ acc_text number value) }
{
    let line = format!(in alloc; "acc {number} {value}\n")?;
    out.extend_from_slice(line.as_bytes())
}

/// Appends the accumulators from number `first` on, each on a line.
pub fn put_accs(
    alloc: Global,
    out: &mut Vec<u8>,
    first: u32,
    accs: &[u64],
) -> Result<(), AllocError>
    requires { first + length accs.now < 2 ^ 32 }
    ensures { OnOk result (out.new.items ≡ out.old.items ++ accs_text first accs.now) }
{
    let [value, rest @ ..] = accs else {
        return Ok(());
    };
    put_acc(alloc, out, first, *value)?;
    put_accs(alloc, out, first + 1, rest)
}

/// Appends a segment's line.
fn put_segment(alloc: Global, out: &mut Vec<u8>, part: &Part) -> Result<(), AllocError>
    ensures { OnOk result (out.new.items ≡ out.old.items ++ segment_text part.now) }
{
    let at = part.at;
    let start = format!(in alloc; "mem {at} ")?;
    let digits = hex::encode(alloc, part.bytes.as_slice())?;
    out.extend_from_slice(start.as_bytes())?;
    out.extend_from_slice(digits.as_bytes())?;
    out.push(b'\n')?;
    Ok(())
}

/// Appends the segments' lines.
pub fn put_memory(alloc: Global, out: &mut Vec<u8>, parts: &[Part]) -> Result<(), AllocError>
    ensures { OnOk result (out.new.items ≡ out.old.items ++ memory_text parts.now) }
{
    let mut left = parts;
    while let [part, rest @ ..] = left {
        put_segment(alloc, out, part)?;
        left = rest;
    }
    Ok(())
}

/// Appends what stands behind the first line.
fn put_rest(alloc: Global, out: &mut Vec<u8>, o: &Outcome) -> Result<(), AllocError>
    ensures { OnOk result (out.new.items ≡ out.old.items ++ rest_text o.now.end o.now.accs.items o.now.memory) }
{
    if let EndLine::Unmapped { .. } = o.end {
        return Ok(());
    }
    put_accs(alloc, out, 0, o.accs.as_slice())?;
    put_memory(alloc, out, o.memory.as_slice())
}

/// The text of a result, in lines. The first says how the job ended. Behind an emulation that met an unmapped byte nothing follows;
/// else there are a line `acc G VALUE` for each accumulator from 0 and a line `mem AT HEX` for each segment in the job's order, with
/// its bytes at the end. Numbers are decimal, but for a trap's address and the bytes, which are hexadecimal in lower case.
#[tactic(auto, unfolding(crate::specs::Printed::result_text))]
pub fn print_result(alloc: Global, o: &Outcome) -> Result<Vec<u8>, AllocError>
    ensures { IfOk result (λ text. text.items ≡ result_text o.now) }
{
    let mut out = Vec::new(alloc);
    let first = end_text(alloc, o.end)?;
    out.extend_from_slice(first.as_bytes())?;
    out.push(b'\n')?;
    put_rest(alloc, &mut out, o)?;
    Ok(out)
}
