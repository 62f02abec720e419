//! The printed outcome of drawn turns.
ghost use Rattle.std.specs.Prelude.{◌≡◌, ◌++◌, ◌+◌, ◌^◌, ◌<◌, ◌≤◌, IfOk, OnOk, string_bytes, length};
ghost use Rattle.orc_worlds.specs.Played.{end_text, part_text, parts_text, played_text};

use crate::playing::Played;
use orc_job::{put_accs, put_memory, why_text};
use orc_jobs::Stopped;
use std::alloc::{AllocError, Global};

/// The first line, without its end.
fn end_text(alloc: Global, why: Stopped, turns: u64) -> Result<String, AllocError>
    ensures { IfOk result (λ text. string_bytes text ≡ end_text why turns) }
{
    match why {
        Stopped::Played => format!(in alloc; "end played {turns}"),
        Stopped::Trapped { runner, trap } => {
            let reason = why_text(trap.why);
            let at = trap.at;
            format!(in alloc; "end trap {runner} {reason} 0x{at:x} {turns}")
        }
        Stopped::Budget => format!(in alloc; "end budget {turns}"),
    }
}

/// Appends a part's line.
fn put_part(alloc: Global, out: &mut Vec<u8>, number: u32, steps: u64) -> Result<(), AllocError>
    ensures { OnOk result (out.new.items ≡ out.old.items ++ part_text number steps) }
{
    let line = format!(in alloc; "part {number} {steps}\n")?;
    out.extend_from_slice(line.as_bytes())
}

/// Appends the parts from number `first` on, each on a line.
fn put_parts(alloc: Global, out: &mut Vec<u8>, first: u32, steps: &[u64]) -> Result<(), AllocError>
    requires { first + length steps.now < 2 ^ 32 }
    ensures { OnOk result (out.new.items ≡ out.old.items ++ parts_text first steps.now) }
{
    let [count, rest @ ..] = steps else {
        return Ok(());
    };
    put_part(alloc, out, first, *count)?;
    put_parts(alloc, out, first + 1, rest)
}

/// The text of an outcome, in lines. The first says why no more turns were taken, and how many were. Then there are a line
/// `part K STEPS` for each part from 0, a line `acc G VALUE` for each accumulator from 0 and a line `mem AT HEX` for each
/// segment in the job's order, with its bytes at the end. Numbers are decimal, but for a trap's address and the bytes, which
/// are hexadecimal in lower case.
#[tactic(auto, unfolding(crate::specs::Played::played_text))]
pub fn print_played(alloc: Global, o: &Played) -> Result<Vec<u8>, AllocError>
    ensures { IfOk result (λ text. text.items ≡ played_text o.now) }
{
    let mut out = Vec::new(alloc);
    let first = end_text(alloc, o.why, o.turns)?;
    out.extend_from_slice(first.as_bytes())?;
    out.push(b'\n')?;
    put_parts(alloc, &mut out, 0, o.steps.as_slice())?;
    put_accs(alloc, &mut out, 0, o.accs.as_slice())?;
    put_memory(alloc, &mut out, o.memory.as_slice())?;
    Ok(out)
}
