//! The figures of a text's functions.
ghost use Rattle.std.specs.Prelude.{◌≡◌, ◌≤◌, ◌++◌, length, IfOk, OnOk};
ghost use Rattle.orc_program.specs.Need.{largest_need};
ghost use Rattle.orcc_top.specs.Figures.{figures_line, figures_text};
ghost use Rattle.orcc_top.specs.Replies.{Replies};

use crate::command::Command;
use crate::parsing::read_text;
use crate::reply::Reply;
use orc_ops::Target;
use orc_plan::{cost_for, lanes, lower, widest_need};
use orc_program::Function;
use std::alloc::{AllocError, Global};

/// The largest number of values that an instruction of the function needs at once.
#[tactic(auto, using(orc_plan::proofs::SameNeed::widest_is))]
fn need_of(f: &Function) -> u32
    ensures { result ≡ largest_need f.now }
{
    widest_need(&lower(f))
}

/// Appends a function's line.
fn put_figures(
    alloc: Global,
    out: &mut Vec<u8>,
    f: &Function,
    target: Target,
) -> Result<(), AllocError>
    ensures { OnOk result (out.new.items ≡ out.old.items ++ figures_line target f.now) }
{
    let need = need_of(f);
    let lanes = lanes(f);
    let cost = cost_for(f, target);
    let figures = format!(in alloc; " need {need} lanes {lanes} cost {cost}\n")?;
    out.extend_from_slice(f.name.as_slice())?;
    out.extend_from_slice(figures.as_bytes())
}

/// Appends a line for each function.
fn put_all(
    alloc: Global,
    out: &mut Vec<u8>,
    functions: &[Function],
    target: Target,
) -> Result<(), AllocError>
    ensures { OnOk result (out.new.items ≡ out.old.items ++ figures_text target functions.now) }
{
    let mut left = functions;
    while let [f, rest @ ..] = left {
        put_figures(alloc, out, f, target)?;
        left = rest;
    }
    Ok(())
}

/// What `check` and `check41` answer to a text.
pub fn check_text(alloc: Global, text: &[u8], target: Target) -> Result<Reply, AllocError>
    requires { length text.now ≤ 1048576 }
    ensures { IfOk result (λ reply. Replies (Command.Check target) text.now reply) }
{
    match read_text(alloc, text)? {
        Ok(program) => {
            let mut out = Vec::new(alloc);
            put_all(alloc, &mut out, program.functions.as_slice(), target)?;
            Ok(Reply::Output(out))
        }
        Err(line) => Ok(Reply::Refusal(line)),
    }
}
