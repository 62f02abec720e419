//! The C of a text.
ghost use Rattle.std.specs.Prelude.{◌≡◌, ◌≤◌, false, None, length, IfOk};
ghost use Rattle.orc_program.specs.Program.{has_far, first_far_line};
ghost use Rattle.orc_text.specs.Each.{OneForEach};
ghost use Rattle.orcc_top.specs.Replies.{Replies};
ghost use Rattle.orcc_top.specs.Translation.{MeansAs};

use crate::command::Command;
use crate::parsing::read_near;
use crate::reply::Reply;
use c_emit::{emit, print};
use c_run::{CFunction, CFunctions, CTree};
use orc_program::Function;
use std::alloc::{AllocError, Global};

/// A function's function of C.
fn function_of(alloc: Global, f: &Function) -> Result<CFunction, AllocError>
    requires near { has_far f.now ≡ false }
    ensures { IfOk result (λ c. MeansAs f.now c) }
{
    emit(alloc, f)
}

/// The functions of C of a program's functions.
fn functions_of(alloc: Global, functions: &[Function]) -> Result<CFunctions, AllocError>
    requires near { first_far_line functions.now ≡ None }
    ensures { IfOk result (λ found. OneForEach MeansAs functions.now found) }
{
    let mut found = CFunctions::new(alloc);
    for f in functions {
        let c = function_of(alloc, f)?;
        found.push(c)?;
    }
    Ok(found)
}

/// What `c` answers to a text.
pub fn translate_text(alloc: Global, text: &[u8]) -> Result<Reply, AllocError>
    requires { length text.now ≤ 1048576 }
    ensures { IfOk result (λ reply. Replies Command.C text.now reply) }
{
    match read_near(alloc, text)? {
        Ok(program) => {
            let functions = functions_of(alloc, program.functions.as_slice())?;
            Ok(Reply::Output(print(alloc, &CTree { functions })?))
        }
        Err(line) => Ok(Reply::Refusal(line)),
    }
}
