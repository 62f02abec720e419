//! The C header of a text.
ghost use Rattle.std.specs.Prelude.{◌≤◌, length, IfOk};
ghost use Rattle.orcc_top.specs.Replies.{Replies};

use crate::command::Command;
use crate::parsing::read_text;
use crate::reply::Reply;
use orc_prototype::header;
use std::alloc::{AllocError, Global};

/// What `header` answers to a text.
pub fn declare_text(alloc: Global, text: &[u8]) -> Result<Reply, AllocError>
    requires { length text.now ≤ 1048576 }
    ensures { IfOk result (λ reply. Replies Command.Header text.now reply) }
{
    match read_text(alloc, text)? {
        Ok(program) => Ok(Reply::Output(header(alloc, &program, text)?)),
        Err(line) => Ok(Reply::Refusal(line)),
    }
}
