//! What a command answers to its input.
ghost use Rattle.std.specs.Prelude.{◌≡◌, ◌≤◌, ℕ, List, length, IfOk, IfErr};
ghost use Rattle.orc_io.specs.Causes.{Rose};
ghost use Rattle.orc_io.specs.Streams.{TakesAtMost};
ghost use Rattle.orcc_top.specs.Answer.{limit_of};
ghost use Rattle.orcc_top.specs.Runs.{Takes};
ghost use Rattle.orcc_top.specs.Replies.{Replies};

use crate::assembly::{Form, assemble_text};
use crate::checking::check_text;
use crate::command::Command;
use crate::emulation::emulate_job;
use crate::execution::run_job;
use crate::formatting::format_text;
use crate::listing::disassemble;
use crate::prototypes::declare_text;
use crate::refusal::{Refusal, line_of};
use crate::reply::Reply;
use crate::sharing::share_job;
use crate::translating::translate_text;
use orc_io::{Source, TakeFault, read_all};
use std::alloc::{AllocError, Global};

/// Why there is no reply.
#[derive(Clone, Copy, Debug, PartialEq, Eq)]
pub enum Stop {
    /// The input failed.
    Read,
    /// Want of memory.
    Memory,
}

impl From<AllocError> for Stop {
    ghost use Rattle.orcc_top.specs.declared.answer.Stop.{Stop};

    ghost from_gives = { λ _ stop. stop ≡ Stop.Memory };

    fn from(_error: AllocError) -> Stop {
        Stop::Memory
    }
}

/// What a command answers to an input within its limit.
fn reply_within(alloc: Global, command: Command, input: &[u8]) -> Result<Reply, AllocError>
    requires { length input.now ≤ limit_of command }
    ensures { IfOk result (λ reply. Replies command input.now reply) }
{
    match command {
        Command::Asm(target) => assemble_text(alloc, Form::Image(target), input),
        Command::C => translate_text(alloc, input),
        Command::Check(target) => check_text(alloc, input, target),
        Command::Fmt => format_text(alloc, input),
        Command::Run => run_job(alloc, input),
        Command::Dis => disassemble(alloc, input),
        Command::Emulate => emulate_job(alloc, input),
        Command::Obj => assemble_text(alloc, Form::Object, input),
        Command::Header => declare_text(alloc, input),
        Command::Lib(target) => assemble_text(alloc, Form::Library(target), input),
        Command::Jobs(workers) => share_job(alloc, input, workers),
    }
}

/// Reads the input of a command, and answers it.
pub fn reply_to<S: Source>(alloc: Global, command: Command, input: &mut S) -> Result<Reply, Stop>
    ensures reply { IfOk result (λ reply. (taken : List ℕ) × Takes (limit_of command) (S.left input.old) (S.left input.new) taken × Replies command taken reply) }
    ensures read { IfErr result (λ stop. stop ≡ Stop.Read → Rose (S.faults input.old) (S.faults input.new)) }
    ensures taken { IfErr result (λ stop. stop ≡ Stop.Read → TakesAtMost (limit_of command) (S.left input.old) (S.left input.new)) }
{
    match read_all(alloc, input, command.limit()) {
        Ok(bytes) => Ok(reply_within(alloc, command, bytes.as_slice())?),
        Err(TakeFault::Read) => Err(Stop::Read),
        Err(TakeFault::TooLong) => Ok(Reply::Refusal(line_of(alloc, Refusal::TooLong)?)),
        Err(TakeFault::Memory) => Err(Stop::Memory),
    }
}
