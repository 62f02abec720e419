//! Reading a text, or refusing it.
ghost use Rattle.std.specs.Prelude.{◌≡◌, ◌<◌, ◌^◌, length, string_bytes, IfOk, MatchResult};
ghost use Rattle.orc_text.specs.Reads.{Reads};
ghost use Rattle.orc_program.specs.declared.fault.Fault.TheVariants as fault;
ghost use Rattle.orcc_top.specs.declared.refusal.Refusal.TheVariants as refusal;
ghost use Rattle.orcc_top.specs.Refusals as refusals;
ghost use Rattle.orcc_top.specs.Texts.{TellsFault, TellsNear, ReadsNear};

use crate::refusal::{Refusal, line_of};
use orc_program::{Fault, Program, first_far_line};
use orc_text::{TextError, read};
use std::alloc::{AllocError, Global};

/// The program that a text reads as, or the line that refuses the text for its first fault.
pub fn read_text(alloc: Global, text: &[u8]) -> Result<Result<Program, String>, AllocError>
    requires { length text.now < 2 ^ 32 }
    ensures { IfOk result (λ told. MatchResult told (λ p. Reads text.now p) (λ line. TellsFault text.now (string_bytes line))) }
{
    match read(alloc, text) {
        Ok(program) => Ok(Ok(program)),
        Err(TextError::Fault { line, fault }) => {
            Ok(Err(line_of(alloc, Refusal::Text { line, fault })?))
        }
        Err(TextError::Memory) => Err(AllocError),
    }
}

/// The line that refuses a text for a far load at this line.
fn far_line(alloc: Global, line: u32) -> Result<String, AllocError>
    ensures { IfOk result (λ told. string_bytes told ≡ refusals.line_of (refusal.Text line fault.Unsupported)) }
{
    line_of(
        alloc,
        Refusal::Text {
            line,
            fault: Fault::Unsupported,
        },
    )
}

/// The program without far loads that a text reads as, or the line that refuses the text for its first fault, or else for its first
/// far load.
pub fn read_near(alloc: Global, text: &[u8]) -> Result<Result<Program, String>, AllocError>
    requires { length text.now < 2 ^ 32 }
    ensures { IfOk result (λ told. MatchResult told (λ p. ReadsNear text.now p) (λ line. TellsNear text.now (string_bytes line))) }
{
    let program = match read_text(alloc, text)? {
        Ok(program) => program,
        Err(line) => return Ok(Err(line)),
    };
    match first_far_line(program.functions.as_slice()) {
        Some(line) => Ok(Err(far_line(alloc, line)?)),
        None => Ok(Ok(program)),
    }
}
