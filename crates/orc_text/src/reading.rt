//! Texts as programs.

ghost use Rattle.std.specs.Prelude.{◌≡◌, ◌<◌, ◌+◌, ◌^◌, false, Some, None, length, IfOk, IfErr, OnOk};
ghost use Rattle.std.specs.Result.{result_err};
ghost use Rattle.std.specs.List.{list_any};
ghost use Rattle.orc_words.specs.Text.{words, is_hash};
ghost use Rattle.orc_text.specs.Said.{say_words, counted};
ghost use Rattle.orc_text.specs.Faults.{line_fault};
ghost use Rattle.orc_text.specs.Reads.{Reads, found_or, text_fault};
ghost use Rattle.orc_text.specs.Refused.{Tells};
ghost use Rattle.orc_text.specs.Held.{said_of, Holds};
ghost use Rattle.orc_text.specs.Line.{line_of};

use crate::adding::{add, close};
use crate::directive::directive_of;
use crate::directive_line::directive_line;
use crate::fault::check;
use crate::instruction::instruction;
use crate::line::Line;
use crate::state::State;
use orc_program::{Fault, Program, new_program};
use orc_words::{Names, content, has_bad_byte, next_line, next_word, starts_with_dot};
use std::alloc::Global;

/// Why a text is no program.
#[derive(Debug, Drop)]
pub enum TextError {
    /// The first fault: that of the least line that has one.
    Fault {
        /// The line's number, counted from 1.
        line: u32,
        /// The first check of the line whose condition holds.
        fault: Fault,
    },
    /// Memory ran out.
    Memory,
}

/// What a line says, whose content is given, or its first fault.
#[tactic(auto, unfolding(crate::specs::Faults::line_fault))]
fn line_of(state: &State, line: &[u8]) -> Result<Line, Fault>
    requires few { state.now.lines + 1 < 2 ^ 32 }
    requires held { Holds state.now }
    ensures fault { result_err result ≡ line_fault (said_of state.now) line.now }
    ensures says { IfOk result (λ said. said ≡ line_of (said_of state.now) (words line.now)) }
{
    let Some((first, _)) = next_word(line) else {
        return Ok(Line::Blank);
    };
    check(has_bad_byte(line), Fault::BadByte)?;
    if starts_with_dot(first) {
        return directive_line(state, directive_of(first), line);
    }
    instruction(state, line)
}

/// One more line, whose content is given.
#[tactic(auto, using(crate::proofs::LineSaid::line_fits, crate::proofs::LineSaid::line_said))]
fn read_line(alloc: Global, state: &mut State, line: &[u8]) -> Result<(), TextError>
    requires few { state.old.lines + 1 < 2 ^ 32 }
    requires clean { list_any is_hash line.now ≡ false }
    requires held { Holds state.old }
    ensures passes { OnOk result (line_fault (said_of state.old) line.now ≡ None) }
    ensures says { OnOk result (said_of state.new ≡ counted (state.old.lines + 1) (say_words (said_of state.old) (words line.now))) }
    ensures held { OnOk result (Holds state.new) }
    ensures tells { IfErr result (λ e. Tells (found_or (state.old.lines + 1) (line_fault (said_of state.old) line.now) None) e) }
{
    let number = state.lines + 1;
    let said = match line_of(state, line) {
        Ok(said) => said,
        Err(fault) => {
            return Err(TextError::Fault {
                line: number,
                fault,
            });
        }
    };
    if add(alloc, state, said, line).is_err() {
        return Err(TextError::Memory);
    }
    state.lines = number;
    Ok(())
}

/// The program that a text says, or its first fault. The text has fewer than 2^32 bytes.
pub fn read(alloc: Global, text: &[u8]) -> Result<Program, TextError>
    requires { length text.now < 2 ^ 32 }
    ensures reads { IfOk result (λ p. Reads text.now p) }
    ensures tells { IfErr result (λ e. Tells (text_fault text.now) e) }
{
    let mut state = State {
        lines: 0,
        program: new_program(alloc),
        names: Names::new(alloc),
        current: None,
    };
    let mut rest = text;
    while !rest.is_empty() {
        let (line, more) = next_line(rest);
        read_line(alloc, &mut state, content(line))?;
        rest = more;
    }
    if close(&mut state).is_err() {
        return Err(TextError::Memory);
    }
    Ok(state.program)
}
