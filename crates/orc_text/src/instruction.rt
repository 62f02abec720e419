//! What an instruction line says, or its first fault.

ghost use Rattle.std.specs.Prelude.{◌≡◌, ◌<◌, ◌≤◌, ◌+◌, ◌++◌, ◌^◌, IfOk, OnOk, take, drop, length};
ghost use Rattle.std.specs.Result.{result_err};
ghost use Rattle.arrayvec.specs.ArrayVec.{array_vec_len};
ghost use Rattle.orc_program.specs.Checks.{or_else, result_fault, source_fault};
ghost use Rattle.orc_program.specs.Kept.{result_count, source_count};
ghost use Rattle.orc_words.specs.Text.{words};
ghost use Rattle.orc_text.specs.Said.{operand_of, operands_of, insn_of, split_prefix};
ghost use Rattle.orc_text.specs.Faults.{operand_word_fault, result_words_fault, source_words_fault, opcode_fault, insn_line_fault};
ghost use Rattle.orc_text.specs.Held.{said_of};
ghost use Rattle.orc_text.specs.Line.{insn_line};

use crate::fault::check;
use crate::line::{Line, Part};
use crate::state::{Current, State};
use arrayvec::ArrayVec;
use orc_ops::{Found, Op, find};
use orc_program::words::number_of;
use orc_program::{
    Fault, Function, Insn, Operand, check_result, check_source, is_bad_prefix, is_name,
    is_too_many, result_count, source_count,
};
use orc_words::{after, has_exactly, looks_like_number, next_word, prefix_of, word};

/// The variable at a place, as an operand.
fn operand_at(f: &Function, place: usize) -> Operand
    requires { place < length f.now.vars }
    ensures { result ≡ Operand.Var place }
{
    prove!(place < f.vars.len());
    Operand::Var(place as u16)
}

/// What an operand word stands for, by itself: a number, or the variable of this name.
#[tactic(auto, using(crate::proofs::Named::place_named, crate::proofs::Named::known_named))]
fn operand(current: &Current, word: &[u8]) -> Result<Operand, Fault>
    ensures fault { result_err result ≡ operand_word_fault current.now.function.vars word.now }
    ensures value { IfOk result (λ o. o ≡ operand_of current.now.function.vars word.now) }
{
    if looks_like_number(word) {
        return match number_of(word) {
            Some(number) => Ok(Operand::Number(number)),
            None => Err(Fault::BadNumber),
        };
    }
    check(!is_name(word), Fault::BadName)?;
    match current.names.place(word) {
        Some(place) => Ok(operand_at(&current.function, place)),
        None => Err(Fault::UnknownName),
    }
}

/// The number of an opcode's results.
#[tactic(auto, using(crate::proofs::Operands::count_few))]
fn results_of(op: Op) -> usize
    ensures value { result ≡ result_count op }
    ensures few { result ≤ 2 }
{
    result_count(op)
}

/// The number of an opcode's sources.
#[tactic(auto, using(crate::proofs::Operands::sources_few))]
fn sources_of(op: Op) -> usize
    ensures value { result ≡ source_count op }
    ensures few { result ≤ 3 }
{
    source_count(op)
}

/// What a result's word stands for at its position.
fn result_operand(
    current: &Current,
    op: Op,
    prefix: u8,
    position: usize,
    word: &[u8],
) -> Result<Operand, Fault>
    ensures fault { result_err result ≡ or_else (operand_word_fault current.now.function.vars word.now) (result_fault current.now.function.vars op prefix position (operand_of current.now.function.vars word.now)) }
    ensures value { IfOk result (λ o. o ≡ operand_of current.now.function.vars word.now) }
{
    let operand = operand(current, word)?;
    check_result(&current.function, op, prefix, position, operand)?;
    Ok(operand)
}

/// What a source's word stands for at its position.
fn source_operand(
    current: &Current,
    op: Op,
    prefix: u8,
    position: usize,
    word: &[u8],
) -> Result<Operand, Fault>
    ensures fault { result_err result ≡ or_else (operand_word_fault current.now.function.vars word.now) (source_fault current.now.function.vars current.now.function.insns op prefix position (operand_of current.now.function.vars word.now)) }
    ensures value { IfOk result (λ o. o ≡ operand_of current.now.function.vars word.now) }
{
    let operand = operand(current, word)?;
    check_source(&current.function, op, prefix, position, operand)?;
    Ok(operand)
}

/// Adds what a line's first words stand for as results from a position on.
#[tactic(auto, using(crate::proofs::Operands::take_next, crate::proofs::Operands::results_more, crate::proofs::Operands::put_more))]
fn put_results(
    current: &Current,
    op: Op,
    prefix: u8,
    count: usize,
    line: &[u8],
    operands: &mut ArrayVec<Operand, 2>,
) -> Result<(), Fault>
    requires { array_vec_len operands.old + count ≤ 2 }
    ensures fault { result_err result ≡ result_words_fault current.now.function.vars op prefix (array_vec_len operands.old) (take count (words line.now)) }
    ensures put { OnOk result (operands.new.items ≡ operands.old.items ++ operands_of current.now.function.vars (take count (words line.now))) }
{
    if count == 0 {
        return Ok(());
    }
    let Some((word, rest)) = next_word(line) else {
        return Ok(());
    };
    operands.push(result_operand(current, op, prefix, operands.len(), word)?);
    put_results(current, op, prefix, count - 1, rest, operands)
}

/// Adds what a line's words stand for as sources from a position on.
#[tactic(auto, using(crate::proofs::Operands::sources_more))]
fn put_sources(
    current: &Current,
    op: Op,
    prefix: u8,
    line: &[u8],
    operands: &mut ArrayVec<Operand, 3>,
) -> Result<(), Fault>
    requires { array_vec_len operands.old + length (words line.now) ≤ 3 }
    ensures fault { result_err result ≡ source_words_fault current.now.function.vars current.now.function.insns op prefix (array_vec_len operands.old) (words line.now) }
    ensures put { OnOk result (operands.new.items ≡ operands.old.items ++ operands_of current.now.function.vars (words line.now)) }
{
    let Some((word, rest)) = next_word(line) else {
        return Ok(());
    };
    operands.push(source_operand(current, op, prefix, operands.len(), word)?);
    put_sources(current, op, prefix, rest, operands)
}

/// The instruction of an opcode and the words behind it.
#[tactic(auto, using(crate::proofs::Operands::few_sources))]
fn insn_of(current: &Current, number: u32, op: Op, prefix: u8, line: &[u8]) -> Result<Insn, Fault>
    ensures fault { result_err result ≡ opcode_fault current.now.function.vars current.now.function.insns number op prefix (words line.now) }
    ensures says { IfOk result (λ insn. insn ≡ insn_of current.now.function.vars number op prefix (words line.now)) }
{
    check(is_bad_prefix(op, prefix), Fault::BadPrefix)?;
    check(
        !has_exactly(line, results_of(op) + sources_of(op)),
        Fault::WrongWords,
    )?;
    let mut results = ArrayVec::new();
    put_results(current, op, prefix, results_of(op), line, &mut results)?;
    let mut sources = ArrayVec::new();
    put_sources(
        current,
        op,
        prefix,
        after(line, results_of(op)),
        &mut sources,
    )?;
    let insn = Insn {
        op,
        prefix,
        results,
        sources,
        line: number,
    };
    check(is_too_many(&current.function, &insn), Fault::TooMany)?;
    Ok(insn)
}

/// The prefix, which is 1 where there is none, and the words behind it.
fn split_prefix(line: &[u8]) -> (u8, &[u8])
    ensures prefix { result.0 ≡ (split_prefix (words line.now)).0 }
    ensures rest { words result.1.now ≡ (split_prefix (words line.now)).1 }
{
    match prefix_of(word(line, 0)) {
        Some(prefix) => (prefix, after(line, 1)),
        None => (1, line),
    }
}

/// What an instruction line says, or its first fault.
pub(crate) fn instruction(state: &State, line: &[u8]) -> Result<Line, Fault>
    requires { state.now.lines + 1 < 2 ^ 32 }
    ensures fault { result_err result ≡ insn_line_fault (said_of state.now) (split_prefix (words line.now)) }
    ensures says { IfOk result (λ said. said ≡ insn_line (said_of state.now) (split_prefix (words line.now))) }
{
    let Some(current) = &state.current else {
        return Err(Fault::NoFunction);
    };
    let (prefix, behind) = split_prefix(line);
    let Some((name, operands)) = next_word(behind) else {
        return Err(Fault::WrongWords);
    };
    match find(name) {
        Found::Unsupported => Err(Fault::Unsupported),
        Found::Unknown => Err(Fault::UnknownOpcode),
        Found::Yes(op) => {
            let insn = insn_of(current, state.lines + 1, op, prefix, operands)?;
            Ok(Line::Part(Part::Insn(insn)))
        }
    }
}
