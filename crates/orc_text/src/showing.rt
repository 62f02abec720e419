//! Programs as texts.

ghost use Rattle.std.specs.Prelude.{◌≡◌, ◌++◌, [], ◌∷◌, OnOk, IfOk, string_bytes};
ghost use Rattle.std.specs.Fmt.{decimal};
ghost use Rattle.orc_text.specs.Reads.{text_program};
ghost use Rattle.orc_text.specs.Again.{ReadsAgain};
ghost use Rattle.orc_text.specs.Shown.{number_text, spaced, words_line, note_text, name_text, kind_word, tail_text, var_text, vars_text, prefix_text, operand_text, more_operands, operands_text, insn_text, insns_text, flags_text, notes_text, function_text, functions_text, program_text};

use orc_ops::name;
use orc_program::{Function, Insn, Name, Notes, Operand, Program, Var, VarKind, Word, Words};
use std::alloc::{AllocError, Global};

/// Appends a number of 64 bits, as a signed decimal.
fn put_number(alloc: Global, out: &mut Vec<u8>, number: u64) -> Result<(), AllocError>
    ensures { OnOk result (out.new.items ≡ out.old.items ++ number_text number) }
{
    let signed = number.cast_signed();
    let text = format!(in alloc; "{signed}")?;
    out.extend_from_slice(text.as_bytes())
}

/// Appends a size in bytes.
fn put_size(alloc: Global, out: &mut Vec<u8>, size: u8) -> Result<(), AllocError>
    ensures { OnOk result (out.new.items ≡ out.old.items ++ decimal size) }
{
    let text = format!(in alloc; "{size}")?;
    out.extend_from_slice(text.as_bytes())
}

/// Appends words, each behind a space.
fn put_spaced(out: &mut Vec<u8>, words: &[Word]) -> Result<(), AllocError>
    ensures { OnOk result (out.new.items ≡ out.old.items ++ spaced words.now) }
{
    let mut left = words;
    while let [word, rest @ ..] = left {
        out.push(b' ')?;
        out.extend_from_slice(word.as_slice())?;
        left = rest;
    }
    Ok(())
}

/// Appends the line of a directive with words, where they are there.
fn put_note(out: &mut Vec<u8>, directive: &[u8], words: &Option<Words>) -> Result<(), AllocError>
    ensures { OnOk result (out.new.items ≡ out.old.items ++ note_text directive.now words.now) }
{
    let Some(words) = words else {
        return Ok(());
    };
    out.extend_from_slice(directive)?;
    put_spaced(out, words.as_slice())?;
    out.push(b'\n')?;
    Ok(())
}

/// Appends the line of a directive with a name.
fn put_name(out: &mut Vec<u8>, directive: &[u8], name: &[u8]) -> Result<(), AllocError>
    ensures { OnOk result (out.new.items ≡ out.old.items ++ words_line directive.now (name.now ∷ [])) }
{
    out.extend_from_slice(directive)?;
    out.push(b' ')?;
    out.extend_from_slice(name)?;
    out.push(b'\n')?;
    Ok(())
}

/// Appends the line of a directive with a name, where it is there.
fn put_name_if(out: &mut Vec<u8>, directive: &[u8], name: &Option<Name>) -> Result<(), AllocError>
    ensures { OnOk result (out.new.items ≡ out.old.items ++ name_text directive.now name.now) }
{
    match name {
        Some(name) => put_name(out, directive, name.as_slice()),
        None => Ok(()),
    }
}

/// A variable's directive.
fn kind_word(kind: VarKind) -> &'static str
    ensures { result.now ≡ kind_word kind }
{
    match kind {
        VarKind::Source => ".source",
        VarKind::Dest => ".dest",
        VarKind::Accumulator => ".accumulator",
        VarKind::Param => ".param",
        VarKind::Const => ".const",
        VarKind::Temp => ".temp",
    }
}

/// Appends what stands behind a variable's name: a constant's number, and else the words as they were written.
fn put_tail(alloc: Global, out: &mut Vec<u8>, var: &Var) -> Result<(), AllocError>
    ensures { OnOk result (out.new.items ≡ out.old.items ++ tail_text var.now.kind var.now.number var.now.words) }
{
    match var.kind {
        VarKind::Const => {
            out.push(b' ')?;
            put_number(alloc, out, var.number)
        }
        VarKind::Source | VarKind::Dest | VarKind::Accumulator | VarKind::Param | VarKind::Temp =>
            put_spaced(out, var.words.as_slice()),
    }
}

/// Appends a variable's line.
fn put_var(alloc: Global, out: &mut Vec<u8>, var: &Var) -> Result<(), AllocError>
    ensures { OnOk result (out.new.items ≡ out.old.items ++ var_text var.now) }
{
    out.extend_from_slice(kind_word(var.kind).as_bytes())?;
    out.push(b' ')?;
    put_size(alloc, out, var.size)?;
    out.push(b' ')?;
    out.extend_from_slice(var.name.as_slice())?;
    put_tail(alloc, out, var)?;
    out.push(b'\n')?;
    Ok(())
}

/// Appends the variables' lines.
fn put_vars(alloc: Global, out: &mut Vec<u8>, vars: &[Var]) -> Result<(), AllocError>
    ensures { OnOk result (out.new.items ≡ out.old.items ++ vars_text vars.now) }
{
    let [var, rest @ ..] = vars else {
        return Ok(());
    };
    put_var(alloc, out, var)?;
    put_vars(alloc, out, rest)
}

/// A prefix other than 1, and a space.
fn prefix_text(prefix: u8) -> &'static str
    ensures { result.now ≡ prefix_text prefix }
{
    match prefix {
        2 => "x2 ",
        4 => "x4 ",
        _ => "",
    }
}

/// Appends an operand: a variable's name, or a number.
fn put_operand(
    alloc: Global,
    out: &mut Vec<u8>,
    vars: &[Var],
    operand: Operand,
) -> Result<(), AllocError>
    ensures { OnOk result (out.new.items ≡ out.old.items ++ operand_text vars.now operand) }
{
    match operand {
        Operand::Var(place) => match vars.get(usize::from(place)) {
            Some(var) => out.extend_from_slice(var.name.as_slice()),
            None => Ok(()),
        },
        Operand::Number(number) => put_number(alloc, out, number),
    }
}

/// Appends operands, each behind a comma and a space.
fn put_more_operands(
    alloc: Global,
    out: &mut Vec<u8>,
    vars: &[Var],
    operands: &[Operand],
) -> Result<(), AllocError>
    ensures { OnOk result (out.new.items ≡ out.old.items ++ more_operands vars.now operands.now) }
{
    let [operand, rest @ ..] = operands else {
        return Ok(());
    };
    out.extend_from_slice(b", ")?;
    put_operand(alloc, out, vars, *operand)?;
    put_more_operands(alloc, out, vars, rest)
}

/// Appends operands, parted by a comma and a space, behind a space.
fn put_list(
    alloc: Global,
    out: &mut Vec<u8>,
    vars: &[Var],
    operands: &[Operand],
) -> Result<(), AllocError>
    ensures { OnOk result (out.new.items ≡ out.old.items ++ operands_text vars.now operands.now) }
{
    let [first, rest @ ..] = operands else {
        return Ok(());
    };
    out.push(b' ')?;
    put_operand(alloc, out, vars, *first)?;
    put_more_operands(alloc, out, vars, rest)
}

/// Appends an instruction's operands, the results before the sources.
fn put_operands(
    alloc: Global,
    out: &mut Vec<u8>,
    vars: &[Var],
    insn: &Insn,
) -> Result<(), AllocError>
    ensures { OnOk result (out.new.items ≡ out.old.items ++ operands_text vars.now (insn.now.results.items ++ insn.now.sources.items)) }
{
    let results = insn.results.as_slice();
    if results.is_empty() {
        return put_list(alloc, out, vars, insn.sources.as_slice());
    }
    put_list(alloc, out, vars, results)?;
    put_more_operands(alloc, out, vars, insn.sources.as_slice())
}

/// Appends an instruction's line.
fn put_insn(alloc: Global, out: &mut Vec<u8>, vars: &[Var], insn: &Insn) -> Result<(), AllocError>
    ensures { OnOk result (out.new.items ≡ out.old.items ++ insn_text vars.now insn.now) }
{
    out.extend_from_slice(prefix_text(insn.prefix).as_bytes())?;
    out.extend_from_slice(name(insn.op).as_bytes())?;
    put_operands(alloc, out, vars, insn)?;
    out.push(b'\n')?;
    Ok(())
}

/// Appends the instructions' lines.
fn put_insns(
    alloc: Global,
    out: &mut Vec<u8>,
    vars: &[Var],
    insns: &[Insn],
) -> Result<(), AllocError>
    ensures { OnOk result (out.new.items ≡ out.old.items ++ insns_text vars.now insns.now) }
{
    let [insn, rest @ ..] = insns else {
        return Ok(());
    };
    put_insn(alloc, out, vars, insn)?;
    put_insns(alloc, out, vars, rest)
}

/// Appends the line that says that a function has rows, if it has.
fn put_flags(out: &mut Vec<u8>, two_d: bool) -> Result<(), AllocError>
    ensures { OnOk result (out.new.items ≡ out.old.items ++ flags_text two_d) }
{
    if two_d {
        return out.extend_from_slice(b".flags 2d\n");
    }
    Ok(())
}

/// Appends the notes' lines.
fn put_notes(out: &mut Vec<u8>, notes: &Notes) -> Result<(), AllocError>
    ensures { OnOk result (out.new.items ≡ out.old.items ++ notes_text notes.now) }
{
    put_note(out, b".n", &notes.n)?;
    put_note(out, b".m", &notes.m)?;
    put_name_if(out, b".backup", &notes.backup)
}

/// Appends a function's lines.
#[tactic(auto, unfolding(crate::specs::Shown::function_text))]
fn put_function(alloc: Global, out: &mut Vec<u8>, f: &Function) -> Result<(), AllocError>
    ensures { OnOk result (out.new.items ≡ out.old.items ++ function_text f.now) }
{
    put_name(out, b".function", f.name.as_slice())?;
    put_flags(out, f.two_d)?;
    put_vars(alloc, out, f.vars.as_slice())?;
    put_notes(out, &f.notes)?;
    put_insns(alloc, out, f.vars.as_slice(), f.insns.as_slice())
}

/// Appends the functions' lines.
fn put_functions(alloc: Global, out: &mut Vec<u8>, functions: &[Function]) -> Result<(), AllocError>
    ensures { OnOk result (out.new.items ≡ out.old.items ++ functions_text functions.now) }
{
    let [f, rest @ ..] = functions else {
        return Ok(());
    };
    put_function(alloc, out, f)?;
    put_functions(alloc, out, rest)
}

/// The canonical text of a program: `.init` if there is one, and for each function its name, `.flags 2d` if it has rows, the
/// declarations, `.n`, `.m` and `.backup` if there, and the instructions, each on a line. Words are parted by one space, operands by
/// a comma and a space, and numbers are signed decimals of 64 bits.
#[tactic(auto, unfolding(crate::specs::Shown::program_text))]
pub fn show(alloc: Global, p: &Program) -> Result<Vec<u8>, AllocError>
    ensures text { IfOk result (λ text. text.items ≡ program_text p.now) }

    // Reading the text gives the program again, but for the numbers of lines, and showing that gives the text again.
    ensures again { IfOk result (λ text. ReadsAgain text.items p.now) }
    ensures fixed { IfOk result (λ text. program_text (text_program text.items) ≡ text.items) }
{
    let mut out = Vec::new(alloc);
    put_name_if(&mut out, b".init", &p.init)?;
    put_functions(alloc, &mut out, p.functions.as_slice())?;
    Ok(out)
}
