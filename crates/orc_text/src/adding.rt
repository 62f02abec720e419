//! What is said with one more line.

ghost use Rattle.std.specs.Prelude.{◌≡◌, ◌<◌, ◌++◌, ◌∷◌, [], true, None, OnOk, IfOk, map, drop, if◌then◌else◌};
ghost use Rattle.orc_program.specs.Program.{place_of, count_of, same_kind};
ghost use Rattle.orc_program.specs.Kept.{is_var, most_of};
ghost use Rattle.orc_words.specs.Text.{words};
ghost use Rattle.orc_text.specs.Said.{functions_of};
ghost use Rattle.orc_text.specs.Held.{said_of, Holds};
ghost use Rattle.orc_text.specs.Line.{with_words, with_part, with_line, FitsPart, Fits};

use crate::line::{Declared, Line, Part};
use crate::state::{Current, State};
use orc_program::{
    Name, Var, VarKind, Words, add_function, add_insn, declare, new_function, set_backup, set_init,
    set_m, set_n, set_two_d,
};
use orc_words::{Names, after, next_word};
use sqlite_items::Items;
use std::alloc::{AllocError, Global};

/// Copies of a line's words.
fn copy_words(alloc: Global, line: &[u8]) -> Result<Words, AllocError>
    ensures { IfOk result (λ ws. ws ≡ words line.now) }
{
    let mut copies = Items::new(alloc);
    let mut rest = line;
    while let Some((word, after)) = next_word(rest) {
        copies.push(Items::from_slice(alloc, word)?)?;
        rest = after;
    }
    Ok(copies)
}

/// The words after the name; none in a constant's line.
fn words_in(alloc: Global, kind: VarKind, line: &[u8]) -> Result<Words, AllocError>
    ensures { IfOk result (λ ws. ws ≡ (if same_kind VarKind.Const kind then [] else drop 3 (words line.now))) }
{
    match kind {
        VarKind::Const => Ok(Items::new(alloc)),
        VarKind::Source | VarKind::Dest | VarKind::Accumulator | VarKind::Param | VarKind::Temp =>
            copy_words(alloc, after(line, 3)),
    }
}

/// The variable with the words after its name.
fn with_words(alloc: Global, declared: Declared, line: &[u8]) -> Result<Var, AllocError>
    ensures { IfOk result (λ v. v ≡ with_words declared (words line.now)) }
{
    let words = words_in(alloc, declared.kind, line)?;
    Ok(Var {
        kind: declared.kind,
        size: declared.size,
        name: declared.name,
        number: declared.number,
        words,
    })
}

/// The current function with one more variable.
#[tactic(auto, using(crate::proofs::Named::unknown_named))]
fn with_variable(alloc: Global, current: Current, var: Var) -> Result<Current, AllocError>
    requires fine { is_var var ≡ true }
    requires unnamed { place_of var.name current.function.vars ≡ None }
    requires room { count_of var.kind current.function.vars < most_of var.kind }
    ensures { IfOk result (λ c. c.function ≡ record (current.function) { vars = current.function.vars ++ var ∷ [] }) }
{
    let Current {
        mut function,
        mut names,
    } = current;
    names.add(alloc, var.name.as_slice())?;
    declare(&mut function, var)?;
    Ok(Current { function, names })
}

/// The current function with what a line says of it.
fn with_part(
    alloc: Global,
    mut current: Current,
    part: Part,
    line: &[u8],
) -> Result<Current, AllocError>
    requires { FitsPart current.function (words line.now) part }
    ensures { IfOk result (λ c. c.function ≡ with_part current.function (words line.now) part) }
{
    match part {
        Part::Flags => set_two_d(&mut current.function),
        Part::CountN => set_n(&mut current.function, copy_words(alloc, after(line, 1))?),
        Part::CountM => set_m(&mut current.function, copy_words(alloc, after(line, 1))?),
        Part::Backup(name) => set_backup(&mut current.function, name),
        Part::Insn(insn) => add_insn(&mut current.function, insn)?,
        Part::Variable(declared) => {
            let var = with_words(alloc, declared, line)?;
            return with_variable(alloc, current, var);
        }
    }
    Ok(current)
}

/// Adds the current function to those that are over.
pub(crate) fn close(state: &mut State) -> Result<(), AllocError>
    requires held { Holds state.old }
    ensures says { OnOk result (said_of state.new ≡ record (said_of state.old) { over = functions_of (said_of state.old); current = None }) }
    ensures names { OnOk result (state.new.names ≡ map (λ f. f.name) (functions_of (said_of state.old))) }
{
    match state.current.take() {
        Some(current) => add_function(&mut state.program, current.function),
        None => Ok(()),
    }
}

/// Starts a function.
fn start(alloc: Global, state: &mut State, name: Name) -> Result<(), AllocError>
    requires fits { Fits (said_of state.old) [] (Line.Function name) }
    requires held { Holds state.old }
    ensures says { OnOk result (said_of state.new ≡ with_line (said_of state.old) [] (Line.Function name)) }
    ensures held { OnOk result (Holds state.new) }
{
    close(state)?;
    state.names.add(alloc, name.as_slice())?;
    state.current = Some(Current {
        function: new_function(alloc, name),
        names: Names::new(alloc),
    });
    Ok(())
}

/// Adds what a line says.
pub(crate) fn add(
    alloc: Global,
    state: &mut State,
    said: Line,
    line: &[u8],
) -> Result<(), AllocError>
    requires fits { Fits (said_of state.old) (words line.now) said }
    requires held { Holds state.old }
    ensures says { OnOk result (said_of state.new ≡ with_line (said_of state.old) (words line.now) said) }
    ensures held { OnOk result (Holds state.new) }
{
    match said {
        Line::Blank => {}
        Line::Function(name) => start(alloc, state, name)?,
        Line::Init(name) => set_init(&mut state.program, name),
        Line::Part(part) => {
            let Some(current) = state.current.take() else {
                unreachable!()
            };
            state.current = Some(with_part(alloc, current, part, line)?);
        }
    }
    Ok(())
}
