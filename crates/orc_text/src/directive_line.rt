//! What a directive line says, or its first fault.

ghost use Rattle.std.specs.Prelude.{◌≡◌, not, unwrap_or, IfOk};
ghost use Rattle.std.specs.Result.{result_err};
ghost use Rattle.orc_program.specs.Words.{is_name, size_of};
ghost use Rattle.orc_program.specs.Checks.{check};
ghost use Rattle.orc_words.specs.Text.{words};
ghost use Rattle.orc_text.specs.Faults.{is_size_word, has_bad_number, word_by_word, known_fault, directive_fault};
ghost use Rattle.orc_text.specs.Held.{said_of, Holds};
ghost use Rattle.orc_text.specs.Line.{declared, directive_line, line_if};

use crate::directive::Directive;
use crate::fault::{check, has_wrong_words, is_duplicate, is_full, stands_anywhere};
use crate::line::{Declared, Line, Part};
use crate::state::State;
use orc_program::words::number_of;
use orc_program::{Fault, Name, VarKind, is_size_for};
use orc_words::{after, has_bad_align, has_bad_count, size_of, word};

/// The name that a word is.
fn name_of(word: &[u8]) -> Result<Name, Fault>
    ensures fault { result_err result ≡ check (not (is_name word.now)) Fault.BadName }
    ensures name { IfOk result (λ name. name ≡ word.now) }
{
    match Name::new(word) {
        Some(name) => Ok(name),
        None => Err(Fault::BadName),
    }
}

/// The size of a variable of this kind that a word gives, in bytes.
fn size_for(kind: VarKind, word: &[u8]) -> Result<u8, Fault>
    ensures fault { result_err result ≡ check (not (is_size_word kind (size_of word.now))) Fault.BadSize }
    ensures size { IfOk result (λ size. size ≡ unwrap_or (size_of word.now) 0) }
{
    match size_of(word) {
        Some(size) if is_size_for(kind, size) => Ok(size),
        _ => Err(Fault::BadSize),
    }
}

/// The number of a constant's line; 0 of another variable's, whose words may have a bad number.
fn number_in(kind: VarKind, line: &[u8]) -> Result<u64, Fault>
    ensures fault { result_err result ≡ check (has_bad_number kind (words line.now)) Fault.BadNumber }
    ensures number { IfOk result (λ number. number ≡ (declared kind (words line.now)).number) }
{
    match kind {
        VarKind::Const => match number_of(word(line, 3)) {
            Some(number) => Ok(number),
            None => Err(Fault::BadNumber),
        },
        VarKind::Source | VarKind::Dest if has_bad_align(after(line, 3)) => Err(Fault::BadNumber),
        VarKind::Source | VarKind::Dest | VarKind::Accumulator | VarKind::Param | VarKind::Temp =>
            Ok(0),
    }
}

/// The variable that a line declares.
fn declared(kind: VarKind, line: &[u8]) -> Result<Declared, Fault>
    ensures fault { result_err result ≡ word_by_word (Directive.Variable kind) (words line.now) }
    ensures says { IfOk result (λ variable. variable ≡ declared kind (words line.now)) }
{
    let size = size_for(kind, word(line, 1))?;
    let name = name_of(word(line, 2))?;
    let number = number_in(kind, line)?;
    Ok(Declared {
        kind,
        size,
        name,
        number,
    })
}

/// What a directive's words say, word by word from the left.
fn said_by(directive: Directive, line: &[u8]) -> Result<Line, Fault>
    ensures fault { result_err result ≡ word_by_word directive (words line.now) }
    ensures says { IfOk result (λ said. said ≡ directive_line (words line.now) directive) }
{
    match directive {
        Directive::Function => Ok(Line::Function(name_of(word(line, 1))?)),
        Directive::Init => Ok(Line::Init(name_of(word(line, 1))?)),
        Directive::Backup => Ok(Line::Part(Part::Backup(name_of(word(line, 1))?))),
        Directive::CountN => {
            check(has_bad_count(after(line, 1)), Fault::BadNumber)?;
            Ok(Line::Part(Part::CountN))
        }
        Directive::CountM => {
            check(has_bad_count(after(line, 1)), Fault::BadNumber)?;
            Ok(Line::Part(Part::CountM))
        }
        Directive::Variable(kind) => Ok(Line::Part(Part::Variable(declared(kind, line)?))),
        Directive::Flags => Ok(Line::Part(Part::Flags)),
        Directive::Float => Ok(Line::Blank),
    }
}

/// What a line of a known directive says.
fn known(state: &State, directive: Directive, line: &[u8]) -> Result<Line, Fault>
    requires { Holds state.now }
    ensures fault { result_err result ≡ known_fault (said_of state.now) directive (words line.now) }
    ensures says { IfOk result (λ said. said ≡ directive_line (words line.now) directive) }
{
    check(
        !stands_anywhere(directive) && state.current.is_none(),
        Fault::NoFunction,
    )?;
    check(has_wrong_words(directive, line), Fault::WrongWords)?;
    let said = said_by(directive, line)?;
    check(is_duplicate(state, directive, line), Fault::Duplicate)?;
    check(is_full(state, directive), Fault::TooMany)?;
    Ok(said)
}

/// What a directive line says, or its first fault.
pub(crate) fn directive_line(
    state: &State,
    directive: Option<Directive>,
    line: &[u8],
) -> Result<Line, Fault>
    requires { Holds state.now }
    ensures fault { result_err result ≡ directive_fault (said_of state.now) (words line.now) directive }
    ensures says { IfOk result (λ said. said ≡ line_if (words line.now) directive) }
{
    match directive {
        None => Err(Fault::UnknownDirective),
        Some(Directive::Float) => Err(Fault::Unsupported),
        Some(directive) => known(state, directive, line),
    }
}
