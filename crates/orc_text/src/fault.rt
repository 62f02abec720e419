//! The conditions under which a directive line has a fault.

ghost use Rattle.std.specs.Prelude.{◌≡◌, ◌&&◌, map, length, drop, is_some, nat_le};
ghost use Rattle.std.specs.List.{list_any};
ghost use Rattle.std.specs.Result.{result_err};
ghost use Rattle.std.specs.Str.{bytes_eq};
ghost use Rattle.orc_program.specs.Program.{is_array_kind, count_of, place_of};
ghost use Rattle.orc_program.specs.Checks.{check};
ghost use Rattle.orc_program.specs.Notes.{ends_in_align};
ghost use Rattle.orc_program.specs.Kept.{most_functions};
ghost use Rattle.orc_text.specs.declared.directive.Directive.{Directive};
ghost use Rattle.orc_words.specs.Text.{words};
ghost use Rattle.orc_text.specs.Said.{functions_of, vars_in};
ghost use Rattle.orc_text.specs.Faults.{stands_anywhere, is_wrong_variable, is_wrong_count, has_wrong_words, has_n, has_m, has_backup, is_duplicate, is_full};
ghost use Rattle.orc_text.specs.Held.{said_of, function_in, Holds};

use crate::directive::Directive;
use crate::state::{Current, State};
use orc_program::words::is_same;
use orc_program::{Fault, MOST_FUNCTIONS, VarKind, count_of, most_of};
use orc_words::{
    after, ends_in_align, ends_in_count_word, has_exactly, has_fewer, has_strange, word,
};

/// The fault, where the condition holds.
pub(crate) fn check(condition: bool, fault: Fault) -> Result<(), Fault>
    ensures { result_err result ≡ check condition fault }
{
    if condition { Err(fault) } else { Ok(()) }
}

/// Whether a directive needs no function before it.
pub(crate) fn stands_anywhere(directive: Directive) -> bool
    ensures { result ≡ stands_anywhere directive }
{
    match directive {
        Directive::Function | Directive::Init => true,
        Directive::Flags
        | Directive::CountN
        | Directive::CountM
        | Directive::Backup
        | Directive::Variable(_)
        | Directive::Float => false,
    }
}

/// A dest or a source.
fn is_array_kind(kind: VarKind) -> bool
    ensures { result ≡ is_array_kind kind }
{
    match kind {
        VarKind::Dest | VarKind::Source => true,
        VarKind::Accumulator | VarKind::Param | VarKind::Const | VarKind::Temp => false,
    }
}

/// Whether the words after an array's name are wrong: the last one is `align`.
fn has_open_align(kind: VarKind, line: &[u8]) -> bool
    ensures { result ≡ is_array_kind kind && ends_in_align (drop 3 (words line.now)) }
{
    is_array_kind(kind) && ends_in_align(after(line, 3))
}

/// Whether a variable's line has wrong words.
fn is_wrong_variable(kind: VarKind, line: &[u8]) -> bool
    ensures { result ≡ is_wrong_variable kind (words line.now) }
{
    match kind {
        VarKind::Const => !has_exactly(line, 4),
        VarKind::Source | VarKind::Dest | VarKind::Accumulator | VarKind::Param | VarKind::Temp =>
            has_fewer(line, 3) || has_open_align(kind, line),
    }
}

/// Whether a `.n` or `.m` line has wrong words.
fn is_wrong_count(line: &[u8]) -> bool
    ensures { result ≡ is_wrong_count (words line.now) }
{
    let counts = after(line, 1);
    has_fewer(line, 2) || ends_in_count_word(counts) || has_strange(counts)
}

/// Whether a line has wrong words.
pub(crate) fn has_wrong_words(directive: Directive, line: &[u8]) -> bool
    ensures { result ≡ has_wrong_words directive (words line.now) }
{
    match directive {
        Directive::Function | Directive::Init | Directive::Backup => !has_exactly(line, 2),
        Directive::Flags => !has_exactly(line, 2) || !is_same(word(line, 1), b"2d"),
        Directive::CountN | Directive::CountM => is_wrong_count(line),
        Directive::Variable(kind) => is_wrong_variable(kind, line),
        Directive::Float => false,
    }
}

/// Whether a function's name is one that there is already.
fn is_known_function(state: &State, name: &[u8]) -> bool
    requires { Holds state.now }
    ensures { result ≡ list_any (bytes_eq name.now) (map (λ f. f.name) (functions_of (said_of state.now))) }
{
    state.names.contains(name)
}

/// Whether there are as many functions as there may be, with the one that isn't over.
fn has_all_functions(state: &State) -> bool
    ensures { result ≡ nat_le most_functions (length (functions_of (said_of state.now))) }
{
    let over = state.program.functions.len();
    match state.current {
        Some(_) => over >= MOST_FUNCTIONS - 1,
        None => over >= MOST_FUNCTIONS,
    }
}

/// Whether the current function has words after `.n`.
fn has_n(current: &Option<Current>) -> bool
    ensures { result ≡ has_n (function_in current.now) }
{
    match current {
        Some(current) => current.function.notes.n.is_some(),
        None => false,
    }
}

/// Whether the current function has words after `.m`.
fn has_m(current: &Option<Current>) -> bool
    ensures { result ≡ has_m (function_in current.now) }
{
    match current {
        Some(current) => current.function.notes.m.is_some(),
        None => false,
    }
}

/// Whether the current function has a name after `.backup`.
fn has_backup(current: &Option<Current>) -> bool
    ensures { result ≡ has_backup (function_in current.now) }
{
    match current {
        Some(current) => current.function.notes.backup.is_some(),
        None => false,
    }
}

/// Whether the current function has a variable of this name.
#[tactic(auto, using(crate::proofs::Named::known_named))]
fn has_variable(current: &Option<Current>, name: &[u8]) -> bool
    ensures { result ≡ is_some (place_of name.now (vars_in (function_in current.now))) }
{
    match current {
        Some(current) => current.names.contains(name),
        None => false,
    }
}

/// Whether a line says what an earlier one did.
pub(crate) fn is_duplicate(state: &State, directive: Directive, line: &[u8]) -> bool
    requires { Holds state.now }
    ensures { result ≡ is_duplicate (said_of state.now) directive (words line.now) }
{
    match directive {
        Directive::Function => is_known_function(state, word(line, 1)),
        Directive::Init => state.program.init.is_some(),
        Directive::Backup => has_backup(&state.current),
        Directive::CountN => has_n(&state.current),
        Directive::CountM => has_m(&state.current),
        Directive::Variable(_) => has_variable(&state.current, word(line, 2)),
        Directive::Flags | Directive::Float => false,
    }
}

/// How many variables of a kind the current function has.
fn count_in(current: &Option<Current>, kind: VarKind) -> usize
    ensures { result ≡ count_of kind (vars_in (function_in current.now)) }
{
    match current {
        Some(current) => count_of(&current.function, kind),
        None => 0,
    }
}

/// Whether a limit would be passed.
pub(crate) fn is_full(state: &State, directive: Directive) -> bool
    ensures { result ≡ is_full (said_of state.now) directive }
{
    match directive {
        Directive::Function => has_all_functions(state),
        Directive::Variable(kind) => count_in(&state.current, kind) >= most_of(kind),
        Directive::Init
        | Directive::Flags
        | Directive::CountN
        | Directive::CountM
        | Directive::Backup
        | Directive::Float => false,
    }
}
