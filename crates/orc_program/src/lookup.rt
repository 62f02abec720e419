//! Variables and functions by their names, and how many there are.

ghost use Rattle.std.specs.Prelude.{◌≡◌, ◌<◌, ◌+◌, ◌^◌, true, length, map, count_by};
ghost use Rattle.std.specs.List.{list_any};
ghost use Rattle.std.specs.Str.{bytes_eq};
ghost use Rattle.orc_program.specs.Program.{count_of, place_from, place_of};
ghost use Rattle.orc_program.specs.Kept.{is_function, most_of, is_size_for};

use crate::program::{Function, Program, Var, VarKind};
use crate::variables;
use crate::words::is_same;

/// The first variable of a name, counted from a place.
fn find_from(vars: &[Var], name: &[u8], place: u16) -> Option<u16>
    requires { place + length vars.now < 2 ^ 16 }
    ensures { result ≡ place_from name.now place vars.now }
{
    let [var, rest @ ..] = vars else {
        return None;
    };
    if is_same(var.name.as_slice(), name) {
        return Some(place);
    }
    find_from(rest, name, place + 1)
}

/// The place of the variable of this name in the function's list.
pub fn find_var(f: &Function, name: &[u8]) -> Option<u16>
    ensures { result ≡ place_of name.now f.now.vars }
{
    find_from(f.vars.as_slice(), name, 0)
}

/// How many variables of a kind the function has.
pub fn count_of(f: &Function, kind: VarKind) -> usize
    ensures { result ≡ count_of kind f.now.vars }
{
    variables::count_of(f.vars.as_slice(), kind)
}

/// The number of the function's instructions. The contract also says that the function keeps what its type keeps.
pub fn insn_count(f: &Function) -> usize
    ensures count { result ≡ length f.now.insns }
    ensures kept { is_function f.now ≡ true }
{
    f.insns.len()
}

fn has_name(f: &Function, name: &[u8]) -> bool
    ensures { result ≡ bytes_eq name.now f.now.name }
{
    is_same(name, f.name.as_slice())
}

/// Whether one of these functions has the name.
pub fn has_function(functions: &[Function], name: &[u8]) -> bool
    ensures { result ≡ list_any (bytes_eq name.now) (map (λ f. f.name) functions.now) }
{
    let [f, rest @ ..] = functions else {
        return false;
    };
    has_name(f, name) || has_function(rest, name)
}

/// The greatest number of functions of a program.
pub const MOST_FUNCTIONS: usize = 64;

/// The greatest number of variables of a kind in a function.
pub fn most_of(kind: VarKind) -> usize
    ensures { result ≡ most_of kind }
{
    match kind {
        VarKind::Dest | VarKind::Accumulator => 4,
        VarKind::Source | VarKind::Param => 8,
        VarKind::Const => 32,
        VarKind::Temp => 128,
    }
}

/// Whether a variable of this kind can have this size in bytes: 2 or 4 for an accumulator, else 1, 2, 4 or 8.
pub fn is_size_for(kind: VarKind, size: u8) -> bool
    ensures { result ≡ is_size_for kind size }
{
    match kind {
        VarKind::Accumulator => size == 2 || size == 4,
        VarKind::Source | VarKind::Dest | VarKind::Param | VarKind::Const | VarKind::Temp => {
            matches!(size, 1 | 2 | 4 | 8)
        }
    }
}
