//! Opcodes by their names.

ghost use Rattle.std.specs.Prelude.{◌≡◌, ◌↔◌, map, Contains};
ghost use Rattle.std.specs.List.{list_any};
ghost use Rattle.std.specs.Str.{bytes_eq};
ghost use Rattle.orc_ops.specs.Table.{row};
ghost use Rattle.orc_ops.specs.Names.{find_among, find_op, refused};
ghost use Rattle.orc_ops.specs.declared.opcode.Op.{Op};

use crate::opcode::{ALL, Op, name};

/// What a name is.
#[derive(Clone, Copy, Debug, PartialEq, Eq)]
pub enum Found {
    /// It is the name of this opcode.
    Yes(Op),
    /// It is known and not supported: floats.
    Unsupported,
    /// It is neither.
    Unknown,
}

/// The names that are known and not supported.
static REFUSED: [&str; 29] = [
    "addf", "subf", "mulf", "divf", "sqrtf", "maxf", "minf", "cmpeqf", "cmpltf", "cmplef", "orf",
    "andf", "convfl", "convlf", "convwf", "convfd", "convdf", "addd", "subd", "muld", "divd",
    "sqrtd", "maxd", "mind", "cmpeqd", "cmpltd", "cmpled", "convdl", "convld",
];

fn is_same(a: &[u8], b: &[u8]) -> bool
    ensures { result ≡ bytes_eq a.now b.now }
{
    a == b
}

/// The first opcode of these that has the name.
fn find_in(ops: &[Op], word: &[u8]) -> Option<Op>
    ensures { result ≡ find_among ops.now word.now }
{
    let [op, rest @ ..] = ops else {
        return None;
    };
    if is_same(name(*op).as_bytes(), word) {
        return Some(*op);
    }
    find_in(rest, word)
}

fn is_among(names: &[&str], word: &[u8]) -> bool
    ensures { result ≡ list_any (bytes_eq word.now) (map (λ name. name.now) names.now) }
{
    let [first, rest @ ..] = names else {
        return false;
    };
    if is_same(word, first.as_bytes()) {
        return true;
    }
    is_among(rest, word)
}

#[tactic(auto, unfolding(crate::specs::Names::find_op))]
fn look_up(name: &[u8]) -> Found
    ensures { result ≡ find_op name.now }
{
    if let Some(op) = find_in(&ALL, name) {
        return Found::Yes(op);
    }
    if is_among(&REFUSED, name) {
        return Found::Unsupported;
    }
    Found::Unknown
}

/// What a name is: an opcode's, one that is known and not supported, or none of the language.
pub fn find(name: &[u8]) -> Found
    ensures value { result ≡ find_op name.now }
    ensures yes { (op : Op) → ((result ≡ Found.Yes op) ↔ (name.now ≡ (row op).name)) }
    ensures unsupported { (result ≡ Found.Unsupported) ↔ Contains refused name.now }
{
    look_up(name)
}
