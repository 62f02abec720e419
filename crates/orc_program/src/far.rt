//! Far loads of functions.

ghost use Rattle.std.specs.Prelude.{◌≡◌, ◌↔◌, false, None, length};
ghost use Rattle.orc_program.specs.Program.{is_far, has_far, far_line, first_far_line};

use crate::program::{Function, Insn};
use orc_ops::far_of;

/// Whether an instruction is a far load.
pub fn is_far(insn: &Insn) -> bool
    ensures { result ≡ is_far insn.now }
{
    far_of(insn.op).is_some()
}

/// Whether a function has a far load.
pub fn has_far(f: &Function) -> bool
    ensures { result ≡ has_far f.now }
{
    f.insns.as_slice().iter().any(|insn| is_far(insn))
}

/// The line of the first far load of these.
fn line_among(insns: &[Insn]) -> Option<u32>
    ensures { result ≡ far_line insns.now }
{
    let [insn, rest @ ..] = insns else {
        return None;
    };
    if is_far(insn) {
        return Some(insn.line);
    }
    line_among(rest)
}

/// The line of the function's first far load.
pub fn far_line(f: &Function) -> Option<u32>
    ensures value { result ≡ far_line f.now.insns }
    ensures none { (result ≡ None) ↔ (has_far f.now ≡ false) }
{
    line_among(f.insns.as_slice())
}

/// The line of the first far load of functions, in order.
pub fn first_far_line(functions: &[Function]) -> Option<u32>
    ensures { result ≡ first_far_line functions.now }
{
    let [f, rest @ ..] = functions else {
        return None;
    };
    match far_line(f) {
        Some(line) => Some(line),
        None => first_far_line(rest),
    }
}
