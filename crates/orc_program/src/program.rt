//! Programs, functions, variables and instructions.

use crate::name::Name;
use arrayvec::ArrayVec;
use orc_ops::Op;
use sqlite_items::Items;
use std::marker::Model;

/// A word of a line, as its bytes.
pub type Word = Items<u8>;

/// Words of a line, in order.
pub type Words = Items<Word>;

/// What a variable is.
#[derive(Clone, Copy, Debug, PartialEq, Eq)]
pub enum VarKind {
    /// An array that is read.
    Source,
    /// An array that is written and may be read.
    Dest,
    /// A sum over all elements and rows.
    Accumulator,
    /// A number from the caller.
    Param,
    /// A named number.
    Const,
    /// A variable of one element.
    Temp,
}

/// A variable, as a line without a fault can declare it.
#[derive(Debug, Drop)]
pub struct Var {
    /// What the variable is.
    pub kind: VarKind,
    /// The bytes of an element: 1, 2, 4 or 8, and 2 or 4 for an accumulator.
    pub size: u8,
    /// The name, which no other variable of the function has.
    pub name: Name,
    /// The number of a constant, modulo 2^64; else 0.
    pub number: u64,
    /// The words after the name as they were written; none for a constant.
    pub words: Words,
}

/// Variables in order of declaration.
pub type Vars = Items<Var>;

/// An operand of an instruction.
#[derive(Clone, Copy, Debug, PartialEq, Eq)]
pub enum Operand {
    /// The variable at this place of the function's list, counted from 0.
    Var(u16),
    /// A number, modulo 2^64.
    Number(u64),
}

/// The number 0, which fills unused room.
impl Default for Operand {
    fn default() -> Self {
        Operand::Number(0)
    }
}

/// An instruction: an opcode that works on `prefix` adjacent sub-lanes of its operands.
#[derive(Debug, Drop)]
pub struct Insn {
    /// The opcode.
    pub op: Op,
    /// The number of sub-lanes: 1, 2 or 4.
    pub prefix: u8,
    /// The results, the first before the second.
    pub results: ArrayVec<Operand, 2>,
    /// The sources, from the left. Of a far load these are the array and its scalars.
    pub sources: ArrayVec<Operand, 3>,
    /// The number of the instruction's line in its text, counted from 1.
    pub line: u32,
}

/// Instructions in order.
pub type Insns = Items<Insn>;

/// What `.n`, `.m` and `.backup` lines say, each where it is there.
#[derive(Debug, Drop)]
pub struct Notes {
    /// The words after `.n`.
    pub n: Option<Words>,
    /// The words after `.m`.
    pub m: Option<Words>,
    /// The name after `.backup`.
    pub backup: Option<Name>,
}

/// A function that is typed right: its variables have distinct names and keep the limits (4 dests, 8 sources, 4 accumulators,
/// 8 parameters, 32 constants, 128 temps), and each instruction passes [`check_insn`](crate::check_insn) against those before it, so there
/// are at most 100 instructions and 48 patterns. Sizes, words and notes are ones that a line without a fault can have.
#[derive(Debug, Drop)]
pub struct Function {
    /// The name.
    pub name: Name,
    /// Whether the function has rows.
    pub two_d: bool,
    /// The variables, in order of declaration.
    pub vars: Vars,
    /// The instructions, in order.
    pub insns: Insns,
    /// The notes.
    pub notes: Notes,
}

impl Model for Function {
    ghost use Rattle.std.specs.Prelude.{◌≡◌, true};
    ghost use Rattle.orc_program.specs.Program.{FunctionValue};
    ghost use Rattle.orc_program.specs.Kept.{is_function};

    ghost Value = { FunctionValue };

    ghost view = { λ f. record { name = f.name; two_d = f.two_d; vars = f.vars; insns = f.insns; notes = f.notes } };

    ghost invariant = { λ f. is_function record { name = f.name; two_d = f.two_d; vars = f.vars; insns = f.insns; notes = f.notes } ≡ true };
}

/// Functions in order.
pub type Functions = Items<Function>;

/// A program: at most 64 functions with distinct names.
#[derive(Debug, Drop)]
pub struct Program {
    /// The name after `.init`, where that line is there.
    pub init: Option<Name>,
    /// The functions, in order.
    pub functions: Functions,
}

impl Model for Program {
    ghost use Rattle.std.specs.Prelude.{◌≡◌, true};
    ghost use Rattle.orc_program.specs.Program.{ProgramValue};
    ghost use Rattle.orc_program.specs.Kept.{is_program};

    ghost Value = { ProgramValue };

    ghost view = { λ p. record { init = p.init; functions = p.functions } };

    ghost invariant = { λ p. is_program record { init = p.init; functions = p.functions } ≡ true };
}

/// A number that is used in one way.
#[derive(Clone, Copy, Debug, Default, PartialEq, Eq)]
pub struct Pattern {
    /// A parameter's variable, or a number of 64 bits; a constant is its number.
    pub number: Operand,
    /// The size in bytes before the prefix of the operand that it is, or 0 for a shift count.
    pub way: u8,
}
