//! What a line says.

use orc_program::{Insn, Name, VarKind};

/// What a line says. The words that a program keeps as they were written stay in the line.
#[derive(Debug, Drop)]
pub(crate) enum Line {
    /// Nothing.
    Blank,
    /// A function of this name starts.
    Function(Name),
    /// The whole text has this name after `.init`.
    Init(Name),
    /// Something of the current function.
    Part(Part),
}

/// What a line says of the current function.
#[derive(Debug, Drop)]
pub(crate) enum Part {
    /// It has rows.
    Flags,
    /// The words after `.n` are notes on its number of elements.
    CountN,
    /// The words after `.m` are notes on its number of rows.
    CountM,
    /// It has this name after `.backup`.
    Backup(Name),
    /// It has one more variable.
    Variable(Declared),
    /// It has one more instruction.
    Insn(Insn),
}

/// A variable, but for the words after its name.
#[derive(Debug, Drop)]
pub(crate) struct Declared {
    pub(crate) kind: VarKind,
    /// In bytes.
    pub(crate) size: u8,
    pub(crate) name: Name,
    /// The number of a constant; 0 of another variable.
    pub(crate) number: u64,
}
