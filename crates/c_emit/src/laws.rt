//! Laws, each the contract of a function that does nothing.

ghost use Rattle.c_emit.specs.Laws.{MeansFirst, MeansSecond};

/// The expression of an opcode's first result means the opcode's formula, whatever expressions its sources have.
pub fn means_first()
    ensures { MeansFirst }
{}

/// The expression of an opcode's second result means the formula's second result.
pub fn means_second()
    ensures { MeansSecond }
{}
