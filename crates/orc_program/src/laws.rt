//! Laws of a program's meaning, each the contract of a function that does nothing.

ghost use Rattle.std.specs.Prelude.{List};
ghost use Rattle.orc_program.specs.declared.program.Var.{Var};
ghost use Rattle.orc_program.specs.declared.program.Insn.{Insn};
ghost use Rattle.orc_program.specs.Program.{FunctionValue};
ghost use Rattle.orc_program.specs.declared.call.Call.{Call};
ghost use Rattle.orc_program.specs.Laws.{OneMore, EndsWhereGood, ChangesOnlyDests, CellsMeet, ListsFirstUses};
ghost use Rattle.orc_program.specs.Cut.{PartsAddUp};

/// One more element, and one more row, are done after those before.
pub fn one_more()
    ensures { (f : FunctionValue) (call : Call) → OneMore f call }
{}

/// Emulation of a good call ends with a memory and with sums.
pub fn ends_where_good()
    ensures { (f : FunctionValue) (call : Call) → EndsWhereGood f call }
{}

/// Emulation changes no byte outside the cells of dests.
pub fn changes_only_dests()
    ensures { (f : FunctionValue) (call : Call) → ChangesOnlyDests f call }
{}

/// In one row, cells of good arrays that share a byte are the very same cell.
pub fn cells_meet()
    ensures { (f : FunctionValue) (call : Call) → CellsMeet f call }
{}

/// The patterns of instructions are the first uses of numbers, in order: each stands once.
pub fn lists_first_uses()
    ensures { (vars : List Var) (insns : List Insn) → ListsFirstUses vars insns }
{}

/// Emulation of a call that is cut into rectangles is emulation of the rectangles, each by itself.
pub fn parts_add_up()
    ensures { (f : FunctionValue) (call : Call) → PartsAddUp f call }
{}
