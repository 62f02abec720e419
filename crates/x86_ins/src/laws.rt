//! Laws of the machine, each the contract of a function that does nothing.

ghost use Rattle.std.specs.Prelude.{ℕ, List};
ghost use Rattle.x86_ins.specs.declared.ins.Ins.{Ins};
ghost use Rattle.x86_ins.specs.Machine.{Core};
ghost use Rattle.x86_ins.specs.Laws.{RenamingKeeps, VectorsLead};

/// An instruction with renamed vector registers does to renamed vector registers what it did before, and the same to all else; it traps where it did, with the same trap.
pub fn renaming_keeps()
    ensures { (map : List ℕ) (i : Ins) (c d : Core) (rip : ℕ) → RenamingKeeps map i c d rip }
{}

/// Instructions on vector registers alone run one after another, each in one step, without a trap.
pub fn vectors_lead()
    ensures { (is : List Ins) (c : Core) → VectorsLead is c }
{}
