//! Laws of rules on the machine, each the contract of a function that does nothing.

ghost use Rattle.std.specs.Prelude.{List};
ghost use Rattle.orc_ops.specs.declared.opcode.Op.{Op};
ghost use Rattle.x86_ins.specs.declared.ins.Ins.{Ins};
ghost use Rattle.sse_laws.specs.Laws.{Computes};

/// A list that computes an opcode on the vector registers does so on the machine: in one step an instruction, without a trap, and with
/// general registers, flags and memory as they were.
#[tactic(auto, using(crate::proofs::Machine::computes))]
pub fn rules_compute()
    ensures { (op : Op) (is : List Ins) → Computes op is }
{}
