//! A law of rules on the machine: the contract of a function that does nothing.

ghost use Rattle.std.specs.Prelude.{ℕ, List};
ghost use Rattle.orc_ops.specs.declared.opcode.Op.{Op};
ghost use Rattle.x86_ins.specs.declared.ins.Ins.{Ins};
ghost use Rattle.sse_acc.specs.Laws.{Adds};

/// A list that adds to the running sums of the vector registers does so on the machine: in one step an instruction, without a trap, and with
/// general registers, flags and memory as they were.
#[tactic(auto, using(crate::proofs::Machine::adds))]
pub fn rules_add_up()
    ensures { (op : Op) (lanes : ℕ) (is : List Ins) → Adds op lanes is }
{}
