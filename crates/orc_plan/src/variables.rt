//! Element sizes of a function's arrays, by their slots.

ghost use Rattle.std.specs.Prelude.{◌≡◌};
ghost use Rattle.orc_plan.specs.Lowered.{is_used, size_in_slot, sizes_of};

use orc_program::variables::{count_of, size_of_slot};
use orc_program::{Function, Var, VarKind};

/// Whether an array has the slot.
fn is_used(vars: &[Var], slot: usize) -> bool
    ensures { result ≡ is_used vars.now slot }
{
    if slot < 4 {
        slot < count_of(vars, VarKind::Dest)
    } else {
        slot - 4 < count_of(vars, VarKind::Source)
    }
}

/// The element size of the array in a slot, 0 where the slot isn't used.
fn size_in_slot(vars: &[Var], slot: usize) -> u8
    ensures { result ≡ size_in_slot vars.now slot }
{
    if is_used(vars, slot) {
        size_of_slot(vars, slot)
    } else {
        0
    }
}

/// The element sizes of all slots.
#[tactic(auto, unfolding(crate::specs::Lowered::sizes_of))]
pub(crate) fn sizes(f: &Function) -> [u8; 12]
    ensures { result ≡ sizes_of f.now }
{
    let vars = f.vars.as_slice();
    let mut sizes = [0; 12];
    for slot in 0..12 {
        sizes[slot] = size_in_slot(vars, slot);
    }
    sizes
}
