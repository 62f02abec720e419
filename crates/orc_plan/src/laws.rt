//! The law of places, as the contract of a function that does nothing.

ghost use Rattle.std.specs.Prelude.{◌≡◌, ◌≤◌, ℕ, [], true, slice_index};
ghost use Rattle.orc_program.specs.Checks.{patterns_of};
ghost use Rattle.orc_program.specs.Need.{registers, spills};
ghost use Rattle.orc_plan.specs.Lowered.{steps_of};
ghost use Rattle.orc_plan.specs.Standing.{AllStand};

use crate::steps::Placed;
use orc_program::Function;

/// A temp that is read stands in its place until it is read for the last time: at each instruction of a placed function, a result takes the
/// place of no source and of no other temp whose value is read later, and two results take two places. Only a function with an instruction
/// that needs more values than there are registers has values in other places.
pub fn places_stand(f: &Function, placed: &Placed)
    requires { placed.now.core.steps ≡ steps_of f.now }
    ensures stand { AllStand f.now.vars (patterns_of f.now.vars f.now.insns) placed.now.places [] f.now.insns }
    ensures spilled { (v : ℕ) → registers ≤ slice_index placed.now.places v → spills f.now ≡ true }
{
    // a use of a field says what its type keeps
    let _ = &f.insns;
    let _ = &placed.places;
}
