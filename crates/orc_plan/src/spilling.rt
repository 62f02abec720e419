//! Which values are better held in the frame where there are more than registers: those whose next use is farthest.
//!
//! No proof rests on this choice, since a value may have any free place.

use crate::counting::has_value;
use crate::placing::{Held, REGISTERS, still_held};
use crate::reads::Ends;
use crate::steps::{Item, Step};
use arrayvec::ArrayVec;

/// For each value, by its number, whether it is better held in the frame.
pub(crate) type Spilled = [bool; 200];

/// How many steps come before the first that reads the value; all of them where none does.
fn next_use(steps: &[Step], value: u16) -> usize {
    for (j, step) in steps.iter().enumerate() {
        if has_value(step.sources.as_slice(), value) {
            return j;
        }
    }
    steps.len()
}

/// Holds one more value in a register. Where none is left, the frame gets that of all these values whose next use is farthest.
fn hold_near(value: u16, steps: &[Step], near: &mut Held, spilled: &mut Spilled) {
    if near.len() < REGISTERS {
        near.push(value);
        return;
    }
    let mut farthest = value;
    let mut distance = next_use(steps, value);
    for held in near.as_mut_slice() {
        let other = next_use(steps, *held);
        if other > distance {
            std::mem::swap(held, &mut farthest);
            distance = other;
        }
    }
    if let Some(entry) = spilled.get_mut(usize::from(farthest)) {
        *entry = true;
    }
}

/// The values that are better held in the frame: from step to step, where more than ten of the others are held, that of them whose next
/// use is farthest.
pub(crate) fn spilled_values(steps: &[Step], ends: &Ends) -> Spilled {
    let mut spilled = [false; 200];
    let mut near = ArrayVec::new();
    for (j, step) in steps.iter().enumerate() {
        near = still_held(near.as_slice(), ends, j);
        for item in step.results.as_slice() {
            if let Item::Value(value) = item {
                hold_near(*value, &steps[j..], &mut near, &mut spilled);
            }
        }
    }
    spilled
}
