//! When values are read for the last time.

ghost use Rattle.std.specs.Prelude.{◌≡◌, ◌==◌, ◌<◌, ◌≤◌, ℕ, nat_lt, if◌then◌else◌, length, slice_index};
ghost use Rattle.orc_program.specs.Need.{is_in};
ghost use Rattle.orc_plan.specs.Core.{values_among};
ghost use Rattle.orc_plan.specs.Ending.{AreEnds};

use crate::steps::{Item, Step};

/// For each value, by its number, how many steps there are up to the last that reads it; 0 of one that none reads.
pub(crate) type Ends = [u8; 200];

/// Notes that the last of so many steps reads the value.
#[tactic(auto, using(crate::proofs::Ending::one_noted))]
fn note_read(value: u16, steps: u8, ends: &mut Ends)
    ensures { (v : ℕ) → v < 200 → slice_index ends.new v ≡ (if v == value then steps else slice_index ends.old v) }
{
    if usize::from(value) < ends.len() {
        ends[usize::from(value)] = steps;
    }
}

/// Notes that the last of so many steps reads the values among the items.
#[tactic(auto, using(crate::proofs::Ending::noted))]
fn note_reads(items: &[Item], steps: u8, ends: &mut Ends)
    ensures { (v : ℕ) → v < 200 → slice_index ends.new v ≡ (if is_in v (values_among items.now) then steps else slice_index ends.old v) }
{
    let [item, rest @ ..] = items else {
        return;
    };
    match item {
        Item::Value(value) => {
            note_read(*value, steps, ends);
            note_reads(rest, steps, ends);
        }
        Item::Array(_) | Item::Acc { .. } | Item::Pattern(_) => note_reads(rest, steps, ends),
    }
}

/// When the steps read each value for the last time.
pub(crate) fn ends_of(steps: &[Step]) -> Ends
    requires { length steps.now ≤ 100 }
    ensures { AreEnds result 0 steps.now }
{
    let mut ends = [0; 200];
    for (j, step) in steps.iter().enumerate() {
        note_reads(step.sources.as_slice(), j as u8 + 1, &mut ends);
    }
    ends
}

/// Whether a step from number `j` on reads the value.
pub(crate) fn is_read_from(ends: &Ends, j: usize, value: usize) -> bool
    ensures { result ≡ nat_lt j (slice_index ends.now value) }
{
    match ends.get(value) {
        Some(end) => j < usize::from(*end),
        None => false,
    }
}
