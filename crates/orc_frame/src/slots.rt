//! From a function to the slots of its numbers.

ghost use Rattle.std.specs.Prelude.{◌≡◌, ◌<◌, ◌≤◌, ◌^◌, length, pos};
ghost use Rattle.orc_program.specs.Program.{count_of, places_of, var_at};
ghost use Rattle.orc_frame.specs.Layout.{layout_of, acc_sizes_of, displacements, pattern_slot, sum_slot, slots_of, LieApart};

use crate::frame::Layout;
use arrayvec::ArrayVec;
use orc_program::variables::same_kind;
use orc_program::{Function, Var, VarKind, facts, patterns};

/// The bytes of the frame.
pub const FRAME_SIZE: usize = 2048;

/// Gives each number of a function its slot in the frame.
#[tactic(auto, using(crate::proofs::Places::limits))]
pub fn layout(f: &Function) -> Layout
    ensures value { result ≡ layout_of f.now }
    ensures apart { LieApart (pos 0) (slots_of result) }
{
    let patterns = patterns(f);
    let acc_sizes = acc_sizes(f.vars.as_slice());
    Layout {
        two_d: f.two_d,
        params: params(f.vars.as_slice()),
        pattern_at: pattern_slots(patterns.len()),
        sum_at: sum_slots(acc_sizes.len()),
        patterns,
        acc_sizes,
        saved_at: [832, 840, 848, 856, 864, 872],
        row_at: [880, 888, 896, 904, 912, 920, 928, 936, 944, 952, 960, 968],
        block_at: 976,
        rows_at: 984,
        left_at: 992,
        index_at: 1000,
        work_at: 1008,
        spill_at: 1024,
        facts: facts(f),
    }
}

/// The places of the parameters.
#[tactic(auto, using(orc_program::proofs::Places::places_room, orc_program::proofs::Places::places_first, orc_program::proofs::Places::places_done, orc_program::proofs::Places::places_yes, orc_program::proofs::Places::places_no))]
fn params(vars: &[Var]) -> ArrayVec<u16, 8>
    requires few { count_of VarKind.Param vars.now ≤ 8 }
    requires short { length vars.now < 2 ^ 16 }
    ensures { result.items ≡ places_of VarKind.Param vars.now }
{
    let mut places = ArrayVec::new();
    for place in 0..vars.len() {
        if same_kind(VarKind::Param, vars[place].kind) {
            places.push(place as u16);
        }
    }
    places
}

/// The sizes of the accumulators.
#[tactic(auto, using(crate::proofs::Places::sizes_room, crate::proofs::Places::sizes_first, crate::proofs::Places::sizes_done, crate::proofs::Places::sizes_yes, crate::proofs::Places::sizes_no))]
fn acc_sizes(vars: &[Var]) -> ArrayVec<u8, 4>
    requires { count_of VarKind.Accumulator vars.now ≤ 4 }
    ensures { result.items ≡ acc_sizes_of vars.now }
{
    let mut sizes = ArrayVec::new();
    for place in 0..vars.len() {
        if same_kind(VarKind::Accumulator, vars[place].kind) {
            sizes.push(vars[place].size);
        }
    }
    sizes
}

/// The displacements of so many patterns.
#[tactic(auto, using(crate::proofs::Places::displacements_count, crate::proofs::Places::displacements_more))]
fn pattern_slots(count: usize) -> ArrayVec<i32, 48>
    requires { count ≤ 48 }
    ensures { result.items ≡ displacements pattern_slot count }
{
    let mut slots = ArrayVec::new();
    for k in 0..count {
        slots.push(16 * k as i32);
    }
    slots
}

/// The displacements of so many running sums.
#[tactic(auto, using(crate::proofs::Places::displacements_count, crate::proofs::Places::displacements_more))]
fn sum_slots(count: usize) -> ArrayVec<i32, 4>
    requires { count ≤ 4 }
    ensures { result.items ≡ displacements sum_slot count }
{
    let mut slots = ArrayVec::new();
    for g in 0..count {
        slots.push(768 + 16 * g as i32);
    }
    slots
}
