//! How many values a step needs at once.

ghost use Rattle.std.specs.Prelude.{◌≡◌, ◌<◌, ◌≤◌, nat_lt, length, slice_index, max, map, filter};
ghost use Rattle.std.specs.List.{fold, range_with_len};
ghost use Rattle.orc_program.specs.Need.{is_in};
ghost use Rattle.orc_plan.specs.Core.{values_among};
ghost use Rattle.orc_plan.specs.Need.{need_in, widest};

use crate::reads::{Ends, ends_of, is_read_from};
use crate::steps::{Core, Item};
use arrayvec::ArrayVec;

/// Whether one of the items is the value of this number.
pub(crate) fn has_value(items: &[Item], value: u16) -> bool
    ensures { result ≡ is_in value (values_among items.now) }
{
    let [item, rest @ ..] = items else {
        return false;
    };
    match item {
        Item::Value(other) => value == *other || has_value(rest, value),
        Item::Array(_) | Item::Acc { .. } | Item::Pattern(_) => has_value(rest, value),
    }
}

/// How many of the items are values.
pub(crate) fn value_count(items: &[Item]) -> u32
    requires { length items.now ≤ 2 }
    ensures count { result ≡ length (values_among items.now) }
    ensures few { result ≤ length items.now }
{
    let [item, rest @ ..] = items else {
        return 0;
    };
    let more = value_count(rest);
    match item {
        Item::Value(_) => more + 1,
        Item::Array(_) | Item::Acc { .. } | Item::Pattern(_) => more,
    }
}

/// How many of the first so many values step `j` or a later one reads.
#[tactic(auto, using(crate::proofs::Counted::one_passes, crate::proofs::Counted::one_does_not))]
fn live_count(ends: &Ends, made: u32, j: usize) -> u32
    ensures count { result ≡ length (filter (λ v. nat_lt j (slice_index ends.now v)) (range_with_len 0 made)) }
    ensures few { result ≤ made }
{
    let mut live = 0;
    for value in 0..made {
        if is_read_from(ends, j, value as usize) {
            live += 1;
        }
    }
    live
}

/// The need of each step, by its number.
pub(crate) fn needs(core: &Core) -> ArrayVec<u32, 100>
    ensures { result.items ≡ map (need_in core.now.steps) (range_with_len 0 (length core.now.steps)) }
{
    let ends = ends_of(core.steps.as_slice());
    let mut needs = ArrayVec::new();
    let mut made = 0;
    for (j, step) in core.steps.as_slice().iter().enumerate() {
        let here = value_count(step.results.as_slice());
        needs.push(live_count(&ends, made, j) + here);
        made += here;
    }
    needs
}

/// Need of step `j`: the number of values that were made before it and that it or a later step reads, plus the number of values that it
/// makes.
pub fn need(core: &Core, j: usize) -> u32
    requires { j < length core.now.steps }
    ensures { result ≡ need_in core.now.steps j }
{
    needs(core).as_slice()[j]
}

/// The largest need of a step, 0 without steps.
pub fn widest_need(core: &Core) -> u32
    ensures { result ≡ widest core.now.steps }
{
    largest(needs(core).as_slice(), 0)
}

/// The largest of the needs and of one more.
fn largest(needs: &[u32], need: u32) -> u32
    ensures { result ≡ fold max need needs.now }
{
    let [first, rest @ ..] = needs else {
        return need;
    };
    largest(rest, need.max(*first))
}
