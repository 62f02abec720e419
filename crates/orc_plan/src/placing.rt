//! Places for values: a step frees the places of values that neither it nor a later step reads, and gives free ones to the values that it makes.

ghost use Rattle.std.specs.Prelude.{◌≡◌, ◌+◌, ◌*◌, ◌<◌, ◌≤◌, ◌++◌, ◌∷◌, ℕ, [], true, false, nat_lt, length, filter, slice_index, MatchOption, MatchResult};
ghost use Rattle.orc_program.specs.Need.{is_in, places, registers};
ghost use Rattle.orc_plan.specs.Core.{values_among, counts_from};
ghost use Rattle.orc_plan.specs.Need.{widest};
ghost use Rattle.orc_plan.specs.Ending.{AreEnds};
ghost use Rattle.orc_plan.specs.Places.{NeedsFew, IsPressure};
ghost use Rattle.orc_plan.specs.Placing.{is_taken, NeedAtMost, Holds, Extends, HasRoom, PlacesAll};

use crate::copying::copy_of;
use crate::counting::{needs, widest_need};
use crate::reads::{Ends, ends_of, is_read_from};
use crate::spilling::{Spilled, spilled_values};
use crate::steps::{Core, Item, Placed, Pressure, Step};
use arrayvec::ArrayVec;

/// The number of places that hold values of temps: the registers, and then the spill slots of the frame.
pub(crate) const PLACES: usize = 74;

/// The number of those places that are vector registers.
pub(crate) const REGISTERS: usize = 10;

/// The values that are held at one time.
pub(crate) type Held = ArrayVec<u16, PLACES>;

/// The place of each value, by its number.
type Places = ArrayVec<u8, 200>;

/// What decides which place a value gets, and until when.
#[derive(Drop)]
struct Choice {
    /// When values are read for the last time.
    ends: Ends,
    /// The values that are better held in the frame.
    spilled: Spilled,
    /// How many of the places are given.
    most: u8,
}

/// Whether one of the held values is in this place.
#[tactic(auto, unfolding(crate::specs::Placing::is_taken))]
fn is_taken(held: &[u16], at: &[u8], place: u8) -> bool
    ensures { result ≡ is_taken held.now at.now place }
{
    let [value, rest @ ..] = held else {
        return false;
    };
    place_of(at, *value) == place || is_taken(rest, at, place)
}

/// The place of a value, by the places of all values; 0 of one that has none.
pub fn place_of(at: &[u8], value: u16) -> u8
    ensures { result ≡ slice_index at.now value }
{
    match at.get(usize::from(value)) {
        Some(place) => *place,
        None => 0,
    }
}

/// The first place from `from` to below `most` in which no held value is.
fn first_free(held: &[u16], at: &[u8], from: u8, most: u8) -> Option<u8>
    ensures { MatchOption result ((p : ℕ) → from ≤ p → p < most → is_taken held.now at.now p ≡ true) (λ place. (place < most) × (is_taken held.now at.now place ≡ false)) }
{
    for place in from..most {
        if !is_taken(held, at, place) {
            return Some(place);
        }
    }
    None
}

/// A place below `most` in which no held value is: the first such place from `from` on, and where there is none the first of all.
#[tactic(auto, using(crate::proofs::Holding::all_taken))]
fn free_place(held: &[u16], at: &[u8], from: u8, most: u8) -> u8
    requires { length held.now < most }
    ensures below { result < most }
    ensures free { is_taken held.now at.now result ≡ false }
{
    if let Some(place) = first_free(held, at, from, most) {
        return place;
    }
    if let Some(place) = first_free(held, at, 0, most) {
        return place;
    }
    0
}

/// The place from which on a place for the value is sought: the first spill slot for one that is better held in the frame, else the first
/// register.
fn wished_place(value: u16, spilled: &Spilled) -> u8 {
    match spilled.get(usize::from(value)) {
        Some(true) => REGISTERS as u8,
        _ => 0,
    }
}

/// The held values that step `j` or a later one reads.
pub(crate) fn still_held(held: &[u16], ends: &Ends, j: usize) -> Held
    requires { length held.now ≤ places }
    ensures { result.items ≡ filter (λ v. nat_lt j (slice_index ends.now v)) held.now }
{
    let mut kept = ArrayVec::new();
    for value in held {
        if is_read_from(ends, j, usize::from(*value)) {
            kept.push(*value);
        }
    }
    kept
}

/// Gives a free place to the next value.
#[tactic(auto, using(crate::proofs::Holding::holds_more, crate::proofs::Holding::extends_one))]
fn hold_value(value: u16, choice: &Choice, held: &mut Held, at: &mut Places)
    requires holds { Holds choice.now.most held.old.items at.old.items }
    requires next { value ≡ length at.old.items }
    requires few { length held.old.items < choice.now.most }
    requires places { choice.now.most ≤ places }
    requires room { length at.old.items < 200 }
    ensures held { held.new.items ≡ held.old.items ++ value ∷ [] }
    ensures holds { Holds choice.now.most held.new.items at.new.items }
    ensures extends { Extends at.old.items at.new.items 1 }
{
    let from = wished_place(value, &choice.spilled);
    let place = free_place(held.as_slice(), at.as_slice(), from, choice.most);
    held.push(value);
    at.push(place);
}

/// Gives a free place to each value among the items.
#[tactic(auto, using(crate::proofs::Holding::extends_none, crate::proofs::Holding::extends_both))]
fn hold(items: &[Item], choice: &Choice, held: &mut Held, at: &mut Places)
    requires holds { Holds choice.now.most held.old.items at.old.items }
    requires numbered { counts_from (length at.old.items) (values_among items.now) ≡ true }
    requires few { length held.old.items + length (values_among items.now) ≤ choice.now.most }
    requires places { choice.now.most ≤ places }
    requires room { length at.old.items + length (values_among items.now) ≤ 200 }
    ensures held { held.new.items ≡ held.old.items ++ values_among items.now }
    ensures holds { Holds choice.now.most held.new.items at.new.items }
    ensures extends { Extends at.old.items at.new.items (length (values_among items.now)) }
{
    let [item, rest @ ..] = items else {
        return;
    };
    match item {
        Item::Value(value) => {
            hold_value(*value, choice, held, at);
            hold(rest, choice, held, at);
        }
        Item::Array(_) | Item::Acc { .. } | Item::Pattern(_) => hold(rest, choice, held, at),
    }
}

/// Gives a place to each value that the steps make, of which the first has the number `j`.
fn place_all(steps: &[Step], j: usize, choice: &Choice, held: &Held, at: &mut Places)
    requires room { HasRoom choice.now.most held.now.items at.old.items steps.now }
    requires places { choice.now.most ≤ places }
    requires ends { AreEnds choice.now.ends j steps.now }
    requires few { j + length steps.now ≤ 100 }
    ensures { PlacesAll choice.now.most held.now.items at.old.items at.new.items steps.now }
{
    let [step, rest @ ..] = steps else {
        return;
    };
    let mut held = still_held(held.as_slice(), &choice.ends, j);
    hold(step.results.as_slice(), choice, &mut held, at);
    place_all(rest, j + 1, choice, &held, at);
}

/// The first step that needs more values than there are places.
fn first_pressure(core: &Core) -> Option<Pressure>
    ensures { MatchOption result (NeedsFew core.now.steps) (IsPressure core.now.steps) }
{
    let needs = needs(core);
    for (j, step) in core.steps.as_slice().iter().enumerate() {
        let need = needs.as_slice()[j];
        if need > PLACES as u32 {
            return Some(Pressure {
                line: step.line,
                need,
            });
        }
    }
    None
}

/// How many of the places are given: the registers alone where no step needs more, else all.
#[tactic(auto, using(crate::proofs::Values::below_widest))]
fn places_used(core: &Core) -> u8
    ensures few { result ≤ places }
    ensures near { widest core.now.steps ≤ registers → result ≡ registers }
    ensures enough { NeedsFew core.now.steps → NeedAtMost result core.now.steps }
{
    if widest_need(core) > REGISTERS as u32 {
        PLACES as u8
    } else {
        REGISTERS as u8
    }
}

/// Gives each value one of 74 places, and one of the first ten where no step's need is above ten, such that no two values that count in one
/// step's need share a place. `Err` exactly where some step's need is above 74: the first such step's line and need.
///
/// The first ten places are registers and the others spill slots in the frame. Where there are more values than registers, those go to slots
/// whose next use is farthest.
pub fn place(core: &Core) -> Result<Placed, Pressure>
    ensures { MatchResult result (λ placed. (placed.core ≡ core.now) × NeedsFew core.now.steps) (IsPressure core.now.steps) }
{
    if let Some(pressure) = first_pressure(core) {
        return Err(pressure);
    }
    let steps = core.steps.as_slice();
    let ends = ends_of(steps);
    let choice = Choice {
        spilled: spilled_values(steps, &ends),
        ends,
        most: places_used(core),
    };
    let mut places = ArrayVec::new();
    place_all(steps, 0, &choice, &ArrayVec::new(), &mut places);
    Ok(Placed {
        core: copy_of(core),
        places,
    })
}
