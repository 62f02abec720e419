//! Sources whose registers are taken over.
//!
//! A value that nothing reads again is worked on where it stands: its register changes names with the one that the rule has for the
//! source, and stands for it in all that follows in the block. So nothing is copied.

ghost use Rattle.std.specs.Prelude.{◌≡◌, ◌∷◌, [], ℕ, if◌then◌else◌, is_some, map};
ghost use Rattle.orc_ops.specs.Far.{far_of};
ghost use Rattle.orc_region.specs.Code.{seats_in, source_of, target_of, is_from, is_to, some_from, some_to, is_free, is_last, is_beside, is_first_taken, is_second_taken};

use crate::homes::REGISTERS;
use crate::residents::Seats;
use orc_ops::far_of;
use orc_plan::{Item, Step, place_of};

/// Which sources of an instruction are taken over.
#[derive(Clone, Copy)]
pub struct Takes {
    /// The first one.
    pub first: bool,
    /// The second one.
    pub second: bool,
}

/// Whether a source comes from a place.
#[tactic(auto, using(crate::proofs::Block::Places::from_this, crate::proofs::Block::Sums::pattern_elsewhere))]
fn is_from(seats: &Seats<'_>, place: u8, item: Item) -> bool
    ensures { result ≡ is_from place (source_of (seats_in seats.now) item) }
{
    match item {
        Item::Value(value) => place_of(seats.places, value) == place,
        Item::Array(_) | Item::Acc { .. } | Item::Pattern(_) => false,
    }
}

/// Whether a result goes to a place.
#[tactic(auto, using(crate::proofs::Block::Places::to_this, crate::proofs::Block::Sums::sum_elsewhere))]
fn is_to(at: &[u8], place: u8, item: Item) -> bool
    ensures { result ≡ is_to place (target_of at.now item) }
{
    match item {
        Item::Value(value) => place_of(at, value) == place,
        Item::Array(_) | Item::Acc { .. } | Item::Pattern(_) => false,
    }
}

/// Whether one of the sources comes from a place.
fn some_from(seats: &Seats<'_>, place: u8, sources: &[Item]) -> bool
    ensures { result ≡ some_from place (map (source_of (seats_in seats.now)) sources.now) }
{
    match sources {
        [] => false,
        [one] => is_from(seats, place, *one),
        [one, two, ..] => is_from(seats, place, *one) || is_from(seats, place, *two),
    }
}

/// Whether one of the results goes to a place.
fn some_to(at: &[u8], place: u8, results: &[Item]) -> bool
    ensures { result ≡ some_to place (map (target_of at.now) results.now) }
{
    match results {
        [] => false,
        [one] => is_to(at, place, *one),
        [one, two, ..] => is_to(at, place, *one) || is_to(at, place, *two),
    }
}

/// Whether none of these steps reads what stands at a place: before one does, one makes a value there.
fn is_free(seats: &Seats<'_>, place: u8, steps: &[Step]) -> bool
    ensures { result ≡ is_free (seats_in seats.now) place steps.now }
{
    match steps {
        [] => true,
        [step, later @ ..] => {
            !some_from(seats, place, step.sources.as_slice())
                && (some_to(seats.places, place, step.results.as_slice())
                    || is_free(seats, place, later))
        }
    }
}

/// Whether no later step reads what is in a source's register.
#[tactic(auto, using(crate::proofs::Block::Sums::pattern_later))]
fn is_last(seats: &Seats<'_>, later: &[Step], item: Item) -> bool
    ensures { result ≡ is_last (seats_in seats.now) later.now (source_of (seats_in seats.now) item) }
{
    match item {
        Item::Value(value) => {
            let place = place_of(seats.places, value);
            if place < REGISTERS {
                is_free(seats, place, later)
            } else {
                false
            }
        }
        Item::Array(_) | Item::Acc { .. } | Item::Pattern(_) => false,
    }
}

/// Whether a second source is in a first one's register.
#[tactic(auto, using(crate::proofs::Block::Sums::pattern_beside))]
fn is_beside(seats: &Seats<'_>, one: Item, other: Item) -> bool
    ensures { result ≡ is_beside (source_of (seats_in seats.now) one) (source_of (seats_in seats.now) other) }
{
    match one {
        Item::Value(value) => {
            let place = place_of(seats.places, value);
            if place < REGISTERS {
                is_from(seats, place, other)
            } else {
                false
            }
        }
        Item::Array(_) | Item::Acc { .. } | Item::Pattern(_) => false,
    }
}

/// The sources of a step that may stand in registers: a far load has none, since it loads its values.
pub fn register_sources(step: &Step) -> &[Item]
    ensures { result.now ≡ (if is_some (far_of step.now.op) then [] else step.now.sources.items) }
{
    match far_of(step.op) {
        None => step.sources.as_slice(),
        Some(_) => &[],
    }
}

/// Which of the sources an instruction takes over that has these steps behind it.
pub fn takes_of(seats: &Seats<'_>, later: &[Step], sources: &[Item]) -> Takes
    ensures first { result.first ≡ is_first_taken (seats_in seats.now) later.now (map (source_of (seats_in seats.now)) sources.now) }
    ensures second { result.second ≡ is_second_taken (seats_in seats.now) later.now (map (source_of (seats_in seats.now)) sources.now) }
{
    match sources {
        [] => Takes {
            first: false,
            second: false,
        },
        [one] => Takes {
            first: is_last(seats, later, *one),
            second: false,
        },
        [one, two, ..] => Takes {
            first: is_last(seats, later, *one) && !is_beside(seats, *one, *two),
            second: is_last(seats, later, *two) && !is_beside(seats, *two, *one),
        },
    }
}
