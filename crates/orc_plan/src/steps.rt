//! Steps over values, and their places.

ghost use Rattle.std.specs.Prelude.{◌≡◌};

use arrayvec::ArrayVec;
use orc_ops::Op;
use std::marker::Model;

/// An operand of a step.
#[derive(Clone, Copy, Debug, PartialEq, Eq)]
pub enum Item {
    /// The value of this number. Values are numbered from 0, in the order in which they are made.
    Value(u16),
    /// The array in this slot: dests have the slots 0 to 3, and sources the slots 4 to 11.
    Array(u8),
    /// An accumulator, by its place among the accumulators and its size in bytes.
    Acc { slot: u8, size: u8 },
    /// The number with this place in the list of the function's patterns.
    Pattern(u8),
}

/// The first pattern, which fills unused room.
impl Default for Item {
    fn default() -> Self
        ensures { result ≡ Item.Pattern 0 }
    {
        Item::Pattern(0)
    }
}

/// One instruction over values: an opcode that works on `prefix` adjacent sub-lanes of its operands.
#[derive(Debug, Drop)]
pub struct Step {
    /// The opcode.
    pub op: Op,
    /// The number of sub-lanes: 1, 2 or 4.
    pub prefix: u8,
    /// The number of the instruction's line in its text, counted from 1.
    pub line: u32,
    /// The results, the first before the second.
    pub results: ArrayVec<Item, 2>,
    /// The sources, from the left.
    pub sources: ArrayVec<Item, 3>,
}

/// A step without operands, which fills unused room.
impl Default for Step {
    fn default() -> Self {
        Step {
            op: Op::Copyb,
            prefix: 1,
            line: 0,
            results: ArrayVec::new(),
            sources: ArrayVec::new(),
        }
    }
}

/// A function as steps over values. Values are numbered from 0 in the order in which the steps make them, and a value among a step's
/// sources was made by an earlier step.
#[derive(Debug, Drop)]
pub struct Core {
    /// The steps, in order.
    pub steps: ArrayVec<Step, 100>,
    /// The size in bytes of an array's elements, by the array's slot; 0 in a slot that isn't used.
    pub sizes: [u8; 12],
    /// The elements that are done at once.
    pub lanes: u8,
}

impl Model for Core {
    ghost use Rattle.std.specs.Prelude.{◌≡◌, true};
    ghost use Rattle.orc_plan.specs.Core.{CoreValue, is_numbered};

    ghost Value = { CoreValue };

    ghost view = { λ c. record { steps = c.steps.items; sizes = c.sizes; lanes = c.lanes } };

    ghost invariant = { λ c. is_numbered 0 c.steps.items ≡ true };
}

/// Steps with a place below 74 for each value, and below 10 where no step needs more than ten values at once, such that no two values that one
/// step needs at once share a place.
#[derive(Debug, Drop)]
pub struct Placed {
    /// The steps.
    pub core: Core,
    /// The place of each value, by its number.
    pub places: ArrayVec<u8, 200>,
}

impl Model for Placed {
    ghost use Rattle.orc_plan.specs.Places.{PlacedValue, GoodPlaces};

    ghost Value = { PlacedValue };

    ghost view = { λ p. record { core = p.core; places = p.places.items } };

    ghost invariant = { λ p. GoodPlaces p.core.steps p.places.items };
}

/// The first step that needs more values at once than there are places.
#[derive(Clone, Copy, Debug, PartialEq, Eq)]
pub struct Pressure {
    /// The step's line.
    pub line: u32,
    /// The number of values that it needs.
    pub need: u32,
}
