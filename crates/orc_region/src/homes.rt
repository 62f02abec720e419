//! The vector registers in which results are made and values stand.

ghost use Rattle.std.specs.Prelude.{◌≡◌, ◌≢◌, ◌<◌, ◌≤◌, ℕ, map, length, slice_index};
ghost use Rattle.x86_ins.specs.Way.{Each};
ghost use Rattle.x86_ins.specs.Renaming.{IsPermutation, renaming};
ghost use Rattle.orc_program.specs.Need.{registers};
ghost use Rattle.orc_region.specs.Code.{seats_in, source_of, target_of, own_names, exchanged, take_names, source_names, place_register, made_in, first_register, second_register, third_register, sum_home, to_sum, exchange, InPlaces};

use crate::residents::{Seats, is_resident, resident_register};
use crate::taking::Takes;
use orc_plan::{Item, place_of};
use x86_ins::Xmm;

/// The number of places that are vector registers. Each place past them is a slot of the frame.
pub const REGISTERS: u8 = 10;

/// Holds a running sum while it is added to, where it stands in the frame: XMM2.
pub const SUM: Xmm = Xmm { number: 2 };

/// The registers in which an instruction's results are made, which are also those of its sources, and the one with a running sum.
#[derive(Clone, Copy)]
pub struct Homes {
    /// Of the first source and result.
    pub first: Xmm,
    /// Of the second ones.
    pub second: Xmm,
    /// Of the running sum that is added to.
    pub sum: Xmm,
}

/// The register of a place: XMM6 to XMM15.
pub fn place_register(place: u8) -> Xmm
    requires { place < registers }
    ensures { result ≡ place_register place }
{
    Xmm { number: 6 + place }
}

/// The register in which a result is made that a rule makes in XMM `number`: that of its place, where it has one.
fn made_in(at: &[u8], number: u8, item: Item) -> Xmm
    requires few { number < 6 }
    requires places { InPlaces (target_of at.now item) }
    ensures { result ≡ made_in number (target_of at.now item) }
{
    match item {
        Item::Value(value) => {
            let place = place_of(at, value);
            if place < REGISTERS {
                place_register(place)
            } else {
                Xmm { number }
            }
        }
        Item::Array(_) | Item::Acc { .. } | Item::Pattern(_) => Xmm { number },
    }
}

/// The register in which a running sum is added to.
fn sum_home(at: &[u8], sum: u8) -> Xmm
    ensures { result ≡ sum_home (to_sum at.now sum) }
{
    if is_resident(at, u16::from(sum)) {
        resident_register(u16::from(sum))
    } else {
        SUM
    }
}

/// The registers of an instruction with these results.
pub fn homes_of(at: &[u8], results: &[Item]) -> Homes
    requires { Each InPlaces (map (target_of at.now) results.now) }
    ensures first { result.first ≡ first_register (map (target_of at.now) results.now) }
    ensures second { result.second ≡ second_register (map (target_of at.now) results.now) }
    ensures sum { result.sum ≡ third_register (map (target_of at.now) results.now) }
{
    let first = match results {
        [item, ..] => made_in(at, 0, *item),
        [] => Xmm { number: 0 },
    };
    let second = match results {
        [_, item, ..] => made_in(at, 1, *item),
        _ => Xmm { number: 1 },
    };
    let sum = match results {
        [Item::Acc { slot, .. }, ..] => sum_home(at, *slot),
        _ => SUM,
    };
    Homes { first, second, sum }
}

/// Register `r` where registers `a` and `b` change places.
fn exchange(a: u8, b: u8, r: u8) -> u8
    ensures is { result ≡ exchange a b r }
    ensures below { a < 16 → b < 16 → r < 16 → result < 16 }
{
    if r == a {
        b
    } else if r == b {
        a
    } else {
        r
    }
}

/// The names of a rule's registers where XMM0, XMM1 and XMM2 change places with registers `first`, `second` and `sum`.
fn names(first: u8, second: u8, sum: u8) -> [u8; 16]
    requires first { first < 16 }
    requires second { second < 16 }
    requires sum { sum < 16 }
    ensures is { (r : ℕ) → r < 16 → renaming result r ≡ exchange 0 first (exchange 1 second (exchange 2 sum r)) }
    ensures permutation { IsPermutation result }
{
    let mut names = [0; 16];
    for r in 0..16 {
        names[r] = exchange(0, first, exchange(1, second, exchange(2, sum, r as u8)));
    }
    names
}

/// The names of a rule's registers where XMM0 and XMM1 change places with those of the results, and XMM2 with that of the running sum.
pub fn names_of(homes: &Homes) -> [u8; 16]
    ensures is { (r : ℕ) → r < 16 → renaming result r ≡ exchange 0 homes.now.first (exchange 1 homes.now.second (exchange 2 homes.now.sum r)) }
    ensures permutation { IsPermutation result }
{
    names(homes.first.number, homes.second.number, homes.sum.number)
}

/// The vector registers' names where each has its own.
pub fn own_names() -> [u8; 16]
    ensures is { result ≡ own_names }
    ensures permutation { IsPermutation result }
{
    let mut names = [0; 16];
    for r in 0..16 {
        names[r] = r as u8;
    }
    names
}

/// The name of a register.
#[tactic(auto, using(x86_ins::proofs::Permutations::entry_is))]
fn name_of(names: &[u8; 16], register: u8) -> u8
    requires names { IsPermutation names.now }
    requires register { register < 16 }
    ensures { result ≡ renaming names.now register }
{
    names[usize::from(register)]
}

/// The names where registers `a` and `b` change them.
fn exchanged(a: u8, b: u8, names: &[u8; 16]) -> [u8; 16]
    requires first { a < 16 }
    requires second { b < 16 }
    requires names { IsPermutation names.now }
    ensures is { result ≡ exchanged a b names.now }
    ensures permutation { IsPermutation result }
{
    let mut changed = [0; 16];
    for r in 0..16 {
        changed[r] = name_of(names, exchange(a, b, r as u8));
    }
    changed
}

/// The names where a source may be taken over: its register then changes names with the one that the source would go to.
#[tactic(auto, using(crate::proofs::Block::Sums::pattern_names))]
fn take_names(taken: bool, home: Xmm, seats: &Seats<'_>, item: Item, names: &[u8; 16]) -> [u8; 16]
    requires { IsPermutation names.now }
    ensures is { result ≡ take_names taken home (source_of (seats_in seats.now) item) names.now }
    ensures permutation { IsPermutation result }
{
    match item {
        Item::Value(value) => {
            let place = place_of(seats.places, value);
            if place >= REGISTERS {
                return *names;
            }
            if taken {
                exchanged(home.number, place_register(place).number, names)
            } else {
                *names
            }
        }
        Item::Array(_) | Item::Acc { .. } | Item::Pattern(_) => *names,
    }
}

/// The names in an instruction with these sources, and behind it, after these names.
pub fn source_names(
    takes: Takes,
    homes: &Homes,
    seats: &Seats<'_>,
    sources: &[Item],
    names: &[u8; 16],
) -> [u8; 16]
    requires { IsPermutation names.now }
    ensures is { result ≡ source_names takes.first takes.second homes.now.first homes.now.second (map (source_of (seats_in seats.now)) sources.now) names.now }
    ensures permutation { IsPermutation result }
{
    match sources {
        [] => *names,
        [one] => take_names(takes.first, homes.first, seats, *one, names),
        [one, two, ..] => {
            let names = take_names(takes.first, homes.first, seats, *one, names);
            take_names(takes.second, homes.second, seats, *two, &names)
        }
    }
}
