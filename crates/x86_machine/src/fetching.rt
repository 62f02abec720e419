//! Instructions that were decoded, by their places in the code.

ghost use Rattle.std.specs.Prelude.{◌≡◌, ◌≤◌, ℕ, true, List, length};
ghost use Rattle.x86_machine.specs.Fetching.{Stands, IsFetched, AreFetched};

use x86_decode::decode;
use x86_ins::ins::Ins;

/// How many slots a table has.
const SLOTS: usize = 4096;

/// An instruction of the code.
#[derive(Clone, Copy)]
pub struct Fetched {
    /// The place of its first byte in the code.
    pub place: usize,
    /// What it is.
    pub ins: Ins,
    /// Its number of bytes.
    pub size: usize,
}

/// Instructions of one code, each in the slot that is its place modulo the number of slots.
pub type Table = [Option<Fetched>; SLOTS];

/// The table that has no instruction.
pub fn empty() -> Table
    ensures { (code : List ℕ) → AreFetched code result }
{
    [None; SLOTS]
}

/// The instruction that stands at a place of the code.
fn decoded(code: &[u8], place: usize) -> Option<Fetched>
    requires { place ≤ length code.now }
    ensures { Stands code.now place result }
{
    let (_, rest) = code.split_at(place);
    let (ins, size) = decode(rest)?;
    Some(Fetched { place, ins, size })
}

/// Whether a slot has the instruction that stands at a place of the code.
fn has(slot: Option<Fetched>, code: &[u8], place: usize) -> bool
    requires { IsFetched code.now slot }
    ensures { result ≡ true → Stands code.now place slot }
{
    match slot {
        Some(fetched) => fetched.place == place,
        None => false,
    }
}

/// The instruction that stands at a place of the code, from its slot or else decoded into it.
pub fn fetch(code: &[u8], place: usize, table: &mut Table) -> Option<Fetched>
    requires inside { place ≤ length code.now }
    requires table { AreFetched code.now table.old }
    ensures table { AreFetched code.now table.new }
    ensures found { Stands code.now place result }
{
    let slot = place % SLOTS;
    if !has(table[slot], code, place) {
        table[slot] = decoded(code, place);
    }
    table[slot]
}
