//! Numbers of several bytes in a store, at addresses modulo 2^64, lowest byte first.

ghost use Rattle.std.specs.Prelude.{◌≡◌, ◌<◌, ◌≤◌, ◌+◌, ◌*◌, ◌%◌, ◌^◌, true, false, None, Some, IsTrue, MatchOption, MatchResult, OnErr};
ghost use Rattle.orc_bits.specs.Memory as memory;
ghost use Rattle.orc_bits.specs.Memory.{value, missing, all_mapped};
ghost use Rattle.orc_bits.specs.Lanes.{byte_of};
ghost use Rattle.orc_bits.specs.Parts.{memory_of, layout};

use crate::store::Store;
use orc_bits::lane::byte_at;

/// The number in so many bytes, or the address of the first that isn't mapped.
pub fn read(store: &Store, at: u64, n: u8) -> Result<u64, u64>
    requires { n ≤ 8 }
    ensures { MatchResult result (λ v. (value n (memory_of store.now) at ≡ Some v) × (v < 256 ^ n)) (λ a. (value n (memory_of store.now) at ≡ None) × (a ≡ missing n (memory_of store.now) at)) }
{
    if n == 0 {
        return Ok(0);
    }
    let Some(low) = store.get(at) else {
        return Err(at);
    };
    match read(store, at.wrapping_add(1), n - 1) {
        Ok(high) => Ok(u64::from(low) + 256 * high),
        Err(a) => Err(a),
    }
}

/// The address of the first byte that isn't mapped.
fn first_missing(store: &Store, at: u64, n: u8) -> Option<u64>
    ensures { MatchOption result (all_mapped n (memory_of store.now) at ≡ true) (λ a. (all_mapped n (memory_of store.now) at ≡ false) × (a ≡ missing n (memory_of store.now) at)) }
{
    if n == 0 {
        return None;
    }
    if store.get(at).is_none() {
        return Some(at);
    }
    first_missing(store, at.wrapping_add(1), n - 1)
}

/// Writes the low bytes of a number where all are mapped.
fn fill(store: &mut Store, at: u64, n: u8, v: u64)
    requires few { n ≤ 8 }
    requires there { all_mapped n (memory_of store.old) at ≡ true }
    ensures memory { memory_of store.new ≡ memory.fill n (memory_of store.old) at (byte_of n v) }
    ensures layout { layout store.new ≡ layout store.old }
{
    for k in 0..n {
        store.set(at.wrapping_add(u64::from(k)), byte_at(v, usize::from(k)));
    }
}

/// Writes the low bytes of a number, or tells the address of the first byte that isn't mapped, and changes nothing.
pub fn write(store: &mut Store, at: u64, n: u8, v: u64) -> Result<(), u64>
    requires { n ≤ 8 }
    ensures memory { MatchResult result (λ x. memory.store n (memory_of store.old) at (byte_of n v) ≡ Some (memory_of store.new)) (λ a. (memory.store n (memory_of store.old) at (byte_of n v) ≡ None) × (a ≡ missing n (memory_of store.old) at)) }
    ensures layout { layout store.new ≡ layout store.old }
    ensures unchanged { OnErr result (store.new ≡ store.old) }
{
    if let Some(a) = first_missing(store, at, n) {
        return Err(a);
    }
    fill(store, at, n, v);
    Ok(())
}
