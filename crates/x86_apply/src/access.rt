//! Accesses to memory, byte by byte.

ghost use Rattle.std.specs.Prelude.{◌≡◌, ◌≤◌, ◌<◌, ◌+◌, ◌-◌, ◌%◌, ◌^◌, if◌then◌else◌, nat_lt, length, get_or, IsTrue, Some, None, OnOk, OnErr, IfOk, IfErr};
ghost use Rattle.orc_bits.specs.Lanes.{from_bytes, byte_of};
ghost use Rattle.orc_bits.specs.Memory.{all_mapped, missing, fill, read, store, value};
ghost use Rattle.x86_apply.specs.Access.{absent, taken, byte_or_zero, IsRead};

use orc_bits::lane::{byte_at, lane_at};
use x86_ins::{Bytes, Trap, Why};

/// The first byte of an access that isn't mapped.
fn first_missing<B: Bytes>(mem: &B, at: u64, n: usize) -> Option<u64>
    requires few { n ≤ 16 }
    ensures { result ≡ absent n (B.bytes mem.now) at }
{
    for k in 0..n {
        let a = at.wrapping_add(k as u64);
        if !mem.mapped(a) {
            return Some(a);
        }
    }
    None
}

/// A byte, or 0 where none is mapped.
fn byte_or_zero<B: Bytes>(mem: &B, at: u64) -> u8
    ensures { result ≡ byte_or_zero (B.bytes mem.now at) }
{
    match mem.get(at) {
        Some(b) => b,
        None => 0,
    }
}

/// The bytes of an access, and 0 behind them.
fn read_all<B: Bytes>(mem: &B, at: u64, n: usize) -> [u8; 16]
    requires few { n ≤ 16 }
    ensures { result ≡ from_bytes (taken n (B.bytes mem.now) at) }
{
    let mut out = [0; 16];
    for k in 0..n {
        out[k] = byte_or_zero(mem, at.wrapping_add(k as u64));
    }
    out
}

/// Writes the bytes of an access that are all mapped.
fn write_all<B: Bytes>(mem: &mut B, at: u64, n: usize, from: &[u8; 16])
    requires few { n ≤ 16 }
    requires there { IsTrue (all_mapped n (B.bytes mem.old) at) }
    ensures { B.bytes mem.new ≡ fill n (B.bytes mem.old) at (λ j. get_or from.now j 0) }
{
    for k in 0..n {
        mem.set(at.wrapping_add(k as u64), from[k]);
    }
}

/// The low bytes of a number, and 0 behind them.
pub fn number_bytes(n: usize, v: u64) -> [u8; 16]
    requires few { n ≤ 8 }
    ensures { result ≡ from_bytes (byte_of n v) }
{
    let mut out = [0; 16];
    for k in 0..n {
        out[k] = byte_at(v, k);
    }
    out
}

/// So many bytes of a slice, and 0 behind them.
fn front(bytes: &[u8], n: usize) -> [u8; 16]
    requires few { n ≤ 16 }
    requires inside { length bytes.now ≡ n }
    ensures { result ≡ from_bytes (λ j. if nat_lt j n then get_or bytes.now j 0 else 0) }
{
    let mut out = [0; 16];
    for k in 0..n {
        out[k] = bytes[k];
    }
    out
}

/// The bytes of an access, and 0 behind them, or the first byte that isn't mapped.
fn load<B: Bytes>(mem: &B, at: u64, n: usize) -> Result<[u8; 16], u64>
    requires few { n ≤ 16 }
    ensures ok { IfOk result (λ v. (absent n (B.bytes mem.now) at ≡ None) × (v ≡ from_bytes (taken n (B.bytes mem.now) at))) }
    ensures missing { IfErr result (λ a. absent n (B.bytes mem.now) at ≡ Some a) }
{
    if let Some(bytes) = mem.slice(at, n) {
        return Ok(front(bytes, n));
    }
    match first_missing(mem, at, n) {
        Some(a) => Err(a),
        None => Ok(read_all(mem, at, n)),
    }
}

/// The trap of an access whose first byte that isn't mapped stands at an address.
fn unmapped(at: u64) -> Trap
    ensures { result ≡ record { at = at; why = Why.Unmapped } }
{
    Trap {
        at,
        why: Why::Unmapped,
    }
}

/// The register that an access reads.
pub fn load_register<B: Bytes>(n: usize, at: u64, mem: &B) -> Result<[u8; 16], Trap>
    requires few { n ≤ 16 }
    ensures ok { IfOk result (λ v. IsRead n (B.bytes mem.now) at v) }
    ensures trap { IfErr result (λ t. (read n (B.bytes mem.now) at ≡ None)
        × (t ≡ record { at = missing n (B.bytes mem.now) at; why = Why.Unmapped })) }
{
    match load(mem, at, n) {
        Ok(v) => Ok(v),
        Err(a) => Err(unmapped(a)),
    }
}

/// The number that an access reads.
pub fn load_number<B: Bytes>(n: usize, at: u64, mem: &B) -> Result<u64, Trap>
    requires few { n ≤ 8 }
    ensures ok { IfOk result (λ v. value n (B.bytes mem.now) at ≡ Some v) }
    ensures trap { IfErr result (λ t. (value n (B.bytes mem.now) at ≡ None)
        × (t ≡ record { at = missing n (B.bytes mem.now) at; why = Why.Unmapped })) }
{
    match load(mem, at, n) {
        Ok(v) => Ok(lane_at(&v, n, 0)),
        Err(a) => Err(unmapped(a)),
    }
}

/// Writes the low bytes of a register one by one.
fn save_each<B: Bytes>(n: usize, at: u64, from: &[u8; 16], mem: &mut B) -> Result<(), Trap>
    requires few { n ≤ 16 }
    ensures ok { OnOk result (store n (B.bytes mem.old) at (λ j. get_or from.now j 0) ≡ Some (B.bytes mem.new)) }
    ensures trap { IfErr result (λ t. (store n (B.bytes mem.old) at (λ j. get_or from.now j 0) ≡ None)
        × (t ≡ record { at = missing n (B.bytes mem.old) at; why = Why.Unmapped })) }
    ensures kept { OnErr result (B.bytes mem.new ≡ B.bytes mem.old) }
{
    match first_missing(mem, at, n) {
        Some(a) => Err(unmapped(a)),
        None => {
            write_all(mem, at, n, from);
            Ok(())
        }
    }
}

/// Writes the low bytes of a register.
pub fn save_register<B: Bytes>(n: usize, at: u64, from: &[u8; 16], mem: &mut B) -> Result<(), Trap>
    requires few { n ≤ 16 }
    ensures ok { OnOk result (store n (B.bytes mem.old) at (λ j. get_or from.now j 0) ≡ Some (B.bytes mem.new)) }
    ensures trap { IfErr result (λ t. (store n (B.bytes mem.old) at (λ j. get_or from.now j 0) ≡ None)
        × (t ≡ record { at = missing n (B.bytes mem.old) at; why = Why.Unmapped })) }
    ensures kept { OnErr result (B.bytes mem.new ≡ B.bytes mem.old) }
{
    let (low, _) = from.split_at(n);
    if mem.set_slice(at, low) {
        return Ok(());
    }
    save_each(n, at, from, mem)
}

/// Writes the low bytes of a number.
pub fn save_number<B: Bytes>(n: usize, at: u64, v: u64, mem: &mut B) -> Result<(), Trap>
    requires few { n ≤ 8 }
    ensures ok { OnOk result (store n (B.bytes mem.old) at (byte_of n v) ≡ Some (B.bytes mem.new)) }
    ensures trap { IfErr result (λ t. (store n (B.bytes mem.old) at (byte_of n v) ≡ None)
        × (t ≡ record { at = missing n (B.bytes mem.old) at; why = Why.Unmapped })) }
    ensures kept { OnErr result (B.bytes mem.new ≡ B.bytes mem.old) }
{
    let bytes = number_bytes(n, v);
    save_register(n, at, &bytes, mem)
}
