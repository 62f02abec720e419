//! An opcode on adjacent sub-lanes.

ghost use Rattle.std.specs.Prelude.{◌≡◌, ◌<◌, ◌≤◌, ◌+◌, ◌*◌, ◌%◌, ◌^◌, None};
ghost use Rattle.orc_ops.specs.Table.{size_of_result, size_of_source};
ghost use Rattle.orc_ops.specs.Far.{far_of};
ghost use Rattle.orc_ops.specs.Formula.{formula};
ghost use Rattle.orc_program.specs.Meaning as meaning;
ghost use Rattle.orc_emul.specs.State.{given};

use orc_ops::{Op, eval, results, sources};

/// What a source gives: a variable's number, which is cut into sub-lanes, or one number for each of them.
#[derive(Clone, Copy, Debug)]
pub enum Given {
    Lanes(u64),
    Same(u64),
}

/// The low bits of a number.
pub fn low_bits(v: u64, bits: u32) -> u64
    ensures { result ≡ v % 2 ^ bits }
{
    if bits >= 64 { v } else { v % (1 << bits) }
}

/// Sub-lane q of so many bytes.
fn sub_lane(v: u64, size: u8, q: u8) -> u64
    ensures { result ≡ meaning.sub_lane (8 * size) v q }
{
    let width = 8 * u32::from(size);
    let offset = width * u32::from(q);
    if offset >= 64 {
        0
    } else {
        low_bits(v >> offset, width)
    }
}

/// The number of sub-lane q.
fn number_at(source: Given, size: u8, q: u8) -> u64
    ensures { result ≡ given (8 * size) source q }
{
    match source {
        Given::Lanes(v) => sub_lane(v, size, q),
        Given::Same(n) => n,
    }
}

/// A number in its place among sub-lanes of so many bytes.
fn placed(v: u64, size: u8, q: u8) -> u64
    requires low { v < 2 ^ (8 * size) }
    requires fits { 8 * size * (q + 1) ≤ 64 }
    ensures { result ≡ v * 2 ^ (8 * size * q) }
{
    v << (8 * u32::from(size) * u32::from(q))
}

fn first_result(op: Op) -> u8
    ensures { result ≡ size_of_result op 0 }
{
    results(op)[0]
}

fn second_result(op: Op) -> u8
    ensures { result ≡ size_of_result op 1 }
{
    results(op)[1]
}

fn first_source(op: Op) -> u8
    ensures { result ≡ size_of_source op 0 }
{
    sources(op)[0]
}

fn second_source(op: Op) -> u8
    ensures { result ≡ size_of_source op 1 }
{
    sources(op)[1]
}

/// The results of an opcode that is no far load on one sub-lane.
fn results_at(op: Op, a: Given, b: Given, q: u8) -> (u64, u64)
    requires near { far_of op ≡ None }
    ensures value { result ≡ formula op (given (8 * size_of_source op 0) a q) (given (8 * size_of_source op 1) b q) }
    ensures first { result.0 < 2 ^ (8 * size_of_result op 0) }
    ensures second { result.1 < 2 ^ (8 * size_of_result op 1) }
{
    eval(
        op,
        number_at(a, first_source(op), q),
        number_at(b, second_source(op), q),
    )
}

/// The results of an opcode that is no far load on so many adjacent sub-lanes.
pub fn lanewise(op: Op, prefix: u8, a: Given, b: Given) -> (u64, u64)
    requires near { far_of op ≡ None }
    requires first { 8 * size_of_result op 0 * prefix ≤ 64 }
    requires second { 8 * size_of_result op 1 * prefix ≤ 64 }
    ensures { result ≡ meaning.lanewise op prefix (given (8 * size_of_source op 0) a) (given (8 * size_of_source op 1) b) }
{
    let mut first = 0;
    let mut second = 0;
    for q in 0..prefix {
        let (x, y) = results_at(op, a, b, q);
        first += placed(x, first_result(op), q);
        second += placed(y, second_result(op), q);
    }
    (first, second)
}
