//! The results of an opcode.

ghost use Rattle.std.specs.Prelude.{◌≡◌, ◌<◌, ◌*◌, ◌^◌, None};
ghost use Rattle.orc_bits.specs.Widths.{IsWidth};
ghost use Rattle.orc_ops.specs.Table.{row, wide, to, size_of_result};
ghost use Rattle.orc_ops.specs.Far.{far_of};
ghost use Rattle.orc_ops.specs.Widths.{Takes, TakesSecond};
ghost use Rattle.orc_ops.specs.Formula.{formula, source_of};

use crate::formulas::apply;
use crate::opcode::{Op, results, sources, stem_of};
use orc_bits::cut;

/// The bits of the first source.
#[tactic(auto, using(crate::proofs::Rows::row_fits))]
pub fn wide_of(op: Op) -> u32
    ensures value { result ≡ wide op }
    ensures width { IsWidth result }
{
    8 * u32::from(sources(op)[0])
}

/// The bits of the first result.
#[tactic(auto, using(crate::proofs::Rows::row_fits))]
pub fn to_of(op: Op) -> u32
    ensures value { result ≡ to op }
    ensures width { IsWidth result }
    ensures takes { Takes (row op).stem (wide op) result }
{
    8 * u32::from(results(op)[0])
}

/// The second source, cut to its width.
#[tactic(auto, using(crate::proofs::Rows::row_fits))]
fn second(op: Op, b: u64) -> u64
    requires near { far_of op ≡ None }
    ensures value { result ≡ source_of op 1 b }
    ensures takes { TakesSecond (row op).stem (wide op) result }
{
    match sources(op)[1] {
        0 => 0,
        1 => cut(b, 8),
        2 => cut(b, 16),
        4 => cut(b, 32),
        _ => b,
    }
}

#[tactic(auto, unfolding(crate::specs::Formula::formula))]
fn results_of(op: Op, a: u64, b: u64) -> (u64, u64)
    requires near { far_of op ≡ None }
    ensures { result ≡ formula op a b }
{
    let wide = wide_of(op);
    apply(stem_of(op), wide, to_of(op), cut(a, wide), second(op, b))
}

/// The first and second result of an opcode that is no far load on two sources, each cut to its size; `b` isn't read where there is one source. The
/// second result is 0 where there is none. Of a `Sum` opcode the first is the number that is added.
pub fn eval(op: Op, a: u64, b: u64) -> (u64, u64)
    requires near { far_of op ≡ None }
    ensures value { result ≡ formula op a b }
    ensures first { result.0 < 2 ^ (8 * size_of_result op 0) }
    ensures second { result.1 < 2 ^ (8 * size_of_result op 1) }
{
    results_of(op, a, b)
}
