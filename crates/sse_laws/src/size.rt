//! Opcodes whose operands have one size.

ghost use Rattle.std.specs.Prelude.{◌≡◌};
ghost use Rattle.sse_laws.specs.Meets.{is_of_size};

use orc_ops::{Kind, Op, info};

/// Whether all operands of an opcode, a count apart, have this many bytes, and it adds to no accumulator.
pub fn is_of_size(width: u8, op: Op) -> bool
    ensures { result ≡ is_of_size width op }
{
    let row = info(op);
    let second = match row.kind {
        Kind::Sum => return false,
        Kind::Shift => 0,
        _ => row.sources[1],
    };
    row.results[0] == width
        && row.results[1] == 0
        && row.sources[0] == width
        && (second == 0 || second == width)
}
