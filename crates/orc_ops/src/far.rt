//! The far loads, and what the table says of each.

ghost use Rattle.std.specs.Prelude.{◌≡◌};
ghost use Rattle.orc_ops.specs.Far.{far_of, far_name, far_size, far_scalars};
ghost use Rattle.orc_ops.specs.FarLines.{AreLines, HaveRows};

use crate::opcode::Op;

/// A load that reads elements other than the one at the place of its result. The letter at the end of a name tells the size of
/// the array's elements and of the result: 1, 2 or 4 bytes.
#[derive(Clone, Copy, Debug, PartialEq, Eq)]
pub enum Far {
    /// The element at an offset.
    Loadoffb,
    Loadoffw,
    Loadoffl,
    /// Each element twice.
    Loadupdb,
    /// Each element, and between two of them their average.
    Loadupib,
    /// The element before a place, which is counted in parts of 2^16 of an element.
    Ldresnearb,
    Ldresnearl,
    /// The elements before and behind such a place, mixed byte by byte.
    Ldreslinb,
    Ldreslinl,
}

/// The far load that an opcode is, where it is one.
pub fn far_of(op: Op) -> Option<Far>
    ensures { result ≡ far_of op }
{
    match op {
        Op::Loadoffb => Some(Far::Loadoffb),
        Op::Loadoffw => Some(Far::Loadoffw),
        Op::Loadoffl => Some(Far::Loadoffl),
        Op::Loadupdb => Some(Far::Loadupdb),
        Op::Loadupib => Some(Far::Loadupib),
        Op::Ldresnearb => Some(Far::Ldresnearb),
        Op::Ldresnearl => Some(Far::Ldresnearl),
        Op::Ldreslinb => Some(Far::Ldreslinb),
        Op::Ldreslinl => Some(Far::Ldreslinl),
        _ => None,
    }
}

/// The name of a far load.
pub fn far_name(far: Far) -> &'static str
    ensures { result.now ≡ far_name far }
{
    match far {
        Far::Loadoffb => "loadoffb",
        Far::Loadoffw => "loadoffw",
        Far::Loadoffl => "loadoffl",
        Far::Loadupdb => "loadupdb",
        Far::Loadupib => "loadupib",
        Far::Ldresnearb => "ldresnearb",
        Far::Ldresnearl => "ldresnearl",
        Far::Ldreslinb => "ldreslinb",
        Far::Ldreslinl => "ldreslinl",
    }
}

/// The bytes of a far load's result, and of an element of its array.
pub fn far_size(far: Far) -> u8
    ensures { result ≡ far_size far }
{
    match far {
        Far::Loadoffw => 2,
        Far::Loadoffl | Far::Ldresnearl | Far::Ldreslinl => 4,
        _ => 1,
    }
}

/// How many scalars a far load has behind its array.
pub fn far_scalars(far: Far) -> u8
    ensures { result ≡ far_scalars far }
{
    match far {
        Far::Loadoffb | Far::Loadoffw | Far::Loadoffl => 1,
        Far::Loadupdb | Far::Loadupib => 0,
        _ => 2,
    }
}

/// The laws that the values of far loads are those of the table's lines, and that the table of opcodes has each far load.
pub fn far_lines()
    ensures lines { AreLines }
    ensures rows { HaveRows }
{}
