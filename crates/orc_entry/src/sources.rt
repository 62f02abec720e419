//! Where the words of a function's block come from.

ghost use Rattle.std.specs.Prelude.{◌≡◌, ◌<◌};
ghost use Rattle.orc_prototype.specs.Arguments.{IsSmall};
ghost use Rattle.orc_entry.specs.Arguments.{IsNear, elements_source, rows_source, stride_of, base_argument};

use orc_prototype::{
    Class, Shape, dest_argument, elements_argument, rows_argument, source_argument,
};

/// Where a word of a function's block comes from.
#[derive(Clone, Copy, Debug, PartialEq, Eq)]
pub enum Source {
    /// An argument, by its number.
    Argument {
        /// How it becomes a word.
        class: Class,
        /// Its number, from 0.
        number: usize,
    },
    /// A number.
    Number(u32),
}

/// The argument that is the address of the array in a slot.
pub fn base_argument(shape: Shape, slot: usize) -> usize
    requires small { IsSmall shape }
    requires slot { slot < 12 }
    ensures value { result ≡ base_argument shape slot }
    ensures few { result < 64 }
{
    if slot < 4 {
        dest_argument(shape, slot)
    } else {
        source_argument(shape, slot - 4)
    }
}

/// Where the number of elements comes from.
pub fn elements_source(shape: Shape) -> Source
    requires small { IsSmall shape }
    ensures value { result ≡ elements_source shape }
    ensures near { IsNear result }
{
    if shape.elements == 0 {
        Source::Argument {
            class: Class::Count,
            number: elements_argument(shape),
        }
    } else {
        Source::Number(shape.elements)
    }
}

/// Where the number of rows comes from.
pub fn rows_source(shape: Shape) -> Source
    requires small { IsSmall shape }
    ensures value { result ≡ rows_source shape }
    ensures near { IsNear result }
{
    if !shape.two_d {
        Source::Number(1)
    } else if shape.rows == 0 {
        Source::Argument {
            class: Class::Count,
            number: rows_argument(shape),
        }
    } else {
        Source::Number(shape.rows)
    }
}

/// Where a stride comes from, by the argument that is its array's address.
pub fn stride_of(shape: Shape, base: usize) -> Source
    requires few { base < 64 }
    ensures value { result ≡ stride_of shape base }
    ensures near { IsNear result }
{
    if shape.two_d {
        Source::Argument {
            class: Class::Int,
            number: base + 1,
        }
    } else {
        Source::Number(0)
    }
}
