//! The parts of a function's text that are there once for each number from 0.

ghost use Rattle.std.specs.Prelude.{◌≡◌, ◌++◌, ◌<◌, ◌≤◌, IfOk, OnOk, string_bytes};
ghost use Rattle.c_emit.specs.Text.{line_text, numbered};

use std::alloc::{AllocError, Global};

/// A part of a function's text that is there once for each array, parameter, accumulator or temp.
#[derive(Clone, Copy, Debug, PartialEq, Eq)]
pub enum Line {
    /// An array and its stride, in the list of parameters.
    Array,
    /// A parameter.
    Param,
    /// Where a sum is stored, in the list of parameters.
    Pointer,
    /// The declaration of a `v`.
    Temp,
    /// The declaration of a `w`.
    Sum,
    /// A `w` is set to 0.
    Start,
    /// A sum is stored.
    Store,
}

/// The text of one part.
fn line_of(alloc: Global, part: Line, k: u16) -> Result<String, AllocError>
    ensures { IfOk result (λ text. string_bytes text ≡ line_text part k) }
{
    match part {
        Line::Array => format!(in alloc; ", unsigned char *a{k}, int64_t s{k}"),
        Line::Param => format!(in alloc; ", uint64_t p{k}"),
        Line::Pointer => format!(in alloc; ", uint64_t *g{k}"),
        Line::Temp => format!(in alloc; "uint64_t v{k};\n"),
        Line::Sum => format!(in alloc; "uint64_t w{k};\n"),
        Line::Start => format!(in alloc; "w{k} = 0ull;\n"),
        Line::Store => format!(in alloc; "*g{k} = w{k};\n"),
    }
}

/// Appends the text of the parts from 0 up to, and without, n.
pub fn put_lines(alloc: Global, out: &mut Vec<u8>, part: Line, n: u16) -> Result<(), AllocError>
    ensures { OnOk result (out.new.items ≡ out.old.items ++ numbered (line_text part) 0 n) }
{
    let mut k = 0;
    'lines: while k < n {
        let text = line_of(alloc, part, k)?;
        out.extend_from_slice(text.as_bytes())?;
        k += 1;
    }
    Ok(())
}
