//! What the lines so far say.

ghost use Rattle.std.specs.Prelude.{◌≡◌, map};

use orc_program::{Function, Program};
use orc_words::Names;

/// The function that the next line is a part of.
#[derive(Drop)]
pub(crate) struct Current {
    /// The function with what its lines say so far.
    pub(crate) function: Function,
    /// The names of its variables, in order of declaration.
    pub(crate) names: Names,
    ghost named: { names ≡ map (λ v. v.name) function.vars },
}

/// The functions that are over, and the one that isn't.
#[derive(Drop)]
pub(crate) struct State {
    /// The number of lines.
    pub(crate) lines: u32,
    /// The name after `.init`, and the functions that are over.
    pub(crate) program: Program,
    /// The names of all functions, in order.
    pub(crate) names: Names,
    /// The function that the next line is a part of.
    pub(crate) current: Option<Current>,
}
