//! C of the same meaning as a function, and the one text of a tree of C.
#![tactic(auto)]

mod body;
mod build;
mod formulas;
mod function;
mod laws;
mod lines;
mod printing;

pub use function::emit;
pub use laws::{means_first, means_second};
pub use lines::Line;
pub use printing::print;
