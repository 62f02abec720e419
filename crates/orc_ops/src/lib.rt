//! The opcodes: their table, their names and their formulas.
#![tactic(auto)]

mod elements;
mod evaluation;
mod far;
mod formulas;
mod lookup;
mod opcode;
mod stem;
mod target;
mod values;

pub use elements::Reach;
pub use evaluation::{eval, to_of, wide_of};
pub use far::{Far, far_lines, far_name, far_of, far_scalars, far_size};
pub use lookup::{Found, find};
pub use opcode::{Kind, Op, OpInfo, info, kind_of, name, results, sources, stem_of};
pub use stem::Stem;
pub use target::{Target, class_for, is_shortened};
pub use values::{blend, reach};

#[cfg(test)]
mod tests;
