//! One call of a function, done by runners in any order of their turns.
#![tactic(auto)]

mod laws;
mod playing;

pub use laws::{drawn_parts_end, even_cuts};
pub use playing::play_parts;
