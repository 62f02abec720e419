//! Lists of instructions on vector registers, and what they compute on each lane. The crates of rules stand on it: those of SSE2, and `sse41`.
#![tactic(auto)]

mod laws;
mod line;
mod size;

pub use laws::rules_compute;
pub use line::{Line, list};
pub use size::is_of_size;
