//! Code of functions, which runs as emulation says in good calls, inside larger memories, and, but for its return, inside other code.
#![tactic(auto)]

mod assembly;
mod refusal;
mod rows;

pub use assembly::{assemble, assemble_for};
pub use refusal::AsmError;
