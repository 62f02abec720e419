//! Trees of C: their types and their meaning.
#![tactic(auto)]

mod eval;
mod run;
mod state;
mod tree;

pub use run::{CEnd, run_c};
pub use state::CStop;
pub use tree::{CBody, CCmp, CExpr, CFunction, CFunctions, CIndex, COp, CStmt, CTree};
