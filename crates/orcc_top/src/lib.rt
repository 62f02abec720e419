//! The top call of orcc: what the words after the program's name ask for is read, answered and
//! written.
#![tactic(auto)]

mod answer;
mod assembly;
mod calling;
mod checking;
mod command;
mod emulation;
mod execution;
mod formatting;
mod laws;
mod library;
mod listing;
mod number;
mod objects;
mod parsing;
mod prototypes;
mod refusal;
mod reply;
mod separating;
mod sharing;
mod status;
mod summary;
mod top;
mod translating;
mod workers;
mod writing;

pub use laws::{entries_are_compiled, good_jobs_return};
pub use orc_parts::play_parts;
pub use orc_program::Rect;
pub use status::Status;
pub use top::orcc;
