//! Texts: what their lines say, and the first fault.
#![tactic(auto)]

mod adding;
mod directive;
mod directive_line;
mod fault;
mod instruction;
mod laws;
mod line;
mod reading;
mod showing;
mod state;

pub use directive::Directive;
pub use laws::{checks_look, least_line_faults, one_fault, reads_are_segments, says_one};
pub use reading::{TextError, read};
pub use showing::show;
