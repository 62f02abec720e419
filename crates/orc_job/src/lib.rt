//! Jobs: calls of a function on a memory, read from JSON, and the printed results of what they do.
#![tactic(auto)]

mod error;
mod forms;
mod job;
mod lists;
mod meeting;
mod outcome;
mod printing;
mod reading;
mod sizing;

pub use error::{Field, JobError};
pub use job::{Job, fit};
pub use lists::Sizes;
pub use meeting::meets;
pub use outcome::{EndLine, Outcome};
pub use printing::{print_result, put_accs, put_memory, why_text};
pub use reading::{one_reading, read_job};
pub use sizing::read_sizes;
