//! The generator: a large text of the language, and a job for each of its functions, from a number.
#![tactic(auto)]

mod drawing;
mod generating;
mod jobs;
mod text;

pub use generating::{Jobs, Made, Text, generate};
