//! Where functions' code and jobs stand in memory to be run, whole or in parts, and what they leave there.
#![tactic(auto)]

mod laws;
mod parting;
mod placing;
mod playing;
mod printing;
mod remaining;

pub use laws::{good_jobs_return, good_jobs_separate};
pub use parting::{parts_meet, world_of};
pub use placing::{BLOCK, machine_of};
pub use playing::{Played, Steps, play_job};
pub use printing::print_played;
pub use remaining::{parts_now, word_at};
