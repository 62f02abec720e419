//! Jobs on one memory, whose steps are taken in any order.
//!
//! A [`World`] is a memory and some runners, each with a code of its own. [`turn`] is one runner's next step, and
//! [`play`] the turns of a schedule. Runners that keep to themselves end as each of them ends alone, whatever the
//! schedule. No thread is started.
#![tactic(auto)]

mod asking;
mod drawing;
mod laws;
mod playing;
mod world;

pub use asking::{can_play, has_room};
pub use drawing::{Drawn, Stopped, play_drawn};
pub use laws::{one_drawn, one_play};
pub use playing::{has_ended, play, turn};
pub use world::{Runner, Runners, Turn, World};

#[cfg(test)]
mod tests;
