//! Turns that are drawn from a seed.

ghost use Rattle.std.specs.Prelude.{◌≡◌, ◌<◌, [], length, not, slice_index, MatchOption, IfSome};
ghost use Rattle.std.specs.List.{count_by};
ghost use Rattle.orc_jobs.specs.World.{seen, stand_of, stands_of, HasRoom};
ghost use Rattle.orc_jobs.specs.Drawn.{next_seed, has_ended, left, left_from, IsDrawn, PlaysDrawn, EndsDrawn};

use crate::playing::{has_ended, turn};
use crate::world::{Runner, Turn, World};
use x86_ins::state::Trap;

/// Why no more turns are taken.
#[derive(Clone, Copy, Debug, PartialEq, Eq)]
pub enum Stopped {
    /// All runners stand at their stop values.
    Played,
    /// This runner's next step has no effect.
    Trapped {
        /// The runner's number.
        runner: usize,
        /// Why.
        trap: Trap,
    },
    /// As many turns are taken as there may be.
    Budget,
}

/// What was played, and why no more.
#[derive(Clone, Copy, Debug, PartialEq, Eq)]
pub struct Drawn {
    /// Why no more turns are taken.
    pub why: Stopped,
    /// The turns that were taken. One that trapped is not counted.
    pub turns: u64,
}

/// The generator's next state.
fn next_seed(x: u64) -> u64
    ensures { result ≡ next_seed x }
{
    x.wrapping_mul(6364136223846793005)
        .wrapping_add(1442695040888963407)
}

/// How many runners haven't ended.
fn count_left(runners: &[Runner]) -> usize
    ensures { result ≡ count_by (λ r. not (has_ended (stand_of r))) runners.now }
{
    runners.iter().filter(|r| !has_ended(r)).count()
}

/// Of the runners that haven't ended the one with number `j`.
fn nth_left(runners: &[Runner], j: usize) -> usize
    requires { j < length (left_from 0 (stands_of runners.now)) }
    ensures value { result ≡ slice_index (left_from 0 (stands_of runners.now)) j }
    ensures inside { result < length runners.now }
{
    let mut skip = j;
    for k in 0..runners.len() {
        if has_ended(&runners[k]) {
            continue;
        }
        if skip == 0 {
            return k;
        }
        skip -= 1;
    }
    0
}

/// The runner that a draw from this seed gives, None where all have ended.
fn draw(w: &World, x: u64) -> Option<usize>
    ensures runner { MatchOption result (left (seen w.now) ≡ []) (IsDrawn (seen w.now) x) }
    ensures inside { IfSome result (λ k. k < length w.now.runners.items) }
{
    let runners = w.runners.as_slice();
    let left = count_left(runners);
    if left == 0 {
        return None;
    }
    let number = next_seed(x) >> 32;
    Some(nth_left(runners, number as usize % left))
}

/// Takes drawn turns until there is none to take.
fn take_turns(w: &mut World, seed: u64, budget: u64) -> Drawn
    requires room { HasRoom (seen w.old) budget }
    ensures { PlaysDrawn (seen w.old) seed budget result.why result.turns (seen w.new) }
{
    let mut x = seed;
    for turns in 0..budget {
        let Some(runner) = draw(w, x) else {
            let why = Stopped::Played;
            return Drawn { why, turns };
        };
        if let Turn::Trapped(trap) = turn(w, runner) {
            let why = Stopped::Trapped { runner, trap };
            return Drawn { why, turns };
        }
        x = next_seed(x);
    }
    if draw(w, x).is_none() {
        let why = Stopped::Played;
        return Drawn { why, turns: budget };
    }
    let why = Stopped::Budget;
    Drawn { why, turns: budget }
}

/// Takes turns of runners that haven't ended, each drawn from the seed, until all have ended, a runner's next step has no
/// effect, or as many turns are taken as there may be. It takes no memory.
///
/// Before each turn it is asked first whether all have ended, and then whether the budget is used up. Of the c
/// runners that haven't ended, in order, the next turn is that of number draw() mod c. Where each runner alone, on a
/// part of the memory, ends within a bound and writes nothing that belongs to another's part, and the bounds together
/// are within the budget, all end, each as alone.
pub fn play_drawn(w: &mut World, seed: u64, budget: u64) -> Drawn
    requires room { HasRoom (seen w.old) budget }
    ensures plays { PlaysDrawn (seen w.old) seed budget result.why result.turns (seen w.new) }
    ensures ends { EndsDrawn (seen w.old) budget result.why result.turns (seen w.new) }
{
    take_turns(w, seed, budget)
}
