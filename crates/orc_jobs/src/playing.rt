//! Turns and schedules.

ghost use Rattle.std.specs.Prelude.{◌≡◌, ◌<◌, ◌+◌, ◌-◌, ◌≤◌, ◌^◌, true, false, length};
ghost use Rattle.x86_ins.specs.Way.{IsOver};
ghost use Rattle.orc_jobs.specs.World.{seen, stand_at, stand_of, Takes, Plays, HasRoom, IsSchedule, later_trap};
ghost use Rattle.orc_jobs.specs.Alone.{EndsAsAlone};
ghost use Rattle.orc_jobs.specs.Drawn.{has_ended};

use crate::world::{Runner, Turn, World};
use x86_ins::state::Trap;
use x86_machine::step_on;

/// Whether a runner stands at its stop values.
pub fn has_ended(r: &Runner) -> bool
    ensures value { result ≡ has_ended (stand_of r.now) }
    ensures yes { result ≡ true → IsOver (stand_of r.now).stop (stand_of r.now).point }
    ensures no { result ≡ false → IsOver (stand_of r.now).stop (stand_of r.now).point → ⊥ }
{
    r.state.rip == r.stop_rip && r.state.gpr[4] == r.stop_rsp
}

/// One turn of runner `k`. It takes no memory.
///
/// `Ended` exactly where the runner stands at its stop values, and nothing changes. `Trapped` exactly where its next
/// step has no effect, and nothing changes. Else `Moved`: one step of its code on the common memory, and its steps
/// rise by one.
pub fn turn(w: &mut World, k: usize) -> Turn
    requires inside { k < length w.old.runners.items }
    requires room { (stand_at (seen w.old) k).steps < 2 ^ 64 - 1 }
    ensures { Takes (seen w.old) k result (seen w.new) }
{
    let runner = &mut w.runners[k];
    if has_ended(runner) {
        return Turn::Ended;
    }
    match step_on(
        runner.code.as_slice(),
        runner.code_at,
        &mut runner.state,
        &mut w.memory,
    ) {
        Ok(()) => {
            runner.steps += 1;
            Turn::Moved
        }
        Err(trap) => Turn::Trapped(trap),
    }
}

/// The first trap, where a turn of runner `k` comes after this first one.
fn first_of(first: Option<(u32, Trap)>, k: u32, turned: Turn) -> Option<(u32, Trap)>
    ensures { result ≡ later_trap first k turned }
{
    match (first, turned) {
        (None, Turn::Trapped(trap)) => Some((k, trap)),
        (first, _) => first,
    }
}

/// The turns of a schedule, one after the other, all of them. It takes no memory.
///
/// The answer is the first trap with its runner, None exactly where no turn trapped. Where each runner alone, on a
/// part of the memory, ends within a bound and writes nothing that belongs to another's part, no turn traps, no
/// runner takes more than its bound of steps, and each ends as alone.
pub fn play(w: &mut World, schedule: &[u32]) -> Option<(u32, Trap)>
    requires inside { IsSchedule (seen w.old) schedule.now }
    requires room { HasRoom (seen w.old) (length schedule.now) }
    ensures plays { Plays (seen w.old) schedule.now result (seen w.new) }
    ensures alone { EndsAsAlone (seen w.old) result (seen w.new) }
{
    let mut first = None;
    for &k in schedule {
        let turned = turn(w, k as usize);
        first = first_of(first, k, turned);
    }
    first
}
