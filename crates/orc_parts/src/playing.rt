//! Schedules of the parts of a call.

ghost use Rattle.std.specs.Prelude.{◌≡◌, true, length};
ghost use Rattle.orc_program.specs.Kept.{is_function};
ghost use Rattle.orc_ops.specs.declared.target.Target.{Target};
ghost use Rattle.orc_jobs.specs.World.{seen, IsSchedule, HasRoom};
ghost use Rattle.orc_parts.specs.Split.{Split, PlaysAsOne};

use orc_jobs::{World, play};
use orc_program::{Call, Function, Rect, insn_count};

/// The function keeps what its type keeps.
fn check_kept(f: &Function)
    ensures { is_function f.now ≡ true }
{
    insn_count(f);
}

/// Plays a schedule of runners, each of which does its part of one call.
///
/// The function has no far load. The rectangles cut the call, one for each runner in order. Each runner stands at the start of a good call of its part, on
/// bytes of its own but for sources, which may be shared, with code that runs as the function means, within the steps of some
/// target. Whatever the schedule, no turn traps and no runner takes more than its steps. Once all have ended, memory outside their blocks, return words and
/// frames is that of emulation of the whole call, and their accumulators' words add up to its sums.
pub fn play_parts(w: &mut World, f: &Function, call: &Call, parts: &[Rect], schedule: &[u32])
    requires inside { IsSchedule (seen w.old) schedule.now }
    requires room { HasRoom (seen w.old) (length schedule.now) }
    ensures { (target : Target) → Split f.now target call.now parts.now (seen w.old) → PlaysAsOne f.now target call.now parts.now schedule.now (seen w.old) (seen w.new) }
{
    check_kept(f);
    play(w, schedule);
}
