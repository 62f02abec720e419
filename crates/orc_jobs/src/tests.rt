ghost use Rattle.std.specs.Prelude.{◌<◌, length};

use crate::{Drawn, Runner, Stopped, World, can_play, has_room, one_play, play, play_drawn};
use orc_bits::{Part, Parts};
use sqlite_items::Items;
use std::alloc::{AllocError, Global};
use std::test::Fail;
use x86_ins::state::{State, Trap, Why};

const CODE_AT: u64 = 0x6000_0000_0000;

const BLOCK: u64 = 0x7000_0000_0000;

const STACK: u64 = 0x7000_0001_0000;

const RETURN: u64 = 0x7f00_0000_0000;

/// From one runner's block and stack to the next runner's.
const APART: u64 = 0x10_0000;

fn part(alloc: Global, at: u64, bytes: &[u8]) -> Result<Part, AllocError> {
    Ok(Part {
        at,
        bytes: Items::from_slice(alloc, bytes)?,
    })
}

// The runner with number `k`, 0 or 1, whose code is at its first byte.
fn runner(alloc: Global, k: u64, code: &[u8]) -> Result<Runner, AllocError>
    requires number { k < 2 }
    requires short { length code.now < 100 }
{
    let mut gpr = [0; 16];
    gpr[4] = STACK + k * APART;
    gpr[7] = BLOCK + k * APART;
    Ok(Runner {
        state: State {
            gpr,
            xmm: [[0; 16]; 16],
            flags: None,
            rip: CODE_AT,
        },
        code_at: CODE_AT,
        code: Items::from_slice(alloc, code)?,
        stop_rip: RETURN,
        stop_rsp: STACK + k * APART + 8,
        steps: 0,
    })
}

// Two runners of one code, each with a return word and a block of 16 bytes that are 0.
fn world(alloc: Global, code: &[u8]) -> Result<World, Fail>
    requires { length code.now < 100 }
{
    let mut parts: Parts = Items::new(alloc);
    let mut runners = Vec::new(alloc);
    for k in 0..2 {
        parts.push(part(alloc, STACK + k * APART, &RETURN.to_le_bytes())?)?;
        parts.push(part(alloc, BLOCK + k * APART, &[0; 16])?)?;
        runners.push(runner(alloc, k, code)?)?;
    }
    Ok(World::build(alloc, parts, runners)?)
}

#[test]
fn schedules(rt: HostRuntime) -> Result<(), Fail> {
    one_play();
    let alloc = rt.alloc();
    let at_once = Some((
        1,
        Trap {
            at: CODE_AT,
            why: Why::NoRow,
        },
    ));
    // code, schedule, the first trap, and the steps of both runners
    let rows: [(&[u8], &[u32], Option<(u32, Trap)>, [u64; 2]); 2] = [
        // ret: a turn behind the end does nothing
        (&[0xc3], &[0, 1, 0], None, [1, 1]),
        // no instruction
        (&[0x90], &[1, 0], at_once, [0, 0]),
    ];
    for (code, schedule, trap, steps) in rows {
        assert!(rt; code.len() < 100);
        let mut w = world(alloc, code)?;
        assert!(rt; can_play(&w, schedule));
        assert_eq!(rt; play(&mut w, schedule), trap, "{code:?}");
        assert!(rt; w.runners.len() == 2);
        assert_eq!(rt; [w.runners[0].steps, w.runners[1].steps], steps);
    }
    Ok(())
}

#[test]
fn drawn_turns(rt: HostRuntime) -> Result<(), Fail> {
    // A jump to itself, from the seed 0: one turn each.
    let mut w = world(rt.alloc(), &[0xe9, 0xfb, 0xff, 0xff, 0xff])?;
    assert!(rt; has_room(&w, 2));
    let want = Drawn {
        why: Stopped::Budget,
        turns: 2,
    };
    assert_eq!(rt; play_drawn(&mut w, 0, 2), want);
    assert!(rt; w.runners.len() == 2);
    assert_eq!(rt; (w.runners[0].steps, w.runners[1].steps), (1, 1));
    Ok(())
}
