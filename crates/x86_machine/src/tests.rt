ghost use Rattle.std.specs.Prelude.{◌<◌, length};

use crate::{End, Machine, Segments, one_end, run, step};
use orc_bits::{BuildError, Part, Parts};
use sqlite_items::Items;
use std::alloc::{AllocError, Global};
use std::test::Fail;
use x86_ins::state::{Bytes, State, Trap, Why};

const CODE_AT: u64 = 0x6000_0000_0000;

const BLOCK: u64 = 0x7000_0000_0000;

const STACK: u64 = 0x7000_0001_0000;

const RETURN: u64 = 0x7f00_0000_0000;

fn part(alloc: Global, at: u64, bytes: &[u8]) -> Result<Part, AllocError> {
    Ok(Part {
        at,
        bytes: Items::from_slice(alloc, bytes)?,
    })
}

// A block of 304 bytes, a stack with a return word and 1024 bytes below it, and the code.
fn machine(alloc: Global, code: &[u8]) -> Result<Machine, Fail>
    requires { length code.now < 100 }
{
    let mut parts: Parts = Items::new(alloc);
    parts.push(part(alloc, STACK, &RETURN.to_le_bytes())?)?;
    parts.push(part(alloc, STACK - 1024, &[0xa5; 1024])?)?;
    parts.push(part(alloc, BLOCK, &[0; 304])?)?;
    let mut gpr = [0xa5a5_a5a5_a5a5_a5a5; 16];
    gpr[4] = STACK;
    gpr[7] = BLOCK;
    Ok(Machine {
        state: State {
            gpr,
            xmm: [[0xa5; 16]; 16],
            flags: None,
            rip: CODE_AT,
        },
        code_at: CODE_AT,
        code: Items::from_slice(alloc, code)?,
        memory: Segments::build(alloc, parts)?,
        stop_rip: RETURN,
        stop_rsp: STACK + 8,
    })
}

fn trapped(steps: u64, why: Why, at: u64) -> End {
    End::Trapped {
        steps,
        trap: Trap { at, why },
    }
}

#[test]
fn runs_and_their_ends(rt: HostRuntime) -> Result<(), Fail> {
    one_end();
    let alloc = rt.alloc();
    let runs: [(&[u8], u64, End); 5] = [
        // ret
        (&[0xc3], 10, End::Returned { steps: 1 }),
        (&[0xc3], 0, End::Budget),
        // no instruction
        (&[0x90], 10, trapped(0, Why::NoRow, CODE_AT)),
        // a jump to itself
        (&[0xe9, 0xfb, 0xff, 0xff, 0xff], 10, End::Budget),
        // movzx eax, byte [rdi + 0], and then past the end of the code
        (
            &[0x0f, 0xb6, 0x47, 0x00],
            10,
            trapped(1, Why::NoCode, CODE_AT + 4),
        ),
    ];
    for (code, budget, want) in runs {
        assert!(rt; code.len() < 100);
        let mut m = machine(alloc, code)?;
        assert_eq!(rt; run(&mut m, budget), want, "{code:?}");
    }
    Ok(())
}

#[test]
fn a_step_changes_memory(rt: HostRuntime) -> Result<(), Fail> {
    // mov byte [rdi + 16], dil: the lowest byte of the block's address
    let mut m = machine(rt.alloc(), &[0x40, 0x88, 0x7f, 0x10])?;
    m.state.gpr[7] = BLOCK + 2;
    assert_eq!(rt; step(&mut m), Ok(()));
    assert_eq!(rt; m.state.rip, CODE_AT + 4);
    assert_eq!(rt; m.memory.get(BLOCK + 18), Some(2));
    assert!(rt; m.memory.set(STACK, 7));
    assert!(rt; !m.memory.set(STACK + 8, 7));
    Ok(())
}

#[test]
fn segments_that_touch_or_overlap(rt: HostRuntime) -> Result<(), Fail> {
    let alloc = rt.alloc();
    // the address of a second part, behind one of four bytes
    for (at, overlap) in [(4100, false), (4099, true)] {
        let mut parts: Parts = Items::new(alloc);
        parts.push(part(alloc, at, &[2])?)?;
        parts.push(part(alloc, 4096, &[1; 4])?)?;
        match Segments::build(alloc, parts) {
            Ok(memory) => {
                assert!(rt; !overlap);
                assert_eq!(rt; (memory.get(4099), memory.get(4100)), (Some(1), Some(2)));
            }
            Err(e) => assert!(rt; overlap && e == BuildError::Overlap),
        }
    }
    Ok(())
}
