//! Expected values are worked out by hand from the pages of the manual. Flags stand in the order carry, zero, sign,
//! overflow.

ghost use Rattle.std.specs.Prelude.{◌≡◌, ℕ, Option, Some, None, is_some, if◌then◌else◌, nat_lt, get_or, IsTrue};
ghost use Rattle.orc_bits.specs.Memory.{put};
ghost use Rattle.x86_ins.specs.Spelling.{has_spelling};

use crate::apply;
use x86_ins::{
    Addr, AluOp, Bytes, Cond, Flags, Gpr, Ins, MoveOp, ShiftOp, State, Trap, VecOp, Why, Xmm,
    allowed,
};

/// Memory that is mapped at the lowest 64 addresses.
#[derive(Clone, Copy, Debug, PartialEq)]
struct Low {
    cells: [u8; 64],
}

impl Bytes for Low {
    ghost bytes = { λ m a. if nat_lt a 64 then Some (get_or m.cells a 0) else None };

    fn mapped(&self, at: u64) -> bool {
        at < 64
    }

    fn get(&self, at: u64) -> Option<u8> {
        if at < 64 {
            Some(self.cells[at as usize])
        } else {
            None
        }
    }

    fn set(&mut self, at: u64, b: u8) -> bool {
        if at < 64 {
            self.cells[at as usize] = b;
            true
        } else {
            false
        }
    }
}

/// Each byte is its address and 128.
fn memory() -> Low {
    let mut cells = [0; 64];
    for k in 0..64 {
        cells[k] = k as u8 + 128;
    }
    Low { cells }
}

const R0: Gpr = Gpr { number: 0 };

const R1: Gpr = Gpr { number: 1 };

const R2: Gpr = Gpr { number: 2 };

const X0: Xmm = Xmm { number: 0 };

const X1: Xmm = Xmm { number: 1 };

/// R1 is 16 and RSP is 8, and all flags are set.
fn state() -> State {
    let mut gpr = [0; 16];
    gpr[0] = 0x8877_6655_4433_2211;
    gpr[1] = 16;
    gpr[2] = 0x8000_0000_0000_0003;
    gpr[4] = 8;
    let mut xmm = [[0; 16]; 16];
    xmm[0] = 0x8f8e_8d8c_8b8a_8988_8786_8584_8382_8180u128.to_le_bytes();
    xmm[1] = [0xff; 16];
    State {
        gpr,
        xmm,
        flags: Some(flags([true, true, true, true])),
        rip: 0x1005,
    }
}

fn flags(set: [bool; 4]) -> Flags {
    Flags {
        carry: set[0],
        zero: set[1],
        sign: set[2],
        overflow: set[3],
    }
}

fn at(disp: i32) -> Addr {
    Addr { base: R1, disp }
}

fn vec_load(op: MoveOp, disp: i32) -> Ins {
    Ins::VecLoad {
        op,
        dst: X1,
        at: at(disp),
    }
}

#[test]
fn arithmetic_and_flags(rt: HostRuntime) {
    let top = 0x8000_0000_0000_0000;
    let rows = [
        (AluOp::Add, top, top, 0, [true, true, false, true]),
        (AluOp::Sub, 0, 1, u64::MAX, [true, false, true, false]),
        (AluOp::Sub, top, 1, top - 1, [false, false, false, true]),
        (AluOp::Cmp, 0, 1, 0, [true, false, true, false]),
        (AluOp::And, top, 1, 0, [false, true, false, false]),
    ];
    for (op, a, b, want, set) in rows {
        let mut s = state();
        s.gpr[0] = a;
        s.gpr[1] = b;
        let ins = Ins::Alu {
            op,
            dst: R0,
            src: R1,
        };
        assert_eq!(rt; apply(&ins, &mut s, &mut memory()), Ok(()));
        assert_eq!(rt;
            (s.gpr[0], s.flags),
            (want, Some(flags(set))),
            "{op:?} {a} {b}"
        );
    }
}

#[test]
fn registers(rt: HostRuntime) {
    let shift = Ins::Shift {
        op: ShiftOp::Shl,
        dst: R2,
        count: 1,
    };
    // What R2 becomes, and whether the flags are kept.
    let rows = [
        (shift, 6, false),
        (Ins::Imul { dst: R2, src: R1 }, 0x30, false),
        (Ins::Lea { dst: R2, at: at(8) }, 24, true),
        (Ins::Load16 { dst: R2, at: at(1) }, 0x9291, true),
        (Ins::Pop { dst: R2 }, 0x8f8e_8d8c_8b8a_8988, true),
    ];
    for (ins, want, kept) in rows {
        let mut s = state();
        assert!(rt; allowed(&ins));
        assert_eq!(rt; apply(&ins, &mut s, &mut memory()), Ok(()));
        assert_eq!(rt;
            (s.gpr[2], s.flags.is_some(), s.rip),
            (want, kept, 0x1005),
            "{ins:?}"
        );
    }
    let sum = Ins::Vec {
        op: VecOp::Paddb,
        dst: X1,
        src: X0,
    };
    let sums = 0x8e8d_8c8b_8a89_8887_8685_8483_8281_807f;
    let load = vec_load(MoveOp::Movdqa, -16);
    let loaded = 0x8f8e_8d8c_8b8a_8988_8786_8584_8382_8180;
    for (ins, want) in [(sum, sums), (load, loaded)] {
        let mut s = state();
        assert!(rt; allowed(&ins));
        assert_eq!(rt; apply(&ins, &mut s, &mut memory()), Ok(()));
        assert_eq!(rt; u128::from_le_bytes(s.xmm[1]), want, "{ins:?}");
    }
}

#[test]
fn stores(rt: HostRuntime) {
    let mut m = memory();
    let store = Ins::Store16 {
        src: R0,
        at: at(-15),
    };
    assert_eq!(rt; apply(&store, &mut state(), &mut m), Ok(()));
    assert_eq!(rt; m.cells[..5], [128, 0x11, 0x22, 131, 132][..]);
    assert_eq!(rt; apply(&Ins::Push { src: R0 }, &mut state(), &mut m), Ok(()));
    assert_eq!(rt; m.cells[..5], [0x11, 0x22, 0x33, 0x44, 0x55][..]);
}

#[test]
fn jumps_and_conditions(rt: HostRuntime) {
    // Whether each condition holds where this flag alone is set, and where none is.
    let rows = [
        (Cond::B, [true, false, false, false, false]),
        (Cond::L, [false, false, true, true, false]),
        (Cond::G, [true, false, false, false, true]),
    ];
    for (cond, holds) in rows {
        for k in 0..5 {
            let mut s = state();
            s.flags = Some(flags([k == 0, k == 1, k == 2, k == 3]));
            let ins = Ins::JumpIf { cond, rel: -6 };
            assert_eq!(rt; apply(&ins, &mut s, &mut memory()), Ok(()));
            let want = if holds[k] { 0xfff } else { 0x1005 };
            assert_eq!(rt; s.rip, want, "{cond:?} at {k}");
        }
    }
    let mut s = state();
    assert_eq!(rt; apply(&Ins::Ret, &mut s, &mut memory()), Ok(()));
    assert_eq!(rt; (s.rip, s.gpr[4]), (0x8f8e_8d8c_8b8a_8988, 16));
}

#[test]
fn traps(rt: HostRuntime) {
    // The flags are unset, and RSP is 60.
    let rows = [
        (vec_load(MoveOp::Movdqa, 8), 24, Why::Misaligned),
        (Ins::Ret, 64, Why::Unmapped),
        (
            Ins::JumpIf {
                cond: Cond::E,
                rel: 2,
            },
            0x1005,
            Why::NoFlags,
        ),
    ];
    for (ins, at, why) in rows {
        let mut before = state();
        before.flags = None;
        before.gpr[4] = 60;
        let mut s = before;
        let mut m = memory();
        assert!(rt; allowed(&ins));
        assert_eq!(rt;
            apply(&ins, &mut s, &mut m),
            Err(Trap { at, why }),
            "{ins:?}"
        );
        assert_eq!(rt; (s, m), (before, memory()), "{ins:?}");
    }
}
