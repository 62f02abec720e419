use crate::{encode, patch_rel32, spelling_sizes};
use std::process::Abort;
use x86_ins::{
    Addr, AluOp, Cond, Gpr, Ins, MoveOp, ShiftOp, ShuffleOp, VecImmOp, VecOp, Xmm, allowed,
};

const RAX: Gpr = Gpr { number: 0 };

const RSP: Gpr = Gpr { number: 4 };

const RBP: Gpr = Gpr { number: 5 };

const RSI: Gpr = Gpr { number: 6 };

const RDI: Gpr = Gpr { number: 7 };

const R12: Gpr = Gpr { number: 12 };

const R13: Gpr = Gpr { number: 13 };

const XMM0: Xmm = Xmm { number: 0 };

const XMM1: Xmm = Xmm { number: 1 };

const XMM9: Xmm = Xmm { number: 9 };

const XMM15: Xmm = Xmm { number: 15 };

fn agree(rt: &impl Abort, spellings: &[(Ins, &[u8])]) {
    for (ins, bytes) in spellings {
        assert!(rt; allowed(ins));
        assert_eq!(rt; encode(ins).as_slice(), *bytes, "{ins:?}");
    }
}

#[test]
fn spellings(rt: HostRuntime) {
    // The bytes are those of the GNU assembler, with its prefixes {load}, {disp8} and {disp32} where it has a choice.
    agree(
        &rt,
        &[
            (
                Ins::Vec {
                    op: VecOp::Paddb,
                    dst: XMM9,
                    src: XMM0,
                },
                &[0x66, 0x44, 0x0f, 0xfc, 0xc8],
            ),
            (
                Ins::Vec {
                    op: VecOp::Pmulld,
                    dst: XMM9,
                    src: XMM0,
                },
                &[0x66, 0x44, 0x0f, 0x38, 0x40, 0xc8],
            ),
            (
                Ins::VecImm {
                    op: VecImmOp::Psrldq,
                    dst: XMM9,
                    count: 5,
                },
                &[0x66, 0x41, 0x0f, 0x73, 0xd9, 0x05],
            ),
            (
                Ins::Shuffle {
                    op: ShuffleOp::Pshufhw,
                    dst: XMM1,
                    src: XMM9,
                    order: 0xe4,
                },
                &[0xf3, 0x41, 0x0f, 0x70, 0xc9, 0xe4],
            ),
            (
                Ins::VecLoad {
                    op: MoveOp::Movdqu,
                    dst: XMM0,
                    at: Addr {
                        base: R12,
                        disp: -128,
                    },
                },
                &[0xf3, 0x41, 0x0f, 0x6f, 0x44, 0x24, 0x80],
            ),
            (
                Ins::VecStore {
                    op: MoveOp::Movdqa,
                    src: XMM1,
                    at: Addr {
                        base: R13,
                        disp: -129,
                    },
                },
                &[0x66, 0x41, 0x0f, 0x7f, 0x8d, 0x7f, 0xff, 0xff, 0xff],
            ),
            (
                Ins::FromGpr {
                    wide: true,
                    dst: XMM9,
                    src: R13,
                },
                &[0x66, 0x4d, 0x0f, 0x6e, 0xcd],
            ),
            (
                Ins::VecLoad {
                    op: MoveOp::Movq,
                    dst: XMM15,
                    at: Addr {
                        base: R13,
                        disp: 127,
                    },
                },
                &[0xf3, 0x45, 0x0f, 0x7e, 0x7d, 0x7f],
            ),
            (
                Ins::Store8 {
                    src: RSI,
                    at: Addr { base: RDI, disp: 0 },
                },
                &[0x40, 0x88, 0x77, 0x00],
            ),
            (
                Ins::Load16 {
                    dst: RAX,
                    at: Addr {
                        base: R13,
                        disp: 0x80,
                    },
                },
                &[0x41, 0x0f, 0xb7, 0x85, 0x80, 0x00, 0x00, 0x00],
            ),
            (
                Ins::MovImm {
                    dst: RAX,
                    value: 0x1_0000_0000,
                },
                &[0x48, 0xb8, 0x00, 0x00, 0x00, 0x00, 0x01, 0x00, 0x00, 0x00],
            ),
            (
                Ins::Alu {
                    op: AluOp::Sub,
                    dst: R13,
                    src: RDI,
                },
                &[0x4c, 0x2b, 0xef],
            ),
            (
                Ins::AluImm {
                    op: AluOp::Add,
                    dst: RAX,
                    value: 127,
                },
                &[0x48, 0x83, 0xc0, 0x7f],
            ),
            (
                Ins::AluImm {
                    op: AluOp::Cmp,
                    dst: RDI,
                    value: 128,
                },
                &[0x48, 0x81, 0xff, 0x80, 0x00, 0x00, 0x00],
            ),
            (Ins::Test { a: RAX, b: R12 }, &[0x4c, 0x85, 0xe0]),
            (
                Ins::Shift {
                    op: ShiftOp::Sar,
                    dst: RDI,
                    count: 2,
                },
                &[0x48, 0xc1, 0xff, 0x02],
            ),
            (Ins::Push { src: R12 }, &[0x41, 0x54]),
            (
                Ins::JumpIf {
                    cond: Cond::G,
                    rel: -128,
                },
                &[0x0f, 0x8f, 0x80, 0xff, 0xff, 0xff],
            ),
        ],
    );
    spelling_sizes();
}

#[test]
fn patched_jump(rt: HostRuntime) {
    // jmp, ret, ret; then the jump goes back by 0x100 bytes.
    let mut code = [0xe9, 0, 0, 0, 0, 0xc3, 0xc3];
    patch_rel32(&mut code, 1, -0x100);
    assert_eq!(rt; code, [0xe9, 0x00, 0xff, 0xff, 0xff, 0xc3, 0xc3]);
}
