use crate::{decode, one_spelling};
use std::process::Abort;
use x86_ins::{Addr, AluOp, Gpr, Ins, VecOp, Xmm};

const RAX: Gpr = Gpr { number: 0 };

const RSP: Gpr = Gpr { number: 4 };

const XMM0: Xmm = Xmm { number: 0 };

const XMM9: Xmm = Xmm { number: 9 };

fn agree(rt: &impl Abort, table: &[(&[u8], Option<(Ins, usize)>)]) {
    for (bytes, want) in table {
        assert_eq!(rt; decode(bytes), *want, "{bytes:?}");
    }
}

#[test]
fn decodings(rt: HostRuntime) {
    one_spelling();
    agree(
        &rt,
        &[
            (&[], None),
            // add rax, 127 with a byte behind it
            (
                &[0x48, 0x83, 0xc0, 0x7f, 0x54],
                Some((
                    Ins::AluImm {
                        op: AluOp::Add,
                        dst: RAX,
                        value: 127,
                    },
                    4,
                )),
            ),
            // add rax, 127 with a number of four bytes
            (&[0x48, 0x81, 0xc0, 0x7f, 0x00, 0x00, 0x00], None),
            // push rsp
            (&[0x54], None),
            // pmulld, pmulld's last byte without 38, and pmulld without its registers
            (
                &[0x66, 0x44, 0x0f, 0x38, 0x40, 0xc8],
                Some((
                    Ins::Vec {
                        op: VecOp::Pmulld,
                        dst: XMM9,
                        src: XMM0,
                    },
                    6,
                )),
            ),
            (&[0x66, 0x0f, 0x40, 0xc1], None),
            (&[0x66, 0x0f, 0x38, 0x40], None),
            // mov rax, [rsp + 8], and with a displacement of four bytes
            (
                &[0x48, 0x8b, 0x44, 0x24, 0x08],
                Some((
                    Ins::Load {
                        dst: RAX,
                        at: Addr { base: RSP, disp: 8 },
                    },
                    5,
                )),
            ),
            (&[0x48, 0x8b, 0x84, 0x24, 0x08, 0x00, 0x00, 0x00], None),
            // mov rax, [rdi] without a displacement
            (&[0x48, 0x8b, 0x07], None),
            // mov rax, rcx by the opcode of a store
            (&[0x48, 0x89, 0xc8], None),
            // shl rax, 64
            (&[0x48, 0xc1, 0xe0, 0x40], None),
            // ret, and ret with a REX that sets no bit
            (&[0xc3], Some((Ins::Ret, 1))),
            (&[0x40, 0xc3], None),
        ],
    );
}
