//! Opcode bytes, prefixes and digits.

ghost use Rattle.std.specs.Prelude.{◌≡◌, ◌<◌};
ghost use Rattle.x86_ins.specs.Spelling.{vec_byte, has_38, imm_byte, imm_digit, shuffle_prefix, load_prefix, load_byte};
ghost use Rattle.x86_ins.specs.Spelling.{store_prefix, store_byte, alu_byte, alu_digit, shift_digit, cond_code};

use x86_ins::{AluOp, Cond, MoveOp, ShiftOp, ShuffleOp, VecImmOp, VecOp};

/// The last opcode byte of an operation on two vector registers, after 66 0F or 66 0F 38.
pub(crate) fn vec_byte(op: VecOp) -> u8
    ensures { result ≡ vec_byte op }
{
    match op {
        VecOp::Punpcklbw => 0x60,
        VecOp::Punpcklwd => 0x61,
        VecOp::Punpckldq => 0x62,
        VecOp::Packsswb => 0x63,
        VecOp::Pcmpgtb => 0x64,
        VecOp::Pcmpgtw => 0x65,
        VecOp::Pcmpgtd => 0x66,
        VecOp::Packuswb => 0x67,
        VecOp::Punpckhbw => 0x68,
        VecOp::Punpckhwd => 0x69,
        VecOp::Punpckhdq => 0x6a,
        VecOp::Packssdw => 0x6b,
        VecOp::Punpcklqdq => 0x6c,
        VecOp::Punpckhqdq => 0x6d,
        VecOp::Movdqa => 0x6f,
        VecOp::Pcmpeqb => 0x74,
        VecOp::Pcmpeqw => 0x75,
        VecOp::Pcmpeqd => 0x76,
        VecOp::Psrlw => 0xd1,
        VecOp::Psrld => 0xd2,
        VecOp::Psrlq => 0xd3,
        VecOp::Paddq => 0xd4,
        VecOp::Pmullw => 0xd5,
        VecOp::Psubusb => 0xd8,
        VecOp::Psubusw => 0xd9,
        VecOp::Pminub => 0xda,
        VecOp::Pand => 0xdb,
        VecOp::Paddusb => 0xdc,
        VecOp::Paddusw => 0xdd,
        VecOp::Pmaxub => 0xde,
        VecOp::Pandn => 0xdf,
        VecOp::Pavgb => 0xe0,
        VecOp::Psraw => 0xe1,
        VecOp::Psrad => 0xe2,
        VecOp::Pavgw => 0xe3,
        VecOp::Pmulhuw => 0xe4,
        VecOp::Pmulhw => 0xe5,
        VecOp::Psubsb => 0xe8,
        VecOp::Psubsw => 0xe9,
        VecOp::Pminsw => 0xea,
        VecOp::Por => 0xeb,
        VecOp::Paddsb => 0xec,
        VecOp::Paddsw => 0xed,
        VecOp::Pmaxsw => 0xee,
        VecOp::Pxor => 0xef,
        VecOp::Psllw => 0xf1,
        VecOp::Pslld => 0xf2,
        VecOp::Psllq => 0xf3,
        VecOp::Pmuludq => 0xf4,
        VecOp::Psadbw => 0xf6,
        VecOp::Psubb => 0xf8,
        VecOp::Psubw => 0xf9,
        VecOp::Psubd => 0xfa,
        VecOp::Psubq => 0xfb,
        VecOp::Paddb => 0xfc,
        VecOp::Paddw => 0xfd,
        VecOp::Paddd => 0xfe,
        VecOp::Pabsb => 0x1c,
        VecOp::Pabsw => 0x1d,
        VecOp::Pabsd => 0x1e,
        VecOp::Pmovsxbw => 0x20,
        VecOp::Pmovsxwd => 0x23,
        VecOp::Pmovsxdq => 0x25,
        VecOp::Pmuldq => 0x28,
        VecOp::Pcmpeqq => 0x29,
        VecOp::Packusdw => 0x2b,
        VecOp::Pmovzxbw => 0x30,
        VecOp::Pmovzxwd => 0x33,
        VecOp::Pmovzxdq => 0x35,
        VecOp::Pminsb => 0x38,
        VecOp::Pminsd => 0x39,
        VecOp::Pminuw => 0x3a,
        VecOp::Pminud => 0x3b,
        VecOp::Pmaxsb => 0x3c,
        VecOp::Pmaxsd => 0x3d,
        VecOp::Pmaxuw => 0x3e,
        VecOp::Pmaxud => 0x3f,
        VecOp::Pmulld => 0x40,
    }
}

/// Whether 38 stands before the last opcode byte.
pub(crate) fn has_38(op: VecOp) -> bool
    ensures { result ≡ has_38 op }
{
    match op {
        VecOp::Pabsb
        | VecOp::Pabsw
        | VecOp::Pabsd
        | VecOp::Pmovsxbw
        | VecOp::Pmovsxwd
        | VecOp::Pmovsxdq
        | VecOp::Pmuldq
        | VecOp::Pcmpeqq
        | VecOp::Packusdw
        | VecOp::Pmovzxbw
        | VecOp::Pmovzxwd
        | VecOp::Pmovzxdq
        | VecOp::Pminsb
        | VecOp::Pminsd
        | VecOp::Pminuw
        | VecOp::Pminud
        | VecOp::Pmaxsb
        | VecOp::Pmaxsd
        | VecOp::Pmaxuw
        | VecOp::Pmaxud
        | VecOp::Pmulld => true,
        _ => false,
    }
}

/// The opcode byte of a shift of a vector register by a number, after 66 0F.
pub(crate) fn imm_opcode(op: VecImmOp) -> u8
    ensures { result ≡ imm_byte op }
{
    match op {
        VecImmOp::Psrlw => 0x71,
        VecImmOp::Psraw => 0x71,
        VecImmOp::Psllw => 0x71,
        VecImmOp::Psrld => 0x72,
        VecImmOp::Psrad => 0x72,
        VecImmOp::Pslld => 0x72,
        VecImmOp::Psrlq => 0x73,
        VecImmOp::Psrldq => 0x73,
        VecImmOp::Psllq => 0x73,
        VecImmOp::Pslldq => 0x73,
    }
}

/// Its digit, which stands for reg in ModRM.
pub(crate) fn imm_extension(op: VecImmOp) -> u8
    ensures digit { result ≡ imm_digit op }
    ensures low { result < 8 }
{
    match op {
        VecImmOp::Psrlw => 0x02,
        VecImmOp::Psraw => 0x04,
        VecImmOp::Psllw => 0x06,
        VecImmOp::Psrld => 0x02,
        VecImmOp::Psrad => 0x04,
        VecImmOp::Pslld => 0x06,
        VecImmOp::Psrlq => 0x02,
        VecImmOp::Psrldq => 0x03,
        VecImmOp::Psllq => 0x06,
        VecImmOp::Pslldq => 0x07,
    }
}

/// The prefix of a shuffle.
pub(crate) fn prefix_of_shuffle(op: ShuffleOp) -> u8
    ensures { result ≡ shuffle_prefix op }
{
    match op {
        ShuffleOp::Pshufd => 0x66,
        ShuffleOp::Pshufhw => 0xf3,
        ShuffleOp::Pshuflw => 0xf2,
    }
}

/// The prefix of a vector load.
pub(crate) fn prefix_of_load(op: MoveOp) -> u8
    ensures { result ≡ load_prefix op }
{
    match op {
        MoveOp::Movdqa => 0x66,
        MoveOp::Movdqu => 0xf3,
        MoveOp::Movq => 0xf3,
        MoveOp::Movd => 0x66,
    }
}

/// The opcode byte of a vector load, after its prefix and 0F.
pub(crate) fn opcode_of_load(op: MoveOp) -> u8
    ensures { result ≡ load_byte op }
{
    match op {
        MoveOp::Movdqa => 0x6f,
        MoveOp::Movdqu => 0x6f,
        MoveOp::Movq => 0x7e,
        MoveOp::Movd => 0x6e,
    }
}

/// The prefix of a vector store.
pub(crate) fn prefix_of_store(op: MoveOp) -> u8
    ensures { result ≡ store_prefix op }
{
    match op {
        MoveOp::Movdqa => 0x66,
        MoveOp::Movdqu => 0xf3,
        MoveOp::Movq => 0x66,
        MoveOp::Movd => 0x66,
    }
}

/// The opcode byte of a vector store, after its prefix and 0F.
pub(crate) fn opcode_of_store(op: MoveOp) -> u8
    ensures { result ≡ store_byte op }
{
    match op {
        MoveOp::Movdqa => 0x7f,
        MoveOp::Movdqu => 0x7f,
        MoveOp::Movq => 0xd6,
        MoveOp::Movd => 0x7e,
    }
}

/// The opcode byte of arithmetic between registers.
pub(crate) fn alu_opcode(op: AluOp) -> u8
    ensures { result ≡ alu_byte op }
{
    match op {
        AluOp::Add => 0x03,
        AluOp::Sub => 0x2b,
        AluOp::And => 0x23,
        AluOp::Cmp => 0x3b,
    }
}

/// The digit of arithmetic with a number.
pub(crate) fn alu_extension(op: AluOp) -> u8
    ensures digit { result ≡ alu_digit op }
    ensures low { result < 8 }
{
    match op {
        AluOp::Add => 0x00,
        AluOp::Sub => 0x05,
        AluOp::And => 0x04,
        AluOp::Cmp => 0x07,
    }
}

/// The digit of a shift of a general register.
pub(crate) fn shift_extension(op: ShiftOp) -> u8
    ensures digit { result ≡ shift_digit op }
    ensures low { result < 8 }
{
    match op {
        ShiftOp::Shl => 0x04,
        ShiftOp::Shr => 0x05,
        ShiftOp::Sar => 0x07,
    }
}

/// The code of a condition in Jcc.
pub(crate) fn condition_code(cond: Cond) -> u8
    ensures code { result ≡ cond_code cond }
    ensures low { result < 16 }
{
    match cond {
        Cond::B => 0x02,
        Cond::Ae => 0x03,
        Cond::E => 0x04,
        Cond::Ne => 0x05,
        Cond::Be => 0x06,
        Cond::A => 0x07,
        Cond::S => 0x08,
        Cond::Ns => 0x09,
        Cond::L => 0x0c,
        Cond::Ge => 0x0d,
        Cond::Le => 0x0e,
        Cond::G => 0x0f,
    }
}
