//! Opcode bytes and digits as operations.

ghost use Rattle.std.specs.Prelude.{◌≡◌};
ghost use Rattle.x86_decode.specs.Reading.{vec_38_of, vec_of, imm_of, alu_of, alu_digit_of, shift_of, cond_of};

use x86_ins::{AluOp, Cond, ShiftOp, VecImmOp, VecOp};

/// The operation on two vector registers of an opcode byte after 66 0F 38.
fn vec_38_operation(byte: u8) -> Option<VecOp>
    ensures { result ≡ vec_38_of byte }
{
    match byte {
        0x1c => Some(VecOp::Pabsb),
        0x1d => Some(VecOp::Pabsw),
        0x1e => Some(VecOp::Pabsd),
        0x20 => Some(VecOp::Pmovsxbw),
        0x23 => Some(VecOp::Pmovsxwd),
        0x25 => Some(VecOp::Pmovsxdq),
        0x28 => Some(VecOp::Pmuldq),
        0x29 => Some(VecOp::Pcmpeqq),
        0x2b => Some(VecOp::Packusdw),
        0x30 => Some(VecOp::Pmovzxbw),
        0x33 => Some(VecOp::Pmovzxwd),
        0x35 => Some(VecOp::Pmovzxdq),
        0x38 => Some(VecOp::Pminsb),
        0x39 => Some(VecOp::Pminsd),
        0x3a => Some(VecOp::Pminuw),
        0x3b => Some(VecOp::Pminud),
        0x3c => Some(VecOp::Pmaxsb),
        0x3d => Some(VecOp::Pmaxsd),
        0x3e => Some(VecOp::Pmaxuw),
        0x3f => Some(VecOp::Pmaxud),
        0x40 => Some(VecOp::Pmulld),
        _ => None,
    }
}

/// The operation on two vector registers of its last opcode byte, after 66 0F or 66 0F 38: no byte stands in both places.
pub(crate) fn vec_operation(byte: u8) -> Option<VecOp>
    ensures { result ≡ vec_of byte }
{
    match byte {
        0x60 => Some(VecOp::Punpcklbw),
        0x61 => Some(VecOp::Punpcklwd),
        0x62 => Some(VecOp::Punpckldq),
        0x63 => Some(VecOp::Packsswb),
        0x64 => Some(VecOp::Pcmpgtb),
        0x65 => Some(VecOp::Pcmpgtw),
        0x66 => Some(VecOp::Pcmpgtd),
        0x67 => Some(VecOp::Packuswb),
        0x68 => Some(VecOp::Punpckhbw),
        0x69 => Some(VecOp::Punpckhwd),
        0x6a => Some(VecOp::Punpckhdq),
        0x6b => Some(VecOp::Packssdw),
        0x6c => Some(VecOp::Punpcklqdq),
        0x6d => Some(VecOp::Punpckhqdq),
        0x6f => Some(VecOp::Movdqa),
        0x74 => Some(VecOp::Pcmpeqb),
        0x75 => Some(VecOp::Pcmpeqw),
        0x76 => Some(VecOp::Pcmpeqd),
        0xd1 => Some(VecOp::Psrlw),
        0xd2 => Some(VecOp::Psrld),
        0xd3 => Some(VecOp::Psrlq),
        0xd4 => Some(VecOp::Paddq),
        0xd5 => Some(VecOp::Pmullw),
        0xd8 => Some(VecOp::Psubusb),
        0xd9 => Some(VecOp::Psubusw),
        0xda => Some(VecOp::Pminub),
        0xdb => Some(VecOp::Pand),
        0xdc => Some(VecOp::Paddusb),
        0xdd => Some(VecOp::Paddusw),
        0xde => Some(VecOp::Pmaxub),
        0xdf => Some(VecOp::Pandn),
        0xe0 => Some(VecOp::Pavgb),
        0xe1 => Some(VecOp::Psraw),
        0xe2 => Some(VecOp::Psrad),
        0xe3 => Some(VecOp::Pavgw),
        0xe4 => Some(VecOp::Pmulhuw),
        0xe5 => Some(VecOp::Pmulhw),
        0xe8 => Some(VecOp::Psubsb),
        0xe9 => Some(VecOp::Psubsw),
        0xea => Some(VecOp::Pminsw),
        0xeb => Some(VecOp::Por),
        0xec => Some(VecOp::Paddsb),
        0xed => Some(VecOp::Paddsw),
        0xee => Some(VecOp::Pmaxsw),
        0xef => Some(VecOp::Pxor),
        0xf1 => Some(VecOp::Psllw),
        0xf2 => Some(VecOp::Pslld),
        0xf3 => Some(VecOp::Psllq),
        0xf4 => Some(VecOp::Pmuludq),
        0xf6 => Some(VecOp::Psadbw),
        0xf8 => Some(VecOp::Psubb),
        0xf9 => Some(VecOp::Psubw),
        0xfa => Some(VecOp::Psubd),
        0xfb => Some(VecOp::Psubq),
        0xfc => Some(VecOp::Paddb),
        0xfd => Some(VecOp::Paddw),
        0xfe => Some(VecOp::Paddd),
        _ => vec_38_operation(byte),
    }
}

/// The shift of a vector register of an opcode byte after 66 0F and a digit.
pub(crate) fn imm_operation(byte: u8, digit: u8) -> Option<VecImmOp>
    ensures { result ≡ imm_of byte digit }
{
    match (byte, digit) {
        (0x71, 2) => Some(VecImmOp::Psrlw),
        (0x71, 4) => Some(VecImmOp::Psraw),
        (0x71, 6) => Some(VecImmOp::Psllw),
        (0x72, 2) => Some(VecImmOp::Psrld),
        (0x72, 4) => Some(VecImmOp::Psrad),
        (0x72, 6) => Some(VecImmOp::Pslld),
        (0x73, 2) => Some(VecImmOp::Psrlq),
        (0x73, 3) => Some(VecImmOp::Psrldq),
        (0x73, 6) => Some(VecImmOp::Psllq),
        (0x73, 7) => Some(VecImmOp::Pslldq),
        _ => None,
    }
}

/// The arithmetic between registers of an opcode byte.
pub(crate) fn alu_operation(byte: u8) -> Option<AluOp>
    ensures { result ≡ alu_of byte }
{
    match byte {
        0x03 => Some(AluOp::Add),
        0x2b => Some(AluOp::Sub),
        0x23 => Some(AluOp::And),
        0x3b => Some(AluOp::Cmp),
        _ => None,
    }
}

/// The arithmetic with a number of a digit.
pub(crate) fn alu_by_digit(digit: u8) -> Option<AluOp>
    ensures { result ≡ alu_digit_of digit }
{
    match digit {
        0x00 => Some(AluOp::Add),
        0x05 => Some(AluOp::Sub),
        0x04 => Some(AluOp::And),
        0x07 => Some(AluOp::Cmp),
        _ => None,
    }
}

/// The shift of a general register of a digit.
pub(crate) fn shift_operation(digit: u8) -> Option<ShiftOp>
    ensures { result ≡ shift_of digit }
{
    match digit {
        0x04 => Some(ShiftOp::Shl),
        0x05 => Some(ShiftOp::Shr),
        0x07 => Some(ShiftOp::Sar),
        _ => None,
    }
}

/// The condition of a code in Jcc.
pub(crate) fn condition(code: u8) -> Option<Cond>
    ensures { result ≡ cond_of code }
{
    match code {
        0x02 => Some(Cond::B),
        0x03 => Some(Cond::Ae),
        0x04 => Some(Cond::E),
        0x05 => Some(Cond::Ne),
        0x06 => Some(Cond::Be),
        0x07 => Some(Cond::A),
        0x08 => Some(Cond::S),
        0x09 => Some(Cond::Ns),
        0x0c => Some(Cond::L),
        0x0d => Some(Cond::Ge),
        0x0e => Some(Cond::Le),
        0x0f => Some(Cond::G),
        _ => None,
    }
}
