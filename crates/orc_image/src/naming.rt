//! The mnemonics of instructions.

ghost use Rattle.std.specs.Prelude.{◌≡◌};
ghost use Rattle.orc_image.specs.Mnemonics.{mnemonic, wide_name, vec_name, imm_name, shuffle_name};
ghost use Rattle.orc_image.specs.Mnemonics.{move_name, alu_name, shift_name, jump_name};

use x86_ins::ins::{AluOp, Cond, Ins, MoveOp, ShiftOp, ShuffleOp, VecImmOp, VecOp};

/// The mnemonic of an operation on two vector registers.
fn vec_name(op: VecOp) -> &'static str
    ensures { result.now ≡ vec_name op }
{
    match op {
        VecOp::Punpcklbw => "punpcklbw",
        VecOp::Punpcklwd => "punpcklwd",
        VecOp::Punpckldq => "punpckldq",
        VecOp::Packsswb => "packsswb",
        VecOp::Pcmpgtb => "pcmpgtb",
        VecOp::Pcmpgtw => "pcmpgtw",
        VecOp::Pcmpgtd => "pcmpgtd",
        VecOp::Packuswb => "packuswb",
        VecOp::Punpckhbw => "punpckhbw",
        VecOp::Punpckhwd => "punpckhwd",
        VecOp::Punpckhdq => "punpckhdq",
        VecOp::Packssdw => "packssdw",
        VecOp::Punpcklqdq => "punpcklqdq",
        VecOp::Punpckhqdq => "punpckhqdq",
        VecOp::Movdqa => "movdqa",
        VecOp::Pcmpeqb => "pcmpeqb",
        VecOp::Pcmpeqw => "pcmpeqw",
        VecOp::Pcmpeqd => "pcmpeqd",
        VecOp::Psrlw => "psrlw",
        VecOp::Psrld => "psrld",
        VecOp::Psrlq => "psrlq",
        VecOp::Paddq => "paddq",
        VecOp::Pmullw => "pmullw",
        VecOp::Psubusb => "psubusb",
        VecOp::Psubusw => "psubusw",
        VecOp::Pminub => "pminub",
        VecOp::Pand => "pand",
        VecOp::Paddusb => "paddusb",
        VecOp::Paddusw => "paddusw",
        VecOp::Pmaxub => "pmaxub",
        VecOp::Pandn => "pandn",
        VecOp::Pavgb => "pavgb",
        VecOp::Psraw => "psraw",
        VecOp::Psrad => "psrad",
        VecOp::Pavgw => "pavgw",
        VecOp::Pmulhuw => "pmulhuw",
        VecOp::Pmulhw => "pmulhw",
        VecOp::Psubsb => "psubsb",
        VecOp::Psubsw => "psubsw",
        VecOp::Pminsw => "pminsw",
        VecOp::Por => "por",
        VecOp::Paddsb => "paddsb",
        VecOp::Paddsw => "paddsw",
        VecOp::Pmaxsw => "pmaxsw",
        VecOp::Pxor => "pxor",
        VecOp::Psllw => "psllw",
        VecOp::Pslld => "pslld",
        VecOp::Psllq => "psllq",
        VecOp::Pmuludq => "pmuludq",
        VecOp::Psadbw => "psadbw",
        VecOp::Psubb => "psubb",
        VecOp::Psubw => "psubw",
        VecOp::Psubd => "psubd",
        VecOp::Psubq => "psubq",
        VecOp::Paddb => "paddb",
        VecOp::Paddw => "paddw",
        VecOp::Paddd => "paddd",
        VecOp::Pabsb => "pabsb",
        VecOp::Pabsw => "pabsw",
        VecOp::Pabsd => "pabsd",
        VecOp::Pmovsxbw => "pmovsxbw",
        VecOp::Pmovsxwd => "pmovsxwd",
        VecOp::Pmovsxdq => "pmovsxdq",
        VecOp::Pmuldq => "pmuldq",
        VecOp::Pcmpeqq => "pcmpeqq",
        VecOp::Packusdw => "packusdw",
        VecOp::Pmovzxbw => "pmovzxbw",
        VecOp::Pmovzxwd => "pmovzxwd",
        VecOp::Pmovzxdq => "pmovzxdq",
        VecOp::Pminsb => "pminsb",
        VecOp::Pminsd => "pminsd",
        VecOp::Pminuw => "pminuw",
        VecOp::Pminud => "pminud",
        VecOp::Pmaxsb => "pmaxsb",
        VecOp::Pmaxsd => "pmaxsd",
        VecOp::Pmaxuw => "pmaxuw",
        VecOp::Pmaxud => "pmaxud",
        VecOp::Pmulld => "pmulld",
    }
}

/// The mnemonic of a vector shift by a number.
fn imm_name(op: VecImmOp) -> &'static str
    ensures { result.now ≡ imm_name op }
{
    match op {
        VecImmOp::Psrlw => "psrlw",
        VecImmOp::Psraw => "psraw",
        VecImmOp::Psllw => "psllw",
        VecImmOp::Psrld => "psrld",
        VecImmOp::Psrad => "psrad",
        VecImmOp::Pslld => "pslld",
        VecImmOp::Psrlq => "psrlq",
        VecImmOp::Psrldq => "psrldq",
        VecImmOp::Psllq => "psllq",
        VecImmOp::Pslldq => "pslldq",
    }
}

/// The mnemonic of a shuffle.
fn shuffle_name(op: ShuffleOp) -> &'static str
    ensures { result.now ≡ shuffle_name op }
{
    match op {
        ShuffleOp::Pshufd => "pshufd",
        ShuffleOp::Pshufhw => "pshufhw",
        ShuffleOp::Pshuflw => "pshuflw",
    }
}

/// The mnemonic of a vector load or store.
fn move_name(op: MoveOp) -> &'static str
    ensures { result.now ≡ move_name op }
{
    match op {
        MoveOp::Movdqa => "movdqa",
        MoveOp::Movdqu => "movdqu",
        MoveOp::Movq => "movq",
        MoveOp::Movd => "movd",
    }
}

/// The mnemonic of arithmetic on general registers.
fn alu_name(op: AluOp) -> &'static str
    ensures { result.now ≡ alu_name op }
{
    match op {
        AluOp::Add => "add",
        AluOp::Sub => "sub",
        AluOp::And => "and",
        AluOp::Cmp => "cmp",
    }
}

/// The mnemonic of a shift of a general register.
fn shift_name(op: ShiftOp) -> &'static str
    ensures { result.now ≡ shift_name op }
{
    match op {
        ShiftOp::Shl => "shl",
        ShiftOp::Shr => "shr",
        ShiftOp::Sar => "sar",
    }
}

/// The mnemonic of a jump on a condition.
fn jump_name(op: Cond) -> &'static str
    ensures { result.now ≡ jump_name op }
{
    match op {
        Cond::B => "jb",
        Cond::Ae => "jae",
        Cond::E => "je",
        Cond::Ne => "jne",
        Cond::Be => "jbe",
        Cond::A => "ja",
        Cond::S => "js",
        Cond::Ns => "jns",
        Cond::L => "jl",
        Cond::Ge => "jge",
        Cond::Le => "jle",
        Cond::G => "jg",
    }
}

/// The mnemonic of a move between a general and a vector register.
fn wide_name(wide: bool) -> &'static str
    ensures { result.now ≡ wide_name wide }
{
    if wide { "movq" } else { "movd" }
}

/// The mnemonic of an instruction, in lower case.
pub fn mnemonic(ins: &Ins) -> &'static str
    ensures { result.now ≡ mnemonic ins.now }
{
    match *ins {
        Ins::Vec { op, .. } => vec_name(op),
        Ins::VecImm { op, .. } => imm_name(op),
        Ins::Shuffle { op, .. } => shuffle_name(op),
        Ins::VecLoad { op, .. } | Ins::VecStore { op, .. } => move_name(op),
        Ins::FromGpr { wide, .. } | Ins::ToGpr { wide, .. } => wide_name(wide),
        Ins::Move { .. }
        | Ins::Load { .. }
        | Ins::Store { .. }
        | Ins::Store8 { .. }
        | Ins::Store16 { .. }
        | Ins::MovImm { .. } => "mov",
        Ins::Load8 { .. } | Ins::Load16 { .. } => "movzx",
        Ins::Alu { op, .. } | Ins::AluImm { op, .. } => alu_name(op),
        Ins::Test { .. } => "test",
        Ins::Shift { op, .. } => shift_name(op),
        Ins::Imul { .. } => "imul",
        Ins::Lea { .. } => "lea",
        Ins::Push { .. } => "push",
        Ins::Pop { .. } => "pop",
        Ins::Jump { .. } => "jmp",
        Ins::JumpIf { cond, .. } => jump_name(cond),
        Ins::Ret => "ret",
    }
}
