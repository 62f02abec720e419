//! Instructions.

ghost use Rattle.std.specs.Prelude.{◌≡◌, ◌<◌};
ghost use Rattle.x86_ins.specs.Spelling.{has_spelling, IsIns};

use sqlite_items::Items;
use std::marker::Model;

/// A general register of 64 bits, by its number: RAX 0, RCX 1, RDX 2, RBX 3, RSP 4, RBP 5, RSI 6, RDI 7, R8 to R15. The type keeps the number below 16.
#[derive(Clone, Copy, Debug, PartialEq, Eq)]
pub struct Gpr {
    /// Below 16.
    pub number: u8,
}

impl Model for Gpr {
    ghost use Rattle.std.specs.Prelude.{ℕ, ◌<◌};

    ghost Value = { ℕ };

    ghost view = { λ r. r.number };

    ghost invariant = { λ r. r.number < 16 };

    ghost inverse = { λ n. record { number = n } };
}

/// A vector register of 128 bits, XMM0 to XMM15, by its number. The type keeps the number below 16.
#[derive(Clone, Copy, Debug, PartialEq, Eq)]
pub struct Xmm {
    /// Below 16.
    pub number: u8,
}

impl Model for Xmm {
    ghost use Rattle.std.specs.Prelude.{ℕ, ◌<◌};

    ghost Value = { ℕ };

    ghost view = { λ r. r.number };

    ghost invariant = { λ r. r.number < 16 };

    ghost inverse = { λ n. record { number = n } };
}

/// The address base + disp, modulo 2^64.
#[derive(Clone, Copy, Debug, PartialEq, Eq)]
pub struct Addr {
    /// The register whose value the address starts from.
    pub base: Gpr,
    /// The displacement, in bytes.
    pub disp: i32,
}

/// A vector operation on two registers (Intel SDM, volume 2B): of SSE2, and from PABSB on of SSSE3 and SSE4.1. The first register is the destination and the first operand.
#[derive(Clone, Copy, Debug, PartialEq, Eq)]
pub enum VecOp {
    /// PUNPCKLBW: the low eight bytes of both, interleaved.
    Punpcklbw,
    /// PUNPCKLWD: the low four words of both, interleaved.
    Punpcklwd,
    /// PUNPCKLDQ: the low two doublewords of both, interleaved.
    Punpckldq,
    /// PACKSSWB: signed words, clamped to signed bytes.
    Packsswb,
    /// PCMPGTB: all ones where the signed byte is greater.
    Pcmpgtb,
    /// PCMPGTW: all ones where the signed word is greater.
    Pcmpgtw,
    /// PCMPGTD: all ones where the signed doubleword is greater.
    Pcmpgtd,
    /// PACKUSWB: signed words, clamped to unsigned bytes.
    Packuswb,
    /// PUNPCKHBW: the high eight bytes of both, interleaved.
    Punpckhbw,
    /// PUNPCKHWD: the high four words of both, interleaved.
    Punpckhwd,
    /// PUNPCKHDQ: the high two doublewords of both, interleaved.
    Punpckhdq,
    /// PACKSSDW: signed doublewords, clamped to signed words.
    Packssdw,
    /// PUNPCKLQDQ: the low quadwords of both.
    Punpcklqdq,
    /// PUNPCKHQDQ: the high quadwords of both.
    Punpckhqdq,
    /// MOVDQA: a copy of 128 bits.
    Movdqa,
    /// PCMPEQB: all ones where bytes are equal.
    Pcmpeqb,
    /// PCMPEQW: all ones where words are equal.
    Pcmpeqw,
    /// PCMPEQD: all ones where doublewords are equal.
    Pcmpeqd,
    /// PSRLW: words shifted right, zeros coming in.
    Psrlw,
    /// PSRLD: doublewords shifted right, zeros coming in.
    Psrld,
    /// PSRLQ: quadwords shifted right, zeros coming in.
    Psrlq,
    /// PADDQ: sums of quadwords, modulo 2^64.
    Paddq,
    /// PMULLW: the low 16 bits of the products of words.
    Pmullw,
    /// PSUBUSB: differences of unsigned bytes, at least 0.
    Psubusb,
    /// PSUBUSW: differences of unsigned words, at least 0.
    Psubusw,
    /// PMINUB: the lesser unsigned bytes.
    Pminub,
    /// PAND: bitwise and.
    Pand,
    /// PADDUSB: sums of unsigned bytes, at most 2^8 - 1.
    Paddusb,
    /// PADDUSW: sums of unsigned words, at most 2^16 - 1.
    Paddusw,
    /// PMAXUB: the greater unsigned bytes.
    Pmaxub,
    /// PANDN: bitwise and of the destination's complement and the source.
    Pandn,
    /// PAVGB: averages of unsigned bytes, rounded up.
    Pavgb,
    /// PSRAW: words shifted right, the sign coming in.
    Psraw,
    /// PSRAD: doublewords shifted right, the sign coming in.
    Psrad,
    /// PAVGW: averages of unsigned words, rounded up.
    Pavgw,
    /// PMULHUW: the high 16 bits of the products of unsigned words.
    Pmulhuw,
    /// PMULHW: the high 16 bits of the products of signed words.
    Pmulhw,
    /// PSUBSB: differences of signed bytes, clamped.
    Psubsb,
    /// PSUBSW: differences of signed words, clamped.
    Psubsw,
    /// PMINSW: the lesser signed words.
    Pminsw,
    /// POR: bitwise or.
    Por,
    /// PADDSB: sums of signed bytes, clamped.
    Paddsb,
    /// PADDSW: sums of signed words, clamped.
    Paddsw,
    /// PMAXSW: the greater signed words.
    Pmaxsw,
    /// PXOR: bitwise exclusive or.
    Pxor,
    /// PSLLW: words shifted left.
    Psllw,
    /// PSLLD: doublewords shifted left.
    Pslld,
    /// PSLLQ: quadwords shifted left.
    Psllq,
    /// PMULUDQ: 64-bit products of the low unsigned doublewords of each quadword.
    Pmuludq,
    /// PSADBW: in each quadword the sum of the absolute differences of its unsigned bytes.
    Psadbw,
    /// PSUBB: differences of bytes, modulo 2^8.
    Psubb,
    /// PSUBW: differences of words, modulo 2^16.
    Psubw,
    /// PSUBD: differences of doublewords, modulo 2^32.
    Psubd,
    /// PSUBQ: differences of quadwords, modulo 2^64.
    Psubq,
    /// PADDB: sums of bytes, modulo 2^8.
    Paddb,
    /// PADDW: sums of words, modulo 2^16.
    Paddw,
    /// PADDD: sums of doublewords, modulo 2^32.
    Paddd,
    /// PABSB: absolute values of signed bytes, modulo 2^8.
    Pabsb,
    /// PABSW: absolute values of signed words, modulo 2^16.
    Pabsw,
    /// PABSD: absolute values of signed doublewords, modulo 2^32.
    Pabsd,
    /// PMOVSXBW: the low eight bytes, sign-extended to words.
    Pmovsxbw,
    /// PMOVSXWD: the low four words, sign-extended to doublewords.
    Pmovsxwd,
    /// PMOVSXDQ: the low two doublewords, sign-extended to quadwords.
    Pmovsxdq,
    /// PMULDQ: 64-bit products of the low signed doublewords of each quadword.
    Pmuldq,
    /// PCMPEQQ: all ones where quadwords are equal.
    Pcmpeqq,
    /// PACKUSDW: signed doublewords, clamped to unsigned words.
    Packusdw,
    /// PMOVZXBW: the low eight bytes, zero-extended to words.
    Pmovzxbw,
    /// PMOVZXWD: the low four words, zero-extended to doublewords.
    Pmovzxwd,
    /// PMOVZXDQ: the low two doublewords, zero-extended to quadwords.
    Pmovzxdq,
    /// PMINSB: the lesser signed bytes.
    Pminsb,
    /// PMINSD: the lesser signed doublewords.
    Pminsd,
    /// PMINUW: the lesser unsigned words.
    Pminuw,
    /// PMINUD: the lesser unsigned doublewords.
    Pminud,
    /// PMAXSB: the greater signed bytes.
    Pmaxsb,
    /// PMAXSD: the greater signed doublewords.
    Pmaxsd,
    /// PMAXUW: the greater unsigned words.
    Pmaxuw,
    /// PMAXUD: the greater unsigned doublewords.
    Pmaxud,
    /// PMULLD: the low 32 bits of the products of doublewords.
    Pmulld,
}

/// A shift of a vector register by a number (Intel SDM, volume 2B).
#[derive(Clone, Copy, Debug, PartialEq, Eq)]
pub enum VecImmOp {
    /// PSRLW: words shifted right by bits, zeros coming in.
    Psrlw,
    /// PSRAW: words shifted right by bits, the sign coming in.
    Psraw,
    /// PSLLW: words shifted left by bits.
    Psllw,
    /// PSRLD: doublewords shifted right by bits, zeros coming in.
    Psrld,
    /// PSRAD: doublewords shifted right by bits, the sign coming in.
    Psrad,
    /// PSLLD: doublewords shifted left by bits.
    Pslld,
    /// PSRLQ: quadwords shifted right by bits, zeros coming in.
    Psrlq,
    /// PSRLDQ: the whole register shifted right by bytes.
    Psrldq,
    /// PSLLQ: quadwords shifted left by bits.
    Psllq,
    /// PSLLDQ: the whole register shifted left by bytes.
    Pslldq,
}

/// A shuffle of a vector register by an order (Intel SDM, volume 2B).
#[derive(Clone, Copy, Debug, PartialEq, Eq)]
pub enum ShuffleOp {
    /// PSHUFD: each doubleword is one of the source's four.
    Pshufd,
    /// PSHUFHW: each of the four high words is one of the source's four high words; the low quadword is the source's.
    Pshufhw,
    /// PSHUFLW: each of the four low words is one of the source's four low words; the high quadword is the source's.
    Pshuflw,
}

/// What a vector load or store moves (Intel SDM, volume 2B).
#[derive(Clone, Copy, Debug, PartialEq, Eq)]
pub enum MoveOp {
    /// MOVDQA: 16 bytes, at an address that is a multiple of 16.
    Movdqa,
    /// MOVDQU: 16 bytes, at any address.
    Movdqu,
    /// MOVQ: the low 8 bytes; a load clears the high ones.
    Movq,
    /// MOVD: the low 4 bytes; a load clears the high ones.
    Movd,
}

/// Arithmetic on 64 bits of general registers, which sets the flags (Intel SDM, volumes 2A and 2B).
#[derive(Clone, Copy, Debug, PartialEq, Eq)]
pub enum AluOp {
    /// ADD: the sum, modulo 2^64.
    Add,
    /// SUB: the difference, modulo 2^64.
    Sub,
    /// AND: bitwise and.
    And,
    /// CMP: the flags of SUB; the destination keeps its value.
    Cmp,
}

/// A shift of 64 bits of a general register, which leaves the flags unset (Intel SDM, volume 2B, SAL/SAR/SHL/SHR).
#[derive(Clone, Copy, Debug, PartialEq, Eq)]
pub enum ShiftOp {
    /// SHL: to the left, modulo 2^64.
    Shl,
    /// SHR: to the right, zeros coming in.
    Shr,
    /// SAR: to the right, the sign coming in.
    Sar,
}

/// A condition on the flags, by its name in Jcc (Intel SDM, volume 2A).
#[derive(Clone, Copy, Debug, PartialEq, Eq)]
pub enum Cond {
    /// Below, of unsigned numbers: carry.
    B,
    /// Above or equal, of unsigned numbers: no carry.
    Ae,
    /// Equal: zero.
    E,
    /// Not equal: not zero.
    Ne,
    /// Below or equal, of unsigned numbers: carry or zero.
    Be,
    /// Above, of unsigned numbers: neither carry nor zero.
    A,
    /// Negative: sign.
    S,
    /// Not negative: no sign.
    Ns,
    /// Less, of signed numbers: sign differs from overflow.
    L,
    /// Greater or equal, of signed numbers: sign equals overflow.
    Ge,
    /// Less or equal, of signed numbers: zero, or sign differs from overflow.
    Le,
    /// Greater, of signed numbers: not zero, and sign equals overflow.
    G,
}

/// An instruction: one variant for each form of spelling. `dst` is written, `src` is read, and `at` is an address in memory.
#[derive(Clone, Copy, Debug, PartialEq, Eq)]
pub enum Ins {
    /// `op dst, src` between vector registers; `dst` is the first operand too. A shift counts by the low 64 bits of `src`.
    Vec {
        op: VecOp,
        dst: Xmm,
        src: Xmm,
    },
    /// `op dst, count`: a vector register shifted by a number of bits or bytes.
    VecImm {
        op: VecImmOp,
        dst: Xmm,
        count: u8,
    },
    /// `op dst, src, order`: two bits of `order` for each unit, the lowest unit's lowest.
    Shuffle {
        op: ShuffleOp,
        dst: Xmm,
        src: Xmm,
        order: u8,
    },
    /// `op dst, [at]`: a load of 16, 8 or 4 bytes.
    VecLoad {
        op: MoveOp,
        dst: Xmm,
        at: Addr,
    },
    /// `op [at], src`: a store of 16, 8 or 4 bytes.
    VecStore {
        op: MoveOp,
        src: Xmm,
        at: Addr,
    },
    /// MOVQ (where `wide`) or MOVD `dst, src`: the low 64 or 32 bits of `src`; the rest of `dst` is cleared.
    FromGpr {
        wide: bool,
        dst: Xmm,
        src: Gpr,
    },
    /// MOVQ (where `wide`) or MOVD `dst, src`: the low 64 or 32 bits of `src`; the rest of `dst` is cleared.
    ToGpr {
        wide: bool,
        dst: Gpr,
        src: Xmm,
    },
    /// `mov dst, src`, of 64 bits.
    Move {
        dst: Gpr,
        src: Gpr,
    },
    /// `mov dst, [at]`, of 64 bits.
    Load {
        dst: Gpr,
        at: Addr,
    },
    /// `mov [at], src`, of 64 bits.
    Store {
        src: Gpr,
        at: Addr,
    },
    /// `mov [at], src`, of the low 8 bits.
    Store8 {
        src: Gpr,
        at: Addr,
    },
    /// `mov [at], src`, of the low 16 bits.
    Store16 {
        src: Gpr,
        at: Addr,
    },
    /// `movzx dst, byte [at]`: the upper bits are cleared.
    Load8 {
        dst: Gpr,
        at: Addr,
    },
    /// `movzx dst, word [at]`: the upper bits are cleared.
    Load16 {
        dst: Gpr,
        at: Addr,
    },
    /// `mov dst, value`, of 64 bits.
    MovImm {
        dst: Gpr,
        value: u64,
    },
    /// `op dst, src`, of 64 bits.
    Alu {
        op: AluOp,
        dst: Gpr,
        src: Gpr,
    },
    /// `op dst, value`, of 64 bits, the value sign-extended.
    AluImm {
        op: AluOp,
        dst: Gpr,
        value: i32,
    },
    /// `test a, b`: the flags of AND, of 64 bits; no register is written.
    Test {
        a: Gpr,
        b: Gpr,
    },
    /// `op dst, count`, of 64 bits. The count is in bits, and at most 63 where there is a spelling.
    Shift {
        op: ShiftOp,
        dst: Gpr,
        count: u8,
    },
    /// `imul dst, src`: the low 64 bits of the product.
    Imul {
        dst: Gpr,
        src: Gpr,
    },
    /// `lea dst, [at]`: the address itself.
    Lea {
        dst: Gpr,
        at: Addr,
    },
    /// `push src`, of 64 bits. There is no spelling for RSP.
    Push {
        src: Gpr,
    },
    /// `pop dst`, of 64 bits. There is no spelling for RSP.
    Pop {
        dst: Gpr,
    },
    /// `jmp`, by so many bytes from the end of this instruction.
    Jump {
        rel: i32,
    },
    /// `jcc`: where the condition holds, by so many bytes from the end of this instruction.
    JumpIf {
        cond: Cond,
        rel: i32,
    },
    /// `ret`, near: the word at RSP is popped into RIP.
    Ret,
}

/// Fills places of a list that hold no instruction. It has no meaning of its own.
impl Default for Ins {
    ghost use Rattle.x86_ins.specs.declared.ins.Ins.TheVariants.{Ret};

    ghost is_default = { λ i. i ≡ Ret };

    fn default() -> Ins {
        Ins::Ret
    }
}

/// A list of instructions, in the order of the code.
pub type InsList = Items<Ins>;

/// Whether the instruction has a spelling: all have one but Push and Pop of RSP, and a Shift by more than 63.
pub fn allowed(ins: &Ins) -> bool
    ensures spelled { result ≡ has_spelling ins.now }

    // The fields of an instruction are always in the ranges of their types.
    ensures ranges { IsIns ins.now }
{
    open_registers(*ins);
    match *ins {
        Ins::Push { src } => src.number != 4,
        Ins::Pop { dst } => dst.number != 4,
        Ins::Shift { count, .. } => count < 64,
        _ => true,
    }
}

fn below16(r: Gpr)
    ensures { r < 16 }
{
    let _ = r.number;
}

fn xmm_below16(r: Xmm)
    ensures { r < 16 }
{
    let _ = r.number;
}

/// The type of a register keeps its number below 16, which is known where the number is read.
fn open_registers(ins: Ins)
    ensures { IsIns ins }
{
    match ins {
        Ins::Vec { dst, src, .. } | Ins::Shuffle { dst, src, .. } => {
            xmm_below16(dst);
            xmm_below16(src);
        }
        Ins::VecImm { dst, .. } => {
            xmm_below16(dst);
        }
        Ins::VecLoad { dst, at, .. } => {
            xmm_below16(dst);
            below16(at.base);
        }
        Ins::VecStore { src, at, .. } => {
            xmm_below16(src);
            below16(at.base);
        }
        Ins::FromGpr { dst, src, .. } => {
            xmm_below16(dst);
            below16(src);
        }
        Ins::ToGpr { dst, src, .. } => {
            below16(dst);
            xmm_below16(src);
        }
        Ins::Move { dst, src } | Ins::Alu { dst, src, .. } | Ins::Imul { dst, src } => {
            below16(dst);
            below16(src);
        }
        Ins::Load { dst, at }
        | Ins::Load8 { dst, at }
        | Ins::Load16 { dst, at }
        | Ins::Lea { dst, at } => {
            below16(dst);
            below16(at.base);
        }
        Ins::Store { src, at } | Ins::Store8 { src, at } | Ins::Store16 { src, at } => {
            below16(src);
            below16(at.base);
        }
        Ins::MovImm { dst, .. }
        | Ins::AluImm { dst, .. }
        | Ins::Shift { dst, .. }
        | Ins::Pop { dst } => {
            below16(dst);
        }
        Ins::Test { a, b } => {
            below16(a);
            below16(b);
        }
        Ins::Push { src } => {
            below16(src);
        }
        Ins::Jump { .. } | Ins::JumpIf { .. } | Ins::Ret => {}
    }
}
