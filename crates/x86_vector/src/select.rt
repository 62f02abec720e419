//! The form of each operation. A comment names the pages of its group in the Intel SDM, volume 2B.

ghost use Rattle.std.specs.Prelude.{◌≡◌, ℕ, List};
ghost use Rattle.x86_ins.specs.Vectors.{shape, result_of, imm_shape, imm_result, shuffle_result};
ghost use Rattle.x86_vector.specs.Forms.{result_in};

use crate::forms::{BitFn, Form, Half, LaneFn, PackFn, ShiftFn, WordFn};
use crate::width::Width;
use x86_ins::{ShuffleOp, VecImmOp, VecOp};

/// The form of an operation on two registers.
pub fn form(op: VecOp) -> Form
    ensures { (x : List ℕ) (y : List ℕ) → result_in result x y ≡ result_of (shape op) x y }
{
    match op {
        // MOVDQA,VMOVDQA32/64; PAND; POR; PXOR; PANDN
        VecOp::Movdqa => Form::Bits(BitFn::Second),
        VecOp::Pand => Form::Bits(BitFn::And),
        VecOp::Por => Form::Bits(BitFn::Or),
        VecOp::Pxor => Form::Bits(BitFn::Xor),
        VecOp::Pandn => Form::Bits(BitFn::Andn),
        // PADDB/PADDW/PADDD/PADDQ
        VecOp::Paddb => Form::Each(LaneFn::AddWrap, Width::One),
        VecOp::Paddw => Form::Each(LaneFn::AddWrap, Width::Two),
        VecOp::Paddd => Form::Each(LaneFn::AddWrap, Width::Four),
        VecOp::Paddq => Form::Each(LaneFn::AddWrap, Width::Eight),
        // PSUBB/PSUBW/PSUBD; PSUBQ
        VecOp::Psubb => Form::Each(LaneFn::SubWrap, Width::One),
        VecOp::Psubw => Form::Each(LaneFn::SubWrap, Width::Two),
        VecOp::Psubd => Form::Each(LaneFn::SubWrap, Width::Four),
        VecOp::Psubq => Form::Each(LaneFn::SubWrap, Width::Eight),
        // PADDSB/PADDSW; PSUBSB/PSUBSW
        VecOp::Paddsb => Form::Each(LaneFn::AddSigned, Width::One),
        VecOp::Paddsw => Form::Each(LaneFn::AddSigned, Width::Two),
        VecOp::Psubsb => Form::Each(LaneFn::SubSigned, Width::One),
        VecOp::Psubsw => Form::Each(LaneFn::SubSigned, Width::Two),
        // PADDUSB/PADDUSW; PSUBUSB/PSUBUSW
        VecOp::Paddusb => Form::Each(LaneFn::AddUnsigned, Width::One),
        VecOp::Paddusw => Form::Each(LaneFn::AddUnsigned, Width::Two),
        VecOp::Psubusb => Form::Each(LaneFn::SubUnsigned, Width::One),
        VecOp::Psubusw => Form::Each(LaneFn::SubUnsigned, Width::Two),
        // PAVGB/PAVGW
        VecOp::Pavgb => Form::Each(LaneFn::Average, Width::One),
        VecOp::Pavgw => Form::Each(LaneFn::Average, Width::Two),
        // PMINUB/PMINUW; PMINUD/PMINUQ; PMAXUB/PMAXUW; PMAXUD/PMAXUQ
        VecOp::Pminub => Form::Each(LaneFn::MinUnsigned, Width::One),
        VecOp::Pminuw => Form::Each(LaneFn::MinUnsigned, Width::Two),
        VecOp::Pminud => Form::Each(LaneFn::MinUnsigned, Width::Four),
        VecOp::Pmaxub => Form::Each(LaneFn::MaxUnsigned, Width::One),
        VecOp::Pmaxuw => Form::Each(LaneFn::MaxUnsigned, Width::Two),
        VecOp::Pmaxud => Form::Each(LaneFn::MaxUnsigned, Width::Four),
        // PMINSB/PMINSW; PMINSD/PMINSQ; PMAXSB/PMAXSW/PMAXSD/PMAXSQ
        VecOp::Pminsb => Form::Each(LaneFn::MinSigned, Width::One),
        VecOp::Pminsw => Form::Each(LaneFn::MinSigned, Width::Two),
        VecOp::Pminsd => Form::Each(LaneFn::MinSigned, Width::Four),
        VecOp::Pmaxsb => Form::Each(LaneFn::MaxSigned, Width::One),
        VecOp::Pmaxsw => Form::Each(LaneFn::MaxSigned, Width::Two),
        VecOp::Pmaxsd => Form::Each(LaneFn::MaxSigned, Width::Four),
        // PABSB/PABSW/PABSD/PABSQ
        VecOp::Pabsb => Form::Each(LaneFn::Absolute, Width::One),
        VecOp::Pabsw => Form::Each(LaneFn::Absolute, Width::Two),
        VecOp::Pabsd => Form::Each(LaneFn::Absolute, Width::Four),
        // PCMPEQB/PCMPEQW/PCMPEQD; PCMPEQQ
        VecOp::Pcmpeqb => Form::Each(LaneFn::Equal, Width::One),
        VecOp::Pcmpeqw => Form::Each(LaneFn::Equal, Width::Two),
        VecOp::Pcmpeqd => Form::Each(LaneFn::Equal, Width::Four),
        VecOp::Pcmpeqq => Form::Each(LaneFn::Equal, Width::Eight),
        // PCMPGTB/PCMPGTW/PCMPGTD
        VecOp::Pcmpgtb => Form::Each(LaneFn::GreaterSigned, Width::One),
        VecOp::Pcmpgtw => Form::Each(LaneFn::GreaterSigned, Width::Two),
        VecOp::Pcmpgtd => Form::Each(LaneFn::GreaterSigned, Width::Four),
        // PMULLW; PMULLD/PMULLQ; PMULHW; PMULHUW; PMULUDQ; PMULDQ
        VecOp::Pmullw => Form::Words(WordFn::MulLow),
        VecOp::Pmulld => Form::LowProducts,
        VecOp::Pmulhw => Form::Words(WordFn::MulHighSigned),
        VecOp::Pmulhuw => Form::Words(WordFn::MulHighUnsigned),
        VecOp::Pmuludq => Form::Products,
        VecOp::Pmuldq => Form::SignedProducts,
        // PSRLW/PSRLD/PSRLQ; PSRAW/PSRAD/PSRAQ; PSLLW/PSLLD/PSLLQ
        VecOp::Psrlw => Form::Counted(ShiftFn::Right, Width::Two),
        VecOp::Psrld => Form::Counted(ShiftFn::Right, Width::Four),
        VecOp::Psrlq => Form::Counted(ShiftFn::Right, Width::Eight),
        VecOp::Psraw => Form::Counted(ShiftFn::RightSigned, Width::Two),
        VecOp::Psrad => Form::Counted(ShiftFn::RightSigned, Width::Four),
        VecOp::Psllw => Form::Counted(ShiftFn::Left, Width::Two),
        VecOp::Pslld => Form::Counted(ShiftFn::Left, Width::Four),
        VecOp::Psllq => Form::Counted(ShiftFn::Left, Width::Eight),
        // PUNPCKLBW/PUNPCKLWD/PUNPCKLDQ/PUNPCKLQDQ; PUNPCKHBW/PUNPCKHWD/PUNPCKHDQ/PUNPCKHQDQ
        VecOp::Punpcklbw => Form::Interleaved(Width::One, false),
        VecOp::Punpcklwd => Form::Interleaved(Width::Two, false),
        VecOp::Punpckldq => Form::Interleaved(Width::Four, false),
        VecOp::Punpcklqdq => Form::Interleaved(Width::Eight, false),
        VecOp::Punpckhbw => Form::Interleaved(Width::One, true),
        VecOp::Punpckhwd => Form::Interleaved(Width::Two, true),
        VecOp::Punpckhdq => Form::Interleaved(Width::Four, true),
        VecOp::Punpckhqdq => Form::Interleaved(Width::Eight, true),
        // PACKSSWB/PACKSSDW; PACKUSWB; PACKUSDW
        VecOp::Packsswb => Form::Packed(PackFn::SignedBytes),
        VecOp::Packuswb => Form::Packed(PackFn::UnsignedBytes),
        VecOp::Packssdw => Form::Packed(PackFn::SignedWords),
        VecOp::Packusdw => Form::Packed(PackFn::UnsignedWords),
        // PMOVSX; PMOVZX
        VecOp::Pmovsxbw => Form::Extended(Half::Byte, true),
        VecOp::Pmovsxwd => Form::Extended(Half::Word, true),
        VecOp::Pmovsxdq => Form::Extended(Half::Doubleword, true),
        VecOp::Pmovzxbw => Form::Extended(Half::Byte, false),
        VecOp::Pmovzxwd => Form::Extended(Half::Word, false),
        VecOp::Pmovzxdq => Form::Extended(Half::Doubleword, false),
        // PSADBW
        VecOp::Psadbw => Form::Distances,
    }
}

/// The form of a shift by a count.
pub fn shift_form(op: VecImmOp, count: u8) -> Form
    ensures { (x : List ℕ) (y : List ℕ) → result_in result x y ≡ imm_result (imm_shape op) count x }
{
    match op {
        // PSRLW/PSRLD/PSRLQ; PSRAW/PSRAD/PSRAQ; PSLLW/PSLLD/PSLLQ
        VecImmOp::Psrlw => Form::Shifted(ShiftFn::Right, Width::Two, count),
        VecImmOp::Psrld => Form::Shifted(ShiftFn::Right, Width::Four, count),
        VecImmOp::Psrlq => Form::Shifted(ShiftFn::Right, Width::Eight, count),
        VecImmOp::Psraw => Form::Shifted(ShiftFn::RightSigned, Width::Two, count),
        VecImmOp::Psrad => Form::Shifted(ShiftFn::RightSigned, Width::Four, count),
        VecImmOp::Psllw => Form::Shifted(ShiftFn::Left, Width::Two, count),
        VecImmOp::Pslld => Form::Shifted(ShiftFn::Left, Width::Four, count),
        VecImmOp::Psllq => Form::Shifted(ShiftFn::Left, Width::Eight, count),
        // PSRLDQ; PSLLDQ
        VecImmOp::Psrldq => Form::BytesDown(count),
        VecImmOp::Pslldq => Form::BytesUp(count),
    }
}

/// The form of a shuffle by an order.
pub fn shuffle_form(op: ShuffleOp, order: u8) -> Form
    ensures { (x : List ℕ) (y : List ℕ) → result_in result x y ≡ shuffle_result op order y }
{
    match op {
        // PSHUFD; PSHUFLW; PSHUFHW
        ShuffleOp::Pshufd => Form::Doublewords(order),
        ShuffleOp::Pshuflw => Form::LowWords(order),
        ShuffleOp::Pshufhw => Form::HighWords(order),
    }
}
