//! Expected values are from the pages of the manual, on the lanes of two registers.

use crate::{shift_result, shuffle_result, vec_result};
use x86_ins::{ShuffleOp, VecImmOp, VecOp};

/// Least, greatest and middle bytes, words and doublewords.
const X: u128 = 0x7ffe_aa55_ff00_807f_ffff_0001_7fff_8000;

const Y: u128 = 0x8001_55aa_7fff_7f80_0002_ffff_0001_8000;

#[test]
fn operations_on_two_registers(rt: HostRuntime) {
    let rows = [
        (VecOp::Paddb, 0xffff_ffff_7eff_ffff_ff01_ff00_7f00_0000),
        (VecOp::Psubq, 0xfffd_54ab_7f01_00ff_fffc_0002_7ffe_0000),
        (VecOp::Paddsb, 0xffff_ffff_7eff_ffff_ff01_ff00_7f00_8000),
        (VecOp::Psubusw, 0x0000_54ab_7f01_00ff_fffd_0000_7ffe_0000),
        (VecOp::Pavgw, 0x8000_8000_bf80_8000_8001_8000_4000_8000),
        (VecOp::Pminsw, 0x8001_aa55_ff00_807f_ffff_ffff_0001_8000),
        (VecOp::Pcmpeqb, 0x0000_0000_0000_0000_0000_0000_0000_ffff),
        (VecOp::Pcmpgtd, 0xffff_ffff_0000_0000_0000_0000_ffff_ffff),
        (VecOp::Pmullw, 0x7ffe_5572_0100_4080_fffe_ffff_7fff_0000),
        (VecOp::Pmulhuw, 0x3fff_38ff_7f7f_3fff_0001_0000_0000_4000),
        (VecOp::Pmuludq, 0x7f7f_c03f_bf80_4080_0000_bfff_4000_0000),
        (VecOp::Psadbw, 0x0000_0000_0000_0329_0000_0000_0000_0576),
        (VecOp::Pandn, 0x8001_55aa_00ff_7f80_0000_fffe_0000_0000),
        (VecOp::Punpcklwd, 0x0002_ffff_ffff_0001_0001_7fff_8000_8000),
        (VecOp::Punpckhdq, 0x8001_55aa_7ffe_aa55_7fff_7f80_ff00_807f),
        (VecOp::Packsswb, 0x807f_7f7f_02ff_0180_7f80_8080_ff01_7f80),
        (VecOp::Packuswb, 0x00ff_ffff_0200_0100_ff00_0000_0001_ff00),
        (VecOp::Pabsb, 0x8001_5556_7f01_7f80_0002_0101_0001_8000),
        (VecOp::Pmovsxwd, 0x0000_0002_ffff_ffff_0000_0001_ffff_8000),
        (VecOp::Pmuldq, 0xff80_40bf_bf80_4080_0000_bfff_4000_0000),
        (VecOp::Pmovzxbw, 0x0000_0002_00ff_00ff_0000_0001_0080_0000),
        (VecOp::Pminsd, 0x8001_55aa_ff00_807f_ffff_0001_0001_8000),
        (VecOp::Pmaxud, 0x8001_55aa_ff00_807f_ffff_0001_7fff_8000),
        (VecOp::Pmulld, 0xb800_5572_bf80_4080_0003_ffff_4000_0000),
    ];
    for (op, want) in rows {
        let result = vec_result(op, &X.to_le_bytes(), &Y.to_le_bytes());
        assert_eq!(rt; u128::from_le_bytes(result), want, "{op:?}");
    }
}

#[test]
fn shifts(rt: HostRuntime) {
    let rows = [
        (VecOp::Psllw, 15, 0x0000_8000_0000_8000_8000_8000_8000_0000),
        (VecOp::Psraw, 16, 0x0000_ffff_ffff_ffff_ffff_0000_0000_ffff),
        (VecOp::Psrld, 31, 0x0000_0000_0000_0001_0000_0001_0000_0000),
        (VecOp::Psllq, 64, 0),
        (VecOp::Psrlq, 0x1_0000_0000, 0),
    ];
    for (op, count, want) in rows {
        let count: u64 = count;
        // The high half of the register that has the count is not looked at.
        let counts = (1 << 64) | u128::from(count);
        let result = vec_result(op, &X.to_le_bytes(), &counts.to_le_bytes());
        assert_eq!(rt; u128::from_le_bytes(result), want, "{op:?} by {count}");
    }
    let rows = [
        (
            VecImmOp::Psrlw,
            15,
            0x0000_0001_0001_0001_0001_0000_0000_0001,
        ),
        (
            VecImmOp::Psrad,
            32,
            0x0000_0000_ffff_ffff_ffff_ffff_0000_0000,
        ),
        (
            VecImmOp::Pslldq,
            1,
            0xfeaa_55ff_0080_7fff_ff00_017f_ff80_0000,
        ),
        (VecImmOp::Psrldq, 16, 0),
    ];
    for (op, count, want) in rows {
        let result = shift_result(op, count, &X.to_le_bytes());
        assert_eq!(rt; u128::from_le_bytes(result), want, "{op:?} by {count}");
    }
}

#[test]
fn shuffles(rt: HostRuntime) {
    let rows = [
        (ShuffleOp::Pshufd, 0x7fff_8000_ffff_0001_ff00_807f_7ffe_aa55),
        (
            ShuffleOp::Pshuflw,
            0x7ffe_aa55_ff00_807f_8000_7fff_0001_ffff,
        ),
        (
            ShuffleOp::Pshufhw,
            0x807f_ff00_aa55_7ffe_ffff_0001_7fff_8000,
        ),
    ];
    for (op, want) in rows {
        let result = shuffle_result(op, 0x1b, &X.to_le_bytes());
        assert_eq!(rt; u128::from_le_bytes(result), want, "{op:?}");
    }
}
