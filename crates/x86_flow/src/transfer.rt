//! Instructions that move bytes and words between memory and registers.

ghost use Rattle.std.specs.Prelude.{◌≡◌, ◌<◌, ◌+◌, ◌++◌, ◌^◌, OnOk, pos, false};
ghost use Rattle.x86_ins.specs.declared.ins.Ins.TheVariants.{FromGpr, ToGpr};
ghost use Rattle.x86_flow.specs.Moves.{IsWidth, away, load_far_code, store_far_code, aligned_store_far_code, load_code, store_code};

use std::alloc::AllocError;
use x86_ins::{Addr, Gpr, Ins, InsList, MoveOp, Xmm};

/// The register through which one or two bytes go: RAX.
pub const SCRATCH: Gpr = Gpr { number: 0 };

/// The address so many bytes behind the one in a register.
pub fn away(base: Gpr, by: usize) -> Addr
    requires { by < 2 ^ 31 }
    ensures { result ≡ away base by }
{
    Addr {
        base,
        disp: far(by),
    }
}

/// A displacement.
fn far(by: usize) -> i32
    requires { by < 2 ^ 31 }
    ensures { result ≡ pos by }
{
    by as i32
}

/// Moves four bytes from RAX to the low end of a vector register, and clears the rest of it.
fn from_scratch(dst: Xmm) -> Ins
    ensures { result ≡ FromGpr false dst 0 }
{
    Ins::FromGpr {
        wide: false,
        dst,
        src: SCRATCH,
    }
}

/// Moves the low four bytes of a vector register to RAX.
fn to_scratch(src: Xmm) -> Ins
    ensures { result ≡ ToGpr false 0 src }
{
    Ins::ToGpr {
        wide: false,
        dst: SCRATCH,
        src,
    }
}

/// Adds what loads `width` bytes, 1, 2, 4, 8 or 16, that are `far` bytes behind the address in `base`, to the low end of `dst`, whose other bytes become 0.
pub fn push_load_far(
    list: &mut InsList,
    width: usize,
    dst: Xmm,
    base: Gpr,
    far: usize,
) -> Result<(), AllocError>
    requires width { IsWidth width }
    requires far { far < 2 ^ 31 }
    ensures { OnOk result (list.new ≡ list.old ++ load_far_code width dst base far) }
{
    let at = away(base, far);
    match width {
        1 => {
            list.push(Ins::Load8 { dst: SCRATCH, at })?;
            list.push(from_scratch(dst))
        }
        2 => {
            list.push(Ins::Load16 { dst: SCRATCH, at })?;
            list.push(from_scratch(dst))
        }
        4 => list.push(Ins::VecLoad {
            op: MoveOp::Movd,
            dst,
            at,
        }),
        8 => list.push(Ins::VecLoad {
            op: MoveOp::Movq,
            dst,
            at,
        }),
        _ => list.push(Ins::VecLoad {
            op: MoveOp::Movdqu,
            dst,
            at,
        }),
    }
}

/// Adds what loads `width` bytes, 1, 2, 4, 8 or 16, from the address in `base` to the low end of `dst`, whose other bytes become 0.
pub fn push_load(list: &mut InsList, width: usize, dst: Xmm, base: Gpr) -> Result<(), AllocError>
    requires { IsWidth width }
    ensures { OnOk result (list.new ≡ list.old ++ load_code width dst base) }
{
    push_load_far(list, width, dst, base, 0)
}

/// Adds what stores the low `width` bytes, 1, 2, 4, 8 or 16, of `src` from `far` bytes behind the address in `base` on.
pub fn push_store_far(
    list: &mut InsList,
    width: usize,
    src: Xmm,
    base: Gpr,
    far: usize,
) -> Result<(), AllocError>
    requires width { IsWidth width }
    requires far { far < 2 ^ 31 }
    ensures { OnOk result (list.new ≡ list.old ++ store_far_code width src base far) }
{
    let at = away(base, far);
    match width {
        1 => {
            list.push(to_scratch(src))?;
            list.push(Ins::Store8 { src: SCRATCH, at })
        }
        2 => {
            list.push(to_scratch(src))?;
            list.push(Ins::Store16 { src: SCRATCH, at })
        }
        4 => list.push(Ins::VecStore {
            op: MoveOp::Movd,
            src,
            at,
        }),
        8 => list.push(Ins::VecStore {
            op: MoveOp::Movq,
            src,
            at,
        }),
        _ => list.push(Ins::VecStore {
            op: MoveOp::Movdqu,
            src,
            at,
        }),
    }
}

/// Adds what stores the low `width` bytes, 1, 2, 4, 8 or 16, of `src` from the address in `base` on.
pub fn push_store(list: &mut InsList, width: usize, src: Xmm, base: Gpr) -> Result<(), AllocError>
    requires { IsWidth width }
    ensures { OnOk result (list.new ≡ list.old ++ store_code width src base) }
{
    push_store_far(list, width, src, base, 0)
}

/// Stores all of `src` from `far` bytes behind the address in `base` on, which has to be a multiple of 16.
pub fn push_aligned_store(
    list: &mut InsList,
    src: Xmm,
    base: Gpr,
    far: usize,
) -> Result<(), AllocError>
    requires { far < 2 ^ 31 }
    ensures { OnOk result (list.new ≡ list.old ++ aligned_store_far_code src base far) }
{
    list.push(Ins::VecStore {
        op: MoveOp::Movdqa,
        src,
        at: away(base, far),
    })
}
