//! Instructions under other names of the vector registers.

ghost use Rattle.std.specs.Prelude.{◌≡◌};
ghost use Rattle.x86_ins.specs.Renaming.{IsPermutation, renamed, renaming};

use crate::ins::{Ins, Xmm};

/// The instruction with `map[r]` in the place of each vector register XMM `r`, and nothing else changed: general registers, addresses and numbers stay (Intel SDM, volume 1, section 10.2.2: XMM0 to XMM15). The map is a permutation, so that no two registers get one name.
pub fn rename(ins: &Ins, map: &[u8; 16]) -> Ins
    requires { IsPermutation map.now }
    ensures { result ≡ renamed (renaming map.now) ins.now }
{
    let mut renamed = *ins;
    match &mut renamed {
        Ins::Vec { dst, src, .. } => {
            *dst = new_name(*dst, map);
            *src = new_name(*src, map);
        }
        Ins::Shuffle { dst, src, .. } => {
            *dst = new_name(*dst, map);
            *src = new_name(*src, map);
        }
        Ins::VecImm { dst, .. } => *dst = new_name(*dst, map),
        Ins::VecLoad { dst, .. } => *dst = new_name(*dst, map),
        Ins::VecStore { src, .. } => *src = new_name(*src, map),
        Ins::FromGpr { dst, .. } => *dst = new_name(*dst, map),
        Ins::ToGpr { src, .. } => *src = new_name(*src, map),
        _ => {}
    }
    renamed
}

/// The register's entry in the map.
fn new_name(of: Xmm, map: &[u8; 16]) -> Xmm
    requires { IsPermutation map.now }
    ensures { result ≡ renaming map.now of }
{
    Xmm {
        number: map[usize::from(of.number)],
    }
}
