//! The target of a jump, written after the code behind it.

ghost use Rattle.std.specs.Prelude.{◌≡◌, ◌+◌, ◌≤◌, ◌++◌, length, take, drop};
ghost use Rattle.x86_ins.specs.Spelling.{dword};

/// Writes the four bytes of `rel`, the lowest first, from `at` on. All other bytes stay as they are.
///
/// `rel` is in bytes from the end of the jump whose last four bytes these are. The four bytes have to stand within the code.
pub fn patch_rel32(code: &mut [u8], at: usize, rel: i32)
    requires { at + 4 ≤ length code.old }
    ensures { code.new ≡ take at code.old ++ dword rel ++ drop (at + 4) code.old }
{
    code[at..at + 4].copy_from_slice(&rel.cast_unsigned().to_le_bytes());
}
