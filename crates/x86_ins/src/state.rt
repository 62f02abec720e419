//! The machine's state.

ghost use Rattle.std.specs.Prelude.{◌≡◌, ◌+◌, ◌<◌, ◌%◌, ◌^◌, ℕ, Option, Some, IfSome, true, length, get_or, is_some, if◌then◌else◌};
ghost use Rattle.orc_bits.specs.Memory.{put, fill, all_mapped};

/// The flags that conditions read (Intel SDM, volume 1, section 3.4.3.1).
#[derive(Clone, Copy, Debug, PartialEq, Eq)]
pub struct Flags {
    /// CF: a carry out of 64 bits, or a borrow.
    pub carry: bool,
    /// ZF: the result is 0.
    pub zero: bool,
    /// SF: bit 63 of the result.
    pub sign: bool,
    /// OF: the result is outside the signed range of 64 bits.
    pub overflow: bool,
}

/// Registers, flags and the place in the code.
#[derive(Clone, Copy, Debug, PartialEq, Eq)]
pub struct State {
    /// RAX, RCX, RDX, RBX, RSP, RBP, RSI, RDI, R8 to R15, of 64 bits.
    pub gpr: [u64; 16],
    /// XMM0 to XMM15, of 16 bytes, the lowest byte first.
    pub xmm: [[u8; 16]; 16],
    /// None after an instruction that leaves the flags unset.
    pub flags: Option<Flags>,
    /// RIP: an address in bytes.
    pub rip: u64,
}

/// Why an instruction has no effect.
#[derive(Clone, Copy, Debug, PartialEq, Eq)]
pub enum Why {
    /// A MOVDQA at an address that is no multiple of 16.
    Misaligned,
    /// A byte of memory that is not mapped.
    Unmapped,
    /// A condition on unset flags.
    NoFlags,
    /// RIP is outside the code. A step alone gives it.
    NoCode,
    /// No instruction's spelling begins the rest of the code. A step alone gives it.
    NoRow,
}

/// An instruction had no effect.
#[derive(Clone, Copy, Debug, PartialEq, Eq)]
pub struct Trap {
    /// An address in bytes. Misaligned: that of the access. Unmapped: that of the first byte that is not mapped, in the order of the access. NoCode and NoRow: that of the instruction. NoFlags: the instruction's effect gives the address behind it, and a step its own.
    pub at: u64,
    /// The first reason, in the order of the variants.
    pub why: Why,
}

/// A finite map of bytes: the byte at each mapped address below 2^64.
pub trait Bytes {
    /// The byte at each address that is mapped, and None at the others.
    ghost bytes: { Self → ℕ → Option ℕ };

    /// Whether there is a byte at the address.
    fn mapped(&self, at: u64) -> bool
        ensures { result ≡ is_some (bytes self.now at) };

    /// The byte at the address.
    fn get(&self, at: u64) -> Option<u8>
        ensures { result ≡ bytes self.now at };

    /// Changes the byte at the address where it is mapped, and answers whether it is. No other byte changes, and none becomes mapped.
    fn set(&mut self, at: u64, b: u8) -> bool
        ensures cases { result ≡ is_some (bytes self.old at) }
        ensures after { bytes self.new ≡ (if result then put (bytes self.old) at b else bytes self.old) };

    /// The n bytes from the address on, at addresses modulo 2^64, where the map has them side by side. A map may have any of
    /// its bytes so.
    fn slice(&self, at: u64, n: usize) -> Option<&[u8]>
        ensures count { IfSome result (λ s. length s.now ≡ n) }
        ensures bytes { IfSome result (λ s. (j : ℕ) → j < n → bytes self.now ((at + j) % 2 ^ 64) ≡ Some (get_or s.now j 0)) }
    {
        None
    }

    /// Changes the bytes from the address on, at addresses modulo 2^64, where the map has them side by side, and answers
    /// whether it has. Else nothing changes.
    fn set_slice(&mut self, at: u64, from: &[u8]) -> bool
        ensures mapped { result ≡ true → all_mapped (length from.now) (bytes self.old) at ≡ true }
        ensures after { bytes self.new ≡ (if result then fill (length from.now) (bytes self.old) at (λ j. get_or from.now j 0) else bytes self.old) }
    {
        false
    }
}
