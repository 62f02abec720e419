//! The tests of single fields.

ghost use Rattle.std.specs.Prelude.{◌≡◌, ◌==◌, ◌+◌, ◌*◌, ◌<◌, ◌≤◌, ◌^◌, length, IfOk, MatchResult};
ghost use Rattle.std.specs.List.{list_all};
ghost use Rattle.orc_bits.specs.Memory.{number};
ghost use Rattle.orc_elf.specs.Fields.{part, number_at, exact, up_to, zeros, free, refused};
ghost use Rattle.orc_elf.specs.Told.{refusal_in};

use crate::error::ElfError;

/// The number of a few bytes, lowest byte first.
#[tactic(auto, using(crate::proofs::Numbers::power_small, crate::proofs::Numbers::power_suc))]
fn number(field: &[u8]) -> u64
    requires { length field.now ≤ 8 }
    ensures value { result ≡ number field.now }
    ensures small { result < 256 ^ length field.now }
{
    match field {
        [] => 0,
        [b, rest @ ..] => u64::from(*b) + 256 * number(rest),
    }
}

/// So many bytes from an offset on.
#[tactic(auto, unfolding(crate::specs::Fields::refused))]
pub fn part(bytes: &[u8], at: usize, size: usize) -> Result<&[u8], ElfError>
    requires at_in { at < 2 ^ 40 }
    requires size_in { size < 2 ^ 40 }
    ensures told { refusal_in result ≡ refused bytes.now (free at size) }
    ensures found { IfOk result (λ x. (x.now ≡ part bytes.now at size) × (at + size ≤ length bytes.now)
        × (length x.now ≡ size)) }
    ensures short { MatchResult result (λ _. at + size ≤ length bytes.now)
        (λ e. (length bytes.now < at + size) × (e ≡ ElfError.Short (at + size))) }
{
    let end = at + size;
    if bytes.len() < end {
        return Err(ElfError::Short { need: end as u64 });
    }
    let (_, rest) = bytes.split_at(at);
    let (front, _) = rest.split_at(size);
    Ok(front)
}

/// The number in a field of at most 8 bytes.
#[tactic(auto, unfolding(crate::specs::Fields::number_at))]
pub fn number_at(bytes: &[u8], at: usize, size: usize) -> Result<u64, ElfError>
    requires at_in { at < 2 ^ 40 }
    requires few { size ≤ 8 }
    ensures { MatchResult result
        (λ x. (x ≡ number_at bytes.now at size) × (at + size ≤ length bytes.now) × (x < 256 ^ size))
        (λ e. (length bytes.now < at + size) × (e ≡ ElfError.Short (at + size))) }
{
    let field = part(bytes, at, size)?;
    Ok(number(field))
}

/// A field of at most 8 bytes that holds this number.
#[tactic(auto, unfolding(crate::specs::Fields::refused))]
pub fn exact(bytes: &[u8], at: usize, size: usize, n: u64) -> Result<(), ElfError>
    requires at_in { at < 2 ^ 40 }
    requires few { size ≤ 8 }
    ensures { refusal_in result ≡ refused bytes.now (exact bytes.now at size n) }
{
    if number_at(bytes, at, size)? == n {
        Ok(())
    } else {
        Err(ElfError::BadField { at: at as u64 })
    }
}

/// A field of at most 8 bytes that holds a number of at most `most`.
#[tactic(auto, unfolding(crate::specs::Fields::refused))]
pub fn up_to(bytes: &[u8], at: usize, size: usize, most: u64) -> Result<u64, ElfError>
    requires at_in { at < 2 ^ 40 }
    requires few { size ≤ 8 }
    ensures told { refusal_in result ≡ refused bytes.now (up_to bytes.now at size most) }
    ensures value { IfOk result (λ x. (x ≡ number_at bytes.now at size) × (x ≤ most)) }
{
    let n = number_at(bytes, at, size)?;
    if n <= most {
        Ok(n)
    } else {
        Err(ElfError::BadField { at: at as u64 })
    }
}

/// Whether all bytes are 0.
fn are_zero(field: &[u8]) -> bool
    ensures { result ≡ list_all (λ b. b == 0) field.now }
{
    field.iter().all(|b| *b == 0)
}

/// A field whose bytes are all 0.
#[tactic(auto, unfolding(crate::specs::Fields::refused))]
pub fn zeros(bytes: &[u8], at: usize, size: usize) -> Result<(), ElfError>
    requires at_in { at < 2 ^ 40 }
    requires size_in { size < 2 ^ 40 }
    ensures { refusal_in result ≡ refused bytes.now (zeros bytes.now at size) }
{
    if are_zero(part(bytes, at, size)?) {
        Ok(())
    } else {
        Err(ElfError::BadField { at: at as u64 })
    }
}
