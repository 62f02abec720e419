//! Numbers among the words.
ghost use Rattle.std.specs.Prelude.{◌≡◌, ◌≢◌, ◌⊎◌, ◌<◌, ◌^◌, ℕ, true, false, length, slice_index, IfSome, IfNone, decimal};

/// Whether bytes of a number begin as its decimal does: with no sign, and with no 0 before other digits.
fn begins_plainly(bytes: &[u8]) -> bool
    ensures plain { result ≡ true → ((slice_index bytes.now 0 ≢ 43) × (slice_index bytes.now 0 ≡ 48 → length bytes.now ≡ 1)) }
    ensures other { result ≡ false → ((slice_index bytes.now 0 ≡ 43) ⊎ ((slice_index bytes.now 0 ≡ 48) × (1 < length bytes.now))) }
{
    if bytes.is_empty() {
        return true;
    }
    if bytes[0] == b'+' {
        return false;
    }
    bytes[0] != b'0' || bytes.len() == 1
}

/// The number below 2^64 whose decimal the word is, if it is one without a leading zero.
#[tactic(auto, using(crate::proofs::Numerals::is_decimal, crate::proofs::Numerals::no_decimal, crate::proofs::Numerals::no_number))]
pub fn number_of(word: &str) -> Option<u64>
    ensures found { IfSome result (λ number. word.now ≡ decimal number) }
    ensures none { IfNone result ((number : ℕ) → number < 2 ^ 64 → word.now ≢ decimal number) }
{
    let Ok(number) = word.parse::<u64>() else {
        return None;
    };
    if !begins_plainly(word.as_bytes()) {
        return None;
    }
    Some(number)
}
