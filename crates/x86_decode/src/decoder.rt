//! Bytes as the instruction whose spelling begins them.

ghost use Rattle.std.specs.Prelude.{◌≡◌, ◌++◌, ℕ, List, length, Some, IfSome, IfNone};
ghost use Rattle.x86_ins.specs.declared.ins.Ins.{Ins};
ghost use Rattle.x86_ins.specs.Spelling.{spelling, Decode, IsAllowed, IsIns};
ghost use Rattle.x86_decode.specs.Laws.{DistinctSpellings, NoneBeginsAnother, OneDecoding};
ghost use Rattle.x86_decode.specs.Reading.{decoded};

use crate::rows::guess;
use x86_encode::encode;
use x86_ins::{Ins, allowed};

/// The fields are guessed without a test, and the guess is compared with its one spelling, so that no other spelling passes.
#[tactic(auto, unfolding(crate::specs::Reading::decoded))]
fn decode_by_guess(bytes: &[u8]) -> Option<(Ins, usize)>
    ensures is { result ≡ decoded bytes.now }
    ensures ranges { IfSome result (λ r. IsIns r.0) }
{
    let ins = guess(bytes)?;
    if !allowed(&ins) {
        return None;
    }
    let code = encode(&ins);
    if !bytes.starts_with(code.as_slice()) {
        return None;
    }
    Some((ins, code.len()))
}

/// The instruction whose one spelling begins the bytes, and the length of the spelling in bytes. It takes no memory.
///
/// It is None exactly where no instruction's spelling begins the bytes: other spellings that the manual allows are
/// refused too.
pub fn decode(bytes: &[u8]) -> Option<(Ins, usize)>
    // What is decoded has a spelling that begins the bytes.
    ensures some { IfSome result (λ r. Decode bytes.now r.0 r.1) }

    // Each instruction whose spelling begins the bytes is decoded.
    ensures only { (i : Ins) (n : ℕ) → Decode bytes.now i n → result ≡ Some (i, n) }

    // What is spelled, with any bytes behind it, is read again.
    ensures again { (i : Ins) (rest : List ℕ) → IsAllowed i → bytes.now ≡ spelling i ++ rest →
        result ≡ Some (i, length (spelling i)) }

    // Where nothing is decoded, no instruction's spelling begins the bytes.
    ensures none { IfNone result ((i : Ins) (n : ℕ) → Decode bytes.now i n → ⊥) }
{
    decode_by_guess(bytes)
}

/// The law of one spelling: no two instructions share a spelling, and no spelling begins another's, so bytes decode in
/// one way at most.
pub fn one_spelling()
    ensures distinct { DistinctSpellings }
    ensures free { NoneBeginsAnother }
    ensures one { OneDecoding }
{}
