//! Names of the language.

ghost use Rattle.std.specs.Prelude.{◌≡◌, true, IfSome, is_some};
ghost use Rattle.std.specs.List.{list_all};
ghost use Rattle.orc_program.specs.Words.{is_letter, is_name_byte, is_name};

use arrayvec::ArrayVec;
use std::marker::Model;

/// A name: a letter or `_`, followed by letters, digits or `_`, at most 64 bytes in all.
#[derive(Debug, Drop)]
pub struct Name {
    bytes: ArrayVec<u8, 64>,
}

impl Model for Name {
    ghost use Rattle.std.specs.Prelude.{◌≡◌, true, List, ℕ};
    ghost use Rattle.orc_program.specs.Words.{is_name};

    ghost Value = { List ℕ };

    ghost view = { λ n. n.bytes.items };

    ghost invariant = { λ n. is_name n.bytes.items ≡ true };
}

fn is_letter(b: u8) -> bool
    ensures { result ≡ is_letter b }
{
    b == 95 || (65 <= b && b <= 90) || (97 <= b && b <= 122)
}

fn is_name_byte(b: u8) -> bool
    ensures { result ≡ is_name_byte b }
{
    is_letter(b) || (48 <= b && b <= 57)
}

fn all_name_bytes(bytes: &[u8]) -> bool
    ensures { result ≡ list_all is_name_byte bytes.now }
{
    bytes.iter().all(|b| is_name_byte(*b))
}

/// Whether a word is a name: a letter or `_`, followed by letters, digits or `_`, at most 64 bytes in all.
pub fn is_name(word: &[u8]) -> bool
    ensures { result ≡ is_name word.now }
{
    match word {
        [] => false,
        [b, rest @ ..] => is_letter(*b) && all_name_bytes(rest) && rest.len() < 64,
    }
}

impl Name {
    /// The name of these bytes, where they are one.
    pub fn new(bytes: &[u8]) -> Option<Name>
        ensures found { is_some result ≡ is_name bytes.now }
        ensures value { IfSome result (λ n. n ≡ bytes.now) }
    {
        if !is_name(bytes) {
            return None;
        }
        let mut own = ArrayVec::new();
        let _ = own.try_extend_from_slice(bytes);
        Some(Name { bytes: own })
    }

    /// The bytes of the name.
    pub fn as_slice(&self) -> &[u8]
        ensures bytes { result.now ≡ self.now }
        ensures name { is_name self.now ≡ true }
    {
        self.bytes.as_slice()
    }
}
