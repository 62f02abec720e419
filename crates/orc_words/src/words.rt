//! The words of a line.

ghost use Rattle.std.specs.Prelude.{◌≡◌, ◌==◌, drop, nat_lt, length};
ghost use Rattle.std.specs.Str.{bytes_eq};
ghost use Rattle.orc_program.specs.Words.{size_of};
ghost use Rattle.orc_words.specs.Text.{words, word, prefix_of, looks_like_number, starts_with_dot};

use crate::scan::next_word;
use orc_program::words::{is_digit, is_same};

/// The word at a place, counted from 0; empty past the end.
#[tactic(auto, using(crate::proofs::Taking::word_next, crate::proofs::Taking::word_none))]
pub fn word(line: &[u8], place: usize) -> &[u8]
    ensures { result.now ≡ word (words line.now) place }
{
    let Some((first, rest)) = next_word(line) else {
        return &[];
    };
    if place == 0 {
        return first;
    }
    word(rest, place - 1)
}

/// What follows the first words of a line.
#[tactic(auto, using(crate::proofs::Taking::drop_next))]
pub fn after(line: &[u8], count: usize) -> &[u8]
    ensures { words result.now ≡ drop count (words line.now) }
{
    if count == 0 {
        return line;
    }
    let Some((_, rest)) = next_word(line) else {
        return line;
    };
    after(rest, count - 1)
}

/// Whether a line has exactly this many words.
pub fn has_exactly(line: &[u8], count: usize) -> bool
    ensures { result ≡ (length (words line.now) == count) }
{
    let Some((_, rest)) = next_word(line) else {
        return count == 0;
    };
    if count == 0 {
        return false;
    }
    has_exactly(rest, count - 1)
}

/// Whether a line has fewer words than this.
pub fn has_fewer(line: &[u8], count: usize) -> bool
    ensures { result ≡ nat_lt (length (words line.now)) count }
{
    if count == 0 {
        return false;
    }
    let Some((_, rest)) = next_word(line) else {
        return true;
    };
    has_fewer(rest, count - 1)
}

/// The bytes of a size word.
pub fn size_of(word: &[u8]) -> Option<u8>
    ensures { result ≡ size_of word.now }
{
    if is_same(word, b"1") {
        Some(1)
    } else if is_same(word, b"2") {
        Some(2)
    } else if is_same(word, b"4") {
        Some(4)
    } else if is_same(word, b"8") {
        Some(8)
    } else {
        None
    }
}

/// The number of a prefix.
pub fn prefix_of(word: &[u8]) -> Option<u8>
    ensures { result ≡ prefix_of word.now }
{
    if is_same(word, b"x2") {
        Some(2)
    } else if is_same(word, b"x4") {
        Some(4)
    } else {
        None
    }
}

/// Whether a word is to be a number: it starts with a digit or `-`.
pub fn looks_like_number(word: &[u8]) -> bool
    ensures { result ≡ looks_like_number word.now }
{
    match word {
        [] => false,
        [b, ..] => *b == b'-' || is_digit(*b),
    }
}

/// Whether a word starts with a dot.
pub fn starts_with_dot(word: &[u8]) -> bool
    ensures { result ≡ starts_with_dot word.now }
{
    match word {
        [] => false,
        [b, ..] => *b == b'.',
    }
}
