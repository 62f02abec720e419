//! The words after a variable's name, and after `.n` and `.m`.

ghost use Rattle.std.specs.Prelude.{◌≡◌, ◌<◌, [], not, ◌||◌, length, MatchOption};
ghost use Rattle.std.specs.List.{list_any};
ghost use Rattle.orc_program.specs.Words.{is_align, is_count_word, is_alphabetic};
ghost use Rattle.orc_program.specs.Notes.{is_align_number, ends_in_align, has_bad_align, ends_in_count_word, starts_alphabetic, is_strange, is_number, has_bad_count};
ghost use Rattle.orc_words.specs.Text.{words};

use crate::scan::next_word;
use orc_program::words::{is_align, is_align_number, is_count_word, number_of};

/// Whether the last word is `align`.
#[tactic(auto, using(crate::proofs::Passing::ends_align))]
pub fn ends_in_align(line: &[u8]) -> bool
    ensures { result ≡ ends_in_align (words line.now) }
{
    let mut last = false;
    let mut rest = line;
    while let Some((word, after)) = next_word(rest) {
        last = is_align(word);
        rest = after;
    }
    last
}

/// Whether a word after `align` is no power of two from 1 to 4096. That word isn't looked at again.
#[tactic(auto, using(crate::proofs::Passing::other_align))]
pub fn has_bad_align(line: &[u8]) -> bool
    ensures { result ≡ has_bad_align (words line.now) }
{
    let mut rest = line;
    while let Some((word, after)) = next_word(rest) {
        rest = after;
        if is_align(word) {
            let Some((number, after)) = next_word(rest) else {
                return false;
            };
            if !is_align_number(number_of(number)) {
                return true;
            }
            rest = after;
        }
    }
    false
}

/// Whether the last word is `mult`, `min` or `max`.
#[tactic(auto, using(crate::proofs::Passing::ends_count))]
pub fn ends_in_count_word(line: &[u8]) -> bool
    ensures { result ≡ ends_in_count_word (words line.now) }
{
    let mut last = false;
    let mut rest = line;
    while let Some((word, after)) = next_word(rest) {
        last = is_count_word(word);
        rest = after;
    }
    last
}

/// A letter of the alphabet.
fn is_alphabetic(b: u8) -> bool
    ensures { result ≡ is_alphabetic b }
{
    (65 <= b && b <= 90) || (97 <= b && b <= 122)
}

/// Whether the first byte is a letter of the alphabet.
fn starts_alphabetic(word: &[u8]) -> bool
    ensures { result ≡ starts_alphabetic word.now }
{
    match word {
        [] => false,
        [b, ..] => is_alphabetic(*b),
    }
}

/// Whether a word starts with a letter and is none of `mult`, `min` and `max`.
fn is_strange(word: &[u8]) -> bool
    ensures { result ≡ is_strange word.now }
{
    starts_alphabetic(word) && !is_count_word(word)
}

/// Whether one of a line's words starts with a letter and is none of `mult`, `min` and `max`.
pub fn has_strange(line: &[u8]) -> bool
    ensures { result ≡ list_any is_strange (words line.now) }
{
    let mut rest = line;
    while let Some((word, after)) = next_word(rest) {
        if is_strange(word) {
            return true;
        }
        rest = after;
    }
    false
}

/// Whether a word is a number word.
pub fn is_number(word: &[u8]) -> bool
    ensures { result ≡ is_number word.now }
{
    number_of(word).is_some()
}

/// The next word that stands for a number, and what follows it: the word after `mult`, `min` or `max`, and else the word itself.
#[tactic(auto, using(crate::proofs::Passing::other_count))]
fn next_count(line: &[u8]) -> Option<(&[u8], &[u8])>
    ensures bad { MatchOption result (words line.now ≡ []) (λ x. has_bad_count (words line.now) ≡ not (is_number x.0.now) || has_bad_count (words x.1.now)) }
    ensures less { MatchOption result (words line.now ≡ []) (λ x. length (words x.1.now) < length (words line.now)) }
{
    let Some((word, rest)) = next_word(line) else {
        return None;
    };
    if !is_count_word(word) {
        return Some((word, rest));
    }
    match next_word(rest) {
        Some((number, after)) => Some((number, after)),
        None => Some((word, rest)),
    }
}

/// Whether a word that is to be a number is none.
pub fn has_bad_count(line: &[u8]) -> bool
    ensures { result ≡ has_bad_count (words line.now) }
{
    let mut rest = line;
    while let Some((number, after)) = next_count(rest) {
        if !is_number(number) {
            return true;
        }
        rest = after;
    }
    false
}
