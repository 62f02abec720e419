//! Lines and words, one after the other.

ghost use Rattle.std.specs.Prelude.{◌≡◌, ◌<◌, [], ◌∷◌, false, length, MatchOption, ◌==◌, not, position};
ghost use Rattle.std.specs.List.{list_any, before_first};
ghost use Rattle.orc_program.specs.Words.{without};
ghost use Rattle.orc_words.specs.Text.{lines, content, words, parts_words, is_bad_byte, is_hash};

use orc_program::words::without;

/// The place of the first byte 10.
fn line_end(bytes: &[u8]) -> Option<usize>
    ensures { result ≡ position (λ b. b == 10) bytes.now }
{
    bytes.iter().position(|b| *b == b'\n')
}

/// The first line, and what follows it.
#[tactic(auto, using(crate::proofs::Places::line_at, crate::proofs::Places::last_line))]
pub fn next_line(bytes: &[u8]) -> (&[u8], &[u8])
    requires { 0 < length bytes.now }
    ensures line { lines bytes.now ≡ result.0.now ∷ lines result.1.now }
    ensures less { length result.1.now < length bytes.now }
{
    match line_end(bytes) {
        Some(i) => (&bytes[..i], &bytes[i + 1..]),
        None => (bytes, &[]),
    }
}

/// The place where a comment begins.
fn comment_start(line: &[u8]) -> Option<usize>
    ensures { result ≡ position (λ b. b == 35) line.now }
{
    line.iter().position(|b| *b == b'#')
}

/// The bytes before the first `#`.
#[tactic(auto, using(crate::proofs::Places::before_at, crate::proofs::Places::before_none))]
fn without_comment(line: &[u8]) -> &[u8]
    ensures { result.now ≡ before_first is_hash line.now }
{
    match comment_start(line) {
        Some(i) => &line[..i],
        None => line,
    }
}

/// What remains of a line: without one byte 13 at its end, and then up to its first `#`.
#[tactic(auto, using(crate::proofs::Clean::no_hash))]
pub fn content(line: &[u8]) -> &[u8]
    ensures value { result.now ≡ content line.now }
    ensures clean { list_any is_hash result.now ≡ false }
{
    without_comment(without(b'\r', line))
}

/// Space, tab and comma.
fn parts_words(b: u8) -> bool
    ensures { result ≡ parts_words b }
{
    b == b' ' || b == b'\t' || b == b','
}

/// The place of the first byte of a word.
fn word_start(line: &[u8]) -> Option<usize>
    ensures { result ≡ position (λ b. not (parts_words b)) line.now }
{
    line.iter().position(|b| !parts_words(*b))
}

/// The place of the first byte between words.
fn word_end(line: &[u8]) -> Option<usize>
    ensures { result ≡ position parts_words line.now }
{
    line.iter().position(|b| parts_words(*b))
}

/// The first word, and what follows it.
pub fn next_word(line: &[u8]) -> Option<(&[u8], &[u8])>
    ensures { MatchOption result (words line.now ≡ []) (λ x. words line.now ≡ x.0.now ∷ words x.1.now) }
{
    match word_start(line) {
        None => None,
        Some(start) => {
            let rest = &line[start..];
            match word_end(rest) {
                Some(end) => Some((&rest[..end], &rest[end..])),
                None => Some((rest, &[])),
            }
        }
    }
}

/// A byte outside 32 to 126 that is no tab.
fn is_bad_byte(b: u8) -> bool
    ensures { result ≡ is_bad_byte b }
{
    b != b'\t' && (b < 32 || b > 126)
}

/// Whether one of a line's bytes may stand in no line.
pub fn has_bad_byte(line: &[u8]) -> bool
    ensures { result ≡ list_any is_bad_byte line.now }
{
    line.iter().any(|b| is_bad_byte(*b))
}
