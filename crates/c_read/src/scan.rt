//! Bytes, numbers and names at the front of a text.

ghost use Rattle.std.specs.Prelude.{◌≡◌, ◌<◌, ◌^◌, ◌≤◌, ◌&&◌, ◌+◌, ◌-◌, ◌*◌, drop, length, nat_le, nat_lt, Some, None, codes, if◌then◌else◌};
ghost use Rattle.orc_program.specs.Words.{is_digit, is_letter, is_name_byte};
ghost use Rattle.c_read.specs.Guess.{head, more_digits, number_at, name_len, name_at, size_of, size_at, index_at, byte_at};

use c_run::CIndex;
use orc_program::Name;

/// The first byte, and 0 where there is none.
pub fn head(bytes: &[u8]) -> u8
    ensures { result ≡ head bytes.now }
{
    match bytes {
        [] => 0,
        [b, ..] => *b,
    }
}

/// The bytes after the first n, of which there may be fewer.
pub fn skip(bytes: &[u8], n: usize) -> &[u8]
    ensures { result.now ≡ drop n bytes.now }
{
    if n <= bytes.len() { &bytes[n..] } else { &[] }
}

fn is_digit(b: u8) -> bool
    ensures { result ≡ is_digit b }
{
    48 <= b && b <= 57
}

/// The number with one digit more, where the byte is a digit, the number is not 0 and the bound allows it.
fn appended(bound: u64, n: u64, b: u8) -> Option<u64>
    ensures { result ≡ (if is_digit b && (nat_lt 0 n && nat_le (n * 10 + (b - 48)) bound) then Some (n * 10 + (b - 48)) else None) }
{
    if !is_digit(b) || n == 0 {
        return None;
    }
    let digit = (b - 48) as u128;
    let more = n as u128 * 10 + digit;
    if more <= bound as u128 {
        Some(more as u64)
    } else {
        None
    }
}

/// As many digits more as the bound allows.
#[tactic(auto, unfolding(crate::specs::Guess::more_digits))]
fn more_digits(bound: u64, first: u64, bytes: &[u8]) -> (u64, &[u8])
    requires { first ≤ bound }
    ensures read { (result.0, result.1.now) ≡ more_digits bound first bytes.now }
    ensures within { result.0 ≤ bound }
{
    let mut n = first;
    let mut rest = bytes;
    'digits: while let [b, more @ ..] = rest {
        let Some(next) = appended(bound, n, *b) else {
            return (n, rest);
        };
        n = next;
        rest = more;
    }
    (n, rest)
}

/// The decimal at the front, as far as it is within the bound, and the bytes after it.
#[tactic(auto, unfolding(crate::specs::Guess::number_at))]
pub fn number(bound: u64, bytes: &[u8]) -> (u64, &[u8])
    ensures read { (result.0, result.1.now) ≡ number_at bound bytes.now }
    ensures within { result.0 ≤ bound }
{
    let [b, rest @ ..] = bytes else {
        return (0, bytes);
    };
    if is_digit(*b) && (*b - 48) as u64 <= bound {
        more_digits(bound, (*b - 48) as u64, rest)
    } else {
        (0, bytes)
    }
}

fn is_name_byte(b: u8) -> bool
    ensures { result ≡ is_name_byte b }
{
    b == 95 || (65 <= b && b <= 90) || (97 <= b && b <= 122) || is_digit(b)
}

/// How many of the first bytes, at most n, can stand in a name.
#[tactic(auto, unfolding(crate::specs::Guess::name_len))]
fn name_len(n: usize, bytes: &[u8]) -> usize
    ensures found { result ≡ name_len n bytes.now }
    ensures within { result ≤ length bytes.now }
{
    if n == 0 {
        return 0;
    }
    match bytes {
        [b, rest @ ..] if is_name_byte(*b) => name_len(n - 1, rest) + 1,
        _ => 0,
    }
}

/// The name `_`.
fn underscore() -> Name
    ensures { result ≡ codes "_" }
{
    Name::new(b"_").unwrap()
}

/// The name at the front, `_` where there is none, and the bytes after it.
#[tactic(auto, unfolding(crate::specs::Guess::name_at))]
pub fn name(bytes: &[u8]) -> (Name, &[u8])
    ensures { (result.0, result.1.now) ≡ name_at bytes.now }
{
    let (front, rest) = bytes.split_at(name_len(64, bytes));
    match Name::new(front) {
        Some(name) => (name, rest),
        None => (underscore(), bytes),
    }
}

/// The size at the front, 1 where there is none, and the bytes after it.
#[tactic(auto, unfolding(crate::specs::Guess::size_at))]
fn size(bytes: &[u8]) -> (u8, &[u8])
    ensures { (result.0, result.1.now) ≡ size_at bytes.now }
{
    let size = match head(bytes) {
        50 => 2,
        52 => 4,
        56 => 8,
        _ => 1,
    };
    (size, skip(bytes, 1))
}

/// The number of a variable, and the bytes after it.
pub fn variable(bytes: &[u8]) -> (u8, &[u8])
    ensures { (result.0, result.1.now) ≡ number_at 255 bytes.now }
{
    let (d, rest) = number(255, bytes);
    (d as u8, rest)
}

/// The offset of a byte in its element, and the bytes after it.
fn offset(bytes: &[u8]) -> (u8, &[u8])
    ensures { (result.0, result.1.now) ≡ number_at 7 bytes.now }
{
    let (k, rest) = number(7, bytes);
    (k as u8, rest)
}

/// An index, and the bytes after it.
#[tactic(auto, unfolding(crate::specs::Guess::index_at))]
fn index(bytes: &[u8]) -> (CIndex, &[u8])
    ensures { (result.0, result.1.now) ≡ index_at bytes.now }
{
    let (stride, rest) = variable(skip(bytes, 6));
    let (size, rest) = size(skip(rest, 9));
    let (offset, rest) = offset(skip(rest, 4));
    (
        CIndex {
            stride,
            size,
            offset,
        },
        rest,
    )
}

/// An array's number and the index in brackets, after `a`, and the bytes after it.
#[tactic(auto, unfolding(crate::specs::Guess::byte_at))]
pub fn byte(bytes: &[u8]) -> (u8, CIndex, &[u8])
    ensures { ((result.0, result.1), result.2.now) ≡ byte_at bytes.now }
{
    let (array, rest) = variable(bytes);
    let (index, rest) = index(skip(rest, 1));
    (array, index, skip(rest, 1))
}
