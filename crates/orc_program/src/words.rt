//! Words of a line, by their bytes: number words, and words that have a meaning after a name or a count.

ghost use Rattle.std.specs.Prelude.{◌≡◌, ℕ, ◌+◌, ◌*◌, ◌<◌, ◌≤◌, ◌^◌, Some, None, SomeIff, option_and_then};
ghost use Rattle.std.specs.List.{list_all};
ghost use Rattle.std.specs.Str.{bytes_eq};
ghost use Rattle.orc_program.specs.Words.{without, is_digit, is_hex, digit, value_in, hex_natural, zero_or_hex, natural, positive, negative, number_of};
ghost use Rattle.orc_program.specs.Words.{is_align, is_count_word};
ghost use Rattle.orc_program.specs.Notes.{is_align_number};

/// Whether two words are one.
pub fn is_same(a: &[u8], b: &[u8]) -> bool
    ensures { result ≡ bytes_eq a.now b.now }
{
    a == b
}

/// The bytes without one `last` at their end.
#[tactic(auto, using(crate::proofs::Shortened::without_yes, crate::proofs::Shortened::without_no))]
pub fn without(last: u8, bytes: &[u8]) -> &[u8]
    ensures { result.now ≡ without last bytes.now }
{
    let n = bytes.len();
    if n > 0 && bytes[n - 1] == last {
        return &bytes[..n - 1];
    }
    bytes
}

/// 0 to 9.
pub fn is_digit(b: u8) -> bool
    ensures { result ≡ is_digit b }
{
    48 <= b && b <= 57
}

/// A hexadecimal digit of either case.
fn is_hex(b: u8) -> bool
    ensures { result ≡ is_hex b }
{
    is_digit(b) || (65 <= b && b <= 70) || (97 <= b && b <= 102)
}

/// What a digit stands for.
fn digit(b: u8) -> u64
    ensures { result ≡ digit b }
{
    if b <= 57 {
        u64::from(b.saturating_sub(48))
    } else if b <= 70 {
        u64::from(b - 55)
    } else {
        u64::from(b.saturating_sub(87))
    }
}

fn all_digits(bytes: &[u8]) -> bool
    ensures { result ≡ list_all is_digit bytes.now }
{
    bytes.iter().all(|b| is_digit(*b))
}

fn all_hex(bytes: &[u8]) -> bool
    ensures { result ≡ list_all is_hex bytes.now }
{
    bytes.iter().all(|b| is_hex(*b))
}

/// The product and the digit's sum, where it is below 2^64.
fn product(so_far: u64, base: u64, d: u64) -> Option<u64>
    ensures { result ≡ positive (so_far * base + d) }
{
    let product = so_far.checked_mul(base)?;
    product.checked_add(d)
}

/// The value with one more digit, where it is below 2^64.
fn step(so_far: Option<u64>, base: u64, d: u64) -> Option<u64>
    requires { 0 < base }
    ensures { (n : ℕ) → so_far ≡ positive n → result ≡ positive (n * base + d) }
{
    match so_far {
        Some(n) => product(n, base, d),
        None => None,
    }
}

/// The value of the digits, where it is below 2^64.
fn value(digits: &[u8], base: u64) -> Option<u64>
    requires { 0 < base }
    ensures { result ≡ positive (value_in base digits.now) }
{
    let mut so_far = Some(0);
    for b in digits {
        so_far = step(so_far, base, digit(*b));
    }
    so_far
}

/// The number of hexadecimal digits, of which there has to be one.
fn hex_value(digits: &[u8]) -> Option<u64>
    ensures { result ≡ option_and_then positive (hex_natural digits.now) }
{
    match digits {
        [] => None,
        [d, rest @ ..] => {
            if is_hex(*d) && all_hex(rest) {
                value(digits, 16)
            } else {
                None
            }
        }
    }
}

/// What stands after a leading 0: nothing, or x and hexadecimal digits.
fn zero_or_hex(digits: &[u8]) -> Option<u64>
    ensures { result ≡ option_and_then positive (zero_or_hex digits.now) }
{
    match digits {
        [] => Some(0),
        [x, rest @ ..] => { if *x == b'x' { hex_value(rest) } else { None } }
    }
}

/// The number of a word without a sign, where it is below 2^64.
fn natural(digits: &[u8]) -> Option<u64>
    ensures { result ≡ option_and_then positive (natural digits.now) }
{
    match digits {
        [] => None,
        [d, rest @ ..] => {
            if *d == b'0' {
                zero_or_hex(rest)
            } else if is_digit(*d) && all_digits(rest) {
                value(digits, 10)
            } else {
                None
            }
        }
    }
}

/// A number with a minus before it, modulo 2^64.
fn negated(n: u64) -> Option<u64>
    ensures { result ≡ negative n }
{
    if n <= 0x8000_0000_0000_0000 {
        Some(n.wrapping_neg())
    } else {
        None
    }
}

/// The number that a word stands for, modulo 2^64.
#[tactic(auto, unfolding(crate::specs::Words::number_of))]
pub fn number_of(word: &[u8]) -> Option<u64>
    ensures { result ≡ number_of word.now }
{
    match word {
        [] => None,
        [b'-', rest @ ..] => {
            let n = natural(without(b'L', rest))?;
            negated(n)
        }
        _ => natural(without(b'L', word)),
    }
}

/// The word `align`.
pub fn is_align(word: &[u8]) -> bool
    ensures { result ≡ is_align word.now }
{
    is_same(word, b"align")
}

/// Whether a number is a power of two from 1 to 4096.
pub fn is_align_number(number: Option<u64>) -> bool
    ensures { result ≡ is_align_number number }
{
    matches!(
        number,
        Some(1 | 2 | 4 | 8 | 16 | 32 | 64 | 128 | 256 | 512 | 1024 | 2048 | 4096)
    )
}

/// `mult`, `min` or `max`, each of which a number follows.
pub fn is_count_word(word: &[u8]) -> bool
    ensures { result ≡ is_count_word word.now }
{
    is_same(word, b"mult") || is_same(word, b"min") || is_same(word, b"max")
}
