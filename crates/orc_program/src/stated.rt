//! Facts of the caller: what `.n`, `.m` and the `align` of arrays state of every call.

ghost use Rattle.std.specs.Prelude.{◌≡◌, ◌==◌, ◌<◌, ◌≤◌, ◌+◌, ◌++◌, ℕ, true, IfSome, fold, length};
ghost use Rattle.std.specs.List.{list_all};
ghost use Rattle.orc_program.specs.Words.{number_of};
ghost use Rattle.orc_program.specs.Program.{array_count, count_of};
ghost use Rattle.orc_program.specs.Facts.{meets, least_multiple, same_claim, claim_of, claims, later, stated, within, line_states, note_states, align_words, align_number, align_of, aligns_among, facts_of, is_facts, ones, free_facts, is_free_count, is_free};

use crate::known::{CountFacts, Facts};
use crate::program::{Function, Var, VarKind, Word, Words};
use crate::variables::same_kind;
use crate::words::{is_align, is_align_number, is_count_word, is_same, number_of};
use arrayvec::ArrayVec;

/// What a number of a `.n` or `.m` line says of a count.
#[derive(Clone, Copy, Debug, PartialEq, Eq)]
pub(crate) enum Claim {
    /// It is the count.
    Exact,
    /// It divides the count.
    Multiple,
    /// It is the least count.
    Least,
    /// It is the greatest count.
    Greatest,
}

/// The greatest count of elements or rows.
pub const MOST_COUNT: u32 = 0x7fff_ffff;

/// Nothing is known of a count.
const FREE: CountFacts = CountFacts {
    exact: 0,
    mult: 1,
    min: 0,
    max: MOST_COUNT,
};

fn same_claim(a: Claim, b: Claim) -> bool
    ensures { result ≡ same_claim a b }
{
    a == b
}

/// What `mult`, `min` or `max` says of the number behind it.
fn claim_of(word: &[u8]) -> Claim
    ensures { result ≡ claim_of word.now }
{
    if is_same(word, b"mult") {
        Claim::Multiple
    } else if is_same(word, b"min") {
        Claim::Least
    } else {
        Claim::Greatest
    }
}

/// Of numbers that make a claim, the later one.
fn later(claim: Claim, last: Option<u64>, said: Claim, number: &[u8]) -> Option<u64>
    ensures { result ≡ later claim last (said, number.now) }
{
    if same_claim(claim, said) {
        number_of(number)
    } else {
        last
    }
}

/// The last of a line's numbers that makes this claim, after a last one of the words before.
fn last_of(claim: Claim, words: &[Word], last: Option<u64>) -> Option<u64>
    ensures { result ≡ fold (later claim) last (claims words.now) }
{
    match words {
        [] => last,
        [word] => later(claim, last, Claim::Exact, word.as_slice()),
        [word, number, rest @ ..] => {
            if is_count_word(word.as_slice()) {
                let last = later(claim, last, claim_of(word.as_slice()), number.as_slice());
                last_of(claim, rest, last)
            } else {
                let last = later(claim, last, Claim::Exact, word.as_slice());
                last_of(claim, &words[1..], last)
            }
        }
    }
}

/// What a line claims: the last number of this kind, where it is from 1 to 2^31 - 1.
fn stated(claim: Claim, words: &[Word]) -> Option<u32>
    ensures value { result ≡ stated claim words.now }
    ensures some { IfSome result (λ n. 1 ≤ n) }
{
    match last_of(claim, words, None) {
        Some(n) if 1 <= n && n <= u64::from(MOST_COUNT) => Some(n as u32),
        _ => None,
    }
}

/// The least multiple that isn't below a number.
pub fn least_multiple(mult: u32, n: u32) -> u64
    requires { 1 ≤ mult }
    ensures value { result ≡ least_multiple mult n }
    ensures near { result < n + mult }
{
    let mult = u64::from(mult);
    mult * ((u64::from(n) + (mult - 1)) / mult)
}

/// A divisor and bounds, which state nothing where no count meets them.
fn within(mult: u32, min: u32, max: u32) -> CountFacts
    requires { 1 ≤ mult }
    ensures { result ≡ within mult min max }
{
    if u64::from(max) < least_multiple(mult, min) {
        return FREE;
    }
    CountFacts {
        exact: 0,
        mult,
        min,
        max,
    }
}

/// What the words of a `.n` or `.m` line state.
fn line_states(words: &[Word]) -> CountFacts
    ensures { result ≡ line_states words.now }
{
    if let Some(exact) = stated(Claim::Exact, words) {
        return CountFacts { exact, ..FREE };
    }
    let mult = stated(Claim::Multiple, words).unwrap_or(1);
    let min = stated(Claim::Least, words).unwrap_or(0);
    let max = stated(Claim::Greatest, words).unwrap_or(MOST_COUNT);
    within(mult, min, max)
}

fn note_states(note: &Option<Words>) -> CountFacts
    ensures { result ≡ note_states note.now }
{
    match note {
        Some(words) => line_states(words.as_slice()),
        None => FREE,
    }
}

/// The number of a word behind `align`.
fn align_number(number: Option<u64>) -> u16
    ensures { result ≡ align_number number }
{
    match number {
        Some(n) if is_align_number(Some(n)) => n as u16,
        _ => 1,
    }
}

/// The last align of an array's words, after a last one of the words before.
fn last_align(words: &[Word], last: u16) -> u16
    ensures { result ≡ fold (λ last w. align_number (number_of w)) last (align_words words.now) }
{
    match words {
        [] | [_] => last,
        [word, number, rest @ ..] => {
            if is_align(word.as_slice()) {
                last_align(rest, align_number(number_of(number.as_slice())))
            } else {
                last_align(&words[1..], last)
            }
        }
    }
}

/// The align of an array with these words after its name.
fn align_of(words: &Words) -> u16
    ensures { result ≡ align_of words.now }
{
    last_align(words.as_slice(), 1)
}

/// Adds the aligns of the variables of a kind.
fn add_aligns(aligns: &mut ArrayVec<u16, 12>, vars: &[Var], kind: VarKind)
    requires { length aligns.old.items + count_of kind vars.now ≤ 12 }
    ensures { aligns.new.items ≡ aligns.old.items ++ aligns_among kind vars.now }
{
    let [var, rest @ ..] = vars else {
        return;
    };
    if same_kind(kind, var.kind) {
        aligns.push(align_of(&var.words));
    }
    add_aligns(aligns, rest, kind)
}

/// What is known of every call of a function. From a `.n` or `.m` line the last plain number, the last `mult`, the last `min` and the last
/// `max` count, each only where it is from 1 to 2^31 - 1. With an exact number the other three are free, and the line states nothing where
/// no count meets them. `.m` states nothing where the function has no rows. An array's align is its last `align`, else 1.
#[tactic(auto, unfolding(crate::specs::Facts::facts_of))]
pub fn facts(f: &Function) -> Facts
    ensures value { result ≡ facts_of f.now }
    // Some count meets what is stated of n, and some count what is stated of m.
    ensures met_n { (c : ℕ) × (meets result.n c ≡ true) }
    ensures met_m { (c : ℕ) × (meets result.m c ≡ true) }
    ensures kept { is_facts f.now.two_d (array_count f.now.vars) result ≡ true }
{
    let mut aligns = ArrayVec::new();
    add_aligns(&mut aligns, f.vars.as_slice(), VarKind::Dest);
    add_aligns(&mut aligns, f.vars.as_slice(), VarKind::Source);
    Facts {
        n: note_states(&f.notes.n),
        m: if f.two_d {
            note_states(&f.notes.m)
        } else {
            FREE
        },
        aligns,
    }
}

fn is_free_count(facts: CountFacts) -> bool
    ensures { result ≡ is_free_count facts }
{
    facts.exact == 0 && facts.mult == 1 && facts.min == 0 && facts.max == MOST_COUNT
}

/// So many aligns of 1.
#[tactic(auto, using(crate::proofs::FactLaws::ones_length, crate::proofs::FactLaws::ones_more))]
fn ones(count: usize) -> ArrayVec<u16, 12>
    requires { count ≤ 12 }
    ensures { result.items ≡ ones count }
{
    let mut aligns = ArrayVec::new();
    for _ in 0..count {
        aligns.push(1);
    }
    aligns
}

fn are_free(aligns: &[u16]) -> bool
    ensures { result ≡ list_all (λ a. a == 1) aligns.now }
{
    aligns.iter().all(|align| *align == 1)
}

/// Nothing is known of calls with so many arrays.
pub fn free_facts(arrays: usize) -> Facts
    requires { arrays ≤ 12 }
    ensures { result ≡ free_facts arrays }
{
    Facts {
        n: FREE,
        m: FREE,
        aligns: ones(arrays),
    }
}

/// Whether nothing is known of any call.
pub fn is_free(facts: &Facts) -> bool
    ensures { result ≡ is_free facts.now }
{
    is_free_count(facts.n) && is_free_count(facts.m) && are_free(facts.aligns.as_slice())
}
