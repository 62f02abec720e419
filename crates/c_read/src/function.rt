//! Functions.

ghost use Rattle.std.specs.Prelude.{◌≡◌, ◌++◌, ◌+◌, ◌≤◌, ◌<◌, ◌^◌, length, drop, option_map, IfOk, IfSome, suc};
ghost use Rattle.std.specs.List.{AllByRecursion};
ghost use Rattle.std.specs.Fmt.{decimal};
ghost use Rattle.c_emit.specs.Text.{line_text};
ghost use Rattle.c_read.specs.Guess.{is_array, is_param, next_at, counts_at, no_counts, is_temp, temps_at, past, function_at, functions_at};

use crate::scan::{head, name, skip};
use crate::stmt::body;
use c_emit::Line;
use c_run::{CFunction, CFunctions};
use sqlite_items::Items;
use std::alloc::{AllocError, Global};

/// How many arrays, parameters and accumulators a function has.
#[derive(Clone, Copy, Debug, PartialEq, Eq)]
struct Counts {
    arrays: u8,
    params: u8,
    accs: u8,
}

/// How many digits a number has.
#[tactic(auto, using(crate::proofs::Lengths::one_digit, crate::proofs::Lengths::two_digits, crate::proofs::Lengths::three_digits))]
fn digits(k: u16) -> usize
    requires { k < 1000 }
    ensures count { result ≡ length (decimal k) }
    ensures few { result ≤ 3 }
{
    if k < 10 {
        1
    } else if k < 100 {
        2
    } else {
        3
    }
}

/// How long the text of a part with a number is.
fn line_len(part: Line, k: u16) -> usize
    requires { k < 1000 }
    ensures { result ≡ length (line_text part k) }
{
    match part {
        Line::Array => 29 + 2 * digits(k),
        Line::Param => 12 + digits(k),
        Line::Pointer => 13 + digits(k),
        Line::Temp | Line::Sum => 12 + digits(k),
        Line::Start => 10 + digits(k),
        Line::Store => 8 + 2 * digits(k),
    }
}

/// Whether an array stands after `, u`, and there may be one more.
fn is_array(c: Counts, bytes: &[u8]) -> bool
    ensures { result ≡ is_array c bytes.now }
{
    head(bytes) == 110 && c.arrays < 12 && c.params == 0 && c.accs == 0
}

/// Whether a parameter stands after `, u`, and there may be one more.
fn is_param(c: Counts, bytes: &[u8]) -> bool
    ensures { result ≡ is_param c bytes.now }
{
    head(skip(bytes, 8)) == 112 && c.params < 8 && c.accs == 0
}

/// One part more of the list of parameters, and the bytes after it.
#[tactic(auto, unfolding(crate::specs::Guess::next_at))]
fn next(c: Counts, bytes: &[u8]) -> Option<(Counts, &[u8])>
    requires arrays { c.arrays ≤ 12 }
    requires params { c.params ≤ 8 }
    requires accs { c.accs ≤ 4 }
    ensures read { option_map (λ x. (x.0, x.1.now)) result ≡ next_at c bytes.now }
    ensures arrays { IfSome result (λ x. x.0.arrays ≤ 12) }
    ensures params { IfSome result (λ x. x.0.params ≤ 8) }
    ensures accs { IfSome result (λ x. x.0.accs ≤ 4) }
{
    if head(bytes) != 44 {
        return None;
    }
    let Counts {
        arrays,
        params,
        accs,
    } = c;
    let mut more = c;
    let rest = skip(bytes, 3);
    if is_array(c, rest) {
        more.arrays = arrays + 1;
        return Some((more, skip(bytes, line_len(Line::Array, arrays as u16))));
    }
    if is_param(c, rest) {
        more.params = params + 1;
        return Some((more, skip(bytes, line_len(Line::Param, params as u16))));
    }
    if accs < 4 {
        more.accs = accs + 1;
        return Some((more, skip(bytes, line_len(Line::Pointer, accs as u16))));
    }
    None
}

/// The parts of the list of parameters, and the bytes after them.
#[tactic(auto, unfolding(crate::specs::Guess::counts_at))]
fn count_parts(bytes: &[u8]) -> (Counts, &[u8])
    ensures read { (result.0, result.1.now) ≡ counts_at 24 no_counts bytes.now }
    ensures arrays { result.0.arrays ≤ 12 }
    ensures params { result.0.params ≤ 8 }
    ensures accs { result.0.accs ≤ 4 }
{
    let mut c = Counts {
        arrays: 0,
        params: 0,
        accs: 0,
    };
    let mut rest = bytes;
    let mut left: u8 = 24;
    'parts: while 0 < left {
        let Some((more, after)) = next(c, rest) else {
            return (c, rest);
        };
        c = more;
        rest = after;
        left -= 1;
    }
    (c, rest)
}

/// Whether a declaration of a `v` stands here.
fn is_temp(accs: u8, bytes: &[u8]) -> bool
    ensures { result ≡ is_temp accs bytes.now }
{
    if accs == 0 {
        head(bytes) == 117
    } else {
        head(skip(bytes, 9)) == 118
    }
}

/// How many declarations of a `v` stand here, at most n, and the bytes after them.
#[tactic(auto, unfolding(crate::specs::Guess::temps_at))]
fn temps(accs: u8, n: u16, bytes: &[u8]) -> (u16, &[u8])
    requires { n < 1000 }
    ensures read { (result.0, result.1.now) ≡ temps_at accs 0 n bytes.now }
    ensures within { result.0 ≤ n }
{
    let mut k: u16 = 0;
    let mut rest = bytes;
    let mut left = n;
    'temps: while 0 < left {
        if !is_temp(accs, rest) {
            return (k, rest);
        }
        rest = skip(rest, line_len(Line::Temp, k));
        k += 1;
        left -= 1;
    }
    (k, rest)
}

/// The bytes after n parts that are known.
#[tactic(auto, unfolding(crate::specs::Guess::past))]
fn past(part: Line, n: u8, bytes: &[u8]) -> &[u8]
    ensures { result.now ≡ past (line_text part) 0 n bytes.now }
{
    let mut k: u8 = 0;
    let mut rest = bytes;
    let mut left = n;
    'parts: while 0 < left {
        rest = skip(rest, line_len(part, k as u16));
        k += 1;
        left -= 1;
    }
    rest
}

/// A function with at most n statements, and the bytes after it.
#[tactic(auto, unfolding(crate::specs::Guess::function_at), using(crate::proofs::Kept::is_kept))]
fn function(alloc: Global, n: usize, bytes: &[u8]) -> Result<(CFunction, &[u8]), AllocError>
    ensures { IfOk result (λ x. (x.0, x.1.now) ≡ function_at n bytes.now) }
{
    let (name, rest) = name(skip(bytes, 9));
    let (c, rest) = count_parts(skip(rest, 21));
    let Counts {
        arrays,
        params,
        accs,
    } = c;
    let (temps, rest) = temps(accs, 256, skip(rest, 26));
    let loops = past(Line::Start, accs, past(Line::Sum, accs, rest));
    let rows = skip(loops, 16);
    let two_d = head(rows) == 109;
    let (body, rest) = body(alloc, n, skip(rows, 36))?;
    let f = CFunction {
        name,
        arrays,
        params,
        accs,
        temps,
        two_d,
        body,
    };
    Ok((f, skip(past(Line::Store, accs, skip(rest, 4)), 2)))
}

/// At most n functions, each with at most m statements.
#[tactic(auto, unfolding(crate::specs::Guess::functions_at))]
pub fn functions(alloc: Global, m: usize, n: usize, bytes: &[u8]) -> Result<CFunctions, AllocError>
    ensures { IfOk result (λ fs. fs ≡ (functions_at m n bytes.now).0) }
{
    let mut functions = Items::new(alloc);
    let mut rest = bytes;
    let mut left = n;
    'functions: while 0 < left {
        if rest.is_empty() {
            return Ok(functions);
        }
        let (one, after) = function(alloc, m, rest)?;
        functions.push(one)?;
        rest = after;
        left -= 1;
    }
    Ok(functions)
}
