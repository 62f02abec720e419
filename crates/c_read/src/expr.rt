//! Expressions.

ghost use Rattle.std.specs.Prelude.{◌≡◌, ◌<◌, nat_lt, length, IfOk};
ghost use Rattle.c_emit.specs.Text.{op_text, cmp_text};
ghost use Rattle.c_read.specs.Guess.{op_of, cmp_of, two_at, choose_at, after_first, pair_at, compared_at, test_at, cast_at, constant_at, paren_at, level_at, expr_at};

use crate::scan::{byte, head, number, skip, variable};
use c_run::{CCmp, CExpr, COp};
use sqlite_items::Boxed;
use std::alloc::{AllocError, Global};

/// The operator that a byte begins.
fn op_of(b: u8) -> COp
    ensures { result ≡ op_of b }
{
    match b {
        45 => COp::Sub,
        42 => COp::Mul,
        47 => COp::Div,
        38 => COp::And,
        124 => COp::Or,
        94 => COp::Xor,
        60 => COp::Shl,
        62 => COp::Shr,
        _ => COp::Add,
    }
}

/// How long an operator's text is.
fn op_len(op: COp) -> usize
    ensures { result ≡ length (op_text op) }
{
    match op {
        COp::Shl | COp::Shr => 2,
        _ => 1,
    }
}

/// The comparison that a byte begins.
fn cmp_of(b: u8) -> CCmp
    ensures { result ≡ cmp_of b }
{
    if b == 61 { CCmp::Equal } else { CCmp::Less }
}

/// How long a comparison's text is.
fn cmp_len(cmp: CCmp) -> usize
    ensures { result ≡ length (cmp_text cmp) }
{
    match cmp {
        CCmp::Less => 1,
        CCmp::Equal => 2,
    }
}

/// The second operand, after an operator.
#[cycle(exprs)]
#[tactic(auto, unfolding(crate::specs::Guess::two_at))]
fn two(
    alloc: Global,
    levels: u8,
    op: COp,
    a: CExpr,
    bytes: &[u8],
) -> Result<(CExpr, &[u8]), AllocError>
    requires { 0 < levels }
    ensures { IfOk result (λ x. (x.0, x.1.now) ≡ two_at (expr_at levels) op a bytes.now) }
{
    let (b, rest) = expr(alloc, levels, skip(skip(bytes, op_len(op)), 1))?;
    let e = CExpr::Two(op, Boxed::new(alloc, a)?, Boxed::new(alloc, b)?);
    Ok((e, skip(rest, 1)))
}

/// Both branches, after a condition.
#[cycle(exprs)]
#[tactic(auto, unfolding(crate::specs::Guess::choose_at))]
fn choose(alloc: Global, levels: u8, c: CExpr, bytes: &[u8]) -> Result<(CExpr, &[u8]), AllocError>
    requires { 0 < levels }
    ensures { IfOk result (λ x. (x.0, x.1.now) ≡ choose_at (expr_at levels) c bytes.now) }
{
    let (a, rest) = expr(alloc, levels, skip(bytes, 2))?;
    let (b, rest) = expr(alloc, levels, skip(rest, 3))?;
    let e = CExpr::Choose(
        Boxed::new(alloc, c)?,
        Boxed::new(alloc, a)?,
        Boxed::new(alloc, b)?,
    );
    Ok((e, skip(rest, 1)))
}

/// What stands after `(`, where it is no cast: two operands and an operator, or a choice.
#[cycle(exprs)]
#[tactic(auto, unfolding(crate::specs::Guess::pair_at, crate::specs::Guess::after_first))]
fn pair(alloc: Global, levels: u8, bytes: &[u8]) -> Result<(CExpr, &[u8]), AllocError>
    requires { 0 < levels }
    ensures { IfOk result (λ x. (x.0, x.1.now) ≡ pair_at (expr_at levels) bytes.now) }
{
    let (a, rest) = expr(alloc, levels, bytes)?;
    let rest = skip(rest, 1);
    if head(rest) == 63 {
        choose(alloc, levels, a, rest)
    } else {
        two(alloc, levels, op_of(head(rest)), a, rest)
    }
}

/// What stands after `(uint64_t)(`: two operands and a comparison.
#[cycle(exprs)]
#[tactic(auto, unfolding(crate::specs::Guess::test_at, crate::specs::Guess::compared_at))]
fn test(alloc: Global, levels: u8, bytes: &[u8]) -> Result<(CExpr, &[u8]), AllocError>
    requires { 0 < levels }
    ensures { IfOk result (λ x. (x.0, x.1.now) ≡ test_at (expr_at levels) bytes.now) }
{
    let (a, rest) = expr(alloc, levels, bytes)?;
    let rest = skip(rest, 1);
    let cmp = cmp_of(head(rest));
    let (b, rest) = expr(alloc, levels, skip(skip(rest, cmp_len(cmp)), 1))?;
    let e = CExpr::Test(cmp, Boxed::new(alloc, a)?, Boxed::new(alloc, b)?);
    Ok((e, skip(rest, 1)))
}

/// A number, after `(uint64_t)`.
#[tactic(auto, unfolding(crate::specs::Guess::constant_at))]
fn constant(bytes: &[u8]) -> (CExpr, &[u8])
    ensures { (result.0, result.1.now) ≡ constant_at bytes.now }
{
    let (n, rest) = number(u64::MAX, bytes);
    (CExpr::Number(n), skip(rest, 3))
}

/// What stands after `(uint64_t)`.
#[cycle(exprs)]
#[tactic(auto, unfolding(crate::specs::Guess::cast_at))]
fn cast(alloc: Global, levels: u8, bytes: &[u8]) -> Result<(CExpr, &[u8]), AllocError>
    ensures { IfOk result (λ x. (x.0, x.1.now) ≡ cast_at (nat_lt 0 levels) (expr_at levels) bytes.now) }
{
    match head(bytes) {
        97 => {
            let (d, x, rest) = byte(skip(bytes, 1));
            Ok((CExpr::Byte(d, x), rest))
        }
        40 if 0 < levels => test(alloc, levels, skip(bytes, 1)),
        _ => Ok(constant(bytes)),
    }
}

/// What stands after `(`.
#[cycle(exprs)]
#[tactic(auto, unfolding(crate::specs::Guess::paren_at))]
fn paren(alloc: Global, levels: u8, bytes: &[u8]) -> Result<(CExpr, &[u8]), AllocError>
    ensures { IfOk result (λ x. (x.0, x.1.now) ≡ paren_at (nat_lt 0 levels) (expr_at levels) bytes.now) }
{
    if head(bytes) == 117 || levels == 0 {
        cast(alloc, levels, skip(bytes, 9))
    } else {
        pair(alloc, levels, bytes)
    }
}

/// An expression of at most so many levels, as the bytes suggest it, and the bytes after it.
#[cycle(exprs)]
#[tactic(auto, using(crate::proofs::Levels::one_level), unfolding(crate::specs::Guess::level_at))]
pub fn expr(alloc: Global, levels: u8, bytes: &[u8]) -> Result<(CExpr, &[u8]), AllocError>
    requires { 0 < levels }
    ensures { IfOk result (λ x. (x.0, x.1.now) ≡ expr_at levels bytes.now) }
{
    let rest = skip(bytes, 1);
    match head(bytes) {
        118 => {
            let (d, rest) = variable(rest);
            Ok((CExpr::V(d), rest))
        }
        119 => {
            let (d, rest) = variable(rest);
            Ok((CExpr::W(d), rest))
        }
        112 => {
            let (d, rest) = variable(rest);
            Ok((CExpr::P(d), rest))
        }
        40 => paren(alloc, levels - 1, rest),
        _ => Ok((CExpr::V(0), bytes)),
    }
}
