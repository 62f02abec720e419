//! Statements.

ghost use Rattle.std.specs.Prelude.{◌≡◌, IfOk};
ghost use Rattle.std.specs.List.{AllByRecursion};
ghost use Rattle.c_run.specs.declared.tree.CStmt.TheVariants.{SetV, SetW, SetByte};
ghost use Rattle.c_read.specs.Limits.{IsStmt};
ghost use Rattle.c_read.specs.Guess.{set_at, set_byte_at, stmt_at, starts_stmt, body_at};

use crate::expr::expr;
use crate::scan::{byte, head, skip, variable};
use c_run::{CBody, CExpr, CStmt};
use sqlite_items::Items;
use std::alloc::{AllocError, Global};

/// Levels of the deepest expression: one more than its depth.
const LEVELS: u8 = 101;

/// A variable's number and the expression that is assigned to it, after the variable's letter, and the bytes after them.
#[tactic(auto, unfolding(crate::specs::Guess::set_at))]
fn assigned(alloc: Global, bytes: &[u8]) -> Result<(u8, CExpr, &[u8]), AllocError>
    ensures v { IfOk result (λ x. (SetV x.0 x.1, x.2.now) ≡ set_at SetV bytes.now) }
    ensures w { IfOk result (λ x. (SetW x.0 x.1, x.2.now) ≡ set_at SetW bytes.now) }
{
    let (d, rest) = variable(bytes);
    let (e, rest) = expr(alloc, LEVELS, skip(rest, 3))?;
    Ok((d, e, skip(rest, 2)))
}

/// An assignment to an array's byte, after `a`, and the bytes after it.
#[tactic(auto, unfolding(crate::specs::Guess::set_byte_at))]
fn assigned_byte(alloc: Global, bytes: &[u8]) -> Result<(CStmt, &[u8]), AllocError>
    ensures { IfOk result (λ x. (x.0, x.1.now) ≡ set_byte_at bytes.now) }
{
    let (d, x, rest) = byte(bytes);
    let (e, rest) = expr(alloc, LEVELS, skip(rest, 19))?;
    Ok((CStmt::SetByte(d, x, e), skip(rest, 12)))
}

/// A statement that starts with `v`, `w` or `a`, and the bytes after it.
#[tactic(auto, unfolding(crate::specs::Guess::stmt_at))]
fn stmt(alloc: Global, bytes: &[u8]) -> Result<(CStmt, &[u8]), AllocError>
    ensures { IfOk result (λ x. (x.0, x.1.now) ≡ stmt_at bytes.now) }
{
    let rest = skip(bytes, 1);
    match head(bytes) {
        118 => {
            let (d, e, rest) = assigned(alloc, rest)?;
            Ok((CStmt::SetV(d, e), rest))
        }
        119 => {
            let (d, e, rest) = assigned(alloc, rest)?;
            Ok((CStmt::SetW(d, e), rest))
        }
        _ => assigned_byte(alloc, rest),
    }
}

/// Whether a statement starts with this byte.
fn starts_stmt(b: u8) -> bool
    ensures { result ≡ starts_stmt b }
{
    b == 118 || b == 119 || b == 97
}

/// At most n statements, and the bytes after them.
#[tactic(auto, unfolding(crate::specs::Guess::body_at))]
fn statements(alloc: Global, n: usize, bytes: &[u8]) -> Result<(CBody, &[u8]), AllocError>
    ensures { IfOk result (λ x. (x.0, x.1.now) ≡ body_at n bytes.now) }
{
    let mut body = Items::new(alloc);
    let mut rest = bytes;
    let mut left = n;
    'body: while 0 < left {
        if !starts_stmt(head(rest)) {
            return Ok((body, rest));
        }
        let (one, after) = stmt(alloc, rest)?;
        body.push(one)?;
        rest = after;
        left -= 1;
    }
    Ok((body, rest))
}

/// At most n statements, each within the limits, and the bytes after them.
pub fn body(alloc: Global, n: usize, bytes: &[u8]) -> Result<(CBody, &[u8]), AllocError>
    ensures read { IfOk result (λ x. (x.0, x.1.now) ≡ body_at n bytes.now) }
    ensures fine { IfOk result (λ x. AllByRecursion IsStmt x.0) }
{
    let (body, rest) = statements(alloc, n, bytes)?;
    Ok((body, rest))
}
