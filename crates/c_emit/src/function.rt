//! A function of C from a function of the language.

ghost use Rattle.std.specs.Prelude.{◌≡◌, ◌≤◌, false, IfOk, OnOk};
ghost use Rattle.orc_program.specs.Program.{has_far};
ghost use Rattle.c_emit.specs.Body as body;
ghost use Rattle.c_emit.specs.Body.{emitted};
ghost use Rattle.c_emit.specs.CAs.{CAs, HasShape};

use crate::body::{add_insn, count_of};
use c_run::{CBody, CFunction, CStmt};
use orc_program::{Function, Name, VarKind};
use std::alloc::{AllocError, Global};

/// The same name once more.
fn same_name(name: &Name) -> Name
    ensures { result ≡ name.now }
{
    let bytes = name.as_slice();
    match Name::new(bytes) {
        Some(same) => same,
        None => unreachable!(),
    }
}

/// The statements of one element.
fn body_of(alloc: Global, f: &Function) -> Result<CBody, AllocError>
    ensures { IfOk result (λ b. b ≡ body.body_of f.now.vars f.now.insns) }
{
    let mut statements = CBody::new(alloc);
    for insn in f.insns.as_slice() {
        add_insn(alloc, f, &mut statements, insn)?;
    }
    Ok(statements)
}

/// The number of variables up to the one that a statement sets.
fn set_by(statement: &CStmt) -> u16
    ensures value { result ≡ body.set_by statement.now }
    ensures few { result ≤ 256 }
{
    match statement {
        CStmt::SetV(d, _) => u16::from(*d) + 1,
        CStmt::SetW(_, _) | CStmt::SetByte(_, _, _) => 0,
    }
}

/// The number of variables up to the last one that is set.
fn variables_of(statements: &[CStmt]) -> u16
    ensures value { result ≡ body.variables_of statements.now }
    ensures few { result ≤ 256 }
{
    let mut most = 0;
    let mut left = statements;
    'counting: while let [first, rest @ ..] = left {
        most = most.max(set_by(first));
        left = rest;
    }
    most
}

/// The function of C with the statements of a function's instructions, in order.
fn function_of(alloc: Global, f: &Function) -> Result<CFunction, AllocError>
    ensures { IfOk result (λ c. c ≡ emitted f.now) }
{
    let statements = body_of(alloc, f)?;
    Ok(CFunction {
        name: same_name(&f.name),
        arrays: count_of(f, VarKind::Dest) + count_of(f, VarKind::Source),
        params: count_of(f, VarKind::Param),
        accs: count_of(f, VarKind::Accumulator),
        temps: variables_of(statements.as_slice()),
        two_d: f.two_d,
        body: statements,
    })
}

/// A function of C of the same meaning as a function without far loads, with the function's name and with as many arrays, parameters and accumulators.
///
/// For a good call, on a memory of its cells alone, `8 + m * (4 + n * (8 + 32 * instructions))` statements are enough,
/// with 1 for m where the function has no rows.
///
/// # Errors
///
/// Where memory is wanting.
pub fn emit(alloc: Global, f: &Function) -> Result<CFunction, AllocError>
    requires near { has_far f.now ≡ false }
    ensures shape { IfOk result (λ c. HasShape f.now c) }
    ensures means { IfOk result (λ c. CAs f.now c) }
{
    // who reads a field of a function learns what holds of every function
    let _kept = f.two_d;
    function_of(alloc, f)
}
