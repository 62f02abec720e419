//! The one text of a tree.

ghost use Rattle.std.specs.Prelude.{◌≡◌, ◌++◌, ◌∷◌, ◌≤◌, true, IfOk, OnOk, string_bytes};
ghost use Rattle.std.specs.Fmt.{decimal};
ghost use Rattle.std.specs.List.{AllByRecursion};
ghost use Rattle.c_run.specs.Whole.{IsFunction, StmtNumbers, has_numbers};
ghost use Rattle.c_emit.specs.Spelled.{CText};
ghost use Rattle.c_emit.specs.Text.{op_text, cmp_text, index_text, expr_text, stmt_text, body_text, signature_text};
ghost use Rattle.c_emit.specs.Text.{function_text, functions_text, c_text, line_text, numbered, declarations_text};
ghost use Rattle.c_emit.specs.Text.{loops_text, ends_text, header_text, number_text, byte_text};

use crate::lines::{Line, put_lines};
use c_run::{CCmp, CExpr, CFunction, CIndex, COp, CStmt, CTree};
use std::alloc::{AllocError, Global};

/// An operator's text.
fn op_text(op: COp) -> &'static [u8]
    ensures { result.now ≡ op_text op }
{
    match op {
        COp::Add => b"+",
        COp::Sub => b"-",
        COp::Mul => b"*",
        COp::Div => b"/",
        COp::And => b"&",
        COp::Or => b"|",
        COp::Xor => b"^",
        COp::Shl => b"<<",
        COp::Shr => b">>",
    }
}

/// A comparison's text.
fn cmp_text(cmp: CCmp) -> &'static [u8]
    ensures { result.now ≡ cmp_text cmp }
{
    match cmp {
        CCmp::Less => b"<",
        CCmp::Equal => b"==",
    }
}

/// The text between the brackets of an array's byte.
fn index(alloc: Global, x: CIndex) -> Result<String, AllocError>
    ensures text { IfOk result (λ text. string_bytes text ≡ index_text x) }
    ensures width { x.stride ≤ 255 }
{
    let CIndex {
        stride,
        size,
        offset,
    } = x;
    format!(in alloc; "(j * s{stride}) + (i * {size}) + {offset}")
}

/// Appends a variable's letter and number.
fn put_variable(alloc: Global, out: &mut Vec<u8>, letter: u8, d: u8) -> Result<(), AllocError>
    ensures { OnOk result (out.new.items ≡ out.old.items ++ letter ∷ decimal d) }
{
    out.push(letter)?;
    let number = format!(in alloc; "{d}")?;
    out.extend_from_slice(number.as_bytes())
}

/// Appends a number, as a constant.
fn put_number(alloc: Global, out: &mut Vec<u8>, n: u64) -> Result<(), AllocError>
    ensures { OnOk result (out.new.items ≡ out.old.items ++ number_text n) }
{
    let text = format!(in alloc; "(uint64_t){n}ull")?;
    out.extend_from_slice(text.as_bytes())
}

/// Appends an array's byte, without a cast.
fn put_byte(alloc: Global, out: &mut Vec<u8>, d: u8, x: CIndex) -> Result<(), AllocError>
    ensures text { OnOk result (out.new.items ≡ out.old.items ++ byte_text d x) }
    ensures width { OnOk result (x.stride ≤ 255) }
{
    put_variable(alloc, out, b'a', d)?;
    let text = index(alloc, x)?;
    out.push(b'[')?;
    out.extend_from_slice(text.as_bytes())?;
    out.push(b']')?;
    Ok(())
}

/// Appends an expression.
#[tactic(auto, using(crate::proofs::Texts::text_number, crate::proofs::Texts::text_v, crate::proofs::Texts::text_w, crate::proofs::Texts::text_p, crate::proofs::Texts::text_byte, crate::proofs::Widths::fits_number, crate::proofs::Widths::fits_v, crate::proofs::Widths::fits_w, crate::proofs::Widths::fits_p, crate::proofs::Widths::fits_byte, crate::proofs::Widths::fits_two, crate::proofs::Widths::fits_test, crate::proofs::Widths::fits_choose))]
fn put_expr(alloc: Global, out: &mut Vec<u8>, e: &CExpr) -> Result<(), AllocError>
    ensures text { OnOk result (out.new.items ≡ out.old.items ++ expr_text e.now) }
    ensures numbers { OnOk result (has_numbers e.now ≡ true) }
{
    match e {
        CExpr::Number(n) => put_number(alloc, out, *n)?,
        CExpr::V(d) => put_variable(alloc, out, b'v', *d)?,
        CExpr::W(d) => put_variable(alloc, out, b'w', *d)?,
        CExpr::P(d) => put_variable(alloc, out, b'p', *d)?,
        CExpr::Byte(d, x) => {
            out.extend_from_slice(b"(uint64_t)")?;
            put_byte(alloc, out, *d, *x)?;
        }
        CExpr::Two(op, a, b) => {
            out.extend_from_slice(b"(")?;
            put_expr(alloc, out, a.get())?;
            out.extend_from_slice(b" ")?;
            out.extend_from_slice(op_text(*op))?;
            out.extend_from_slice(b" ")?;
            put_expr(alloc, out, b.get())?;
            out.extend_from_slice(b")")?;
        }
        CExpr::Test(cmp, a, b) => {
            out.extend_from_slice(b"(uint64_t)(")?;
            put_expr(alloc, out, a.get())?;
            out.extend_from_slice(b" ")?;
            out.extend_from_slice(cmp_text(*cmp))?;
            out.extend_from_slice(b" ")?;
            put_expr(alloc, out, b.get())?;
            out.extend_from_slice(b")")?;
        }
        CExpr::Choose(c, a, b) => {
            out.extend_from_slice(b"(")?;
            put_expr(alloc, out, c.get())?;
            out.extend_from_slice(b" ? ")?;
            put_expr(alloc, out, a.get())?;
            out.extend_from_slice(b" : ")?;
            put_expr(alloc, out, b.get())?;
            out.extend_from_slice(b")")?;
        }
    }
    Ok(())
}

/// Appends a statement and its line's end.
fn put_stmt(alloc: Global, out: &mut Vec<u8>, stmt: &CStmt) -> Result<(), AllocError>
    ensures text { OnOk result (out.new.items ≡ out.old.items ++ stmt_text stmt.now) }
    ensures numbers { OnOk result (StmtNumbers stmt.now) }
{
    match stmt {
        CStmt::SetV(d, e) => {
            put_variable(alloc, out, b'v', *d)?;
            out.extend_from_slice(b" = ")?;
            put_expr(alloc, out, e)?;
            out.extend_from_slice(b";\n")?;
        }
        CStmt::SetW(d, e) => {
            put_variable(alloc, out, b'w', *d)?;
            out.extend_from_slice(b" = ")?;
            put_expr(alloc, out, e)?;
            out.extend_from_slice(b";\n")?;
        }
        CStmt::SetByte(d, x, e) => {
            put_byte(alloc, out, *d, *x)?;
            out.extend_from_slice(b" = (unsigned char)(")?;
            put_expr(alloc, out, e)?;
            out.extend_from_slice(b" & 255ull);\n")?;
        }
    }
    Ok(())
}

/// Appends the statements of the inner loop.
fn put_body(alloc: Global, out: &mut Vec<u8>, body: &[CStmt]) -> Result<(), AllocError>
    ensures text { OnOk result (out.new.items ≡ out.old.items ++ body_text body.now) }
    ensures numbers { OnOk result (AllByRecursion StmtNumbers body.now) }
{
    let mut left = body;
    while let [stmt, rest @ ..] = left {
        put_stmt(alloc, out, stmt)?;
        left = rest;
    }
    Ok(())
}

/// Appends a function's name and parameters.
fn put_signature(
    alloc: Global,
    out: &mut Vec<u8>,
    name: &[u8],
    arrays: u8,
    params: u8,
    accs: u8,
) -> Result<(), AllocError>
    ensures { OnOk result (out.new.items ≡ out.old.items ++ signature_text name.now arrays params accs) }
{
    out.extend_from_slice(b"void orc_")?;
    out.extend_from_slice(name)?;
    out.extend_from_slice(b"(int64_t n, int64_t m")?;
    put_lines(alloc, out, Line::Array, arrays as u16)?;
    put_lines(alloc, out, Line::Param, params as u16)?;
    put_lines(alloc, out, Line::Pointer, accs as u16)?;
    out.extend_from_slice(b")\n")?;
    Ok(())
}

/// Appends the declarations of a function's variables, with the first values of its sums.
fn put_declarations(
    alloc: Global,
    out: &mut Vec<u8>,
    temps: u16,
    accs: u8,
) -> Result<(), AllocError>
    ensures { OnOk result (out.new.items ≡ out.old.items ++ declarations_text temps accs) }
{
    out.extend_from_slice(b"{\nint64_t i;\nint64_t j;\n")?;
    put_lines(alloc, out, Line::Temp, temps)?;
    put_lines(alloc, out, Line::Sum, accs as u16)?;
    put_lines(alloc, out, Line::Start, accs as u16)?;
    Ok(())
}

/// The heads of the loops.
fn loops_text(two_d: bool) -> &'static [u8]
    ensures { result.now ≡ loops_text two_d }
{
    if two_d {
        b"for (j = 0; j < m; j++) {\nfor (i = 0; i < n; i++) {\n"
    } else {
        b"for (j = 0; j < 1; j++) {\nfor (i = 0; i < n; i++) {\n"
    }
}

/// Appends the ends of the loops and of the function.
fn put_ends(alloc: Global, out: &mut Vec<u8>, accs: u8) -> Result<(), AllocError>
    ensures { OnOk result (out.new.items ≡ out.old.items ++ ends_text accs) }
{
    out.extend_from_slice(b"}\n}\n")?;
    put_lines(alloc, out, Line::Store, accs as u16)?;
    out.extend_from_slice(b"}\n")?;
    Ok(())
}

/// Appends a function.
fn put_function(alloc: Global, out: &mut Vec<u8>, f: &CFunction) -> Result<(), AllocError>
    ensures text { OnOk result (out.new.items ≡ out.old.items ++ function_text f.now) }
    ensures kept { OnOk result (IsFunction f.now) }
{
    put_signature(alloc, out, f.name.as_slice(), f.arrays, f.params, f.accs)?;
    put_declarations(alloc, out, f.temps, f.accs)?;
    out.extend_from_slice(loops_text(f.two_d))?;
    put_body(alloc, out, f.body.as_slice())?;
    put_ends(alloc, out, f.accs)?;
    Ok(())
}

/// Appends functions.
fn put_functions(
    alloc: Global,
    out: &mut Vec<u8>,
    functions: &[CFunction],
) -> Result<(), AllocError>
    ensures text { OnOk result (out.new.items ≡ out.old.items ++ functions_text functions.now) }
    ensures kept { OnOk result (AllByRecursion IsFunction functions.now) }
{
    let mut left = functions;
    while let [f, rest @ ..] = left {
        put_function(alloc, out, f)?;
        left = rest;
    }
    Ok(())
}

/// The one text of a tree: the line that includes the header, and its functions in order.
pub fn print(alloc: Global, t: &CTree) -> Result<Vec<u8>, AllocError>
    ensures { IfOk result (λ text. CText text.items t.now) }
{
    let mut out = Vec::new(alloc);
    out.extend_from_slice(b"#include <stdint.h>\n")?;
    put_functions(alloc, &mut out, t.functions.as_slice())?;
    Ok(out)
}
