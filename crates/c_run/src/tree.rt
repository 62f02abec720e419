//! Trees of C: functions, statements and expressions.

use orc_program::Name;
use sqlite_items::{Boxed, Items};
use std::marker::Model;

/// An operator on two numbers of type `uint64_t` (C11, 6.5.5 to 6.5.12).
#[derive(Clone, Copy, Debug, PartialEq, Eq)]
pub enum COp {
    /// `+`
    Add,
    /// `-`
    Sub,
    /// `*`
    Mul,
    /// `/`
    Div,
    /// `&`
    And,
    /// `|`
    Or,
    /// `^`
    Xor,
    /// `<<`
    Shl,
    /// `>>`
    Shr,
}

/// A comparison of two numbers of type `uint64_t` (C11, 6.5.8 and 6.5.9).
#[derive(Clone, Copy, Debug, PartialEq, Eq)]
pub enum CCmp {
    /// `<`
    Less,
    /// `==`
    Equal,
}

/// The index `(j * sD) + (i * SIZE) + K` of a byte of an array, where j is the row and i the element.
#[derive(Clone, Copy, Debug, PartialEq, Eq)]
pub struct CIndex {
    /// The array whose stride it is, counted from 0.
    pub stride: u8,
    /// SIZE: 1, 2, 4 or 8.
    pub size: u8,
    /// K: 0 to 7.
    pub offset: u8,
}

/// An expression of type `uint64_t`.
#[derive(Drop)]
pub enum CExpr {
    /// `(uint64_t)Dull`
    Number(u64),
    /// `vD`, a variable of the function.
    V(u8),
    /// `wD`, the running sum of accumulator D.
    W(u8),
    /// `pD`, a parameter.
    P(u8),
    /// `(uint64_t)aD[x]`, a byte of array D.
    Byte(u8, CIndex),
    /// `(e OP e)`
    Two(COp, Boxed<CExpr>, Boxed<CExpr>),
    /// `(uint64_t)(e CMP e)`: 1 where it holds, else 0.
    Test(CCmp, Boxed<CExpr>, Boxed<CExpr>),
    /// `(e ? e : e)`
    Choose(Boxed<CExpr>, Boxed<CExpr>, Boxed<CExpr>),
}

/// A statement of the innermost loop.
#[derive(Drop)]
pub enum CStmt {
    /// `vD = e;`
    SetV(u8, CExpr),
    /// `wD = e;`
    SetW(u8, CExpr),
    /// `aD[x] = (unsigned char)(e & 255ull);`
    SetByte(u8, CIndex, CExpr),
}

/// Statements, in order.
pub type CBody = Items<CStmt>;

/// A C function over rows and elements: two loops around a body, between the lines that set the running sums to 0 and
/// those that store them. No expression is more than 100 deep, and each index has a size of 1, 2, 4 or 8 and an
/// offset of at most 7.
#[derive(Drop)]
pub struct CFunction {
    /// The name, without the `orc_` before it.
    pub name: Name,
    /// The number of arrays, at most 12.
    pub arrays: u8,
    /// The number of parameters, at most 8.
    pub params: u8,
    /// The number of accumulators, at most 4.
    pub accs: u8,
    /// The number of variables, at most 256.
    pub temps: u16,
    /// Whether the loop over rows has m turns, rather than one.
    pub two_d: bool,
    /// The statements of one element, in order.
    pub body: CBody,
}

impl Model for CFunction {
    ghost use Rattle.std.specs.Prelude.{◌≡◌, true};
    ghost use Rattle.std.specs.Coded.{codes};
    ghost use Rattle.c_run.specs.contracts.tree.CExpr as expression;
    ghost use Rattle.c_run.specs.Tree.{CFunctionValue, is_c_function};

    ghost Value = { CFunctionValue };

    ghost coded = { Prim.hlevel (codes, expression.the_row.coded) };

    ghost view = { λ f. record {
      name = f.name;
      arrays = f.arrays;
      params = f.params;
      accs = f.accs;
      temps = f.temps;
      two_d = f.two_d;
      body = f.body;
    } };

    ghost invariant = { λ f. is_c_function record {
      name = f.name;
      arrays = f.arrays;
      params = f.params;
      accs = f.accs;
      temps = f.temps;
      two_d = f.two_d;
      body = f.body;
    } ≡ true };
}

/// Functions, in order.
pub type CFunctions = Items<CFunction>;

/// A C text: its functions in order, of which two may have one name.
#[derive(Drop)]
pub struct CTree {
    /// The functions.
    pub functions: CFunctions,
}
