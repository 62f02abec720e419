//! Expressions from their parts.

ghost use Rattle.std.specs.Prelude.{◌≡◌, ◌<◌, ◌≤◌, ◌+◌, ◌-◌, ◌/◌, ◌^◌, IfOk};
ghost use Rattle.orc_bits.specs.Widths.{IsWidth};
ghost use Rattle.orc_ops.specs.Stems.{ones};
ghost use Rattle.c_run.specs.declared.tree.CCmp.TheVariants.{Equal};
ghost use Rattle.c_emit.specs.Expressions as expressions;

use c_run::{CCmp, CExpr, COp};
use sqlite_items::Boxed;
use std::alloc::{AllocError, Global};

/// An operator on two expressions.
pub fn two(alloc: Global, op: COp, a: CExpr, b: CExpr) -> Result<CExpr, AllocError>
    ensures { IfOk result (λ e. e ≡ CExpr.Two op a b) }
{
    let a = Boxed::new(alloc, a)?;
    let b = Boxed::new(alloc, b)?;
    Ok(CExpr::Two(op, a, b))
}

/// A comparison of two expressions.
pub fn test(alloc: Global, cmp: CCmp, a: CExpr, b: CExpr) -> Result<CExpr, AllocError>
    ensures { IfOk result (λ e. e ≡ CExpr.Test cmp a b) }
{
    let a = Boxed::new(alloc, a)?;
    let b = Boxed::new(alloc, b)?;
    Ok(CExpr::Test(cmp, a, b))
}

/// The second expression where the first isn't 0, else the third.
pub fn choose(alloc: Global, c: CExpr, a: CExpr, b: CExpr) -> Result<CExpr, AllocError>
    ensures { IfOk result (λ e. e ≡ CExpr.Choose c a b) }
{
    let c = Boxed::new(alloc, c)?;
    let a = Boxed::new(alloc, a)?;
    let b = Boxed::new(alloc, b)?;
    Ok(CExpr::Choose(c, a, b))
}

/// The same expression once more.
pub fn copy(alloc: Global, e: &CExpr) -> Result<CExpr, AllocError>
    ensures { IfOk result (λ c. c ≡ e.now) }
{
    match e {
        CExpr::Number(n) => Ok(CExpr::Number(*n)),
        CExpr::V(d) => Ok(CExpr::V(*d)),
        CExpr::W(d) => Ok(CExpr::W(*d)),
        CExpr::P(d) => Ok(CExpr::P(*d)),
        CExpr::Byte(d, x) => Ok(CExpr::Byte(*d, *x)),
        CExpr::Two(op, a, b) => two(alloc, *op, copy(alloc, a.get())?, copy(alloc, b.get())?),
        CExpr::Test(cmp, a, b) => test(alloc, *cmp, copy(alloc, a.get())?, copy(alloc, b.get())?),
        CExpr::Choose(c, a, b) => choose(
            alloc,
            copy(alloc, c.get())?,
            copy(alloc, a.get())?,
            copy(alloc, b.get())?,
        ),
    }
}

/// A number.
pub fn number(n: u64) -> CExpr
    ensures { result ≡ CExpr.Number n }
{
    CExpr::Number(n)
}

/// So many bits that are all ones.
pub fn ones(t: u32) -> u64
    requires { IsWidth t }
    ensures { result ≡ ones t }
{
    if t < 64 { (1 << t) - 1 } else { u64::MAX }
}

/// Half of what so many bits can hold.
pub fn half(w: u32) -> u64
    requires { IsWidth w }
    ensures { result ≡ expressions.half w }
{
    1 << (w - 1)
}

/// The low bits of an expression.
pub fn low(alloc: Global, t: u32, e: CExpr) -> Result<CExpr, AllocError>
    requires { t ≤ 64 }
    ensures { IfOk result (λ r. r ≡ expressions.low t e) }
{
    if t < 64 {
        two(alloc, COp::And, e, number((1 << t) - 1))
    } else {
        Ok(e)
    }
}

/// The low bits of an operator on two expressions.
pub fn low_two(alloc: Global, t: u32, op: COp, a: CExpr, b: CExpr) -> Result<CExpr, AllocError>
    requires { t ≤ 64 }
    ensures { IfOk result (λ r. r ≡ expressions.low t (CExpr.Two op a b)) }
{
    let whole = two(alloc, op, a, b)?;
    low(alloc, t, whole)
}

/// An expression shifted up.
pub fn up(alloc: Global, e: CExpr, n: u64) -> Result<CExpr, AllocError>
    ensures { IfOk result (λ r. r ≡ expressions.up e n) }
{
    two(alloc, COp::Shl, e, number(n))
}

/// An expression shifted down.
pub fn down(alloc: Global, e: CExpr, n: u64) -> Result<CExpr, AllocError>
    ensures { IfOk result (λ r. r ≡ expressions.down e n) }
{
    two(alloc, COp::Shr, e, number(n))
}

/// An expression shifted up, where there is a shift.
fn raised(alloc: Global, e: CExpr, n: u64) -> Result<CExpr, AllocError>
    ensures { IfOk result (λ r. r ≡ expressions.raised e n) }
{
    if n == 0 { Ok(e) } else { up(alloc, e, n) }
}

/// An expression shifted down, where there is a shift.
pub fn moved(alloc: Global, e: CExpr, n: u64) -> Result<CExpr, AllocError>
    ensures { IfOk result (λ r. r ≡ expressions.moved e n) }
{
    if n == 0 { Ok(e) } else { down(alloc, e, n) }
}

/// So many bits of a number of n bytes, from one on. Nothing is cut where no bits stand above them.
pub fn part(alloc: Global, n: u8, from: u64, bits: u32, e: CExpr) -> Result<CExpr, AllocError>
    requires from { from < 2 ^ 63 }
    requires bits { bits ≤ 64 }
    ensures { IfOk result (λ r. r ≡ expressions.part n from bits e) }
{
    let lane = moved(alloc, e, from)?;
    if 8 * u64::from(n) <= from + u64::from(bits) {
        return Ok(lane);
    }
    low(alloc, bits, lane)
}

/// An expression plus a number.
pub fn plus(alloc: Global, e: CExpr, n: u64) -> Result<CExpr, AllocError>
    ensures { IfOk result (λ r. r ≡ expressions.plus e n) }
{
    two(alloc, COp::Add, e, number(n))
}

/// The test that the first is less than the second, of which copies are taken.
pub fn less_of(alloc: Global, a: &CExpr, b: &CExpr) -> Result<CExpr, AllocError>
    ensures { IfOk result (λ r. r ≡ expressions.less a.now b.now) }
{
    let first = copy(alloc, a)?;
    let second = copy(alloc, b)?;
    test(alloc, CCmp::Less, first, second)
}

/// The test that an expression, of which a copy is taken, is 0.
pub fn is_zero(alloc: Global, e: &CExpr) -> Result<CExpr, AllocError>
    ensures { IfOk result (λ r. r ≡ CExpr.Test Equal e.now (CExpr.Number 0)) }
{
    let tested = copy(alloc, e)?;
    test(alloc, CCmp::Equal, tested, number(0))
}

/// One expression where the first of two is less than the second, and else another.
pub fn choose_less(
    alloc: Global,
    a: CExpr,
    b: CExpr,
    yes: CExpr,
    no: CExpr,
) -> Result<CExpr, AllocError>
    ensures { IfOk result (λ r. r ≡ CExpr.Choose (expressions.less a b) yes no) }
{
    let c = test(alloc, CCmp::Less, a, b)?;
    choose(alloc, c, yes, no)
}

/// The lesser of an expression and a number.
pub fn at_most(alloc: Global, n: u64, e: CExpr) -> Result<CExpr, AllocError>
    ensures { IfOk result (λ r. r ≡ expressions.at_most n e) }
{
    let again = copy(alloc, &e)?;
    choose_less(alloc, number(n), again, number(n), e)
}

/// The first without the second, or 0 where that is greater.
pub fn without(alloc: Global, a: CExpr, b: CExpr) -> Result<CExpr, AllocError>
    ensures { IfOk result (λ r. r ≡ expressions.without a b) }
{
    let is_less = less_of(alloc, &a, &b)?;
    let rest = two(alloc, COp::Sub, a, b)?;
    choose(alloc, is_less, number(0), rest)
}

/// The low bits of an expression, of which copies are taken, or the greatest signed number where it is past that and k.
fn clamped_above(alloc: Global, t: u32, k: u64, e: &CExpr) -> Result<CExpr, AllocError>
    requires width { IsWidth t }
    requires greatest { k + expressions.half t < 2 ^ 64 }
    ensures { IfOk result (λ r. r ≡
        CExpr.Choose (expressions.less (CExpr.Number (k + expressions.half t - 1)) e.now) (CExpr.Number (expressions.half t - 1)) (expressions.low t e.now)) }
{
    let kept = copy(alloc, e)?;
    let rest = low(alloc, t, kept)?;
    let tested = copy(alloc, e)?;
    let greatest = number(k + half(t) - 1);
    choose_less(alloc, greatest, tested, number(half(t) - 1), rest)
}

/// The number of t bits of an expression less k as a signed one: the least or the greatest where that is past them.
pub fn clamped(alloc: Global, t: u32, k: u64, e: CExpr) -> Result<CExpr, AllocError>
    requires width { IsWidth t }
    requires least { expressions.half t ≤ k }
    requires greatest { k + expressions.half t < 2 ^ 64 }
    ensures { IfOk result (λ r. r ≡ expressions.clamped t k e) }
{
    let upper = clamped_above(alloc, t, k, &e)?;
    choose_less(alloc, e, number(k - half(t)), number(half(t)), upper)
}

/// All ones where a test holds, else 0.
pub fn mask_if(alloc: Global, t: u32, c: CExpr) -> Result<CExpr, AllocError>
    requires { IsWidth t }
    ensures { IfOk result (λ r. r ≡ expressions.mask_if t c) }
{
    choose(alloc, c, number(ones(t)), number(0))
}

/// The distance of the signed reading from the least number, and back again.
pub fn turned(alloc: Global, w: u32, e: CExpr) -> Result<CExpr, AllocError>
    requires { IsWidth w }
    ensures { IfOk result (λ r. r ≡ expressions.turned w e) }
{
    let sum = plus(alloc, e, half(w))?;
    low(alloc, w, sum)
}

/// The signed reading, at 64 bits.
pub fn wide(alloc: Global, w: u32, e: CExpr) -> Result<CExpr, AllocError>
    requires { IsWidth w }
    ensures { IfOk result (λ r. r ≡ expressions.wide w e) }
{
    let distance = turned(alloc, w, e)?;
    two(alloc, COp::Sub, distance, number(half(w)))
}

/// The number that an expression is, if it is one.
fn number_of(e: &CExpr) -> Option<u64>
    ensures { result ≡ expressions.number_of e.now }
{
    match e {
        CExpr::Number(n) => Some(*n),
        CExpr::V(_)
        | CExpr::W(_)
        | CExpr::P(_)
        | CExpr::Byte(_, _)
        | CExpr::Two(_, _, _)
        | CExpr::Test(_, _, _)
        | CExpr::Choose(_, _, _) => None,
    }
}

/// The variable that an expression is, if it is one.
pub fn variable_of(e: &CExpr) -> Option<u8>
    ensures { result ≡ expressions.variable_of e.now }
{
    match e {
        CExpr::V(d) => Some(*d),
        CExpr::Number(_)
        | CExpr::W(_)
        | CExpr::P(_)
        | CExpr::Byte(_, _)
        | CExpr::Two(_, _, _)
        | CExpr::Test(_, _, _)
        | CExpr::Choose(_, _, _) => None,
    }
}

/// A shift's result, or 0 where the count is not below the width. A count that is a number is tested here.
pub fn if_below(alloc: Global, w: u32, count: CExpr, e: CExpr) -> Result<CExpr, AllocError>
    ensures { IfOk result (λ r. r ≡ expressions.if_below w count e) }
{
    match number_of(&count) {
        Some(n) => Ok(if n < u64::from(w) { e } else { number(0) }),
        None => choose_less(alloc, count, number(u64::from(w)), e, number(0)),
    }
}

/// The count of a shift, and one less than the width in place of a greater one.
pub fn few(alloc: Global, w: u32, count: &CExpr) -> Result<CExpr, AllocError>
    requires { IsWidth w }
    ensures { IfOk result (λ r. r ≡ expressions.few w count.now) }
{
    if let Some(n) = number_of(count) {
        return Ok(number(n.min(u64::from(w - 1))));
    }
    let tested = copy(alloc, count)?;
    let kept = copy(alloc, count)?;
    choose_less(
        alloc,
        tested,
        number(u64::from(w)),
        kept,
        number(u64::from(w - 1)),
    )
}

/// Half of what so many bits can hold, shifted down.
fn half_after(w: u32, n: u64) -> u64
    requires width { IsWidth w }
    requires few { n < 64 }
    ensures { result ≡ expressions.half w / 2 ^ n }
{
    half(w) >> n
}

/// Half of what so many bits can hold, shifted down by such a count.
pub fn half_down(alloc: Global, w: u32, count: &CExpr) -> Result<CExpr, AllocError>
    requires { IsWidth w }
    ensures { IfOk result (λ r. r ≡ expressions.half_down w count.now) }
{
    match number_of(count) {
        Some(n) => Ok(number(half_after(w, n.min(u64::from(w - 1))))),
        None => two(alloc, COp::Shr, number(half(w)), few(alloc, w, count)?),
    }
}

/// Byte k of an expression of n bytes, at the place that it has in reverse order.
fn byte_to(alloc: Global, e: &CExpr, n: u8, k: u8) -> Result<CExpr, AllocError>
    requires n { n ≤ 8 }
    requires k { k < n }
    ensures { IfOk result (λ r. r ≡ expressions.byte_to e.now n k) }
{
    let kept = copy(alloc, e)?;
    let byte = part(alloc, n, 8 * u64::from(k), 8, kept)?;
    raised(alloc, byte, 8 * u64::from(n - 1 - k))
}

/// The bytes of an expression of n bytes, in reverse order.
pub fn swapped(alloc: Global, e: &CExpr, n: u8) -> Result<CExpr, AllocError>
    requires some { 0 < n }
    requires few { n ≤ 8 }
    ensures { IfOk result (λ r. r ≡ expressions.swapped e.now n (n - 1)) }
{
    let mut all = byte_to(alloc, e, n, 0)?;
    for k in 0..n - 1 {
        let byte = byte_to(alloc, e, n, k + 1)?;
        all = two(alloc, COp::Add, all, byte)?;
    }
    Ok(all)
}
