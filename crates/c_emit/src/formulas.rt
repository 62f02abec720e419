//! The formulas of opcodes as expressions.

ghost use Rattle.std.specs.Prelude.{◌≡◌, ◌<◌, ◌≤◌, ◌^◌, true, IfOk};
ghost use Rattle.orc_bits.specs.Widths.{IsWidth};
ghost use Rattle.orc_ops.specs.Stems.{ones};
ghost use Rattle.orc_ops.specs.declared.stem.Stem.TheVariants as stem;
ghost use Rattle.c_run.specs.declared.tree.COp.TheVariants.{Add, Sub, Mul};
ghost use Rattle.c_emit.specs.Expressions as expressions;
ghost use Rattle.c_emit.specs.Expressions.{first, fits};

use crate::build::{
    at_most, choose, choose_less, clamped, copy, down, few, half, half_down, if_below, is_zero,
    less_of, low, low_two, mask_if, number, ones, plus, swapped, test, turned, two, up, wide,
    without,
};
use c_run::{CCmp, CExpr, COp};
use orc_ops::Stem;
use std::alloc::{AllocError, Global};

/// 2^w, for a width below 64.
fn whole(w: u32) -> u64
    requires { w ≤ 32 }
    ensures { result ≡ 2 ^ w }
{
    1 << w
}

/// The product of the signed readings, at 64 bits.
fn signed_product(alloc: Global, w: u32, x: CExpr, y: CExpr) -> Result<CExpr, AllocError>
    requires { IsWidth w }
    ensures { IfOk result (λ r. r ≡ CExpr.Two Mul (expressions.wide w x) (expressions.wide w y)) }
{
    let first = wide(alloc, w, x)?;
    let second = wide(alloc, w, y)?;
    two(alloc, COp::Mul, first, second)
}

/// Half of a sum and 1.
fn average(alloc: Global, x: CExpr, y: CExpr) -> Result<CExpr, AllocError>
    ensures { IfOk result (λ r. r ≡ expressions.down (expressions.plus (CExpr.Two Add x y) 1) 1) }
{
    let sum = two(alloc, COp::Add, x, y)?;
    let more = plus(alloc, sum, 1)?;
    down(alloc, more, 1)
}

/// The first without the second, of which copies are taken.
fn difference(alloc: Global, x: &CExpr, y: &CExpr) -> Result<CExpr, AllocError>
    ensures { IfOk result (λ r. r ≡ CExpr.Two Sub x.now y.now) }
{
    let first = copy(alloc, x)?;
    let second = copy(alloc, y)?;
    two(alloc, COp::Sub, first, second)
}

/// The test that the first is less than the second, as signed numbers.
fn less_signed(alloc: Global, w: u32, x: CExpr, y: CExpr) -> Result<CExpr, AllocError>
    requires { IsWidth w }
    ensures { IfOk result (λ r. r ≡ expressions.less (expressions.turned w x) (expressions.turned w y)) }
{
    let first = turned(alloc, w, x)?;
    let second = turned(alloc, w, y)?;
    test(alloc, CCmp::Less, first, second)
}

/// The same test on copies.
fn less_signed_of(alloc: Global, w: u32, x: &CExpr, y: &CExpr) -> Result<CExpr, AllocError>
    requires { IsWidth w }
    ensures { IfOk result (λ r. r ≡ expressions.less (expressions.turned w x.now) (expressions.turned w y.now)) }
{
    let first = copy(alloc, x)?;
    let second = copy(alloc, y)?;
    less_signed(alloc, w, first, second)
}

/// The high half of a product of signed numbers.
fn mulhs(alloc: Global, w: u32, t: u32, x: CExpr, y: CExpr) -> Result<CExpr, AllocError>
    requires width { IsWidth w }
    requires to { IsWidth t }
    ensures { IfOk result (λ e. e ≡ first stem.Mulhs w t x y) }
{
    let product = signed_product(alloc, w, x, y)?;
    let high = down(alloc, product, u64::from(w))?;
    low(alloc, t, high)
}

/// The high half of a product.
fn mulhu(alloc: Global, w: u32, x: CExpr, y: CExpr) -> Result<CExpr, AllocError>
    requires { IsWidth w }
    ensures { IfOk result (λ e. e ≡ first stem.Mulhu w w x y) }
{
    let product = two(alloc, COp::Mul, x, y)?;
    down(alloc, product, u64::from(w))
}

/// A product of signed numbers.
fn muls(alloc: Global, w: u32, t: u32, x: CExpr, y: CExpr) -> Result<CExpr, AllocError>
    requires width { IsWidth w }
    requires to { IsWidth t }
    ensures { IfOk result (λ e. e ≡ first stem.Muls w t x y) }
{
    let product = signed_product(alloc, w, x, y)?;
    low(alloc, t, product)
}

/// Half of a sum of signed numbers and 1.
fn avgs(alloc: Global, w: u32, t: u32, x: CExpr, y: CExpr) -> Result<CExpr, AllocError>
    requires width { IsWidth w }
    requires to { IsWidth t }
    ensures { IfOk result (λ e. e ≡ first stem.Avgs w t x y) }
{
    let first = turned(alloc, w, x)?;
    let second = turned(alloc, w, y)?;
    let mean = average(alloc, first, second)?;
    turned(alloc, t, mean)
}

/// The distance between two numbers.
fn accsad(alloc: Global, x: CExpr, y: CExpr) -> Result<CExpr, AllocError>
    ensures { IfOk result (λ e. e ≡ first stem.Accsad 0 0 x y) }
{
    let less = difference(alloc, &y, &x)?;
    let more = difference(alloc, &x, &y)?;
    choose_less(alloc, x, y, less, more)
}

/// The absolute value.
fn abs(alloc: Global, w: u32, x: CExpr) -> Result<CExpr, AllocError>
    requires width { IsWidth w }
    requires takes { w ≤ 32 }
    ensures { IfOk result (λ e. e ≡ first stem.Abs w w x x) }
{
    let taken = copy(alloc, &x)?;
    let opposite = two(alloc, COp::Sub, number(whole(w)), taken)?;
    let kept = copy(alloc, &x)?;
    choose_less(alloc, x, number(half(w)), kept, opposite)
}

/// The sign: -1, 0 or 1.
fn sign(alloc: Global, w: u32, t: u32, x: CExpr) -> Result<CExpr, AllocError>
    requires width { IsWidth w }
    requires to { IsWidth t }
    ensures { IfOk result (λ e. e ≡ first stem.Sign w t x x) }
{
    let is_zero = is_zero(alloc, &x)?;
    let sign = choose_less(alloc, x, number(half(w)), number(1), number(ones(t)))?;
    choose(alloc, is_zero, number(0), sign)
}

/// The bits that the second alone has.
fn andn(alloc: Global, w: u32, x: CExpr, y: CExpr) -> Result<CExpr, AllocError>
    requires { IsWidth w }
    ensures { IfOk result (λ e. e ≡ first stem.Andn w w x y) }
{
    let turned_over = two(alloc, COp::Xor, x, number(ones(w)))?;
    two(alloc, COp::And, turned_over, y)
}

/// All ones where they are equal.
fn cmpeq(alloc: Global, t: u32, x: CExpr, y: CExpr) -> Result<CExpr, AllocError>
    requires { IsWidth t }
    ensures { IfOk result (λ e. e ≡ first stem.Cmpeq t t x y) }
{
    let are_equal = test(alloc, CCmp::Equal, x, y)?;
    mask_if(alloc, t, are_equal)
}

/// All ones where the first is greater as a signed number.
fn cmpgts(alloc: Global, w: u32, t: u32, x: CExpr, y: CExpr) -> Result<CExpr, AllocError>
    requires width { IsWidth w }
    requires to { IsWidth t }
    ensures { IfOk result (λ e. e ≡ first stem.Cmpgts w t x y) }
{
    let is_less = less_signed(alloc, w, y, x)?;
    mask_if(alloc, t, is_less)
}

/// The greater signed number.
fn maxs(alloc: Global, w: u32, x: CExpr, y: CExpr) -> Result<CExpr, AllocError>
    requires { IsWidth w }
    ensures { IfOk result (λ e. e ≡ first stem.Maxs w w x y) }
{
    let is_less = less_signed_of(alloc, w, &x, &y)?;
    choose(alloc, is_less, y, x)
}

/// The lesser signed number.
fn mins(alloc: Global, w: u32, x: CExpr, y: CExpr) -> Result<CExpr, AllocError>
    requires { IsWidth w }
    ensures { IfOk result (λ e. e ≡ first stem.Mins w w x y) }
{
    let is_less = less_signed_of(alloc, w, &y, &x)?;
    choose(alloc, is_less, y, x)
}

/// The greater number.
fn maxu(alloc: Global, x: CExpr, y: CExpr) -> Result<CExpr, AllocError>
    ensures { IfOk result (λ e. e ≡ first stem.Maxu 0 0 x y) }
{
    let is_less = less_of(alloc, &x, &y)?;
    choose(alloc, is_less, y, x)
}

/// The lesser number.
fn minu(alloc: Global, x: CExpr, y: CExpr) -> Result<CExpr, AllocError>
    ensures { IfOk result (λ e. e ≡ first stem.Minu 0 0 x y) }
{
    let is_less = less_of(alloc, &y, &x)?;
    choose(alloc, is_less, y, x)
}

/// A shift up.
fn shl(alloc: Global, w: u32, t: u32, x: CExpr, y: CExpr) -> Result<CExpr, AllocError>
    requires width { IsWidth w }
    requires to { IsWidth t }
    ensures { IfOk result (λ e. e ≡ first stem.Shl w t x y) }
{
    let count = copy(alloc, &y)?;
    let rest = low_two(alloc, t, COp::Shl, x, y)?;
    if_below(alloc, w, count, rest)
}

/// A shift down of a signed number by a count of which copies are taken.
fn shrs_by(alloc: Global, w: u32, t: u32, x: CExpr, y: &CExpr) -> Result<CExpr, AllocError>
    requires width { IsWidth w }
    requires to { IsWidth t }
    ensures { IfOk result (λ e. e ≡ first stem.Shrs w t x y.now) }
{
    let distance = turned(alloc, w, x)?;
    let count = few(alloc, w, y)?;
    let moved = two(alloc, COp::Shr, distance, count)?;
    let least = half_down(alloc, w, y)?;
    low_two(alloc, t, COp::Sub, moved, least)
}

/// A shift down of a signed number.
fn shrs(alloc: Global, w: u32, t: u32, x: CExpr, y: CExpr) -> Result<CExpr, AllocError>
    requires width { IsWidth w }
    requires to { IsWidth t }
    ensures { IfOk result (λ e. e ≡ first stem.Shrs w t x y) }
{
    shrs_by(alloc, w, t, x, &y)
}

/// A shift down.
fn shru(alloc: Global, w: u32, x: CExpr, y: CExpr) -> Result<CExpr, AllocError>
    requires { IsWidth w }
    ensures { IfOk result (λ e. e ≡ first stem.Shru w w x y) }
{
    let count = copy(alloc, &y)?;
    let moved = two(alloc, COp::Shr, x, y)?;
    if_below(alloc, w, count, moved)
}

/// A signed number at another width.
fn convs(alloc: Global, w: u32, t: u32, x: CExpr) -> Result<CExpr, AllocError>
    requires width { IsWidth w }
    requires to { IsWidth t }
    ensures { IfOk result (λ e. e ≡ first stem.Convs w t x x) }
{
    let value = wide(alloc, w, x)?;
    low(alloc, t, value)
}

/// A signed number clamped to the unsigned range.
fn convsus(alloc: Global, w: u32, t: u32, x: CExpr) -> Result<CExpr, AllocError>
    requires width { IsWidth w }
    requires to { IsWidth t }
    ensures { IfOk result (λ e. e ≡ first stem.Convsus w t x x) }
{
    let tested = copy(alloc, &x)?;
    let value = at_most(alloc, ones(t), x)?;
    choose_less(alloc, tested, number(half(w)), value, number(0))
}

/// A number clamped to the signed range.
fn convuss(alloc: Global, t: u32, x: CExpr) -> Result<CExpr, AllocError>
    requires { IsWidth t }
    ensures { IfOk result (λ e. e ≡ first stem.Convuss t t x x) }
{
    at_most(alloc, half(t) - 1, x)
}

/// A number clamped to the unsigned range.
fn convuus(alloc: Global, t: u32, x: CExpr) -> Result<CExpr, AllocError>
    requires { IsWidth t }
    ensures { IfOk result (λ e. e ≡ first stem.Convuus t t x x) }
{
    at_most(alloc, ones(t), x)
}

/// A byte in every byte.
fn splat(alloc: Global, t: u32, x: CExpr) -> Result<CExpr, AllocError>
    requires { IsWidth t }
    ensures { IfOk result (λ e. e ≡ first stem.Splat t t x x) }
{
    two(alloc, COp::Mul, x, number(ones(t) / 255))
}

/// The top word in every word.
fn splatw3(alloc: Global, x: CExpr) -> Result<CExpr, AllocError>
    ensures { IfOk result (λ e. e ≡ first stem.Splatw3 0 0 x x) }
{
    let word = down(alloc, x, 48)?;
    two(alloc, COp::Mul, word, number(u64::MAX / 0xffff))
}

/// Two halves.
fn merge(alloc: Global, w: u32, x: CExpr, y: CExpr) -> Result<CExpr, AllocError>
    requires { IsWidth w }
    ensures { IfOk result (λ e. e ≡ first stem.Merge w w x y) }
{
    let high = up(alloc, y, u64::from(w))?;
    two(alloc, COp::Add, x, high)
}

/// The bytes in reverse order.
fn swap(alloc: Global, w: u32, x: CExpr) -> Result<CExpr, AllocError>
    requires { IsWidth w }
    ensures { IfOk result (λ e. e ≡ first stem.Swap w w x x) }
{
    swapped(alloc, &x, (w / 8) as u8)
}

/// The halves exchanged.
fn exchange(alloc: Global, w: u32, x: CExpr) -> Result<CExpr, AllocError>
    requires { IsWidth w }
    ensures { IfOk result (λ e. e ≡ first stem.Exchange w w x x) }
{
    let kept = copy(alloc, &x)?;
    let low = low(alloc, w / 2, kept)?;
    let high = down(alloc, x, u64::from(w / 2))?;
    let moved = up(alloc, low, u64::from(w / 2))?;
    two(alloc, COp::Add, moved, high)
}

/// Whether the formula of a stem has a number more than once, which a variable keeps.
pub fn has_sum(stem: Stem) -> bool
    ensures { result ≡ expressions.has_sum stem }
{
    match stem {
        Stem::Addss | Stem::Addus | Stem::Subss | Stem::Convsss | Stem::Div255 | Stem::Divlu =>
            true,
        _ => false,
    }
}

/// Whether the result of a stem is the number of its source.
pub fn is_copy(stem: Stem) -> bool
    ensures { result ≡ expressions.is_copy stem }
{
    matches!(stem, Stem::Copy)
}

/// Whether the result of a stem is the lowest bits of its source.
pub fn is_low(stem: Stem) -> bool
    ensures { result ≡ expressions.is_low stem }
{
    matches!(stem, Stem::Low)
}

/// The sum of two distances.
fn addss_sum(alloc: Global, w: u32, x: CExpr, y: CExpr) -> Result<CExpr, AllocError>
    requires { IsWidth w }
    ensures { IfOk result (λ e. e ≡ expressions.sum stem.Addss w w x y) }
{
    let first = turned(alloc, w, x)?;
    let second = turned(alloc, w, y)?;
    two(alloc, COp::Add, first, second)
}

/// The difference of two distances, which 2^w keeps from passing below 0.
fn subss_sum(alloc: Global, w: u32, x: CExpr, y: CExpr) -> Result<CExpr, AllocError>
    requires width { IsWidth w }
    requires few { w ≤ 32 }
    ensures { IfOk result (λ e. e ≡ expressions.sum stem.Subss w w x y) }
{
    let first = turned(alloc, w, x)?;
    let more = plus(alloc, first, whole(w))?;
    let second = turned(alloc, w, y)?;
    two(alloc, COp::Sub, more, second)
}

/// A number and half of 256, of which a division by 255 makes its result.
fn div255_sum(alloc: Global, x: CExpr) -> Result<CExpr, AllocError>
    ensures { IfOk result (λ e. e ≡ expressions.sum stem.Div255 0 0 x x) }
{
    let sum = plus(alloc, x, 128)?;
    low(alloc, 16, sum)
}

/// The quotient by a byte, or 255 where that is 0.
fn divlu_sum(alloc: Global, x: CExpr, y: CExpr) -> Result<CExpr, AllocError>
    ensures { IfOk result (λ e. e ≡ expressions.sum stem.Divlu 0 0 x y) }
{
    let divisor = low(alloc, 8, y)?;
    let is_zero = is_zero(alloc, &divisor)?;
    let quotient = two(alloc, COp::Div, x, divisor)?;
    choose(alloc, is_zero, number(255), quotient)
}

/// The number that the formula of a stem has more than once.
pub fn sum(
    alloc: Global,
    stem: Stem,
    w: u32,
    t: u32,
    x: CExpr,
    y: CExpr,
) -> Result<CExpr, AllocError>
    requires width { IsWidth w }
    requires fits { fits stem w t ≡ true }
    ensures { IfOk result (λ e. e ≡ expressions.sum stem w t x y) }
{
    match stem {
        Stem::Addss => addss_sum(alloc, w, x, y),
        Stem::Addus => two(alloc, COp::Add, x, y),
        Stem::Subss => subss_sum(alloc, w, x, y),
        Stem::Convsss => turned(alloc, w, x),
        Stem::Div255 => div255_sum(alloc, x),
        Stem::Divlu => divlu_sum(alloc, x, y),
        _ => Ok(x),
    }
}

/// A sum of t bits and of 2^t, clamped to the signed range.
fn clamped_sum(alloc: Global, t: u32, e: CExpr) -> Result<CExpr, AllocError>
    requires width { IsWidth t }
    requires few { t ≤ 32 }
    ensures { IfOk result (λ r. r ≡ expressions.clamped t (2 ^ t) e) }
{
    clamped(alloc, t, whole(t), e)
}

/// A distance of w bits, clamped to the signed range of t bits.
fn clamped_distance(alloc: Global, w: u32, t: u32, e: CExpr) -> Result<CExpr, AllocError>
    requires width { IsWidth w }
    requires to { IsWidth t }
    requires less { t < w }
    ensures { IfOk result (λ r. r ≡ expressions.clamped t (expressions.half w) e) }
{
    clamped(alloc, t, half(w), e)
}

/// A division by 255.
fn div255_from(alloc: Global, e: CExpr) -> Result<CExpr, AllocError>
    ensures { IfOk result (λ r. r ≡ expressions.from_sum stem.Div255 0 0 e) }
{
    let kept = copy(alloc, &e)?;
    let part = down(alloc, e, 8)?;
    let whole = two(alloc, COp::Add, kept, part)?;
    let cut = low(alloc, 16, whole)?;
    down(alloc, cut, 8)
}

/// The first result of a stem by the number that its formula has more than once.
pub fn from_sum(alloc: Global, stem: Stem, w: u32, t: u32, e: CExpr) -> Result<CExpr, AllocError>
    requires width { IsWidth w }
    requires to { IsWidth t }
    requires fits { fits stem w t ≡ true }
    ensures { IfOk result (λ r. r ≡ expressions.from_sum stem w t e) }
{
    match stem {
        Stem::Addss => clamped_sum(alloc, t, e),
        Stem::Addus => at_most(alloc, ones(t), e),
        Stem::Subss => clamped_sum(alloc, t, e),
        Stem::Convsss => clamped_distance(alloc, w, t, e),
        Stem::Div255 => div255_from(alloc, e),
        Stem::Divlu => at_most(alloc, 255, e),
        _ => Ok(e),
    }
}

/// The first result of a stem by that number.
fn by_sum(
    alloc: Global,
    stem: Stem,
    w: u32,
    t: u32,
    x: CExpr,
    y: CExpr,
) -> Result<CExpr, AllocError>
    requires width { IsWidth w }
    requires to { IsWidth t }
    requires fits { fits stem w t ≡ true }
    ensures { IfOk result (λ r. r ≡ expressions.from_sum stem w t (expressions.sum stem w t x y)) }
{
    let e = sum(alloc, stem, w, t, x, y)?;
    from_sum(alloc, stem, w, t, e)
}

/// The expression of a stem's first result from sources of w bits to t bits, by the expressions of its sources.
pub fn first(
    alloc: Global,
    stem: Stem,
    w: u32,
    t: u32,
    x: CExpr,
    y: CExpr,
) -> Result<CExpr, AllocError>
    requires width { IsWidth w }
    requires to { IsWidth t }
    requires fits { fits stem w t ≡ true }
    ensures { IfOk result (λ e. e ≡ first stem w t x y) }
{
    match stem {
        Stem::Add => low_two(alloc, t, COp::Add, x, y),
        Stem::Sub => low_two(alloc, t, COp::Sub, x, y),
        Stem::Subus => without(alloc, x, y),
        Stem::Mull => low_two(alloc, t, COp::Mul, x, y),
        Stem::Mulhs => mulhs(alloc, w, t, x, y),
        Stem::Mulhu => mulhu(alloc, w, x, y),
        Stem::Muls => muls(alloc, w, t, x, y),
        Stem::Mulu => two(alloc, COp::Mul, x, y),
        Stem::Avgs => avgs(alloc, w, t, x, y),
        Stem::Avgu => average(alloc, x, y),
        Stem::Accsad => accsad(alloc, x, y),
        Stem::Abs => abs(alloc, w, x),
        Stem::Sign => sign(alloc, w, t, x),
        Stem::Copy => Ok(x),
        Stem::And => two(alloc, COp::And, x, y),
        Stem::Andn => andn(alloc, w, x, y),
        Stem::Or => two(alloc, COp::Or, x, y),
        Stem::Xor => two(alloc, COp::Xor, x, y),
        Stem::Cmpeq => cmpeq(alloc, t, x, y),
        Stem::Cmpgts => cmpgts(alloc, w, t, x, y),
        Stem::Maxs => maxs(alloc, w, x, y),
        Stem::Mins => mins(alloc, w, x, y),
        Stem::Maxu => maxu(alloc, x, y),
        Stem::Minu => minu(alloc, x, y),
        Stem::Shl => shl(alloc, w, t, x, y),
        Stem::Shrs => shrs(alloc, w, t, x, y),
        Stem::Shru => shru(alloc, w, x, y),
        Stem::Convs => convs(alloc, w, t, x),
        Stem::Low => low(alloc, t, x),
        Stem::High => down(alloc, x, u64::from(t)),
        Stem::Convsus => convsus(alloc, w, t, x),
        Stem::Convuss => convuss(alloc, t, x),
        Stem::Convuus => convuus(alloc, t, x),
        Stem::Splat => splat(alloc, t, x),
        Stem::Splatw3 => splatw3(alloc, x),
        Stem::Merge => merge(alloc, w, x, y),
        Stem::Split => down(alloc, x, u64::from(t)),
        Stem::Swap => swap(alloc, w, x),
        Stem::Exchange => exchange(alloc, w, x),
        // those that have a sum
        _ => by_sum(alloc, stem, w, t, x, y),
    }
}
