//! The statements of an instruction.

ghost use Rattle.std.specs.Prelude.{◌≡◌, ◌<◌, ◌≤◌, ◌+◌, ◌*◌, ◌-◌, ◌^◌, ◌++◌, true, IfOk, OnOk, length};
ghost use Rattle.std.specs.List.{list_all};
ghost use Rattle.orc_bits.specs.Widths.{IsWidth};
ghost use Rattle.orc_ops.specs.Table.{row, wide, to, size_of_source};
ghost use Rattle.orc_program.specs.Program as program;
ghost use Rattle.orc_program.specs.Program.{var_at};
ghost use Rattle.orc_program.specs.Kept.{is_in_range};
ghost use Rattle.c_emit.specs.Expressions as expressions;
ghost use Rattle.c_emit.specs.Body as body;
ghost use Rattle.c_emit.specs.Shapes.{Fits, is_there};

use crate::build::{low, moved, number, part, two, up, variable_of};
use crate::formulas::{first, from_sum, has_sum, is_copy, is_low, sum};
use c_run::{CBody, CExpr, CIndex, COp, CStmt};
use orc_bits::cut;
use orc_emul::{array_number, count, count_before, variable};
use orc_ops::{Op, results, sources, stem_of, to_of, wide_of};
use orc_program::{Function, Insn, Operand, VarKind};
use std::alloc::{AllocError, Global};

/// The number of the array at a place.
fn array_of(f: &Function, p: u16) -> u8
    requires { p < length f.now.vars }
    ensures { result ≡ program.array_number f.now.vars p }
{
    // which says how few variables there are, so that the number fits
    let _few = variable(f, p);
    array_number(f, p) as u8
}

/// The number of variables of a kind.
pub fn count_of(f: &Function, kind: VarKind) -> u8
    ensures value { result ≡ program.count_of kind f.now.vars }
    ensures few { result ≤ 184 }
{
    count(f.vars.as_slice(), kind) as u8
}

/// How many variables of a kind stand before a place.
fn number_of(f: &Function, kind: VarKind, p: u16) -> u8
    requires { p < length f.now.vars }
    ensures value { result ≡ program.count_before kind f.now.vars p }
    ensures few { result < 184 }
{
    // which says how few variables there are, so that the number fits
    let _few = variable(f, p);
    count_before(f, kind, p) as u8
}

/// The variable of the temp at a place.
fn temp_of(f: &Function, p: u16) -> u8
    requires { p < length f.now.vars }
    ensures { result ≡ body.temp_of f.now.vars p }
{
    number_of(f, VarKind::Temp, p)
}

/// The first variable behind those of the temps.
fn first_free(f: &Function) -> u8
    ensures value { result ≡ body.first_free f.now.vars }
    ensures few { result ≤ 184 }
{
    count_of(f, VarKind::Temp)
}

/// How many variables the cell of a source takes.
fn cells(f: &Function, source: Operand) -> u8
    requires { is_in_range f.now.vars source ≡ true }
    ensures value { result ≡ body.cells f.now.vars source }
    ensures few { result ≤ 1 }
{
    match source {
        Operand::Number(_) => 0,
        Operand::Var(p) => match variable(f, p).kind {
            VarKind::Source | VarKind::Dest => 1,
            VarKind::Accumulator | VarKind::Param | VarKind::Const | VarKind::Temp => 0,
        },
    }
}

/// How many variables the cells of sources take.
fn all_cells(f: &Function, from: &[Operand]) -> u8
    requires { list_all (is_in_range f.now.vars) from.now ≡ true }
    ensures value { result ≡ body.all_cells f.now.vars from.now }
    ensures few { result ≤ 2 }
{
    match from {
        [] => 0,
        [x] => cells(f, *x),
        [x, y, ..] => cells(f, *x) + cells(f, *y),
    }
}

/// The index of a byte of the cell of the array at a place.
fn index_of(f: &Function, p: u16, j: u8) -> CIndex
    requires { p < length f.now.vars }
    ensures { result ≡ body.index_of f.now.vars p j }
{
    CIndex {
        stride: array_of(f, p),
        size: variable(f, p).size,
        offset: j,
    }
}

/// The number in the bytes of a cell from byte j on, n of them and one more.
fn bytes_of(alloc: Global, f: &Function, p: u16, j: u8, n: u8) -> Result<CExpr, AllocError>
    requires inside { p < length f.now.vars }
    requires few { j + n < 100 }
    ensures { IfOk result (λ e. e ≡ body.bytes_of f.now.vars p j n) }
{
    let byte = CExpr::Byte(array_of(f, p), index_of(f, p, j));
    if n == 0 {
        return Ok(byte);
    }
    let others = bytes_of(alloc, f, p, j + 1, n - 1)?;
    let high = up(alloc, others, 8)?;
    two(alloc, COp::Add, byte, high)
}

/// What a variable gives, where its cell is in variable d: so many bits from one on.
fn bits_of_var(
    alloc: Global,
    f: &Function,
    from: u64,
    bits: u32,
    d: u8,
    p: u16,
) -> Result<CExpr, AllocError>
    requires inside { p < length f.now.vars }
    requires from { from < 2 ^ 63 }
    requires width { IsWidth bits }
    ensures { IfOk result (λ e. e ≡ body.bits_of_var f.now.vars from bits d p (var_at f.now.vars p).kind) }
{
    let var = variable(f, p);
    match var.kind {
        VarKind::Source | VarKind::Dest => part(alloc, var.size, from, bits, CExpr::V(d)),
        VarKind::Temp => part(alloc, var.size, from, bits, CExpr::V(temp_of(f, p))),
        VarKind::Param => low(alloc, bits, CExpr::P(number_of(f, VarKind::Param, p))),
        VarKind::Const => Ok(number(cut(var.number, bits))),
        VarKind::Accumulator => Ok(number(0)),
    }
}

/// What a source gives, where its cell, if it is an array, is in variable d: so many bits from one on. A number that is the same for all
/// sub-lanes gives its lowest bits.
fn bits_of(
    alloc: Global,
    f: &Function,
    from: u64,
    bits: u32,
    d: u8,
    source: Operand,
) -> Result<CExpr, AllocError>
    requires known { is_in_range f.now.vars source ≡ true }
    requires from { from < 2 ^ 63 }
    requires width { IsWidth bits }
    ensures { IfOk result (λ e. e ≡ body.bits_of f.now.vars from bits d source) }
{
    match source {
        Operand::Var(p) => bits_of_var(alloc, f, from, bits, d, p),
        Operand::Number(n) => Ok(number(cut(n, bits))),
    }
}

/// The first source of a sub-lane.
fn lane_first(
    alloc: Global,
    f: &Function,
    op: Op,
    q: u8,
    operands: &[Operand],
) -> Result<CExpr, AllocError>
    requires { list_all (is_in_range f.now.vars) operands.now ≡ true }
    ensures { IfOk result (λ e. e ≡ body.lane_first f.now.vars op q (body.first_free f.now.vars) operands.now) }
{
    match operands {
        [] => Ok(number(0)),
        [x, ..] => {
            let bits = wide_of(op);
            let from = u64::from(bits) * u64::from(q);
            bits_of(alloc, f, from, bits, first_free(f), *x)
        }
    }
}

/// The lowest bits of the first source of a sub-lane, as many as a result has.
fn lane_low(
    alloc: Global,
    f: &Function,
    op: Op,
    q: u8,
    operands: &[Operand],
) -> Result<CExpr, AllocError>
    requires { list_all (is_in_range f.now.vars) operands.now ≡ true }
    ensures { IfOk result (λ e. e ≡ body.lane_low f.now.vars op q (body.first_free f.now.vars) operands.now) }
{
    match operands {
        [] => Ok(number(0)),
        [x, ..] => {
            let from = u64::from(wide_of(op)) * u64::from(q);
            bits_of(alloc, f, from, to_of(op), first_free(f), *x)
        }
    }
}

/// The bits of the second source.
fn second_wide_of(op: Op) -> u32
    requires { is_there (size_of_source op 1) ≡ true }
    ensures value { result ≡ 8 * size_of_source op 1 }
    ensures width { IsWidth result }
{
    8 * u32::from(sources(op)[1])
}

/// The second source of a sub-lane.
fn lane_second(
    alloc: Global,
    f: &Function,
    op: Op,
    q: u8,
    operands: &[Operand],
) -> Result<CExpr, AllocError>
    requires known { list_all (is_in_range f.now.vars) operands.now ≡ true }
    requires there { 1 < length operands.now → is_there (size_of_source op 1) ≡ true }
    ensures { IfOk result (λ e. e ≡ body.lane_second f.now.vars op q (body.first_free f.now.vars) operands.now) }
{
    match operands {
        [] | [_] => Ok(number(0)),
        [x, y, ..] => {
            let d = first_free(f) + cells(f, *x);
            let bits = second_wide_of(op);
            let from = u64::from(bits) * u64::from(q);
            bits_of(alloc, f, from, bits, d, *y)
        }
    }
}

/// The first variable behind those of the cells.
fn sums_from(f: &Function, insn: &Insn) -> u8
    requires { Fits f.now.vars insn.now }
    ensures value { result ≡ body.sums_from f.now.vars insn.now }
    ensures few { result ≤ 186 }
{
    first_free(f) + all_cells(f, insn.sources.as_slice())
}

/// How many sums an instruction keeps.
fn sum_count(insn: &Insn) -> u8
    ensures value { result ≡ body.sum_count insn.now }
    ensures few { result ≤ insn.now.prefix }
{
    if has_sum(stem_of(insn.op)) {
        insn.prefix
    } else {
        0
    }
}

/// The sum of a sub-lane.
fn sum_at(alloc: Global, f: &Function, insn: &Insn, q: u8) -> Result<CExpr, AllocError>
    requires { Fits f.now.vars insn.now }
    ensures { IfOk result (λ e. e ≡ body.sum_at f.now.vars insn.now q) }
{
    let from = insn.sources.as_slice();
    let x = lane_first(alloc, f, insn.op, q, from)?;
    let y = lane_second(alloc, f, insn.op, q, from)?;
    sum(
        alloc,
        stem_of(insn.op),
        wide_of(insn.op),
        to_of(insn.op),
        x,
        y,
    )
}

/// The sums go to variables.
fn add_sums(alloc: Global, f: &Function, to: &mut CBody, insn: &Insn) -> Result<(), AllocError>
    requires { Fits f.now.vars insn.now }
    ensures { OnOk result (to.new ≡ to.old ++ body.sums f.now.vars insn.now (body.sum_count insn.now)) }
{
    for q in 0..sum_count(insn) {
        let e = sum_at(alloc, f, insn, q)?;
        to.push(CStmt::SetV(sums_from(f, insn) + q, e))?;
    }
    Ok(())
}

/// The first result on a sub-lane by its sum.
fn first_by_sum(alloc: Global, f: &Function, insn: &Insn, q: u8) -> Result<CExpr, AllocError>
    requires fits { Fits f.now.vars insn.now }
    requires few { q < 4 }
    ensures { IfOk result (λ e. e ≡
        expressions.from_sum (row insn.now.op).stem (wide insn.now.op) (to insn.now.op) (CExpr.V (body.sums_from f.now.vars insn.now + q))) }
{
    from_sum(
        alloc,
        stem_of(insn.op),
        wide_of(insn.op),
        to_of(insn.op),
        CExpr::V(sums_from(f, insn) + q),
    )
}

/// The first result on a sub-lane by its sources.
fn first_by_lanes(alloc: Global, f: &Function, insn: &Insn, q: u8) -> Result<CExpr, AllocError>
    requires { Fits f.now.vars insn.now }
    ensures { IfOk result (λ e. e ≡ expressions.first (row insn.now.op).stem (wide insn.now.op) (to insn.now.op)
        (body.lane_first f.now.vars insn.now.op q (body.first_free f.now.vars) insn.now.sources.items)
        (body.lane_second f.now.vars insn.now.op q (body.first_free f.now.vars) insn.now.sources.items)) }
{
    let from = insn.sources.as_slice();
    let x = lane_first(alloc, f, insn.op, q, from)?;
    let y = lane_second(alloc, f, insn.op, q, from)?;
    first(
        alloc,
        stem_of(insn.op),
        wide_of(insn.op),
        to_of(insn.op),
        x,
        y,
    )
}

/// The first result on a sub-lane.
fn first_at(alloc: Global, f: &Function, insn: &Insn, q: u8) -> Result<CExpr, AllocError>
    requires fits { Fits f.now.vars insn.now }
    requires few { q < 4 }
    ensures { IfOk result (λ e. e ≡ body.first_at f.now.vars insn.now q) }
{
    if has_sum(stem_of(insn.op)) {
        first_by_sum(alloc, f, insn, q)
    } else if is_low(stem_of(insn.op)) {
        lane_low(alloc, f, insn.op, q, insn.sources.as_slice())
    } else {
        first_by_lanes(alloc, f, insn, q)
    }
}

/// The second result on a sub-lane.
fn second_at(alloc: Global, f: &Function, insn: &Insn, q: u8) -> Result<CExpr, AllocError>
    requires { Fits f.now.vars insn.now }
    ensures { IfOk result (λ e. e ≡ body.second_at f.now.vars insn.now q) }
{
    lane_low(alloc, f, insn.op, q, insn.sources.as_slice())
}

/// The first results of all sub-lanes, packed.
fn packed_first(alloc: Global, f: &Function, insn: &Insn) -> Result<CExpr, AllocError>
    requires { Fits f.now.vars insn.now }
    ensures { IfOk result (λ e. e ≡ body.first_of f.now.vars insn.now) }
{
    let bits = 8 * u64::from(results(insn.op)[0]);
    let mut all = first_at(alloc, f, insn, 0)?;
    for k in 0..insn.prefix - 1 {
        let lane = first_at(alloc, f, insn, k + 1)?;
        let high = up(alloc, lane, bits * u64::from(k + 1))?;
        all = two(alloc, COp::Add, all, high)?;
    }
    Ok(all)
}

/// The second results of all sub-lanes, packed.
fn packed_second(alloc: Global, f: &Function, insn: &Insn) -> Result<CExpr, AllocError>
    requires { Fits f.now.vars insn.now }
    ensures { IfOk result (λ e. e ≡ body.second_of f.now.vars insn.now) }
{
    let bits = 8 * u64::from(results(insn.op)[1]);
    let mut all = second_at(alloc, f, insn, 0)?;
    for k in 0..insn.prefix - 1 {
        let lane = second_at(alloc, f, insn, k + 1)?;
        let high = up(alloc, lane, bits * u64::from(k + 1))?;
        all = two(alloc, COp::Add, all, high)?;
    }
    Ok(all)
}

/// The cell of an array goes to variable d.
fn add_read_var(
    alloc: Global,
    f: &Function,
    to: &mut CBody,
    d: u8,
    p: u16,
) -> Result<(), AllocError>
    requires { p < length f.now.vars }
    ensures { OnOk result (to.new ≡ to.old ++ body.reads_var f.now.vars d p (var_at f.now.vars p).kind) }
{
    let var = variable(f, p);
    match var.kind {
        VarKind::Source | VarKind::Dest => {
            let bytes = bytes_of(alloc, f, p, 0, var.size.saturating_sub(1))?;
            to.push(CStmt::SetV(d, bytes))
        }
        VarKind::Accumulator | VarKind::Param | VarKind::Const | VarKind::Temp => Ok(()),
    }
}

/// The cell of a source that is an array goes to variable d.
fn add_read(
    alloc: Global,
    f: &Function,
    to: &mut CBody,
    d: u8,
    source: Operand,
) -> Result<(), AllocError>
    requires { is_in_range f.now.vars source ≡ true }
    ensures { OnOk result (to.new ≡ to.old ++ body.reads_one f.now.vars d source) }
{
    match source {
        Operand::Var(p) => add_read_var(alloc, f, to, d, p),
        Operand::Number(_) => Ok(()),
    }
}

/// The cells of the sources that are arrays go to variables, from the left.
fn add_reads(
    alloc: Global,
    f: &Function,
    to: &mut CBody,
    from: &[Operand],
) -> Result<(), AllocError>
    requires { list_all (is_in_range f.now.vars) from.now ≡ true }
    ensures { OnOk result (to.new ≡ to.old ++ body.reads f.now.vars (body.first_free f.now.vars) from.now) }
{
    let d = first_free(f);
    match from {
        [] => Ok(()),
        [x] => add_read(alloc, f, to, d, *x),
        [x, y, ..] => {
            add_read(alloc, f, to, d, *x)?;
            add_read(alloc, f, to, d + cells(f, *x), *y)
        }
    }
}

/// The low bytes of a variable go to the cell of an array.
fn add_bytes(alloc: Global, f: &Function, to: &mut CBody, d: u8, p: u16) -> Result<(), AllocError>
    requires { p < length f.now.vars }
    ensures { OnOk result (to.new ≡ to.old ++ body.stores f.now.vars p d (var_at f.now.vars p).size) }
{
    for j in 0..variable(f, p).size {
        let byte = moved(alloc, CExpr::V(d), 8 * u64::from(j))?;
        to.push(CStmt::SetByte(array_of(f, p), index_of(f, p, j), byte))?;
    }
    Ok(())
}

/// An expression goes to the cell of an array, by way of variable d where it is longer than a byte and no variable.
fn add_stores(
    alloc: Global,
    f: &Function,
    to: &mut CBody,
    d: u8,
    p: u16,
    e: CExpr,
) -> Result<(), AllocError>
    requires { p < length f.now.vars }
    ensures { OnOk result (to.new ≡ to.old ++ body.stores_by f.now.vars d p e (expressions.variable_of e)) }
{
    match variable_of(&e) {
        Some(k) => add_bytes(alloc, f, to, k, p),
        None => {
            if variable(f, p).size == 1 {
                return to.push(CStmt::SetByte(array_of(f, p), index_of(f, p, 0), e));
            }
            to.push(CStmt::SetV(d, e))?;
            add_bytes(alloc, f, to, d, p)
        }
    }
}

/// An expression is added to a running sum.
fn add_sum(alloc: Global, f: &Function, to: &mut CBody, p: u16, e: CExpr) -> Result<(), AllocError>
    requires { p < length f.now.vars }
    ensures { OnOk result (to.new ≡ to.old ++ body.writes_var f.now.vars 0 p e VarKind.Accumulator) }
{
    let k = number_of(f, VarKind::Accumulator, p);
    let sum = two(alloc, COp::Add, CExpr::W(k), e)?;
    let cut = low(alloc, 8 * u32::from(variable(f, p).size), sum)?;
    to.push(CStmt::SetW(k, cut))
}

/// An expression goes to the variable at a place of the function, where variable d is free.
fn add_write_var(
    alloc: Global,
    f: &Function,
    to: &mut CBody,
    d: u8,
    p: u16,
    e: CExpr,
) -> Result<(), AllocError>
    requires { p < length f.now.vars }
    ensures { OnOk result (to.new ≡ to.old ++ body.writes_var f.now.vars d p e (var_at f.now.vars p).kind) }
{
    match variable(f, p).kind {
        VarKind::Dest => add_stores(alloc, f, to, d, p, e),
        VarKind::Temp => to.push(CStmt::SetV(temp_of(f, p), e)),
        VarKind::Accumulator => add_sum(alloc, f, to, p, e),
        VarKind::Source | VarKind::Param | VarKind::Const => Ok(()),
    }
}

/// An expression goes to a result, where variable d is free.
fn add_write(
    alloc: Global,
    f: &Function,
    to: &mut CBody,
    d: u8,
    into: Operand,
    e: CExpr,
) -> Result<(), AllocError>
    requires { is_in_range f.now.vars into ≡ true }
    ensures { OnOk result (to.new ≡ to.old ++ body.writes_one f.now.vars d e into) }
{
    match into {
        Operand::Var(p) => add_write_var(alloc, f, to, d, p, e),
        Operand::Number(_) => Ok(()),
    }
}

/// The results are written, where variable d is free and the next one. Of two the second is computed first, and written last.
fn add_writes(
    alloc: Global,
    f: &Function,
    to: &mut CBody,
    d: u8,
    insn: &Insn,
) -> Result<(), AllocError>
    requires fits { Fits f.now.vars insn.now }
    requires free { d < 255 }
    ensures { OnOk result (to.new ≡ to.old ++ body.writes f.now.vars d insn.now insn.now.results.items) }
{
    match insn.results.as_slice() {
        [] => Ok(()),
        [x] => {
            let first = packed_first(alloc, f, insn)?;
            add_write(alloc, f, to, d, *x, first)
        }
        [x, y, ..] => {
            let second = packed_second(alloc, f, insn)?;
            to.push(CStmt::SetV(d, second))?;
            let first = packed_first(alloc, f, insn)?;
            add_write(alloc, f, to, d + 1, *x, first)?;
            add_write(alloc, f, to, d + 1, *y, CExpr::V(d))
        }
    }
}

/// All sub-lanes of the variable at a place together: the cell of an array, or a temp.
fn whole_of_var(alloc: Global, f: &Function, p: u16) -> Result<Option<CExpr>, AllocError>
    requires { p < length f.now.vars }
    ensures { IfOk result (λ e. e ≡ body.whole_of_var f.now.vars p (var_at f.now.vars p).kind) }
{
    let var = variable(f, p);
    match var.kind {
        VarKind::Source | VarKind::Dest => {
            let bytes = bytes_of(alloc, f, p, 0, var.size.saturating_sub(1))?;
            Ok(Some(bytes))
        }
        VarKind::Temp => Ok(Some(CExpr::V(temp_of(f, p)))),
        VarKind::Accumulator | VarKind::Param | VarKind::Const => Ok(None),
    }
}

/// All sub-lanes of a source together.
fn whole_of(alloc: Global, f: &Function, source: Operand) -> Result<Option<CExpr>, AllocError>
    requires { is_in_range f.now.vars source ≡ true }
    ensures { IfOk result (λ e. e ≡ body.whole_of f.now.vars source) }
{
    match source {
        Operand::Var(p) => whole_of_var(alloc, f, p),
        Operand::Number(_) => Ok(None),
    }
}

/// All sub-lanes of the one source together.
fn whole_of_all(alloc: Global, f: &Function, from: &[Operand]) -> Result<Option<CExpr>, AllocError>
    requires { list_all (is_in_range f.now.vars) from.now ≡ true }
    ensures { IfOk result (λ e. e ≡ body.whole_of_all f.now.vars from.now) }
{
    match from {
        [x] => whole_of(alloc, f, *x),
        [] | [_, _, ..] => Ok(None),
    }
}

/// Whether an instruction's result is all that its source has: no sub-lane of it is widened beside another.
fn is_whole(insn: &Insn) -> bool
    ensures { result ≡ body.is_whole insn.now }
{
    is_copy(stem_of(insn.op)) && (wide_of(insn.op) == to_of(insn.op) || insn.prefix == 1)
}

/// What an instruction copies as a whole.
fn copied(alloc: Global, f: &Function, insn: &Insn) -> Result<Option<CExpr>, AllocError>
    requires { Fits f.now.vars insn.now }
    ensures { IfOk result (λ e. e ≡ body.copied f.now.vars insn.now) }
{
    if is_whole(insn) {
        whole_of_all(alloc, f, insn.sources.as_slice())
    } else {
        Ok(None)
    }
}

/// What is copied goes to the result.
fn add_copies(
    alloc: Global,
    f: &Function,
    to: &mut CBody,
    insn: &Insn,
    e: CExpr,
) -> Result<(), AllocError>
    requires { Fits f.now.vars insn.now }
    ensures { OnOk result (to.new ≡ to.old ++ body.copies f.now.vars e insn.now.results.items) }
{
    match insn.results.as_slice() {
        [] => Ok(()),
        [x, ..] => add_write(alloc, f, to, first_free(f), *x, e),
    }
}

/// The statements of an instruction that is more than a copy: its sources are read from the left, its sums are kept, and its results are
/// computed and written.
#[tactic(auto, unfolding(crate::specs::Body::works))]
fn add_works(alloc: Global, f: &Function, to: &mut CBody, insn: &Insn) -> Result<(), AllocError>
    requires { Fits f.now.vars insn.now }
    ensures { OnOk result (to.new ≡ to.old ++ body.works f.now.vars insn.now) }
{
    add_reads(alloc, f, to, insn.sources.as_slice())?;
    add_sums(alloc, f, to, insn)?;
    add_writes(alloc, f, to, sums_from(f, insn) + sum_count(insn), insn)
}

/// The statements of an instruction.
#[tactic(auto, unfolding(crate::specs::Body::insn_body))]
pub fn add_insn(alloc: Global, f: &Function, to: &mut CBody, insn: &Insn) -> Result<(), AllocError>
    requires { Fits f.now.vars insn.now }
    ensures { OnOk result (to.new ≡ to.old ++ body.insn_body f.now.vars insn.now) }
{
    let whole = copied(alloc, f, insn)?;
    match whole {
        Some(e) => add_copies(alloc, f, to, insn, e),
        None => add_works(alloc, f, to, insn),
    }
}
