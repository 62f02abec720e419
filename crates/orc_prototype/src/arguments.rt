//! The arguments of a function's prototype in C, by their numbers.

ghost use Rattle.std.specs.Prelude.{◌≡◌, ◌≤◌, ◌<◌, ◌++◌, map, IfOk, OnOk};
ghost use Rattle.std.specs.List.{flat_map, range_with_len};
ghost use Rattle.orc_prototype.specs.declared.arguments.Argument.TheVariants as argument;
ghost use Rattle.orc_prototype.specs.Arguments.{IsSmall, shape_of, arguments, array_arguments, dest_arguments, source_arguments, width, dest_argument, sum_argument, source_argument, param_argument, elements_argument, rows_argument, argument_count, class_of};

use orc_program::variables::count_of;
use orc_program::{Function, VarKind, facts};
use std::alloc::{AllocError, Global};

/// An argument of the prototype. Each kind counts from 0, in order of declaration.
#[derive(Clone, Copy, Debug, PartialEq, Eq)]
pub enum Argument {
    /// The address of this dest.
    Dest(u8),
    /// The stride of this dest, in bytes.
    DestStride(u8),
    /// Where the sum of this accumulator is stored.
    Sum(u8),
    /// The address of this source.
    Source(u8),
    /// The stride of this source, in bytes.
    SourceStride(u8),
    /// This parameter.
    Param(u8),
    /// The number of elements of a row.
    Elements,
    /// The number of rows.
    Rows,
}

/// How an argument becomes a word.
#[derive(Clone, Copy, Debug, PartialEq, Eq)]
pub enum Class {
    /// It is one: a pointer, or an integer of 64 bits.
    Word,
    /// Its low 32 bits, sign-extended.
    Int,
    /// Its low 32 bits, and 0 where they are negative.
    Count,
}

/// What of a function decides its arguments.
#[derive(Clone, Copy, Debug)]
pub struct Shape {
    /// Whether it has rows.
    pub two_d: bool,
    /// Its dests.
    pub dests: usize,
    /// Its accumulators.
    pub sums: usize,
    /// Its sources.
    pub sources: usize,
    /// Its parameters.
    pub params: usize,
    /// The number of elements in every call, 0 where none is stated.
    pub elements: u32,
    /// The number of rows in every call, 0 where none is stated.
    pub rows: u32,
}

/// The shape of a function.
#[tactic(auto, using(crate::proofs::Few::small))]
pub fn shape_of(f: &Function) -> Shape
    ensures value { result ≡ shape_of f.now }
    ensures few { IsSmall result }
{
    let vars = f.vars.as_slice();
    let facts = facts(f);
    Shape {
        two_d: f.two_d,
        dests: count_of(vars, VarKind::Dest),
        sums: count_of(vars, VarKind::Accumulator),
        sources: count_of(vars, VarKind::Source),
        params: count_of(vars, VarKind::Param),
        elements: facts.n.exact,
        rows: facts.m.exact,
    }
}

/// Appends an array's address, and behind it its stride where there are rows.
fn put_array(
    out: &mut Vec<Argument>,
    two_d: bool,
    address: Argument,
    stride: Argument,
) -> Result<(), AllocError>
    ensures { OnOk result (out.new.items ≡ out.old.items ++ array_arguments two_d address stride) }
{
    out.push(address)?;
    if two_d {
        out.push(stride)?;
    }
    Ok(())
}

/// Appends the dests.
fn put_dests(out: &mut Vec<Argument>, two_d: bool, count: u8) -> Result<(), AllocError>
    ensures { OnOk result (out.new.items ≡ out.old.items ++ flat_map (dest_arguments two_d) (range_with_len 0 count)) }
{
    for k in 0..count {
        put_array(out, two_d, Argument::Dest(k), Argument::DestStride(k))?;
    }
    Ok(())
}

/// Appends the sources.
fn put_sources(out: &mut Vec<Argument>, two_d: bool, count: u8) -> Result<(), AllocError>
    ensures { OnOk result (out.new.items ≡ out.old.items ++ flat_map (source_arguments two_d) (range_with_len 0 count)) }
{
    for k in 0..count {
        put_array(out, two_d, Argument::Source(k), Argument::SourceStride(k))?;
    }
    Ok(())
}

/// Appends the accumulators.
fn put_sums(out: &mut Vec<Argument>, count: u8) -> Result<(), AllocError>
    ensures { OnOk result (out.new.items ≡ out.old.items ++ map argument.Sum (range_with_len 0 count)) }
{
    for g in 0..count {
        out.push(Argument::Sum(g))?;
    }
    Ok(())
}

/// Appends the parameters.
fn put_params(out: &mut Vec<Argument>, count: u8) -> Result<(), AllocError>
    ensures { OnOk result (out.new.items ≡ out.old.items ++ map argument.Param (range_with_len 0 count)) }
{
    for j in 0..count {
        out.push(Argument::Param(j))?;
    }
    Ok(())
}

/// The arguments of the prototype: the dests, the accumulators, the sources and the parameters, each in order of declaration, then n where
/// the text does not state its one value, and m where there are rows and the text does not state its one value. With rows each array's
/// stride stands behind its address.
pub fn argument_list(alloc: Global, shape: Shape) -> Result<Vec<Argument>, AllocError>
    requires small { IsSmall shape }
    ensures { IfOk result (λ list. list.items ≡ arguments shape) }
{
    let mut list = Vec::new(alloc);
    put_dests(&mut list, shape.two_d, shape.dests as u8)?;
    put_sums(&mut list, shape.sums as u8)?;
    put_sources(&mut list, shape.two_d, shape.sources as u8)?;
    put_params(&mut list, shape.params as u8)?;
    if shape.elements == 0 {
        list.push(Argument::Elements)?;
    }
    if shape.two_d && shape.rows == 0 {
        list.push(Argument::Rows)?;
    }
    Ok(list)
}

/// How many arguments an array has: its address, and with rows its stride.
fn width(shape: Shape) -> usize
    ensures value { result ≡ width shape }
    ensures few { result ≤ 2 }
{
    if shape.two_d { 2 } else { 1 }
}

/// The argument that is the address of a dest.
pub fn dest_argument(shape: Shape, number: usize) -> usize
    requires small { IsSmall shape }
    requires few { number < 4 }
    ensures value { result ≡ dest_argument shape number }
    ensures few { result < 64 }
{
    width(shape) * number
}

/// The argument that is the address of a source.
pub fn source_argument(shape: Shape, number: usize) -> usize
    requires small { IsSmall shape }
    requires few { number < 8 }
    ensures value { result ≡ source_argument shape number }
    ensures few { result < 64 }
{
    width(shape) * shape.dests + shape.sums + width(shape) * number
}

/// The argument that is the pointer of an accumulator.
pub fn sum_argument(shape: Shape, number: usize) -> usize
    requires small { IsSmall shape }
    requires few { number < 4 }
    ensures { result ≡ sum_argument shape number }
{
    width(shape) * shape.dests + number
}

/// The argument that is a parameter.
pub fn param_argument(shape: Shape, number: usize) -> usize
    requires small { IsSmall shape }
    requires few { number < 8 }
    ensures { result ≡ param_argument shape number }
{
    width(shape) * (shape.dests + shape.sources) + shape.sums + number
}

/// The argument n, or the one that is in its place.
pub fn elements_argument(shape: Shape) -> usize
    requires small { IsSmall shape }
    ensures value { result ≡ elements_argument shape }
    ensures few { result < 64 }
{
    width(shape) * (shape.dests + shape.sources) + shape.sums + shape.params
}

/// The argument m, or the one that is in its place.
pub fn rows_argument(shape: Shape) -> usize
    requires small { IsSmall shape }
    ensures value { result ≡ rows_argument shape }
    ensures few { result < 65 }
{
    elements_argument(shape) + usize::from(shape.elements == 0)
}

/// How many arguments there are.
pub fn argument_count(shape: Shape) -> usize
    requires small { IsSmall shape }
    ensures { result ≡ argument_count shape }
{
    rows_argument(shape) + usize::from(shape.two_d && shape.rows == 0)
}

/// The class of a parameter: whether it is said by `.longparam`.
pub fn class_of(long: bool) -> Class
    ensures { result ≡ class_of long }
{
    if long { Class::Word } else { Class::Int }
}
