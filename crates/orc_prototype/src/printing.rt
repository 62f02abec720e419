//! Headers of C.

ghost use Rattle.std.specs.Prelude.{◌≡◌, ◌++◌, ◌*◌, ◌+◌, map, IfOk, OnOk, MatchOption, Some, None};
ghost use Rattle.std.specs.Fmt.{decimal};
ghost use Rattle.orc_prototype.specs.Arguments.{is_long};
ghost use Rattle.orc_prototype.specs.Header.{lines_text, opening, closing, type_word, renamed, type_text, nth_of, element_type, numbered, pointer_text, stride_text, param_text, argument_text, more_arguments, arguments_text, declaration, prototype, prototypes, init_text, header_text};

use crate::arguments::{Argument, argument_list, shape_of};
use crate::longs::long_params;
use orc_program::variables::same_kind;
use orc_program::words::{is_align, is_same};
use orc_program::{Function, Name, Program, Var, VarKind, Word};
use std::alloc::{AllocError, Global};

/// The lines before the prototypes. Every part may be read twice: the typedefs and macros stand under names of their own, and a function may
/// be declared again. `ORC_RESTRICT` is nothing unless it is defined before, since a call may pass one array as a dest and as a source.
static OPENING: [&str; 36] = [
    "#pragma once",
    "",
    "#include <stdint.h>",
    "",
    "#ifdef __cplusplus",
    "extern \"C\" {",
    "#endif",
    "",
    "#ifndef _ORC_INTEGER_TYPEDEFS_",
    "#define _ORC_INTEGER_TYPEDEFS_",
    "typedef int8_t orc_int8;",
    "typedef int16_t orc_int16;",
    "typedef int32_t orc_int32;",
    "typedef int64_t orc_int64;",
    "typedef uint8_t orc_uint8;",
    "typedef uint16_t orc_uint16;",
    "typedef uint32_t orc_uint32;",
    "typedef uint64_t orc_uint64;",
    "#define ORC_UINT64_C(x) UINT64_C(x)",
    "typedef union { orc_int16 i; orc_int8 x2[2]; } orc_union16;",
    "typedef union { orc_int32 i; float f; orc_int16 x2[2]; orc_int8 x4[4]; } orc_union32;",
    "typedef union { orc_int64 i; double f; orc_int32 x2[2]; float x2f[2]; orc_int16 x4[4]; } orc_union64;",
    "#endif",
    "",
    "#ifndef ORC_RESTRICT",
    "#define ORC_RESTRICT",
    "#endif",
    "",
    "#ifndef ORC_INTERNAL",
    "#ifdef __GNUC__",
    "#define ORC_INTERNAL __attribute__((visibility(\"hidden\")))",
    "#else",
    "#define ORC_INTERNAL",
    "#endif",
    "#endif",
    "",
];

/// The lines behind the prototypes.
static CLOSING: [&str; 4] = ["", "#ifdef __cplusplus", "}", "#endif"];

/// The integer types of `stdint.h`, by their names in the header.
static INTEGER_TYPES: [(&str, &str); 8] = [
    ("int8_t", "orc_int8"),
    ("int16_t", "orc_int16"),
    ("int32_t", "orc_int32"),
    ("int64_t", "orc_int64"),
    ("uint8_t", "orc_uint8"),
    ("uint16_t", "orc_uint16"),
    ("uint32_t", "orc_uint32"),
    ("uint64_t", "orc_uint64"),
];

/// Appends lines, each with a line feed behind it.
fn put_lines(out: &mut Vec<u8>, lines: &[&str]) -> Result<(), AllocError>
    ensures { OnOk result (out.new.items ≡ out.old.items ++ lines_text (map (λ line. line.now) lines.now)) }
{
    let [line, rest @ ..] = lines else {
        return Ok(());
    };
    out.extend_from_slice(line.as_bytes())?;
    out.push(b'\n')?;
    put_lines(out, rest)
}

/// Appends the lines before the prototypes.
#[tactic(auto, unfolding(crate::specs::Header::opening))]
fn put_opening(out: &mut Vec<u8>) -> Result<(), AllocError>
    ensures { OnOk result (out.new.items ≡ out.old.items ++ opening) }
{
    put_lines(out, &OPENING)
}

/// Appends the lines behind the prototypes.
#[tactic(auto, unfolding(crate::specs::Header::closing))]
fn put_closing(out: &mut Vec<u8>) -> Result<(), AllocError>
    ensures { OnOk result (out.new.items ≡ out.old.items ++ closing) }
{
    put_lines(out, &CLOSING)
}

/// The first word that is neither `align` nor the number behind it.
fn type_word(words: &[Word]) -> Option<&[u8]>
    ensures { MatchOption result (type_word words.now ≡ None) (λ w. type_word words.now ≡ Some w.now) }
{
    match words {
        [] => None,
        [word] => {
            if is_align(word.as_slice()) {
                None
            } else {
                Some(word.as_slice())
            }
        }
        [word, _, rest @ ..] => {
            if is_align(word.as_slice()) {
                type_word(rest)
            } else {
                Some(word.as_slice())
            }
        }
    }
}

/// Appends the name of the first row with a word; the word itself where it is in no row.
fn put_renamed(out: &mut Vec<u8>, rows: &[(&str, &str)], word: &[u8]) -> Result<(), AllocError>
    ensures { OnOk result (out.new.items ≡ out.old.items ++ renamed (map (λ row. (row.0.now, row.1.now)) rows.now) word.now) }
{
    let [(name, here), rest @ ..] = rows else {
        return out.extend_from_slice(word);
    };
    if is_same(name.as_bytes(), word) {
        return out.extend_from_slice(here.as_bytes());
    }
    put_renamed(out, rest, word)
}

/// Appends the unsigned integer of a size in bytes.
fn put_unsigned(alloc: Global, out: &mut Vec<u8>, size: u8) -> Result<(), AllocError>
    ensures { OnOk result (out.new.items ≡ out.old.items ++ type_text None size) }
{
    let bits = 8 * u32::from(size);
    let number = format!(in alloc; "{bits}")?;
    out.extend_from_slice(b"orc_uint")?;
    out.extend_from_slice(number.as_bytes())
}

/// Appends the type of a variable's elements: the one that its words name, and else the unsigned integer of its size.
fn put_type(alloc: Global, out: &mut Vec<u8>, words: &[Word], size: u8) -> Result<(), AllocError>
    ensures { OnOk result (out.new.items ≡ out.old.items ++ type_text (type_word words.now) size) }
{
    match type_word(words) {
        Some(word) => put_renamed(out, &INTEGER_TYPES, word),
        None => put_unsigned(alloc, out, size),
    }
}

/// Appends the type of the elements of a variable of a kind, by its number in order of declaration.
#[tactic(auto, using(crate::proofs::NthOf::of_skip, crate::proofs::NthOf::of_here, crate::proofs::NthOf::of_next))]
fn put_type_of(
    alloc: Global,
    out: &mut Vec<u8>,
    vars: &[Var],
    kind: VarKind,
    number: u8,
) -> Result<(), AllocError>
    ensures { OnOk result (out.new.items ≡ out.old.items ++ element_type (nth_of kind vars.now number)) }
{
    let [var, rest @ ..] = vars else {
        return put_type(alloc, out, &[], 0);
    };
    if !same_kind(kind, var.kind) {
        return put_type_of(alloc, out, rest, kind, number);
    }
    if number == 0 {
        return put_type(alloc, out, var.words.as_slice(), var.size);
    }
    put_type_of(alloc, out, rest, kind, number - 1)
}

/// Appends a letter and a number, which is 1 for the first.
fn put_numbered(
    alloc: Global,
    out: &mut Vec<u8>,
    letter: &[u8],
    place: u8,
) -> Result<(), AllocError>
    ensures { OnOk result (out.new.items ≡ out.old.items ++ numbered letter.now place) }
{
    let number = u32::from(place) + 1;
    let text = format!(in alloc; "{number}")?;
    out.extend_from_slice(letter)?;
    out.extend_from_slice(text.as_bytes())
}

/// Appends a pointer to the elements of a variable.
fn put_pointer(
    alloc: Global,
    out: &mut Vec<u8>,
    vars: &[Var],
    kind: VarKind,
    letter: &[u8],
    place: u8,
) -> Result<(), AllocError>
    ensures { OnOk result (out.new.items ≡ out.old.items ++ pointer_text (element_type (nth_of kind vars.now place)) letter.now place) }
{
    put_type_of(alloc, out, vars, kind, place)?;
    out.extend_from_slice(b" * ORC_RESTRICT ")?;
    put_numbered(alloc, out, letter, place)
}

/// Appends a stride.
fn put_stride(alloc: Global, out: &mut Vec<u8>, letter: &[u8], place: u8) -> Result<(), AllocError>
    ensures { OnOk result (out.new.items ≡ out.old.items ++ stride_text letter.now place) }
{
    out.extend_from_slice(b"int ")?;
    put_numbered(alloc, out, letter, place)?;
    out.extend_from_slice(b"_stride")
}

/// Whether a parameter is declared by `.longparam`.
fn is_long(longs: &[bool], place: u8) -> bool
    ensures { result ≡ is_long longs.now place }
{
    match longs.get(usize::from(place)) {
        Some(long) => *long,
        None => false,
    }
}

/// Appends a parameter, which is declared by `.longparam` or not.
fn put_param(alloc: Global, out: &mut Vec<u8>, long: bool, place: u8) -> Result<(), AllocError>
    ensures { OnOk result (out.new.items ≡ out.old.items ++ param_text long place) }
{
    out.extend_from_slice(if long { b"orc_int64 " } else { b"int " })?;
    put_numbered(alloc, out, b"p", place)
}

/// Appends an argument.
fn put_argument(
    alloc: Global,
    out: &mut Vec<u8>,
    vars: &[Var],
    longs: &[bool],
    argument: Argument,
) -> Result<(), AllocError>
    ensures { OnOk result (out.new.items ≡ out.old.items ++ argument_text vars.now longs.now argument) }
{
    match argument {
        Argument::Dest(k) => put_pointer(alloc, out, vars, VarKind::Dest, b"d", k),
        Argument::DestStride(k) => put_stride(alloc, out, b"d", k),
        Argument::Sum(g) => put_pointer(alloc, out, vars, VarKind::Accumulator, b"a", g),
        Argument::Source(k) => {
            out.extend_from_slice(b"const ")?;
            put_pointer(alloc, out, vars, VarKind::Source, b"s", k)
        }
        Argument::SourceStride(k) => put_stride(alloc, out, b"s", k),
        Argument::Param(j) => put_param(alloc, out, is_long(longs, j), j),
        Argument::Elements => out.extend_from_slice(b"int n"),
        Argument::Rows => out.extend_from_slice(b"int m"),
    }
}

/// Appends arguments, each behind a comma and a space.
fn put_more_arguments(
    alloc: Global,
    out: &mut Vec<u8>,
    vars: &[Var],
    longs: &[bool],
    list: &[Argument],
) -> Result<(), AllocError>
    ensures { OnOk result (out.new.items ≡ out.old.items ++ more_arguments vars.now longs.now list.now) }
{
    let [argument, rest @ ..] = list else {
        return Ok(());
    };
    out.extend_from_slice(b", ")?;
    put_argument(alloc, out, vars, longs, *argument)?;
    put_more_arguments(alloc, out, vars, longs, rest)
}

/// Appends arguments, parted by a comma and a space.
fn put_arguments(
    alloc: Global,
    out: &mut Vec<u8>,
    vars: &[Var],
    longs: &[bool],
    list: &[Argument],
) -> Result<(), AllocError>
    ensures { OnOk result (out.new.items ≡ out.old.items ++ arguments_text vars.now longs.now list.now) }
{
    let [first, rest @ ..] = list else {
        return out.extend_from_slice(b"void");
    };
    put_argument(alloc, out, vars, longs, *first)?;
    put_more_arguments(alloc, out, vars, longs, rest)
}

/// Appends the declaration of a function of a name and arguments that returns nothing.
fn put_declaration(out: &mut Vec<u8>, name: &[u8], list: &[u8]) -> Result<(), AllocError>
    ensures { OnOk result (out.new.items ≡ out.old.items ++ declaration name.now list.now) }
{
    out.extend_from_slice(b"void ")?;
    out.extend_from_slice(name)?;
    out.extend_from_slice(b" (")?;
    out.extend_from_slice(list)?;
    out.extend_from_slice(b");\n")
}

/// Appends a function's prototype.
#[tactic(auto, unfolding(crate::specs::Header::prototype))]
fn put_prototype(
    alloc: Global,
    out: &mut Vec<u8>,
    text: &[u8],
    f: &Function,
) -> Result<(), AllocError>
    ensures { OnOk result (out.new.items ≡ out.old.items ++ prototype text.now f.now) }
{
    let name = f.name.as_slice();
    let longs = long_params(alloc, text, name)?;
    let arguments = argument_list(alloc, shape_of(f))?;
    let mut list = Vec::new(alloc);
    put_arguments(
        alloc,
        &mut list,
        f.vars.as_slice(),
        longs.as_slice(),
        arguments.as_slice(),
    )?;
    put_declaration(out, name, list.as_slice())
}

/// Appends the functions' prototypes.
fn put_prototypes(
    alloc: Global,
    out: &mut Vec<u8>,
    text: &[u8],
    functions: &[Function],
) -> Result<(), AllocError>
    ensures { OnOk result (out.new.items ≡ out.old.items ++ prototypes text.now functions.now) }
{
    let [f, rest @ ..] = functions else {
        return Ok(());
    };
    put_prototype(alloc, out, text, f)?;
    put_prototypes(alloc, out, text, rest)
}

/// Appends the prototype of the function that `.init` names.
fn put_init(out: &mut Vec<u8>, init: &Option<Name>) -> Result<(), AllocError>
    ensures { OnOk result (out.new.items ≡ out.old.items ++ init_text init.now) }
{
    match init {
        Some(name) => put_declaration(out, name.as_slice(), b"void"),
        None => Ok(()),
    }
}

/// The header in C of a program, which the text reads as: the types of `stdint.h` by their names `orc_int8` to `orc_uint64`, and for each
/// function in order its prototype, then `void NAME (void);` for the name behind `.init`. Dests are named d1, d2, .., accumulators a1, ..,
/// sources s1, .. and parameters p1, .., whatever the text calls them. A type is the one that the text names, and else the unsigned integer
/// of the size.
#[tactic(auto, unfolding(crate::specs::Header::header_text))]
pub fn header(alloc: Global, p: &Program, text: &[u8]) -> Result<Vec<u8>, AllocError>
    ensures { IfOk result (λ header. header.items ≡ header_text p.now text.now) }
{
    let mut out = Vec::new(alloc);
    put_opening(&mut out)?;
    put_prototypes(alloc, &mut out, text, p.functions.as_slice())?;
    put_init(&mut out, &p.init)?;
    put_closing(&mut out)?;
    Ok(out)
}
