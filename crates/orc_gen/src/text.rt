//! The text.
ghost use Rattle.std.specs.Prelude.{◌≡◌, ◌++◌, ◌*◌, ◌<◌, [], OnOk, slice_index_or};
ghost use Rattle.orc_gen.specs.Generator.{joined, after, opcodes, head_text, load_line, insn_line, insns_text, function_text, text_of};

use crate::drawing::draw;
use std::alloc::{AllocError, Global};

/// The name of an opcode that is drawn.
fn opcode(number: u32) -> &'static str
    requires { number < 16 }
    ensures { result.now ≡ slice_index_or opcodes number [] }
{
    match number {
        0 => "addl",
        1 => "subl",
        2 => "xorl",
        3 => "andl",
        4 => "orl",
        5 => "andnl",
        6 => "addssl",
        7 => "addusl",
        8 => "subssl",
        9 => "subusl",
        10 => "maxsl",
        11 => "minul",
        12 => "mulll",
        13 => "mulhsl",
        14 => "avgsl",
        _ => "cmpgtsl",
    }
}

/// Appends the lines that declare a function.
fn put_head(alloc: Global, out: &mut Vec<u8>, number: u32) -> Result<(), AllocError>
    ensures { OnOk result (out.new.items ≡ out.old.items ++ head_text number) }
{
    let lines = format!(in alloc;
        ".function g{number}\n.dest 4 d1\n.source 4 s1\n.source 4 s2\n.temp 4 t0\n.temp 4 t1\n.temp 4 t2\n.temp 4 t3\n.temp 4 t4\n.temp 4 t5\n.temp 4 t6\n.temp 4 t7\n"
    )?;
    out.extend_from_slice(lines.as_bytes())
}

/// Appends the line that sets a temp.
fn put_load(alloc: Global, out: &mut Vec<u8>, number: u32) -> Result<(), AllocError>
    ensures { OnOk result (out.new.items ≡ out.old.items ++ load_line number) }
{
    let source = number % 2 + 1;
    let line = format!(in alloc; "loadl t{number}, s{source}\n")?;
    out.extend_from_slice(line.as_bytes())
}

/// Appends the lines that set the temps.
#[tactic(auto, using(crate::proofs::Draws::nothing_joined, crate::proofs::Draws::more_joined))]
fn put_loads(alloc: Global, out: &mut Vec<u8>) -> Result<(), AllocError>
    ensures { OnOk result (out.new.items ≡ out.old.items ++ joined load_line 8) }
{
    for number in 0..8 {
        put_load(alloc, out, number)?;
    }
    Ok(())
}

/// Appends the line of four draws.
#[tactic(auto, using(crate::proofs::Draws::after_after))]
fn put_insn(alloc: Global, out: &mut Vec<u8>, state: &mut u64) -> Result<(), AllocError>
    ensures line { OnOk result (out.new.items ≡ out.old.items ++ insn_line state.old) }
    ensures state { state.new ≡ after 4 state.old }
{
    let op = opcode(draw(state) % 16);
    let to = draw(state) % 8;
    let first = draw(state) % 8;
    let second = draw(state) % 8;
    let line = format!(in alloc; "{op} t{to}, t{first}, t{second}\n")?;
    out.extend_from_slice(line.as_bytes())
}

/// Appends the lines of 80 instructions.
fn put_insns(alloc: Global, out: &mut Vec<u8>, state: &mut u64) -> Result<(), AllocError>
    ensures lines { OnOk result (out.new.items ≡ out.old.items ++ insns_text state.old) }
    ensures state { OnOk result (state.new ≡ after 320 state.old) }
{
    for _ in 0..80u32 {
        put_insn(alloc, out, state)?;
    }
    Ok(())
}

/// Appends a function.
#[tactic(auto, unfolding(crate::specs::Generator::function_text))]
fn put_function(
    alloc: Global,
    out: &mut Vec<u8>,
    state: &mut u64,
    number: u32,
) -> Result<(), AllocError>
    ensures text { OnOk result (out.new.items ≡ out.old.items ++ function_text state.old number) }
    ensures state { OnOk result (state.new ≡ after 320 state.old) }
{
    put_head(alloc, out, number)?;
    put_loads(alloc, out)?;
    put_insns(alloc, out, state)?;
    out.extend_from_slice(b"storel d1, t0\n")
}

/// Appends the text, for which 2560 numbers are drawn.
#[tactic(auto, unfolding(crate::specs::Generator::text_of))]
pub fn put_text(alloc: Global, out: &mut Vec<u8>, state: &mut u64) -> Result<(), AllocError>
    ensures text { OnOk result (out.new.items ≡ out.old.items ++ text_of state.old) }
    ensures state { OnOk result (state.new ≡ after 2560 state.old) }
{
    for number in 0..8 {
        put_function(alloc, out, state, number)?;
    }
    Ok(())
}
