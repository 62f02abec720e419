//! Which parameters a text declares by `.longparam`.

ghost use Rattle.std.specs.Prelude.{◌≡◌, ◌++◌, IfOk, OnOk, option_to_list};
ghost use Rattle.orc_words.specs.Text.{lines};
ghost use Rattle.orc_prototype.specs.Longs.{begins_with, starts, long_said, params_in, long_params};

use orc_program::words::is_same;
use orc_words::{content, next_line, word};
use std::alloc::{AllocError, Global};

/// Whether the first word of a line is this one.
fn begins_with(line: &[u8], first: &[u8]) -> bool
    ensures { result ≡ begins_with first.now line.now }
{
    is_same(word(content(line), 0), first)
}

/// Whether a function of this name starts at a line.
fn starts(line: &[u8], name: &[u8]) -> bool
    ensures { result ≡ starts name.now line.now }
{
    begins_with(line, b".function") && is_same(word(content(line), 1), name)
}

/// Where a line declares a parameter: whether by `.longparam`.
fn long_said(line: &[u8]) -> Option<bool>
    ensures { result ≡ long_said line.now }
{
    if begins_with(line, b".longparam") {
        Some(true)
    } else if begins_with(line, b".param") {
        Some(false)
    } else {
        None
    }
}

/// Appends what a line says of a parameter.
fn put_said(longs: &mut Vec<bool>, line: &[u8]) -> Result<(), AllocError>
    ensures { OnOk result (longs.new.items ≡ longs.old.items ++ option_to_list (long_said line.now)) }
{
    match long_said(line) {
        Some(long) => {
            longs.push(long)?;
            Ok(())
        }
        None => Ok(()),
    }
}

/// For each parameter that lines declare, up to the start of the next function: whether by `.longparam`.
fn params_in(alloc: Global, text: &[u8]) -> Result<Vec<bool>, AllocError>
    ensures { IfOk result (λ longs. longs.items ≡ params_in (lines text.now)) }
{
    let mut longs = Vec::new(alloc);
    let mut rest = text;
    while !rest.is_empty() {
        let (line, more) = next_line(rest);
        if begins_with(line, b".function") {
            return Ok(longs);
        }
        put_said(&mut longs, line)?;
        rest = more;
    }
    Ok(longs)
}

/// For each parameter of the first function of this name in a text, in order of declaration: whether it is declared by `.longparam`.
/// Nothing where the text has no such function.
#[tactic(auto, unfolding(crate::specs::Longs::long_params))]
pub fn long_params(alloc: Global, text: &[u8], name: &[u8]) -> Result<Vec<bool>, AllocError>
    ensures { IfOk result (λ longs. longs.items ≡ long_params text.now name.now) }
{
    let mut rest = text;
    while !rest.is_empty() {
        let (line, more) = next_line(rest);
        if starts(line, name) {
            return params_in(alloc, more);
        }
        rest = more;
    }
    Ok(Vec::new(alloc))
}
