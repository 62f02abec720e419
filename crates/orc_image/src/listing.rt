//! The listing of an image.

ghost use Rattle.std.specs.Prelude.{◌≡◌, ◌<◌, ◌≤◌, ◌^◌, ◌++◌, List, ℕ, length, take, OnOk, IfOk};
ghost use Rattle.orc_image.specs.Spelling.{ImageValue, FunctionValue};
ghost use Rattle.orc_image.specs.Listing.{Line, IsLine, AreLines, ListsCode, ListsFunctions, IsListing};
ghost use Rattle.orc_image.specs.Listing.{OneListing, hex_digit, hex, line_text, lines_text, function_line};

use crate::image::{Image, ImageFunction};
use crate::naming::mnemonic;
use std::alloc::{AllocError, Global};
use x86_decode::decode;

/// A hexadecimal digit, in lower case.
fn hex_digit(d: u8) -> u8
    requires { d < 16 }
    ensures { result ≡ hex_digit d }
{
    if d < 10 { b'0' + d } else { b'a' + (d - 10) }
}

/// Appends two digits for each byte.
#[tactic(auto, using(crate::proofs::Lines::hex_more))]
fn put_hex(out: &mut Vec<u8>, bytes: &[u8]) -> Result<(), AllocError>
    ensures { OnOk result (out.new.items ≡ out.old.items ++ hex bytes.now) }
{
    for b in bytes {
        out.extend_from_slice(&[hex_digit(*b / 16), hex_digit(*b % 16)])?;
    }
    Ok(())
}

/// Appends the line of some bytes of code.
#[tactic(auto, unfolding(crate::specs::Listing::line_text))]
fn put_line(out: &mut Vec<u8>, at: u32, bytes: &[u8], word: &str) -> Result<(), AllocError>
    ensures { OnOk result (out.new.items ≡ out.old.items ++ line_text at record { bytes = bytes.now; word = word.now }) }
{
    put_hex(out, &at.to_be_bytes())?;
    out.push(b' ')?;
    put_hex(out, bytes)?;
    out.push(b' ')?;
    out.extend_from_slice(word.as_bytes())?;
    out.push(b'\n')?;
    Ok(())
}

/// How many bytes the first line of the code has, and its word.
fn first_line(code: &[u8]) -> (usize, &'static str)
    requires { 0 < length code.now }
    ensures line { IsLine code.now record { bytes = take result.0 code.now; word = result.1.now } }
    ensures some { 0 < result.0 }
    ensures within { result.0 ≤ length code.now }
{
    match decode(code) {
        Some((ins, size)) => (size, mnemonic(&ins)),
        None => (1, "bad"),
    }
}

/// Appends the lines of a code.
fn put_code(out: &mut Vec<u8>, code: &[u8]) -> Result<(), AllocError>
    requires { length code.now < 2 ^ 32 }
    ensures { OnOk result ((text : List ℕ) × ListsCode code.now text × (out.new.items ≡ out.old.items ++ text)) }
{
    let mut at = 0;
    let mut rest = code;
    while !rest.is_empty() {
        let (size, word) = first_line(rest);
        let (front, more) = rest.split_at(size);
        put_line(out, at, front, word)?;
        at += size as u32;
        rest = more;
    }
    Ok(())
}

/// Appends the line of a function's name.
#[tactic(auto, unfolding(crate::specs::Listing::function_line))]
fn put_name(out: &mut Vec<u8>, name: &[u8]) -> Result<(), AllocError>
    ensures { OnOk result (out.new.items ≡ out.old.items ++ function_line name.now) }
{
    out.extend_from_slice(b"function ")?;
    out.extend_from_slice(name)?;
    out.push(b'\n')?;
    Ok(())
}

/// The listing of an image: for each function a line with its name, and a line for each instruction of its code,
/// with its offset in eight hexadecimal digits, its bytes and its mnemonic. Where no instruction's spelling begins
/// the code, the line has one byte and the word `bad`.
pub fn list(alloc: Global, image: &Image) -> Result<Vec<u8>, AllocError>
    ensures { IfOk result (λ v. IsListing image.now v.items) }
{
    let mut out = Vec::new(alloc);
    for f in image.functions.as_slice() {
        put_name(&mut out, f.name_bytes())?;
        put_code(&mut out, f.code_bytes())?;
    }
    Ok(out)
}

/// The law of one listing: an image has one listing at most. So `list` gives the only one.
pub fn one_listing()
    ensures { OneListing }
{}
