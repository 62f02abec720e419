//! Writing an image.

ghost use Rattle.std.specs.Prelude.{◌≡◌, ◌≤◌, ◌++◌, ◌∷◌, [], length, IfOk, OnOk};
ghost use Rattle.std.specs.Int.{w16, w32, to_le_bytes};
ghost use Rattle.orc_image.specs.Spelling.{ImageOf, count_bytes, slots_bytes, facts_bytes, function_bytes, functions_bytes, image_bytes};

use crate::image::{Image, ImageFunction};
use orc_program::{CountFacts, Facts};
use std::alloc::{AllocError, Global};

/// Appends a number of four bytes, lowest first.
fn put_number(out: &mut Vec<u8>, number: u32) -> Result<(), AllocError>
    ensures { OnOk result (out.new.items ≡ out.old.items ++ to_le_bytes w32 number) }
{
    out.extend_from_slice(&number.to_le_bytes())
}

/// Appends what is stated of a count.
fn put_count(out: &mut Vec<u8>, facts: CountFacts) -> Result<(), AllocError>
    ensures { OnOk result (out.new.items ≡ out.old.items ++ count_bytes facts) }
{
    put_number(out, facts.exact)?;
    put_number(out, facts.mult)?;
    put_number(out, facts.min)?;
    put_number(out, facts.max)?;
    Ok(())
}

/// Appends an align of two bytes, lowest first.
fn put_align(out: &mut Vec<u8>, align: u16) -> Result<(), AllocError>
    ensures { OnOk result (out.new.items ≡ out.old.items ++ to_le_bytes w16 align) }
{
    out.extend_from_slice(&align.to_le_bytes())
}

/// Appends so many slots with aligns, and 1 in those behind them.
fn put_slots(out: &mut Vec<u8>, slots: usize, aligns: &[u16]) -> Result<(), AllocError>
    ensures { OnOk result (out.new.items ≡ out.old.items ++ slots_bytes slots aligns.now) }
{
    if slots == 0 {
        return Ok(());
    }
    match aligns {
        [] => {
            put_align(out, 1)?;
            put_slots(out, slots - 1, &[])?;
        }
        [align, rest @ ..] => {
            put_align(out, *align)?;
            put_slots(out, slots - 1, rest)?;
        }
    }
    Ok(())
}

/// Appends the facts of a function with so many dests, which version 1 doesn't have.
fn put_facts(out: &mut Vec<u8>, version: u8, dests: usize, facts: &Facts) -> Result<(), AllocError>
    requires { dests ≤ length facts.now.aligns.items }
    ensures { OnOk result (out.new.items ≡ out.old.items ++ facts_bytes version dests facts.now) }
{
    if version != 2 {
        return Ok(());
    }
    put_count(out, facts.n)?;
    put_count(out, facts.m)?;
    let (dest_aligns, source_aligns) = facts.aligns.as_slice().split_at(dests);
    put_slots(out, 4, dest_aligns)?;
    put_slots(out, 8, source_aligns)?;
    Ok(())
}

/// Appends a function's bytes.
fn put_function(out: &mut Vec<u8>, version: u8, f: &ImageFunction) -> Result<(), AllocError>
    ensures { OnOk result (out.new.items ≡ out.old.items ++ function_bytes version f.now) }
{
    let name = f.name_bytes();
    out.push(name.len() as u8)?;
    out.extend_from_slice(name)?;
    out.extend_from_slice(&[u8::from(f.two_d), f.dests, f.sources, f.params, f.accs])?;
    put_facts(out, version, usize::from(f.dests), &f.facts)?;
    out.extend_from_slice(&(f.code.len() as u32).to_le_bytes())?;
    out.extend_from_slice(f.code.as_slice())
}

/// The bytes of an image. Each image has one spelling.
pub fn write_image(alloc: Global, image: &Image) -> Result<Vec<u8>, AllocError>
    ensures { IfOk result (λ v. ImageOf v.items image.now) }
{
    let mut out = Vec::new(alloc);
    out.extend_from_slice(b"ORCI")?;
    out.push(image.version)?;
    out.push(image.len() as u8)?;
    for f in image.functions.as_slice() {
        put_function(&mut out, image.version, f)?;
    }
    Ok(out)
}
