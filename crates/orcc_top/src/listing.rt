//! Listing an image or an object.
ghost use Rattle.std.specs.Prelude.{◌≡◌, ◌≤◌, true, false, length, map, IfOk};
ghost use Rattle.orc_image.specs.Spelling.{ImageOf};
ghost use Rattle.orc_image.specs.Fields.{refusal_in};
ghost use Rattle.orc_image.specs.Told.{UnlessMemory};
ghost use Rattle.orcc_top.specs.Images.{image_refusal};
ghost use Rattle.orcc_top.specs.Objects.{begins_elf, uncounted};
ghost use Rattle.orcc_top.specs.Replies.{Replies};

use crate::command::Command;
use crate::refusal::{Refusal, line_of};
use crate::reply::Reply;
use orc_elf::{ElfCode, ElfEntry, ElfError, read_elf};
use orc_image::{Image, ImageError, ImageFunction, list, read_image};
use orc_program::{Name, free_facts};
use sqlite_items::Items;
use std::alloc::{AllocError, Global};

/// The image that the bytes are, with none behind it.
fn only_image(alloc: Global, bytes: &[u8]) -> Result<Image, ImageError>
    ensures spelled { IfOk result (λ image. ImageOf bytes.now image) }
    ensures refused { UnlessMemory result (refusal_in result ≡ image_refusal bytes.now) }
{
    let (image, size) = read_image(alloc, bytes)?;
    if size < bytes.len() {
        return Err(ImageError::BadField { at: size });
    }
    Ok(image)
}

/// What `dis` answers to an input that doesn't begin as an object.
fn list_image(alloc: Global, input: &[u8]) -> Result<Reply, AllocError>
    requires short { length input.now ≤ 67108864 }
    requires image { begins_elf input.now ≡ false }
    ensures { IfOk result (λ reply. Replies Command.Dis input.now reply) }
{
    match only_image(alloc, input) {
        Ok(image) => Ok(Reply::Output(list(alloc, &image)?)),
        Err(error) => match error {
            ImageError::Memory => Err(AllocError),
            _ => Ok(Reply::Refusal(line_of(alloc, Refusal::Image(error))?)),
        },
    }
}

/// An object's function as one of an image, with all counts 0 and without facts.
fn function_of(alloc: Global, entry: &ElfEntry) -> Result<ImageFunction, AllocError>
    ensures { IfOk result (λ f. f ≡ uncounted entry.now) }
{
    let Some(name) = Name::new(entry.name_bytes()) else {
        unreachable!();
    };
    let code = Items::from_slice(alloc, entry.code_bytes())?;
    Ok(ImageFunction {
        name,
        two_d: false,
        dests: 0,
        sources: 0,
        params: 0,
        accs: 0,
        facts: free_facts(0),
        code,
    })
}

/// The image of an object's functions.
fn image_of(alloc: Global, object: &ElfCode) -> Result<Image, AllocError>
    ensures { IfOk result (λ image. image ≡ record { version = 1; functions = map uncounted object.now.entries }) }
{
    let _ = object.len();
    let mut image = Image::new(alloc, 1);
    for entry in object.entries.as_slice() {
        let f = function_of(alloc, entry)?;
        image.push(f)?;
    }
    Ok(image)
}

/// What `dis` answers to an input that begins as an object.
fn list_object(alloc: Global, input: &[u8]) -> Result<Reply, AllocError>
    requires short { length input.now ≤ 67108864 }
    requires object { begins_elf input.now ≡ true }
    ensures { IfOk result (λ reply. Replies Command.Dis input.now reply) }
{
    match read_elf(alloc, input) {
        Ok(object) => {
            let image = image_of(alloc, &object)?;
            Ok(Reply::Output(list(alloc, &image)?))
        }
        Err(error) => match error {
            ElfError::Memory => Err(AllocError),
            _ => Ok(Reply::Refusal(line_of(alloc, Refusal::Object(error))?)),
        },
    }
}

/// What `dis` answers to its input.
pub fn disassemble(alloc: Global, input: &[u8]) -> Result<Reply, AllocError>
    requires { length input.now ≤ 67108864 }
    ensures { IfOk result (λ reply. Replies Command.Dis input.now reply) }
{
    if input.starts_with(b"\x7fELF") {
        list_object(alloc, input)
    } else {
        list_image(alloc, input)
    }
}
