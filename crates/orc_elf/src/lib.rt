//! Relocatable objects: functions with their code as an ELF64 file for x86-64, written by [`write_elf`] and read by
//! [`read_elf`].
//!
//! `specs/` defines the object's fields by their offsets and what each may hold (`Fields`, after the System V gABI), and
//! the bytes that are written (`Layout`).
#![tactic(auto)]

mod elf;
mod error;
mod field;
mod frames;
mod header;
mod library;
mod library_object;
mod number;
mod reading;
mod section;
mod writing;

pub use elf::{ElfCode, ElfEntries, ElfEntry};
pub use error::ElfError;
pub use library::{Library, Unwind, Unwinds};
pub use library_object::write_library;
pub use reading::{one_object, read_elf};
pub use writing::write_elf;
