//! The functions of an object.

ghost use Rattle.std.specs.Prelude.{◌≡◌, ◌<◌, ◌++◌, ◌∷◌, [], false, nat_eq, length, OnOk, OnErr};
ghost use Rattle.std.specs.Str.{bytes_eq};
ghost use Rattle.std.specs.List.{list_any};
ghost use Rattle.orc_elf.specs.Entries.{IsEntry, IsElf, is_among, names};

use orc_bits::Code;
use orc_program::Name;
use sqlite_items::Items;
use std::alloc::{AllocError, Global};
use std::marker::Model;

/// A function of an object.
#[derive(Debug, Drop)]
pub struct ElfEntry {
    /// Its name, which no other function of the object has: a global symbol.
    pub name: Name,
    /// Its machine code, of 1 to 1,048,576 bytes.
    pub code: Code,
}

impl Model for ElfEntry {
    ghost use Rattle.orc_elf.specs.Entries.{EntryValue, IsEntry};

    ghost Value = { EntryValue };

    ghost view = { λ e. record { name = e.name; code = e.code } };

    ghost invariant = { λ e. IsEntry record { name = e.name; code = e.code } };
}

/// Functions of an object, in order.
pub type ElfEntries = Items<ElfEntry>;

/// The functions of an object: at most 64, of different names.
#[derive(Debug, Drop)]
pub struct ElfCode {
    /// The functions, in the order of their symbols.
    pub entries: ElfEntries,
}

impl Model for ElfCode {
    ghost use Rattle.orc_elf.specs.Entries.{ElfValue, IsElf};

    ghost Value = { ElfValue };

    ghost view = { λ e. record { entries = e.entries } };

    ghost invariant = { λ e. IsElf record { entries = e.entries } };
}

impl ElfEntry {
    /// The name's bytes.
    pub fn name_bytes(&self) -> &[u8]
        ensures bytes { result.now ≡ self.now.name }
        ensures kept { IsEntry self.now }
    {
        self.name.as_slice()
    }

    /// The code's bytes.
    pub fn code_bytes(&self) -> &[u8]
        ensures bytes { result.now ≡ self.now.code }
        ensures kept { IsEntry self.now }
    {
        self.code.as_slice()
    }
}

/// Whether a function has this name.
fn has_name(e: &ElfEntry, name: &[u8]) -> bool
    ensures { result ≡ bytes_eq name.now e.now.name }
{
    name == e.name_bytes()
}

/// Whether one of the functions has this name.
pub fn any_has_name(entries: &[ElfEntry], name: &[u8]) -> bool
    ensures { result ≡ list_any (λ e. bytes_eq name.now e.name) entries.now }
{
    entries.iter().any(|e| has_name(e, name))
}

impl ElfCode {
    /// No functions.
    pub fn new(alloc: Global) -> ElfCode
        ensures empty { result ≡ record { entries = [] } }
        ensures kept { IsElf result }
    {
        ElfCode {
            entries: Items::new(alloc),
        }
    }

    /// The number of functions.
    pub fn len(&self) -> usize
        ensures count { result ≡ length self.now.entries }
        ensures kept { IsElf self.now }
    {
        self.entries.len()
    }

    /// Whether there are no functions.
    pub fn is_empty(&self) -> bool
        ensures { result ≡ nat_eq (length self.now.entries) 0 }
    {
        self.entries.len() == 0
    }

    /// Whether a function has this name.
    #[tactic(auto, using(crate::proofs::Growing::among_names))]
    pub fn contains(&self, name: &[u8]) -> bool
        ensures { result ≡ is_among (names self.now.entries) name.now }
    {
        any_has_name(self.entries.as_slice(), name)
    }

    /// Adds a function, whose name is new, behind the others.
    pub fn push(&mut self, e: ElfEntry) -> Result<(), AllocError>
        requires room { length self.old.entries < 64 }
        requires new { is_among (names self.old.entries) e.name ≡ false }
        ensures ok { OnOk result (self.new ≡ record { entries = self.old.entries ++ e ∷ [] }) }
        ensures err { OnErr result (self.new ≡ self.old) }
        ensures kept { IsElf self.new }
    {
        let _ = e.name_bytes();
        self.entries.push(e)?;
        Ok(())
    }
}
