//! The functions of a library: an object that C links with.

ghost use Rattle.std.specs.Prelude.{◌≡◌, ◌<◌, ◌++◌, ◌∷◌, [], false, nat_eq, length, Option, OnOk, OnErr};
ghost use Rattle.orc_elf.specs.Entries.{is_among, names};
ghost use Rattle.orc_elf.specs.Library.{IsLibrary};

use crate::elf::{ElfEntries, ElfEntry, any_has_name};
use sqlite_items::Items;
use std::alloc::{AllocError, Global};
use std::marker::Model;

/// Where the code of a function that C calls moves the stack pointer. Its first instruction lowers it by 344.
#[derive(Clone, Copy, Debug, PartialEq, Eq)]
pub struct Unwind {
    /// The offset in the code of the instruction that lowers it by 2048, and behind which RBX, RBP and R12 to R15 are
    /// saved.
    pub body: u32,
    /// The offset behind the instruction that raises it by 2048 again.
    pub exit: u32,
}

/// For each function, where its code moves the stack pointer; `None` for one that never does.
pub type Unwinds = Items<Option<Unwind>>;

/// The functions of a library: at most 65, of different names.
#[derive(Debug, Drop)]
pub struct Library {
    /// The functions, in the order of their symbols.
    pub entries: ElfEntries,
    /// For each of them, where its code moves the stack pointer.
    pub unwinds: Unwinds,
}

impl Model for Library {
    ghost use Rattle.orc_elf.specs.Library.{LibraryValue, IsLibrary};

    ghost Value = { LibraryValue };

    ghost view = { λ l. record { entries = l.entries; unwinds = l.unwinds } };

    ghost invariant = { λ l. IsLibrary record { entries = l.entries; unwinds = l.unwinds } };
}

impl Library {
    /// No functions.
    pub fn new(alloc: Global) -> Library
        ensures empty { result ≡ record { entries = []; unwinds = [] } }
        ensures kept { IsLibrary result }
    {
        Library {
            entries: Items::new(alloc),
            unwinds: Items::new(alloc),
        }
    }

    /// The number of functions.
    pub fn len(&self) -> usize
        ensures count { result ≡ length self.now.entries }
        ensures kept { IsLibrary self.now }
    {
        self.entries.len()
    }

    /// Whether there are no functions.
    pub fn is_empty(&self) -> bool
        ensures { result ≡ nat_eq (length self.now.entries) 0 }
    {
        self.entries.len() == 0
    }

    /// Whether a function has this name.
    #[tactic(auto, using(crate::proofs::Growing::among_names))]
    pub fn contains(&self, name: &[u8]) -> bool
        ensures { result ≡ is_among (names self.now.entries) name.now }
    {
        any_has_name(self.entries.as_slice(), name)
    }

    /// Adds a function, whose name is new, behind the others.
    pub fn push(&mut self, e: ElfEntry, unwind: Option<Unwind>) -> Result<(), AllocError>
        requires room { length self.old.entries < 65 }
        requires new { is_among (names self.old.entries) e.name ≡ false }
        ensures ok { OnOk result (self.new ≡ record {
          entries = self.old.entries ++ e ∷ [];
          unwinds = self.old.unwinds ++ unwind ∷ [];
        }) }
        ensures err { OnErr result (self.new ≡ self.old) }
        ensures kept { IsLibrary self.new }
    {
        let _ = e.name_bytes();
        self.unwinds.push(unwind)?;
        let pushed = self.entries.push(e);
        if pushed.is_err() {
            let _last = self.unwinds.pop();
        }
        pushed
    }
}
