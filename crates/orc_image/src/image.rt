//! Images and their functions.

ghost use Rattle.std.specs.Prelude.{◌≡◌, ◌<◌, ◌++◌, ◌∷◌, [], true, false, nat_eq, length, OnOk, OnErr};
ghost use Rattle.std.specs.Str.{bytes_eq};
ghost use Rattle.std.specs.List.{list_any};
ghost use Rattle.orc_program.specs.Facts.{is_free};
ghost use Rattle.orc_image.specs.Spelling.{IsFunction, IsImage, is_version, is_among, names};

use orc_bits::Code;
use orc_program::{Facts, Name};
use sqlite_items::Items;
use std::alloc::{AllocError, Global};
use std::marker::Model;

/// A compiled function of an image.
#[derive(Debug, Drop)]
pub struct ImageFunction {
    /// Its name, which no other function of the image has.
    pub name: Name,
    /// Whether it goes over rows.
    pub two_d: bool,
    /// How many arrays it writes, at most 4.
    pub dests: u8,
    /// How many arrays it only reads, at most 8.
    pub sources: u8,
    /// How many parameters it has, at most 8.
    pub params: u8,
    /// How many accumulators it has, at most 4.
    pub accs: u8,
    /// What every call of it meets, with an align for each array.
    pub facts: Facts,
    /// Its machine code, of 1 to 1,048,576 bytes.
    pub code: Code,
}

impl Model for ImageFunction {
    ghost use Rattle.orc_image.specs.Spelling.{FunctionValue, IsFunction};

    ghost Value = { FunctionValue };

    ghost view = { λ f. record {
      name = f.name;
      two_d = f.two_d;
      dests = f.dests;
      sources = f.sources;
      params = f.params;
      accs = f.accs;
      facts = f.facts;
      code = f.code;
    } };

    ghost invariant = { λ f. IsFunction record {
      name = f.name;
      two_d = f.two_d;
      dests = f.dests;
      sources = f.sources;
      params = f.params;
      accs = f.accs;
      facts = f.facts;
      code = f.code;
    } };
}

/// The functions of an image, in order.
pub type ImageFunctions = Items<ImageFunction>;

/// An image: at most 64 functions of different names. Version 1 has no facts.
#[derive(Debug, Drop)]
pub struct Image {
    /// The version of its spelling, 1 or 2.
    pub version: u8,
    /// The functions, in the order in which they stand.
    pub functions: ImageFunctions,
}

impl Model for Image {
    ghost use Rattle.orc_image.specs.Spelling.{ImageValue, IsImage};

    ghost Value = { ImageValue };

    ghost view = { λ i. record { version = i.version; functions = i.functions } };

    ghost invariant = { λ i. IsImage record { version = i.version; functions = i.functions } };
}

impl ImageFunction {
    /// The name's bytes.
    pub fn name_bytes(&self) -> &[u8]
        ensures bytes { result.now ≡ self.now.name }
        ensures kept { IsFunction self.now }
    {
        self.name.as_slice()
    }

    /// The code's bytes.
    pub fn code_bytes(&self) -> &[u8]
        ensures bytes { result.now ≡ self.now.code }
        ensures kept { IsFunction self.now }
    {
        self.code.as_slice()
    }
}

/// Whether a function has this name.
fn has_name(f: &ImageFunction, name: &[u8]) -> bool
    ensures { result ≡ bytes_eq name.now f.now.name }
{
    name == f.name_bytes()
}

/// Whether one of the functions has this name.
fn any_has_name(functions: &[ImageFunction], name: &[u8]) -> bool
    ensures { result ≡ list_any (λ f. bytes_eq name.now f.name) functions.now }
{
    functions.iter().any(|f| has_name(f, name))
}

impl Image {
    /// An image without functions, of version 1 or 2.
    pub fn new(alloc: Global, version: u8) -> Image
        requires { is_version version ≡ true }
        ensures empty { result ≡ record { version = version; functions = [] } }
        ensures kept { IsImage result }
    {
        Image {
            version,
            functions: Items::new(alloc),
        }
    }

    /// The number of functions.
    pub fn len(&self) -> usize
        ensures count { result ≡ length self.now.functions }
        ensures kept { IsImage self.now }
    {
        self.functions.len()
    }

    /// Whether there are no functions.
    pub fn is_empty(&self) -> bool
        ensures { result ≡ nat_eq (length self.now.functions) 0 }
    {
        self.functions.len() == 0
    }

    /// Whether a function of the image has this name.
    #[tactic(auto, using(crate::proofs::Growing::among_names))]
    pub fn contains(&self, name: &[u8]) -> bool
        ensures { result ≡ is_among (names self.now.functions) name.now }
    {
        any_has_name(self.functions.as_slice(), name)
    }

    /// Adds a function, whose name is new, behind the others. Version 1 takes functions without facts.
    pub fn push(&mut self, f: ImageFunction) -> Result<(), AllocError>
        requires room { length self.old.functions < 64 }
        requires new { is_among (names self.old.functions) f.name ≡ false }
        requires free { self.old.version ≡ 1 → is_free f.facts ≡ true }
        ensures ok { OnOk result (self.new ≡ record { version = self.old.version; functions = self.old.functions ++ f ∷ [] }) }
        ensures err { OnErr result (self.new ≡ self.old) }
        ensures kept { IsImage self.new }
    {
        let _ = f.name_bytes();
        self.functions.push(f)?;
        Ok(())
    }
}
