//! Reading an image.

ghost use Rattle.std.specs.Prelude.{◌≡◌, ◌≢◌, ◌+◌, ◌<◌, ◌≤◌, ◌^◌, ◌++◌, ◌∷◌, ◌&&◌, ◌==◌, ℕ, List, [], true, if◌then◌else◌};
ghost use Rattle.std.specs.Prelude.{false, length, IfOk, OnOk, Ok, Err, MatchResult};
ghost use Rattle.std.specs.Int.{w16, w32, to_le_bytes};
ghost use Rattle.orc_program.specs.Words.{is_name};
ghost use Rattle.orc_program.specs.Facts.{most_count, least_multiple, is_count_facts, is_free_count, is_facts, is_free};
ghost use Rattle.orc_image.specs.Spelling.{FunctionValue, ImageValue, IsFunction, IsImage, ImageBegins, OneImage, names, is_version};
ghost use Rattle.orc_image.specs.Spelling.{is_among, count_bytes, facts_bytes, function_bytes, functions_bytes, image_bytes, bit, magic};
ghost use Rattle.orc_image.specs.Fields.{Cursor, bytes_at, word_at, byte_at, number_at, half_at, is_new, name_at, code_at};
ghost use Rattle.orc_image.specs.Fields.{count_at, is_allowed_align, aligns_at, stated_at, facts_at, version_at};
ghost use Rattle.orc_image.specs.Fields.{function_at, functions_at, head_at, image_with, image_at, refusal_in, first_bad_field};
ghost use Rattle.orc_image.specs.Told.{Gives, UnlessMemory, with_aligns, HasAligns};

use crate::error::ImageError;
use crate::image::{Image, ImageFunction};
use arrayvec::ArrayVec;
use orc_program::words::is_align_number;
use orc_program::{CountFacts, Facts, MOST_COUNT, Name, free_facts, least_multiple};
use sqlite_items::Items;
use std::alloc::Global;
use std::marker::Model;

/// What is left of an image's bytes, and the offset at which it stands.
#[derive(Drop)]
struct Reader<'t> {
    at: usize,
    rest: &'t [u8],
}

impl<'t> Model for Reader<'t> {
    ghost use Rattle.std.specs.Prelude.{◌+◌, ◌<◌, ◌^◌, length};
    ghost use Rattle.orc_image.specs.Fields.{Cursor};

    ghost Value = { Cursor };

    ghost view = { λ r. record { at = r.at; rest = r.rest.now } };

    ghost invariant = { λ r. r.at + length r.rest.now < 2 ^ 63 };
}

impl<'t> Reader<'t> {
    fn new(bytes: &'t [u8]) -> Reader<'t>
        ensures { result ≡ record { at = 0; rest = bytes.now } }
    {
        let _ = bytes.len();
        Reader { at: 0, rest: bytes }
    }

    /// The offset of the next field.
    fn offset(&self) -> usize
        ensures { result ≡ self.now.at }
    {
        self.at
    }

    /// So many bytes.
    fn take(&mut self, n: usize) -> Result<&'t [u8], ImageError>
        requires { n < 2 ^ 32 }
        ensures gives { Gives (λ x. x.now) result self.new (bytes_at n self.old) }
        ensures spelled { IfOk result (λ x. (self.old.rest ≡ x.now ++ self.new.rest)
            × (self.new.at ≡ self.old.at + length x.now)) }
    {
        if self.rest.len() < n {
            return Err(ImageError::Short { need: self.at + n });
        }
        let (front, rest) = self.rest.split_at(n);
        self.at += n;
        self.rest = rest;
        Ok(front)
    }

    /// A byte from low to high.
    fn byte(&mut self, low: u8, high: u8) -> Result<u8, ImageError>
        ensures gives { Gives (λ x. x) result self.new (byte_at low high self.old) }
        ensures spelled { IfOk result (λ x. (self.old.rest ≡ x ∷ self.new.rest) × (self.new.at ≡ self.old.at + 1)) }
        ensures within { IfOk result (λ x. (low ≤ x) × (x ≤ high)) }
    {
        match self.rest {
            [] => Err(ImageError::Short { need: self.at + 1 }),
            [b, rest @ ..] => {
                if low <= *b && *b <= high {
                    self.at += 1;
                    self.rest = rest;
                    Ok(*b)
                } else {
                    Err(ImageError::BadField { at: self.at })
                }
            }
        }
    }

    /// These very bytes.
    fn expect(&mut self, word: &[u8], refusal: ImageError) -> Result<(), ImageError>
        requires { length word.now < 2 ^ 32 }
        ensures gives { Gives (λ _. word.now) result self.new (word_at word.now refusal self.old) }
        ensures spelled { OnOk result ((self.old.rest ≡ word.now ++ self.new.rest)
            × (self.new.at ≡ self.old.at + length word.now)) }
    {
        let found = self.take(word.len())?;
        if found == word { Ok(()) } else { Err(refusal) }
    }

    /// A number of four bytes from low to high.
    fn number(&mut self, low: u32, high: u32) -> Result<u32, ImageError>
        ensures gives { Gives (λ x. x) result self.new (number_at low high self.old) }
        ensures spelled { IfOk result (λ x. (self.old.rest ≡ to_le_bytes w32 x ++ self.new.rest)
            × (self.new.at ≡ self.old.at + 4)) }
        ensures within { IfOk result (λ x. (low ≤ x) × (x ≤ high)) }
    {
        if self.rest.len() < 4 {
            return Err(ImageError::Short { need: self.at + 4 });
        }
        let (front, rest) = self.rest.split_at(4);
        let number = u32::from_le_bytes([front[0], front[1], front[2], front[3]]);
        if number < low || high < number {
            return Err(ImageError::BadField { at: self.at });
        }
        self.at += 4;
        self.rest = rest;
        Ok(number)
    }

    /// The length of a name, and a name that no function has so far.
    #[tactic(auto, unfolding(crate::specs::Fields::name_at))]
    fn name(&mut self, seen: &Image) -> Result<Name, ImageError>
        ensures gives { Gives (λ x. x) result self.new (name_at (names seen.now.functions) self.old) }
        ensures spelled { IfOk result (λ x. (self.old.rest ≡ (length x ∷ x) ++ self.new.rest)
            × (self.new.at ≡ self.old.at + 1 + length x)) }
        ensures new { IfOk result (λ x. (is_name x ≡ true) × (is_among (names seen.now.functions) x ≡ false)) }
    {
        let n = self.byte(1, 64)?;
        let at = self.offset();
        let word = self.take(usize::from(n))?;
        new_name(seen, at, word)
    }

    /// An align of two bytes, which is 1 in a slot that isn't used.
    fn align(&mut self, used: bool) -> Result<u16, ImageError>
        ensures gives { Gives (λ x. x) result self.new (half_at (is_allowed_align used) self.old) }
        ensures spelled { IfOk result (λ x. (self.old.rest ≡ to_le_bytes w16 x ++ self.new.rest)
            × (self.new.at ≡ self.old.at + 2)) }
        ensures within { IfOk result (λ x. is_allowed_align used x ≡ true) }
    {
        if self.rest.len() < 2 {
            return Err(ImageError::Short { need: self.at + 2 });
        }
        let (front, rest) = self.rest.split_at(2);
        let align = u16::from_le_bytes([front[0], front[1]]);
        if !is_allowed_align(used, align) {
            return Err(ImageError::BadField { at: self.at });
        }
        self.at += 2;
        self.rest = rest;
        Ok(align)
    }

    /// What is stated of a count, of which something may be stated or not.
    #[tactic(auto, unfolding(crate::specs::Fields::count_at))]
    fn count(&mut self, may: bool) -> Result<CountFacts, ImageError>
        ensures gives { Gives (λ x. x) result self.new (count_at may self.old) }
        ensures spelled { IfOk result (λ x. (self.old.rest ≡ count_bytes x ++ self.new.rest)
            × (self.new.at ≡ self.old.at + 16)) }
        ensures kept { IfOk result (λ x. is_count_facts x ≡ true) }
        ensures free { IfOk result (λ x. may ≡ false → is_free_count x ≡ true) }
    {
        let exact = self.number(0, most_if(may, 0))?;
        let open = is_open(may, exact);
        let mult = self.number(1, most_if(open, 1))?;
        let min = self.number(0, most_if(open, 0))?;
        let max = self.number(least_max(open, mult, min), MOST_COUNT)?;
        Ok(CountFacts {
            exact,
            mult,
            min,
            max,
        })
    }

    /// Adds the aligns of so many slots, of which the first ones are used.
    #[tactic(auto, using(crate::proofs::Aligned::none_left, crate::proofs::Aligned::nothing_added))]
    fn aligns(
        &mut self,
        slots: u8,
        used: u8,
        aligns: &mut ArrayVec<u16, 12>,
    ) -> Result<(), ImageError>
        requires few { used ≤ slots }
        requires room { length aligns.old.items + used ≤ 12 }
        ensures gives { Gives (λ _. aligns.new.items) result self.new
            (with_aligns aligns.old.items (aligns_at slots used self.old)) }
        ensures spelled { OnOk result (HasAligns slots used self.old self.new aligns.old.items aligns.new.items) }
    {
        if slots == 0 {
            return Ok(());
        }
        let align = self.align(used > 0)?;
        push_if(aligns, used > 0, align);
        self.aligns(slots - 1, used.saturating_sub(1), aligns)?;
        Ok(())
    }

    /// The length of the code, and the code.
    #[tactic(auto, unfolding(crate::specs::Fields::code_at))]
    fn code(&mut self) -> Result<&'t [u8], ImageError>
        ensures gives { Gives (λ x. x.now) result self.new (code_at self.old) }
        ensures spelled { IfOk result (λ x. (self.old.rest ≡ (to_le_bytes w32 (length x.now) ++ x.now) ++ self.new.rest)
            × (self.new.at ≡ self.old.at + 4 + length x.now)) }
        ensures within { IfOk result (λ x. (1 ≤ length x.now) × (length x.now ≤ 1048576)) }
    {
        let n = self.number(1, 1048576)?;
        self.take(n as usize)
    }

    /// The facts of n, of m and of the arrays.
    #[tactic(auto, unfolding(crate::specs::Fields::stated_at))]
    fn stated(&mut self, two_d: bool, dests: u8, sources: u8) -> Result<Facts, ImageError>
        requires dests_few { dests ≤ 4 }
        requires sources_few { sources ≤ 8 }
        ensures gives { Gives (λ x. x) result self.new (stated_at two_d dests sources self.old) }
        ensures spelled { IfOk result (λ x. (self.old.rest ≡ facts_bytes 2 dests x ++ self.new.rest)
            × (self.new.at ≡ self.old.at + length (facts_bytes 2 dests x))) }
        ensures kept { IfOk result (λ x. is_facts two_d (dests + sources) x ≡ true) }
    {
        let n = self.count(true)?;
        let m = self.count(two_d)?;
        let mut aligns = ArrayVec::new();
        self.aligns(4, dests, &mut aligns)?;
        self.aligns(8, sources, &mut aligns)?;
        Ok(Facts { n, m, aligns })
    }

    /// The facts, free where the version is 1.
    fn facts(
        &mut self,
        version: u8,
        two_d: bool,
        dests: u8,
        sources: u8,
    ) -> Result<Facts, ImageError>
        requires dests_few { dests ≤ 4 }
        requires sources_few { sources ≤ 8 }
        ensures gives { Gives (λ x. x) result self.new (facts_at version two_d dests sources self.old) }
        ensures spelled { IfOk result (λ x. (self.old.rest ≡ facts_bytes version dests x ++ self.new.rest)
            × (self.new.at ≡ self.old.at + length (facts_bytes version dests x))) }
        ensures kept { IfOk result (λ x. is_facts two_d (dests + sources) x ≡ true) }
        ensures free { IfOk result (λ x. version ≡ 1 → is_free x ≡ true) }
    {
        if version == 2 {
            self.stated(two_d, dests, sources)
        } else {
            Ok(free_facts(usize::from(dests) + usize::from(sources)))
        }
    }

    /// The version.
    fn version(&mut self) -> Result<u8, ImageError>
        ensures gives { Gives (λ x. x) result self.new (version_at self.old) }
        ensures spelled { IfOk result (λ x. (self.old.rest ≡ x ∷ self.new.rest) × (self.new.at ≡ self.old.at + 1)) }
        ensures known { IfOk result (λ x. is_version x ≡ true) }
    {
        match self.rest {
            [] => Err(ImageError::Short { need: self.at + 1 }),
            [version @ (1 | 2), rest @ ..] => {
                self.at += 1;
                self.rest = rest;
                Ok(*version)
            }
            _ => Err(ImageError::BadVersion),
        }
    }

    /// The magic, the version and the number of functions.
    #[tactic(auto, unfolding(crate::specs::Fields::head_at))]
    fn head(&mut self) -> Result<(u8, u8), ImageError>
        ensures gives { Gives (λ x. x) result self.new (head_at self.old) }
        ensures spelled { IfOk result (λ x. (self.old.rest ≡ magic ++ (x.0 ∷ x.1 ∷ self.new.rest))
            × (self.new.at ≡ self.old.at + 6)) }
        ensures known { IfOk result (λ x. is_version x.0 ≡ true) }
        ensures within { IfOk result (λ x. x.1 ≤ 64) }
    {
        self.expect(b"ORCI", ImageError::BadMagic)?;
        let version = self.version()?;
        let count = self.byte(0, 64)?;
        Ok((version, count))
    }
}

/// Adds an align where its slot is used.
fn push_if(aligns: &mut ArrayVec<u16, 12>, used: bool, align: u16)
    requires { used ≡ true → length aligns.old.items < 12 }
    ensures { aligns.new.items ≡ (if used then aligns.old.items ++ align ∷ [] else aligns.old.items) }
{
    if used {
        aligns.push(align);
    }
}

/// Whether a divisor and bounds may be stated beside this exact number.
fn is_open(may: bool, exact: u32) -> bool
    ensures { result ≡ may && exact == 0 }
{
    may && exact == 0
}

/// The greatest value of a number that may be stated, and the only one of a number that may not.
fn most_if(may: bool, free: u32) -> u32
    ensures { result ≡ (if may then most_count else free) }
{
    if may { MOST_COUNT } else { free }
}

/// The least upper bound that some count meets, and the only one where none may be stated.
fn least_max(may: bool, mult: u32, min: u32) -> u32
    requires some { 1 ≤ mult }
    requires mult_few { mult ≤ most_count }
    requires min_few { min ≤ most_count }
    ensures { result ≡ (if may then least_multiple mult min else most_count) }
{
    if may {
        least_multiple(mult, min) as u32
    } else {
        MOST_COUNT
    }
}

/// Whether a number may stand in the slot of an align, which is used or not.
fn is_allowed_align(used: bool, align: u16) -> bool
    ensures { result ≡ is_allowed_align used align }
{
    if used {
        is_align_number(Some(u64::from(align)))
    } else {
        align == 1
    }
}

/// The word at this offset as a name that no function has so far.
fn new_name(seen: &Image, at: usize, word: &[u8]) -> Result<Name, ImageError>
    ensures { MatchResult result
        (λ x. (x ≡ word.now) × ((is_name word.now ≡ true) × (is_among (names seen.now.functions) word.now ≡ false)))
        (λ e. (is_new (names seen.now.functions) word.now ≡ false) × (e ≡ ImageError.BadField at)) }
{
    let Some(name) = Name::new(word) else {
        return Err(ImageError::BadField { at });
    };
    if seen.contains(word) {
        return Err(ImageError::BadField { at });
    }
    Ok(name)
}

/// A function, after those that the image has so far.
#[tactic(auto, using(crate::proofs::Unless::unless), unfolding(crate::specs::Fields::function_at))]
fn read_function(
    alloc: Global,
    reader: &mut Reader,
    seen: &Image,
) -> Result<ImageFunction, ImageError>
    ensures gives { UnlessMemory result
        (Gives (λ x. x) result reader.new (function_at seen.now.version (names seen.now.functions) reader.old)) }
    ensures spelled { IfOk result (λ x. (reader.old.rest ≡ function_bytes seen.now.version x ++ reader.new.rest)
        × (reader.new.at ≡ reader.old.at + length (function_bytes seen.now.version x))) }
    ensures new { IfOk result (λ x. is_among (names seen.now.functions) x.name ≡ false) }
    ensures free { IfOk result (λ x. seen.now.version ≡ 1 → is_free x.facts ≡ true) }
{
    let name = reader.name(seen)?;
    let two_d = reader.byte(0, 1)? == 1;
    let dests = reader.byte(0, 4)?;
    let sources = reader.byte(0, 8)?;
    let params = reader.byte(0, 8)?;
    let accs = reader.byte(0, 4)?;
    let facts = reader.facts(seen.version, two_d, dests, sources)?;
    let bytes = reader.code()?;
    match Items::from_slice(alloc, bytes) {
        Ok(code) => Ok(ImageFunction {
            name,
            two_d,
            dests,
            sources,
            params,
            accs,
            facts,
            code,
        }),
        Err(_) => Err(ImageError::Memory),
    }
}

/// So many functions.
fn read_functions(
    alloc: Global,
    reader: &mut Reader,
    version: u8,
    count: u8,
) -> Result<Image, ImageError>
    requires known { is_version version ≡ true }
    requires few { count ≤ 64 }
    ensures gives { UnlessMemory result
        (Gives (λ i. i) result reader.new (image_with version (functions_at version count [] reader.old))) }
    ensures spelled { IfOk result (λ i. IsImage i × (i.version ≡ version)
        × (length i.functions ≡ count) × (reader.old.rest ≡ functions_bytes version i.functions ++ reader.new.rest)
        × (reader.new.at ≡ reader.old.at + length (functions_bytes version i.functions))) }
{
    let mut image = Image::new(alloc, version);
    for _ in 0..count {
        let f = read_function(alloc, reader, &image)?;
        if image.push(f).is_err() {
            return Err(ImageError::Memory);
        }
    }
    Ok(image)
}

/// The magic, the version, the number of functions, and the functions.
#[tactic(auto, using(crate::proofs::Unless::unless), unfolding(crate::specs::Fields::image_at))]
fn read_whole(alloc: Global, reader: &mut Reader) -> Result<Image, ImageError>
    ensures gives { UnlessMemory result (Gives (λ i. i) result reader.new (image_at reader.old)) }
    ensures spelled { IfOk result (λ i. IsImage i × (reader.old.rest ≡ image_bytes i ++ reader.new.rest)
        × (reader.new.at ≡ reader.old.at + length (image_bytes i))) }
{
    let (version, count) = reader.head()?;
    read_functions(alloc, reader, version, count)
}

/// The image that begins the bytes, and its length in bytes.
pub fn read_image(alloc: Global, bytes: &[u8]) -> Result<(Image, usize), ImageError>
    // What is read begins the bytes.
    ensures found { IfOk result (λ r. ImageBegins bytes.now r.0 r.1) }
    // An image that begins the bytes is read, unless memory runs out.
    ensures only { (i : ImageValue) (n : ℕ) → ImageBegins bytes.now i n → UnlessMemory result (result ≡ Ok (i, n)) }
    // A refusal is that of the first field that isn't all there or isn't allowed, unless memory runs out.
    ensures refused { UnlessMemory result (refusal_in result ≡ first_bad_field bytes.now) }
{
    let mut reader = Reader::new(bytes);
    let image = read_whole(alloc, &mut reader)?;
    let size = reader.offset();
    Ok((image, size))
}

/// The law of one image: no two images share a spelling, and no spelling begins another. So bytes begin with one image at
/// most, and what was written is read back.
pub fn one_image()
    ensures { OneImage }
{}
