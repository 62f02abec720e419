//! Kinds of section, and where sections stand.

/// What a section's header says of its kind (System V gABI, chapter 4, "Sections").
#[derive(Clone, Copy)]
pub struct SectionKind {
    /// sh_type.
    pub kind: u32,
    /// sh_flags.
    pub flags: u64,
    /// sh_link.
    pub link: u32,
    /// sh_info.
    pub info: u32,
    /// sh_addralign.
    pub align: u64,
    /// sh_entsize.
    pub entry_size: u64,
}

/// The section of header 0: SHT_NULL.
pub const NULL: SectionKind = SectionKind {
    kind: 0,
    flags: 0,
    link: 0,
    info: 0,
    align: 0,
    entry_size: 0,
};

/// Code: SHT_PROGBITS, with SHF_ALLOC and SHF_EXECINSTR.
pub const TEXT: SectionKind = SectionKind {
    kind: 1,
    flags: 6,
    link: 0,
    info: 0,
    align: 16,
    entry_size: 0,
};

/// Symbols: SHT_SYMTAB, whose names stand in section 3. The first that is not local is symbol 1.
pub const SYMTAB: SectionKind = SectionKind {
    kind: 2,
    flags: 0,
    link: 3,
    info: 1,
    align: 8,
    entry_size: 24,
};

/// Symbols of a library. The first that is not local is symbol 2.
pub const LIBRARY_SYMTAB: SectionKind = SectionKind {
    kind: 2,
    flags: 0,
    link: 3,
    info: 2,
    align: 8,
    entry_size: 24,
};

/// .note.GNU-stack: SHT_PROGBITS without SHF_EXECINSTR.
pub const NO_STACK: SectionKind = SectionKind {
    kind: 1,
    flags: 0,
    link: 0,
    info: 0,
    align: 1,
    entry_size: 0,
};

/// .eh_frame: SHT_PROGBITS, with SHF_ALLOC.
pub const EH_FRAME: SectionKind = SectionKind {
    kind: 1,
    flags: 2,
    link: 0,
    info: 0,
    align: 8,
    entry_size: 0,
};

/// .rela.eh_frame: SHT_RELA, with SHF_INFO_LINK, of section 6 by the symbols of section 2.
pub const RELA_EH_FRAME: SectionKind = SectionKind {
    kind: 4,
    flags: 0x40,
    link: 2,
    info: 6,
    align: 8,
    entry_size: 24,
};

/// Names: SHT_STRTAB.
pub const STRTAB: SectionKind = SectionKind {
    kind: 3,
    flags: 0,
    link: 0,
    info: 0,
    align: 1,
    entry_size: 0,
};

/// Where a section's contents stand, and how many bytes they have.
#[derive(Clone, Copy)]
pub struct Place {
    /// sh_offset, from the first byte of the object.
    pub offset: usize,
    /// sh_size, in bytes.
    pub size: usize,
}

/// Where the contents of sections 1 to 4 stand.
#[derive(Clone, Copy)]
pub struct Places {
    /// The codes.
    pub code: Place,
    /// The symbols.
    pub symbols: Place,
    /// The names of the symbols.
    pub names: Place,
    /// The names of the sections.
    pub section_names: Place,
}

/// A section's header.
#[derive(Clone, Copy)]
pub struct SectionHeader {
    /// The section's kind.
    pub kind: SectionKind,
    /// sh_name, the offset of its name in section 4.
    pub name: u32,
    /// Where its contents stand.
    pub place: Place,
}
