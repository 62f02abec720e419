use orc_elf::{ElfCode, ElfEntry, ElfError, one_object, read_elf, write_elf};
use orc_program::Name;
use sqlite_items::Items;
use std::alloc::Global;
use std::process::Abort;
use std::test::Fail;

// The object of one function f whose code is a return, from the code to the section headers.
const RETURNS: [u8; 96] = [
    0xc3, 0, 0, 0, 0, 0, 0, 0, // the code, and zeros up to a multiple of 8
    0, 0, 0, 0, 0, 0, 0, 0, 0, 0, 0, 0, 0, 0, 0, 0, 0, 0, 0, 0, 0, 0, 0, 0, // the first symbol
    1, 0, 0, 0, 0x12, 0, 1, 0, 0, 0, 0, 0, 0, 0, 0, 0, 1, 0, 0, 0, 0, 0, 0, 0, // f
    0, 0x66, 0, // the names
    0, 0x2e, 0x74, 0x65, 0x78, 0x74, 0, 0x2e, 0x73, 0x79, 0x6d, 0x74, 0x61, 0x62, 0, 0x2e, 0x73,
    0x74, 0x72, 0x74, 0x61, 0x62, 0, 0x2e, 0x73, 0x68, 0x73, 0x74, 0x72, 0x74, 0x61, 0x62, 0, // the section names
    0, 0, 0, 0, // zeros up to a multiple of 8
];

/// Functions of these names, in whose code each byte is a return.
fn object(rt: &impl Abort, alloc: Global, functions: &[(&str, usize)]) -> Result<ElfCode, Fail> {
    let mut e = ElfCode::new(alloc);
    for (name, size) in functions {
        assert!(rt; 0 < *size && *size <= 64);
        let code = Items::from_slice(alloc, &[0xc3; 64][..*size])?;
        let name = Name::new(name.as_bytes()).expect(rt, "a name");
        assert!(rt; e.len() < 64 && !e.contains(name.as_slice()));
        e.push(ElfEntry { name, code })?;
    }
    Ok(e)
}

/// The bytes from one offset up to another.
fn part(bytes: &[u8], at: usize, end: usize) -> &[u8] {
    if at <= end && end <= bytes.len() {
        &bytes[at..end]
    } else {
        &[]
    }
}

fn refusal(alloc: Global, bytes: &[u8]) -> Option<ElfError> {
    match read_elf(alloc, bytes) {
        Ok(_) => None,
        Err(e) => Some(e),
    }
}

#[test]
fn objects_written(rt: HostRuntime) -> Result<(), Fail> {
    one_object();
    let alloc = rt.alloc();
    let none = write_elf(alloc, &object(&rt, alloc, &[])?)?;
    assert_eq!(rt; none.len(), 448);
    let one = write_elf(alloc, &object(&rt, alloc, &[("f", 1)])?)?;
    assert_eq!(rt; one.len(), 480);
    assert_eq!(rt; part(&one, 40, 48), [0xa0, 0, 0, 0, 0, 0, 0, 0].as_slice());
    assert_eq!(rt; part(&one, 64, 160), RETURNS.as_slice());
    Ok(())
}

#[test]
fn objects_read_back(rt: HostRuntime) -> Result<(), Fail> {
    let alloc = rt.alloc();
    let functions = [("a", 17), ("b_1", 3), ("A", 64), ("_", 16)];
    let e = read_elf(alloc, &write_elf(alloc, &object(&rt, alloc, &functions)?)?)?;
    assert_eq!(rt; e.len(), functions.len());
    for (found, (name, size)) in e.entries.as_slice().iter().zip(functions) {
        assert_eq!(rt; found.name_bytes(), name.as_bytes());
        assert_eq!(rt; found.code_bytes().len(), size);
    }
    Ok(())
}

#[test]
fn refusals(rt: HostRuntime) -> Result<(), Fail> {
    let alloc = rt.alloc();
    let one = write_elf(alloc, &object(&rt, alloc, &[("f", 1)])?)?;
    // The end of the field in which an object of each length is cut.
    for (length, need) in [(0, 4), (64, 164), (223, 224), (479, 480)] {
        assert!(rt; length <= one.len());
        assert_eq!(rt;
            refusal(alloc, &one[..length]),
            Some(ElfError::Short { need }),
            "{length}"
        );
    }
    // A byte that is changed, and the first offset of the field that is refused, or else the number of bytes that are
    // needed.
    let changes = [
        (4, 1, 4, 0),
        (18, 3, 18, 0),
        (43, 1, 0, 0x0100_00a4),
        (252, 1, 248, 0),
        (320, 49, 320, 0),
        (95, 1, 72, 0),
        (112, 0, 112, 0),
        (121, 0x31, 96, 0),
    ];
    for (at, byte, bad, need) in changes {
        let mut bytes = Vec::from_slice(alloc, &one)?;
        assert!(rt; at < bytes.len());
        bytes[at] = byte;
        let want = if need == 0 {
            ElfError::BadField { at: bad }
        } else {
            ElfError::Short { need }
        };
        assert_eq!(rt; refusal(alloc, &bytes), Some(want), "{at}");
    }
    // The name of the second symbol is that of the first.
    let mut two = write_elf(alloc, &object(&rt, alloc, &[("f", 1), ("g", 1)])?)?;
    let at = 64 + 24 + 48;
    assert!(rt; at < two.len());
    two[at] = 1;
    assert_eq!(rt; refusal(alloc, &two), Some(ElfError::BadField { at: 136 }));
    Ok(())
}
