use crate::{PartMap, overlaps};
use orc_bits::{BuildError, Part, Parts};
use sqlite_items::Items;
use std::alloc::{AllocError, Global};
use std::test::Fail;

fn parts_of(alloc: Global, table: &[(u64, &[u8])]) -> Result<Parts, AllocError> {
    let mut parts: Parts = Items::new(alloc);
    for (at, bytes) in table {
        parts.push(Part {
            at: *at,
            bytes: Items::from_slice(alloc, bytes)?,
        })?;
    }
    Ok(parts)
}

#[test]
fn parts_that_touch_overlap_or_are_empty(rt: HostRuntime) -> Result<(), Fail> {
    let alloc = rt.alloc();
    // whether a memory of these parts is refused: a part behind one of four bytes, an empty part inside it, one at the
    // last address, and two of which one is inside the other
    let memories: [(&[(u64, &[u8])], bool); 5] = [
        (&[(4100, &[2]), (4096, &[1; 4])], false),
        (&[(4099, &[2]), (4096, &[1; 4])], true),
        (&[(4098, &[]), (4096, &[1; 4]), (4096, &[])], false),
        (&[(u64::MAX, &[3]), (0, &[1; 4])], false),
        (&[(4096, &[1; 9]), (4098, &[2; 2])], true),
    ];
    for (table, refused) in memories {
        assert_eq!(rt;
            overlaps(alloc, parts_of(alloc, table)?.as_slice())?,
            refused
        );
        match PartMap::build(alloc, parts_of(alloc, table)?) {
            Ok(map) => assert!(rt; !refused && map.parts().len() == table.len()),
            Err(e) => assert!(rt; refused && e == BuildError::Overlap),
        }
    }
    Ok(())
}

#[test]
fn bytes_are_found_and_changed(rt: HostRuntime) -> Result<(), Fail> {
    let alloc = rt.alloc();
    let table: [(u64, &[u8]); 3] = [(u64::MAX, &[9]), (4096, &[1, 2]), (64, &[])];
    let mut map = PartMap::build(alloc, parts_of(alloc, &table)?)?;
    assert!(rt; map.set(4097, 7) && !map.set(4098, 7) && !map.set(64, 7));
    assert_eq!(rt;
        (map.get(4096), map.get(4097), map.get(4098)),
        (Some(1), Some(7), None)
    );
    assert_eq!(rt;
        (map.get(u64::MAX), map.get(0), map.get(64)),
        (Some(9), None, None)
    );
    let parts = map.into_parts();
    assert!(rt;
        matches!(parts.as_slice(), [_, part, ..] if part.bytes.as_slice() == [1, 7].as_slice())
    );
    Ok(())
}
