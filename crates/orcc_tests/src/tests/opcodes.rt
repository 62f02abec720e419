//! The C text of each opcode, against the opcode's formula.
use arrayvec::ArrayVec;
use c_emit::{emit, print};
use c_read::read_c;
use c_run::{CEnd, CFunction, CTree, run_c};
use orc_bits::Part;
use orc_emul::{Store, are_low};
use orc_ops::{Found, Kind, Op, eval, far_of, find, info};
use orc_program::{Call, Place, has_far, is_bad_prefix};
use orc_text::read;
use sqlite_items::Items;
use std::alloc::{AllocError, Global};
use std::process::Abort;

/// What the names of opcodes begin with.
const STEMS: &str =
    "abs acc accsad add addss addus and andn avgs avgu cmpeq cmpgts conv convh convs convsss convsus convu convuss convuus \
    copy div255 divlu load loadp maxs maxu merge mins minu mulhs mulhu mull muls mulu or select0 select1 shl shrs shru sign \
    splat splatw3 split store sub subss subus swap xor";

/// What they end with.
const ENDINGS: &str = "b w l q bw wl lq wb lw ql bl ubl";

/// Where the arrays stand: two dests, then two sources.
const PLACES: [u64; 4] = [4096, 8192, 12288, 16384];

/// Numbers at which something turns, some counts of bits among them.
const NUMBERS: [u64; 18] = [
    0,
    1,
    2,
    7,
    8,
    31,
    64,
    0x7f,
    0x80,
    0xff,
    0x7fff,
    0x8000,
    0xffff,
    0x7fff_ffff,
    0x8000_0000,
    0xffff_ffff,
    0x8000_0000_0000_0000,
    0xffff_ffff_ffff_ffff,
];

/// One of the numbers, from the first again behind the last.
fn number(k: u8) -> u64 {
    NUMBERS[usize::from(k) % 18]
}

/// The size of a variable, for an operand that isn't there too.
fn width(size: u8, lanes: u8) -> u8 {
    size.wrapping_mul(lanes).clamp(1, 8)
}

/// The text of a function with one instruction. What it declares is the same for all opcodes, but for the sizes.
fn text_of(alloc: Global, op: Op, lanes: u8) -> Result<String, AllocError> {
    let row = info(op);
    let name = row.name;
    let prefix = match lanes {
        1 => "",
        2 => "x2 ",
        _ => "x4 ",
    };
    let into = match row.kind {
        Kind::Sum => "a1",
        _ if row.results[1] == 0 => "d1",
        _ => "d1, d2",
    };
    let from = match row.kind {
        Kind::LoadParam => "p1",
        Kind::Shift => "s1, p1",
        _ if row.sources[1] == 0 => "s1",
        _ => "s1, s2",
    };
    let dests = [width(row.results[0], lanes), width(row.results[1], lanes)];
    let sources = [width(row.sources[0], lanes), width(row.sources[1], lanes)];
    let sum = if dests[0] == 2 { 2 } else { 4 };
    format!(in alloc;
        ".function f\n.dest {} d1\n.dest {} d2\n.source {} s1\n.source {} s2\n.accumulator {sum} a1\n.param 8 p1\n{prefix}{name} {into}, {from}\n",
        dests[0], dests[1], sources[0], sources[1]
    )
}

/// The C functions of a text, printed and read back.
fn translated(rt: &impl Abort, alloc: Global, text: &str) -> Result<CTree, AllocError> {
    assert!(rt; text.len() < 1000);
    let program = read(alloc, text.as_bytes()).expect(rt, "a program");
    let mut tree = CTree {
        functions: Items::new(alloc),
    };
    for f in program.functions.as_slice() {
        assert!(rt; !has_far(f));
        tree.functions.push(emit(alloc, f)?)?;
    }
    let printed = print(alloc, &tree)?;
    let same = read_c(alloc, printed.as_slice()).expect(rt, "a tree");
    assert!(rt;
        print(alloc, &same)?.as_slice() == printed.as_slice(),
        "{text}"
    );
    Ok(same)
}

/// A store of eight bytes at each place.
fn store_of(rt: &impl Abort, alloc: Global) -> Result<Store, AllocError> {
    let mut parts = Items::new(alloc);
    for at in PLACES {
        let bytes = Items::from_slice(alloc, &[0; 8])?;
        parts.push(Part { at, bytes })?;
    }
    assert!(rt; are_low(parts.as_slice()));
    Ok(Store::build(alloc, parts).expect(rt, "a store"))
}

/// Sets sub-lane q of a cell to the lowest bytes of a number.
fn put(rt: &impl Abort, store: &mut Store, cell: u64, q: u8, size: u8, number: u64) {
    let bytes = number.to_le_bytes();
    for k in 0..8 {
        if k < size {
            let at = cell.wrapping_add(u64::from(q.wrapping_mul(size).wrapping_add(k)));
            assert!(rt; store.set(at, bytes[usize::from(k)]));
        }
    }
}

/// The number in sub-lane q of a cell.
fn number_at(rt: &impl Abort, store: &Store, cell: u64, q: u8, size: u8) -> u64 {
    let mut bytes = [0; 8];
    for k in 0..8 {
        if k < size {
            let at = cell.wrapping_add(u64::from(q.wrapping_mul(size).wrapping_add(k)));
            bytes[usize::from(k)] = store.get(at).expect(rt, "a byte");
        }
    }
    u64::from_le_bytes(bytes)
}

/// The call for one element.
fn call_with(rt: &impl Abort, param: u64) -> Call {
    let mut call = Call {
        n: 1,
        m: 1,
        arrays: ArrayVec::new(),
        params: ArrayVec::new(),
    };
    for base in PLACES {
        assert!(rt; call.arrays.try_push(Place { base, stride: 0 }).is_ok());
    }
    assert!(rt; call.params.try_push(param).is_ok());
    call
}

/// The sources of sub-lane q, from the numbers at two places of the list on. A parameter is the same for all.
fn sources_of(op: Op, i: u8, j: u8, q: u8) -> (u64, u64) {
    let first = number(i.wrapping_add(q));
    match info(op).kind {
        Kind::LoadParam => (number(j), 0),
        Kind::Shift => (first, number(j)),
        _ => (first, number(j.wrapping_add(q.wrapping_mul(3)))),
    }
}

/// Runs the function of an opcode on one element, and compares what it leaves.
fn compare(rt: &impl Abort, c: &CFunction, store: &mut Store, op: Op, lanes: u8, i: u8, j: u8) {
    assert!(rt; far_of(op).is_none());
    let row = info(op);
    for q in 0..lanes {
        let (a, b) = sources_of(op, i, j, q);
        put(rt, store, PLACES[2], q, row.sources[0], a);
        if row.kind != Kind::Shift {
            put(rt, store, PLACES[3], q, row.sources[1], b);
        }
    }
    let call = call_with(rt, number(j));
    assert!(rt; call.arrays.len() == usize::from(c.arrays));
    assert!(rt; call.params.len() == usize::from(c.params));
    // As many statements as are promised to be enough for one instruction on one element.
    let CEnd::Ended { accs, .. } = run_c(c, &call, store, 52) else {
        panic!(rt; "{op:?} does not end");
    };
    for q in 0..lanes {
        let (a, b) = sources_of(op, i, j, q);
        let first = match row.kind {
            Kind::Sum => accs.as_slice().first().copied().unwrap_or(0),
            _ => number_at(rt, store, PLACES[0], q, row.results[0]),
        };
        let second = number_at(rt, store, PLACES[1], q, row.results[1]);
        assert_eq!(rt;
            (first, second),
            eval(op, a, b),
            "{op:?}, {lanes}: {a} and {b}"
        );
    }
}

/// Compares what an opcode does, alone and under each prefix that may stand before it.
fn compare_all(rt: &impl Abort, alloc: Global, op: Op) -> Result<(), AllocError> {
    for lanes in [1, 2, 4] {
        if !is_bad_prefix(op, lanes) {
            let text = text_of(alloc, op, lanes)?;
            let tree = translated(rt, alloc, &text)?;
            let c = tree.functions.as_slice().first().expect(rt, "a function");
            let mut store = store_of(rt, alloc)?;
            for i in 0..18 {
                for j in 0..18 {
                    compare(rt, c, &mut store, op, lanes, i, j);
                }
            }
        }
    }
    Ok(())
}

#[test]
fn the_c_text_of_each_opcode_means_its_formula(rt: HostRuntime) -> Result<(), AllocError> {
    let alloc = rt.alloc();
    let mut opcodes = 0u32;
    for stem in STEMS.split(' ') {
        for ending in ENDINGS.split(' ') {
            let name = format!(in alloc; "{stem}{ending}")?;
            if let Found::Yes(op) = find(name.as_bytes()) {
                opcodes = opcodes.wrapping_add(1);
                compare_all(&rt, alloc, op)?;
            }
        }
    }
    assert_eq!(rt; opcodes, 160);
    Ok(())
}
