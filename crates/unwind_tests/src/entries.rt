//! Entries by hand, against the rows of `compact_unwind_encoding.h` and `reloc.h`.

use crate::made::{Raw, Row, Table, object};
use atom_cut::cut;
use mo_types::{AtomKey, Object, OutOfMemory, Target, Unwind, UnwindList};
use std::alloc::Global;
use std::test::Fail;
use test_objects::{file_id, key};
use unwind_read::{UnwindFault, unwind_of};

fn are_read(found: &UnwindList, wanted: &[Unwind]) -> bool {
    for (at, wanted) in wanted.iter().enumerate() {
        match found.get(at) {
            Some(found) if found == wanted => {}
            _ => return false,
        }
    }
    found.len() == wanted.len()
}

/// Whether the entries of an object are read so: as these, or with a fault at this place.
pub fn is_read(
    alloc: Global,
    object: &Object,
    wanted: Result<&[Unwind], u64>,
) -> Result<bool, OutOfMemory> {
    if !object.is_whole() {
        return Ok(false);
    }
    let file = file_id(1);
    let atoms = cut(alloc, object, file)?;
    match (unwind_of(alloc, object, &atoms, file), wanted) {
        (Ok(found), Ok(wanted)) => Ok(are_read(&found, wanted)),
        (Err(UnwindFault::BadEntry { place }), Err(wanted)) => Ok(place == wanted),
        _ => Ok(false),
    }
}

// Rows, bytes behind them, and relocations of a section at 0x1000.
fn is_table(
    alloc: Global,
    table: Table,
    wanted: Result<&[Unwind], u64>,
) -> Result<bool, OutOfMemory> {
    let object = object(alloc, &[table])?;
    is_read(alloc, &object, wanted)
}

fn table(rows: &'static [Row], relocs: &'static [Raw]) -> Table {
    Table {
        places: (0x1000, 0x2000),
        rows,
        rest: 0,
        relocs,
    }
}

// An entry without personality and lsda.
fn plain(start: u64, offset: u64, length: u32) -> Unwind {
    Unwind {
        atom: key(1, 1, start),
        offset,
        length,
        encoding: 0x0200_0000,
        personality: None,
        lsda: None,
    }
}

fn with(plain: Unwind, personality: Target, lsda: (AtomKey, u64)) -> Unwind {
    Unwind {
        personality: Some(personality),
        lsda: Some(lsda),
        ..plain
    }
}

// By address: `_b` and 4, in data and in the exception table. By name: `_c` and 4, whose range ends with its atom, an
// undefined symbol, and `_t` less 8.
fn fields(alloc: Global) -> Result<bool, OutOfMemory> {
    let rows = &[
        (20, 8, 0x0200_0000, 0x208, 0x10c),
        (4, 100, 0x0200_0000, 0, 0xffff_ffff_ffff_fff8),
    ];
    let relocs = &[
        (0, 0, 1, false, 3, false),
        (0, 16, 3, false, 3, false),
        (0, 24, 2, false, 3, false),
        (0, 56, 3, false, 3, true),
        (0, 48, 5, false, 3, true),
        (0, 32, 2, false, 3, true),
    ];
    let wanted = [
        with(
            plain(16, 4, 8),
            Target::Local(key(1, 3, 0), 8),
            (key(1, 2, 8), 4),
        ),
        with(plain(32, 4, 28), Target::Name(5), (key(1, 2, 0), 0)),
    ];
    is_table(alloc, table(rows, relocs), Ok(&wanted))
}

// Ranges that are empty are dropped, and overlap none; others follow each other, in any order.
fn ranges(alloc: Global) -> Result<bool, OutOfMemory> {
    let rows = &[
        (64, 4, 0x0200_0000, 0, 0),
        (4, 0, 0x0200_0000, 0, 0),
        (4, 100, 0x0200_0000, 7, 7),
        (16, 16, 0x0200_0000, 0, 0),
        (0, 4, 0x0200_0000, 0, 0),
    ];
    let relocs = &[
        (0, 128, 1, false, 3, false),
        (0, 96, 1, false, 3, false),
        (0, 64, 1, false, 3, false),
        (0, 32, 1, false, 3, false),
        (0, 0, 1, false, 3, false),
    ];
    let wanted = [plain(0, 4, 12), plain(16, 0, 16), plain(0, 0, 4)];
    is_table(alloc, table(rows, relocs), Ok(&wanted))
}

// Personalities that may be named: common symbols, and external ones in sections that aren't linked.
fn names(alloc: Global) -> Result<bool, OutOfMemory> {
    let rows = &[(0, 4, 0x0200_0000, 0, 0), (4, 4, 0x0200_0000, 0, 0)];
    let relocs = &[
        (0, 0, 1, false, 3, false),
        (0, 16, 9, false, 3, true),
        (0, 32, 1, false, 3, false),
        (0, 48, 10, false, 3, true),
    ];
    let wanted = [
        Unwind {
            personality: Some(Target::Name(9)),
            ..plain(0, 0, 4)
        },
        Unwind {
            personality: Some(Target::Name(10)),
            ..plain(0, 4, 4)
        },
    ];
    is_table(alloc, table(rows, relocs), Ok(&wanted))
}

#[test]
fn entries_say_what_their_fields_do(rt: HostRuntime) -> Result<(), Fail> {
    let alloc = rt.alloc();
    assert!(rt; fields(alloc)?);
    assert!(rt; ranges(alloc)?);
    assert!(rt; names(alloc)?);
    assert!(rt; is_table(alloc, table(&[], &[]), Ok(&[]))?);
    Ok(())
}

// The first entry is whole. What relocations have is beside it.
static TWO: [Row; 2] = [(0, 4, 0x0200_0000, 0, 0), (16, 4, 0x0200_0000, 0, 0)];

// Relocations by which an entry of two is at fault, and its place.
static FAULTS: [(&[Raw], u64); 20] = [
    // No function.
    (&[(0, 32, 1, false, 3, false)], 0x1000),
    (&[(0, 0, 1, false, 3, false)], 0x1020),
    // Another type, length or field, r_pcrel, no entry, and a second relocation.
    (
        &[(0, 0, 1, false, 3, false), (1, 32, 1, false, 3, true)],
        0x1020,
    ),
    (
        &[(0, 0, 1, false, 3, false), (0, 32, 1, false, 2, false)],
        0x1020,
    ),
    (
        &[(0, 0, 1, false, 3, false), (0, 32, 1, true, 3, false)],
        0x1020,
    ),
    (
        &[
            (0, 0, 1, false, 3, false),
            (0, 32, 1, false, 3, false),
            (0, 40, 1, false, 3, false),
        ],
        0x1020,
    ),
    (
        &[
            (0, 0, 1, false, 3, false),
            (0, 32, 1, false, 3, false),
            (0, 64, 1, false, 3, false),
        ],
        0x1000,
    ),
    (
        &[
            (0, 0, 1, false, 3, false),
            (0, 32, 1, false, 3, false),
            (0, 0x8000_0020, 1, false, 3, false),
        ],
        0x1000,
    ),
    (
        &[
            (0, 0, 1, false, 3, false),
            (0, 32, 1, false, 3, false),
            (0, 32, 1, false, 3, false),
        ],
        0x1020,
    ),
    // A function in data, in no linked section, in no section, outside its section, undefined, and no symbol.
    (
        &[(0, 0, 1, false, 3, false), (0, 32, 4, false, 3, true)],
        0x1020,
    ),
    (
        &[(0, 0, 1, false, 3, false), (0, 32, 4, false, 3, false)],
        0x1020,
    ),
    (
        &[(0, 0, 1, false, 3, false), (0, 32, 9, false, 3, false)],
        0x1020,
    ),
    (
        &[(0, 0, 1, false, 3, false), (0, 32, 2, false, 3, false)],
        0x1020,
    ),
    (
        &[(0, 0, 1, false, 3, false), (0, 32, 5, false, 3, true)],
        0x1020,
    ),
    (
        &[(0, 0, 1, false, 3, false), (0, 32, 99, false, 3, true)],
        0x1020,
    ),
    // An lsda in no linked section; personalities that are absolute, passed over, local in none, and no symbol.
    (
        &[
            (0, 0, 1, false, 3, false),
            (0, 32, 1, false, 3, false),
            (0, 56, 9, false, 3, true),
        ],
        0x1020,
    ),
    (
        &[
            (0, 0, 1, false, 3, false),
            (0, 32, 1, false, 3, false),
            (0, 48, 6, false, 3, true),
        ],
        0x1020,
    ),
    (
        &[
            (0, 0, 1, false, 3, false),
            (0, 32, 1, false, 3, false),
            (0, 48, 7, false, 3, true),
        ],
        0x1020,
    ),
    (
        &[
            (0, 0, 1, false, 3, false),
            (0, 32, 1, false, 3, false),
            (0, 48, 8, false, 3, true),
        ],
        0x1020,
    ),
    (
        &[
            (0, 0, 1, false, 3, false),
            (0, 32, 1, false, 3, false),
            (0, 48, 4, false, 3, false),
        ],
        0x1020,
    ),
];

fn are_faults(alloc: Global) -> Result<bool, OutOfMemory> {
    for (relocs, place) in &FAULTS {
        if !is_table(alloc, table(&TWO, *relocs), Err(*place))? {
            return Ok(false);
        }
    }
    Ok(true)
}

// The third of three entries overlaps the first, and one of another section the second.
fn overlap(alloc: Global) -> Result<bool, OutOfMemory> {
    let relocs = &[
        (0, 0, 1, false, 3, false),
        (0, 32, 1, false, 3, false),
        (0, 64, 1, false, 3, false),
    ];
    let three = &[
        (8, 8, 0x0200_0000, 0, 0),
        (16, 4, 0x0200_0000, 0, 0),
        (0, 9, 0x0200_0000, 0, 0),
    ];
    let first = is_table(alloc, table(three, relocs), Err(0x1000))?;
    let apart = &[
        (16, 4, 0x0200_0000, 0, 0),
        (32, 8, 0x0200_0000, 0, 0),
        (0, 9, 0x0200_0000, 0, 0),
    ];
    let later = Table {
        places: (0x400, 0x2000),
        rows: &[(0, 4, 0x0200_0000, 0, 0), (39, 1, 0x0200_0000, 0, 0)],
        rest: 0,
        relocs: &[(0, 32, 1, false, 3, false), (0, 0, 1, false, 3, false)],
    };
    let object = object(alloc, &[table(apart, relocs), later])?;
    Ok(first && is_read(alloc, &object, Err(0x400))?)
}

#[test]
fn each_part_of_the_rule_has_its_place(rt: HostRuntime) -> Result<(), Fail> {
    let alloc = rt.alloc();
    assert!(rt; are_faults(alloc)?);
    assert!(rt; overlap(alloc)?);
    let relocs = &[(0, 0, 1, false, 3, false), (0, 32, 1, false, 3, false)];
    let more = Table {
        rest: 31,
        ..table(&TWO, relocs)
    };
    assert!(rt; is_table(alloc, more, Err(0x1040))?);
    Ok(())
}
