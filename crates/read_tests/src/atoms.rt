//! The atoms of a section, against cuts that were counted by hand.
use atom_cut::{bytes_of, cut};
use mo_types::{Atom, AtomKey, Bytes, FileId, Object, OutOfMemory, Section, Symbol, SymbolList};
use std::alloc::Global;
use std::test::Fail;
use test_objects::{defined, object_of, symbol};

const FILE: FileId = FileId {
    position: 3,
    member: 7,
};

// The name and address of each symbol, and whether it is an alternative entry.
const SYMBOLS: [(&'static [u8], u64, bool); 6] = [
    (b"_last", 0x110, false),
    (b"_fourth", 0x10c, false),
    (b"_first", 0x100, false),
    (b"_second", 0x104, true),
    (b"Lthird", 0x108, false),
    (b"_again", 0x10c, false),
];

fn symbols(alloc: Global) -> Result<SymbolList, OutOfMemory> {
    let mut symbols = SymbolList::new(alloc);
    for (name, value, alt) in &SYMBOLS {
        symbols.push(Symbol {
            alt: *alt,
            ..symbol(*name, defined(1, *value))
        })?;
    }
    Ok(symbols)
}

const MANY: u64 = 5000;

fn many_symbols(alloc: Global) -> Result<SymbolList, OutOfMemory> {
    let mut symbols = SymbolList::new(alloc);
    for number in 0..MANY {
        symbols.push(symbol(b"_s", defined(1, 0x100 + 4 * number)))?;
    }
    Ok(symbols)
}

// A section at the address 0x100, aligned to 2^4.
fn section(
    alloc: Global,
    segment: &'static [u8],
    kind: u8,
    size: u64,
    bytes: &'static [u8],
) -> Section {
    let bytes = Bytes::from_static(bytes);
    Section {
        address: 0x100,
        size,
        ..test_objects::section(alloc, segment, b"__text", kind, 4, bytes)
    }
}

// The offset, size, alignment and first byte of an atom; 255 stands where it has no byte.
type Row = (u64, u64, u8, u8);

const CODE: &[u8] = &[0, 1, 2, 3, 4, 5, 6, 7, 8, 9, 10, 11, 12, 13, 14, 15];

const STRINGS: &[u8] = b"ab\0\0cdefgh\0jklm\0";

// The type, size and bytes of a section, and its atoms.
static CUT_AT_SYMBOLS: [(u8, u64, &'static [u8], &[Row]); 6] = [
    (0, 16, CODE, &[(0, 12, 4, 0), (12, 4, 2, 12)]),
    (
        2,
        16,
        STRINGS,
        &[(0, 3, 4, 97), (3, 1, 0, 0), (4, 7, 2, 99), (11, 5, 0, 106)],
    ),
    (
        3,
        16,
        CODE,
        &[(0, 4, 4, 0), (4, 4, 2, 4), (8, 4, 3, 8), (12, 4, 2, 12)],
    ),
    (4, 16, CODE, &[(0, 8, 4, 0), (8, 8, 3, 8)]),
    (14, 16, CODE, &[(0, 16, 4, 0)]),
    (
        1,
        40,
        &[],
        &[(0, 12, 4, 255), (12, 4, 2, 255), (16, 24, 4, 255)],
    ),
];

fn is_atom(object: &Object, atom: &Atom, row: &Row) -> bool {
    let key = AtomKey {
        file: FILE,
        section: 1,
        offset: row.0,
    };
    let byte = bytes_of(object, atom).first().copied().unwrap_or(255);
    atom.key == key && atom.size == row.1 && atom.align == row.2 && byte == row.3
}

fn are_atoms(object: &Object, atoms: &[Atom], rows: &[Row]) -> bool {
    for (atom, row) in atoms.iter().zip(rows) {
        if !is_atom(object, atom, row) {
            return false;
        }
    }
    atoms.len() == rows.len()
}

// Whether an object is cut into the atoms of these rows.
fn is_cut(alloc: Global, object: &Object, rows: &[Row]) -> Result<bool, OutOfMemory> {
    if !object.is_whole() {
        return Ok(false);
    }
    let atoms = cut(alloc, object, FILE)?;
    Ok(are_atoms(object, atoms.as_slice(), rows))
}

// Whether a section with the symbols of the table is cut so.
fn section_is_cut(
    alloc: Global,
    subsections: bool,
    section: Section,
    rows: &[Row],
) -> Result<bool, OutOfMemory> {
    let object = Object {
        subsections,
        ..object_of(alloc, section, symbols(alloc)?)?
    };
    is_cut(alloc, &object, rows)
}

// Whether each section that is cut at symbols has its atoms.
fn sections_are_cut(alloc: Global) -> Result<bool, OutOfMemory> {
    for (kind, size, bytes, rows) in &CUT_AT_SYMBOLS {
        let section = section(alloc, b"__TEXT", *kind, *size, *bytes);
        if !section_is_cut(alloc, true, section, rows)? {
            return Ok(false);
        }
    }
    Ok(true)
}

fn are_words(atoms: &[Atom]) -> bool {
    let mut end = 0u64;
    for atom in atoms {
        if atom.key.offset != end || atom.size != 4 {
            return false;
        }
        end = end.wrapping_add(4);
    }
    atoms.len() as u64 == MANY
}

fn is_cut_into_words(alloc: Global, object: &Object) -> Result<bool, OutOfMemory> {
    if !object.is_whole() {
        return Ok(false);
    }
    let atoms = cut(alloc, object, FILE)?;
    Ok(are_words(atoms.as_slice()))
}

// A section is cut at each of many symbols.
fn many_are_cut(alloc: Global) -> Result<bool, OutOfMemory> {
    let zeros = section(alloc, b"__DATA", 1, 4 * MANY, &[]);
    let object = object_of(alloc, zeros, many_symbols(alloc)?)?;
    is_cut_into_words(alloc, &object)
}

#[test]
fn sections_are_cut_by_their_type(rt: HostRuntime) -> Result<(), Fail> {
    let alloc = rt.alloc();
    assert!(rt; sections_are_cut(alloc)?);
    let text = section(alloc, b"__TEXT", 0, 16, CODE);
    assert!(rt; section_is_cut(alloc, false, text, &[(0, 16, 4, 0)])?);
    assert!(rt; many_are_cut(alloc)?);
    let dropped = section(alloc, b"__DWARF", 0, 16, CODE);
    assert!(rt; section_is_cut(alloc, true, dropped, &[])?);
    Ok(())
}
