//! The sections of an image with the atoms that are kept, against lists that were written down by hand.
use mo_types::{
    AtomList, Bytes, Object, OutOfMemory, OutSection, Section, SectionList, SymbolList,
};
use sect_list::out_sections;
use std::alloc::Global;
use std::test::Fail;
use test_objects::{atom, file_id, key, only};

// A section of the object: its segment, its name, its type and its attributes.
type Given = (&'static [u8], &'static [u8], u8, u32);

// An atom that is kept: its section, its offset there, and the power of its alignment.
type Kept = (u16, u64, u8);

// A section of the image: its segment, its name, its flags, the power of its alignment, and its atoms.
type Wanted<'a> = (&'static [u8], &'static [u8], u32, u8, &'a [(u16, u64)]);

fn atoms(alloc: Global, rows: &[Kept]) -> Result<AtomList, OutOfMemory> {
    let mut atoms = AtomList::new(alloc);
    for (section, offset, align) in rows {
        atoms.push(atom(key(0, *section, *offset), 4, *align))?;
    }
    Ok(atoms)
}

fn section(alloc: Global, given: &Given) -> Section {
    Section {
        size: 64,
        attributes: given.3,
        ..test_objects::section(alloc, given.0, given.1, given.2, 0, Bytes::new())
    }
}

fn object(alloc: Global, rows: &[Given]) -> Result<Object, OutOfMemory> {
    let mut sections = SectionList::new(alloc);
    for given in rows {
        sections.push(section(alloc, given))?;
    }
    Ok(test_objects::object(sections, SymbolList::new(alloc)))
}

fn is_wanted(section: &OutSection, wanted: &Wanted) -> bool {
    section.segment.as_slice() == wanted.0
        && section.name.as_slice() == wanted.1
        && u32::from(section.kind) == wanted.2 & 0xff
        && section.flags == wanted.2
        && section.align == wanted.3
        && section.atoms.len() == wanted.4.len()
        && section.atoms.as_slice().iter().zip(wanted.4).all(|(atom, row)| atom.section == row.0
            && atom.offset == row.1)
}

fn are_wanted(sections: &[OutSection], wanted: &[Wanted]) -> bool {
    for (section, row) in sections.iter().zip(wanted) {
        if !is_wanted(section, row) {
            return false;
        }
    }
    sections.len() == wanted.len()
}

// Whether the kept atoms of a file go to these sections, in this order.
fn go_to(
    alloc: Global,
    given: &[Given],
    kept: &[Kept],
    wanted: &[Wanted],
) -> Result<bool, OutOfMemory> {
    let kept = atoms(alloc, kept)?;
    let file = test_objects::file(alloc, file_id(0), object(alloc, given)?);
    let loaded = only(alloc, file)?;
    let sections = out_sections(alloc, &loaded, &kept)?;
    Ok(are_wanted(sections.as_slice(), wanted))
}

// A section of each kind that goes elsewhere, or doesn't: the section of the object, and that of the image with its flags.
const HOMES: [(Given, &[u8], &[u8], u32); 18] = [
    (
        (b"__TEXT", b"__text", 0, 0x8000_0400),
        b"__TEXT",
        b"__text",
        0x8000_0400,
    ),
    (
        (b"__TEXT", b"__text", 0, 0x8000_0000),
        b"__TEXT",
        b"__text",
        0x8000_0000,
    ),
    (
        (b"__TEXT", b"__text", 0, 0x400),
        b"__TEXT",
        b"__text",
        0x400,
    ),
    (
        (b"__TEXT", b"__startup", 0, 0x8000_0400),
        b"__TEXT",
        b"__text",
        0x8000_0400,
    ),
    (
        (b"__DATA", b"__const", 0, 0x8000_0000),
        b"__TEXT",
        b"__text",
        0x8000_0000,
    ),
    (
        (b"__FOO", b"__code", 0xb, 0x8000_0000),
        b"__TEXT",
        b"__text",
        0x8000_0000,
    ),
    ((b"__TEXT", b"__text", 2, 0), b"__TEXT", b"__text", 2),
    ((b"__TEXT", b"__const", 0, 0), b"__TEXT", b"__const", 0),
    (
        (b"__TEXT", b"__cstring", 2, 0x1000_0000),
        b"__TEXT",
        b"__cstring",
        2,
    ),
    (
        (b"__TEXT", b"__mod_init_func", 9, 0),
        b"__TEXT",
        b"__mod_init_func",
        9,
    ),
    (
        (b"__DATA", b"__const", 0, 0x1200_0000),
        b"__DATA_CONST",
        b"__const",
        0,
    ),
    (
        (b"__DATA", b"__mod_init_func", 9, 0),
        b"__DATA_CONST",
        b"__mod_init_func",
        9,
    ),
    (
        (b"__DATA", b"__const", 0x11, 0),
        b"__DATA",
        b"__const",
        0x11,
    ),
    (
        (b"__DATA", b"__mod_init_func", 0x12, 0),
        b"__DATA",
        b"__mod_init_func",
        0x12,
    ),
    (
        (b"__DATA", b"__const", 0x13, 0),
        b"__DATA",
        b"__const",
        0x13,
    ),
    (
        (b"__DATA", b"__constant", 0, 0),
        b"__DATA",
        b"__constant",
        0,
    ),
    ((b"__FOO", b"__const", 0, 0x300), b"__FOO", b"__const", 0),
    ((b"__DATA", b"__bss", 1, 0), b"__DATA", b"__bss", 1),
];

// Whether each section goes where it should.
fn has_homes(alloc: Global) -> Result<bool, OutOfMemory> {
    let mut right = true;
    for (given, segment, name, flags) in &HOMES {
        let wanted: Wanted = (*segment, *name, *flags, 3, &[(1, 0)]);
        right = right && go_to(alloc, &[*given], &[(1, 0, 3)], &[wanted])?;
    }
    Ok(right)
}

const OBJECT: [Given; 12] = [
    (b"__DATA", b"__bss", 1, 0),
    (b"__DATA", b"__thread_bss", 0x12, 0),
    (b"__FOO", b"__bar", 0, 0),
    (b"__DATA", b"__data", 0, 0),
    (b"__TEXT", b"__cstring", 2, 0),
    (b"__DATA", b"__thread_data", 0x11, 0),
    (b"__TEXT", b"__text", 0, 0x8000_0400),
    (b"__DATA", b"__const", 0, 0),
    (b"__TEXT", b"__hot", 0, 0x8000_0000),
    (b"__DATA", b"__data", 0, 0),
    (b"__ABC", b"__bss", 1, 0),
    (b"__DATA", b"__thread_vars", 0x13, 0),
];

// Each kind of section by itself; everything of an object that has sections of each kind, some of it, nothing, and what
// the object doesn't have.
#[test]
fn sections_in_order(rt: HostRuntime) -> Result<(), Fail> {
    let alloc = rt.alloc();
    assert!(rt; has_homes(alloc)?);
    let all = [
        (1, 0, 0),
        (2, 0, 4),
        (3, 0, 1),
        (4, 0, 3),
        (4, 8, 2),
        (5, 0, 0),
        (6, 0, 2),
        (7, 0, 2),
        (8, 0, 3),
        (9, 0, 4),
        (10, 0, 5),
        (11, 0, 0),
        (12, 0, 3),
        (256, 0, 3),
        (256, 1, 14),
    ];
    let wanted: [Wanted; 11] = [
        (b"__TEXT", b"__cstring", 2, 0, &[(5, 0)]),
        (b"__TEXT", b"__text", 0x8000_0400, 4, &[(7, 0), (9, 0)]),
        (b"__DATA_CONST", b"__const", 0, 3, &[(8, 0)]),
        (b"__DATA", b"__data", 0, 5, &[(4, 0), (4, 8), (10, 0)]),
        (b"__DATA", b"__thread_vars", 0x13, 3, &[(12, 0)]),
        (b"__DATA", b"__thread_data", 0x11, 4, &[(6, 0)]),
        (b"__DATA", b"__thread_bss", 0x12, 4, &[(2, 0)]),
        (b"__DATA", b"__bss", 1, 0, &[(1, 0)]),
        (b"__DATA", b"__common", 1, 14, &[(256, 0), (256, 1)]),
        (b"__FOO", b"__bar", 0, 1, &[(3, 0)]),
        (b"__ABC", b"__bss", 1, 0, &[(11, 0)]),
    ];
    assert!(rt; go_to(alloc, &OBJECT, &all, &wanted)?);
    let some = [(2, 16, 1), (4, 8, 2), (11, 0, 0), (13, 0, 0), (200, 4, 2)];
    let wanted: [Wanted; 3] = [
        (b"__DATA", b"__data", 0, 2, &[(4, 8)]),
        (b"__DATA", b"__thread_bss", 0x12, 1, &[(2, 16)]),
        (b"__ABC", b"__bss", 1, 0, &[(11, 0)]),
    ];
    assert!(rt; go_to(alloc, &OBJECT, &some, &wanted)?);
    assert!(rt; go_to(alloc, &OBJECT, &[], &[])?);
    Ok(())
}
