//! Templates against offsets that were counted by hand.
use crate::order::{are_low, are_low_sections, is_rising};
use mo_types::{Atom, AtomKey, AtomList, KeyList, OutOfMemory, OutSection, OutSections};
use std::alloc::Global;
use std::test::Fail;
use tlv_plan::{Template, fits, offset_of, template};

// An atom of a file: its section and its offset there, its size, and the power of its alignment.
type Row = (u16, u16, u64, u64, u8);

const TEXT: u8 = 0;

const DATA: u8 = 0x11;

const ZEROFILL: u8 = 0x12;

fn key(row: &Row) -> AtomKey {
    test_objects::key(row.0, row.1, row.2)
}

fn atom(row: &Row) -> Atom {
    test_objects::atom(key(row), row.3, row.4)
}

fn atoms(alloc: Global, rows: &[Row]) -> Result<AtomList, OutOfMemory> {
    let mut atoms = AtomList::new(alloc);
    for row in rows {
        atoms.push(atom(row))?;
    }
    Ok(atoms)
}

// A section of the image: its type, its alignment, and the atoms of these rows.
fn section(alloc: Global, kind: u8, align: u8, rows: &[Row]) -> Result<OutSection, OutOfMemory> {
    let mut keys = KeyList::new(alloc);
    for row in rows {
        keys.push(key(row))?;
    }
    Ok(test_objects::out_section(b"__DATA", b"__thread", kind, align, keys))
}

// The template, where it may be asked for.
fn made(
    alloc: Global,
    kept: &AtomList,
    sections: &OutSections,
) -> Result<Option<Template>, OutOfMemory> {
    if is_rising(kept.as_slice())
        && are_low(kept.as_slice())
        && are_low_sections(sections.as_slice())
        && fits(kept, sections)
    {
        Ok(Some(template(alloc, kept, sections)?))
    } else {
        Ok(None)
    }
}

// A section of the image: its type, its alignment, and its atoms.
type Part<'a> = (u8, u8, &'a [Row]);

fn sections(alloc: Global, parts: &[Part]) -> Result<OutSections, OutOfMemory> {
    let mut sections = OutSections::new(alloc);
    for (kind, align, rows) in parts {
        sections.push(section(alloc, *kind, *align, rows)?)?;
    }
    Ok(sections)
}

fn planned(alloc: Global, rows: &[Row], parts: &[Part]) -> Result<Option<Template>, OutOfMemory> {
    let kept = atoms(alloc, rows)?;
    let sections = sections(alloc, parts)?;
    made(alloc, &kept, &sections)
}

// Whether the atoms of these rows, and no others, are in the template, at these offsets, and it has this alignment and
// this size.
fn holds(template: &Option<Template>, offsets: &[(Row, u64)], align: u8, size: u64) -> bool {
    match template {
        Some(template) => {
            template.places.as_slice().len() == offsets.len()
                && offsets
                    .iter()
                    .all(|(row, at)| offset_of(template, key(row)) == Some(*at))
                && template.align == align
                && template.size == size
        }
        None => false,
    }
}

fn is_planned(
    alloc: Global,
    rows: &[Row],
    parts: &[Part],
    offsets: &[(Row, u64)],
    align: u8,
    size: u64,
) -> Result<bool, OutOfMemory> {
    let template = planned(alloc, rows, parts)?;
    Ok(holds(&template, offsets, align, size))
}

fn is_too_large(alloc: Global, rows: &[Row], parts: &[Part]) -> Result<bool, OutOfMemory> {
    let template = planned(alloc, rows, parts)?;
    Ok(template.is_none())
}

// A variable of 4 bytes with a value, one of 8 bytes without, and their code. The base is a multiple of 8.
fn two_variables(alloc: Global) -> Result<bool, OutOfMemory> {
    let text = (0, 1, 0, 4, 2);
    let value = (0, 2, 0, 4, 2);
    let zeros = (0, 3, 0, 8, 3);
    let rows = [text, value, zeros];
    let parts: [Part; 3] = [
        (TEXT, 4, &[text]),
        (DATA, 2, &[value]),
        (ZEROFILL, 3, &[zeros]),
    ];
    let offsets = [(value, 0), (zeros, 8)];
    is_planned(alloc, &rows, &parts, &offsets, 3, 16)
}

fn sections_of_two_files(alloc: Global) -> Result<bool, OutOfMemory> {
    let first = (0, 2, 0, 5, 0);
    let empty = (0, 2, 5, 0, 0);
    let aligned = (0, 3, 0, 1, 4);
    let second = (1, 2, 0, 1, 4);
    let last = (1, 3, 0, 7, 3);
    let rows = [first, empty, aligned, second, last];
    let parts: [Part; 2] = [
        (DATA, 4, &[first, empty, second]),
        (ZEROFILL, 5, &[aligned, last]),
    ];
    // The second file's value at 16, and the zeros from the next multiple of 32 on.
    let offsets = [
        (first, 0),
        (empty, 5),
        (second, 16),
        (aligned, 32),
        (last, 40),
    ];
    is_planned(alloc, &rows, &parts, &offsets, 5, 47)
}

fn code_alone(alloc: Global) -> Result<bool, OutOfMemory> {
    let first = (0, 2, 0, 5, 0);
    is_planned(alloc, &[first], &[(TEXT, 4, &[first])], &[], 0, 0)
}

// The last byte that 64 bits can count, and one more.
fn most_bytes(alloc: Global) -> Result<bool, OutOfMemory> {
    let most = (0, 1, 0, u64::MAX, 0);
    let parts: [Part; 1] = [(DATA, 0, &[most])];
    is_planned(alloc, &[most], &parts, &[(most, 0)], 0, u64::MAX)
}

fn a_byte_more(alloc: Global) -> Result<bool, OutOfMemory> {
    let more = [(0, 1, 0, u64::MAX, 0), (0, 2, 0, 1, 0)];
    is_too_large(alloc, &more, &[(DATA, 0, &more)])
}

// Two sections that take turns in the order of atoms: 3 bytes at multiples of 4, and 8 bytes each.
fn small(file: u16) -> Row {
    (file, 1, 0, 3, 2)
}

fn large(file: u16) -> Row {
    (file, 2, 0, 8, 3)
}

fn many_atoms(alloc: Global, count: u16) -> Result<AtomList, OutOfMemory> {
    let mut kept = AtomList::new(alloc);
    for file in 0..count {
        kept.push(atom(&small(file)))?;
        kept.push(atom(&large(file)))?;
    }
    Ok(kept)
}

fn many_small(alloc: Global, count: u16) -> Result<OutSection, OutOfMemory> {
    let mut many = section(alloc, DATA, 2, &[])?;
    for file in 0..count {
        many.atoms.push(key(&small(file)))?;
    }
    Ok(many)
}

fn many_large(alloc: Global, count: u16) -> Result<OutSection, OutOfMemory> {
    let mut many = section(alloc, ZEROFILL, 3, &[])?;
    for file in 0..count {
        many.atoms.push(key(&large(file)))?;
    }
    Ok(many)
}

fn two_sections(alloc: Global, count: u16) -> Result<OutSections, OutOfMemory> {
    let mut sections = OutSections::new(alloc);
    sections.push(many_small(alloc, count)?)?;
    sections.push(many_large(alloc, count)?)?;
    Ok(sections)
}

fn thousands(alloc: Global, count: u16) -> Result<Option<Template>, OutOfMemory> {
    let kept = many_atoms(alloc, count)?;
    let sections = two_sections(alloc, count)?;
    made(alloc, &kept, &sections)
}

fn are_in_place(template: &Option<Template>, count: u16) -> bool {
    let Some(template) = template else {
        return false;
    };
    for file in 0..count {
        let at = u64::from(file);
        if offset_of(template, key(&small(file))) != Some(at * 4)
            || offset_of(template, key(&large(file))) != Some(40_000 + at * 8)
        {
            return false;
        }
    }
    template.size == 120_000 && template.align == 3
}

fn thousands_of_variables(alloc: Global) -> Result<bool, OutOfMemory> {
    let template = thousands(alloc, 10_000)?;
    Ok(are_in_place(&template, 10_000))
}

#[test]
fn thread_local_offsets(rt: HostRuntime) -> Result<(), Fail> {
    let alloc = rt.alloc();
    assert!(rt; two_variables(alloc)?);
    assert!(rt; sections_of_two_files(alloc)?);
    assert!(rt; code_alone(alloc)?);
    assert!(rt; most_bytes(alloc)?);
    assert!(rt; a_byte_more(alloc)?);
    assert!(rt; thousands_of_variables(alloc)?);
    Ok(())
}
