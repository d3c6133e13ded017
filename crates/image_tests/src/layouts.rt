//! Layouts against places that were counted by hand.
mod images;

use crate::given::{command_of, slots_of};
use crate::order::{are_low, are_low_sections, is_rising};
use mo_types::{Atom, AtomKey, AtomList, Goal, KeyList, OutOfMemory, OutSection, OutSections};
use sect_place::{
    AreaList, BranchTarget, BranchTargetList, IslandArea, IslandPlan, IslandShifts, Layout,
    PlaceFault, PlaceSizes, PlacedSection, Segment, WayList, address, address_with, place,
};
use std::alloc::Global;
use std::test::Fail;

// An atom of the first file: its section and its offset there, its size, and the power of its alignment.
type Row = (u16, u64, u64, u8);

// A section of the image: its name, its type, its alignment and its atoms.
type Part<'a> = (Name, u8, u8, &'a [Row]);

// Segments and sections by name.
#[derive(Clone, Copy, PartialEq, Eq)]
enum Name {
    Pagezero,
    Text,
    DataConst,
    Data,
    Other,
    Foo,
    Linkedit,
    Code,
    Stubs,
    Strings,
    UnwindInfo,
    Got,
    ThreadPtrs,
    Values,
    ThreadData,
    ThreadBss,
    Bss,
    OtherValues,
    Const,
    ConstValues,
    ConstX,
    FooBar,
    FooEmpty,
}

// The segment, and the section's name, or that of the segment again.
fn names(name: Name) -> (&'static [u8], &'static [u8]) {
    match name {
        Name::Pagezero => (b"__PAGEZERO", b"__PAGEZERO"),
        Name::Text => (b"__TEXT", b"__TEXT"),
        Name::DataConst => (b"__DATA_CONST", b"__DATA_CONST"),
        Name::Data => (b"__DATA", b"__DATA"),
        Name::Other => (b"__OTHER", b"__OTHER"),
        Name::Foo => (b"__FOO", b"__FOO"),
        Name::Linkedit => (b"__LINKEDIT", b"__LINKEDIT"),
        Name::Code => (b"__TEXT", b"__text"),
        Name::Stubs => (b"__TEXT", b"__stubs"),
        Name::Strings => (b"__TEXT", b"__cstring"),
        Name::UnwindInfo => (b"__TEXT", b"__unwind_info"),
        Name::Got => (b"__DATA_CONST", b"__got"),
        Name::ThreadPtrs => (b"__DATA", b"__thread_ptrs"),
        Name::Values => (b"__DATA", b"__data"),
        Name::ThreadData => (b"__DATA", b"__thread_data"),
        Name::ThreadBss => (b"__DATA", b"__thread_bss"),
        Name::Bss => (b"__DATA", b"__bss"),
        Name::OtherValues => (b"__OTHER", b"__data"),
        Name::Const => (b"__TEXT", b"__const"),
        Name::ConstValues => (b"__DATA_CONST", b"__const"),
        Name::ConstX => (b"__DATA_CONST", b"__x"),
        Name::FooBar => (b"__FOO", b"__bar"),
        Name::FooEmpty => (b"__FOO", b"__empty"),
    }
}

// The protection of a segment, and its flags.
fn rights(segment: Name) -> (u32, u32) {
    match segment {
        Name::Pagezero => (0, 0),
        Name::Text => (5, 0),
        Name::DataConst => (3, 0x10),
        Name::Linkedit => (1, 0),
        _ => (3, 0),
    }
}

// What is placed beside atoms: in a dynamic library or not, how many stubs there are and how many slots for
// thread-local variables, the bytes of commands but for segments and those of the unwind information, and behind which
// atom how many islands are.
#[derive(Clone, Copy)]
struct Case {
    words: Words,
    stubs: u64,
    tlv: u64,
    commands: u64,
    unwind: u64,
    islands: Option<(Row, u64)>,
}

// The words of the command.
#[derive(Clone, Copy)]
enum Words {
    Executable,
    Dylib,
    Padded,
}

const NOTHING: Case = Case {
    words: Words::Executable,
    stubs: 0,
    tlv: 0,
    commands: 80,
    unwind: 0,
    islands: None,
};

fn key(row: &Row) -> AtomKey {
    test_objects::key(0, row.0, row.1)
}

fn atom(row: &Row) -> Atom {
    test_objects::atom(key(row), row.2, row.3)
}

fn atoms(alloc: Global, rows: &[Row]) -> Result<AtomList, OutOfMemory> {
    let mut atoms = AtomList::new(alloc);
    for row in rows {
        atoms.push(atom(row))?;
    }
    Ok(atoms)
}

fn section(alloc: Global, part: &Part) -> Result<OutSection, OutOfMemory> {
    let mut keys = KeyList::new(alloc);
    for row in part.3 {
        keys.push(key(row))?;
    }
    let (segment, name) = names(part.0);
    Ok(test_objects::out_section(segment, name, part.1, part.2, keys))
}

fn sections(alloc: Global, parts: &[Part]) -> Result<OutSections, OutOfMemory> {
    let mut sections = OutSections::new(alloc);
    for part in parts {
        sections.push(section(alloc, part)?)?;
    }
    Ok(sections)
}

fn text_of(words: Words) -> &'static str {
    match words {
        Words::Executable => "-o out main.o",
        Words::Dylib => "-dylib -install_name /x/libe.dylib -o libe.dylib empty.o",
        Words::Padded => {
            "-dylib -install_name /x/libe.dylib -headerpad 4000 -o libe.dylib empty.o"
        }
    }
}

fn area(alloc: Global, last: &Row, count: u64) -> Result<IslandArea, OutOfMemory> {
    let mut targets = BranchTargetList::new(alloc);
    for offset in 0..count {
        targets.push(BranchTarget {
            goal: Goal::Def(key(last), offset),
            addend: 0,
            stub: None,
        })?;
    }
    Ok(IslandArea {
        last: key(last),
        targets,
    })
}

fn one_area(alloc: Global, area: IslandArea) -> Result<AreaList, OutOfMemory> {
    let mut list = Vec::new(alloc);
    list.push(area)?;
    Ok(AreaList::from_sorted(list))
}

fn areas(alloc: Global, case: &Case) -> Result<AreaList, OutOfMemory> {
    match case.islands {
        Some((last, count)) => one_area(alloc, area(alloc, &last, count)?),
        None => Ok(AreaList::new(alloc)),
    }
}

fn plan(alloc: Global, case: &Case) -> Result<IslandPlan, OutOfMemory> {
    Ok(IslandPlan {
        areas: areas(alloc, case)?,
        ways: WayList::new(alloc),
    })
}

fn place_all(
    alloc: Global,
    kept: &AtomList,
    parts: &OutSections,
    case: &Case,
) -> Result<Layout, PlaceFault> {
    if is_rising(kept.as_slice())
        && are_low(kept.as_slice())
        && are_low_sections(parts.as_slice())
    {
        let slots = slots_of(alloc, case.stubs, case.tlv)?;
        let islands = plan(alloc, case)?;
        let sizes = PlaceSizes {
            commands: u128::from(case.commands),
            unwind: case.unwind,
        };
        let command = command_of(alloc, text_of(case.words));
        match &command {
            Ok(command) => place(alloc, kept, parts, &slots, &islands, &sizes, command),
            Err(_) => Err(PlaceFault::OutOfMemory),
        }
    } else {
        Err(PlaceFault::OutOfMemory)
    }
}

fn placed(alloc: Global, rows: &[Row], parts: &[Part], case: &Case) -> Result<Layout, PlaceFault> {
    let kept = atoms(alloc, rows)?;
    let parts = sections(alloc, parts)?;
    place_all(alloc, &kept, &parts, case)
}

// A segment of an image: its name, address, bytes of memory, place in the file, bytes there, and count of sections.
type SegmentRow = (Name, u64, u64, u64, u64, u32);

fn is_segment(segment: &Segment, row: &SegmentRow) -> bool {
    segment.name.as_slice() == names(row.0).0
        && segment.address == row.1
        && segment.vmsize == row.2
        && segment.file_offset == row.3
        && segment.file_size == row.4
        && segment.sections == row.5
        && (segment.protection, segment.flags) == rights(row.0)
}

fn has_segments(layout: &Layout, rows: &[SegmentRow]) -> bool {
    layout.segments.len() == rows.len()
        && layout
            .segments
            .as_slice()
            .iter()
            .zip(rows)
            .all(|(segment, row)| is_segment(segment, row))
}

// A section of an image: its name, address, bytes, and place in the file.
type SectionRow = (Name, u64, u64, u64);

fn is_section(placed: &PlacedSection, row: &SectionRow) -> bool {
    placed.section.segment.as_slice() == names(row.0).0
        && placed.section.name.as_slice() == names(row.0).1
        && placed.address == row.1
        && placed.size == row.2
        && placed.file_offset == row.3
}

fn has_sections(layout: &Layout, rows: &[SectionRow]) -> bool {
    layout.sections.len() == rows.len()
        && layout
            .sections
            .as_slice()
            .iter()
            .zip(rows)
            .all(|(section, row)| is_section(section, row))
}

// Whether these atoms, and no others, stand at these addresses.
fn has_places(layout: &Layout, rows: &[(Row, u64)]) -> bool {
    layout.placed.as_slice().len() == rows.len()
        && rows
            .iter()
            .all(|(row, at)| address(layout, key(row)) == Some(*at))
}

fn is_laid(
    answer: &Result<Layout, PlaceFault>,
    segments: &[SegmentRow],
    sections: &[SectionRow],
    places: &[(Row, u64)],
) -> bool {
    match answer {
        Ok(layout) => {
            has_segments(layout, segments)
                && has_sections(layout, sections)
                && has_places(layout, places)
        }
        Err(_) => false,
    }
}

// The first image of one object: 6 commands of 376 bytes, of which 80 aren't of segments.
fn one_function(alloc: Global) -> bool {
    let main = (1, 0, 8, 2);
    let other = (1, 8, 4, 2);
    let rows = [main, other];
    let parts: [Part; 1] = [(Name::Code, 0, 2, &rows)];
    let case = NOTHING;
    let answer = placed(alloc, &rows, &parts, &case);
    is_laid(
        &answer,
        &[
            (Name::Pagezero, 0, 0x1_0000_0000, 0, 0, 0),
            (Name::Text, 0x1_0000_0000, 0x4000, 0, 0x4000, 1),
            (Name::Linkedit, 0x1_0000_4000, 0, 0x4000, 0, 0),
        ],
        &[(Name::Code, 0x1_0000_01b8, 12, 0x1b8)],
        &[(main, 0x1_0000_01b8), (other, 0x1_0000_01c0)],
    )
}

// `_main` with one stub, one C string and one unwind entry: 14 commands of 1,000 bytes, of which 312 aren't of
// segments.
fn hello(alloc: Global) -> bool {
    let main = (1, 0, 32, 2);
    let text = (2, 0, 3, 0);
    let rows = [main, text];
    let parts: [Part; 2] = [(Name::Code, 0, 2, &[main]), (Name::Strings, 2, 0, &[text])];
    let case = Case {
        stubs: 1,
        commands: 312,
        unwind: 68,
        ..NOTHING
    };
    let answer = placed(alloc, &rows, &parts, &case);
    is_laid(
        &answer,
        &[
            (Name::Pagezero, 0, 0x1_0000_0000, 0, 0, 0),
            (Name::Text, 0x1_0000_0000, 0x4000, 0, 0x4000, 4),
            (Name::DataConst, 0x1_0000_4000, 0x4000, 0x4000, 0x4000, 1),
            (Name::Linkedit, 0x1_0000_8000, 0, 0x8000, 0, 0),
        ],
        &[
            (Name::Code, 0x1_0000_0428, 32, 0x428),
            (Name::Stubs, 0x1_0000_0448, 12, 0x448),
            (Name::Strings, 0x1_0000_0454, 3, 0x454),
            (Name::UnwindInfo, 0x1_0000_0458, 68, 0x458),
            (Name::Got, 0x1_0000_4000, 8, 0x4000),
        ],
        &[(main, 0x1_0000_0428), (text, 0x1_0000_0454)],
    )
}

// Two islands behind `_main`: what stands behind them in `__TEXT` moves by 28 bytes.
fn two_islands(alloc: Global) -> bool {
    let main = (1, 0, 2048, 2);
    let b = (1, 2048, 2048, 2);
    let c = (1, 4096, 2048, 2);
    let rows = [main, b, c];
    let parts: [Part; 1] = [(Name::Code, 0, 2, &rows)];
    let case = Case {
        stubs: 1,
        islands: Some((main, 2)),
        ..NOTHING
    };
    let answer = placed(alloc, &rows, &parts, &case);
    is_laid(
        &answer,
        &[
            (Name::Pagezero, 0, 0x1_0000_0000, 0, 0, 0),
            (Name::Text, 0x1_0000_0000, 0x4000, 0, 0x4000, 2),
            (Name::DataConst, 0x1_0000_4000, 0x4000, 0x4000, 0x4000, 1),
            (Name::Linkedit, 0x1_0000_8000, 0, 0x8000, 0, 0),
        ],
        &[
            (Name::Code, 0x1_0000_02a0, 6172, 0x2a0),
            (Name::Stubs, 0x1_0000_1abc, 12, 0x1abc),
            (Name::Got, 0x1_0000_4000, 8, 0x4000),
        ],
        &[
            (main, 0x1_0000_02a0),
            (b, 0x1_0000_0abc),
            (c, 0x1_0000_12bc),
        ],
    )
}

// Data of each kind in a dynamic library, and a segment of another name: `__data` has 16, 32, 8 and 8 bytes, so its
// last atom is 56 bytes behind the first.
fn kinds_of_data(alloc: Global) -> bool {
    let a = (1, 0, 16, 3);
    let x = (1, 16, 32, 3);
    let b = (1, 48, 8, 3);
    let p = (1, 56, 8, 3);
    let value = (2, 0, 4, 2);
    let zeros = (3, 0, 8, 3);
    let bss = (4, 0, 0x5000, 0);
    let other = (5, 0, 1, 4);
    let rows = [a, x, b, p, value, zeros, bss, other];
    let parts: [Part; 5] = [
        (Name::Values, 0, 3, &[a, x, b, p]),
        (Name::ThreadData, 0x11, 3, &[value]),
        (Name::ThreadBss, 0x12, 3, &[zeros]),
        (Name::Bss, 1, 0, &[bss]),
        (Name::OtherValues, 0, 4, &[other]),
    ];
    let case = Case {
        words: Words::Dylib,
        tlv: 1,
        commands: 240,
        ..NOTHING
    };
    let answer = placed(alloc, &rows, &parts, &case);
    is_laid(
        &answer,
        &[
            (Name::Text, 0, 0x4000, 0, 0x4000, 0),
            (Name::Data, 0x4000, 0x8000, 0x4000, 0x4000, 5),
            (Name::Other, 0xc000, 0x4000, 0x8000, 0x4000, 1),
            (Name::Linkedit, 0x1_0000, 0, 0xc000, 0, 0),
        ],
        &[
            (Name::ThreadPtrs, 0x4000, 8, 0x4000),
            (Name::Values, 0x4008, 64, 0x4008),
            (Name::ThreadData, 0x4048, 4, 0x4048),
            (Name::ThreadBss, 0x4050, 8, 0),
            (Name::Bss, 0x4058, 0x5000, 0),
            (Name::OtherValues, 0xc000, 1, 0x8000),
        ],
        &[
            (a, 0x4008),
            (x, 0x4018),
            (b, 0x4038),
            (p, 0x4040),
            (value, 0x4048),
            (zeros, 0x4050),
            (bss, 0x4058),
            (other, 0xc000),
        ],
    )
}

// A dynamic library of an object without sections has a segment for its header, and a pad of a page makes it two pages.
fn empty_dylib(alloc: Global, words: Words, size: u64) -> bool {
    let case = Case {
        words,
        commands: 240,
        ..NOTHING
    };
    let answer = placed(alloc, &[], &[], &case);
    is_laid(
        &answer,
        &[
            (Name::Text, 0, size, 0, size, 0),
            (Name::Linkedit, size, 0, size, 0, 0),
        ],
        &[],
        &[],
    )
}

// The layout of sections in an executable without stubs.
fn plain(alloc: Global, rows: &[Row], parts: &OutSections) -> Result<Layout, PlaceFault> {
    place_all(alloc, &atoms(alloc, rows)?, parts, &NOTHING)
}

fn size_of_fault(answer: &Result<Layout, PlaceFault>) -> Option<i128> {
    match answer {
        Err(PlaceFault::ImageSize { value }) => Some(*value),
        _ => None,
    }
}

// The bytes that are too many, or none.
fn refused(alloc: Global, size: u64) -> Option<i128> {
    let zeros = (1, 0, size, 0);
    let parts: [Part; 1] = [(Name::Bss, 1, 0, &[zeros])];
    let answer = placed(alloc, &[zeros], &parts, &NOTHING);
    size_of_fault(&answer)
}

// Atoms of 3 bytes at multiples of 4.
fn many_rows(alloc: Global, count: u64) -> Result<Vec<Row>, OutOfMemory> {
    let mut rows = Vec::new(alloc);
    for number in 0..count {
        rows.push((1, number, 3, 2))?;
    }
    Ok(rows)
}

fn are_in_place(layout: &Layout, rows: &[Row]) -> bool {
    rows.iter().zip(0..100_000u64).all(|(row, number)| address(layout, key(row))
        == Some(0x1_0000_01b8 + 4 * number))
}

fn has_thousands(answer: &Result<Layout, PlaceFault>, rows: &[Row]) -> bool {
    match answer {
        Ok(layout) => are_in_place(layout, rows) && address(layout, key(&(2, 0, 0, 0))).is_none(),
        Err(_) => false,
    }
}

fn are_placed(alloc: Global, count: u64) -> Result<bool, OutOfMemory> {
    let rows = many_rows(alloc, count)?;
    let rows = rows.as_slice();
    let answer = placed(alloc, rows, &[(Name::Code, 0, 2, rows)], &NOTHING);
    Ok(has_thousands(&answer, rows))
}

fn move_behind(layout: &Layout, shifts: &IslandShifts, rows: &[Row]) -> bool {
    let mut at = 0x1_0000_01b8u64;
    for row in rows {
        let behind = if row.1 > 10 { 40 } else { 0 };
        if address_with(layout, shifts, key(row)) != Some(at.wrapping_add(behind)) {
            return false;
        }
        at = at.wrapping_add(4);
    }
    address_with(layout, shifts, key(&(2, 0, 0, 0))).is_none()
}

fn are_moved_in(alloc: Global, layout: &Layout, rows: &[Row]) -> Result<bool, PlaceFault> {
    let case = Case {
        islands: Some(((1, 10, 3, 2), 3)),
        ..NOTHING
    };
    let plan = plan(alloc, &case)?;
    let shifts = IslandShifts::new(alloc, layout, &plan)?;
    Ok(move_behind(layout, &shifts, rows))
}

// Three islands behind the eleventh atom, of 40 bytes: what is behind them moves by so much, and nothing else.
fn are_moved(alloc: Global, count: u64) -> Result<bool, PlaceFault> {
    let rows = many_rows(alloc, count)?;
    let rows = rows.as_slice();
    let layout = placed(alloc, rows, &[(Name::Code, 0, 2, rows)], &NOTHING)?;
    are_moved_in(alloc, &layout, rows)
}

// Images that were laid out by hand; zeros of 2^32 bytes behind a page, the largest image, and one byte more; and
// thousands of atoms.
#[test]
fn worked_layouts(rt: HostRuntime) -> Result<(), Fail> {
    let alloc = rt.alloc();
    assert!(rt; one_function(alloc));
    assert!(rt; hello(alloc));
    assert!(rt; two_islands(alloc));
    assert!(rt; kinds_of_data(alloc));
    assert!(rt; empty_dylib(alloc, Words::Dylib, 0x4000));
    assert!(rt; empty_dylib(alloc, Words::Padded, 0x8000));
    assert!(rt; refused(alloc, 0x1_0000_0000) == Some(0x1_0000_4000));
    assert!(rt; refused(alloc, 0xffff_8000).is_none());
    assert!(rt; refused(alloc, 0xffff_8001) == Some(0x1_0000_0000));
    assert!(rt; are_placed(alloc, 20_000)?);
    assert!(rt; are_moved(alloc, 20_000) == Ok(true));
    Ok(())
}
