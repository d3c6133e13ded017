//! Layouts against the headers of images that were written without this linker.
use super::{Name, Row, SectionRow, SegmentRow, has_sections, has_segments, key, plain, section};
use mo_types::{Bytes, OutOfMemory, OutSection, OutSections};
use sect_place::{Layout, PlaceFault, PlacedSection, address};
use std::alloc::Global;
use std::test::Fail;

// The sections of an image, each with its type, the power of its alignment and its bytes, and its headers, as
// `llvm-objdump --macho --private-headers` prints them.
type Image = (
    &'static [(Name, u8, u8, u64)],
    &'static [SegmentRow],
    &'static [SectionRow],
);

// Three images of several objects, with sections of two other segments, one without bytes and one at a page.
const IMAGES: [Image; 3] = [
    (
        &[
            (Name::Code, 0, 4, 0x9c),
            (Name::Const, 0, 2, 0x18),
            (Name::ConstValues, 0, 3, 0x18),
            (Name::ConstX, 0, 3, 0x10),
            (Name::Values, 0, 3, 0x18),
            (Name::FooEmpty, 0, 12, 0),
        ],
        &[
            (Name::Pagezero, 0, 0x1_0000_0000, 0, 0, 0),
            (Name::Text, 0x1_0000_0000, 0x4000, 0, 0x4000, 2),
            (Name::DataConst, 0x1_0000_4000, 0x4000, 0x4000, 0x4000, 2),
            (Name::Data, 0x1_0000_8000, 0x4000, 0x8000, 0x4000, 1),
            (Name::Foo, 0x1_0000_c000, 0, 0xc000, 0, 1),
            (Name::Linkedit, 0x1_0000_c000, 0, 0xc000, 0, 0),
        ],
        &[
            (Name::Code, 0x1_0000_0420, 0x9c, 1056),
            (Name::Const, 0x1_0000_04bc, 0x18, 1212),
            (Name::ConstValues, 0x1_0000_4000, 0x18, 16384),
            (Name::ConstX, 0x1_0000_4018, 0x10, 16408),
            (Name::Values, 0x1_0000_8000, 0x18, 32768),
            (Name::FooEmpty, 0x1_0000_c000, 0, 49152),
        ],
    ),
    (
        &[
            (Name::Code, 0, 4, 0xb0),
            (Name::ConstValues, 0, 3, 0x10),
            (Name::Values, 0, 14, 0x18),
            (Name::Bss, 1, 3, 4),
            (Name::FooBar, 0, 3, 8),
            (Name::FooEmpty, 0, 0, 0),
        ],
        &[
            (Name::Pagezero, 0, 0x1_0000_0000, 0, 0, 0),
            (Name::Text, 0x1_0000_0000, 0x4000, 0, 0x4000, 1),
            (Name::DataConst, 0x1_0000_4000, 0x4000, 0x4000, 0x4000, 1),
            (Name::Data, 0x1_0000_8000, 0x4000, 0x8000, 0x4000, 2),
            (Name::Foo, 0x1_0000_c000, 0x4000, 0xc000, 0x4000, 2),
            (Name::Linkedit, 0x1_0001_0000, 0, 0x1_0000, 0, 0),
        ],
        &[
            (Name::Code, 0x1_0000_0420, 0xb0, 1056),
            (Name::ConstValues, 0x1_0000_4000, 0x10, 16384),
            (Name::Values, 0x1_0000_8000, 0x18, 32768),
            (Name::Bss, 0x1_0000_8018, 4, 0),
            (Name::FooBar, 0x1_0000_c000, 8, 49152),
            (Name::FooEmpty, 0x1_0000_c008, 0, 49160),
        ],
    ),
    (
        &[
            (Name::Code, 0, 4, 0x68),
            (Name::Const, 0, 2, 0x10),
            (Name::ConstX, 0, 3, 0x18),
            (Name::Values, 0, 3, 0x18),
            (Name::FooEmpty, 0, 3, 0),
            (Name::FooBar, 0, 3, 8),
        ],
        &[
            (Name::Pagezero, 0, 0x1_0000_0000, 0, 0, 0),
            (Name::Text, 0x1_0000_0000, 0x4000, 0, 0x4000, 2),
            (Name::DataConst, 0x1_0000_4000, 0x4000, 0x4000, 0x4000, 1),
            (Name::Data, 0x1_0000_8000, 0x4000, 0x8000, 0x4000, 1),
            (Name::Foo, 0x1_0000_c000, 0x4000, 0xc000, 0x4000, 2),
            (Name::Linkedit, 0x1_0001_0000, 0, 0x1_0000, 0, 0),
        ],
        &[
            (Name::Code, 0x1_0000_0420, 0x68, 1056),
            (Name::Const, 0x1_0000_0488, 0x10, 1160),
            (Name::ConstX, 0x1_0000_4000, 0x18, 16384),
            (Name::Values, 0x1_0000_8000, 0x18, 32768),
            (Name::FooEmpty, 0x1_0000_c000, 0, 49152),
            (Name::FooBar, 0x1_0000_c000, 8, 49152),
        ],
    ),
];

// An atom for each section, of its size.
fn rows_of(alloc: Global, image: &Image) -> Result<Vec<Row>, OutOfMemory> {
    let mut rows = Vec::new(alloc);
    for (number, (_, _, align, size)) in (1..100u16).zip(image.0) {
        rows.push((number, 0, *size, *align))?;
    }
    Ok(rows)
}

// Sections with one atom each.
fn filled(alloc: Global, image: &Image, rows: &[Row]) -> Result<OutSections, OutOfMemory> {
    let mut sections = OutSections::new(alloc);
    for ((name, kind, align, _), row) in image.0.iter().zip(rows) {
        sections.push(section(alloc, &(*name, *kind, *align, &[*row]))?)?;
    }
    Ok(sections)
}

fn stand(layout: &Layout, rows: &[Row], sections: &[SectionRow]) -> bool {
    for (row, section) in rows.iter().zip(sections) {
        if address(layout, key(row)) != Some(section.1) {
            return false;
        }
    }
    true
}

fn is_image(alloc: Global, image: &Image) -> Result<bool, PlaceFault> {
    let rows = rows_of(alloc, image)?;
    let rows = rows.as_slice();
    let sections = filled(alloc, image, rows)?;
    let layout = plain(alloc, rows, &sections)?;
    Ok(
        has_segments(&layout, image.1)
            && has_sections(&layout, image.2)
            && stand(&layout, rows, image.2),
    )
}

// The name of a section: that of an object and a number.
fn numbered(alloc: Global, number: u16) -> Result<Bytes, OutOfMemory> {
    let (object, number) = if number < 128 {
        ('a', number)
    } else {
        ('b', number - 128)
    };
    Ok(Bytes::from_vec(format!(in alloc; "{object}{number}")?.into_bytes())?)
}

// `__text` of 8 bytes, and so many sections of one byte in `__DATA`.
fn many_sections(alloc: Global, count: u16) -> Result<OutSections, OutOfMemory> {
    let mut sections = OutSections::new(alloc);
    sections.push(section(alloc, &(Name::Code, 0, 2, &[(1, 0, 8, 2)]))?)?;
    for number in 0..count.min(255) {
        let mut one = section(alloc, &(Name::Values, 0, 0, &[(number + 2, 0, 1, 0)]))?;
        one.name = numbered(alloc, number)?;
        sections.push(one)?;
    }
    Ok(sections)
}

fn many_atoms(alloc: Global, count: u16) -> Result<Vec<Row>, OutOfMemory> {
    let mut rows = Vec::new(alloc);
    rows.push((1, 0, 8, 2))?;
    for number in 0..count.min(255) {
        rows.push((number + 2, 0, 1, 0))?;
    }
    Ok(rows)
}

fn is_in_turn(placed: &PlacedSection, section: &OutSection, at: u64, size: u64) -> bool {
    placed.section.name == section.name
        && placed.address.checked_sub(0x1_0000_0000) == Some(at)
        && placed.file_offset == at
        && placed.size == size
}

// Whether the first section begins at a place in the file, and the others stand at the bytes of a page in turn, under
// their names.
fn are_in_turn(placed: &[PlacedSection], sections: &[OutSection], text: u16) -> bool {
    for ((number, placed), section) in (0..1000u16).zip(placed).zip(sections) {
        let (at, size) = if number == 0 {
            (u64::from(text), 8)
        } else {
            (0x7fff + u64::from(number), 1)
        };
        if !is_in_turn(placed, section, at, size) {
            return false;
        }
    }
    placed.len() == sections.len()
}

fn has_data(layout: &Layout, count: u16) -> bool {
    let segments = [
        (Name::Pagezero, 0, 0x1_0000_0000, 0, 0, 0),
        (Name::Text, 0x1_0000_0000, 0x8000, 0, 0x8000, 1),
        (
            Name::Data,
            0x1_0000_8000,
            0x4000,
            0x8000,
            0x4000,
            u32::from(count),
        ),
        (Name::Linkedit, 0x1_0000_c000, 0, 0xc000, 0, 0),
    ];
    has_segments(layout, &segments) && layout.sections.len() == usize::from(count) + 1
}

// Whether so many sections of `__DATA` stand behind a `__text` that begins at a place in the file.
fn has_many(alloc: Global, count: u16, text: u16) -> Result<bool, PlaceFault> {
    let sections = many_sections(alloc, count)?;
    let rows = many_atoms(alloc, count)?;
    let layout = plain(alloc, rows.as_slice(), &sections)?;
    Ok(
        has_data(&layout, count)
            && are_in_turn(layout.sections.as_slice(), sections.as_slice(), text),
    )
}

// The headers of three images; the places of 256 sections, which an image's header can't count any more, and of 255.
#[test]
fn section_limit(rt: HostRuntime) -> Result<(), Fail> {
    let alloc = rt.alloc();
    for image in &IMAGES {
        assert!(rt; is_image(alloc, image) == Ok(true));
    }
    assert!(rt; has_many(alloc, 255, 20912) == Ok(true));
    assert!(rt; has_many(alloc, 254, 20832) == Ok(true));
    Ok(())
}
