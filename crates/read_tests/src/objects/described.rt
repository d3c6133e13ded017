//! An object's sections and symbols as rows of a table.
use super::read;
use mo_types::{ObjFault, Object, Section, Symbol, SymbolKind};
use std::alloc::Global;

/// Segment, name, and: address, size, alignment, flags, the offsets of contents and of relocations, and how many
/// relocations there are.
pub type SectionRow = (&'static str, &'static str, [u64; 7]);

/// Name, kind, the kind's numbers, and the marks that the symbol has.
pub type SymbolRow = (&'static str, &'static str, [u64; 2], &'static str);

fn numbers(section: &Section) -> [u64; 7] {
    [
        section.address,
        section.size,
        u64::from(section.align),
        u64::from(section.attributes | u32::from(section.kind)),
        section.file_offset,
        section.reloc_offset,
        section.relocs.len() as u64,
    ]
}

// Whether a section is that of a row, and has its bytes, unless they are zeros.
fn is_section(section: &Section, (segment, name, wanted): &SectionRow) -> bool {
    let size = if section.is_zerofill() {
        0
    } else {
        section.size
    };
    section.segment.as_slice() == segment.as_bytes()
        && section.name.as_slice() == name.as_bytes()
        && numbers(section) == *wanted
        && section.bytes.len() as u64 == size
}

fn are_sections(sections: &[Section], rows: &[SectionRow]) -> bool {
    for (section, row) in sections.iter().zip(rows) {
        if !is_section(section, row) {
            return false;
        }
    }
    sections.len() == rows.len()
}

fn kind(kind: &SymbolKind) -> (&'static str, [u64; 2]) {
    match *kind {
        SymbolKind::Undefined => ("undefined", [0, 0]),
        SymbolKind::Common { size, align } => ("common", [size, u64::from(align)]),
        SymbolKind::Defined { section, value } => ("defined", [u64::from(section), value]),
        SymbolKind::Absolute => ("absolute", [0, 0]),
        SymbolKind::Passed => ("passed", [0, 0]),
    }
}

// Whether a symbol has just the marks whose names a text has, with blanks between them.
fn has_marks(symbol: &Symbol, names: &str) -> bool {
    let mut count = 0usize;
    for (mark, name) in [
        (symbol.external, "external"),
        (symbol.hidden, "hidden"),
        (symbol.weak_def, "weak"),
        (symbol.weak_ref, "maybe"),
        (symbol.no_strip, "kept"),
        (symbol.alt, "alt"),
    ] {
        if mark != names.split_whitespace().any(|word| word == name) {
            return false;
        }
        count = count.wrapping_add(usize::from(mark));
    }
    names.split_whitespace().count() == count
}

fn is_symbol(symbol: &Symbol, (name, wanted, numbers, marks): &SymbolRow) -> bool {
    symbol.name.as_slice() == name.as_bytes()
        && kind(&symbol.kind) == (*wanted, *numbers)
        && has_marks(symbol, marks)
}

fn are_symbols(symbols: &[Symbol], rows: &[SymbolRow]) -> bool {
    for (symbol, row) in symbols.iter().zip(rows) {
        if !is_symbol(symbol, row) {
            return false;
        }
    }
    symbols.len() == rows.len()
}

// Whether an object was read, in subsections, and its sections and symbols are those of tables.
fn is_read(
    read: &Result<Object, ObjFault>,
    sections: &[SectionRow],
    symbols: &[SymbolRow],
) -> bool {
    match read {
        Ok(object) => {
            object.subsections
                && are_sections(object.sections.as_slice(), sections)
                && are_symbols(object.symbols.as_slice(), symbols)
        }
        Err(_) => false,
    }
}

/// Whether the object of some bytes has the sections and symbols of tables.
pub fn is_object(
    alloc: Global,
    bytes: &[u8],
    sections: &[SectionRow],
    symbols: &[SymbolRow],
) -> bool {
    let object = read(alloc, bytes);
    is_read(&object, sections, symbols)
}
