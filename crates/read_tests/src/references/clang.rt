//! Objects that clang made, against what llvm-readobj says of them (bench/clang_objects.py).

use super::clang_objects::{ClangObject, ClangSection, OBJECTS};
use super::relocs_of;
use atom_cut::cut;
use mo_types::{
    Atom, AtomKey, Bytes, FileId, Object, OutOfMemory, Ref, RefList, Section, SectionList, Symbol,
    SymbolKind, SymbolList, Target,
};
use reloc_read::refs_of;
use std::alloc::Global;
use test_objects::{defined, symbol};

const FILE: FileId = FileId {
    position: 3,
    member: 2,
};

fn section(alloc: Global, section: &ClangSection) -> Result<Section, OutOfMemory> {
    let relocs = relocs_of(alloc, section.relocs)?;
    Ok(Section {
        segment: Bytes::from_static(section.names.0),
        name: Bytes::from_static(section.names.1),
        address: section.place.0,
        size: section.place.1,
        align: section.place.2,
        kind: section.flags.0,
        attributes: section.flags.1,
        file_offset: section.offsets.0,
        reloc_offset: section.offsets.1,
        bytes: Bytes::from_static(section.bytes),
        relocs,
    })
}

fn symbols(alloc: Global, object: &ClangObject) -> Result<SymbolList, OutOfMemory> {
    let mut symbols = SymbolList::new(alloc);
    for (name, section, value, external, alt) in object.symbols {
        let kind = match *section {
            0 => SymbolKind::Undefined,
            section => defined(section, *value),
        };
        symbols.push(Symbol {
            external: *external,
            alt: *alt,
            ..symbol(*name, kind)
        })?;
    }
    Ok(symbols)
}

fn object(alloc: Global, object: &ClangObject) -> Result<Object, OutOfMemory> {
    let mut sections = SectionList::new(alloc);
    for found in object.sections {
        sections.push(section(alloc, found)?)?;
    }
    Ok(Object {
        subsections: object.subsections,
        sections,
        symbols: symbols(alloc, object)?,
    })
}

// Section, offset, size and alignment's exponent.
type AtomRow = (u16, u64, u64, u8);

fn is_atom(atom: &Atom, row: &AtomRow) -> bool {
    let key = AtomKey {
        file: FILE,
        section: row.0,
        offset: row.1,
    };
    atom.key == key && atom.size == row.2 && atom.align == row.3
}

fn are_atoms(found: &[Atom], rows: &[AtomRow]) -> bool {
    for (atom, row) in found.iter().zip(rows) {
        if !is_atom(atom, row) {
            return false;
        }
    }
    found.len() == rows.len()
}

fn are_refs(found: &RefList, object: &ClangObject) -> bool {
    for (at, wanted) in object.refs.iter().enumerate() {
        let (section, offset, place, file_place, kind, target, minus, addend) = *wanted;
        let wanted = Ref {
            atom: AtomKey {
                file: FILE,
                section,
                offset,
            },
            place,
            file_place,
            kind,
            target: Target::Name(target),
            minus: minus.map(Target::Name),
            addend,
        };
        if found.get(at) != Some(wanted) {
            return false;
        }
    }
    found.len() == object.refs.len()
}

fn is_read(alloc: Global, object: &Object, wanted: &ClangObject) -> Result<bool, OutOfMemory> {
    if !object.is_whole() {
        return Ok(false);
    }
    let atoms = cut(alloc, object, FILE)?;
    match &refs_of(alloc, object, &atoms, FILE) {
        Ok(refs) => Ok(are_atoms(atoms.as_slice(), wanted.atoms) && are_refs(refs, wanted)),
        Err(_) => Ok(false),
    }
}

/// Whether the objects of clang have the atoms and references that are told of them.
pub fn objects_of_clang(alloc: Global) -> Result<bool, OutOfMemory> {
    for wanted in &OBJECTS {
        let object = object(alloc, wanted)?;
        if !is_read(alloc, &object, wanted)? {
            return Ok(false);
        }
    }
    Ok(true)
}
