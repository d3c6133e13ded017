//! Objects that clang made, against what llvm-objdump says of their unwind entries (bench/clang_unwinds.py).

use crate::clang_objects::{ClangObject, ClangSection, OBJECTS, Place, UnwindRow};
use crate::entries::is_read;
use crate::made::relocs_of;
use mo_types::{
    AtomKey, Bytes, Object, OutOfMemory, Section, SectionList, Symbol, SymbolKind, SymbolList,
    Target, Unwind,
};
use std::alloc::Global;
use std::test::Fail;
use test_objects::{defined, key, symbol};

fn section(alloc: Global, section: &ClangSection) -> Result<Section, OutOfMemory> {
    let relocs = relocs_of(alloc, section.relocs)?;
    Ok(Section {
        segment: Bytes::from_static(section.names.0),
        name: Bytes::from_static(section.names.1),
        address: section.place.0,
        size: section.place.1,
        align: section.place.2,
        kind: section.flags.0,
        attributes: section.flags.1,
        file_offset: section.offsets.0,
        reloc_offset: section.offsets.1,
        bytes: Bytes::from_static(section.bytes),
        relocs,
    })
}

fn symbols(alloc: Global, object: &ClangObject) -> Result<SymbolList, OutOfMemory> {
    let mut symbols = SymbolList::new(alloc);
    for (name, section, value, external, alt) in object.symbols {
        let kind = match *section {
            0 => SymbolKind::Undefined,
            section => defined(section, *value),
        };
        symbols.push(Symbol {
            external: *external,
            alt: *alt,
            ..symbol(*name, kind)
        })?;
    }
    Ok(symbols)
}

fn object(alloc: Global, object: &ClangObject) -> Result<Object, OutOfMemory> {
    let mut sections = SectionList::new(alloc);
    for found in object.sections {
        sections.push(section(alloc, found)?)?;
    }
    Ok(Object {
        subsections: object.subsections,
        sections,
        symbols: symbols(alloc, object)?,
    })
}

fn place((section, start, offset): Place) -> (AtomKey, u64) {
    (key(1, section, start), offset)
}

fn unwind(row: &UnwindRow) -> Unwind {
    let (section, start, offset, length, encoding, symbol, handler, lsda) = *row;
    let personality = match (symbol, handler) {
        (Some(symbol), _) => Some(Target::Name(symbol)),
        (None, Some(handler)) => {
            let (atom, offset) = place(handler);
            Some(Target::Local(atom, offset))
        }
        (None, None) => None,
    };
    let lsda = match lsda {
        Some(lsda) => Some(place(lsda)),
        None => None,
    };
    Unwind {
        atom: key(1, section, start),
        offset,
        length,
        encoding,
        personality,
        lsda,
    }
}

fn is_told(alloc: Global, made: &ClangObject) -> Result<bool, OutOfMemory> {
    let mut wanted = Vec::new(alloc);
    for row in made.unwinds {
        wanted.push(unwind(row))?;
    }
    let object = object(alloc, made)?;
    is_read(alloc, &object, Ok(wanted.as_slice()))
}

#[test]
fn entries_of_clangs_objects_are_llvms(rt: HostRuntime) -> Result<(), Fail> {
    for made in &OBJECTS {
        assert!(rt; is_told(rt.alloc(), made)?);
    }
    Ok(())
}
