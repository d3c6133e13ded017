//! An object by hand: functions, an exception table, data, and a section of entries.

use mo_types::{
    Bytes, Object, OutOfMemory, RawReloc, RelocList, Section, SectionList, Symbol, SymbolKind,
    SymbolList,
};
use std::alloc::Global;
use test_objects::{defined, symbol};

/// A relocation by its type, address, number, r_pcrel, r_length and r_extern.
pub type Raw = (u8, u32, u32, bool, u8, bool);

/// An entry: function, length, encoding, personality, lsda.
pub type Row = (u64, u32, u32, u64, u64);

/// A section of entries: where its contents and its relocations stand in the file, and what they are.
#[derive(Clone, Copy)]
pub struct Table {
    pub places: (u64, u64),
    pub rows: &'static [Row],
    /// Bytes behind the last entry.
    pub rest: u8,
    pub relocs: &'static [Raw],
}

/// The relocations of rows.
pub fn relocs_of(alloc: Global, relocs: &[Raw]) -> Result<RelocList, OutOfMemory> {
    let mut list = RelocList::new(alloc);
    for (kind, address, number, pcrel, length, external) in relocs {
        list.push(RawReloc {
            address: *address,
            number: *number,
            pcrel: *pcrel,
            length: *length,
            external: *external,
            kind: *kind,
        })?;
    }
    Ok(list)
}

fn bytes_of(alloc: Global, table: &Table) -> Result<Bytes, OutOfMemory> {
    let mut bytes = Vec::new(alloc);
    for (function, length, encoding, personality, lsda) in table.rows {
        bytes.extend_from_slice(&function.to_le_bytes())?;
        bytes.extend_from_slice(&length.to_le_bytes())?;
        bytes.extend_from_slice(&encoding.to_le_bytes())?;
        bytes.extend_from_slice(&personality.to_le_bytes())?;
        bytes.extend_from_slice(&lsda.to_le_bytes())?;
    }
    for _ in 0..table.rest {
        bytes.push(0)?;
    }
    Bytes::from_vec(bytes)
}

// `__LD,__compact_unwind` at 0x300.
fn section_of(alloc: Global, table: &Table) -> Result<Section, OutOfMemory> {
    let bytes = bytes_of(alloc, table)?;
    Ok(Section {
        address: 0x300,
        file_offset: table.places.0,
        reloc_offset: table.places.1,
        attributes: 0x0200_0000,
        relocs: relocs_of(alloc, table.relocs)?,
        ..test_objects::section(alloc, b"__LD", b"__compact_unwind", 0, 3, bytes)
    })
}

fn at(section: Section, address: u64) -> Section {
    Section { address, ..section }
}

fn sections(alloc: Global, tables: &[Table]) -> Result<SectionList, OutOfMemory> {
    let mut list = SectionList::new(alloc);
    let plain = |segment, name, size| { test_objects::section(alloc, segment, name, 0, 2, size) };
    let text = Bytes::from_static(&[0; 64]);
    let small = Bytes::from_static(&[0; 16]);
    list.push(plain(b"__TEXT", b"__text", text))?;
    list.push(at(plain(b"__TEXT", b"__gcc_except_tab", small), 0x100))?;
    let small = Bytes::from_static(&[0; 16]);
    list.push(at(plain(b"__DATA", b"__data", small), 0x200))?;
    let small = Bytes::from_static(&[0; 16]);
    list.push(at(plain(b"__DWARF", b"__debug_info", small), 0x400))?;
    for table in tables {
        list.push(section_of(alloc, table)?)?;
    }
    Ok(list)
}

fn external(name: &'static [u8], kind: SymbolKind) -> Symbol {
    Symbol {
        external: true,
        ..symbol(name, kind)
    }
}

// 0 to 2: `_a` of 16 bytes, `_b` of 16, `_c` of 32. 3: `_t` at 8 of the exception table. 4: `_d` of data. 5: undefined.
// 6: absolute. 7: passed over. 8, 9: local and external in a section that isn't linked. 10: common.
fn symbols(alloc: Global) -> Result<SymbolList, OutOfMemory> {
    let mut list = SymbolList::new(alloc);
    list.push(external(b"_a", defined(1, 0)))?;
    list.push(symbol(b"_b", defined(1, 16)))?;
    list.push(external(b"_c", defined(1, 32)))?;
    list.push(symbol(b"_t", defined(2, 0x108)))?;
    list.push(external(b"_d", defined(3, 0x200)))?;
    list.push(external(b"_u", SymbolKind::Undefined))?;
    list.push(external(b"_n", SymbolKind::Absolute))?;
    list.push(symbol(b"_p", SymbolKind::Passed))?;
    list.push(symbol(b"_l", defined(4, 0x400)))?;
    list.push(external(b"_e", defined(4, 0x400)))?;
    list.push(external(b"_m", SymbolKind::Common { align: 3, size: 8 }))?;
    Ok(list)
}

/// The object with these sections of entries.
pub fn object(alloc: Global, tables: &[Table]) -> Result<Object, OutOfMemory> {
    Ok(test_objects::object(sections(alloc, tables)?, symbols(alloc)?))
}
