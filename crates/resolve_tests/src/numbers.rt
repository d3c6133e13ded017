//! Numbers of names, against tables that were written by hand.
use mo_types::{
    Bytes, Loaded, LoadedFile, LoadedList, NameList, OutOfMemory, SectionList, Symbol, SymbolKind,
    SymbolList,
};
use name_ids::{NameTable, gather};
use std::alloc::Global;
use std::test::Fail;
use test_objects::{file_id, object, only};

// An undefined symbol.
fn symbol(name: Bytes, external: bool) -> Symbol {
    Symbol {
        name,
        external,
        ..test_objects::symbol(b"", SymbolKind::Undefined)
    }
}

// A file with these symbols.
fn file(alloc: Global, position: u16, symbols: SymbolList) -> LoadedFile {
    let object = object(SectionList::new(alloc), symbols);
    test_objects::file(alloc, file_id(position), object)
}

// Two files and two further names. A name that begins with `l` is local.
fn sample(alloc: Global) -> Result<Loaded, OutOfMemory> {
    let rows: [&[&'static [u8]]; 2] = [
        &[b"_main", b"l_one", b"_a"],
        &[b"_a", b"_b", b"l_one", b"_main"],
    ];
    let mut files = LoadedList::new(alloc);
    for (row, position) in rows.iter().zip(0u16..) {
        let mut symbols = SymbolList::new(alloc);
        for name in *row {
            symbols.push(symbol(Bytes::from_static(*name), !name.starts_with(b"l")))?;
        }
        files.push(file(alloc, position, symbols))?;
    }
    Ok(Loaded { files })
}

// Whether these are the names of a table, by their numbers.
fn holds(table: &NameTable, names: &[&[u8]]) -> bool {
    table.len() as usize == names.len()
        && names
            .iter()
            .zip(0u32..)
            .all(|(name, id)| table.id_of(*name) == Some(id))
}

// Two further names, of which one stands in a file too.
fn further(alloc: Global) -> Result<NameList, OutOfMemory> {
    let mut extra = NameList::new(alloc);
    extra.push(Bytes::from_static(b"_b"))?;
    extra.push(Bytes::from_static(b""))?;
    Ok(extra)
}

fn numbers_are_given(table: &NameTable) -> bool {
    holds(table, &[b"_main", b"_a", b"_b", b""])
        && table.id_of(b"l_one").is_none()
        && table.id_of(b"_").is_none()
}

fn names_get_numbers(alloc: Global) -> Result<bool, OutOfMemory> {
    let extra = further(alloc)?;
    let loaded = sample(alloc)?;
    match &gather(alloc, &loaded, &extra) {
        Ok(all) => Ok(numbers_are_given(&all.names)),
        Err(_) => Ok(false),
    }
}

// A name of a number: `_n` and seven digits, the lowest first.
fn name_of(alloc: Global, number: u32) -> Result<Bytes, OutOfMemory> {
    let mut name = Vec::from_slice(alloc, b"_n")?;
    let mut rest = number;
    for _i in 0..7 {
        name.push(b'0' + (rest % 10) as u8)?;
        rest /= 10;
    }
    Ok(Bytes::from_vec(name)?)
}

// A file with so many external symbols, whose names come again after so many.
fn large(alloc: Global, count: u32, names: u32) -> Result<Loaded, OutOfMemory> {
    let mut symbols = SymbolList::new(alloc);
    for i in 0..count {
        let number = i.checked_rem(names).unwrap_or(0);
        symbols.push(symbol(name_of(alloc, number)?, true))?;
    }
    only(alloc, file(alloc, 0, symbols))
}

fn leads_to(alloc: Global, table: &NameTable, id: u32, name: &[u8]) -> Result<bool, OutOfMemory> {
    let want = name_of(alloc, id)?;
    Ok(name == want.as_slice() && table.id_of(name) == Some(id))
}

// Whether each number leads to its name, and the name back to it.
fn leads_back(alloc: Global, table: &NameTable) -> Result<bool, OutOfMemory> {
    for id in 0..table.len() {
        if !leads_to(alloc, table, id, table.name_of(id))? {
            return Ok(false);
        }
    }
    Ok(table.len() == 20_000)
}

fn thousands_of_names(alloc: Global) -> Result<bool, OutOfMemory> {
    let extra = NameList::new(alloc);
    let loaded = large(alloc, 100_000, 20_000)?;
    match &gather(alloc, &loaded, &extra) {
        Ok(all) => leads_back(alloc, &all.names),
        Err(_) => Ok(false),
    }
}

#[test]
fn names_are_numbered(rt: HostRuntime) -> Result<(), Fail> {
    let alloc = rt.alloc();
    assert!(rt; names_get_numbers(alloc)?);
    assert!(rt; thousands_of_names(alloc)?);
    Ok(())
}
