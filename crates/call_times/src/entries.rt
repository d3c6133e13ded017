//! The unwind entries of an object.
use anyhow::{Result, bail};
use atom_cut::cut;
use mo_types::{Bytes, Object, OutOfMemory, RawReloc, RelocList, Section, SectionList, SymbolList};
use std::alloc::Global;
use std::time::Instant;
use test_objects::{defined, file_id, section, symbol};
use unwind_read::unwind_of;

// The bytes of a function.
const SIZE: u32 = 16;

// How functions are named: by their section and by their symbols, the same with a personality and data in each fourth entry,
// and by their section in no order.
const BY_SYMBOL: u32 = 1;

const WITH_DATA: u32 = 2;

const IN_NO_ORDER: u32 = 3;

// The number of the function of an entry.
fn function_of(at: u32, count: u32, kind: u32) -> u32 {
    if kind == IN_NO_ORDER {
        return (u64::from(at) * 7919 % u64::from(count.max(1))) as u32;
    }
    at
}

fn is_by_symbol(kind: u32) -> bool {
    kind == BY_SYMBOL || kind == WITH_DATA
}

// The pointer of a field, to a symbol of a number or into the section of code.
fn pointer(address: u32, symbol: Option<u32>) -> RawReloc {
    RawReloc {
        address,
        number: symbol.unwrap_or(1),
        pcrel: false,
        length: 3,
        external: symbol.is_some(),
        kind: 0,
    }
}

// Appends the relocations of an entry.
fn put_relocs(list: &mut RelocList, at: u32, function: u32, kind: u32) -> Result<(), OutOfMemory> {
    let place = at.wrapping_mul(32);
    if kind == WITH_DATA && at % 4 == 0 {
        list.push(pointer(place.wrapping_add(24), Some(function)))?;
        list.push(pointer(place.wrapping_add(16), Some(function)))?;
    }
    let symbol = if is_by_symbol(kind) {
        Some(function)
    } else {
        None
    };
    list.push(pointer(place, symbol))
}

// The relocations of so many entries, from the last to the first.
fn relocs_of(alloc: Global, count: u32, kind: u32) -> Result<RelocList, OutOfMemory> {
    let mut relocs = RelocList::new(alloc);
    for index in 0..count {
        let at = count - 1 - index;
        put_relocs(&mut relocs, at, function_of(at, count, kind), kind)?;
    }
    Ok(relocs)
}

// The bytes of so many entries (`compact_unwind_encoding.h`).
fn rows_of(alloc: Global, count: u32, kind: u32) -> Result<Bytes, OutOfMemory> {
    let mut bytes = Vec::with_capacity(alloc, count as usize * 32)?;
    for at in 0..count {
        let held = if is_by_symbol(kind) {
            0
        } else {
            u64::from(function_of(at, count, kind)) * u64::from(SIZE)
        };
        bytes.extend_from_slice(&held.to_le_bytes())?;
        bytes.extend_from_slice(&SIZE.to_le_bytes())?;
        bytes.extend_from_slice(&0x0400_0000u32.to_le_bytes())?;
        bytes.extend_from_slice(&[0; 16])?;
    }
    Bytes::from_vec(bytes)
}

fn symbols_of(alloc: Global, count: u32) -> Result<SymbolList, OutOfMemory> {
    let mut symbols = Vec::with_capacity(alloc, count as usize)?;
    for number in 0..count {
        symbols.push(symbol(b"_f", defined(1, u64::from(number) * u64::from(SIZE))))?;
    }
    Ok(SymbolList::from_vec(symbols))
}

// An object of so many functions, each with a symbol and an entry.
fn object_of(alloc: Global, count: u32, kind: u32) -> Result<Object, OutOfMemory> {
    let code = vec![in alloc; 0u8; count as usize * SIZE as usize]?;
    let mut sections = SectionList::new(alloc);
    sections.push(section(alloc, b"__TEXT", b"__text", 0, 4, Bytes::from_vec(code)?))?;
    let rows = rows_of(alloc, count, kind)?;
    sections.push(Section {
        relocs: relocs_of(alloc, count, kind)?,
        ..section(alloc, b"__LD", b"__compact_unwind", 0, 3, rows)
    })?;
    let symbols = symbols_of(alloc, count)?;
    Ok(test_objects::object(sections, symbols))
}

/// Reads the entries of an object of so many functions, and prints how many of them and of atoms there are.
pub(crate) fn read_entries(rt: &HostRuntime, count: u32, kind: u32) -> Result<()> {
    let object = object_of(rt.alloc(), count.min(1 << 22), kind)?;
    if !object.is_whole() {
        bail!("the object isn't whole");
    }
    let atoms = cut(rt.alloc(), &object, file_id(0))?;
    let start = Instant::now(rt)?;
    let Ok(unwinds) = unwind_of(rt.alloc(), &object, &atoms, file_id(0)) else {
        bail!("an entry is at fault, or no memory is left");
    };
    eprintln!(rt; "{}", start.elapsed(rt)?.as_micros())?;
    println!(rt; "{} {}", unwinds.len(), atoms.len())?;
    Ok(())
}
