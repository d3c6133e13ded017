//! Some thousands of entries.

ghost use Rattle.std.specs.Prelude.{◌<◌};

use crate::entries::is_read;
use mo_types::{
    Bytes, Object, OutOfMemory, RawReloc, RelocList, Section, SectionList, SymbolList, Unwind,
};
use std::alloc::Global;
use std::test::Fail;
use test_objects::{defined, key, symbol};

const MANY: u32 = 5000;

// The number of the function of the entry of an index, in an order that the step tells.
fn number_at(index: u32, step: u32) -> u32
    ensures { result < 5000 }
{
    index.wrapping_mul(step) % MANY
}

fn symbols(alloc: Global) -> Result<SymbolList, OutOfMemory> {
    let mut list = SymbolList::new(alloc);
    for number in 0..MANY {
        list.push(symbol(b"_f", defined(1, 8 * u64::from(number))))?;
    }
    Ok(list)
}

// Entries of a length in bytes; their relocations name symbols, from the last entry to the first.
fn entries(alloc: Global, step: u32, length: u32) -> Result<Section, OutOfMemory> {
    let mut bytes = Vec::new(alloc);
    for _ in 0..MANY {
        bytes.extend_from_slice(&0u64.to_le_bytes())?;
        bytes.extend_from_slice(&length.to_le_bytes())?;
        bytes.extend_from_slice(&[0; 20])?;
    }
    let mut relocs = RelocList::new(alloc);
    for index in 0..MANY {
        let entry = MANY - 1 - index;
        relocs.push(RawReloc {
            address: 32 * entry,
            number: number_at(entry, step),
            pcrel: false,
            length: 3,
            external: true,
            kind: 0,
        })?;
    }
    let bytes = Bytes::from_vec(bytes)?;
    Ok(Section {
        relocs,
        ..test_objects::section(alloc, b"__LD", b"__compact_unwind", 0, 3, bytes)
    })
}

fn object(alloc: Global, step: u32, length: u32) -> Result<Object, OutOfMemory> {
    let text = Bytes::from_vec(vec![in alloc; 0; 8 * MANY as usize]?)?;
    let mut sections = SectionList::new(alloc);
    sections.push(test_objects::section(alloc, b"__TEXT", b"__text", 0, 2, text))?;
    sections.push(entries(alloc, step, length)?)?;
    Ok(test_objects::object(sections, symbols(alloc)?))
}

fn are_told(alloc: Global, step: u32) -> Result<bool, OutOfMemory> {
    let mut wanted = Vec::new(alloc);
    for index in 0..MANY {
        wanted.push(Unwind {
            atom: key(1, 1, 8 * u64::from(number_at(index, step))),
            offset: 0,
            length: 8,
            encoding: 0,
            personality: None,
            lsda: None,
        })?;
    }
    let object = object(alloc, step, 100)?;
    is_read(alloc, &object, Ok(wanted.as_slice()))
}

// In the order of their functions, in another order, and each function twice: the first entry is at fault.
#[test]
fn thousands_of_entries(rt: HostRuntime) -> Result<(), Fail> {
    let alloc = rt.alloc();
    assert!(rt; are_told(alloc, 1)?);
    assert!(rt; are_told(alloc, 7)?);
    let twice = object(alloc, 2, 8)?;
    assert!(rt; is_read(alloc, &twice, Err(0x200))?);
    Ok(())
}
