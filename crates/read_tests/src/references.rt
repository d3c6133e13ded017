//! References of relocations, against the tables of `reloc.h` by hand.
mod clang;
mod clang_objects;

ghost use Rattle.std.specs.Prelude.{◌<◌};

use atom_cut::cut;
use clang::objects_of_clang;
use mo_types::{
    Bytes, Feature, Object, OutOfMemory, RawReloc, Ref, RefFault, RefKind, RefList, RelocList,
    Section, SectionList, SymbolKind, SymbolList, Target,
};
use reloc_read::{FoundRefs, refs_of};
use std::alloc::Global;
use std::test::Fail;
use test_objects::{defined, file_id, key, object_of, symbol};

// Where the relocations of the first section stand in the file.
const AT: u64 = 0x1000;

// A relocation by its type, address, number, and whether it has r_pcrel 1, its r_length and r_extern.
type Raw = (u8, u32, u32, bool, u8, bool);

// `_a` of 16 bytes, `_x` of 32, `_b`, `_p` and `_q` of 8, and a number.
fn symbols(alloc: Global) -> Result<SymbolList, OutOfMemory> {
    let mut symbols = SymbolList::new(alloc);
    for value in [0, 16, 48, 56, 64] {
        symbols.push(symbol(b"_s", defined(1, value)))?;
    }
    symbols.push(symbol(b"_s", SymbolKind::Absolute))?;
    Ok(symbols)
}

// `__data` at an address.
fn section(alloc: Global, address: u64, bytes: Bytes, relocs: RelocList) -> Section {
    Section {
        address,
        reloc_offset: AT,
        relocs,
        ..test_objects::section(alloc, b"__DATA", b"__data", 0, 3, bytes)
    }
}

fn relocs_of(alloc: Global, relocs: &[Raw]) -> Result<RelocList, OutOfMemory> {
    let mut list = RelocList::new(alloc);
    for (kind, address, number, pcrel, length, external) in relocs {
        list.push(RawReloc {
            address: *address,
            number: *number,
            pcrel: *pcrel,
            length: *length,
            external: *external,
            kind: *kind,
        })?;
    }
    Ok(list)
}

// A section of 72 bytes at 0, in which `_p` holds 8 and `_q` the address 0x108, and one of 8 bytes at 0x100.
fn object(alloc: Global, relocs: &[Raw]) -> Result<Object, OutOfMemory> {
    let mut data = [0u8; 72];
    data[56] = 8;
    data[64] = 8;
    data[65] = 1;
    let data = Bytes::from_slice(alloc, &data)?;
    let relocs = relocs_of(alloc, relocs)?;
    let mut sections = SectionList::new(alloc);
    sections.push(section(alloc, 0, data, relocs))?;
    let zeros = Bytes::from_static(&[0; 8]);
    sections.push(section(alloc, 0x100, zeros, RelocList::new(alloc)))?;
    Ok(test_objects::object(sections, symbols(alloc)?))
}

fn are_read(found: &RefList, wanted: &[Ref]) -> bool {
    for (at, wanted) in wanted.iter().enumerate() {
        if found.get(at) != Some(*wanted) {
            return false;
        }
    }
    found.len() == wanted.len()
}

fn is_answer(found: &Result<RefList, RefFault>, wanted: &Result<&[Ref], RefFault>) -> bool {
    match (found, wanted) {
        (Ok(found), Ok(wanted)) => are_read(found, wanted),
        (Err(found), Err(wanted)) => found == wanted,
        _ => false,
    }
}

// Whether relocations are found so, whose references are to be read so.
fn is_found(found: &Result<FoundRefs, RefFault>, wanted: &Result<&[Ref], RefFault>) -> bool {
    match (found, wanted) {
        (Ok(found), Ok(wanted)) => found.feature.is_none() && are_read(&found.refs, wanted),
        (Ok(found), Err(RefFault::Unsupported(feature))) => found.feature == Some(*feature),
        (Err(found), Err(wanted)) => found == wanted,
        _ => false,
    }
}

fn object_is_read(
    alloc: Global,
    object: &Object,
    wanted: &Result<&[Ref], RefFault>,
) -> Result<bool, OutOfMemory> {
    if !object.is_whole() {
        return Ok(false);
    }
    let file = file_id(1);
    let atoms = cut(alloc, object, file)?;
    let found = reloc_read::read(alloc, object, &atoms, file);
    let refs = refs_of(alloc, object, &atoms, file);
    Ok(is_found(&found, wanted) && is_answer(&refs, wanted))
}

// Whether these relocations are checked and read so.
fn is_read(
    alloc: Global,
    relocs: &[Raw],
    wanted: &Result<&[Ref], RefFault>,
) -> Result<bool, OutOfMemory> {
    let object = object(alloc, relocs)?;
    object_is_read(alloc, &object, wanted)
}

// A reference from an atom of the first section.
fn reference(
    offset: u32,
    kind: RefKind,
    target: Target,
    minus: Option<Target>,
    addend: i64,
) -> Ref {
    Ref {
        atom: key(1, 1, u64::from(offset)),
        place: 0,
        file_place: 0x200 + u64::from(offset),
        kind,
        target,
        minus,
        addend,
    }
}

fn differences(alloc: Global) -> Result<bool, OutOfMemory> {
    let relocs = [
        (0, 64, 2, false, 3, false),
        (1, 56, 0, false, 3, true),
        (0, 56, 2, false, 3, true),
    ];
    let last = key(1, 2, 0);
    let wanted = [
        reference(64, RefKind::Pointer, Target::Local(last, 8), None, 0),
        reference(
            56,
            RefKind::Diff64,
            Target::Name(2),
            Some(Target::Name(0)),
            8,
        ),
    ];
    is_read(alloc, &relocs, &Ok(&wanted))
}

fn addend_before_page_offset(alloc: Global) -> Result<bool, OutOfMemory> {
    let relocs = [
        (10, 16, 16, false, 2, false),
        (4, 16, 2, false, 2, true),
        (10, 0, 0xff_ffff, false, 2, false),
        (3, 0, 2, true, 2, true),
    ];
    let wanted = [
        reference(16, RefKind::PageOff, Target::Name(2), None, 16),
        reference(0, RefKind::Page, Target::Name(2), None, -1),
    ];
    is_read(alloc, &relocs, &Ok(&wanted))
}

// Relocations of which one breaks a rule, and the first fault.
static FAULTS: [(&[Raw], RefFault); 8] = [
    (
        &[(10, 0, 0, false, 2, false)],
        RefFault::BadPair { place: 0x1000 },
    ),
    (
        &[(0, 56, 2, false, 3, true), (0, 0, 2, false, 2, true)],
        RefFault::BadShape { place: 0x1008 },
    ),
    (
        &[(0, 60, 2, false, 3, true)],
        RefFault::BadPlace { place: 0x1000 },
    ),
    (
        &[(0, 56, 2, false, 3, true), (0, 56, 2, false, 3, true)],
        RefFault::BadPlace { place: 0x1000 },
    ),
    (
        &[(0, 0x8000_0000, 2, false, 3, true)],
        RefFault::BadPlace { place: 0x1000 },
    ),
    (
        &[(0, 56, 6, false, 3, true)],
        RefFault::BadTarget { place: 0x1000 },
    ),
    (
        &[(0, 56, 5, false, 3, true)],
        RefFault::Unsupported(Feature::Absolute),
    ),
    (
        &[(11, 56, 9, false, 3, true)],
        RefFault::Unsupported(Feature::PointerAuth),
    ),
];

fn first_faults(alloc: Global) -> Result<bool, OutOfMemory> {
    for (relocs, fault) in &FAULTS {
        if !is_read(alloc, relocs, &Err(*fault))? {
            return Ok(false);
        }
    }
    Ok(true)
}

const MANY: u32 = 5000;

fn many_symbols(alloc: Global) -> Result<SymbolList, OutOfMemory> {
    let mut symbols = SymbolList::new(alloc);
    for number in 0..MANY {
        symbols.push(symbol(b"_s", defined(1, 8 * u64::from(number))))?;
    }
    Ok(symbols)
}

// The number of the symbol at which the relocation of an index has its field, and to which it leads.
fn number_at(index: u32, step: u32) -> u32
    ensures { result < 5000 }
{
    index.wrapping_mul(step) % MANY
}

fn many_relocs(alloc: Global, step: u32) -> Result<RelocList, OutOfMemory> {
    let mut relocs = RelocList::new(alloc);
    for index in 0..MANY {
        relocs.push(RawReloc {
            address: 8 * number_at(index, step),
            number: number_at(index, step),
            pcrel: false,
            length: 3,
            external: true,
            kind: 0,
        })?;
    }
    Ok(relocs)
}

fn many(alloc: Global, step: u32) -> Result<Object, OutOfMemory> {
    let bytes = Bytes::from_vec(vec![in alloc; 0; 8 * MANY as usize]?)?;
    let section = section(alloc, 0, bytes, many_relocs(alloc, step)?);
    object_of(alloc, section, many_symbols(alloc)?)
}

fn is_in_place(found: &RefList, index: u32, number: u32) -> bool {
    match found.get(index as usize) {
        Some(found) => {
            found.atom.offset == 8 * u64::from(number)
                && found.place == 0
                && found.target == Target::Name(number)
        }
        None => false,
    }
}

fn are_in_place(found: &RefList, step: u32) -> bool {
    for index in 0..MANY {
        if !is_in_place(found, index, number_at(index, step)) {
            return false;
        }
    }
    found.len() == MANY as usize
}

fn all_are_read(alloc: Global, object: &Object, step: u32) -> Result<bool, OutOfMemory> {
    if !object.is_whole() {
        return Ok(false);
    }
    let file = file_id(1);
    let atoms = cut(alloc, object, file)?;
    match &refs_of(alloc, object, &atoms, file) {
        Ok(found) => Ok(are_in_place(found, step)),
        Err(_) => Ok(false),
    }
}

// Relocations in rising, falling and scattered order.
fn many_references(alloc: Global) -> Result<bool, OutOfMemory> {
    for step in [1, MANY - 1, 3001] {
        let object = many(alloc, step)?;
        if !all_are_read(alloc, &object, step)? {
            return Ok(false);
        }
    }
    Ok(true)
}

#[test]
fn differences_and_section_pointers(rt: HostRuntime) -> Result<(), Fail> {
    let alloc = rt.alloc();
    assert!(rt; differences(alloc)?);
    assert!(rt; addend_before_page_offset(alloc)?);
    assert!(rt; first_faults(alloc)?);
    assert!(rt; many_references(alloc)?);
    assert!(rt; objects_of_clang(alloc)?);
    Ok(())
}
