//! What is to be laid out: files of 250 sections each, with atoms that are all kept.
use command_line::Command;
use mo_cmd::{UsageFault, read_all_words};
use mo_types::{
    Arg, ArgList, Atom, AtomKey, AtomList, Bytes, Goal, Items, Loaded, LoadedFile, LoadedList,
    OutOfMemory, Section, SectionList, SymbolList,
};
use sect_place::{BranchTarget, BranchTargetList, IslandArea};
use std::alloc::Global;
use test_objects::{file_id, key, object};

// How many sections a file has.
const SECTIONS: u32 = 250;

// The segments, names, types and attributes of a file's sections, in turn.
const KINDS: [(&[u8], &[u8], u8, u32); 5] = [
    (b"__TEXT", b"__text", 0, 0x8000_0400),
    (b"__TEXT", b"__const", 0, 0),
    (b"__DATA", b"__const", 0, 0),
    (b"__DATA", b"__data", 0, 0),
    (b"__DATA", b"__bss", 1, 0),
];

fn section(alloc: Global, number: u32) -> Section {
    let (segment, name, kind, attributes) = KINDS[number as usize % 5];
    Section {
        size: 1 << 20,
        attributes,
        ..test_objects::section(alloc, segment, name, kind, 3, Bytes::new())
    }
}

fn file(alloc: Global, position: u16) -> Result<LoadedFile, OutOfMemory> {
    let mut sections = SectionList::new(alloc);
    for number in 0..SECTIONS {
        sections.push(section(alloc, number))?;
    }
    let object = object(sections, SymbolList::new(alloc));
    Ok(test_objects::file(alloc, file_id(position), object))
}

/// So many files.
pub(crate) fn loaded_of(alloc: Global, files: u16) -> Result<Loaded, OutOfMemory> {
    let mut list = Vec::new(alloc);
    for position in 0..files {
        list.push(file(alloc, position)?)?;
    }
    Ok(Loaded {
        files: LoadedList::from_vec(list),
    })
}

// An atom of a file, of so many in each of its sections.
fn atom(position: u16, number: u32, each: u32) -> Atom {
    let each = each.max(1);
    let section = (number / each % SECTIONS) as u16 + 1;
    let offset = u64::from(number % each);
    let key = key(position, section, 64 * offset);
    test_objects::atom(key, 16 + offset % 5 * 4, 2 + (number % 2) as u8)
}

/// The atoms of so many files, with so many in each section.
pub(crate) fn kept_of(alloc: Global, files: u16, each: u32) -> Result<AtomList, OutOfMemory> {
    let mut atoms = Vec::new(alloc);
    let each = each.clamp(1, 1 << 20);
    for position in 0..files {
        for number in 0..SECTIONS * each {
            atoms.push(atom(position, number, each))?;
        }
    }
    Ok(AtomList::from_vec(atoms))
}

fn area(alloc: Global, last: AtomKey) -> Result<IslandArea, OutOfMemory> {
    let mut targets = BranchTargetList::new(alloc);
    targets.push(BranchTarget {
        goal: Goal::Def(last, 0),
        addend: 0,
        stub: None,
    })?;
    Ok(IslandArea { last, targets })
}

/// An area of one island behind the first atom of each file's first section, which is one of code.
pub(crate) fn areas_of(alloc: Global, files: u16) -> Result<Vec<IslandArea>, OutOfMemory> {
    let mut areas = Vec::new(alloc);
    for position in 0..files {
        areas.push(area(alloc, atom(position, 0, 1).key)?)?;
    }
    Ok(areas)
}

/// The command of a link.
pub(crate) fn command(alloc: Global) -> Result<Command, UsageFault> {
    let mut words: ArgList = Items::new(alloc);
    words.push(Arg::new(String::from_str(alloc, "main.o")?))?;
    read_all_words(alloc, &words)
}
