//! Pointers whose chains are encoded.
ghost use Rattle.std.specs.Prelude.{IsTrue};
ghost use Rattle.fixup_chain.specs.Encoded.{AreApart};

use crate::order::stand_once;
use anyhow::{Result, bail};
use fixup_chain::{ChainFault, Chains, Fixup, FixupList, encode};
use mo_types::{AtomKey, Bytes, Goal, OutOfMemory};
use sect_place::{Layout, Placed, PlacedList, PlacedSectionList, Segment, SegmentList};
use std::alloc::Global;
use std::time::Instant;
use test_objects::key;

const TEXT: u64 = 0x1_0000_0000;

const DATA: u64 = 0x1_4000_0000;

const END: u64 = 0x1_8000_0000;

// The names, addresses and sizes of the segments.
const SEGMENTS: [(&[u8], u64, u64); 5] = [
    (b"__PAGEZERO", 0, TEXT),
    (b"__TEXT", TEXT, DATA - TEXT),
    (b"__DATA_CONST", DATA, 0x1000_0000),
    (b"__DATA", DATA + 0x1000_0000, END - DATA - 0x1000_0000),
    (b"__LINKEDIT", END, 0),
];

// The atom of a number, in one of a thousand sections.
fn atom(number: u32) -> AtomKey {
    key(0, (number % 1000) as u16, u64::from(number / 1000) * 16)
}

// A layout of so many atoms of 16 bytes.
fn layout_of(alloc: Global, atoms: u32) -> Result<Layout, OutOfMemory> {
    let mut segments = SegmentList::new(alloc);
    for (name, address, vmsize) in SEGMENTS {
        segments.push(Segment {
            name: Bytes::from_static(name),
            address,
            vmsize,
            file_offset: 0,
            file_size: 0,
            protection: 3,
            flags: 0,
            sections: 0,
        })?;
    }
    let mut placed = Vec::with_capacity(alloc, atoms as usize)?;
    for number in 0..atoms {
        placed.push(Placed {
            atom: atom(number),
            address: TEXT + 0x1000 + u64::from(number) * 16,
        })?;
    }
    Ok(Layout {
        segments,
        sections: PlacedSectionList::new(alloc),
        placed: PlacedList::from_vec(alloc, placed)?,
    })
}

// Whether each pointer ends before the next one begins.
fn are_apart(fixups: &[Fixup]) -> bool
    ensures { IsTrue result → AreApart fixups.now }
{
    let mut end = 0u128;
    for fixup in fixups {
        if u128::from(fixup.address) < end {
            return false;
        }
        end = u128::from(fixup.address) + 8;
    }
    true
}

// A name of 45 bytes that ends in a number.
fn name_of(alloc: Global, number: u32) -> Result<Bytes, OutOfMemory> {
    let mut name = Vec::with_capacity(alloc, 45)?;
    name.extend_from_slice(b"_a_name_that_libraries_might_have_".as_slice())?;
    let mut rest = number;
    for _digit in 0..11 {
        name.push(0x30 + (rest % 10) as u8)?;
        rest /= 10;
    }
    Bytes::from_vec(name)
}

fn names_of(alloc: Global, count: u32) -> Result<Vec<Bytes>, OutOfMemory> {
    let mut names = Vec::with_capacity(alloc, count as usize)?;
    for number in 0..count {
        names.push(name_of(alloc, number)?)?;
    }
    Ok(names)
}

// A number below another one, in no order of the numbers that it comes from.
fn drawn(number: u32, below: u32) -> u32 {
    number.wrapping_mul(0x9e37_79b1).rotate_right(7) % below.max(1)
}

// Every second pointer is bound to one of the names, and the others lead to atoms.
fn goal_of(names: &[Bytes], number: u32, atoms: u32) -> Result<Goal, OutOfMemory> {
    let count = (names.len() % 0x1_0000_0000) as u32;
    match names.get(drawn(number, count) as usize) {
        Some(name) if number % 2 == 1 => Ok(Goal::Import {
            name: name.clone()?,
            ordinal: 1,
            by_weak: false,
            optional: false,
        }),
        _ => Ok(Goal::Def(atom(drawn(number, atoms)), 8)),
    }
}

fn pointers(alloc: Global, count: u32, names: u32, atoms: u32) -> Result<FixupList, OutOfMemory> {
    let names = names_of(alloc, names)?;
    let mut fixups = Vec::with_capacity(alloc, count as usize)?;
    for number in 0..count {
        fixups.push(Fixup {
            atom: Some(atom(number)),
            place: 0,
            address: DATA + u64::from(number) * 8,
            goal: goal_of(names.as_slice(), number, atoms)?,
            addend: 0,
        })?;
    }
    Ok(FixupList::from_vec(fixups))
}

// Encodes pointers, and prints the microseconds that it took.
fn encoded(
    rt: &HostRuntime,
    fixups: &FixupList,
    layout: &Layout,
) -> Result<Result<Chains, ChainFault>> {
    if !are_apart(fixups.as_slice()) || !stand_once(layout.placed.as_slice()) {
        bail!("the pointers or the atoms aren't in order");
    }
    let start = Instant::now(rt)?;
    let answer = encode(rt.alloc(), fixups, layout);
    eprintln!(rt; "{}", start.elapsed(rt)?.as_micros())?;
    Ok(answer)
}

// Prints how many words chains have, the bytes of the part that tells of them, and a sum of the words; or the fault.
fn tell(rt: &HostRuntime, answer: &Result<Chains, ChainFault>) -> Result<()> {
    match answer {
        Ok(chains) => {
            let mut sum = 0u64;
            for word in chains.words.as_slice() {
                sum = sum.rotate_left(5) ^ word.word;
            }
            println!(rt; "{} {} {sum}", chains.words.len(), chains.blob.len())?;
        }
        Err(fault) => println!(rt; "{fault:?}")?,
    }
    Ok(())
}

/// Makes so many pointers, every second of which is bound to one of so many names, and the others lead to so many atoms.
pub(crate) fn make_pointers(rt: &HostRuntime, count: u32, names: u32, atoms: u32) -> Result<()> {
    let layout = layout_of(rt.alloc(), atoms)?;
    let fixups = pointers(rt.alloc(), count, names, atoms)?;
    println!(rt; "{} {}", layout.placed.as_slice().len(), fixups.len())?;
    Ok(())
}

/// Encodes their chains.
pub(crate) fn encode_chains(rt: &HostRuntime, count: u32, names: u32, atoms: u32) -> Result<()> {
    let layout = layout_of(rt.alloc(), atoms)?;
    let fixups = pointers(rt.alloc(), count, names, atoms)?;
    let answer = encoded(rt, &fixups, &layout)?;
    tell(rt, &answer)
}

// Pointers that are bound to one name with so many addends; the first one stands in `__TEXT`, where none may.
fn bound(alloc: Global, count: u32) -> Result<FixupList, OutOfMemory> {
    let name = Bytes::from_static(b"_name");
    let mut fixups = Vec::with_capacity(alloc, count as usize)?;
    for number in 0..count {
        let place = u64::from(number) * 8;
        fixups.push(Fixup {
            atom: None,
            place: 0,
            address: if number == 0 { TEXT } else { DATA + place },
            goal: Goal::Flat(name.clone()?),
            addend: i64::from(number),
        })?;
    }
    Ok(FixupList::from_vec(fixups))
}

/// Encodes the chains of pointers with so many imports, which have a fault, and prints which one is told of.
pub(crate) fn encode_imports(rt: &HostRuntime, count: u32) -> Result<()> {
    let layout = layout_of(rt.alloc(), 0)?;
    let fixups = bound(rt.alloc(), count)?;
    let answer = encoded(rt, &fixups, &layout)?;
    tell(rt, &answer)
}
