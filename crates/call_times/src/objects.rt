//! Files with code, and what is to be written of it.
ghost use Rattle.std.specs.Prelude.{◌≡◌, drop, take};

use mo_types::{Bytes, Loaded, OutOfMemory, RefKind, SymbolList};
use patch::{Met, PlacedWork};
use std::alloc::Global;
use test_objects::{atom, file, file_id, key, object_of, only, section};

/// Where the image stands in memory.
pub(crate) const BASE: u64 = 0x1_0000_0000;

/// Atoms of one file that stand one behind the other from the image's start on.
#[derive(Drop)]
pub(crate) struct Input {
    pub(crate) loaded: Loaded,
    pub(crate) work: Vec<PlacedWork>,
    pub(crate) mets: Vec<Met>,
}

/// One file, whose object has one section of code, with these contents.
pub(crate) fn code_of(alloc: Global, bytes: Bytes) -> Result<Loaded, OutOfMemory> {
    let section = section(alloc, b"__TEXT", b"__text", 0, 3, bytes);
    let object = object_of(alloc, section, SymbolList::new(alloc))?;
    only(alloc, file(alloc, file_id(0), object))
}

/// The atom of that section at an offset, which is that in the image too.
pub(crate) fn work_at(offset: u64, size: u64) -> PlacedWork {
    PlacedWork {
        atom: atom(key(0, 1, offset), size, 2),
        file: 0,
        at: offset,
        address: BASE.wrapping_add(offset),
    }
}

/// So many references from one on, as far as there are any.
#[tactic(auto, using(std::proofs::lemmas::List::drop_min, std::proofs::lemmas::List::take_min))]
pub(crate) fn part_of(mets: &[Met], first: usize, count: usize) -> &[Met]
    ensures { result.now ≡ take count (drop first mets.now) }
{
    let rest = &mets[first.min(mets.len())..];
    &rest[..count.min(rest.len())]
}

/// A reference at a place of its atom.
pub(crate) fn met_at(place: u64, kind: RefKind, value: u64) -> Met {
    Met {
        place,
        file_place: place,
        kind,
        value,
        minus: 0,
        addend: 0,
    }
}
