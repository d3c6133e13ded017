ghost use Rattle.std.specs.Prelude.{◌≡◌, IfOk, IsPermutation};
ghost use Rattle.std.specs.List.Sorted.{IsSorted};
ghost use Rattle.std.specs.Ordering.{on};
ghost use Rattle.mo_types.specs.Keys.{compare_keys};
ghost use Rattle.sect_place.specs.Addresses.{IsAddressOf};
ghost use Rattle.sect_place.specs.declared.layout.Placed.{Placed};

use crate::lookup::{address_at, find};
use atom_index::{AtomIndex, Keyed};
use mo_types::{AtomKey, Bytes, Items, OutOfMemory, OutSection, compare_atoms};
use std::alloc::Global;
use std::marker::Model;

/// A segment of an image (`loader.h`: segment_command_64). Its `maxprot` is its `initprot`.
#[derive(Debug, Drop)]
pub struct Segment {
    pub name: Bytes,
    /// A multiple of 0x4000.
    pub address: u64,
    /// In bytes of memory, a multiple of 0x4000. That of `__LINKEDIT` is 0 here, since its parts come later.
    pub vmsize: u64,
    /// From the start of the image's file, a multiple of 0x4000.
    pub file_offset: u64,
    /// In bytes of the file. That of `__LINKEDIT` is 0 here.
    pub file_size: u64,
    /// What its memory may be used for (`vm_prot.h`: VM_PROT_READ, VM_PROT_WRITE, VM_PROT_EXECUTE).
    pub protection: u32,
    /// SG_READ_ONLY where it is read-only once the loader is done (`loader.h`).
    pub flags: u32,
    /// How many sections it has.
    pub sections: u32,
}

/// The segments of an image, in the order of their addresses.
pub type SegmentList = Items<Segment>;

/// A section of an image and where it stands (`loader.h`: section_64). One without atoms is the linker's own:
/// `__stubs`, `__unwind_info`, `__got` or `__thread_ptrs`.
#[derive(Debug, Drop)]
pub struct PlacedSection {
    pub section: OutSection,
    pub address: u64,
    /// In bytes of memory.
    pub size: u64,
    /// From the start of the image's file, or 0 where it has no bytes there.
    pub file_offset: u64,
}

/// The sections of an image, segment by segment, in the order of their addresses.
pub type PlacedSectionList = Items<PlacedSection>;

/// Where an atom stands.
#[derive(Clone, Copy, Debug, PartialEq, Eq)]
pub struct Placed {
    pub atom: AtomKey,
    pub address: u64,
}

impl Keyed for Placed {
    ghost key_of = { λ placed. placed.atom };

    #[inline(always)]
    fn key(&self) -> &AtomKey {
        &self.atom
    }
}

/// Addresses in the order of their atoms. Contracts see the list of them.
#[derive(Debug, Drop)]
pub struct PlacedList {
    placed: Vec<Placed>,
    hints: AtomIndex,
}

impl Model for PlacedList {
    ghost use Rattle.std.specs.Prelude.{List};
    ghost use Rattle.std.specs.List.Sorted.{IsSorted};
    ghost use Rattle.std.specs.Ordering.{on};
    ghost use Rattle.mo_types.specs.Keys.{compare_keys};
    ghost use Rattle.sect_place.specs.declared.layout.Placed.{Placed};

    ghost Value = { List Placed };

    ghost view = { λ list. list.placed.items };

    ghost invariant = { λ list. IsSorted (on (λ (p : Placed). p.atom) compare_keys) list.placed.items };
}

impl PlacedList {
    /// The list of some addresses, in the order of their atoms.
    pub fn from_vec(alloc: Global, placed: Vec<Placed>) -> Result<PlacedList, OutOfMemory>
        ensures same { IfOk result (IsPermutation placed.items) }
        ensures order { IfOk result (IsSorted (on (λ (p : Placed). p.atom) compare_keys)) }
    {
        let placed = in_order(placed)?;
        let hints = AtomIndex::of(alloc, placed.as_slice())?;
        Ok(PlacedList { placed, hints })
    }

    /// All addresses, in order.
    pub fn as_slice(&self) -> &[Placed]
        ensures all { result.now ≡ self.now }
        ensures rising { IsSorted (on (λ (p : Placed). p.atom) compare_keys) self.now }
    {
        self.placed.as_slice()
    }

    // The address of an atom.
    #[inline(always)]
    pub(crate) fn address_of(&self, atom: &AtomKey) -> Option<u64>
        ensures { IsAddressOf self.now atom.now result }
    {
        find(self.placed.as_slice(), &self.hints, atom)
    }

    // The same, of an atom that mostly stands at a place.
    #[inline(always)]
    pub(crate) fn address_near(&self, near: usize, atom: &AtomKey) -> Option<u64>
        ensures { IsAddressOf self.now atom.now result }
    {
        match address_at(self.placed.as_slice(), near, atom) {
            Some(address) => Some(address),
            None => self.address_of(atom),
        }
    }
}

// Addresses in the order of their atoms. Those of each section are in order before, which a stable sort makes use of.
fn in_order(placed: Vec<Placed>) -> Result<Vec<Placed>, OutOfMemory>
    ensures same { IfOk result (λ sorted. IsPermutation placed.items sorted.items) }
    ensures rising { IfOk result (λ sorted. IsSorted (on (λ (p : Placed). p.atom) compare_keys) sorted.items) }
{
    let mut placed = placed;
    placed.sort_by(|a, b| compare_atoms(&a.atom, &b.atom))?;
    Ok(placed)
}

/// Where everything of an image stands.
#[derive(Debug, Drop)]
pub struct Layout {
    /// From `__PAGEZERO` or `__TEXT` to `__LINKEDIT`.
    pub segments: SegmentList,
    pub sections: PlacedSectionList,
    /// Each atom of the image.
    pub placed: PlacedList,
}
