ghost use Rattle.std.specs.Prelude.{Contains, IfSome};
ghost use Rattle.std.specs.List.Sorted.{IsSorted};
ghost use Rattle.std.specs.Ordering.{on};
ghost use Rattle.mo_types.specs.Keys.{compare_keys};
ghost use Rattle.sect_place.specs.Addresses.{IsAddressOf};
ghost use Rattle.sect_place.specs.declared.layout.Placed.{Placed};

use crate::layout::{Layout, Placed};
use atom_index::{AtomIndex, is_at};
use mo_types::AtomKey;

/// The address of an atom, or `None` exactly where the layout doesn't have it. Takes no memory.
#[inline(always)]
pub fn address(layout: &Layout, atom: AtomKey) -> Option<u64>
    ensures { IsAddressOf layout.now.placed atom result }
{
    layout.placed.address_of(&atom)
}

/// The same, of an atom that mostly stands at a place of the list of addresses.
#[inline(always)]
pub fn address_near(layout: &Layout, near: usize, atom: AtomKey) -> Option<u64>
    ensures { IsAddressOf layout.now.placed atom result }
{
    layout.placed.address_near(near, &atom)
}

// The address of an atom, among addresses in the order of their atoms, by the hints of the list.
#[inline(always)]
pub(crate) fn find(placed: &[Placed], hints: &AtomIndex, atom: &AtomKey) -> Option<u64>
    requires { IsSorted (on (λ (p : Placed). p.atom) compare_keys) placed.now }
    ensures { IsAddressOf placed.now atom.now result }
{
    match hints.find(placed, atom) {
        Some(at) => Some(placed[at].address),
        None => None,
    }
}

// The address at a place of the list, if it is that of an atom.
#[inline(always)]
pub(crate) fn address_at(placed: &[Placed], at: usize, atom: &AtomKey) -> Option<u64>
    ensures { IfSome result (λ address. Contains placed.now (record { atom = atom.now; address = address })) }
{
    if is_at(placed, at, atom) {
        return Some(placed[at].address);
    }
    None
}
