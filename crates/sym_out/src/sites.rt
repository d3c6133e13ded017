//! Where the atoms of a layout stand, and in which of its sections.
ghost use Rattle.std.specs.Prelude.{◌≡◌, ◌<◌, ◌∷◌, [], ℕ, IfOk, length};
ghost use Rattle.std.specs.Option.{option_map};
ghost use Rattle.mo_types.specs.declared.key.AtomKey.{AtomKey as Key};
ghost use Rattle.sect_place.specs.Addresses.{AreOnce};
ghost use Rattle.sym_out.specs.Sites as spec;
ghost use Rattle.sym_out.specs.inner.Numbers.{AreNumbers, or_number, numbered};

use crate::placed::PlacedAtoms;
use mo_format::nlist::NO_SECT;
use mo_types::{AtomKey, OutOfMemory};
use sect_place::{Layout, PlacedSection};
use std::alloc::Global;
use std::marker::Model;

/// An atom with its address, and the number of its section.
#[derive(Drop)]
pub(crate) struct Site<'a> {
    pub atom: &'a AtomKey,
    pub address: u64,
    pub section: u8,
}

impl<'a> Model for Site<'a> {
    ghost use Rattle.sym_out.specs.Sites.{Site as Stands};

    ghost Value = { Stands };

    ghost view = { λ site. record { atom = site.atom.now; address = site.address; section = site.section } };
}

// A number, or where it is none another one.
fn or_number(number: u8, other: u8) -> u8
    ensures { result ≡ or_number number other }
{
    if number == NO_SECT { other } else { number }
}

// Notes the section of a number as the own of an atom that mostly stands at a place, unless it has one. Answers the place
// behind it.
fn note(
    numbers: &mut Vec<u8>,
    placed: &PlacedAtoms,
    near: usize,
    atom: &AtomKey,
    number: u8,
) -> usize
    requires numbers { length numbers.old.items ≡ length placed.now }
    ensures size { length numbers.new.items ≡ length numbers.old.items }
    ensures noted { (f : Key → ℕ) → AreNumbers f placed.now numbers.old.items
        → AreNumbers (numbered f number (atom.now ∷ [])) placed.now numbers.new.items }
{
    match placed.find_near(near, atom) {
        Some(at) => {
            let known = &mut numbers[at];
            *known = or_number(*known, number);
            at.saturating_add(1)
        }
        None => near,
    }
}

// Notes the section of a number as the own of each of some atoms that has none.
fn note_atoms(numbers: &mut Vec<u8>, placed: &PlacedAtoms, atoms: &[AtomKey], number: u8)
    requires numbers { length numbers.old.items ≡ length placed.now }
    ensures size { length numbers.new.items ≡ length numbers.old.items }
    ensures noted { (f : Key → ℕ) → AreNumbers f placed.now numbers.old.items
        → AreNumbers (numbered f number atoms.now) placed.now numbers.new.items }
{
    let mut near = 0;
    for atom in atoms {
        near = note(numbers, placed, near, atom, number);
    }
}

// The number of each placed atom's section.
fn numbers_of(
    alloc: Global,
    placed: &PlacedAtoms,
    sections: &[PlacedSection],
) -> Result<Vec<u8>, OutOfMemory>
    requires { length sections.now < 256 }
    ensures { IfOk result (λ numbers. AreNumbers (spec.section_number sections.now) placed.now numbers.items) }
{
    let mut numbers = vec![in alloc; NO_SECT; placed.len()]?;
    for (i, section) in sections.iter().enumerate() {
        note_atoms(
            &mut numbers,
            placed,
            section.section.atoms.as_slice(),
            i as u8 + 1,
        );
    }
    Ok(numbers)
}

/// The atoms of a layout with their addresses and sections. Contracts see the layout.
#[derive(Drop)]
pub(crate) struct Sites<'a> {
    layout: &'a Layout,
    placed: PlacedAtoms<'a>,
    // Of each placed atom.
    numbers: Vec<u8>,
}

impl<'a> Model for Sites<'a> {
    ghost use Rattle.sect_place.specs.declared.layout.Layout.{Layout};
    ghost use Rattle.sym_out.specs.inner.Numbers.{IsSited};

    ghost Value = { Layout };

    ghost view = { λ sites. sites.layout.now };

    ghost invariant = { λ sites. IsSited sites.layout.now sites.placed sites.numbers.items };
}

impl<'a> Sites<'a> {
    /// Those of a layout.
    pub fn of(alloc: Global, layout: &'a Layout) -> Result<Sites<'a>, OutOfMemory>
        requires once { AreOnce layout.now.placed }
        requires few { length layout.now.sections < 256 }
        ensures { IfOk result (λ sites. sites ≡ layout.now) }
    {
        let placed = PlacedAtoms::of(layout);
        let numbers = numbers_of(alloc, &placed, layout.sections.as_slice())?;
        Ok(Sites {
            layout,
            placed,
            numbers,
        })
    }

    /// Where an atom stands, or `None` exactly where it isn't placed. The search begins at a place, which becomes the one
    /// behind the atom. Takes no memory.
    pub fn find(&self, near: &mut usize, atom: &AtomKey) -> Option<Site<'a>>
        ensures { result ≡ spec.site_of self.now atom.now }
    {
        match self.placed.find_near(*near, atom) {
            Some(at) => {
                *near = at.saturating_add(1);
                let placed = &self.placed.as_slice()[at];
                Some(Site {
                    atom: &placed.atom,
                    address: placed.address,
                    section: self.numbers[at],
                })
            }
            None => None,
        }
    }
}
