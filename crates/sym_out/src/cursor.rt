//! Where the symbols of a file stand, from one to the next.
ghost use Rattle.std.specs.Prelude.{◌≡◌, ◌≢◌, ◌<◌, All, IfSome, IsTrue, MatchOption, length, slice_index_or};
ghost use Rattle.atom_index.specs.Stands.{StandsAt};
ghost use Rattle.mo_types.specs.Loaded.{IsWholeFile};
ghost use Rattle.mo_types.specs.declared.object.Symbol.{Symbol as Declared};
ghost use Rattle.symbol_winners.specs.Places as places;
ghost use Rattle.sect_place.specs.Addresses.{AreOnce};
ghost use Rattle.sym_out.specs.Sites.{site_of};
ghost use Rattle.sym_out.specs.inner.Standing.{Begins, IsPlaceOf};
ghost use Rattle.sym_out.specs.inner.Tables.{atom_of};

use crate::placed::PlacedAtoms;
use crate::sites::{Site, Sites};
use mo_types::{Atom, AtomKey, LoadedFile, SymbolKind};
use symbol_winners::{Place, place_of};

// Whether an atom at a place begins at an offset of the section of a number.
fn begins_at(atoms: &[Atom], at: usize, number: u16, offset: u64) -> bool
    ensures { IsTrue result → Begins atoms.now number offset at }
{
    if at >= atoms.len() {
        return false;
    }
    let key = &atoms[at].key;
    key.section == number && key.offset == offset
}

// The place of the last of some atoms, by rising key, that isn't after an offset of the section of a number.
fn last_up_to(atoms: &[Atom], number: u16, offset: u64) -> usize {
    let after = atoms.partition_point(|atom| {
        atom.key.section < number || atom.key.section == number && atom.key.offset <= offset
    });
    after.saturating_sub(1)
}

// The place of an atom that begins at an offset of the section of a number, if one does. It mostly stands at a place.
fn start_near(atoms: &[Atom], near: usize, number: u16, offset: u64) -> Option<usize>
    ensures { IfSome result (λ at. Begins atoms.now number offset at) }
{
    if begins_at(atoms, near, number, offset) {
        return Some(near);
    }
    let at = last_up_to(atoms, number, offset);
    if begins_at(atoms, at, number, offset) {
        return Some(at);
    }
    None
}

/// Where the next symbol of a file mostly stands. Nothing is proved of its places: what isn't there is searched for.
#[derive(Drop)]
pub(crate) struct Cursor {
    // The place of the next atom among those of the file.
    atom: usize,
    // The same among those that are placed.
    placed: usize,
}

impl Cursor {
    /// Before the first symbol of a file.
    pub fn new() -> Cursor {
        Cursor { atom: 0, placed: 0 }
    }

    /// Before a symbol whose atom mostly stands at a place among those that are placed.
    pub fn at(near: usize) -> Cursor {
        Cursor {
            atom: 0,
            placed: near.wrapping_add(1),
        }
    }

    // Where an address in the section of a number stands, if an atom begins there.
    fn start_of(&mut self, file: &LoadedFile, number: u8, value: u64) -> Option<Place>
        requires { IsWholeFile file.now }
        ensures { IfSome result (IsPlaceOf file.now number value) }
    {
        let index = usize::from(number).checked_sub(1)?;
        let section = file.object.sections.get(index)?;
        let offset = value.saturating_sub(section.address);
        let number = u16::from(number);
        let at = start_near(file.atoms.as_slice(), self.atom, number, offset)?;
        self.placed = self
            .placed
            .wrapping_add(at.wrapping_sub(self.atom))
            .wrapping_add(1);
        self.atom = at.wrapping_add(1);
        Some(Place {
            atom: AtomKey {
                file: file.id,
                section: number,
                offset,
            },
            offset: 0,
        })
    }

    /// Where a file's symbol of an index stands, or `None` exactly where it stands in no section that is linked.
    pub fn place_of(&mut self, file: &LoadedFile, index: u32) -> Option<Place>
        requires whole { IsWholeFile file.now }
        requires index { index < length file.now.object.symbols }
        ensures { (d : Declared) → result ≡ places.place_of file.now index (slice_index_or file.now.object.symbols index d).kind }
    {
        let kind = file.object.symbols.as_slice()[index as usize].kind;
        if let SymbolKind::Defined { section, value } = kind {
            if let Some(place) = self.start_of(file, section, value) {
                return Some(place);
            }
        }
        place_of(file, index)
    }

    /// The place of the symbol's atom among those that are placed, or `None` exactly where it isn't.
    pub fn find(&mut self, placed: &PlacedAtoms, atom: &AtomKey) -> Option<usize>
        ensures found { MatchOption result (All (λ p. p.atom ≢ atom.now) placed.now) (StandsAt atom_of placed.now atom.now) }
        ensures once { AreOnce placed.now }
    {
        let near = self.placed.wrapping_sub(1);
        let found = placed.find_near(near, atom);
        self.placed = match found {
            Some(at) => at.saturating_add(1),
            None => near,
        };
        found
    }

    /// The same with its address and the number of its section.
    pub fn site_of<'a>(&mut self, sites: &Sites<'a>, atom: &AtomKey) -> Option<Site<'a>>
        ensures { result ≡ site_of sites.now atom.now }
    {
        let mut near = self.placed.wrapping_sub(1);
        let site = sites.find(&mut near, atom);
        self.placed = near;
        site
    }

    /// The place of the last atom that was found.
    pub fn last(&self) -> usize {
        self.placed.wrapping_sub(1)
    }
}
