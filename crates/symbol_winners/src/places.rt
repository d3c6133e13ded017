//! Where symbols stand.
ghost use Rattle.std.specs.Prelude.{◌≡◌, ◌+◌, ◌-◌, ◌<◌, ◌≤◌, true, false, length, slice_index_or};
ghost use Rattle.std.specs.List.{AllPairs};
ghost use Rattle.std.specs.List.Sorted.{IsPartitionPoint};
ghost use Rattle.mo_types.specs.Atoms as cutting;
ghost use Rattle.mo_types.specs.Loaded.{IsWholeFile};
ghost use Rattle.mo_types.specs.Whole.{is_dropped};
ghost use Rattle.mo_types.specs.declared.atom.Atom.{Atom};
ghost use Rattle.mo_types.specs.declared.object.Section.{Section};
ghost use Rattle.mo_types.specs.declared.object.Symbol.{Symbol};
ghost use Rattle.atom_cut.specs.Laws.{IsBefore};
ghost use Rattle.reloc_read.specs.CutObject.{is_up_to};
ghost use Rattle.symbol_winners.specs.Places as places;

use mo_types::{Atom, AtomKey, COMMON_SECTION, LoadedFile, SymbolKind};

/// A place in an atom.
#[derive(Clone, Copy, Debug, PartialEq, Eq)]
pub struct Place {
    pub atom: AtomKey,
    /// The offset from the atom's start in bytes, its end included.
    pub offset: u64,
}

// Whether a key isn't after an offset of the section of a number.
fn is_before_or_at(key: &AtomKey, number: u16, offset: u64) -> bool
    ensures { result ≡ is_up_to number offset key.now }
{
    key.section < number || key.section == number && key.offset <= offset
}

// How many atoms aren't after an offset of the section of a number.
fn count_up_to(atoms: &[Atom], number: u16, offset: u64) -> usize
    requires { AllPairs (λ a b. IsBefore a.key b.key) atoms.now }
    ensures bound { result ≤ length atoms.now }
    ensures point { IsPartitionPoint (λ atom. is_up_to number offset atom.key ≡ true) (λ atom. is_up_to number offset atom.key ≡ false) atoms.now result }
{
    atoms.partition_point(|atom| is_before_or_at(&atom.key, number, offset))
}

// Where the last of some atoms begins.
fn last_start(atoms: &[Atom], count: usize) -> u64
    requires some { 0 < count }
    requires bound { count ≤ length atoms.now }
    ensures { (x : Atom) → result ≡ (slice_index_or atoms.now (count - 1) x).key.offset }
{
    atoms[count - 1].key.offset
}

// The cut of the atom to which an offset of the section of an index belongs.
fn cut_of(file: &LoadedFile, index: usize, offset: u64) -> u64
    requires whole { IsWholeFile file.now }
    requires index { index < length file.now.object.sections }
    requires linked { (d : Section) → is_dropped (slice_index_or file.now.object.sections index d) ≡ false }
    ensures { (d : Section) → result ≡ cutting.cut_of file.now.object (index + 1) (slice_index_or file.now.object.sections index d) offset }
{
    let atoms = file.atoms.as_slice();
    let after = count_up_to(atoms, index as u16 + 1, offset);
    last_start(atoms, after)
}

// The place of an address in the section of a number, in an atom of a file.
#[tactic(auto, unfolding(crate::specs::Places::place_in, crate::specs::Places::place_at))]
fn place_in(file: &LoadedFile, index: usize, value: u64) -> Option<Place>
    requires whole { IsWholeFile file.now }
    requires index { index < length file.now.object.sections }
    ensures { (d : Section) → result ≡ places.place_in file.now (index + 1) value (slice_index_or file.now.object.sections index d) }
{
    let section = &file.object.sections.as_slice()[index];
    if section.is_dropped() {
        return None;
    }
    let offset = value.saturating_sub(section.address);
    let cut = cut_of(file, index, offset);
    Some(Place {
        atom: AtomKey {
            file: file.id,
            section: index as u16 + 1,
            offset: cut,
        },
        offset: offset.saturating_sub(cut),
    })
}

/// Where a file's symbol of an index stands, or `None` exactly where it stands in no section that is linked. Takes no
/// memory.
#[tactic(auto, unfolding(crate::specs::Places::place_of))]
pub fn place_of(file: &LoadedFile, index: u32) -> Option<Place>
    requires whole { IsWholeFile file.now }
    requires index { index < length file.now.object.symbols }
    ensures { (d : Symbol) → result ≡ places.place_of file.now index (slice_index_or file.now.object.symbols index d).kind }
{
    match file.object.symbols.as_slice()[index as usize].kind {
        SymbolKind::Defined { section, value } => {
            let number = usize::from(section);
            if number == 0 || number > file.object.sections.len() {
                return None;
            }
            place_in(file, number - 1, value)
        }
        SymbolKind::Common { .. } => Some(Place {
            atom: AtomKey {
                file: file.id,
                section: COMMON_SECTION,
                offset: u64::from(index),
            },
            offset: 0,
        }),
        SymbolKind::Undefined | SymbolKind::Absolute | SymbolKind::Passed => None,
    }
}
