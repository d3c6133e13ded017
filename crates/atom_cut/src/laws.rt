//! What holds of atoms. Each function is a law, which its contract states, and does nothing.

ghost use Rattle.std.specs.Prelude.{◌≡◌, ◌≤◌, ℕ, Some, false, All};
ghost use Rattle.std.specs.List.{AllPairs, flat_map};
ghost use Rattle.mo_types.specs.AtomBytes.{atom_bytes};
ghost use Rattle.mo_types.specs.Atoms.{atoms_of, cut_of, is_cut, section_atoms};
ghost use Rattle.mo_types.specs.RelocationRules.{section_numbered};
ghost use Rattle.mo_types.specs.Whole.{IsWhole, IsWholeSection, is_dropped};
ghost use Rattle.mo_types.specs.declared.key.FileId.{FileId};
ghost use Rattle.mo_types.specs.declared.object.Object.{Object};
ghost use Rattle.mo_types.specs.declared.object.Section.{Section};
ghost use Rattle.atom_cut.specs.Laws.{HasItsBytes, IsBefore, IsGreatest, Tile};

/// The atoms of a linked section follow each other, without gap or overlap, from its start to its end.
#[tactic(auto, using(crate::proofs::TileLemmas::tiles))]
pub fn atoms_tile()
    ensures { (object : Object) (file : FileId) (number : ℕ) (section : Section) → is_dropped section ≡ false
        → Tile 0 section.size (section_atoms object file number section) }
{}

/// The bytes of the atoms of an object's linked section, one after the other, are those of the section.
#[tactic(auto, using(crate::proofs::TileLemmas::bytes_of_section))]
pub fn no_byte_is_lost()
    ensures { (object : Object) (file : FileId) (number : ℕ) (section : Section) → IsWholeSection section → is_dropped section ≡ false
        → section_numbered object.sections number ≡ Some section
        → flat_map (atom_bytes object) (section_atoms object file number section) ≡ section.bytes }
{}

/// An offset belongs to the atom with the greatest cut not above it.
#[tactic(auto, using(crate::proofs::TileLemmas::cut_is_greatest))]
pub fn offset_belongs_to_the_greatest_cut()
    ensures { (object : Object) (number : ℕ) (section : Section) (offset : ℕ)
        → IsGreatest (is_cut object number section) offset (cut_of object number section offset) }
{}

/// The keys of an object's atoms rise.
#[tactic(auto, using(crate::proofs::KeyLemmas::keys))]
pub fn keys_rise()
    ensures { (object : Object) (file : FileId) → AllPairs (λ a b. IsBefore a.key b.key) (atoms_of object file) }
{}

/// Each atom of a whole object has as many bytes as its size says, or none where its section is zerofill.
pub fn atoms_have_their_bytes()
    ensures { (object : Object) (file : FileId) → IsWhole object → All (HasItsBytes object) (atoms_of object file) }
{}
