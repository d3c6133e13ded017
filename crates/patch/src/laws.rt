//! What holds of fields that were written. Each function is a law, which its contract states, and does nothing.

ghost use Rattle.std.specs.Prelude.{ℕ, List, length, ◌+◌, ◌<◌, ◌≡◌, ◌≤◌, ◌⊎◌, All, Contains, Ok};
ghost use Rattle.std.specs.List.{AllPairs};
ghost use Rattle.mo_bytes.specs.Number.{number};
ghost use Rattle.mo_types.specs.AtomBytes.{atom_bytes};
ghost use Rattle.mo_types.specs.Atoms.{atoms_of};
ghost use Rattle.mo_types.specs.Refs.{refs_of};
ghost use Rattle.mo_types.specs.Rows.{field_size};
ghost use Rattle.mo_types.specs.Whole.{IsWhole};
ghost use Rattle.mo_types.specs.declared.atom.Atom.{Atom};
ghost use Rattle.mo_types.specs.declared.key.AtomKey.{AtomKey};
ghost use Rattle.mo_types.specs.declared.key.FileId.{FileId};
ghost use Rattle.mo_types.specs.declared.loaded.LoadedFile.{LoadedFile};
ghost use Rattle.mo_types.specs.declared.object.Object.{Object};
ghost use Rattle.mo_types.specs.declared.reference.Ref.{Ref};
ghost use Rattle.patch.specs.declared.met.Met.{Met};
ghost use Rattle.patch.specs.declared.met.RangeFault.{RangeFault};
ghost use Rattle.patch.specs.declared.range.PlacedWork.{PlacedWork};
ghost use Rattle.patch.specs.Patched.{AreFields, ArePatched, IsOutside, size_of};
ghost use Rattle.patch.specs.Range.{AreStanding, AreWork, HasBytes, IsBeside, IsLeastFault, IsPlaced, IsSameBeside, bytes_of};
ghost use Rattle.patch.specs.Reading.{KeepsBits, Tells};

/// What was written reads back as what was wanted: a branch leads to the target, a page is the target's, the low 12
/// bits are the target's, and a number is the difference or the target.
#[tactic(auto, using(crate::proofs::ReadingLemmas::read_back))]
pub fn fields_read_back()
    ensures { (address : ℕ) (mets : List Met) (old new : List ℕ) → ArePatched address mets old new
        → All (λ met. Tells met.kind (address + met.place) (number (size_of met) new met.place) met) mets }
{}

/// The bits of an instruction outside its field are as they were.
pub fn instructions_keep_their_other_bits()
    ensures { (address : ℕ) (mets : List Met) (old new : List ℕ) → ArePatched address mets old new
        → All (λ met. KeepsBits met.kind (number 4 old met.place) (number (size_of met) new met.place)) mets }
{}

/// No byte is part of two fields of an atom.
pub fn no_byte_is_in_two_fields()
    ensures { (address size : ℕ) (mets : List Met) → AreFields address size mets → AllPairs (λ a b. (k : ℕ) → IsOutside k a ⊎ IsOutside k b) mets }
{}

/// No byte of an image is part of two atoms.
pub fn no_byte_is_in_two_atoms()
    ensures { (files : List LoadedFile) (from size : ℕ) (work : List PlacedWork) → AreStanding files from size work
        → AllPairs (λ a b. (k : ℕ) → IsBeside files from k a ⊎ IsBeside files from k b) work }
{}

/// The fields and the other bytes of an atom are all of it: two lists of bytes in which each field holds its value and
/// every other byte is as it was are the same list.
pub fn patched_bytes_are_one()
    ensures { (address : ℕ) (mets : List Met) (old a b : List ℕ) → All (λ byte. byte < 256) a → All (λ byte. byte < 256) b
        → ArePatched address mets old a → ArePatched address mets old b → a ≡ b }
{}

/// Atoms that stand one behind the other, with fields that lie apart in their bytes, are placed with their fields, or there
/// is a first value that doesn't fit.
pub fn atoms_are_placed_or_a_fault_exists()
    ensures { (files : List LoadedFile) (mets : PlacedWork → List Met) (from : ℕ) (work : List PlacedWork) (old : List ℕ)
        → AreWork files mets from (length old) work → All (λ item. All (λ byte. byte < 256) (bytes_of files item)) work
        → ((new : List ℕ) × IsSameBeside files from work old new × All (IsPlaced files mets from new) work × All (HasBytes files from new) work)
        ⊎ ((key : AtomKey) × (fault : RangeFault) × IsLeastFault files mets work key fault) }
{}

/// The fields of the references of an object whose relocations keep their rules lie apart in each atom, and end within it.
pub fn fields_of_references_lie_apart()
    ensures apart { (object : Object) (file : FileId) (refs : List Ref) → refs_of object file ≡ Ok refs
        → AllPairs (λ a b. a.atom.section ≡ b.atom.section → a.atom.offset ≡ b.atom.offset
        → (a.place + field_size a.kind ≤ b.place) ⊎ (b.place + field_size b.kind ≤ a.place)) refs }
    ensures within { (object : Object) (file : FileId) (refs : List Ref) (atom : Atom) (r : Ref) → IsWhole object → refs_of object file ≡ Ok refs
        → Contains (atoms_of object file) atom → Contains refs r → r.atom.section ≡ atom.key.section → r.atom.offset ≡ atom.key.offset
        → r.place + field_size r.kind ≤ length (atom_bytes object atom) }
{}
