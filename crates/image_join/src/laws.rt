//! What holds of the definitions. Each function is a law, which its contract states, and does nothing.

ghost use Rattle.std.specs.Prelude.{ℕ, List, ◌≡◌, ◌≢◌, All, length};
ghost use Rattle.std.specs.List.{AllPairs};
ghost use Rattle.mo_types.specs.declared.key.AtomKey.{AtomKey};
ghost use Rattle.mo_types.specs.declared.loaded.LoadedFile.{LoadedFile};
ghost use Rattle.patch.specs.declared.met.Met.{Met};
ghost use Rattle.patch.specs.declared.met.RangeFault.{RangeFault};
ghost use Rattle.patch.specs.declared.range.PlacedWork.{PlacedWork};
ghost use Rattle.patch.specs.Patched.{AreApart};
ghost use Rattle.patch.specs.Range.{AreStanding, HasBytes, IsLeastFault, IsPlaced, IsSameBeside};
ghost use Rattle.image_join.specs.Joined.{IsJoined, LieApart, joined};
ghost use Rattle.image_join.specs.declared.parts.Parts.{Parts};

/// Parts that rise, don't overlap and lie in the size are one image, each at its place with zeros elsewhere, and
/// nothing else is.
#[tactic(auto, using(crate::proofs::JoinedLemmas::is_joined, crate::proofs::JoinedLemmas::only_joined))]
pub fn parts_are_one_image()
    ensures joined { (parts : Parts) → LieApart parts → IsJoined parts (joined parts) }
    ensures only { (parts : Parts) (image : List ℕ) → IsJoined parts image → image ≡ joined parts }
{}

/// The atoms with their fields and the bytes beside them are all of an image: two images, or pieces of one, in which
/// each atom stands with its fields and every other byte is as it was are the same.
pub fn filled_images_are_one()
    ensures { (files : List LoadedFile) (mets : PlacedWork → List Met) (from : ℕ) (work : List PlacedWork) (old a b : List ℕ)
        → AreStanding files from (length old) work → All (HasBytes files from a) work → All (HasBytes files from b) work
        → IsSameBeside files from work old a → All (IsPlaced files mets from a) work
        → IsSameBeside files from work old b → All (IsPlaced files mets from b) work → a ≡ b }
{}

/// Where a value doesn't fit its field, no image is filled, and where the fields of each atom lie apart and no two atoms
/// have one key, one fault alone is the first one of the atom with the least key.
pub fn filled_or_not()
    ensures never { (files : List LoadedFile) (mets : PlacedWork → List Met) (from : ℕ) (work : List PlacedWork) (key : AtomKey) (fault : RangeFault)
        → (image : List ℕ) → IsLeastFault files mets work key fault → ¬ All (IsPlaced files mets from image) work }
    ensures one { (files : List LoadedFile) (mets : PlacedWork → List Met) (work : List PlacedWork) (fault other : AtomKey × RangeFault)
        → All (λ item. AllPairs AreApart (mets item)) work → AllPairs (λ a b. a.atom.key ≢ b.atom.key) work
        → IsLeastFault files mets work fault.0 fault.1 → IsLeastFault files mets work other.0 other.1 → fault ≡ other }
{}
