//! What holds of images, on calls that do nothing.
ghost use Rattle.std.specs.Prelude.{ℕ, ℤ, ◌⊎◌, All, Err, List, Ok, Option, length};
ghost use Rattle.fixup_chain.specs.Chained.{AreMany};
ghost use Rattle.fixup_chain.specs.declared.chains.Chains.{Chains};
ghost use Rattle.fixup_chain.specs.declared.chains.Fixup.{Fixup};
ghost use Rattle.image_make.specs.Atoms.{AreLow, AreRising};
ghost use Rattle.image_make.specs.Frames.{HaveFrames};
ghost use Rattle.image_make.specs.Made.{ImageInputs, IsChained, IsLaid, IsMade, binds_of, blank, kept_of, mets_of, rows_of, told_mets};
ghost use Rattle.image_make.specs.Parts as parts;
ghost use Rattle.image_make.specs.Whole.{AreBytesIn};
ghost use Rattle.image_make.specs.declared.fault.MakeFault.TheVariants.{Place, Range};
ghost use Rattle.mo_types.specs.Loaded.{IsWholeLoaded};
ghost use Rattle.mo_types.specs.declared.key.AtomKey.{AtomKey};
ghost use Rattle.mo_types.specs.declared.loaded.Loaded.{Loaded};
ghost use Rattle.patch.specs.Range.{AreWork};
ghost use Rattle.patch.specs.declared.met.RangeFault.{RangeFault};
ghost use Rattle.sect_place.specs.declared.layout.Layout.{Layout};
ghost use Rattle.sect_place.specs.declared.size.PlaceFault.TheVariants.{ImageSize};

/// The atoms that have bytes stand one behind the other in the file, before `__LINKEDIT`, and the fields of their references
/// lie apart in them; so they do in a blank image.
pub fn what_is_laid_is_work()
    ensures told { (m : ImageInputs) (layout : Layout) → IsWholeLoaded (record { files = m.files }) → AreRising (kept_of m) → AreLow (kept_of m)
        → IsLaid m layout → AreWork m.files (told_mets m layout) 0 (parts.linkedit_offset layout.segments) (rows_of m layout) }
    ensures chained { (m : ImageInputs) (layout : Layout) (fixups : List Fixup) (chains : Chains) → IsWholeLoaded (record { files = m.files })
        → AreRising (kept_of m) → AreLow (kept_of m) → IsLaid m layout → IsChained m layout fixups chains
        → AreWork m.files (mets_of m layout chains) 0 (length (blank m layout fixups chains)) (rows_of m layout) }
{}

/// There is an image, or the reason why there is none: too many bytes, or a value that is out of range.
pub fn an_image_or_a_fault_exists()
    ensures { (m : ImageInputs) → IsWholeLoaded (record { files = m.files }) → AreBytesIn m.files → AreRising (kept_of m) → AreLow (kept_of m)
        → HaveFrames m → ¬ AreMany (binds_of m)
        → ((image : List ℕ) × IsMade m (Ok image))
        ⊎ (((value : ℤ) × IsMade m (Err (Place (ImageSize value))))
        ⊎ ((atom : Option AtomKey) × (fault : RangeFault) × IsMade m (Err (Range atom fault)))) }
{}
