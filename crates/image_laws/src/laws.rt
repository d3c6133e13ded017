//! What holds of images that were made. Each function is a law, which its contract states, and does nothing.
ghost use Rattle.std.specs.Prelude.{◌≡◌, ◌≢◌, ℕ, ◌<◌, ◌^◌, ◌⊎◌, false, All, Contains, List, [], None, Ok, Some};
ghost use Rattle.mo_types.specs.Loaded.{IsWholeFile};
ghost use Rattle.mo_types.specs.declared.goal.Goal.{Goal};
ghost use Rattle.mo_types.specs.declared.goal.Goal.TheVariants.{Header};
ghost use Rattle.mo_types.specs.declared.reference.Ref.{Ref};
ghost use Rattle.sect_place.specs.Layout.{base_of};
ghost use Rattle.sect_list.specs.OutSections.{Home, home_of};
ghost use Rattle.sect_place.specs.declared.layout.Layout.{Layout};
ghost use Rattle.field_laws.specs.Pointers.{addresses_of};
ghost use Rattle.fixup_chain.specs.declared.chains.Fixup.{Fixup};
ghost use Rattle.patch.specs.declared.range.PlacedWork.{PlacedWork};
ghost use Rattle.ref_meet.specs.Addresses.{address_by, entry_address};
ghost use Rattle.image_make.specs.declared.kept.KeptAtom.{KeptAtom};
ghost use Rattle.image_make.specs.Made.{IsLaid, IsMadeWith, ImageInputs, kept_of, mets_of, rows_of, scene_of};
ghost use Rattle.image_make.specs.Parts.{info_section};
ghost use Rattle.image_read.specs.Fixups.{fixup_at};
ghost use Rattle.image_read.specs.Held.{AtomMap, Held};
ghost use Rattle.image_read.specs.Reaches.{IsStub};
ghost use Rattle.image_read.specs.declared.fixups.FixupRead.TheVariants.{Plain};
ghost use Rattle.slot_plan.specs.declared.need.Way.TheVariants.{Stub};
ghost use Rattle.image_laws.specs.Entry.{BeginsAt};
ghost use Rattle.image_laws.specs.Means.{AreRising, AreZeros, HasGoals, Imaged, IsGoalAt};
ghost use Rattle.image_laws.specs.Means.{IsInMemory, IsSectionInMemory, IsWritten, IsZerofill, KeepsOtherBytes};
ghost use Rattle.image_laws.specs.References.{AreFillable, AreOffsets, IsReferenceOf, IsServed, StubsHaveSlots, TellsGoal, section_of};
ghost use Rattle.image_laws.specs.Unwinding.{AreUnwindable, IsEntryServed, IsInNoFunction, TellsEntry, TellsUnwinding};
ghost use Rattle.unwind_link.specs.declared.kept.KeptUnwind.{KeptUnwind};
ghost use Rattle.unwind_out.specs.Law.{IsQuiet};
ghost use Rattle.unwind_out.specs.Lookup.{unwind};

/// An image that is made has a layout, pointers and chains, of which the other laws speak.
pub fn images_have_a_layout()
    ensures { (m : ImageInputs) (image : List ℕ) → IsMadeWith m (Ok image) → Imaged m image }
{}

/// Once an image is loaded, each of its sections stands at its address: the bytes that the file has at the section's place,
/// or zeros where the section has none in the file.
pub fn sections_are_in_memory()
    ensures { (m : ImageInputs) (image : List ℕ) (of : Imaged m image) → AreRising m → All (IsSectionInMemory image) of.layout.sections }
{}

/// Once an image is loaded, each kept atom stands at its address: each field of its references holds its value, and every
/// other byte is the one of its object, or 0 where the atom's section has no bytes.
pub fn atoms_are_in_memory()
    ensures written { (m : ImageInputs) (image : List ℕ) (of : Imaged m image)
        → AreRising m → All (IsInMemory image m.files (mets_of m of.layout of.chains)) (rows_of m of.layout) }
    ensures others { (m : ImageInputs) (image : List ℕ) (of : Imaged m image)
        → AreRising m → All (KeepsOtherBytes image m.files (mets_of m of.layout of.chains)) (rows_of m of.layout) }
    ensures zeros { (m : ImageInputs) (image : List ℕ) (of : Imaged m image) (kept : KeptAtom) (address : ℕ)
        → AreRising m → IsZerofill m of.layout kept address → AreZeros image address kept.atom.size }
{}

/// Each kept atom of which the files have the section, or of a common symbol, stands in the image, with its bytes or as
/// zeros.
pub fn no_kept_atom_is_left_out()
    ensures { (m : ImageInputs) (layout : Layout) (kept : KeptAtom) (home : Home)
        → AreRising m → IsLaid m layout → Contains (kept_of m) kept → Some home ≡ home_of m.files kept.atom.key.file kept.atom.key.section
        → (address : ℕ) × (IsWritten m layout kept address ⊎ IsZerofill m layout kept address) }
{}

/// The places in each kept atom are goals of the image, counted from the atom's address, and the header is one.
pub fn kept_atoms_have_goals()
    ensures written { (m : ImageInputs) (image : List ℕ) (of : Imaged m image)
        → AreRising m → All (λ (row : PlacedWork). HasGoals image of.layout row.atom.key row.address) (rows_of m of.layout) }
    ensures zerofill { (m : ImageInputs) (layout : Layout) (image : List ℕ) (kept : KeptAtom) (address : ℕ)
        → IsZerofill m layout kept address → HasGoals image layout kept.atom.key address }
    ensures header { (m : ImageInputs) (image : List ℕ) (of : Imaged m image) → AreRising m → IsGoalAt image of.layout Header (base_of m.command) }
{}

/// The load command that tells where a program begins tells where its entry is reached: its address, or that of its stub.
pub fn programs_begin_at_their_entry()
    ensures { (m : ImageInputs) (image : List ℕ) (of : Imaged m image) (address : ℕ)
        → AreRising m → m.command.dylib ≡ false → entry_address (scene_of m of.layout) m.entry ≡ Some address → address < 2 ^ 64 → BeginsAt image address }
{}

/// The loader finds each pointer of the image, of atoms and of slots, and it leads to its goal; at all other addresses it finds
/// nothing.
pub fn the_loader_fills_in_pointers()
    ensures held { (m : ImageInputs) (image : List ℕ) (of : Imaged m image) (fixup : Fixup)
        → All IsWholeFile m.files → AreRising m → AreFillable (scene_of m of.layout) of.fixups → Contains of.fixups fixup
        → Held image (addresses_of of.layout.placed) (fixup_at image fixup.address) fixup.goal fixup.addend }
    ensures others { (m : ImageInputs) (image : List ℕ) (of : Imaged m image) (address : ℕ)
        → All IsWholeFile m.files → AreRising m → AreFillable (scene_of m of.layout) of.fixups
        → ((fixup : Fixup) → Contains of.fixups fixup → fixup.address ≢ address) → fixup_at image address ≡ Plain }
{}

/// A stub of the image leads the loader to its goal.
pub fn stubs_lead_to_their_goals()
    ensures { (m : ImageInputs) (image : List ℕ) (of : Imaged m image) (goal : Goal) (address : ℕ)
        → All IsWholeFile m.files → AreRising m → AreFillable (scene_of m of.layout) of.fixups → StubsHaveSlots m.slots
        → address_by (scene_of m of.layout) (Some Stub) goal ≡ Some address
        → IsStub image (addresses_of of.layout.placed) address goal }
{}

/// The field of each reference of a whole file that the image serves tells its goal: a branch reaches it, at once or by its
/// stub, an instruction tells its page or its offset in the page, or those of its slot, a difference is the distance between
/// two goals, and a pointer is filled in by the loader, or holds an offset in the template of thread-local variables.
pub fn references_tell_their_goals()
    ensures { (m : ImageInputs) (image : List ℕ) (of : Imaged m image) (offsets : AtomMap) (row : PlacedWork) (reference : Ref)
        → All IsWholeFile m.files → AreRising m → AreFillable (scene_of m of.layout) of.fixups → StubsHaveSlots m.slots
        → AreOffsets (scene_of m of.layout) offsets
        → Contains (rows_of m of.layout) row → (is : IsReferenceOf m row reference) → IsServed m of.layout row reference
        → TellsGoal m of.layout image offsets (section_of is) row reference }
{}

/// Once an image is loaded, its section `__unwind_info` tells of the functions of kept entries: at each place of one where it
/// begins, how it is unwound, its language-specific data, and the slot by which the loader leads to its personality. Of any
/// other place it tells nothing, and an image without entries has no such section.
pub fn unwind_info_tells_of_kept_entries()
    ensures told { (m : ImageInputs) (image : List ℕ) (of : Imaged m image) → AreUnwindable m → m.unwinds ≢ [] → TellsUnwinding m of.layout image }
    ensures each { (m : ImageInputs) (image : List ℕ) (of : Imaged m image) (entry : KeptUnwind)
        → AreUnwindable m → AreFillable (scene_of m of.layout) of.fixups → Contains m.unwinds entry → IsEntryServed m entry → TellsEntry m of.layout image entry }
    ensures others { (m : ImageInputs) (image : List ℕ) (of : Imaged m image) (offset : ℕ)
        → AreUnwindable m → m.unwinds ≢ [] → IsInNoFunction m of.layout image offset → IsQuiet (unwind m.info offset) }
    ensures none { (m : ImageInputs) (layout : Layout) → IsLaid m layout → m.unwinds ≡ [] → info_section layout.sections ≡ None }
{}
