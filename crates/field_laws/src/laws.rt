//! What fields tell. Each function is a law, which its contract states, and does nothing.
ghost use Rattle.std.specs.Prelude.{◌≡◌, ◌+◌, ◌<◌, ◌≤◌, ◌^◌, ℕ, pos, ℤ, All, List, length, None, Option, Some};
ghost use Rattle.mo_types.specs.declared.goal.Goal.{Goal};
ghost use Rattle.mo_types.specs.declared.reference.Ref.{Ref};
ghost use Rattle.mo_types.specs.declared.reference.RefKind.TheVariants.{GotPointer, Pointer};
ghost use Rattle.patch.specs.declared.met.Met.{Met};
ghost use Rattle.patch.specs.Patched.{AreFields, ArePatched};
ghost use Rattle.sect_place.specs.declared.layout.Layout.{Layout};
ghost use Rattle.fixup_chain.specs.Faults as offsets;
ghost use Rattle.fixup_chain.specs.declared.chains.Fixup.{Fixup};
ghost use Rattle.slot_place.specs.Stubs.{LoadsSlot};
ghost use Rattle.image_read.specs.Denotes.{Denotes, Places, offset_for};
ghost use Rattle.image_read.specs.Fixups.{fixup_at, long_at};
ghost use Rattle.image_read.specs.Held.{AtomMap, Held};
ghost use Rattle.image_read.specs.Meaning.{base_of};
ghost use Rattle.image_read.specs.Reaches.{ADD_X16, IsIsland, IsStub, Stops};
ghost use Rattle.image_read.specs.declared.fixups.FixupRead.TheVariants.{Rebase};
ghost use Rattle.chain_laws.specs.Carried.{IsFound};
ghost use Rattle.field_laws.specs.Fields.{GoesBy, MetOffset, MetOwn, MetSlot, MetStub, MetWay};
ghost use Rattle.field_laws.specs.Memory.{AreInMemory, Holds};
ghost use Rattle.field_laws.specs.Pointers.{IsInRange, IsPointerTo, IsPointerToSlot, IsSomewhere, MetWord, addresses_of};

/// The fields of patched bytes that stand in memory hold what was met.
pub fn fields_in_memory_hold_what_was_met()
    ensures { (image : List ℕ) (address : ℕ) (mets : List Met) (old new : List ℕ) → AreFields address (length old) mets
        → ArePatched address mets old new → AreInMemory image address new → All (λ met. Holds image (address + met.place) met) mets }
{}

/// A branch reaches its goal, an instruction tells the goal's page or its offset in the page, and a difference is the distance
/// of two goals, where the field holds their own addresses.
pub fn own_addresses_are_told()
    ensures { (image : List ℕ) (places : Places) (p section : ℕ) (reference : Ref) (goal : Goal) (minus : Option Goal) (met : Met)
        → Holds image p met → MetOwn image places.addresses reference goal minus met → Denotes image places p section reference goal minus }
{}

/// An instruction or a distance tells a slot of the goal, where the field holds the slot's address.
pub fn slots_are_told()
    ensures { (image : List ℕ) (places : Places) (p section : ℕ) (reference : Ref) (goal : Goal) (minus : Option Goal) (met : Met)
        → Holds image p met → MetSlot image places.addresses reference goal met → Denotes image places p section reference goal minus }
{}

/// The bytes of a stub that loads a slot of the goal are a stub of the goal.
pub fn stubs_reach_their_goals()
    ensures { (image : List ℕ) (addresses : AtomMap) (x slot : ℕ) (goal : Goal) (bytes : List ℕ)
        → LoadsSlot x slot bytes → AreInMemory image x bytes → x + 12 ≤ 2 ^ 64 → slot < 2 ^ 64
        → Held image addresses (fixup_at image slot) goal (pos 0) → IsStub image addresses x goal }
{}

/// The bytes of an island that branches to an address are an island of a goal at which a branch to there may end.
pub fn islands_reach_their_goals()
    ensures { (image : List ℕ) (addresses : AtomMap) (x end : ℕ) (goal : Goal) (addend : ℤ) (bytes : List ℕ)
        → GoesBy ADD_X16 x end bytes → AreInMemory image x bytes → x + 12 ≤ 2 ^ 64 → end < 2 ^ 64
        → Stops image addresses end goal addend → IsIsland image addresses x goal addend }
{}

/// A branch tells its goal by a stub of the goal, and by any address from which the goal is reached.
pub fn branches_are_told()
    ensures stubs { (image : List ℕ) (places : Places) (p section : ℕ) (reference : Ref) (goal : Goal) (minus : Option Goal) (met : Met)
        → Holds image p met → MetStub image places.addresses reference goal met → Denotes image places p section reference goal minus }
    ensures ways { (image : List ℕ) (places : Places) (p section : ℕ) (reference : Ref) (goal : Goal) (minus : Option Goal) (met : Met)
        → Holds image p met → MetWay image places.addresses reference goal met → Denotes image places p section reference goal minus }
{}

/// A pointer tells the goal to which its fixup leads, and one to a slot tells the slot of its goal.
pub fn pointers_are_told()
    ensures pointers { (image : List ℕ) (places : Places) (p section : ℕ) (reference : Ref) (goal : Goal) (minus : Option Goal)
        → reference.kind ≡ Pointer → offset_for section places.offsets goal ≡ None → IsPointerTo image places.addresses p goal reference.addend
        → Denotes image places p section reference goal minus }
    ensures slots { (image : List ℕ) (places : Places) (p section : ℕ) (reference : Ref) (goal : Goal) (minus : Option Goal)
        → reference.kind ≡ GotPointer → IsPointerToSlot image places.addresses p goal → Denotes image places p section reference goal minus }
{}

/// The offset of a rebase has 36 bits, so that rebases lead to addresses of 64 bits where the image begins 2^36 bytes or more
/// below their end.
pub fn rebases_have_36_bits()
    ensures offsets { (image : List ℕ) (p offset : ℕ) → fixup_at image p ≡ Rebase offset → offset < 2 ^ 36 }
    ensures range { (image : List ℕ) (p base : ℕ) → base_of image ≡ Some base → base + 2 ^ 36 ≤ 2 ^ 64 → IsInRange image (fixup_at image p) }
{}

/// A pointer whose field holds the word of its chain has this word in memory.
pub fn pointers_have_their_words()
    ensures { (image : List ℕ) (p : ℕ) (met : Met) → Holds image p met → MetWord met → long_at image p ≡ Some met.value }
{}

/// A pointer in a descriptor of a thread-local variable tells the offset in the template, which the loader leaves as it is.
pub fn template_offsets_are_told()
    ensures { (image : List ℕ) (places : Places) (p section : ℕ) (reference : Ref) (goal : Goal) (minus : Option Goal) (met : Met)
        → Holds image p met → MetOffset image places p section reference goal met → Denotes image places p section reference goal minus }
{}

/// The fixup that the loader finds at a pointer leads to the pointer's goal.
pub fn found_pointers_are_held()
    ensures { (image : List ℕ) (layout : Layout) (fixup : Fixup) → base_of image ≡ Some (offsets.base_of layout.segments)
        → IsSomewhere layout.placed fixup.goal → IsFound image layout fixup
        → Held image (addresses_of layout.placed) (fixup_at image fixup.address) fixup.goal fixup.addend }
{}
