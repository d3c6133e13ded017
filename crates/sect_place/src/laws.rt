//! What the definitions mean, each on a call that does nothing.
ghost use Rattle.std.specs.Prelude.{◌≡◌, ℕ, ◌+◌, ◌*◌, ◌^◌, ◌≤◌, ◌≢◌, List, All, Contains, Option, Some, map};
ghost use Rattle.std.specs.List.{AllPairs};
ghost use Rattle.std.specs.List.Sorted.{IsStrictlySortedBy};
ghost use Rattle.std.specs.Ordering.{on};
ghost use Rattle.mo_bytes.specs.Rounding.{IsLeastMultiple};
ghost use Rattle.mo_types.specs.declared.atom.Atom.{Atom};
ghost use Rattle.mo_types.specs.Keys.{compare_keys};
ghost use Rattle.mo_types.specs.declared.key.AtomKey.{AtomKey};
ghost use Rattle.command_line.specs.declared.command.Command.{Command};
ghost use Rattle.mo_types.specs.declared.loaded.LoadedFile.{LoadedFile};
ghost use Rattle.mo_types.specs.declared.out_section.OutSection.{OutSection};
ghost use Rattle.slot_plan.specs.declared.list.Slots.{Slots};
ghost use Rattle.tlv_plan.specs.Template.{keys_of, stand};
ghost use Rattle.sect_place.specs.Layout.{IsLayoutOf, Plan, image_stand, image_places, image_sections, plan_of};
ghost use Rattle.sect_list.specs.OutSections.{out_sections};
ghost use Rattle.sect_place.specs.Places.{AreLeast, places, part_from, page_up};
ghost use Rattle.sect_place.specs.Moved.{AreAmong, AreBehindCode, AreInOrder, IsMoved, areas_bytes, no_islands, pages_moved, text_end};
ghost use Rattle.sect_place.specs.declared.island.IslandArea.{IslandArea};
ghost use Rattle.sect_place.specs.declared.island.IslandPlan.{IslandPlan};
ghost use Rattle.sect_place.specs.declared.layout.Layout.{Layout};
ghost use Rattle.sect_place.specs.declared.layout.Placed.{Placed};
ghost use Rattle.sect_place.specs.declared.layout.PlacedSection.{PlacedSection};
ghost use Rattle.sect_place.specs.declared.size.PlaceSizes.{PlaceSizes};
ghost use Rattle.sect_place.specs.declared.part.Part.{Part};

/// Each atom of an image ends, with the islands behind it, where the next one begins or before, and its place is a
/// multiple of its alignment.
#[tactic(auto, using(crate::proofs::Meaning::atom_laws))]
pub fn atoms_stand_apart()
    ensures places { (plan : Plan) → image_places plan ≡ places (image_stand plan) }
    ensures apart { (plan : Plan) → AllPairs (λ (p : Atom × ℕ) (q : Atom × ℕ). p.1 + p.0.size ≤ q.1) (image_stand plan) }
    ensures aligned { (plan : Plan) → All (λ (p : Atom × ℕ). (count : ℕ) × (p.1 ≡ count * 2 ^ p.0.align)) (image_stand plan) }
{}

/// Each section of an image ends where the next one begins or before, and its address is a multiple of its alignment.
#[tactic(auto, using(crate::proofs::Meaning::section_laws))]
pub fn sections_stand_apart()
    ensures apart { (plan : Plan) → AllPairs (λ (p : PlacedSection) (q : PlacedSection). p.address + p.size ≤ q.address) (image_sections plan) }
    ensures aligned { (plan : Plan) → All (λ (p : PlacedSection). (count : ℕ) × (p.address ≡ count * 2 ^ p.section.align)) (image_sections plan) }
{}

/// Atoms, sections and segments stand at the least multiples of their alignments that aren't below the end of what
/// comes before, and no other places of atoms do.
#[tactic(auto, using(crate::proofs::Meaning::least_laws))]
pub fn places_are_least()
    ensures atoms { (at : ℕ) (atoms : List Atom) → AreLeast at atoms (map (λ (p : Atom × ℕ). p.1) (stand at atoms)) }
    ensures only { (at : ℕ) (atoms : List Atom) (places : List ℕ) → AreLeast at atoms places → places ≡ map (λ (p : Atom × ℕ). p.1) (stand at atoms) }
    ensures sections { (at : ℕ) (part : Part) → IsLeastMultiple (2 ^ part.section.align) at (part_from at part) }
    ensures segments { (at : ℕ) → IsLeastMultiple (2 ^ 14) at (page_up at) }
{}

/// Each kept atom that a section lists has a place in the image.
pub fn each_listed_atom_is_placed()
    ensures { (kept : List Atom) (sections : List OutSection) (slots : Slots) (islands : IslandPlan) (sizes : PlaceSizes) (command : Command)
        (atom : Atom) → Contains kept atom → Contains (keys_of sections) atom.key
        → (address : ℕ) × Contains (image_places (plan_of kept sections slots islands sizes command)) (record { atom = atom.key; address = address }) }
{}

/// No atom has two places in the image, where no atom is listed twice.
pub fn no_atom_is_placed_twice()
    ensures { (kept : List Atom) (sections : List OutSection) (slots : Slots) (islands : IslandPlan) (sizes : PlaceSizes) (command : Command)
        → AllPairs (λ (a : AtomKey) (b : AtomKey). a ≢ b) (keys_of sections)
        → AllPairs (λ (p : Placed) (q : Placed). p.atom ≢ q.atom) (image_places (plan_of kept sections slots islands sizes command)) }
{}

/// What is planned has one layout where no atom is listed twice: its atoms rise, so none stands there twice, and any two
/// layouts of it are the same.
pub fn a_layout_is_one()
    ensures rising { (kept : List Atom) (sections : List OutSection) (slots : Slots) (islands : IslandPlan) (sizes : PlaceSizes) (command : Command)
        (layout : Layout) → AllPairs (λ (a : AtomKey) (b : AtomKey). a ≢ b) (keys_of sections)
        → IsLayoutOf command (plan_of kept sections slots islands sizes command) layout
        → IsStrictlySortedBy (on (λ (p : Placed). p.atom) compare_keys) layout.placed }
    ensures one { (kept : List Atom) (sections : List OutSection) (slots : Slots) (islands : IslandPlan) (sizes : PlaceSizes) (command : Command)
        (a b : Layout) → AllPairs (λ (x : AtomKey) (y : AtomKey). x ≢ y) (keys_of sections)
        → IsLayoutOf command (plan_of kept sections slots islands sizes command) a
        → IsLayoutOf command (plan_of kept sections slots islands sizes command) b → a ≡ b }
{}

/// The sections of an image are in order where the kept atoms rise: no atom is listed twice, each section lists its atoms
/// in order, and none with a greater alignment than its own.
pub fn sections_are_in_order()
    ensures { (files : List LoadedFile) (kept : List Atom) → IsStrictlySortedBy (on (λ (atom : Atom). atom.key) compare_keys) kept
        → All (λ (atom : Atom). atom.align ≤ 14) kept → AreInOrder kept (out_sections files kept) }
{}

/// Where an image has islands, an atom of `__text` stands behind its place without them by the bytes of the areas before
/// it, another atom of `__TEXT` by those of all areas, and an atom behind `__TEXT` by whole pages. Areas are multiples of
/// the greatest alignment in `__TEXT`.
#[tactic(auto, using(crate::proofs::Moving::moved_laws))]
pub fn islands_move_what_follows()
    ensures moved { (kept : List Atom) (sections : List OutSection) (slots : Slots) (islands : IslandPlan) (sizes : PlaceSizes) (command : Command)
        → AreInOrder kept sections → AreBehindCode kept sections islands.areas
        → IsStrictlySortedBy (on (λ (area : IslandArea). area.last) compare_keys) islands.areas → (key : AtomKey) (after : ℕ)
        → Contains (image_places (plan_of kept sections slots islands sizes command)) (record { atom = key; address = after })
        → (before : ℕ) × Contains (image_places (plan_of kept sections slots no_islands sizes command)) (record { atom = key; address = before })
        × IsMoved sections islands.areas (text_end kept sections slots sizes command) key before after }
    ensures areas { (unit : ℕ) (limit : Option AtomKey) (areas : List IslandArea) → (count : ℕ) × (areas_bytes unit limit areas ≡ count * 2 ^ unit) }
    ensures pages { (end bytes : ℕ) → (count : ℕ) × (pages_moved end bytes ≡ count * 2 ^ 14) }
{}

/// A larger set of islands moves nothing down: where each area is one of more, with no fewer islands there, no atom stands
/// below its place with the fewer.
pub fn more_islands_move_nothing_down()
    ensures { (kept : List Atom) (sections : List OutSection) (slots : Slots) (few more : IslandPlan) (sizes : PlaceSizes) (command : Command)
        → AreInOrder kept sections → AreBehindCode kept sections few.areas → AreBehindCode kept sections more.areas
        → IsStrictlySortedBy (on (λ (area : IslandArea). area.last) compare_keys) few.areas
        → IsStrictlySortedBy (on (λ (area : IslandArea). area.last) compare_keys) more.areas
        → AreAmong few.areas more.areas → (key : AtomKey) (low high : ℕ)
        → Contains (image_places (plan_of kept sections slots few sizes command)) (record { atom = key; address = low })
        → Contains (image_places (plan_of kept sections slots more sizes command)) (record { atom = key; address = high })
        → low ≤ high }
{}
