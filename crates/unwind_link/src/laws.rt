//! That slots of listed personalities serve all entries, that `__unwind_info` moves nothing before it, makes no image smaller
//! by more bytes, and has one size wherever it is placed, on calls that do nothing.
ghost use Rattle.std.specs.Prelude.{◌≡◌, ◌≢◌, ◌<◌, ◌≤◌, ◌++◌, ℕ, List, length, map};
ghost use Rattle.std.specs.List.{AllPairs};
ghost use Rattle.command_line.specs.declared.command.Command.{Command};
ghost use Rattle.mo_types.specs.declared.atom.Atom.{Atom};
ghost use Rattle.mo_types.specs.declared.goal.Goal.{Goal};
ghost use Rattle.mo_types.specs.declared.key.AtomKey.{AtomKey};
ghost use Rattle.mo_types.specs.declared.out_section.OutSection.{OutSection};
ghost use Rattle.ref_meet.specs.Scene.{Scene};
ghost use Rattle.sect_place.specs.Layout.{image_size, plan_of};
ghost use Rattle.sect_place.specs.declared.island.IslandPlan.{IslandPlan};
ghost use Rattle.sect_place.specs.declared.layout.Layout.{Layout};
ghost use Rattle.slot_plan.specs.Slots.{AreSlots, in_got, needed};
ghost use Rattle.slot_plan.specs.declared.list.Slots.{Slots};
ghost use Rattle.slot_plan.specs.declared.need.Need.{Need};
ghost use Rattle.tlv_plan.specs.Template.{keys_of};
ghost use Rattle.unwind_link.specs.Personalities.{slot_need};
ghost use Rattle.unwind_link.specs.Rows.{AreRows};
ghost use Rattle.unwind_link.specs.Twice.{AreAlikeBefore, AreOfText, ArePlacedTwice, placed_as, with_unwind};
ghost use Rattle.unwind_link.specs.declared.kept.KeptUnwind.{KeptUnwind};
ghost use Rattle.unwind_out.specs.Pages.{IsSection};
ghost use Rattle.unwind_out.specs.Table.{AreApart};
ghost use Rattle.unwind_out.specs.declared.row.UnwindRow.{UnwindRow};

/// Slots of the global offset table that serve other needs and the listed personalities serve these needs and those of all
/// entries, and have no other goal.
#[tactic(auto, using(crate::proofs::NeedLemmas::serves_all))]
pub fn slots_serve_all_personalities()
    ensures { (others : List Need) (goals listed slots : List Goal) → AreSlots goals listed
        → AreSlots (needed in_got (others ++ map slot_need listed)) slots → AreSlots (needed in_got (others ++ map slot_need goals)) slots }
{}

/// Where no atom is listed twice, all that stands before `__unwind_info` stands at one place, however many bytes that has.
#[tactic(auto, using(crate::proofs::TwiceLemmas::alike))]
pub fn unwind_info_moves_nothing_before()
    ensures { (kept : List Atom) (sections : List OutSection) (slots : Slots) (islands : IslandPlan) (command : Command) (commands few many : ℕ)
        → AllPairs (λ (a : AtomKey) (b : AtomKey). a ≢ b) (keys_of sections) → 0 < few → 0 < many
        → AreAlikeBefore sections (plan_of kept sections slots islands (with_unwind commands few) command)
        (plan_of kept sections slots islands (with_unwind commands many) command) few many }
{}

/// With more bytes of `__unwind_info`, where it has some, no image is smaller.
pub fn more_unwind_info_makes_no_image_smaller()
    ensures { (kept : List Atom) (sections : List OutSection) (slots : Slots) (islands : IslandPlan) (command : Command) (commands few many : ℕ)
        → 0 < few → few ≤ many → image_size (plan_of kept sections slots islands (with_unwind commands few) command)
        ≤ image_size (plan_of kept sections slots islands (with_unwind commands many) command) }
{}

/// However many bytes `__unwind_info` is placed with, the rows of entries of atoms of `__TEXT` have sections of one size. So
/// placed with that of an earlier placing's rows, it has room for its own.
pub fn unwind_info_has_one_size()
    ensures { (kept : List Atom) (sections : List OutSection) (islands : IslandPlan) (command : Command) (commands few many : ℕ) (scene : Scene) (other : Layout)
        (entries : List KeptUnwind) (rows others : List UnwindRow) (a b : List ℕ)
        → ArePlacedTwice kept sections islands command commands few many scene other → AreOfText sections entries
        → AreRows scene entries rows → AreRows (placed_as other scene) entries others → AreApart rows → AreApart others
        → IsSection rows a → IsSection others b → length a ≡ length b }
{}
