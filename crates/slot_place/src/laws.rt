//! What the definitions mean, on calls that do nothing.
ghost use Rattle.std.specs.Prelude.{ℕ, ◌<◌, ◌^◌, List};
ghost use Rattle.arm64_insn.specs.Low12.{IsWholeSteps};
ghost use Rattle.arm64_insn.specs.Page.{IsPageDelta};
ghost use Rattle.image_read.specs.Reaches.{LDR_X16};
ghost use Rattle.mo_types.specs.declared.atom.Atom.{Atom};
ghost use Rattle.mo_types.specs.declared.out_section.OutSection.{OutSection};
ghost use Rattle.command_line.specs.declared.command.Command.{Command};
ghost use Rattle.slot_plan.specs.declared.list.Slots.{Slots};
ghost use Rattle.slot_plan.specs.declared.need.Way.{Way};
ghost use Rattle.sect_place.specs.Layout.{IsLayoutOf, base_of, image_size, plan_of};
ghost use Rattle.sect_place.specs.declared.island.IslandPlan.{IslandPlan};
ghost use Rattle.sect_place.specs.declared.layout.Layout.{Layout};
ghost use Rattle.sect_place.specs.declared.size.PlaceSizes.{PlaceSizes};
ghost use Rattle.slot_place.specs.Places.{HasOwnSection, HaveAtoms, HaveRoom, starts_of};
ghost use Rattle.slot_place.specs.Stubs.{AreReached, LoadsSlot, pages_between, stub_bytes};

/// An image has its own section of the slots or stubs that are needed in a way exactly where there are such, and as many
/// bytes of it as they have.
pub fn slots_have_sections()
    ensures { (kept : List Atom) (sections : List OutSection) (slots : Slots) (islands : IslandPlan) (sizes : PlaceSizes) (command : Command)
        (layout : Layout) → HaveAtoms sections → IsLayoutOf command (plan_of kept sections slots islands sizes command) layout
        → (way : Way) → HasOwnSection layout.sections slots way }
{}

/// Slots and stubs of an image of fewer than 2^32 bytes are within reach of each other, and end at addresses.
pub fn stubs_reach_slots()
    ensures { (kept : List Atom) (sections : List OutSection) (slots : Slots) (islands : IslandPlan) (sizes : PlaceSizes) (command : Command)
        (layout : Layout) → HaveAtoms sections → IsLayoutOf command (plan_of kept sections slots islands sizes command) layout
        → image_size (plan_of kept sections slots islands sizes command) < 2 ^ 32
        → HaveRoom (starts_of layout.sections) slots × AreReached (base_of command) (starts_of layout.sections) slots }
{}

/// A stub loads its slot and branches there, where the slot is at whole steps of 8 bytes and near enough.
pub fn stubs_load_their_slots()
    ensures { (at slot : ℕ) → IsPageDelta (pages_between at slot) → IsWholeSteps LDR_X16 slot → LoadsSlot at slot (stub_bytes at slot) }
{}
