//! What an image is bound to: its slots and stubs, the limit of its imports, and references that nothing serves.
ghost use Rattle.std.specs.Prelude.{◌≡◌, ◌++◌, List, IfOk, map};
ghost use Rattle.std.specs.List.Sorted.{IsStrictlySortedBy};
ghost use Rattle.std.specs.Ordering.{on};
ghost use Rattle.link_steps.specs.Steps.{FindsBy};
ghost use Rattle.mo_types.specs.Keys.{compare_files, compare_keys};
ghost use Rattle.mo_types.specs.declared.goal.Goal.{Goal};
ghost use Rattle.mo_types.specs.declared.loaded.LoadedFile.{LoadedFile as Loads};
ghost use Rattle.ref_meet.specs.Binds.{binds};
ghost use Rattle.resolve.specs.Table.{goals_of};
ghost use Rattle.slot_needs.specs.Needs.{needs_of};
ghost use Rattle.slot_needs.specs.Unmet.{unmet_of};
ghost use Rattle.slot_plan.specs.Slots.{AreSlots};
ghost use Rattle.unwind_link.specs.Personalities.{slot_need};
ghost use Rattle.link_files.specs.Bound.{AreSlotsFor, IsImportsTold, IsUnmetTold};

use crate::labels::label_of;
use link_steps::StepFault;
use mo_types::{OutOfMemory, Refusal, Which};
use ref_meet::has_many_binds;
use slot_needs::{Referring, first_unmet, needs};
use slot_plan::{NeedList, SlotList, Slots, slots};
use std::alloc::Global;
use unwind_link::personality_needs;

// Needs, and more needs.
fn joined(before: NeedList, more: NeedList) -> Result<NeedList, OutOfMemory>
    ensures { IfOk result (λ all. all ≡ before ++ more) }
{
    let mut all = before.into_vec();
    let mut more = more.into_vec();
    all.append(&mut more)?;
    Ok(NeedList::from_vec(all))
}

/// The slots and stubs that the references of kept atoms need, an executable's entry, and the goals of personalities, which
/// are listed once each.
pub(crate) fn needed_slots(
    alloc: Global,
    referring: &Referring,
    listed: &SlotList,
) -> Result<Slots, OutOfMemory>
    requires { IsStrictlySortedBy compare_keys referring.now.keys.now }
    ensures { IfOk result (λ slots. (goals : List Goal) → AreSlots goals listed.now
        → AreSlotsFor (needs_of referring.now ++ map slot_need goals) slots) }
{
    let others = needs(alloc, referring)?;
    let handlers = personality_needs(alloc, listed)?;
    let all = joined(others, handlers)?;
    slots(alloc, &all)
}

/// That an image is bound to too many imports, where it is.
pub(crate) fn few_imports(
    alloc: Global,
    referring: &Referring,
    slots: &Slots,
) -> Result<(), StepFault<Refusal>>
    requires files { IsStrictlySortedBy (on (λ (file : Loads). file.id) compare_files) referring.now.loaded.now.files }
    requires keys { IsStrictlySortedBy compare_keys referring.now.keys.now }
    ensures { FindsBy (IsImportsTold (binds referring.now.loaded.now.files referring.now.symbols.now.literals referring.now.keys.now
        (goals_of referring.now.goals.now) slots.now)) result }
{
    if has_many_binds(alloc, referring, slots)? {
        return Err(StepFault::Stop(Refusal::Limit {
            which: Which::Imports,
        }));
    }
    Ok(())
}

/// The refusal of the first reference that tells an address or a distance which another image has, where there is one.
pub(crate) fn all_met(referring: &Referring) -> Result<(), StepFault<Refusal>>
    requires { IsStrictlySortedBy compare_keys referring.now.keys.now }
    ensures { FindsBy (IsUnmetTold referring.now.loaded.now.files (unmet_of referring.now)) result }
{
    match first_unmet(referring) {
        Some(unmet) => Err(StepFault::Stop(Refusal::NeedsImage {
            file: label_of(referring.loaded.files.as_slice(), unmet.reference.atom.file)?,
            place: unmet.reference.file_place,
        })),
        None => Ok(()),
    }
}
