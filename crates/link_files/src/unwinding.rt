//! The unwind entries of the atoms that are kept: those that leave unwinding to `__eh_frame`, and their personalities.
ghost use Rattle.std.specs.Prelude.{◌≡◌, IfOk};
ghost use Rattle.link_steps.specs.Steps.{FindsBy};
ghost use Rattle.slot_plan.specs.Slots.{AreSlots};
ghost use Rattle.unwind_link.specs.Personalities.{personality_goals};
ghost use Rattle.link_files.specs.Resolved.{table_of};
ghost use Rattle.link_files.specs.Unwinding.{ArePersonalitiesTold, IsEhFrameTold};

use crate::labels::label_of;
use crate::resolved::Resolved;
use link_steps::StepFault;
use mo_types::{Feature, LoadedFile, Refusal, Which};
use slot_plan::SlotList;
use std::alloc::Global;
use unwind_link::{KeptUnwinds, first_dwarf, many_personalities, personalities};

/// The refusal of the first entry that leaves unwinding to `__eh_frame`, where there is one.
pub(crate) fn none_by_dwarf(
    files: &[LoadedFile],
    unwinds: &KeptUnwinds,
) -> Result<(), StepFault<Refusal>>
    ensures { FindsBy (IsEhFrameTold files.now unwinds.now) result }
{
    match first_dwarf(unwinds) {
        Some(first) => Err(StepFault::Stop(Refusal::Unsupported {
            file: label_of(files, first.unwind.atom.file)?,
            feature: Feature::EhFrame,
        })),
        None => Ok(()),
    }
}

/// The personalities of entries, each once, or that an encoding has numbers for fewer, where there are more.
#[tactic(auto, using(crate::proofs::UnwindingLemmas::personalities))]
pub(crate) fn few_personalities(
    alloc: Global,
    resolved: &Resolved,
    unwinds: &KeptUnwinds,
) -> Result<SlotList, StepFault<Refusal>>
    ensures told { FindsBy (ArePersonalitiesTold (personality_goals resolved.now.symbols.now.literals (table_of resolved.now) unwinds.now)) result }
    ensures listed { IfOk result (AreSlots (personality_goals resolved.now.symbols.now.literals (table_of resolved.now) unwinds.now)) }
{
    let listed = personalities(alloc, resolved.symbols, resolved.goals, unwinds)?;
    if many_personalities(&listed) {
        return Err(StepFault::Stop(Refusal::Limit {
            which: Which::Personalities,
        }));
    }
    Ok(listed)
}
