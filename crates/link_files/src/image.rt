//! The image of the atoms that are kept.
ghost use Rattle.std.specs.Prelude.{◌≡◌, All, IfOk};
ghost use Rattle.std.specs.List.Sorted.{IsStrictlySortedBy};
ghost use Rattle.link_steps.specs.Steps.{Meets};
ghost use Rattle.mo_types.specs.Keys.{compare_keys};
ghost use Rattle.mo_types.specs.Loaded.{IsWholeLoaded};
ghost use Rattle.fixup_chain.specs.Chained.{AreMany};
ghost use Rattle.input_files.specs.Files.{HasUnwinds, IsLow};
ghost use Rattle.ref_meet.specs.Binds.{binds};
ghost use Rattle.link_files.specs.Linked.{AsImage, making, no_islands};
ghost use Rattle.link_files.specs.Refusals.{IsToldAs};
ghost use Rattle.link_files.specs.Resolved.{IsResolved, files_of, table_of};
ghost use Rattle.link_files.specs.Unwinding.{AreFewPersonalities};
ghost use Rattle.unwind_link.specs.Kept.{kept_unwinds};
ghost use Rattle.unwind_link.specs.Personalities.{personality_goals};

use crate::flags::header_flags;
use crate::labels::label_of;
use crate::resolved::{Kept, Resolved};
use command_line::Command;
use image_make::{ImageInputs, MakeFault, make_image};
use link_steps::StepFault;
use mo_outside::Gate;
use mo_types::{Bytes, Loaded, OutOfMemory, RangeKind, Refusal};
use sect_place::{AreaList, IslandPlan, PlaceFault, WayList};
use std::alloc::Global;
use std::thread::Threads;

// No islands: they come with a later version.
fn no_islands(alloc: Global) -> IslandPlan
    ensures { result ≡ no_islands }
{
    IslandPlan {
        areas: AreaList::new(alloc),
        ways: WayList::new(alloc),
    }
}

// The refusal of what isn't made.
fn refusal_of(command: &Command, loaded: &Loaded, fault: MakeFault) -> Result<Refusal, OutOfMemory>
    ensures { IfOk result (IsToldAs command.now loaded.now.files fault) }
{
    match fault {
        MakeFault::Place(PlaceFault::ImageSize { value }) => Ok(Refusal::Range {
            file: command.output.clone()?,
            place: 0,
            kind: RangeKind::ImageSize,
            value,
        }),
        MakeFault::Range {
            atom: Some(key),
            fault,
        } => Ok(Refusal::Range {
            file: label_of(loaded.files.as_slice(), key.file)?,
            place: fault.file_place,
            kind: fault.kind,
            value: fault.value,
        }),
        MakeFault::Range { atom: None, fault } => Ok(Refusal::Range {
            file: command.output.clone()?,
            place: 0,
            kind: fault.kind,
            value: fault.value,
        }),
        MakeFault::Place(PlaceFault::OutOfMemory) | MakeFault::OutOfMemory => Err(OutOfMemory),
    }
}

/// The image of the atoms that are kept, or the refusal of what can't be placed or written.
pub(crate) fn image_of<R: Threads + Sync, G: Gate + Sync>(
    rt: &R,
    alloc: Global,
    gate: &G,
    threads: u32,
    resolved: &Resolved,
    kept: &Kept,
) -> Result<Bytes, StepFault<Refusal>>
    requires whole { IsWholeLoaded resolved.now.loaded.now }
    requires low { All IsLow (files_of resolved.now) }
    requires read { All HasUnwinds (files_of resolved.now) }
    requires resolved { IsResolved resolved.now }
    requires keys { IsStrictlySortedBy compare_keys kept.now.keys.now }
    requires unwinds { kept.now.unwinds.now ≡ kept_unwinds kept.now.keys.now (files_of resolved.now) }
    requires handlers { AreFewPersonalities (personality_goals resolved.now.symbols.now.literals (table_of resolved.now) kept.now.unwinds.now) }
    requires few { ¬ AreMany (binds (files_of resolved.now) resolved.now.symbols.now.literals kept.now.keys.now (table_of resolved.now) kept.now.slots.now) }
    ensures { Meets (AsImage (making resolved.now.command.now resolved.now.libs.now (files_of resolved.now) resolved.now.symbols.now kept.now.keys.now kept.now.slots.now)) result }
{
    let Resolved {
        command,
        libs,
        loaded,
        symbols,
        goals,
        entry,
    } = *resolved;
    let Kept {
        keys,
        unwinds,
        slots,
    } = *kept;
    let islands = no_islands(alloc);
    let scheme = ImageInputs {
        command,
        libs,
        loaded,
        symbols,
        goals,
        keys,
        flags: header_flags(resolved, keys.as_slice()),
        entry,
        slots,
        islands: &islands,
        unwinds,
    };
    match make_image(rt, alloc, gate, threads, &scheme) {
        Ok(image) => Ok(image),
        Err(fault) => Err(StepFault::Stop(refusal_of(command, loaded, fault)?)),
    }
}
