//! The rows of `__unwind_info`.
ghost use Rattle.std.specs.Prelude.{◌≡◌, ◌<◌, ◌≤◌, ◌^◌, All, IfOk, IfSome, IsPermutation, map};
ghost use Rattle.std.specs.List.Sorted.{IsNonDecreasingBy};
ghost use Rattle.ref_meet.specs.Ready.{scene_of};
ghost use Rattle.sect_place.specs.Addresses.{AreOnce, address_in};
ghost use Rattle.slot_place.specs.Places.{HaveRoom, starts_of};
ghost use Rattle.unwind_link.specs.Rows as spec;
ghost use Rattle.unwind_link.specs.Rows.{AreRows, AreSpread};
ghost use Rattle.unwind_link.specs.inner.Last.{IsKnown};
ghost use Rattle.unwind_out.specs.Law.{AreFields};
ghost use Rattle.unwind_out.specs.Table.{AreApart};
ghost use Rattle.unwind_out.specs.declared.row.UnwindRow.{UnwindRow as Row};

use crate::goals::goal_at;
use crate::kept::{KeptUnwind, KeptUnwinds};
use mo_types::{AtomKey, OutOfMemory, Target};
use ref_meet::Scene;
use sect_place::{Layout, address};
use slot_place::{SlotStarts, slot_address, slot_starts};
use slot_plan::Way;
use std::alloc::Global;
use unwind_out::{UnwindRow, UnwindRows};

// The address of an atom.
fn address_of(layout: &Layout, atom: AtomKey) -> Option<u64>
    requires { AreOnce layout.now.placed }
    ensures { result ≡ address_in layout.now.placed atom }
{
    address(layout, atom)
}

// How far a place in an atom is from the image's first address.
#[tactic(auto, unfolding(crate::specs::Rows::place_offset))]
fn place_offset(scene: &Scene, atom: AtomKey, offset: u64) -> u32
    requires once { AreOnce scene.now.layout.now.placed }
    requires base { scene.now.base ≤ 2 ^ 32 }
    requires low { spec.place_offset (scene_of scene.now) atom offset < 2 ^ 32 }
    ensures { result ≡ spec.place_offset (scene_of scene.now) atom offset }
{
    match address_of(scene.layout, atom) {
        Some(at) => (at + offset).saturating_sub(scene.base) as u32,
        None => 0,
    }
}

// How far the slot of the goal of a target is from there.
#[tactic(auto, unfolding(crate::specs::Rows::slot_offset))]
fn slot_offset(
    scene: &Scene,
    starts: SlotStarts,
    file: usize,
    target: &Target,
) -> Result<u32, OutOfMemory>
    requires starts { starts ≡ starts_of scene.now.layout.now.sections }
    requires room { HaveRoom starts scene.now.slots.now }
    requires low { spec.slot_offset (scene_of scene.now) file target.now < 2 ^ 32 }
    ensures { IfOk result (λ slot. slot ≡ spec.slot_offset (scene_of scene.now) file target.now) }
{
    let goal = goal_at(scene.symbols, scene.goals, file, target)?;
    match slot_address(starts, scene.slots, Way::Got, &goal) {
        Some(at) => Ok(at.saturating_sub(scene.base) as u32),
        None => Ok(0),
    }
}

// The last target of a file whose slot was asked for, with its slot: entries of one personality mostly stand together.
#[derive(Clone, Copy, Debug)]
struct LastSlot {
    file: usize,
    target: Target,
    slot: u32,
}

// The slot of a target of the file at a place, where that of another one is known.
fn ask(
    scene: &Scene,
    starts: SlotStarts,
    last: Option<LastSlot>,
    file: usize,
    target: &Target,
) -> Result<LastSlot, OutOfMemory>
    requires starts { starts ≡ starts_of scene.now.layout.now.sections }
    requires room { HaveRoom starts scene.now.slots.now }
    requires low { spec.slot_offset (scene_of scene.now) file target.now < 2 ^ 32 }
    requires known { IfSome last (IsKnown (scene_of scene.now)) }
    ensures slot { IfOk result (λ now. now.slot ≡ spec.slot_offset (scene_of scene.now) file target.now) }
    ensures known { IfOk result (IsKnown (scene_of scene.now)) }
{
    match last {
        Some(last) if last.file == file && last.target == *target => Ok(last),
        _ => Ok(LastSlot {
            file,
            target: *target,
            slot: slot_offset(scene, starts, file, target)?,
        }),
    }
}

// The slot of an entry's personality, 0 where it has none, and the last one that was asked for.
#[derive(Drop)]
struct Slot {
    offset: u32,
    last: Option<LastSlot>,
}

#[tactic(auto, using(crate::proofs::RowLemmas::slots))]
fn personality_of(
    scene: &Scene,
    starts: SlotStarts,
    last: Option<LastSlot>,
    kept: &KeptUnwind,
) -> Result<Slot, OutOfMemory>
    requires starts { starts ≡ starts_of scene.now.layout.now.sections }
    requires room { HaveRoom starts scene.now.slots.now }
    requires fields { AreFields (spec.row_of (scene_of scene.now) kept.now) }
    requires known { IfSome last (IsKnown (scene_of scene.now)) }
    ensures slot { IfOk result (λ slot. slot.offset ≡ spec.personality_slot (scene_of scene.now) kept.now) }
    ensures known { IfOk result (λ slot. IfSome slot.last (IsKnown (scene_of scene.now))) }
{
    match &kept.unwind.personality {
        Some(target) => {
            let now = ask(scene, starts, last, kept.file, target)?;
            Ok(Slot {
                offset: now.slot,
                last: Some(now),
            })
        }
        None => Ok(Slot { offset: 0, last }),
    }
}

// How far an entry's language-specific data are from the image's first address.
#[tactic(auto, using(crate::proofs::RowLemmas::lsdas))]
fn lsda_of(scene: &Scene, kept: &KeptUnwind) -> u32
    requires once { AreOnce scene.now.layout.now.placed }
    requires base { scene.now.base ≤ 2 ^ 32 }
    requires fields { AreFields (spec.row_of (scene_of scene.now) kept.now) }
    ensures { result ≡ spec.lsda_place (scene_of scene.now) kept.now }
{
    match kept.unwind.lsda {
        Some(lsda) => place_offset(scene, lsda.0, lsda.1),
        None => 0,
    }
}

// An entry's row, with the slot of its personality.
#[tactic(auto, using(crate::proofs::RowLemmas::rows))]
fn row_of(scene: &Scene, kept: &KeptUnwind, personality: u32) -> UnwindRow
    requires once { AreOnce scene.now.layout.now.placed }
    requires base { scene.now.base ≤ 2 ^ 32 }
    requires fields { AreFields (spec.row_of (scene_of scene.now) kept.now) }
    requires slot { personality ≡ spec.personality_slot (scene_of scene.now) kept.now }
    ensures { result ≡ spec.row_of (scene_of scene.now) kept.now }
{
    let function = place_offset(scene, kept.unwind.atom, kept.unwind.offset);
    UnwindRow {
        function,
        end: function + kept.unwind.length,
        encoding: kept.unwind.encoding,
        personality,
        lsda: lsda_of(scene, kept),
    }
}

// The rows of entries, in their order.
#[tactic(auto, using(crate::proofs::RowLemmas::walks))]
fn rows_of(alloc: Global, scene: &Scene, kept: &[KeptUnwind]) -> Result<Vec<UnwindRow>, OutOfMemory>
    requires once { AreOnce scene.now.layout.now.placed }
    requires base { scene.now.base ≤ 2 ^ 32 }
    requires room { HaveRoom (starts_of scene.now.layout.now.sections) scene.now.slots.now }
    requires fields { All (λ one. AreFields (spec.row_of (scene_of scene.now) one)) kept.now }
    ensures { IfOk result (λ rows. rows.items ≡ map (spec.row_of (scene_of scene.now)) kept.now) }
{
    let starts = slot_starts(scene.layout);
    let mut rows = Vec::with_capacity(alloc, kept.len())?;
    let mut last = None;
    for one in kept {
        let slot = personality_of(scene, starts, last, one)?;
        rows.push(row_of(scene, one, slot.offset))?;
        last = slot.last;
    }
    Ok(rows)
}

// Rows by where their functions begin. Those of one section of a file mostly are so before, which a stable sort makes use of.
fn in_order(rows: Vec<UnwindRow>) -> Result<Vec<UnwindRow>, OutOfMemory>
    ensures same { IfOk result (λ sorted. IsPermutation rows.items sorted.items) }
    ensures order { IfOk result (λ sorted. IsNonDecreasingBy (λ (row : Row). row.function) sorted.items) }
{
    let mut rows = rows;
    rows.sort_by_key(|row| row.function)?;
    Ok(rows)
}

/// The rows of kept entries by rising address, as `unwind_out` writes them: offsets are from the image's first address. All
/// of an entry is to stand within 2^32 bytes from there, and no two entries are to have a byte in common (`AreSpread`), as
/// in a layout they don't.
#[tactic(auto, using(crate::proofs::ApartLemmas::aparts))]
pub fn unwind_rows(
    alloc: Global,
    scene: &Scene,
    kept: &KeptUnwinds,
) -> Result<UnwindRows, OutOfMemory>
    requires once { AreOnce scene.now.layout.now.placed }
    requires base { scene.now.base ≤ 2 ^ 32 }
    requires room { HaveRoom (starts_of scene.now.layout.now.sections) scene.now.slots.now }
    requires spread { AreSpread (scene_of scene.now) kept.now }
    ensures rows { IfOk result (AreRows (scene_of scene.now) kept.now) }
    ensures apart { IfOk result AreApart }
{
    let rows = in_order(rows_of(alloc, scene, kept.as_slice())?)?;
    Ok(UnwindRows::from_vec(rows))
}
