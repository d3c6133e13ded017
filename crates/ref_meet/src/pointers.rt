//! The pointers of placed atoms that the loader fills in.
ghost use Rattle.std.specs.Prelude.{◌≡◌, ◌+◌, ◌++◌, ◌<◌, ◌^◌, pos, ◌-ℤ◌, false, All, IfOk, IsPermutation, OnOk, slice_get};
ghost use Rattle.std.specs.List.{flat_map};
ghost use Rattle.std.specs.Option.{option_map, option_map_or};
ghost use Rattle.ref_meet.specs.Pointers as spec;
ghost use Rattle.ref_meet.specs.Ready.{IsSound, scene_of};
ghost use Rattle.ref_meet.specs.Scene.{refs_of};
ghost use Rattle.ref_meet.specs.inner.Listed.{IsLowAt, found_at, is_pointer};
ghost use Rattle.ref_meet.specs.inner.Orders.{AreOrders};
ghost use Rattle.ref_meet.specs.inner.Rows.{IsRow};
ghost use Rattle.slot_place.specs.Places.{starts_of};

use crate::orders::FileOrders;
use crate::row::{Row, row_of};
use crate::scene::Scene;
use crate::targets::{holds_offset, target_goal};
use fixup_chain::Fixup;
use mo_types::{Goal, OutOfMemory, Ref, RefKind};
use patch::PlacedWork;
use slot_place::{SlotStarts, slot_address};
use slot_plan::Way;

/// What a pointer leads to, with what is added.
#[derive(Drop)]
pub struct Pointee {
    pub goal: Goal,
    pub addend: i64,
}

// A pointer to a goal, unless it holds an offset in the template.
fn pointee_of(scene: &Scene, row: &Row, goal: Goal, addend: i64) -> Option<Pointee>
    requires sound { IsSound (scene_of scene.now) }
    requires row { IsRow (scene_of scene.now) scene.now.goals.now.pool row.now }
    ensures { result ≡ spec.pointee_of (scene_of scene.now) row.now.item.now goal addend }
{
    if holds_offset(scene, row, &goal) {
        None
    } else {
        Some(Pointee { goal, addend })
    }
}

// The distance of a slot from the start of the image.
fn offset_in_image(base: u64, slot: u64) -> i64
    requires slot { slot < 2 ^ 63 }
    requires base { base < 2 ^ 63 }
    ensures { result ≡ pos slot -ℤ pos base }
{
    slot as i64 - base as i64
}

// A pointer to the slot of a goal.
#[tactic(auto, unfolding(crate::specs::Addresses::address_by))]
fn slot_pointee(scene: &Scene, starts: SlotStarts, goal: &Goal) -> Option<Pointee>
    requires sound { IsSound (scene_of scene.now) }
    requires base { scene.now.base < 2 ^ 63 }
    requires starts { starts ≡ starts_of scene.now.layout.now.sections }
    ensures { result ≡ spec.slot_pointee (scene_of scene.now) goal.now }
{
    let slot = slot_address(starts, scene.slots, Way::Got, goal)?;
    Some(Pointee {
        goal: Goal::Header,
        addend: offset_in_image(scene.base, slot),
    })
}

// What a reference leads to that is such a pointer.
#[tactic(auto, unfolding(crate::specs::Pointers::pointee))]
fn led_to(
    scene: &Scene,
    starts: SlotStarts,
    row: &Row,
    reference: &Ref,
) -> Result<Option<Pointee>, OutOfMemory>
    requires sound { IsSound (scene_of scene.now) }
    requires base { scene.now.base < 2 ^ 63 }
    requires starts { starts ≡ starts_of scene.now.layout.now.sections }
    requires row { IsRow (scene_of scene.now) scene.now.goals.now.pool row.now }
    ensures { IfOk result (λ found. found ≡ spec.pointee (scene_of scene.now) row.now.item.now reference.now) }
{
    match reference.kind {
        RefKind::Pointer => {
            let goal = target_goal(scene, row, &reference.target)?;
            Ok(pointee_of(scene, row, goal, reference.addend))
        }
        RefKind::GotPointer => {
            let goal = target_goal(scene, row, &reference.target)?;
            Ok(slot_pointee(scene, starts, &goal))
        }
        _ => Ok(None),
    }
}

// A pointer of a placed atom.
fn fixup_to(row: &Row, reference: &Ref, pointee: Pointee) -> Fixup
    requires { row.now.item.now.address + reference.now.place < 2 ^ 64 }
    ensures { result ≡ spec.fixup_to row.now.item.now reference.now pointee }
{
    Fixup {
        atom: Some(row.item.atom.key),
        place: reference.file_place,
        address: row.item.address + reference.place,
        goal: pointee.goal,
        addend: pointee.addend,
    }
}

// Whether a reference of a kind may be one that the loader fills in.
fn is_pointer(kind: RefKind) -> bool
    ensures { result ≡ is_pointer kind }
{
    matches!(kind, RefKind::Pointer | RefKind::GotPointer)
}

// Whether the reference at an index of the file's list is of such a kind. All references are asked, and few are: it reads no
// more of one than that.
#[inline(always)]
fn is_pointer_at(row: &Row, index: u32) -> bool
    ensures { result ≡ option_map_or (λ r. is_pointer r.kind) (slice_get row.now.refs.now index) false }
{
    match row.refs.get(index as usize) {
        Some(reference) => is_pointer(reference.kind),
        None => false,
    }
}

// Puts the reference at an index of the file's list behind others, where the loader fills it in.
#[tactic(auto, unfolding(crate::specs::inner::Listed::found_at, crate::specs::Pointers::fixup_of))]
fn add_pointer(
    out: &mut Vec<Fixup>,
    scene: &Scene,
    starts: SlotStarts,
    row: &Row,
    index: u32,
) -> Result<(), OutOfMemory>
    requires sound { IsSound (scene_of scene.now) }
    requires base { scene.now.base < 2 ^ 63 }
    requires starts { starts ≡ starts_of scene.now.layout.now.sections }
    requires row { IsRow (scene_of scene.now) scene.now.goals.now.pool row.now }
    requires low { IsLowAt row.now.item.now.address row.now.refs.now index }
    ensures { OnOk result (out.new.items ≡ out.old.items ++ found_at (spec.fixup_of (scene_of scene.now) row.now.item.now) row.now.refs.now index) }
{
    if !is_pointer_at(row, index) {
        return Ok(());
    }
    let Some(reference) = row.refs.get(index as usize) else {
        return Ok(());
    };
    if let Some(pointee) = led_to(scene, starts, row, &reference)? {
        out.push(fixup_to(row, &reference, pointee))?;
    }
    Ok(())
}

// Puts those at indices behind others, from the first one on.
#[tactic(auto, using(liveness::proofs::GrowLemmas::grow_start, liveness::proofs::GrowLemmas::grow_end))]
fn add_forward(
    out: &mut Vec<Fixup>,
    scene: &Scene,
    starts: SlotStarts,
    row: &Row,
    indices: &[u32],
) -> Result<(), OutOfMemory>
    requires sound { IsSound (scene_of scene.now) }
    requires base { scene.now.base < 2 ^ 63 }
    requires starts { starts ≡ starts_of scene.now.layout.now.sections }
    requires row { IsRow (scene_of scene.now) scene.now.goals.now.pool row.now }
    requires low { All (IsLowAt row.now.item.now.address row.now.refs.now) indices.now }
    ensures { OnOk result (out.new.items ≡ out.old.items ++ flat_map (found_at (spec.fixup_of (scene_of scene.now) row.now.item.now) row.now.refs.now) indices.now) }
{
    for index in indices {
        add_pointer(out, scene, starts, row, *index)?;
    }
    Ok(())
}

// The same, from the last one on.
#[tactic(auto, using(crate::proofs::MoveLemmas::backs))]
fn add_backward(
    out: &mut Vec<Fixup>,
    scene: &Scene,
    starts: SlotStarts,
    row: &Row,
    indices: &[u32],
) -> Result<(), OutOfMemory>
    requires sound { IsSound (scene_of scene.now) }
    requires base { scene.now.base < 2 ^ 63 }
    requires starts { starts ≡ starts_of scene.now.layout.now.sections }
    requires row { IsRow (scene_of scene.now) scene.now.goals.now.pool row.now }
    requires low { All (IsLowAt row.now.item.now.address row.now.refs.now) indices.now }
    ensures { OnOk result (IsPermutation (out.old.items ++ flat_map (found_at (spec.fixup_of (scene_of scene.now) row.now.item.now) row.now.refs.now) indices.now) out.new.items) }
{
    let mut left = indices.len();
    while left > 0 {
        left -= 1;
        add_pointer(out, scene, starts, row, indices[left])?;
    }
    Ok(())
}

// The place in its atom of the reference at an index.
fn place_at(row: &Row, index: u32) -> u64 {
    match row.refs.get(index as usize) {
        Some(reference) => reference.place,
        None => 0,
    }
}

// Whether a file lists the references of an atom from its end on, as assemblers mostly do.
fn is_listed_backward(row: &Row) -> bool {
    match row.indices {
        [first, .., last] => place_at(row, *last) < place_at(row, *first),
        _ => false,
    }
}

// Puts the pointers of a placed atom behind others, mostly in the order of their addresses.
fn add_row(
    out: &mut Vec<Fixup>,
    scene: &Scene,
    starts: SlotStarts,
    row: &Row,
) -> Result<(), OutOfMemory>
    requires sound { IsSound (scene_of scene.now) }
    requires base { scene.now.base < 2 ^ 63 }
    requires starts { starts ≡ starts_of scene.now.layout.now.sections }
    requires row { IsRow (scene_of scene.now) scene.now.goals.now.pool row.now }
    requires low { All (IsLowAt row.now.item.now.address row.now.refs.now) row.now.indices.now }
    ensures { OnOk result (IsPermutation (out.old.items ++ spec.row_fixups (scene_of scene.now) row.now.item.now) out.new.items) }
{
    if is_listed_backward(row) {
        add_backward(out, scene, starts, row, row.indices)
    } else {
        add_forward(out, scene, starts, row, row.indices)
    }
}

// The same, if its file is there.
fn add_item(
    out: &mut Vec<Fixup>,
    scene: &Scene,
    starts: SlotStarts,
    orders: &FileOrders,
    next: &mut usize,
    item: &PlacedWork,
) -> Result<(), OutOfMemory>
    requires sound { IsSound (scene_of scene.now) }
    requires base { scene.now.base < 2 ^ 63 }
    requires starts { starts ≡ starts_of scene.now.layout.now.sections }
    requires orders { AreOrders scene.now.loaded.now.files orders.now }
    requires low { All (λ r. item.now.address + r.place < 2 ^ 64) (refs_of scene.now.loaded.now.files item.now) }
    ensures { OnOk result (IsPermutation (out.old.items ++ spec.row_fixups (scene_of scene.now) item.now) out.new.items) }
{
    match row_of(scene, orders, item, next) {
        Some(row) => add_row(out, scene, starts, &row),
        None => Ok(()),
    }
}

/// Puts the pointers of placed atoms behind others.
#[tactic(auto, using(crate::proofs::MoveLemmas::moves))]
pub(crate) fn add_items(
    out: &mut Vec<Fixup>,
    scene: &Scene,
    starts: SlotStarts,
    orders: &FileOrders,
    work: &[PlacedWork],
) -> Result<(), OutOfMemory>
    requires sound { IsSound (scene_of scene.now) }
    requires base { scene.now.base < 2 ^ 63 }
    requires starts { starts ≡ starts_of scene.now.layout.now.sections }
    requires orders { AreOrders scene.now.loaded.now.files orders.now }
    requires low { All (λ item. All (λ r. item.address + r.place < 2 ^ 64) (refs_of scene.now.loaded.now.files item)) work.now }
    ensures { OnOk result (IsPermutation (out.old.items ++ flat_map (spec.row_fixups (scene_of scene.now)) work.now) out.new.items) }
{
    let mut next = 0;
    for item in work {
        add_item(out, scene, starts, orders, &mut next, item)?;
    }
    Ok(())
}
