//! How an atom's references meet their goals.
ghost use Rattle.std.specs.Prelude.{◌≡◌, ◌++◌, ◌<◌, IfSome, None, OnOk, Some, length};
ghost use Rattle.std.specs.List.{flat_map};
ghost use Rattle.std.specs.Option.{option_and_then, option_copied};
ghost use Rattle.image_read.specs.Reaches.{is_zero};
ghost use Rattle.ref_meet.specs.Addresses.{address_by};
ghost use Rattle.ref_meet.specs.Mets as spec;
ghost use Rattle.ref_meet.specs.Near.{HasNearEnds, IsNear, IsNearTarget};
ghost use Rattle.ref_meet.specs.Ready.{AreInOrder, IsSound, scene_of};
ghost use Rattle.ref_meet.specs.Scene.{goal_of};
ghost use Rattle.ref_meet.specs.inner.Listed.{found_at};
ghost use Rattle.ref_meet.specs.inner.Met.{IsReadyFor};
ghost use Rattle.ref_meet.specs.inner.Rows.{IsRow};
ghost use Rattle.ref_meet.specs.inner.Told.{told_by};
ghost use Rattle.resolve.specs.Table.{goal_in};
ghost use Rattle.slot_needs.specs.Needs as needs;

use crate::addresses;
use crate::places::GoalPlaces;
use crate::row::Row;
use crate::scene::Scene;
use crate::targets::{holds_offset, leads_to_looked_up, local_goal, named_goal, place_of};
use crate::template::template_offset;
use crate::words::{last_address, word_near};
use fixup_chain::ChainWord;
use mo_types::{Goal, OutOfMemory, Ref, RefKind, Target};
use patch::Met;
use slot_place::SlotStarts;
use slot_plan::Way;

/// A scene with the places of its goals and the words of its pointers.
#[derive(Clone, Copy)]
pub(crate) struct Setting<'a> {
    pub scene: &'a Scene<'a>,
    /// Where its slots and stubs begin.
    pub starts: SlotStarts,
    /// Where its template of thread-local variables begins.
    pub template: Option<u64>,
    pub places: &'a [GoalPlaces],
    pub words: &'a [ChainWord],
}

fn met_with(reference: &Ref, value: u64, minus: u64, addend: i64) -> Met
    ensures { result ≡ spec.met_with reference.now value minus addend }
{
    Met {
        place: reference.place,
        file_place: reference.file_place,
        kind: reference.kind,
        value,
        minus,
        addend,
    }
}

// ---- addresses and distances

// How a reference needs its goal.
fn way_of(scene: &Scene, row: &Row, reference: &Ref) -> Option<Way>
    requires { IsRow (scene_of scene.now) scene.now.goals.now.pool row.now }
    ensures { result ≡ needs.way_of reference.now.kind reference.now.addend (goal_of (scene_of scene.now) row.now.item.now.file reference.now.target) }
{
    match reference.kind {
        RefKind::Branch => {
            if leads_to_looked_up(scene, row, &reference.target) && adds_nothing(reference) {
                Some(Way::Stub)
            } else {
                None
            }
        }
        RefKind::GotPage | RefKind::GotPageOff | RefKind::GotDelta | RefKind::GotPointer => {
            Some(Way::Got)
        }
        RefKind::TlvPage | RefKind::TlvPageOff => Some(Way::Tlv),
        RefKind::Pointer | RefKind::Diff32 | RefKind::Diff64 | RefKind::Page | RefKind::PageOff =>
            None,
    }
}

fn adds_nothing(reference: &Ref) -> bool
    ensures { result ≡ is_zero reference.now.addend }
{
    let addend = reference.addend;
    addend == 0
}

// The address by a way of a goal, modulo 2^64.
fn told_at(setting: &Setting, way: Option<Way>, goal: &Goal) -> Option<u64>
    requires ready { IsReadyFor setting.now }
    ensures { result ≡ told_by (scene_of setting.now.scene.now) way goal.now }
{
    addresses::told_by(setting.scene, setting.starts, way, goal)
}

// The address by a way of the goal at a place of the pool, if it is known.
fn known_at(setting: &Setting, way: Option<Way>, place: usize) -> Option<u64>
    requires ready { IsReadyFor setting.now }
    ensures { IfSome result (λ address. told_by (scene_of setting.now.scene.now) way (goal_in setting.now.scene.now.goals.now.pool place) ≡ Some address) }
{
    match setting.places.get(place) {
        Some(places) => places.by(way),
        None => None,
    }
}

// The address by a way of the goal at a place of the pool, which is mostly known.
fn told_in(setting: &Setting, way: Option<Way>, place: usize) -> Option<u64>
    requires ready { IsReadyFor setting.now }
    requires place { place < length setting.now.scene.now.goals.now.pool }
    ensures { result ≡ told_by (scene_of setting.now.scene.now) way (goal_in setting.now.scene.now.goals.now.pool place) }
{
    match known_at(setting, way, place) {
        Some(address) => Some(address),
        None => told_at(setting, way, &setting.scene.goals.pool()[place]),
    }
}

// The same of a target's goal.
fn told_by(setting: &Setting, row: &Row, way: Option<Way>, target: &Target) -> Option<u64>
    requires ready { IsReadyFor setting.now }
    requires row { IsRow (scene_of setting.now.scene.now) setting.now.scene.now.goals.now.pool row.now }
    ensures { result ≡ told_by (scene_of setting.now.scene.now) way (goal_of (scene_of setting.now.scene.now) row.now.item.now.file target.now) }
{
    match *target {
        Target::Name(index) => match place_of(setting.scene, row, index) {
            Some(place) => told_in(setting, way, place),
            None => told_at(setting, way, &Goal::Nobody),
        },
        Target::Local(atom, offset) => {
            told_at(setting, way, &local_goal(setting.scene, atom, offset))
        }
    }
}

// The address by a way of a target's goal.
fn address_by(setting: &Setting, row: &Row, way: Option<Way>, target: &Target) -> Option<u64>
    requires ready { IsReadyFor setting.now }
    requires row { IsRow (scene_of setting.now.scene.now) setting.now.scene.now.goals.now.pool row.now }
    requires near { IsNearTarget target.now }
    ensures { result ≡ address_by (scene_of setting.now.scene.now) way (goal_of (scene_of setting.now.scene.now) row.now.item.now.file target.now) }
{
    // read so that it is known to have 64 bits
    let _base = setting.scene.base;
    told_by(setting, row, way, target)
}

fn is_difference(kind: RefKind) -> bool
    ensures { result ≡ spec.is_difference kind }
{
    matches!(kind, RefKind::Diff32 | RefKind::Diff64)
}

// The address of what a difference subtracts.
fn end_address(setting: &Setting, row: &Row, minus: &Option<Target>) -> Option<u64>
    requires ready { IsReadyFor setting.now }
    requires row { IsRow (scene_of setting.now.scene.now) setting.now.scene.now.goals.now.pool row.now }
    requires near { IfSome minus.now IsNearTarget }
    ensures { result ≡ option_and_then (λ target. address_by (scene_of setting.now.scene.now) None (goal_of (scene_of setting.now.scene.now) row.now.item.now.file target)) minus.now }
{
    match minus {
        Some(target) => address_by(setting, row, None, target),
        None => None,
    }
}

// What is subtracted: an address from a difference, and 0 from all else.
fn minus_address(setting: &Setting, row: &Row, reference: &Ref) -> Option<u64>
    requires ready { IsReadyFor setting.now }
    requires row { IsRow (scene_of setting.now.scene.now) setting.now.scene.now.goals.now.pool row.now }
    requires near { HasNearEnds reference.now }
    ensures { result ≡ spec.minus_address (scene_of setting.now.scene.now) row.now.item.now reference.now }
{
    if is_difference(reference.kind) {
        end_address(setting, row, &reference.minus)
    } else {
        Some(0)
    }
}

// What is added: nothing to the address of a slot or a stub.
fn added(way: Option<Way>, reference: &Ref) -> i64
    ensures { result ≡ spec.added way reference.now }
{
    if way.is_some() { 0 } else { reference.addend }
}

// A reference that tells an address or a distance.
fn told_met(setting: &Setting, row: &Row, reference: &Ref) -> Option<Met>
    requires ready { IsReadyFor setting.now }
    requires row { IsRow (scene_of setting.now.scene.now) setting.now.scene.now.goals.now.pool row.now }
    requires near { HasNearEnds reference.now }
    ensures { result ≡ (let goal = goal_of (scene_of setting.now.scene.now) row.now.item.now.file reference.now.target in
        spec.told_met (scene_of setting.now.scene.now) row.now.item.now reference.now (needs.way_of reference.now.kind reference.now.addend goal) goal) }
{
    let way = way_of(setting.scene, row, reference);
    let value = address_by(setting, row, way, &reference.target)?;
    let minus = minus_address(setting, row, reference)?;
    Some(met_with(reference, value, minus, added(way, reference)))
}

// ---- pointers

// A pointer that the loader fills in, with its word, which mostly stands beside the last one.
fn chained_met(setting: &Setting, row: &Row, reference: &Ref, last: &mut usize) -> Option<Met>
    requires { AreInOrder setting.now.words.now }
    ensures { result ≡ spec.chained_met setting.now.words.now row.now.item.now reference.now }
{
    let Some(address) = row.item.address.checked_add(reference.place) else {
        // read, as no word stands beyond the last one, whose address has 64 bits
        let _last = last_address(setting.words);
        return None;
    };
    let word = word_near(setting.words, last, address)?;
    Some(met_with(reference, word, 0, 0))
}

// A pointer of a descriptor to a goal: mostly an offset in the template.
fn descriptor_met(
    setting: &Setting,
    row: &Row,
    reference: &Ref,
    goal: &Goal,
    last: &mut usize,
) -> Option<Met>
    requires ready { IsReadyFor setting.now }
    requires row { IsRow (scene_of setting.now.scene.now) setting.now.scene.now.goals.now.pool row.now }
    requires near { IsNear goal.now }
    ensures { result ≡ spec.pointer_met (scene_of setting.now.scene.now) setting.now.words.now row.now.item.now reference.now goal.now }
{
    if holds_offset(setting.scene, row, goal) {
        let offset = template_offset(setting.scene, setting.template, goal)?;
        return Some(met_with(reference, offset, 0, reference.addend));
    }
    chained_met(setting, row, reference, last)
}

// A pointer of a descriptor.
fn descriptor_pointer(
    setting: &Setting,
    row: &Row,
    reference: &Ref,
    last: &mut usize,
) -> Option<Met>
    requires ready { IsReadyFor setting.now }
    requires row { IsRow (scene_of setting.now.scene.now) setting.now.scene.now.goals.now.pool row.now }
    requires near { HasNearEnds reference.now }
    ensures { result ≡ spec.pointer_met (scene_of setting.now.scene.now) setting.now.words.now row.now.item.now reference.now
        (goal_of (scene_of setting.now.scene.now) row.now.item.now.file reference.now.target) }
{
    match reference.target {
        Target::Name(index) => match named_goal(setting.scene, row, index) {
            Some(goal) => descriptor_met(setting, row, reference, goal, last),
            None => chained_met(setting, row, reference, last),
        },
        Target::Local(atom, offset) => {
            let goal = local_goal(setting.scene, atom, offset);
            descriptor_met(setting, row, reference, &goal, last)
        }
    }
}

// A pointer to a goal.
fn pointer_met(setting: &Setting, row: &Row, reference: &Ref, last: &mut usize) -> Option<Met>
    requires ready { IsReadyFor setting.now }
    requires row { IsRow (scene_of setting.now.scene.now) setting.now.scene.now.goals.now.pool row.now }
    requires near { HasNearEnds reference.now }
    ensures { result ≡ spec.pointer_met (scene_of setting.now.scene.now) setting.now.words.now row.now.item.now reference.now
        (goal_of (scene_of setting.now.scene.now) row.now.item.now.file reference.now.target) }
{
    if row.descriptors {
        descriptor_pointer(setting, row, reference, last)
    } else {
        chained_met(setting, row, reference, last)
    }
}

// ---- all kinds

// A reference, where it is met.
#[tactic(auto, unfolding(crate::specs::Mets::met_of))]
fn met_of(setting: &Setting, row: &Row, reference: &Ref, last: &mut usize) -> Option<Met>
    requires ready { IsReadyFor setting.now }
    requires row { IsRow (scene_of setting.now.scene.now) setting.now.scene.now.goals.now.pool row.now }
    requires near { HasNearEnds reference.now }
    ensures { result ≡ spec.met_of (scene_of setting.now.scene.now) setting.now.words.now row.now.item.now reference.now }
{
    match reference.kind {
        RefKind::Pointer => pointer_met(setting, row, reference, last),
        RefKind::GotPointer => chained_met(setting, row, reference, last),
        _ => told_met(setting, row, reference),
    }
}

// Puts the reference at an index of the file's list behind others, where it is met.
#[tactic(auto, unfolding(crate::specs::inner::Listed::found_at))]
fn add_met(
    mets: &mut Vec<Met>,
    setting: &Setting,
    row: &Row,
    index: u32,
    last: &mut usize,
) -> Result<(), OutOfMemory>
    requires ready { IsReadyFor setting.now }
    requires row { IsRow (scene_of setting.now.scene.now) setting.now.scene.now.goals.now.pool row.now }
    ensures { OnOk result (mets.new.items
        ≡ mets.old.items ++ found_at (spec.met_of (scene_of setting.now.scene.now) setting.now.words.now row.now.item.now) row.now.refs.now index) }
{
    if let Some(reference) = row.refs.get(index as usize) {
        if let Some(met) = met_of(setting, row, &reference, last) {
            mets.push(met)?;
        }
    }
    Ok(())
}

// Puts the references at indices of the file's list behind others, where they are met.
#[tactic(auto, using(liveness::proofs::GrowLemmas::grow_start, liveness::proofs::GrowLemmas::grow_end))]
fn add_each(
    mets: &mut Vec<Met>,
    setting: &Setting,
    row: &Row,
    indices: &[u32],
) -> Result<(), OutOfMemory>
    requires ready { IsReadyFor setting.now }
    requires row { IsRow (scene_of setting.now.scene.now) setting.now.scene.now.goals.now.pool row.now }
    ensures { OnOk result (mets.new.items
        ≡ mets.old.items ++ flat_map (found_at (spec.met_of (scene_of setting.now.scene.now) setting.now.words.now row.now.item.now) row.now.refs.now) indices.now) }
{
    let mut last = 0;
    for index in indices {
        add_met(mets, setting, row, *index, &mut last)?;
    }
    Ok(())
}

/// Puts the references of a placed atom that are met behind others, as its file lists them.
pub(crate) fn add_mets(mets: &mut Vec<Met>, setting: &Setting, row: &Row) -> Result<(), OutOfMemory>
    requires ready { IsReadyFor setting.now }
    requires row { IsRow (scene_of setting.now.scene.now) setting.now.scene.now.goals.now.pool row.now }
    ensures { OnOk result (mets.new.items ≡ mets.old.items ++ spec.mets_of (scene_of setting.now.scene.now) setting.now.words.now row.now.item.now) }
{
    add_each(mets, setting, row, row.indices)
}
