//! All pointers of an image that the loader fills in, in the order of their addresses.
ghost use Rattle.std.specs.Prelude.{◌≡◌, ◌++◌, ◌<◌, ◌≤◌, ◌^◌, IfOk, IsPermutation, IsTrue, OnOk, length, map};
ghost use Rattle.std.specs.List.{AllPairs, enumerate_from};
ghost use Rattle.fixup_chain.specs.Encoded.{AreApart};
ghost use Rattle.ref_meet.specs.Pointers as spec;
ghost use Rattle.ref_meet.specs.Pointers.{AreBeside, AreFixups, AreSpread, EndLow};
ghost use Rattle.ref_meet.specs.Ready.{IsSound, scene_of};
ghost use Rattle.ref_meet.specs.inner.Apart.{has_eight};
ghost use Rattle.ref_meet.specs.inner.Orders.{AreOrders};
ghost use Rattle.slot_place.specs.Places.{HasRoom, unit_at};

use crate::orders::FileOrders;
use crate::pointers::add_items;
use crate::scene::Scene;
use fixup_chain::{Fixup, FixupList};
use mo_types::{Goal, Items, OutOfMemory};
use patch::PlacedWork;
use slot_place::slot_starts;
use slot_plan::SlotList;
use std::alloc::Global;

// Puts the slots of some goals behind others, which begin at an address.
#[tactic(auto, using(crate::proofs::GatherLemmas::numbers))]
fn add_slots_from(out: &mut Vec<Fixup>, start: u64, goals: &[Goal]) -> Result<(), OutOfMemory>
    requires { unit_at 8 start (length goals.now) < 2 ^ 63 }
    ensures { OnOk result (out.new.items ≡ out.old.items ++ map (spec.slot_fixup start) (enumerate_from 0 goals.now)) }
{
    for (number, goal) in goals.iter().enumerate() {
        out.push(Fixup {
            atom: None,
            place: 0,
            address: start + 8 * number as u64,
            goal: goal.clone()?,
            addend: 0,
        })?;
    }
    Ok(())
}

// Puts the slots of a section behind others, if the image has it.
#[tactic(auto, unfolding(crate::specs::Pointers::slot_fixups))]
fn add_slots(out: &mut Vec<Fixup>, start: Option<u64>, goals: &SlotList) -> Result<(), OutOfMemory>
    requires { HasRoom 8 start goals.now }
    ensures { OnOk result (out.new.items ≡ out.old.items ++ spec.slot_fixups start goals.now) }
{
    match start {
        Some(start) => add_slots_from(out, start, goals.as_slice()),
        None => Ok(()),
    }
}

// How many placed atoms stand before a section, where these are in the order of the image.
fn count_before(work: &[PlacedWork], start: Option<u64>) -> usize
    ensures { result ≤ length work.now }
{
    let Some(start) = start else {
        return 0;
    };
    for (at, item) in work.iter().enumerate() {
        if item.address >= start {
            return at;
        }
    }
    work.len()
}

// Whether a pointer ends where another one begins or before.
fn ends_before(a: &Fixup, b: &Fixup) -> bool
    ensures { result ≡ has_eight a.now.address b.now.address }
{
    b.address.saturating_sub(a.address) >= 8
}

// Whether each pointer ends where the next one begins or before.
fn are_apart(fixups: &[Fixup]) -> bool
    ensures { IsTrue result → AreApart fixups.now }
{
    fixups.is_sorted_by(|a, b| ends_before(a, b))
}

// Pointers without a common byte in the order of their addresses.
fn sorted(fixups: Vec<Fixup>) -> Vec<Fixup>
    requires { AllPairs AreBeside fixups.items }
    ensures apart { AreApart result.items }
    ensures all { IsPermutation fixups.items result.items }
{
    let mut fixups = fixups;
    fixups.sort_unstable_by(|a, b| a.address.cmp(&b.address));
    fixups
}

// The same, where they mostly are in that order.
fn in_order(fixups: Vec<Fixup>) -> Vec<Fixup>
    requires { AllPairs AreBeside fixups.items }
    ensures apart { AreApart result.items }
    ensures all { IsPermutation fixups.items result.items }
{
    if are_apart(fixups.as_slice()) {
        fixups
    } else {
        sorted(fixups)
    }
}

/// The pointers of an image that the loader fills in: those of slots, and those of the atoms that have bytes, which are to be in
/// the order of the image. The image is to begin below 2^63, the fields of atoms to have addresses of 64 bits (`EndLow`), and no two
/// of the pointers to have a byte in common (`AreSpread`).
pub fn fixups_of(
    alloc: Global,
    scene: &Scene,
    orders: &FileOrders,
    work: &[PlacedWork],
) -> Result<FixupList, OutOfMemory>
    requires sound { IsSound (scene_of scene.now) }
    requires orders { AreOrders scene.now.loaded.now.files orders.now }
    requires low { EndLow (scene_of scene.now) work.now }
    requires spread { AreSpread (scene_of scene.now) work.now }
    ensures { IfOk result (AreFixups (scene_of scene.now) work.now) }
{
    let starts = slot_starts(scene.layout);
    let mut all = Vec::new(alloc);
    let (front, behind) = work.split_at(count_before(work, starts.got));
    add_items(&mut all, scene, starts, orders, front)?;
    add_slots(&mut all, starts.got, &scene.slots.got)?;
    let (middle, rest) = behind.split_at(count_before(behind, starts.tlv));
    add_items(&mut all, scene, starts, orders, middle)?;
    add_slots(&mut all, starts.tlv, &scene.slots.tlv)?;
    add_items(&mut all, scene, starts, orders, rest)?;
    Ok(Items::from_vec(in_order(all)))
}
