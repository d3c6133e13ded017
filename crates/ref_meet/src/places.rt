//! Where the goals of a pool stand, with their slots and stubs.
ghost use Rattle.std.specs.Prelude.{◌≡◌, ◌≤◌, IfOk, IfSome, None, Some};
ghost use Rattle.ref_meet.specs.Ready.{IsSound, scene_of};
ghost use Rattle.ref_meet.specs.inner.Told as spec;
ghost use Rattle.ref_meet.specs.inner.Told.{AreTold, ArePlaces, known, place_by};
ghost use Rattle.slot_place.specs.Places.{HasRoom, address_from, starts_of};

use crate::addresses::told_by;
use crate::hints::{NumberHints, hash_of};
use crate::scene::Scene;
use mo_types::{Goal, OutOfMemory};
use slot_place::SlotStarts;
use slot_plan::{SlotList, Slots, Way};
use std::alloc::Global;

/// The addresses of a goal that are known, modulo 2^64, and 0 in place of each other one: they take 32 bytes so, and there
/// are those of each goal of the pool.
#[derive(Clone, Copy, Debug)]
pub(crate) struct GoalPlaces {
    /// The goal's own.
    pub own: u64,
    /// That of its slot in the global offset table.
    pub got: u64,
    /// That of its stub.
    pub stub: u64,
    /// That of its slot for thread-local variables.
    pub tlv: u64,
}

impl GoalPlaces {
    /// The one from which references are told that need the goal in a way, or in none, if it is known.
    pub(crate) fn by(self, way: Option<Way>) -> Option<u64>
        ensures { result ≡ known (place_by self way) }
    {
        let address = match way {
            None => self.own,
            Some(Way::Got) => self.got,
            Some(Way::Stub) => self.stub,
            Some(Way::Tlv) => self.tlv,
        };
        if address == 0 { None } else { Some(address) }
    }
}

// Hints to the numbers of the goals that have slots and stubs.
#[derive(Drop)]
struct SlotHints {
    got: NumberHints,
    stubs: NumberHints,
    tlv: NumberHints,
}

fn slot_hints(alloc: Global, slots: &Slots) -> Result<SlotHints, OutOfMemory> {
    Ok(SlotHints {
        got: NumberHints::of(alloc, &slots.got)?,
        stubs: NumberHints::of(alloc, &slots.stubs)?,
        tlv: NumberHints::of(alloc, &slots.tlv)?,
    })
}

// The address of the slot or stub of a goal among some, of which each has so many bytes, or 0.
#[tactic(auto, using(crate::proofs::ToldLemmas::known_so))]
fn slot_at(
    unit: u64,
    start: Option<u64>,
    goals: &SlotList,
    hints: &NumberHints,
    goal: &Goal,
    hash: u64,
) -> u64
    requires unit { unit ≤ 12 }
    requires room { HasRoom unit start goals.now }
    ensures { IfSome (known result) (λ address. address_from unit start goals.now goal.now ≡ Some address) }
{
    match (start, hints.number(goals, goal, hash)) {
        (Some(start), Some(number)) => start + unit * number as u64,
        _ => 0,
    }
}

// The goal's own address, or 0.
#[tactic(auto, using(crate::proofs::ToldLemmas::known_so))]
fn own_at(scene: &Scene, starts: SlotStarts, goal: &Goal) -> u64
    requires sound { IsSound (scene_of scene.now) }
    requires starts { starts ≡ starts_of scene.now.layout.now.sections }
    ensures { IfSome (known result) (λ address. spec.told_by (scene_of scene.now) None goal.now ≡ Some address) }
{
    told_by(scene, starts, None, goal).unwrap_or(0)
}

// What is known of a goal.
#[tactic(auto, using(crate::proofs::ToldLemmas::known_so))]
fn places_of(scene: &Scene, starts: SlotStarts, hints: &SlotHints, goal: &Goal) -> GoalPlaces
    requires sound { IsSound (scene_of scene.now) }
    requires starts { starts ≡ starts_of scene.now.layout.now.sections }
    ensures { ArePlaces (scene_of scene.now) goal.now result }
{
    let hash = hash_of(goal);
    let slots = scene.slots;
    GoalPlaces {
        own: own_at(scene, starts, goal),
        got: slot_at(8, starts.got, &slots.got, &hints.got, goal, hash),
        stub: slot_at(12, starts.stubs, &slots.stubs, &hints.stubs, goal, hash),
        tlv: slot_at(8, starts.tlv, &slots.tlv, &hints.tlv, goal, hash),
    }
}

// What is known of some goals.
#[tactic(auto, using(crate::proofs::ToldLemmas::told_all))]
fn places_among(
    alloc: Global,
    scene: &Scene,
    starts: SlotStarts,
    hints: &SlotHints,
    goals: &[Goal],
) -> Result<Vec<GoalPlaces>, OutOfMemory>
    requires sound { IsSound (scene_of scene.now) }
    requires starts { starts ≡ starts_of scene.now.layout.now.sections }
    ensures { IfOk result (λ places. AreTold (scene_of scene.now) goals.now places.items) }
{
    let mut places = Vec::with_capacity(alloc, goals.len())?;
    for goal in goals {
        places.push(places_of(scene, starts, hints, goal))?;
    }
    Ok(places)
}

/// What is known of all goals of the pool: the addresses of those that the image has, and mostly those of slots and stubs.
pub(crate) fn pool_places(
    alloc: Global,
    scene: &Scene,
    starts: SlotStarts,
) -> Result<Vec<GoalPlaces>, OutOfMemory>
    requires sound { IsSound (scene_of scene.now) }
    requires starts { starts ≡ starts_of scene.now.layout.now.sections }
    ensures { IfOk result (λ places. AreTold (scene_of scene.now) scene.now.goals.now.pool places.items) }
{
    let hints = slot_hints(alloc, scene.slots)?;
    places_among(alloc, scene, starts, &hints, scene.goals.pool())
}
