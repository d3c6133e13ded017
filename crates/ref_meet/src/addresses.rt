//! Where the places stand to which references lead.
ghost use Rattle.std.specs.Prelude.{◌≡◌, ◌+◌, ℕ, Some};
ghost use Rattle.std.specs.Option.{option_map};
ghost use Rattle.ref_meet.specs.Addresses as spec;
ghost use Rattle.ref_meet.specs.Addresses.{AreLowPlaces};
ghost use Rattle.ref_meet.specs.Near.{IsNear};
ghost use Rattle.ref_meet.specs.Ready.{IsSound, scene_of};
ghost use Rattle.ref_meet.specs.inner.Told.{told, told_by};
ghost use Rattle.sect_place.specs.Addresses.{AreOnce, address_in};
ghost use Rattle.slot_place.specs.Places.{starts_of};

use crate::scene::Scene;
use mo_types::{AtomKey, Goal};
use sect_place::{Layout, address};
use slot_place::{SlotStarts, slot_address, slot_starts};
use slot_plan::Way;

// The address of an atom.
pub(crate) fn address_of(layout: &Layout, atom: AtomKey) -> Option<u64>
    requires { AreOnce layout.now.placed }
    ensures { result ≡ address_in layout.now.placed atom }
{
    address(layout, atom)
}

// The address of a place in an atom, modulo 2^64.
fn place_address(layout: &Layout, atom: AtomKey, offset: u64) -> Option<u64>
    requires { AreOnce layout.now.placed }
    ensures { result ≡ option_map told (spec.place_address layout.now.placed atom offset) }
{
    let at = address_of(layout, atom)?;
    Some(at.wrapping_add(offset))
}

// The address of a goal that the image itself has, modulo 2^64.
#[tactic(auto, using(crate::proofs::ToldLemmas::tells))]
fn own_address(layout: &Layout, base: u64, goal: &Goal) -> Option<u64>
    requires { AreOnce layout.now.placed }
    ensures { result ≡ option_map told (spec.goal_address base layout.now.placed goal.now) }
{
    match goal {
        Goal::Def(atom, offset) => place_address(layout, *atom, *offset),
        Goal::WeakSelf(_, atom, offset) => place_address(layout, *atom, *offset),
        Goal::Header => Some(base),
        Goal::Import { .. } | Goal::Flat(_) | Goal::Nobody => None,
    }
}

/// The address of a goal that the image itself has, which begins at `base`. Atoms are to stand below 2^33, and a goal
/// within 2^63 bytes of the start of its atom, so that its address has 64 bits. Takes no memory.
pub fn goal_address(layout: &Layout, base: u64, goal: &Goal) -> Option<u64>
    requires once { AreOnce layout.now.placed }
    requires low { AreLowPlaces layout.now.placed }
    requires near { IsNear goal.now }
    ensures { result ≡ spec.goal_address base layout.now.placed goal.now }
{
    own_address(layout, base, goal)
}

/// The address from which references are told that need a goal in a way, or in none, modulo 2^64.
#[tactic(auto, unfolding(crate::specs::inner::Told::told_by, crate::specs::Addresses::address_by))]
pub(crate) fn told_by(
    scene: &Scene,
    starts: SlotStarts,
    way: Option<Way>,
    goal: &Goal,
) -> Option<u64>
    requires sound { IsSound (scene_of scene.now) }
    requires starts { starts ≡ starts_of scene.now.layout.now.sections }
    ensures { result ≡ told_by (scene_of scene.now) way goal.now }
{
    match way {
        Some(way) => slot_address(starts, scene.slots, way, goal),
        None => own_address(scene.layout, scene.base, goal),
    }
}

// How a program's entry is reached.
fn entry_way(goal: &Goal) -> Option<Way>
    ensures { result ≡ spec.entry_way goal.now }
{
    match goal {
        Goal::Import { .. } | Goal::Flat(_) => Some(Way::Stub),
        Goal::Def(_, _) | Goal::WeakSelf(_, _, _) | Goal::Header | Goal::Nobody => None,
    }
}

/// Where a program begins that has its entry in a goal, within 2^63 bytes of the start of its atom: there, or at the goal's
/// stub, where another image has it. Takes no memory.
pub fn entry_address(scene: &Scene, goal: &Goal) -> Option<u64>
    requires sound { IsSound (scene_of scene.now) }
    requires near { IsNear goal.now }
    ensures { result ≡ spec.entry_address (scene_of scene.now) goal.now }
{
    // read so that it is known to have 64 bits
    let _base = scene.base;
    told_by(scene, slot_starts(scene.layout), entry_way(goal), goal)
}
