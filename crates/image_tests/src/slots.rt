//! Lists of slots against orders that were written down by hand.
use mo_types::{Bytes, Goal, OutOfMemory};
use slot_plan::{Need, NeedList, SlotList, Slots, Way, slots};
use std::alloc::Global;
use std::test::Fail;
use test_objects::key;

// Goals of every kind, in the order of slots: names byte by byte, whatever their kind, then the header,
// then places by file, section, offset of the atom and offset in it.
fn goal(alloc: Global, number: u32) -> Result<Goal, OutOfMemory> {
    let name: &[u8] = match number {
        0 => b"_Z",
        1 => b"_a",
        2 => b"_ab",
        _ => b"_a\x80",
    };
    Ok(match number {
        0 => Goal::WeakSelf(Bytes::from_slice(alloc, name)?, key(9, 9, 9), 0),
        1 | 3 => Goal::Import {
            name: Bytes::from_slice(alloc, name)?,
            ordinal: 1,
            by_weak: false,
            optional: true,
        },
        2 => Goal::Flat(Bytes::from_slice(alloc, name)?),
        4 => Goal::Header,
        5 => Goal::Def(key(0, 1, 16), 8),
        6 => Goal::Def(key(0, 1, 20), 0),
        7 => Goal::Def(key(0, 2, 0), 4),
        _ => Goal::Def(key(1, 1, 0), 0),
    })
}

// Whether a list has just these goals in this order, and finds each at its place.
fn holds(alloc: Global, list: &SlotList, numbers: &[u32]) -> Result<bool, OutOfMemory> {
    if list.len() != numbers.len() {
        return Ok(false);
    }
    for (i, number) in numbers.iter().enumerate() {
        if list.place_of(&goal(alloc, *number)?) != Some(i) {
            return Ok(false);
        }
    }
    Ok(true)
}

// The slots of goals, each needed in the way beside it.
fn slots_for(alloc: Global, numbers: &[(u32, Way)]) -> Result<Slots, OutOfMemory> {
    let mut needs = NeedList::new(alloc);
    for (number, way) in numbers {
        needs.push(Need {
            goal: goal(alloc, *number)?,
            way: *way,
        })?;
    }
    slots(alloc, &needs)
}

fn is_in_order(alloc: Global, needs: &[(u32, Way)], want: &[u32]) -> Result<bool, OutOfMemory> {
    let slots = slots_for(alloc, needs)?;
    holds(alloc, &slots.got, want)
}

// Whether five goals from a number on are in their order, in whatever order they are needed.
fn every_order(alloc: Global, low: u32, want: &[u32; 5]) -> Result<bool, OutOfMemory> {
    for a in 0..5u32 {
        for b in 0..5u32 {
            for c in 0..5u32 {
                for d in 0..5u32 {
                    if a == b || a == c || a == d || b == c || b == d || c == d {
                        continue;
                    }
                    let e = 10 - (a + b + c + d);
                    let needs = [a, e, b, d, c].map(|n| (n.wrapping_add(low), Way::Got));
                    if !is_in_order(alloc, &needs, want)? {
                        return Ok(false);
                    }
                }
            }
        }
    }
    Ok(true)
}

// The needs, and whether there is a slot, a stub, and a slot for thread-local variables.
const WAYS: [([(u32, Way); 2], bool, bool, bool); 7] = [
    ([(1, Way::Got), (1, Way::Got)], true, false, false),
    ([(1, Way::Stub), (1, Way::Stub)], true, true, false),
    ([(1, Way::Tlv), (1, Way::Tlv)], false, false, true),
    ([(1, Way::Got), (1, Way::Stub)], true, true, false),
    ([(1, Way::Stub), (1, Way::Got)], true, true, false),
    ([(1, Way::Got), (1, Way::Tlv)], true, false, true),
    ([(1, Way::Stub), (1, Way::Tlv)], true, true, true),
];

fn one_goal_in_two_ways(
    alloc: Global,
    needs: &[(u32, Way)],
    wanted: (bool, bool, bool),
) -> Result<bool, OutOfMemory> {
    let other = goal(alloc, 2)?;
    let slots = slots_for(alloc, needs)?;
    Ok(
        slots.got.len() == usize::from(wanted.0)
            && slots.stubs.len() == usize::from(wanted.1)
            && slots.tlv.len() == usize::from(wanted.2)
            && slots.tlv.place_of(&other).is_none(),
    )
}

// The goal with a number for its name.
fn numbered(alloc: Global, number: u32) -> Result<Goal, OutOfMemory> {
    let name = format!(in alloc; "_{number:05}")?;
    Ok(Goal::Flat(Bytes::from_vec(name.into_bytes())?))
}

// Needs of names 0 to 2999, seven times over, each by the way of its number.
fn thousands(alloc: Global) -> Result<NeedList, OutOfMemory> {
    let mut needs = NeedList::new(alloc);
    for i in 0..21_000u32 {
        let number = i.wrapping_mul(2999) % 3000;
        let way = match number % 3 {
            0 => Way::Got,
            1 => Way::Stub,
            _ => Way::Tlv,
        };
        needs.push(Need {
            goal: numbered(alloc, number)?,
            way,
        })?;
    }
    Ok(needs)
}

fn is_in_place(alloc: Global, slots: &Slots, number: u32) -> Result<bool, OutOfMemory> {
    let goal = numbered(alloc, number)?;
    let third = number as usize / 3;
    // Of three names in a row two are in the first list, and one in each of the others.
    let want = match number % 3 {
        0 => (Some(2 * third), None, None),
        1 => (Some(2 * third + 1), Some(third), None),
        _ => (None, None, Some(third)),
    };
    let found = (
        slots.got.place_of(&goal),
        slots.stubs.place_of(&goal),
        slots.tlv.place_of(&goal),
    );
    Ok(found == want)
}

fn are_in_place(alloc: Global, slots: &Slots) -> Result<bool, OutOfMemory> {
    for number in 0..3000u32 {
        if !is_in_place(alloc, slots, number)? {
            return Ok(false);
        }
    }
    Ok(true)
}

fn thousands_of_needs(alloc: Global) -> Result<bool, OutOfMemory> {
    let needs = thousands(alloc)?;
    let slots = slots(alloc, &needs)?;
    are_in_place(alloc, &slots)
}

// Five goals at a time, three of which have names; goals that are needed in two ways; and thousands.
#[test]
fn goals_of_every_kind_in_every_order(rt: HostRuntime) -> Result<(), Fail> {
    let alloc = rt.alloc();
    assert!(rt; every_order(alloc, 0, &[0, 1, 2, 3, 4])?);
    assert!(rt; every_order(alloc, 4, &[4, 5, 6, 7, 8])?);
    for (at, (needs, got, stub, tlv)) in WAYS.iter().enumerate() {
        assert!(rt;
            one_goal_in_two_ways(alloc, needs, (*got, *stub, *tlv))?,
            "in row {at}"
        );
    }
    assert!(rt; thousands_of_needs(alloc)?);
    Ok(())
}
