//! Commands and slots that are put together for layouts.
use command_line::Command;
use mo_cmd::{UsageFault, read_all_words};
use mo_types::{Arg, ArgList, Goal, OutOfMemory};
use slot_plan::{Need, NeedList, Slots, Way, slots};
use std::alloc::Global;
use test_objects::key;

/// The command of some words with a space between any two.
pub(crate) fn command_of(alloc: Global, words: &str) -> Result<Command, UsageFault> {
    let mut list = ArgList::new(alloc);
    for word in words.split(' ') {
        list.push(Arg::new(String::from_str(alloc, word)?))?;
    }
    read_all_words(alloc, &list)
}

/// So many stubs, and so many slots of thread-local variables, for other places of one atom.
pub(crate) fn slots_of(alloc: Global, stubs: u64, tlv: u64) -> Result<Slots, OutOfMemory> {
    let mut needs = NeedList::new(alloc);
    for (count, way) in [(stubs, Way::Stub), (tlv, Way::Tlv)] {
        for offset in 0..count {
            needs.push(Need {
                goal: Goal::Def(key(0, 1, 0), offset),
                way,
            })?;
        }
    }
    slots(alloc, &needs)
}
