ghost use Rattle.std.specs.Prelude.{◌<◌};

use mo_types::{Bytes, Goal, OutOfMemory};
use slot_plan::{Need, NeedList, Way};
use std::alloc::Global;

// How a name begins: 40 bytes.
const FRONT: &[u8] = b"_a_name_that_is_as_long_as_those_of_C_is";

/// A name of 47 bytes.
pub(crate) fn name_of(alloc: Global, number: u32) -> Result<Bytes, OutOfMemory> {
    let mut name = Vec::from_slice(alloc, FRONT)?;
    let mut rest = number;
    for _i in 0..7 {
        name.push(b'0' + (rest % 10) as u8)?;
        rest /= 10;
    }
    Ok(Bytes::from_vec(name)?)
}

/// So many needs of so many goals, each goal in turn by a stub and by a slot.
pub(crate) fn needs_of(alloc: Global, count: u32, goals: u32) -> Result<NeedList, OutOfMemory>
    requires { 0 < goals }
{
    let mut names = Vec::new(alloc);
    for i in 0..goals {
        names.push(name_of(alloc, i)?)?;
    }
    let mut needs = NeedList::new(alloc);
    for i in 0..count {
        let goal = u64::from(i) * 7919 % u64::from(goals);
        match names.get(goal as usize) {
            Some(name) => needs.push(Need {
                goal: Goal::Flat(name.clone()?),
                way: if i / goals % 2 == 0 {
                    Way::Stub
                } else {
                    Way::Got
                },
            })?,
            None => {}
        }
    }
    Ok(needs)
}
