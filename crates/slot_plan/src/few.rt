//! Leaves out needs that are repeated, before anything is sorted.
ghost use Rattle.std.specs.Prelude.{◌≡◌, Contains, IfOk, IfNone, IsTrue};
ghost use Rattle.slot_plan.specs.inner.Held.{held_needs, HasTheSame};

use crate::need::{Need, Way};
use crate::seen::{Seen, cell_place, cell_tag};
use mo_bytes::read_u64;
use mo_types::{Goal, OutOfMemory};
use std::alloc::Global;

// So many hashes are taken at a time: the names lie all over the memory, and those of a block are waited for together.
const BLOCK: usize = 1 << 10;

// The needs, mostly once each: a table of places, by a hash of the need, tells of most needs whether they stood
// before. What the table misses stands in the answer twice.
pub(crate) fn few(alloc: Global, needs: &[Need]) -> Result<Vec<&Need>, OutOfMemory>
    ensures { IfOk result (λ few. HasTheSame needs.now (held_needs few.items)) }
{
    let mut few = Vec::new(alloc);
    let mut seen = Seen::new(alloc)?;
    let mut tags = Vec::new(alloc);
    for (i, need) in needs.iter().enumerate() {
        if i % BLOCK == 0 {
            tags = tags_of(alloc, &needs[i..])?;
        }
        let tag = tags.get(i % BLOCK).copied().unwrap_or(0);
        match free_cell(&needs[..i], &seen, tag, need) {
            Some(free) => {
                seen.note(free, tag, i)?;
                few.push(need)?;
            }
            None => {}
        }
    }
    Ok(few)
}

// Hashes of a block of needs.
fn tags_of(alloc: Global, needs: &[Need]) -> Result<Vec<u32>, OutOfMemory> {
    let mut tags = Vec::with_capacity(alloc, BLOCK)?;
    for need in needs.iter().take(BLOCK) {
        tags.push(tag_of(need))?;
    }
    Ok(tags)
}

// Where in the table a need with this tag may go, or `None` only where the need stands before. Of the cells from the
// tag's own on it looks at eight.
fn free_cell(before: &[Need], seen: &Seen, tag: u32, need: &Need) -> Option<usize>
    ensures { IfNone result (Contains before.now need.now) }
{
    for step in 0..8usize {
        let at = seen.cell_of(tag, step);
        match seen.at(at) {
            Some(cell) => {
                let place = if cell_tag(cell) == tag {
                    cell_place(cell)
                } else {
                    usize::MAX
                };
                match before.get(place) {
                    Some(seen) => {
                        if is_same(seen, need) {
                            return None;
                        }
                    }
                    None => {}
                }
            }
            None => return Some(at),
        }
    }
    Some(seen.cell_of(tag, 0))
}

// Whether two needs are the same.
fn is_same(a: &Need, b: &Need) -> bool
    ensures { IsTrue result → b.now ≡ a.now }
{
    a.way == b.way && is_same_goal(&a.goal, &b.goal)
}

// Whether two goals are the same. Names are compared once.
fn is_same_goal(a: &Goal, b: &Goal) -> bool
    ensures { IsTrue result → b.now ≡ a.now }
{
    match a {
        Goal::Flat(name) => match b {
            Goal::Flat(other) => name == other,
            _ => false,
        },
        _ => a.is_same(b),
    }
}

// A hash of a need.
fn tag_of(need: &Need) -> u32 {
    let way = match need.way {
        Way::Got => 0,
        Way::Stub => 1,
        Way::Tlv => 2,
    };
    let hash = match &need.goal {
        Goal::Def(key, offset) => {
            let file = u64::from(key.file.position) << 32 | u64::from(key.file.member);
            mixed(
                mixed(mixed(mixed(way, file), u64::from(key.section)), key.offset),
                *offset,
            )
        }
        named => hash_of_name(way, named.name()),
    };
    (hash >> 32) as u32
}

// A hash of a name.
fn hash_of_name(start: u64, name: &[u8]) -> u64 {
    let mut hash = mixed(start, name.len() as u64);
    for word in name.chunks_exact(8) {
        hash = mixed(hash, read_u64(word, 0).unwrap_or(0));
    }
    match read_u64(name, name.len().saturating_sub(8)) {
        Some(last) => mixed(hash, last),
        None => {
            for byte in name {
                hash = mixed(hash, u64::from(*byte));
            }
            hash
        }
    }
}

// A hash with one word more.
fn mixed(hash: u64, word: u64) -> u64 {
    (hash.rotate_left(5) ^ word).wrapping_mul(0x517c_c1b7_2722_0a95)
}
