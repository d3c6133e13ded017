//! Which numbers goals have among those of slots or stubs.
ghost use Rattle.std.specs.Prelude.{◌≡◌, ◌<◌, IfSome, IsTrue, Some, length};
ghost use Rattle.slot_place.specs.Places.{number_of};

use mo_bytes::read_u64;
use mo_types::{Goal, OutOfMemory, hashed_front};
use slot_plan::SlotList;
use std::alloc::Global;

// How many cells are looked at for a goal.
const STEPS: usize = 8;

// A cell has the lower half of a goal's hash, and below it the goal's number.
const EMPTY: u64 = u64::MAX;

/// The numbers of goals in a list by hashes, so that it costs the same to ask for one, however many there are. Nothing is
/// proved of the table: where a hint leads is looked at, and what no hint leads to may stand in the list yet.
#[derive(Debug, Drop)]
pub(crate) struct NumberHints {
    cells: Vec<u64>,
}

impl NumberHints {
    /// The hints of a list.
    pub(crate) fn of(alloc: Global, goals: &SlotList) -> Result<NumberHints, OutOfMemory> {
        let size = goals.len().saturating_mul(2).max(STEPS);
        let mut cells = vec![in alloc; EMPTY; size]?;
        for (number, goal) in goals.as_slice().iter().enumerate() {
            note(cells.as_mut_slice(), hash_of(goal), number);
        }
        Ok(NumberHints { cells })
    }

    /// The number in the list of a goal that has a hash, if a hint leads to it.
    pub(crate) fn number(&self, goals: &SlotList, goal: &Goal, hash: u64) -> Option<usize>
        ensures number { IfSome result (λ number. Some number ≡ number_of goals.now goal.now) }
        ensures within { IfSome result (λ number. number < length goals.now) }
    {
        let first = first_of(hash, self.cells.len());
        for step in 0..STEPS {
            let cell = *self.cells.get(first.wrapping_add(step))?;
            if cell == EMPTY {
                return None;
            }
            let number = (cell & 0xffff_ffff) as usize;
            if cell >> 32 == hash & 0xffff_ffff && is_numbered(goals, number, goal) {
                return Some(number);
            }
        }
        None
    }
}

// Whether a number is that of a goal among some.
fn is_numbered(goals: &SlotList, number: usize, goal: &Goal) -> bool
    ensures number { IsTrue result → Some number ≡ number_of goals.now goal.now }
    ensures within { IsTrue result → number < length goals.now }
{
    match goals.as_slice().get(number) {
        Some(other) => other.is_same(goal),
        None => false,
    }
}

// Puts a number into the first empty cell, from that on which the hash tells, if there is room.
fn note(cells: &mut [u64], hash: u64, number: usize) {
    let first = first_of(hash, cells.len());
    for step in 0..STEPS {
        if let Some(cell) = cells.get_mut(first.wrapping_add(step)) {
            if *cell == EMPTY {
                *cell = hash << 32 | number as u64 & 0xffff_ffff;
                return;
            }
        }
    }
}

// The first cell of a hash: its upper half says how far along the table that stands.
fn first_of(hash: u64, size: usize) -> usize {
    ((hash >> 32) as usize).wrapping_mul(size) >> 32
}

/// A hash of a goal.
pub(crate) fn hash_of(goal: &Goal) -> u64 {
    match goal {
        Goal::Def(key, offset) => {
            let file = u64::from(key.file.position) << 32 | u64::from(key.file.member);
            let place = u64::from(key.section) << 48 ^ key.offset;
            mixed(mixed(mixed(0, file), place), *offset)
        }
        named => hash_of_name(named.name()),
    }
}

// A hash of a name: of its length and its front, eight bytes at a time.
fn hash_of_name(name: &[u8]) -> u64 {
    let mut hash = name.len() as u64;
    for bytes in hashed_front(name).chunks(8) {
        hash = mixed(hash, word_of(bytes));
    }
    hash
}

// The number that up to eight bytes make.
fn word_of(bytes: &[u8]) -> u64 {
    match read_u64(bytes, 0) {
        Some(word) => word,
        None => {
            let mut word = 0;
            for byte in bytes {
                word = word << 8 | u64::from(*byte);
            }
            word
        }
    }
}

// A hash with one word more: times 2^64 over the golden ratio, whose upper bits hang on all.
fn mixed(hash: u64, word: u64) -> u64 {
    let product = (hash ^ word).wrapping_mul(0x9e37_79b9_7f4a_7c15);
    product ^ product >> 32
}
