//! A table that tells where an atom's value is to be looked for.
ghost use Rattle.std.specs.Prelude.{◌≡◌, ◌≢◌, All, IfSome, MatchOption};
ghost use Rattle.std.specs.List.Sorted.{IsSorted};
ghost use Rattle.std.specs.Ordering.{on};
ghost use Rattle.mo_types.specs.Keys.{compare_keys};
ghost use Rattle.atom_index.specs.Stands.{StandsAt};

use crate::keyed::Keyed;
use crate::search::{find, is_at};
use mo_types::{AtomKey, OutOfMemory};
use std::alloc::Global;

/// Places at which the values of a list mostly stand, so that it costs the same to ask for one, however many there are.
/// Nothing is proved of the table: what it misses is searched for.
#[derive(Debug, Drop)]
pub struct AtomIndex {
    table: Vec<u32>,
}

impl AtomIndex {
    /// The hints of a list.
    pub fn of<T: Keyed>(alloc: Global, values: &[T]) -> Result<AtomIndex, OutOfMemory> {
        let mut table = vec![in alloc; u32::MAX; table_size(values.len())]?;
        for (at, value) in values.iter().enumerate() {
            if let Ok(at) = u32::try_from(at) {
                if at < PLACES {
                    note(table.as_mut_slice(), hash_of(value.key()), at);
                }
            }
        }
        Ok(AtomIndex { table })
    }

    /// A place in the list at which a value of an atom stands, or `None` exactly where none does. Takes no memory.
    #[inline(always)]
    pub fn find<T: Keyed>(&self, values: &[T], atom: &AtomKey) -> Option<usize>
        requires { IsSorted (on T.key_of compare_keys) values.now }
        ensures { MatchOption result (All (λ value. T.key_of value ≢ atom.now) values.now) (StandsAt T.key_of values.now atom.now) }
    {
        let table = self.table.as_slice();
        let hash = hash_of(atom);
        match led(values, hint_at(table, hash, 0), hash, atom) {
            Some(at) => Some(at),
            None => find_behind(values, table, hash, atom),
        }
    }
}

// How many places of the table are looked at for an atom.
const STEPS: usize = 8;

// A hint has the value's place in its lower 24 bits, and bits of its atom's hash above them.
const PLACES: u32 = 0xff_ffff;

// How many hints a table has for a number of values.
fn table_size(count: usize) -> usize {
    count.min(PLACES as usize).saturating_mul(2).max(16)
}

// Puts a value's place into the table, at the place that its atom's hash tells or behind it, if there is room.
fn note(table: &mut [u32], hash: u64, place: u32) {
    let first = first_of(hash, table.len());
    for step in 0..STEPS {
        if let Some(hint) = table.get_mut(first.wrapping_add(step)) {
            if *hint == u32::MAX {
                *hint = tag_of(hash) | place;
                return;
            }
        }
    }
}

// The hint that stands so many places behind the first one of a hash.
#[inline(always)]
fn hint_at(table: &[u32], hash: u64, step: usize) -> u32 {
    let first = first_of(hash, table.len());
    table
        .get(first.wrapping_add(step))
        .copied()
        .unwrap_or(u32::MAX)
}

// The place to which a hint leads, if a value of the atom stands there.
#[inline(always)]
fn led<T: Keyed>(values: &[T], hint: u32, hash: u64, atom: &AtomKey) -> Option<usize>
    ensures { IfSome result (StandsAt T.key_of values.now atom.now) }
{
    let place = (hint & PLACES) as usize;
    if hint & !PLACES == tag_of(hash) && is_at(values, place, atom) {
        return Some(place);
    }
    None
}

// The place to which a hint behind the first one leads. Where none does, the atom's value may be there yet.
fn led_behind<T: Keyed>(values: &[T], table: &[u32], hash: u64, atom: &AtomKey) -> Option<usize>
    ensures { IfSome result (StandsAt T.key_of values.now atom.now) }
{
    for step in 1..STEPS {
        let hint = hint_at(table, hash, step);
        if hint == u32::MAX {
            return None;
        }
        if let Some(place) = led(values, hint, hash, atom) {
            return Some(place);
        }
    }
    None
}

// The answer where the first hint leads nowhere. It is a call of its own, so that the code of the others stays short.
#[inline(never)]
fn find_behind<T: Keyed>(values: &[T], table: &[u32], hash: u64, atom: &AtomKey) -> Option<usize>
    requires { IsSorted (on T.key_of compare_keys) values.now }
    ensures { MatchOption result (All (λ value. T.key_of value ≢ atom.now) values.now) (StandsAt T.key_of values.now atom.now) }
{
    match led_behind(values, table, hash, atom) {
        Some(at) => Some(at),
        None => find(values, atom),
    }
}

// The first place of a hash in a table: its upper bits say how far along the table it stands.
#[inline(always)]
fn first_of(hash: u64, size: usize) -> usize {
    ((hash >> 32) as usize).wrapping_mul(size) >> 32
}

// The bits of a hash that a hint has: those below the ones that tell its place in the table.
#[inline(always)]
fn tag_of(hash: u64) -> u32 {
    (hash >> 8 & 0xff00_0000) as u32
}

// A hash of an atom. Its fields mostly have few bits, which are put beside one another before they are multiplied by
// 2^64 over the golden ratio.
#[inline(always)]
fn hash_of(atom: &AtomKey) -> u64 {
    let position = u64::from(atom.file.position).rotate_left(56);
    let member = u64::from(atom.file.member) << 24;
    let section = u64::from(atom.section) << 44;
    (position ^ member ^ section ^ atom.offset).wrapping_mul(0x9e37_79b9_7f4a_7c15)
}
