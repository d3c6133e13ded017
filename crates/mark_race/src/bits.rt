//! Marks as bits of words: 64 atoms a word.
ghost use Rattle.std.specs.Prelude.{◌≡◌, ℕ, ◌+◌, ◌*◌, ◌/◌, ◌<◌, ◌≤◌, ◌==◌, false, cond, length, IfOk, slice_index_or};
ghost use Rattle.std.specs.Mem.Slots.{IsFull, slots_items, slots_len};
ghost use Rattle.mark_race.specs.Marks.{at_start};
ghost use Rattle.mark_race.specs.Rule.{IsNoted, IsPacked, bit_of};

use atomic_table::Closed;
use mo_types::OutOfMemory;
use std::alloc::Global;

// Sets the bit of an atom, if it is marked.
fn note(words: &mut [u64], atom: usize, is: bool)
    requires { atom / 64 < length words.old }
    ensures { IsNoted words.old words.new atom is }
{
    if is {
        words[atom / 64] |= 1 << (atom % 64);
    }
}

// Sets the bits of the atoms that are marked.
#[tactic(auto, using(crate::proofs::Words::packing))]
fn note_all(words: &mut [u64], start: &[bool])
    requires { IsPacked start.now words.old 0 }
    ensures { IsPacked start.now words.new (length start.now) }
{
    for (i, is) in start.iter().enumerate() {
        note(words, i, *is);
    }
}

/// Words whose bits are set where an atom is marked.
pub(crate) fn pack(alloc: Global, start: &[bool]) -> Result<Vec<u64>, OutOfMemory>
    ensures long { IfOk result (λ words. length words.items ≡ length start.now / 64 + 1) }
    ensures bits { IfOk result (λ words. (atom : ℕ) → atom < length start.now → bit_of words.items atom ≡ cond (at_start start.now atom) 1 0) }
{
    let mut words = vec![in alloc; 0u64; start.len() / 64 + 1]?;
    note_all(words.as_mut_slice(), start);
    Ok(words)
}

// Whether the bit of an atom is set, in the words of a table that has ended.
fn is_set(closed: &Closed<(), Global>, atom: usize) -> bool
    requires full { IsFull closed.now.words }
    requires place { atom / 64 < slots_len closed.now.words }
    ensures { result ≡ (bit_of (slots_items closed.now.words) atom == 1) }
{
    closed.word(atom / 64) >> (atom % 64) & 1 == 1
}

/// Writes for each atom whether its bit is set, in the words of a table that has ended.
pub(crate) fn unpack(closed: &Closed<(), Global>, into: &mut [bool])
    requires full { IsFull closed.now.words }
    requires places { length into.old / 64 < slots_len closed.now.words }
    ensures long { length into.new ≡ length into.old }
    ensures bits { (atom : ℕ) → atom < length into.old → slice_index_or into.new atom false ≡ (bit_of (slots_items closed.now.words) atom == 1) }
{
    for (i, place) in into.iter_mut().enumerate() {
        *place = is_set(closed, i);
    }
}
