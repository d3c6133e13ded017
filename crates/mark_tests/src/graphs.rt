//! What is marked in graphs, by workers and by a plain search.
ghost use Rattle.std.specs.Prelude.{◌≡◌, ◌<◌, ◌≤◌, true, All, length};

use mark_race::{EndTable, mark_all};
use mo_outside::Gate;
use mo_types::OutOfMemory;
use std::alloc::Global;
use std::thread::Threads;

// Whether each number is below a bound.
#[tactic(auto, using(crate::proofs::Fitting::row_steps))]
pub(crate) fn row_fits(row: &[u32], count: usize) -> bool
    ensures { result ≡ true → All (λ atom. atom < count) row.now }
{
    for atom in row {
        if *atom as usize >= count {
            return false;
        }
    }
    true
}

// Whether each end is below a bound, in a table of fewer than 2^32 atoms.
#[tactic(auto, using(crate::proofs::Fitting::table_steps))]
pub(crate) fn table_fits(ends: &EndTable, count: usize) -> bool
    ensures { result ≡ true → All (λ row. All (λ atom. atom < count) row) ends.now }
{
    if ends.len() > u32::MAX as usize {
        return false;
    }
    for atom in 0..ends.len() as u32 {
        if !row_fits(ends.row(atom), count) {
            return false;
        }
    }
    true
}

/// What is marked, or nothing where the table doesn't fit the start.
pub(crate) fn marked<R: Threads + Sync, G: Gate + Sync>(
    rt: &R,
    alloc: Global,
    gate: &G,
    workers: u32,
    ends: &EndTable,
    start: &[bool],
) -> Result<Vec<bool>, OutOfMemory> {
    if workers == 0 || ends.len() != start.len() || start.len() > u32::MAX as usize {
        return Ok(Vec::new(alloc));
    }
    if !table_fits(ends, start.len()) {
        return Ok(Vec::new(alloc));
    }
    mark_all(rt, alloc, gate, workers, ends, start)
}

// Marks what these lead to.
fn mark_row(marked: &mut [bool], row: &[u32]) {
    for atom in row {
        if let Some(place) = marked.get_mut(*atom as usize) {
            *place = true;
        }
    }
}

/// What a plain search marks: as many rounds as there are atoms, in each of which the ends of all marked atoms are marked.
pub(crate) fn searched(
    alloc: Global,
    ends: &EndTable,
    start: &[bool],
) -> Result<Vec<bool>, OutOfMemory> {
    let mut marked = Vec::from_slice(alloc, start)?;
    if ends.len() > u32::MAX as usize {
        return Ok(marked);
    }
    for _round in 0..ends.len() {
        for atom in 0..ends.len() as u32 {
            if marked.get(atom as usize) == Some(&true) {
                mark_row(marked.as_mut_slice(), ends.row(atom));
            }
        }
    }
    Ok(marked)
}
