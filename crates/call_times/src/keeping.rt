//! Edges between atoms, and which of these are kept.
use anyhow::{Result, bail};
use mark_core::{KeySet, kept_from};
use mark_race::kept_by;
use mo_outside::FreeGate;
use mo_types::{AtomKey, Edge, EdgeList, KeyList, OutOfMemory};
use std::alloc::Global;
use std::thread::Threads;
use std::time::Instant;
use test_objects::key;

// The most workers.
const MOST_WORKERS: u32 = 1024;

// The atom of a number, among those of files with a thousand atoms each.
fn atom(number: u32) -> AtomKey {
    let file = (number / 1000 % 0x1_0000) as u16;
    key(file, 1, u64::from(number % 1000) * 16)
}

// An atom below a number, in no order of the numbers that it comes from.
fn drawn(number: u32, atoms: u32) -> AtomKey {
    atom(number.wrapping_mul(0x9e37_79b1).rotate_right(7) % atoms.max(1))
}

// So many edges: as many from each atom, one atom behind the other, to any atoms.
fn edges_of(alloc: Global, atoms: u32, edges: u32) -> Result<EdgeList, OutOfMemory> {
    let each = (edges / atoms.max(1)).max(1);
    let mut list = Vec::with_capacity(alloc, edges as usize)?;
    for number in 0..edges {
        list.push(Edge {
            from: atom(number / each),
            to: drawn(number, atoms),
        })?;
    }
    Ok(EdgeList::from_vec(list))
}

// One atom of a thousand.
fn roots_of(alloc: Global, atoms: u32) -> Result<KeySet, OutOfMemory> {
    let mut roots = Vec::new(alloc);
    for number in 0..atoms / 1000 {
        roots.push(atom(number * 1000))?;
    }
    KeySet::from_vec(alloc, roots)
}

// Prints the microseconds, how many atoms are kept, and a sum of them.
fn tell(rt: &HostRuntime, start: Instant, kept: &KeyList) -> Result<()> {
    eprintln!(rt; "{}", start.elapsed(rt)?.as_micros())?;
    let mut sum = 0u64;
    for key in kept.as_slice() {
        let place = u64::from(key.file.position) << 32 | key.offset & 0xffff_ffff;
        sum = sum.rotate_left(5) ^ place;
    }
    println!(rt; "{} {sum}", kept.len())?;
    Ok(())
}

/// Keeps what so many edges lead to among so many atoms, a thousandth of which are roots, in one thread.
pub(crate) fn keep(rt: &HostRuntime, atoms: u32, edges: u32) -> Result<()> {
    let all = edges_of(rt.alloc(), atoms, edges)?;
    let roots = roots_of(rt.alloc(), atoms)?;
    let start = Instant::now(rt)?;
    let kept = kept_from(rt.alloc(), all, &EdgeList::new(rt.alloc()), roots)?;
    tell(rt, start, &kept)
}

/// The same by so many workers.
pub(crate) fn keep_by<T: Threads + Sync>(
    rt: &HostRuntime,
    threads: &T,
    workers: u32,
    atoms: u32,
    edges: u32,
) -> Result<()> {
    if workers == 0 || workers > MOST_WORKERS {
        bail!("want 1 to {MOST_WORKERS} workers");
    }
    let all = edges_of(rt.alloc(), atoms, edges)?;
    let roots = roots_of(rt.alloc(), atoms)?;
    let none = EdgeList::new(rt.alloc());
    let start = Instant::now(rt)?;
    let kept = kept_by(threads, rt.alloc(), &FreeGate, workers, all, &none, roots)?;
    tell(rt, start, &kept)
}
