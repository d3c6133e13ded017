//! Marks of few atoms, counted by hand, and of graphs of many.
ghost use Rattle.std.specs.Prelude.{◌<◌};

use crate::first_wrong;
use crate::graphs::{marked, row_fits, searched, table_fits};
use crate::keeping::{
    chain_is_kept, graphs_are_kept, keeping_meets, ring_is_kept, star_is_kept, support_is_kept,
};
use crate::tables::{chain, rings, scattered, star};
use mark_race::{EndTable, MarkRace, mark_level};
use mo_outside::{FreeGate, MeetGate};
use mo_types::OutOfMemory;
use std::alloc::Global;
use std::test::Fail;
use std::thread::Threads;

// Whether just these atoms are marked.
fn are(marked: &[bool], atoms: &[usize]) -> bool {
    for (atom, is) in marked.iter().enumerate() {
        if *is != atoms.contains(&atom) {
            return false;
        }
    }
    true
}

// Of 70 atoms one is marked at the start. The second mark of another answers false.
fn marks_of_one_marker(alloc: Global) -> Result<bool, OutOfMemory> {
    let mut start = [false; 70];
    start[3] = true;
    let (race, mut marker) = MarkRace::begin(alloc, &start, 1)?;
    let old = race.mark(&mut marker, 3);
    let first = race.mark(&mut marker, 69);
    let second = race.mark(&mut marker, 69);
    let mut marked = [true; 70];
    race.settle(marker, &mut marked);
    Ok([old, first, second] == [false, true, false] && are(&marked, &[3, 69]))
}

// Of two markers one gains an atom that both mark.
fn marks_of_two_markers(alloc: Global) -> Result<bool, OutOfMemory> {
    let (race, mut marker) = MarkRace::begin(alloc, &[false; 70], 2)?;
    let mut other = race.split(&mut marker, 1);
    let mine = race.mark(&mut marker, 64);
    let theirs = race.mark(&mut other, 64);
    let more = race.mark(&mut other, 63);
    race.join(&mut marker, other);
    let mut marked = [true; 70];
    race.settle(marker, &mut marked);
    Ok([mine, theirs, more] == [true, false, true] && are(&marked, &[63, 64]))
}

// A level of one atom whose list has another one twice: it is gained once.
#[tactic(auto, using(crate::proofs::Fitting::one_marker))]
fn gains_of_a_level<R: Threads + Sync>(rt: &R, alloc: Global) -> Result<bool, OutOfMemory> {
    let mut start = [false; 70];
    start[0] = true;
    let (race, marker) = MarkRace::begin(alloc, &start, 1)?;
    let mut markers = Vec::new(alloc);
    markers.push(marker)?;
    let ends = EndTable::new(alloc).with_row(&[5, 5])?;
    let work = [0];
    if !table_fits(&ends, 70) || !row_fits(&work, ends.len()) {
        return Ok(false);
    }
    let (markers, gained) = mark_level(rt, alloc, &FreeGate, &race, markers, &ends, &work)?;
    Ok(markers.len() == 1 && gained.as_slice() == [5].as_slice())
}

// So many atoms, of which the first is marked.
fn first_of(alloc: Global, count: usize) -> Result<Vec<bool>, OutOfMemory> {
    let mut start = vec![in alloc; false; count]?;
    if let Some(first) = start.get_mut(0) {
        *first = true;
    }
    Ok(start)
}

// How many atoms are marked by so many workers where the first is marked at the start.
fn marked_from_first<R: Threads + Sync>(
    rt: &R,
    alloc: Global,
    workers: u32,
    ends: &EndTable,
) -> Result<usize, OutOfMemory> {
    let start = first_of(alloc, ends.len())?;
    let marked = marked(rt, alloc, &FreeGate, workers, ends, start.as_slice())?;
    Ok(marked.iter().filter(|is| **is).count())
}

// Two workers that meet mark the ends of two atoms. A body that runs both in one thread doesn't meet: the first worker
// waits at the gate until its looks run out.
fn marking_meets<R: Threads + Sync>(rt: &R, alloc: Global) -> Result<bool, OutOfMemory> {
    let gate = MeetGate::new(1_000_000_000);
    let ends = EndTable::new(alloc)
        .with_row(&[2])?
        .with_row(&[3])?
        .with_row(&[])?
        .with_row(&[])?
        .with_row(&[])?;
    let start = [true, true, false, false, false];
    let marked = marked(rt, alloc, &gate, 2, &ends, &start)?;
    Ok(gate.met() && marked.len() == 5 && are(marked.as_slice(), &[0, 1, 2, 3]))
}

// Whether graphs without a pattern are marked as a plain search marks them.
fn graphs_are_searched<R: Threads + Sync>(rt: &R, alloc: Global) -> Result<bool, OutOfMemory> {
    for seed in 0..60u32 {
        let ends = scattered(alloc, 70, seed)?;
        let start = first_of(alloc, 70)?;
        let found = marked(rt, alloc, &FreeGate, seed % 4 + 1, &ends, start.as_slice())?;
        let wanted = searched(alloc, &ends, start.as_slice())?;
        if found.as_slice() != wanted.as_slice() {
            return Ok(false);
        }
    }
    Ok(true)
}

// Marks of one, two and many markers, and of all levels of graphs.
#[test]
fn marks_and_levels(rt: HostRuntime) -> Result<(), Fail> {
    let alloc = rt.alloc();
    let long = chain(alloc, 100_000)?;
    let wide = star(alloc, 1_000_000)?;
    let ring = rings(alloc, 1000)?;
    let wrong = first_wrong(&[
        ("one marker", marks_of_one_marker(alloc)?),
        ("two markers", marks_of_two_markers(alloc)?),
        ("a level", gains_of_a_level(&rt, alloc)?),
        ("meets", marking_meets(&rt, alloc)?),
        ("ring", marked_from_first(&rt, alloc, 3, &ring)? == 10),
        ("chain", marked_from_first(&rt, alloc, 3, &long)? == 100_000),
        (
            "star",
            marked_from_first(&rt, alloc, 4, &wide)? == 1_000_000,
        ),
        ("graphs", graphs_are_searched(&rt, alloc)?),
    ]);
    assert!(rt; wrong.is_empty(), "{wrong}");
    Ok(())
}

// Kept atoms, by several numbers of workers.
#[test]
fn kept_by_workers(rt: HostRuntime) -> Result<(), Fail> {
    let alloc = rt.alloc();
    let wrong = first_wrong(&[
        ("meets", keeping_meets(&rt, alloc)?),
        ("support", support_is_kept(&rt, alloc)?),
        ("ring", ring_is_kept(&rt, alloc)?),
        ("graphs", graphs_are_kept(&rt, alloc)?),
    ]);
    assert!(rt; wrong.is_empty(), "{wrong}");
    Ok(())
}

// A chain whose atoms workers keep, each in a level of its own.
#[test]
fn chain_kept_by_workers(rt: HostRuntime) -> Result<(), Fail> {
    assert!(rt; chain_is_kept(&rt, rt.alloc())?);
    Ok(())
}

// Many atoms that workers keep in one level.
#[test]
fn star_kept_by_workers(rt: HostRuntime) -> Result<(), Fail> {
    assert!(rt; star_is_kept(&rt, rt.alloc())?);
    Ok(())
}
