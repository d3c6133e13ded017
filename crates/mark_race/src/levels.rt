//! Marks by levels, until nothing new is marked.
ghost use Rattle.std.specs.Prelude.{◌≡◌, ◌<◌, ◌≤◌, ◌^◌, ◌++◌, ◌∷◌, [], All, IfOk, cond, length, vec_len};
ghost use Rattle.mark_race.specs.Ends.{ends_of};
ghost use Rattle.mark_race.specs.Least.{AreLeast};
ghost use Rattle.mark_race.specs.inner.Team.{ArePlaces, IsAtLevel, IsNext};

use crate::ends::EndTable;
use crate::level::mark_level;
use crate::race::{MarkRace, Marker};
use crate::team::{team_of, union};
use mo_outside::Gate;
use mo_types::OutOfMemory;
use std::alloc::Global;
use std::thread::Threads;

// A later level has one worker for so many atoms: a thread for fewer costs more than it saves.
const ATOMS_A_WORKER: usize = 512;

// Numbers, and one more where it is wanted.
fn with_place(before: Vec<u32>, place: u32, is_wanted: bool) -> Result<Vec<u32>, OutOfMemory>
    ensures { IfOk result (λ now. now.items ≡ before.items ++ cond is_wanted (place ∷ []) []) }
{
    let mut now = before;
    if is_wanted {
        now.push(place)?;
    }
    Ok(now)
}

// The numbers of the atoms that are marked at the start.
#[tactic(auto, using(crate::proofs::LevelLemmas::placing))]
fn places_of(alloc: Global, start: &[bool]) -> Result<Vec<u32>, OutOfMemory>
    requires { length start.now < 2 ^ 32 }
    ensures { IfOk result (λ work. ArePlaces start.now (length start.now) work.items) }
{
    let mut work = Vec::new(alloc);
    for (i, is) in start.iter().enumerate() {
        work = with_place(work, i as u32, *is)?;
    }
    Ok(work)
}

// How many workers a level of so many atoms has.
fn team_size(workers: u32, atoms: usize) -> u32
    requires { 0 < workers }
    ensures { (0 < result) × (result ≤ workers) }
{
    u32::try_from(atoms).unwrap_or(u32::MAX).clamp(1, workers)
}

// What is marked: in which race, along which arrows.
#[derive(Drop)]
struct Course<'a> {
    race: &'a MarkRace,
    ends: &'a EndTable,
}

// One level by so many workers: the marker afterwards, and what it gained.
#[tactic(auto, using(crate::proofs::Teams::levelling))]
fn run_level<R: Threads + Sync, G: Gate + Sync>(
    rt: &R,
    alloc: Global,
    gate: &G,
    course: &Course,
    marker: Marker,
    work: &[u32],
    count: u32,
) -> Result<(Marker, Vec<u32>), OutOfMemory>
    requires marker { marker.race ≡ course.now.race.now }
    requires count { (0 < count) × (count ≤ marker.passes) }
    requires few { length work.now < 2 ^ 32 }
    requires work { All (λ atom. atom < length course.now.ends.now) work.now }
    requires ends { All (λ row. All (λ atom. atom < length course.now.race.now.start) row) course.now.ends.now }
    ensures { IfOk result (λ r. IsNext course.now.race.now (ends_of course.now.ends.now work.now) marker r.0 r.1.items) }
{
    let team = team_of(alloc, course.race, marker, count)?;
    let (team, gained) = mark_level(rt, alloc, gate, course.race, team, course.ends, work)?;
    let mut marker = union(course.race, team);
    course.race.look(&mut marker);
    Ok((marker, gained))
}

// Levels, until one gains nothing.
#[tactic(auto, using(crate::proofs::LevelLemmas::levelling))]
fn run_levels<R: Threads + Sync, G: Gate + Sync>(
    rt: &R,
    alloc: Global,
    gate: &G,
    course: &Course,
    marker: Marker,
    work: Vec<u32>,
    workers: u32,
) -> Result<Marker, OutOfMemory>
    requires workers { (0 < workers) × (workers ≤ course.now.race.now.passes) }
    requires few { length course.now.race.now.start < 2 ^ 32 }
    requires long { length course.now.ends.now ≡ length course.now.race.now.start }
    requires ends { All (λ row. All (λ atom. atom < length course.now.race.now.start) row) course.now.ends.now }
    requires level { IsAtLevel course.now.race.now course.now.ends.now marker work.items }
    ensures { IfOk result (λ marker. IsAtLevel course.now.race.now course.now.ends.now marker []) }
{
    let mut marker = marker;
    let mut work = work;
    let mut count = team_size(workers, work.len());
    'levels: while !work.is_empty() {
        let (next, gained) = run_level(rt, alloc, gate, course, marker, work.as_slice(), count)?;
        marker = next;
        work = gained;
        count = team_size(workers, work.len() / ATOMS_A_WORKER);
    }
    Ok(marker)
}

/// For each atom whether it is marked once the marks end: those of the start are, and with an atom those to which its arrows
/// lead, and no other. The marks are made level by level, each by at most so many workers.
#[tactic(auto, using(crate::proofs::LevelLemmas::marking))]
pub fn mark_all<R: Threads + Sync, G: Gate + Sync>(
    rt: &R,
    alloc: Global,
    gate: &G,
    workers: u32,
    ends: &EndTable,
    start: &[bool],
) -> Result<Vec<bool>, OutOfMemory>
    requires workers { 0 < workers }
    requires few { length start.now < 2 ^ 32 }
    requires long { length ends.now ≡ length start.now }
    requires ends { All (λ row. All (λ atom. atom < length start.now) row) ends.now }
    ensures { IfOk result (λ marked. AreLeast ends.now start.now marked.items) }
{
    let work = places_of(alloc, start)?;
    let mut marked = vec![in alloc; false; start.len()]?;
    let (race, marker) = MarkRace::begin(alloc, start, u64::from(workers))?;
    let course = Course { race: &race, ends };
    let marker = run_levels(rt, alloc, gate, &course, marker, work, workers)?;
    race.settle(marker, marked.as_mut_slice());
    Ok(marked)
}
