//! One level of marks: the ends of some atoms' arrows, by workers in threads of their own.
ghost use Rattle.std.specs.Prelude.{◌≡◌, ◌<◌, ◌^◌, [], ◌∷◌, All, length, vec_len, IfOk};
ghost use Rattle.mark_race.specs.Ends.{ends_of};
ghost use Rattle.mark_race.specs.Level.{HaveMarked};
ghost use Rattle.mark_race.specs.inner.Working.{AreFresh, AreGathered, HasMarked};

use crate::ends::EndTable;
use crate::race::{MarkRace, Marker};
use mo_outside::Gate;
use mo_types::OutOfMemory;
use par_work::{Task, fan};
use std::alloc::Global;
use std::thread::Threads;

/// A marker at work: the numbers that it gained, and whether each of them was noted.
#[derive(Drop)]
pub(crate) struct Worker {
    pub(crate) marker: Marker,
    pub(crate) gained: Vec<u32>,
    pub(crate) notes: Result<(), OutOfMemory>,
}

// Marks an atom, and notes it if it is new.
fn mark_one(race: &MarkRace, worker: &mut Worker, atom: u32)
    requires race { worker.old.marker.race ≡ race.now }
    requires atom { atom < length race.now.start }
    ensures { HasMarked (atom ∷ []) worker.old worker.new }
{
    if !race.mark(&mut worker.marker, atom) {
        return;
    }
    match worker.gained.push(atom) {
        Ok(()) => {}
        Err(fault) => worker.notes = Err(fault.into()),
    }
}

// Marks some atoms.
#[tactic(auto, using(crate::proofs::Working::row_marks))]
fn mark_row(race: &MarkRace, worker: &mut Worker, row: &[u32])
    requires race { worker.old.marker.race ≡ race.now }
    requires row { All (λ atom. atom < length race.now.start) row.now }
    ensures { HasMarked row.now worker.old worker.new }
{
    for atom in row {
        mark_one(race, worker, *atom);
    }
}

// A job for each atom of the work: to mark those to which its arrows lead.
#[derive(Drop)]
struct Marking<'a> {
    race: &'a MarkRace,
    ends: &'a EndTable,
    work: &'a [u32],
}

impl<'a> Task for Marking<'a> {
    ghost use Rattle.std.specs.Prelude.{◌≡◌, length};
    ghost use Rattle.mark_race.specs.inner.Working.{AreWorkable, HasMarked, row_of_job};

    type Seat = Worker;

    type Piece = ();

    ghost jobs = { λ t. length t.work.now };

    ghost fits = { λ t worker. (worker.marker.race ≡ t.race.now) × AreWorkable (length t.race.now.start) t.ends.now t.work.now };

    ghost ran = { λ t before job _ after. HasMarked (row_of_job t.ends.now t.work.now job) before after };

    #[tactic(auto, using(crate::proofs::Working::jobs))]
    fn run(&self, seat: &mut Worker, job: u32) {
        let row = self.ends.row(self.work[job as usize]);
        mark_row(self.race, seat, row);
    }
}

// A worker for each marker.
#[tactic(auto, using(crate::proofs::Gathers::freshness))]
fn workers_of(alloc: Global, markers: Vec<Marker>) -> Result<Vec<Worker>, OutOfMemory>
    ensures { IfOk result (λ workers. AreFresh markers.items workers.items) }
{
    let mut workers = Vec::with_capacity(alloc, markers.len())?;
    for marker in markers {
        workers.push(Worker {
            marker,
            gained: Vec::new(alloc),
            notes: Ok(()),
        })?;
    }
    Ok(workers)
}

// The markers of workers, and all that these gained.
#[tactic(auto, using(crate::proofs::Gathers::gathering))]
fn gathered(alloc: Global, workers: Vec<Worker>) -> Result<(Vec<Marker>, Vec<u32>), OutOfMemory>
    ensures { IfOk result (λ r. AreGathered workers.items r.0.items r.1.items) }
{
    let mut markers = Vec::with_capacity(alloc, workers.len())?;
    let mut all = Vec::new(alloc);
    for worker in workers {
        let Worker {
            marker,
            mut gained,
            notes,
        } = worker;
        notes?;
        markers.push(marker)?;
        all.append(&mut gained)?;
    }
    Ok((markers, all))
}

/// Marks the ends of the arrows of some atoms, one job an atom, by as many workers as there are markers. Answers the markers,
/// each with the passes that it had, and the numbers of the atoms that they gained together: the marks together grew by the
/// ends, once each, and the gains by what is answered, which are some of the ends. On want of memory the markers are given up.
#[tactic(auto, using(crate::proofs::Gathers::crews))]
pub fn mark_level<R: Threads + Sync, G: Gate + Sync>(
    rt: &R,
    alloc: Global,
    gate: &G,
    race: &MarkRace,
    markers: Vec<Marker>,
    ends: &EndTable,
    work: &[u32],
) -> Result<(Vec<Marker>, Vec<u32>), OutOfMemory>
    requires markers { (0 < vec_len markers) × (vec_len markers < 2 ^ 32) }
    requires race { All (λ marker. marker.race ≡ race.now) markers.items }
    requires few { length work.now < 2 ^ 32 }
    requires work { All (λ atom. atom < length ends.now) work.now }
    requires ends { All (λ row. All (λ atom. atom < length race.now.start) row) ends.now }
    ensures { IfOk result (λ r. HaveMarked (ends_of ends.now work.now) markers.items r.0.items r.1.items) }
{
    let workers = workers_of(alloc, markers)?;
    let marking = Marking { race, ends, work };
    let (workers, _) = fan(rt, alloc, gate, workers, &marking, work.len() as u32)?;
    let (markers, gained) = gathered(alloc, workers)?;
    Ok((markers, gained))
}
