//! Workers in threads of their own, one for each seat.
ghost use Rattle.std.specs.Prelude.{◌≡◌, ℕ, ◌+◌, ◌*◌, ◌<◌, ◌≤◌, ◌^◌, All, [], ◌∷◌, ◌++◌, length, vec_len, IfOk};
ghost use denote.Param.Send.{IsSend, IsSync};
ghost use Rattle.par_work.specs.Fan.{WasRun};
ghost use Rattle.par_work.specs.inner.Blocks.{AreBlocks};
ghost use Rattle.par_work.specs.inner.Harvest.{IsCrew, IsHarvest};
ghost use Rattle.par_work.specs.inner.Runs.{log_of};

use crate::blocks::Blocks;
use crate::claims::{Claims, Drawer};
use crate::task::Task;
use crate::worker::{Run, Worker, draw_all};
use mo_outside::Gate;
use mo_types::OutOfMemory;
use std::alloc::Global;
use std::thread::{Threads, join};

/// Workers that are to start: their seats, the number of the first of them, and their right to draw.
#[derive(Drop)]
pub(crate) struct Crew<S> {
    pub(crate) first: u32,
    pub(crate) drawer: Drawer,
    pub(crate) seats: Vec<S>,
}

/// What workers brought in: their seats, what they ran, and their draws.
#[derive(Drop)]
pub(crate) struct Harvest<S, P> {
    pub(crate) ends: Vec<S>,
    pub(crate) done: Vec<Run<P>>,
    pub(crate) drawer: Drawer,
}

/// Runs a worker at each seat. The crew is halved at each step and one half goes to a new thread, or comes last
/// in this one where none can be started.
#[cycle(crew)]
pub(crate) fn work_all<R: Threads + Sync, T: Task + Sync, G: Gate + Sync>(
    rt: &R,
    alloc: Global,
    gate: &G,
    claims: &Claims,
    task: &T,
    blocks: Blocks,
    crew: Crew<T::Seat>,
) -> Result<Harvest<T::Seat, T::Piece>, OutOfMemory>
    requires crew { IsCrew claims.now.id (blocks.count + 1) crew.first crew.seats.items crew.drawer }
    requires blocks { AreBlocks blocks }
    requires jobs { blocks.jobs ≤ T.jobs task.now }
    requires fits { All (T.fits task.now) crew.seats.items }
    ensures { IfOk result (λ h. IsHarvest (WasRun (T.fits task.now) (T.ran task.now)) (T.fits task.now) claims.now.id blocks crew.seats.items
        h.ends.items (log_of h.done.items) h.drawer) }
{
    if crew.seats.len() < 2 {
        return work_at_one(alloc, gate, claims, task, blocks, crew);
    }
    let (low, high) = halves(claims, u64::from(blocks.count) + 1, crew)?;
    let front = move || -> Result<Harvest<T::Seat, T::Piece>, OutOfMemory>
        requires { IsSync R.row × IsSync T.row × IsSync G.row × IsCrew claims.now.id (blocks.count + 1) low.first low.seats.items low.drawer
            × AreBlocks blocks × (blocks.jobs ≤ T.jobs task.now) × All (T.fits task.now) low.seats.items }
        ensures { IfOk result (λ h. IsHarvest (WasRun (T.fits task.entry.now) (T.ran task.entry.now)) (T.fits task.entry.now) claims.entry.now.id
            blocks low.seats.items h.ends.items (log_of h.done.items) h.drawer) }
    { work_all(rt, alloc, gate, claims, task, blocks, low) };
    let back = move || -> Result<Harvest<T::Seat, T::Piece>, OutOfMemory>
        requires { IsSync R.row × IsSync T.row × IsSync G.row × IsCrew claims.now.id (blocks.count + 1) high.first high.seats.items high.drawer
            × AreBlocks blocks × (blocks.jobs ≤ T.jobs task.now) × All (T.fits task.now) high.seats.items }
        ensures { IfOk result (λ h. IsHarvest (WasRun (T.fits task.entry.now) (T.ran task.entry.now)) (T.fits task.entry.now) claims.entry.now.id
            blocks high.seats.items h.ends.items (log_of h.done.items) h.drawer) }
    { work_all(rt, alloc, gate, claims, task, blocks, high) };
    let (a, b) = join(rt, front, back);
    let front = a?;
    let back = b?;
    both(claims, front, back)
}

// A crew of two or more in two halves.
fn halves<S: Drop>(
    claims: &Claims,
    each: u64,
    crew: Crew<S>,
) -> Result<(Crew<S>, Crew<S>), OutOfMemory>
    requires crew { IsCrew claims.now.id each crew.first crew.seats.items crew.drawer }
    requires two { 1 < vec_len crew.seats }
    requires each { (0 < each) × (each ≤ 2 ^ 32) }
    ensures low { IfOk result (λ r. IsCrew claims.now.id each r.0.first r.0.seats.items r.0.drawer) }
    ensures high { IfOk result (λ r. IsCrew claims.now.id each r.1.first r.1.seats.items r.1.drawer) }
    ensures fewer { IfOk result (λ r. (vec_len r.0.seats < vec_len crew.seats) × (vec_len r.1.seats < vec_len crew.seats)) }
    ensures seats { IfOk result (λ r. crew.seats.items ≡ r.0.seats.items ++ r.1.seats.items) }
{
    let Crew {
        first,
        mut drawer,
        mut seats,
    } = crew;
    let others = seats.split_off(seats.len() / 2)?;
    let next = first + seats.len() as u32;
    let theirs = claims.split(&mut drawer, others.len() as u64 * each);
    Ok((
        Crew {
            first,
            drawer,
            seats,
        },
        Crew {
            first: next,
            drawer: theirs,
            seats: others,
        },
    ))
}

// One worker, at the only seat.
fn work_at_one<T: Task, G: Gate>(
    alloc: Global,
    gate: &G,
    claims: &Claims,
    task: &T,
    blocks: Blocks,
    crew: Crew<T::Seat>,
) -> Result<Harvest<T::Seat, T::Piece>, OutOfMemory>
    requires crew { IsCrew claims.now.id (blocks.count + 1) crew.first crew.seats.items crew.drawer }
    requires one { vec_len crew.seats < 2 }
    requires blocks { AreBlocks blocks }
    requires jobs { blocks.jobs ≤ T.jobs task.now }
    requires fits { All (T.fits task.now) crew.seats.items }
    ensures { IfOk result (λ h. IsHarvest (WasRun (T.fits task.now) (T.ran task.now)) (T.fits task.now) claims.now.id blocks crew.seats.items
        h.ends.items (log_of h.done.items) h.drawer) }
{
    let Crew {
        first,
        drawer,
        seats: mut ends,
    } = crew;
    let seat = ends.pop().unwrap();
    let mut worker = Worker {
        number: first,
        seat,
        drawer,
        done: Vec::new(alloc),
    };
    draw_all(alloc, gate, claims, task, blocks, &mut worker)?;
    let Worker {
        number: _,
        seat,
        drawer,
        done,
    } = worker;
    ends.push(seat)?;
    Ok(Harvest { ends, done, drawer })
}

// What two groups of workers brought in, put together.
fn both<S: Drop, P: Drop>(
    claims: &Claims,
    low: Harvest<S, P>,
    high: Harvest<S, P>,
) -> Result<Harvest<S, P>, OutOfMemory>
    requires low { low.drawer.claims ≡ claims.now.id }
    requires high { high.drawer.claims ≡ claims.now.id }
    ensures ends { IfOk result (λ h. h.ends.items ≡ low.ends.items ++ high.ends.items) }
    ensures done { IfOk result (λ h. h.done.items ≡ low.done.items ++ high.done.items) }
    ensures drawer { IfOk result (λ h. h.drawer ≡ record {
      claims = low.drawer.claims;
      passes = low.drawer.passes + high.drawer.passes;
      draws = low.drawer.draws ++ high.drawer.draws;
    }) }
{
    let mut all = low;
    let Harvest {
        mut ends,
        mut done,
        drawer,
    } = high;
    claims.join(&mut all.drawer, drawer);
    all.ends.append(&mut ends)?;
    all.done.append(&mut done)?;
    Ok(all)
}
