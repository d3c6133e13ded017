//! One worker at its seat: it draws blocks and runs their jobs until no block is left.
ghost use Rattle.std.specs.Prelude.{◌≡◌, ℕ, ◌+◌, ◌*◌, ◌-◌, ◌<◌, ◌≤◌, [], ◌∷◌, ◌++◌, map, min, length, OnOk, IfOk};
ghost use Rattle.par_work.specs.Fan.{Leads, WasRun, numbered};
ghost use Rattle.par_work.specs.inner.Blocks.{AreBlocks};
ghost use Rattle.par_work.specs.inner.Runs.{log_of};
ghost use Rattle.par_work.specs.inner.Worked.{HasWorked};

use crate::blocks::Blocks;
use crate::claims::{Claims, Drawer};
use crate::task::Task;
use mo_outside::Gate;
use mo_types::OutOfMemory;
use std::alloc::Global;

/// Jobs that a worker ran one after the other: the first of them, and their pieces.
#[derive(Drop)]
pub(crate) struct Run<P> {
    pub(crate) first: u32,
    pub(crate) pieces: Vec<P>,
}

/// A worker: its number, its seat, its right to draw, and what it ran.
#[derive(Drop)]
pub(crate) struct Worker<S, P> {
    pub(crate) number: u32,
    pub(crate) seat: S,
    pub(crate) drawer: Drawer,
    pub(crate) done: Vec<Run<P>>,
}

// Passes the gate and runs a job, for each of these.
fn run_range<T: Task, G: Gate>(
    alloc: Global,
    gate: &G,
    task: &T,
    number: u32,
    seat: &mut T::Seat,
    from: u32,
    to: u32,
) -> Result<Run<T::Piece>, OutOfMemory>
    requires range { (from ≤ to) × (to ≤ T.jobs task.now) }
    requires fits { T.fits task.now seat.old }
    ensures fits { T.fits task.now seat.new }
    ensures first { IfOk result (λ r. r.first ≡ from) }
    ensures count { IfOk result (λ r. length r.pieces.items ≡ to - from) }
    ensures leads { IfOk result (λ r. Leads (WasRun (T.fits task.now) (T.ran task.now)) seat.old (numbered from r.pieces.items) seat.new) }
{
    let mut pieces = Vec::with_capacity(alloc, (to - from) as usize)?;
    for job in from..to {
        gate.pass(number);
        pieces.push(task.run(seat, job))?;
    }
    Ok(Run {
        first: from,
        pieces,
    })
}

/// Draws blocks and runs their jobs, until a number is drawn that no block has.
pub(crate) fn draw_all<T: Task, G: Gate>(
    alloc: Global,
    gate: &G,
    claims: &Claims,
    task: &T,
    blocks: Blocks,
    worker: &mut Worker<T::Seat, T::Piece>,
) -> Result<(), OutOfMemory>
    requires claims { worker.old.drawer.claims ≡ claims.now.id }
    requires passes { worker.old.drawer.passes ≡ blocks.count + 1 }
    requires draws { worker.old.drawer.draws ≡ [] }
    requires done { worker.old.done.items ≡ [] }
    requires blocks { AreBlocks blocks }
    requires jobs { blocks.jobs ≤ T.jobs task.now }
    requires fits { T.fits task.now worker.old.seat }
    ensures { OnOk result (HasWorked (WasRun (T.fits task.now) (T.ran task.now)) (T.fits task.now) claims.now.id blocks
        worker.old.seat worker.new.seat (log_of worker.new.done.items) worker.new.drawer) }
{
    for _drawn in 0..u64::from(blocks.count) + 1 {
        let block = claims.draw(&mut worker.drawer);
        if block >= u64::from(blocks.count) {
            return Ok(());
        }
        let (from, to) = blocks.range(block as u32);
        let run = run_range(alloc, gate, task, worker.number, &mut worker.seat, from, to)?;
        worker.done.push(run)?;
    }
    Ok(())
}
