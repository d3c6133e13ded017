//! Jobs shared out among workers.
ghost use Rattle.std.specs.Prelude.{◌≡◌, ℕ, ◌<◌, ◌≤◌, ◌^◌, All, vec_len, slice_index_or, IfOk};
ghost use Rattle.par_work.specs.Fan.{WasRun, IsFanned, IsPieceOf};

use crate::blocks::Blocks;
use crate::claims::Claims;
use crate::crew::{Crew, Harvest, work_all};
use crate::order::in_order;
use crate::task::Task;
use mo_outside::Gate;
use mo_types::OutOfMemory;
use std::alloc::Global;
use std::thread::Threads;

/// Runs the jobs below `jobs`, each once, by one worker per seat: each draws the next block of jobs when it is done
/// with one, where a block is one job unless there are very many, and passes the gate before each job. Answers the
/// seats, each where its own jobs led it, and the pieces in the order of the jobs. Where a thread can't be started
/// the caller does its work. On want of memory the seats are given up.
pub fn fan<R: Threads + Sync, T: Task + Sync, G: Gate + Sync>(
    rt: &R,
    alloc: Global,
    gate: &G,
    seats: Vec<T::Seat>,
    task: &T,
    jobs: u32,
) -> Result<(Vec<T::Seat>, Vec<T::Piece>), OutOfMemory>
    requires seats { (0 < vec_len seats) × (vec_len seats < 2 ^ 32) }
    requires jobs { jobs ≤ T.jobs task.now }
    requires fits { All (T.fits task.now) seats.items }
    ensures fanned { IfOk result (λ r. IsFanned (WasRun (T.fits task.now) (T.ran task.now)) seats.items jobs r.0.items r.1.items) }
    ensures gives { IfOk result (λ r. (job : ℕ) (other : T.Piece) → job < jobs
        → IsPieceOf (WasRun (T.fits task.now) (T.ran task.now)) job (slice_index_or r.1.items job other)) }
    ensures fits { IfOk result (λ r. All (T.fits task.now) r.0.items) }
{
    let blocks = Blocks::of(jobs);
    let passes = seats.len() as u64 * (u64::from(blocks.count) + 1);
    let (claims, drawer) = Claims::begin(alloc, passes)?;
    let crew = Crew {
        first: 0,
        drawer,
        seats,
    };
    let Harvest { ends, done, drawer } = work_all(rt, alloc, gate, &claims, task, blocks, crew)?;
    let _drawn = claims.close(drawer);
    let pieces = in_order(alloc, jobs, done)?;
    Ok((ends, pieces))
}
