//! Pieces in the order of their jobs.
ghost use Rattle.std.specs.Prelude.{◌≡◌, ℕ, map, length, vec_len, IfOk};
ghost use Rattle.std.specs.List.{flat_map};
ghost use Rattle.std.specs.List.Sorted.{IsPermutation};
ghost use Rattle.par_work.specs.Drawn.{AreBelow};
ghost use Rattle.par_work.specs.Fan.{numbered};
ghost use Rattle.par_work.specs.inner.Runs.{log_of};

use crate::worker::Run;
use mo_types::OutOfMemory;
use std::alloc::Global;

/// Orders the pieces by their jobs, which are those below `jobs`, each once. The runs of one worker rise, and the
/// sort merges what rises.
pub(crate) fn in_order<P: Drop>(
    alloc: Global,
    jobs: u32,
    done: Vec<Run<P>>,
) -> Result<Vec<P>, OutOfMemory>
    requires { AreBelow jobs (map (λ run. run.0) (log_of done.items)) }
    ensures count { IfOk result (λ v. length v.items ≡ jobs) }
    ensures once { IfOk result (λ v. IsPermutation (log_of done.items) (numbered 0 v.items)) }
{
    let mut done = done;
    done.sort_by_key(|run| run.first)?;
    let pieces = pieces_of(alloc, jobs as usize, done)?;
    Ok(pieces)
}

// The pieces of all runs. There are so many, or the room is made as it is needed.
fn pieces_of<P: Drop>(alloc: Global, room: usize, done: Vec<Run<P>>) -> Result<Vec<P>, OutOfMemory>
    ensures { IfOk result (λ v. v.items ≡ flat_map (λ run. run.pieces.items) done.items) }
{
    let mut pieces = Vec::with_capacity(alloc, room)?;
    for run in done {
        let Run {
            first: _,
            pieces: mut more,
        } = run;
        pieces.append(&mut more)?;
    }
    Ok(pieces)
}
