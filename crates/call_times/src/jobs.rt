//! Jobs of a known length, run by workers.
ghost use Rattle.std.specs.Prelude.{ℕ, ◌^◌};

use anyhow::{Result, bail};
use mo_outside::FreeGate;
use par_work::{Task, fan};
use std::thread::Threads;

// The most workers.
const MOST_WORKERS: u32 = 1024;

// Jobs that step so many times from their numbers. Their seats count them.
#[derive(Clone, Copy)]
struct Steps {
    steps: u32,
}

impl Task for Steps {
    type Seat = u64;

    type Piece = u64;

    ghost jobs = { λ _. 2 ^ 32 };

    ghost fits = { λ _ _. Unit {0} };

    ghost ran = { λ _ _ _ _ _. Unit {0} };

    fn run(&self, seat: &mut u64, job: u32) -> u64 {
        *seat = seat.wrapping_add(1);
        let mut state = u64::from(job);
        for _ in 0..self.steps {
            state = (state ^ (state >> 29)).wrapping_mul(6364136223846793005) ^ 1;
        }
        state
    }
}

fn sum_of(pieces: &[u64]) -> u64 {
    let mut sum = 0u64;
    for piece in pieces {
        sum = sum.wrapping_add(*piece);
    }
    sum
}

/// Has workers run so many jobs, each of so many steps, and prints the sum of their pieces modulo 2^64, which is the same
/// for every number of workers.
pub(crate) fn fan_out<T: Threads + Sync>(
    rt: &HostRuntime,
    threads: &T,
    workers: u32,
    jobs: u32,
    steps: u32,
) -> Result<()> {
    if workers == 0 || workers > MOST_WORKERS {
        bail!("want 1 to {MOST_WORKERS} workers");
    }
    let seats = vec![in rt.alloc(); 0u64; workers as usize]?;
    let (_, pieces) = fan(
        threads,
        rt.alloc(),
        &FreeGate,
        seats,
        &Steps { steps },
        jobs,
    )?;
    println!(rt; "{}", sum_of(pieces.as_slice()))?;
    Ok(())
}
