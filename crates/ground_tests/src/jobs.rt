//! Shares that were worked out by hand, draws, and jobs whose pieces and order are known.
ghost use Rattle.std.specs.Prelude.{◌≡◌, ◌≤◌, ◌<◌, ◌^◌, ◌*◌, ℕ, All, length, IfOk};

use crate::first_wrong;
use crate::races::{settled_orders, words_at_the_start_count};
use crate::shared_races::{
    a_racer_sees_the_word_of_another, four_threads_settle_what_one_replays, three_names,
};
use mo_outside::{FreeGate, MeetGate};
use mo_types::OutOfMemory;
use par_work::{Claims, Task, fan, share};
use std::alloc::Global;
use std::sync::atomic::AtomicBool;
use std::sync::atomic::Ordering::SeqCst;
use std::test::Fail;
use std::thread::{Threads, yield_now};

// Its seats count the jobs that they ran, and each job gives three times its number.
struct Triples;

impl Task for Triples {
    type Seat = u32;

    type Piece = u64;

    ghost jobs = { λ _. 2 ^ 32 };

    ghost fits = { λ _ _. Unit {0} };

    ghost ran = { λ _ _ job piece _. piece ≡ 3 * job };

    fn run(&self, seat: &mut u32, job: u32) -> u64 {
        *seat = seat.wrapping_add(1);
        3 * u64::from(job)
    }
}

// Job 0 tells whether it saw that job 1 ran, and the others that they ran.
#[derive(Drop)]
struct Waits {
    has_run: AtomicBool,
}

impl Task for Waits {
    type Seat = u32;

    type Piece = bool;

    ghost jobs = { λ _. 2 ^ 32 };

    ghost fits = { λ _ _. Unit {0} };

    ghost ran = { λ _ _ _ _ _. Unit {0} };

    fn run(&self, _seat: &mut u32, job: u32) -> bool {
        match job {
            0 => self.sees_job_1(),
            1 => {
                self.has_run.store(true, SeqCst);
                true
            }
            _ => true,
        }
    }
}

impl Waits {
    fn sees_job_1(&self) -> bool {
        for look in 0..1_000_000_000u32 {
            if self.has_run.load(SeqCst) {
                return true;
            }
            if look % 64 == 63 {
                yield_now();
            }
        }
        false
    }
}

// Whether so many workers give each piece in its place, and count as many jobs as there are.
fn gives_triples<R: Threads + Sync>(
    rt: &R,
    alloc: Global,
    workers: usize,
    jobs: u32,
) -> Result<bool, OutOfMemory>
    requires { (0 < workers) × (workers < 1000) }
{
    let seats = vec![in alloc; 0u32; workers]?;
    let (ends, pieces) = fan(rt, alloc, &FreeGate, seats, &Triples, jobs)?;
    let mut counted = 0u64;
    for end in &ends {
        counted = counted.wrapping_add(u64::from(*end));
    }
    let mut is_in_order = pieces.len() == jobs as usize;
    for (job, piece) in pieces.iter().enumerate() {
        is_in_order = is_in_order && *piece / 3 == job as u64 && *piece % 3 == 0;
    }
    Ok(is_in_order && counted == u64::from(jobs) && ends.len() == workers)
}

// A body that runs both workers in one thread meets every contract. It fails here, since the first worker waits at
// the gate until its looks run out, and at the next call, where job 0 waits for job 1.
fn two_workers_meet<R: Threads + Sync>(rt: &R, alloc: Global) -> Result<bool, OutOfMemory> {
    let gate = MeetGate::new(1_000_000_000);
    let seats = vec![in alloc; 0u32; 2]?;
    let (_, pieces) = fan(rt, alloc, &gate, seats, &Triples, 2)?;
    Ok(gate.met() && pieces.as_slice() == [0, 3].as_slice())
}

fn claim_passes_a_held_job<R: Threads + Sync>(rt: &R, alloc: Global) -> Result<bool, OutOfMemory> {
    let task = Waits {
        has_run: AtomicBool::new(false),
    };
    let seats = vec![in alloc; 0u32; 2]?;
    let (_, pieces) = fan(rt, alloc, &FreeGate, seats, &task, 4)?;
    Ok(pieces.as_slice() == [true; 4].as_slice())
}

fn three_draws_of_two_drawers(alloc: Global) -> Result<bool, OutOfMemory> {
    let (claims, mut drawer) = Claims::begin(alloc, 5)?;
    let first = claims.draw(&mut drawer);
    let mut other = claims.split(&mut drawer, 2);
    let second = claims.draw(&mut other);
    let third = claims.draw(&mut other);
    claims.join(&mut drawer, other);
    Ok(claims.close(drawer) == 3 && [first, second, third] == [0, 1, 2])
}

fn shares_are_even() -> bool {
    for (i, from, to) in &[(0, 0, 2), (1, 2, 4), (2, 4, 7)] {
        if share(7, 3, *i) != (*from, *to) {
            return false;
        }
    }
    true
}

fn all_give_triples<R: Threads + Sync>(rt: &R, alloc: Global) -> Result<bool, OutOfMemory> {
    Ok(
        gives_triples(rt, alloc, 1, 0)?
            && gives_triples(rt, alloc, 3, 1)?
            && gives_triples(rt, alloc, 1, 5000)?
            && gives_triples(rt, alloc, 2, 100_000)?
            && gives_triples(rt, alloc, 7, 300_001)?,
    )
}

// Races in one thread and in several, and jobs.
#[test]
fn races_and_jobs(rt: HostRuntime) -> Result<(), Fail> {
    let alloc = rt.alloc();
    let wrong = first_wrong(&[
        ("orders", settled_orders() == 24),
        ("words at the start", words_at_the_start_count()),
        ("names", three_names(&rt, alloc)?),
        ("racers", a_racer_sees_the_word_of_another(alloc)?),
        ("threads", four_threads_settle_what_one_replays(&rt, alloc)?),
        ("shares", shares_are_even()),
        ("workers", two_workers_meet(&rt, alloc)?),
        ("claims", claim_passes_a_held_job(&rt, alloc)?),
        ("draws", three_draws_of_two_drawers(alloc)?),
        ("triples", all_give_triples(&rt, alloc)?),
    ]);
    assert!(rt; wrong.is_empty(), "{wrong}");
    Ok(())
}
