//! Even shares of a number of jobs, in their order.
ghost use Rattle.std.specs.Prelude.{◌≡◌, ◌≤◌, ◌<◌, ◌+◌, ◌-◌, ℕ};
ghost use Rattle.par_work.specs.Share.{share_of, share_len};

/// The jobs of worker `i`, counted from 0: from the first number on, up to the second and without it.
#[tactic(auto, using(crate::proofs::Quotients::share_fits))]
pub fn share(jobs: u32, workers: u32, i: u32) -> (u32, u32)
    requires { i < workers }
    ensures { result ≡ share_of jobs workers i }
{
    let (jobs, workers, i) = (u64::from(jobs), u64::from(workers), u64::from(i));
    (
        (jobs * i / workers) as u32,
        (jobs * (i + 1) / workers) as u32,
    )
}

/// The shares follow each other from 0 to the number of jobs.
#[tactic(auto, using(crate::proofs::Quotients::follow))]
pub fn shares_follow(jobs: u32, workers: u32)
    requires { 0 < workers }
    ensures first { (share_of jobs workers 0).0 ≡ 0 }
    ensures next { (i : ℕ) → (share_of jobs workers i).1 ≡ (share_of jobs workers (i + 1)).0 }
    ensures rises { (i : ℕ) → (share_of jobs workers i).0 ≤ (share_of jobs workers i).1 }
    ensures last { (share_of jobs workers (workers - 1)).1 ≡ jobs }
{}

/// No share is longer than another by more than one job.
#[tactic(auto, using(crate::proofs::Quotients::even))]
pub fn shares_are_even(jobs: u32, workers: u32)
    requires { 0 < workers }
    ensures { (i other : ℕ) → share_len jobs workers i ≤ share_len jobs workers other + 1 }
{}
