//! Jobs that are shared out among workers in threads of their own.
//!
//! This crate shares jobs out among workers in threads of their own. `fan` runs each job once, at one seat: the runs
//! of all seats together are, in some order, the pieces with the numbers of their jobs, each seat ends where its own
//! runs led it (`fanned`), piece j is one that job j gave at a seat that fits (`gives`), and the seats still fit
//! (`fits`). Workers draw jobs from one counter, `Claims`: `draw` (one fetch-add) answers none of the drawer's
//! earlier numbers, `split` and `join` move passes and draws exactly, and `close` tells that the numbers below its
//! answer were drawn, each once. After `begin` no call waits, takes memory or refuses. `share` gives even shares,
//! which follow each other from 0 to the number of jobs and differ by one job at most. No lock is taken, no worker
//! can panic, and a gate's pass always returns, so `fan` does. Nothing is claimed of speed, or that two workers ran
//! at once.
//!
//! What became of the jobs is said in `specs/Fan.antt`, and even shares in `specs/Share.antt`.
//!
//! Refused are a body that runs a job twice, one that leaves out the last job, and one that answers pieces in the
//! order in which they end.
#![tactic(auto)]

mod blocks;
mod claims;
mod crew;
mod fanning;
mod order;
mod rule;
mod shares;
mod task;
mod worker;

pub use claims::{Claims, Drawer};
pub use fanning::fan;
pub use shares::{share, shares_are_even, shares_follow};
pub use task::Task;
