//! A gate at which two workers meet before each of their jobs.
use mo_outside::Gate;
use std::hint::spin_loop;
use std::sync::atomic::AtomicU64;
use std::sync::atomic::Ordering::SeqCst;
use std::thread::yield_now;

// So many looks are made before other threads get the processor.
const LOOKS: u64 = 64;

/// Holds each of the workers 0 and 1 before each of its jobs until the other has come as often, or until it has looked for
/// the other so many times.
#[derive(Drop)]
pub struct EachGate {
    turns: u64,
    first: AtomicU64,
    second: AtomicU64,
    ran_out: AtomicU64,
}

impl EachGate {
    pub fn new(turns: u64) -> EachGate {
        EachGate {
            turns,
            first: AtomicU64::new(0),
            second: AtomicU64::new(0),
            ran_out: AtomicU64::new(0),
        }
    }

    /// How often the two met, where no one looked in vain and both came as often.
    pub fn meetings(&self) -> Option<u64> {
        let first = self.first.load(SeqCst);
        if first == self.second.load(SeqCst) && self.ran_out.load(SeqCst) == 0 {
            Some(first)
        } else {
            None
        }
    }

    // Whether a worker comes so often, while it is looked for.
    fn finds(&self, comes: &AtomicU64, count: u64) -> bool {
        for turn in 0..self.turns {
            if comes.load(SeqCst) >= count {
                return true;
            }
            if turn % LOOKS == LOOKS - 1 {
                yield_now();
            } else {
                spin_loop();
            }
        }
        false
    }
}

impl Gate for EachGate {
    fn pass(&self, worker: u32) {
        let (mine, theirs) = match worker {
            0 => (&self.first, &self.second),
            1 => (&self.second, &self.first),
            _ => return,
        };
        let before = mine.fetch_add(1, SeqCst);
        if !self.finds(theirs, before.saturating_add(1)) {
            self.ran_out.fetch_add(1, SeqCst);
        }
    }
}
