ghost use Rattle.std.specs.Prelude.{◌≡◌};
ghost use Rattle.mo_outside.specs.Gates.{has_mark, has_met};

use crate::traits::Gate;
use std::hint::spin_loop;
use std::marker::Model;
use std::sync::atomic::AtomicU64;
use std::sync::atomic::Ordering::SeqCst;
use std::thread::yield_now;

// The marks of the workers 0 and 1, and that of one whose turns ran out.
const FIRST: u64 = 1;

const SECOND: u64 = 2;

const RAN_OUT: u64 = 4;

// So many looks are made before other threads get the processor.
const LOOKS: u64 = 64;

/// A gate that holds each of the workers 0 and 1 before its first job until the other has come to the gate
/// too, or until it has looked for the other so many times. It lets all others through, takes no memory, and
/// always lets go: the looks are counted, and there is no lock. Contracts see the number of looks.
#[derive(Drop)]
pub struct MeetGate {
    turns: u64,
    // marks that are set and never taken away, so that a worker's turns stay run out
    marks: AtomicU64,
}

impl Model for MeetGate {
    ghost use Rattle.std.specs.Prelude.{ℕ};

    ghost Value = { ℕ };

    ghost view = { λ g. g.turns };
}

impl MeetGate {
    /// A gate to which no worker has come, with so many looks for each of the two.
    pub fn new(turns: u64) -> MeetGate
        ensures { result ≡ turns }
    {
        MeetGate {
            turns,
            marks: AtomicU64::new(0),
        }
    }

    /// Whether both workers came and the turns of neither ran out. Once they ran out for one, it stays false.
    pub fn met(&self) -> bool {
        has_met(self.marks.load(SeqCst))
    }

    // Looks for a mark at most as many times as the gate has turns.
    fn finds(&self, mark: u64) -> bool {
        for turn in 0..self.turns {
            if has_mark(self.marks.load(SeqCst), mark) {
                return true;
            }
            wait_a_little(turn);
        }
        false
    }
}

impl Gate for MeetGate {
    fn pass(&self, worker: u32) {
        let (mine, theirs) = match worker {
            0 => (FIRST, SECOND),
            1 => (SECOND, FIRST),
            _ => return,
        };
        let before = self.marks.fetch_or(mine, SeqCst);
        if !has_mark(before, mine) && !self.finds(theirs) {
            self.marks.fetch_or(RAN_OUT, SeqCst);
        }
    }
}

// Whether the mark is among these.
fn has_mark(marks: u64, mark: u64) -> bool
    ensures { result ≡ has_mark marks mark }
{
    marks & mark != 0
}

// Whether both workers have come, and the turns of neither ran out.
fn has_met(marks: u64) -> bool
    ensures { result ≡ has_met marks }
{
    has_mark(marks, FIRST) && has_mark(marks, SECOND) && !has_mark(marks, RAN_OUT)
}

fn wait_a_little(turn: u64) {
    if turn % LOOKS == LOOKS - 1 {
        yield_now();
    } else {
        spin_loop();
    }
}
