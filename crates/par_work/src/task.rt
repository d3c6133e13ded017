//! What jobs are.
ghost use Rattle.std.specs.Prelude.{ℕ, ◌<◌};

/// Jobs, numbered from 0, that any worker may run at its seat: what the worker carries from job to job.
pub trait Task {
    /// What a worker carries from job to job.
    type Seat: Send + Drop;
    /// What a job gives.
    type Piece: Send + Drop;

    // how many jobs there are
    ghost jobs: { Self → ℕ };

    // what a seat must be for a job to run there, and stays
    ghost fits: { Self → Self.Seat → Type 0 };

    // a seat, a job, its piece, and the seat afterwards
    ghost ran: { Self → Self.Seat → ℕ → Self.Piece → Self.Seat → Type 0 };

    /// Runs a job at a seat.
    fn run(&self, seat: &mut Self::Seat, job: u32) -> Self::Piece
        requires job { job < jobs self.now }
        requires seat { fits self.now seat.old }
        ensures seat { fits self.now seat.new }
        ensures ran { ran self.now seat.old job result seat.new };
}
