//! The blocks in which jobs are drawn: one by one where they are few, and many at once where a draw for each
//! would cost too much.
ghost use Rattle.std.specs.Prelude.{◌≡◌, ℕ, ◌+◌, ◌*◌, ◌-◌, ◌<◌, ◌≤◌, min};
ghost use Rattle.par_work.specs.inner.Blocks.{AreBlocks};

// The most jobs of a block, so that a slow job holds up few others.
const MOST_JOBS: u32 = 64;

// There are at least so many blocks before one has two jobs.
const FEW_BLOCKS: u32 = 4096;

/// Jobs in blocks of one size, of which the last may be shorter.
#[derive(Clone, Copy)]
pub(crate) struct Blocks {
    pub(crate) jobs: u32,
    pub(crate) size: u32,
    pub(crate) count: u32,
}

impl Blocks {
    /// The blocks of so many jobs.
    pub(crate) fn of(jobs: u32) -> Blocks
        ensures jobs { result.jobs ≡ jobs }
        ensures blocks { AreBlocks result }
    {
        let size = (jobs / FEW_BLOCKS).clamp(1, MOST_JOBS);
        Blocks {
            jobs,
            size,
            count: jobs.div_ceil(size),
        }
    }

    /// The first job of a block, and the one behind its last.
    pub(crate) fn range(&self, block: u32) -> (u32, u32)
        requires blocks { AreBlocks self.now }
        requires block { block < self.now.count }
        ensures from { result.0 ≡ block * self.now.size }
        ensures to { result.1 ≡ block * self.now.size + min self.now.size (self.now.jobs - block * self.now.size) }
        ensures within { (result.0 ≤ result.1) × (result.1 ≤ self.now.jobs) }
    {
        let from = block * self.size;
        (from, from + self.size.min(self.jobs - from))
    }
}
