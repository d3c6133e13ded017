ghost use Rattle.std.specs.Prelude.{◌+◌, ◌^◌, ◌<◌};

/// Workers by their numbers: so many of them, from `first` on.
#[derive(Clone, Copy)]
pub(crate) struct WorkerRange {
    pub(crate) first: u32,
    pub(crate) count: u32,
    ghost numbered: { first + count < 2 ^ 32 },
}
