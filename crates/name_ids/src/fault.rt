use mo_types::OutOfMemory;

/// Why names get no numbers.
#[derive(Clone, Copy, Debug, PartialEq, Eq)]
pub enum GatherFault {
    /// There are 2^24 names or more.
    Names,
    OutOfMemory,
}

impl From<OutOfMemory> for GatherFault {
    ghost use Rattle.std.specs.Prelude.{◌≡◌};
    ghost use Rattle.name_ids.specs.declared.fault.GatherFault.TheVariants as fault;

    ghost from_gives = { λ _ e. e ≡ fault.OutOfMemory };

    fn from(_e: OutOfMemory) -> GatherFault {
        GatherFault::OutOfMemory
    }
}
