use mo_types::{OutOfMemory, Refusal};

/// Why files aren't loaded.
#[derive(Debug, PartialEq, Eq, Drop)]
pub enum LoadFault {
    /// A file that is to be loaded breaks a rule of its format, has a feature that the linker doesn't have, or reaches
    /// a limit; or the files have too many names.
    Refused(Refusal),
    OutOfMemory,
}

impl From<OutOfMemory> for LoadFault {
    ghost use Rattle.std.specs.Prelude.{◌≡◌};
    ghost use Rattle.input_files.specs.declared.fault.LoadFault.TheVariants as fault;

    ghost from_gives = { λ _ e. e ≡ fault.OutOfMemory };

    fn from(_e: OutOfMemory) -> LoadFault {
        LoadFault::OutOfMemory
    }
}
