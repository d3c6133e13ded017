ghost use Rattle.std.specs.Prelude.{◌≡◌};
ghost use Rattle.input_files.specs.Files.{archive_in};

use crate::input::Input;
use mo_ar::Archive;

/// An input, and the archive that it is, if it is one.
#[derive(Debug, Drop)]
pub struct Source {
    pub input: Input,
    pub archive: Option<Archive>,
    ghost opened: { archive ≡ archive_in input },
}
