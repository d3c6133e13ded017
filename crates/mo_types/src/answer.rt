ghost use Rattle.std.specs.Prelude.{◌≡◌};
ghost use Rattle.mo_types.specs.Answer.{code_of};
ghost use Rattle.mo_types.specs.declared.answer.Status.TheVariants as answer;

use crate::cause::{Feature, RangeKind, Rule, UsageRule, Which};
use crate::memory::OutOfMemory;
use crate::string::Bytes;
use std::alloc::{AllocError, AllocFailed};

/// Why a command line that is well written gets no image. A file is a path, or `path(member)` for an
/// archive's member; a place is an offset in its bytes, or in a text the number of a line or document.
#[derive(Debug, PartialEq, Eq, Drop)]
pub enum Refusal {
    /// A file that is needed isn't there.
    Missing {
        path: Bytes,
    },
    /// A file breaks a rule of its format.
    Malformed {
        file: Bytes,
        place: u64,
        rule: Rule,
    },
    /// A file has a feature that the linker doesn't have.
    Unsupported {
        file: Bytes,
        feature: Feature,
    },
    /// A quantity reaches its limit.
    Limit {
        which: Which,
    },
    /// Two files define one name.
    Duplicate {
        name: Bytes,
        first: Bytes,
        second: Bytes,
    },
    /// A name that is needed isn't defined. The file is the one that needs it, or empty.
    Undefined {
        name: Bytes,
        file: Bytes,
    },
    /// A reference to a library's symbol needs the symbol's place in the image.
    NeedsImage {
        file: Bytes,
        place: u64,
    },
    /// A value doesn't fit its field.
    Range {
        file: Bytes,
        place: u64,
        kind: RangeKind,
        value: i128,
    },
}

/// How a link ends.
#[derive(Debug, PartialEq, Eq, Drop)]
pub enum Status {
    /// The image was written.
    Done,
    /// The command line isn't well written: the least word at fault, counted from 1, or 0 for a rule on
    /// all words.
    Usage { word: u64, rule: UsageRule },
    /// A file couldn't be read.
    ReadFault { path: Bytes },
    /// The inputs have no image.
    Refused(Refusal),
    /// The image couldn't be written.
    WriteFault,
    /// Memory was asked for and refused.
    OutOfMemory,
}

impl Status {
    /// The exit status of the program.
    pub fn code(&self) -> u8
        ensures { result ≡ code_of self.now }
    {
        match self {
            Status::Done => 0,
            Status::Refused(_) => 1,
            Status::Usage { .. } => 2,
            Status::ReadFault { .. } | Status::WriteFault => 3,
            Status::OutOfMemory => 4,
        }
    }
}

impl From<OutOfMemory> for Status {
    ghost from_gives = { λ _ status. status ≡ answer.OutOfMemory };

    fn from(_e: OutOfMemory) -> Status {
        Status::OutOfMemory
    }
}

impl From<AllocError> for Status {
    ghost from_gives = { λ _ status. status ≡ answer.OutOfMemory };

    fn from(_e: AllocError) -> Status {
        Status::OutOfMemory
    }
}

impl<T: Drop> From<AllocFailed<T>> for Status {
    ghost from_gives = { λ _ status. status ≡ answer.OutOfMemory };

    fn from(_e: AllocFailed<T>) -> Status {
        Status::OutOfMemory
    }
}
