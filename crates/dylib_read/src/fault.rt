ghost use Rattle.std.specs.Prelude.{◌≡◌};
ghost use Rattle.dylib_read.specs.FaultText.{rule_text};

use mo_types::{Feature, OutOfMemory, Which};
use std::alloc::{AllocError, AllocFailed};
use std::error::Error;
use std::fmt;

/// A rule that every binary dynamic library keeps (`loader.h`).
#[derive(Clone, Copy, Debug, PartialEq, Eq)]
pub enum DylibRule {
    /// The file ends before its header does.
    Header,
    /// A load command passes the commands or the file, or its size isn't a multiple of 8 from 8 on.
    Commands,
    /// The file doesn't name itself, or a command that is read is too small or has no name.
    Dylib,
    /// The trie of the exports isn't one.
    Trie,
}

impl DylibRule {
    /// The variant's name in lower case, as messages show it.
    pub fn as_str(self) -> &'static str
        ensures { result.now ≡ rule_text self }
    {
        match self {
            DylibRule::Header => "header",
            DylibRule::Commands => "commands",
            DylibRule::Dylib => "dylib",
            DylibRule::Trie => "trie",
        }
    }
}

/// Why a file isn't read as a dynamic library. A place is an offset in its bytes.
#[derive(Clone, Copy, Debug, PartialEq, Eq)]
pub enum DylibFault {
    /// A rule of the format that the file breaks.
    Malformed { place: u64, rule: DylibRule },
    /// A feature that the linker doesn't have.
    Unsupported(Feature),
    /// A quantity that reaches its limit.
    Limit(Which),
    OutOfMemory,
}

impl From<AllocError> for DylibFault {
    ghost use Rattle.dylib_read.specs.declared.fault.DylibFault.TheVariants as fault;

    ghost from_gives = { λ _ e. e ≡ fault.OutOfMemory };

    fn from(_e: AllocError) -> DylibFault {
        DylibFault::OutOfMemory
    }
}

impl From<OutOfMemory> for DylibFault {
    ghost use Rattle.dylib_read.specs.declared.fault.DylibFault.TheVariants as fault;

    ghost from_gives = { λ _ e. e ≡ fault.OutOfMemory };

    fn from(_e: OutOfMemory) -> DylibFault {
        DylibFault::OutOfMemory
    }
}

impl<T: Drop> From<AllocFailed<T>> for DylibFault {
    ghost use Rattle.dylib_read.specs.declared.fault.DylibFault.TheVariants as fault;

    ghost from_gives = { λ _ e. e ≡ fault.OutOfMemory };

    fn from(_e: AllocFailed<T>) -> DylibFault {
        DylibFault::OutOfMemory
    }
}

impl fmt::Display for DylibFault {
    ghost use Rattle.std.specs.Prelude.{Some};
    ghost use Rattle.dylib_read.specs.FaultText.{dylib_fault_text};

    ghost output = { λ fault. Some (dylib_fault_text fault) };

    fn fmt<W: fmt::Write>(&self, f: &mut fmt::Formatter<W>) -> fmt::Result {
        match self {
            DylibFault::Malformed { place, rule } => {
                let name = rule.as_str();
                write!(f, "malformed at {place}: {name}")
            }
            DylibFault::Unsupported(feature) => {
                let name = feature.as_str();
                write!(f, "unsupported: {name}")
            }
            DylibFault::Limit(which) => {
                let name = which.as_str();
                write!(f, "limit: {name}")
            }
            DylibFault::OutOfMemory => write!(f, "out of memory"),
        }
    }
}

impl Error for DylibFault {}
