ghost use Rattle.std.specs.Prelude.{◌≡◌};

use mo_types::{OutOfMemory, Rule};
use std::alloc::{AllocError, AllocFailed};
use std::error::Error;
use std::fmt;

/// Why a text isn't read.
#[derive(Clone, Copy, Debug, PartialEq, Eq)]
pub enum YamlFault {
    /// The first line with a fault, counted from 1, and the first rule that it breaks.
    At { line: u32, rule: Rule },
    OutOfMemory,
}

impl From<OutOfMemory> for YamlFault {
    ghost use Rattle.yaml_text.specs.declared.fault.YamlFault.TheVariants as fault;

    ghost from_gives = { λ _ e. e ≡ fault.OutOfMemory };

    fn from(_e: OutOfMemory) -> YamlFault {
        YamlFault::OutOfMemory
    }
}

impl From<AllocError> for YamlFault {
    ghost use Rattle.yaml_text.specs.declared.fault.YamlFault.TheVariants as fault;

    ghost from_gives = { λ _ e. e ≡ fault.OutOfMemory };

    fn from(_e: AllocError) -> YamlFault {
        YamlFault::OutOfMemory
    }
}

impl<T: Drop> From<AllocFailed<T>> for YamlFault {
    ghost use Rattle.yaml_text.specs.declared.fault.YamlFault.TheVariants as fault;

    ghost from_gives = { λ _ e. e ≡ fault.OutOfMemory };

    fn from(_e: AllocFailed<T>) -> YamlFault {
        YamlFault::OutOfMemory
    }
}

impl fmt::Display for YamlFault {
    ghost use Rattle.std.specs.Prelude.{Some};
    ghost use Rattle.yaml_text.specs.FaultText.{yaml_fault_text};

    ghost output = { λ fault. Some (yaml_fault_text fault) };

    fn fmt<W: fmt::Write>(&self, f: &mut fmt::Formatter<W>) -> fmt::Result {
        match self {
            YamlFault::At { line, rule } => {
                let name = rule.as_str();
                write!(f, "line {line}: {name}")
            }
            YamlFault::OutOfMemory => write!(f, "out of memory"),
        }
    }
}

impl Error for YamlFault {}
