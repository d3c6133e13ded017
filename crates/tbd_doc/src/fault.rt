ghost use Rattle.std.specs.Prelude.{◌≡◌};

use mo_types::OutOfMemory;
use std::alloc::{AllocError, AllocFailed};
use std::error::Error;
use std::fmt;

/// Why the documents of a text are no stub library for arm64 on macOS.
#[derive(Clone, Copy, Debug, PartialEq, Eq)]
pub enum StubFault {
    /// A document isn't of TBD version 4.
    NotTbd4,
    /// The first document isn't for arm64 on macOS.
    NoTarget,
    /// A document, by its number from 0, has no install name, or a key with a value of another form than the key's.
    BadKey { doc: u32 },
    OutOfMemory,
}

impl From<OutOfMemory> for StubFault {
    ghost use Rattle.tbd_doc.specs.declared.fault.StubFault.TheVariants as fault;

    ghost from_gives = { λ _ e. e ≡ fault.OutOfMemory };

    fn from(_e: OutOfMemory) -> StubFault {
        StubFault::OutOfMemory
    }
}

impl From<AllocError> for StubFault {
    ghost use Rattle.tbd_doc.specs.declared.fault.StubFault.TheVariants as fault;

    ghost from_gives = { λ _ e. e ≡ fault.OutOfMemory };

    fn from(_e: AllocError) -> StubFault {
        StubFault::OutOfMemory
    }
}

impl<T: Drop> From<AllocFailed<T>> for StubFault {
    ghost use Rattle.tbd_doc.specs.declared.fault.StubFault.TheVariants as fault;

    ghost from_gives = { λ _ e. e ≡ fault.OutOfMemory };

    fn from(_e: AllocFailed<T>) -> StubFault {
        StubFault::OutOfMemory
    }
}

impl fmt::Display for StubFault {
    ghost use Rattle.std.specs.Prelude.{Some};
    ghost use Rattle.tbd_doc.specs.FaultText.{stub_fault_text};

    ghost output = { λ fault. Some (stub_fault_text fault) };

    fn fmt<W: fmt::Write>(&self, f: &mut fmt::Formatter<W>) -> fmt::Result {
        match self {
            StubFault::NotTbd4 => f.write_str("unsupported: tbd"),
            StubFault::NoTarget => f.write_str("malformed at 0: notarget"),
            StubFault::BadKey { doc } => write!(f, "malformed at {doc}: badkey"),
            StubFault::OutOfMemory => f.write_str("out of memory"),
        }
    }
}

impl Error for StubFault {}
