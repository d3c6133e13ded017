ghost use Rattle.std.specs.Prelude.{◌≡◌};

use mo_types::OutOfMemory;
use std::alloc::{AllocError, AllocFailed};
use std::error::Error;
use std::fmt;

/// Why the exports of a trie aren't read.
#[derive(Clone, Copy, Debug, PartialEq, Eq)]
pub enum TrieFault {
    /// The walk of a name comes to no node or to one that isn't behind the last, or two edges lead to one node.
    Broken,
    OutOfMemory,
}

impl From<AllocError> for TrieFault {
    ghost use Rattle.dylib_read.specs.declared.trie_fault.TrieFault.TheVariants as fault;

    ghost from_gives = { λ _ e. e ≡ fault.OutOfMemory };

    fn from(_e: AllocError) -> TrieFault {
        TrieFault::OutOfMemory
    }
}

impl From<OutOfMemory> for TrieFault {
    ghost use Rattle.dylib_read.specs.declared.trie_fault.TrieFault.TheVariants as fault;

    ghost from_gives = { λ _ e. e ≡ fault.OutOfMemory };

    fn from(_e: OutOfMemory) -> TrieFault {
        TrieFault::OutOfMemory
    }
}

impl<T: Drop> From<AllocFailed<T>> for TrieFault {
    ghost use Rattle.dylib_read.specs.declared.trie_fault.TrieFault.TheVariants as fault;

    ghost from_gives = { λ _ e. e ≡ fault.OutOfMemory };

    fn from(_e: AllocFailed<T>) -> TrieFault {
        TrieFault::OutOfMemory
    }
}

impl fmt::Display for TrieFault {
    ghost use Rattle.std.specs.Prelude.{Some};
    ghost use Rattle.dylib_read.specs.FaultText.{trie_fault_text};

    ghost output = { λ fault. Some (trie_fault_text fault) };

    fn fmt<W: fmt::Write>(&self, f: &mut fmt::Formatter<W>) -> fmt::Result {
        match self {
            TrieFault::Broken => write!(f, "broken trie"),
            TrieFault::OutOfMemory => write!(f, "out of memory"),
        }
    }
}

impl Error for TrieFault {}
