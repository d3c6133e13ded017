ghost use Rattle.std.specs.Prelude.{◌≡◌, ◌↔◌, IsTrue};
ghost use Rattle.unwind_out.specs.Table.{AreApart};

use mo_types::{Items, OutOfMemory};
use std::alloc::{AllocError, AllocFailed};

/// How the frame of a function is unwound. Offsets are image offsets: addresses less that of the image's header.
#[derive(Clone, Copy, Debug, PartialEq, Eq)]
pub struct UnwindRow {
    /// Where the function begins.
    pub function: u32,
    /// Where its range ends.
    pub end: u32,
    /// Its encoding (`compact_unwind_encoding.h`), of which the bits for the personality and the
    /// language-specific data don't count.
    pub encoding: u32,
    /// The slot that holds the address of its personality, or 0 where it has none.
    pub personality: u32,
    /// Its language-specific data, or 0 where it has none.
    pub lsda: u32,
}

/// The functions of an image, by rising offset.
pub type UnwindRows = Items<UnwindRow>;

/// Whether each function ends after it begins, and not after the next one begins.
#[tactic(auto, using(crate::proofs::Apart::telling_apart))]
pub fn are_apart(rows: &[UnwindRow]) -> bool
    ensures { IsTrue result ↔ AreApart rows.now }
{
    let mut place = 0;
    for row in rows {
        if row.function < place {
            return false;
        }
        if row.end <= row.function {
            return false;
        }
        place = row.end;
    }
    true
}

/// Why a section of compact unwind isn't written.
#[derive(Clone, Copy, Debug, PartialEq, Eq)]
pub enum UnwindLimit {
    /// There are four personalities or more: an encoding has two bits for their number, and 0 is for none.
    Personalities,
    OutOfMemory,
}

impl From<AllocError> for UnwindLimit {
    ghost use Rattle.unwind_out.specs.declared.row.UnwindLimit.TheVariants as limit;

    ghost from_gives = { λ _ e. e ≡ limit.OutOfMemory };

    fn from(_e: AllocError) -> UnwindLimit {
        UnwindLimit::OutOfMemory
    }
}

impl From<OutOfMemory> for UnwindLimit {
    ghost use Rattle.unwind_out.specs.declared.row.UnwindLimit.TheVariants as limit;

    ghost from_gives = { λ _ e. e ≡ limit.OutOfMemory };

    fn from(_e: OutOfMemory) -> UnwindLimit {
        UnwindLimit::OutOfMemory
    }
}

impl<T: Drop> From<AllocFailed<T>> for UnwindLimit {
    ghost use Rattle.unwind_out.specs.declared.row.UnwindLimit.TheVariants as limit;

    ghost from_gives = { λ _ e. e ≡ limit.OutOfMemory };

    fn from(_e: AllocFailed<T>) -> UnwindLimit {
        UnwindLimit::OutOfMemory
    }
}
