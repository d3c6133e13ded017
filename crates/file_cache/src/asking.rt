//! What stands under a path.
ghost use Rattle.std.specs.Prelude.{◌≡◌, ◌<◌, All, None};
ghost use Rattle.mo_outside.specs.Answers.{answer_of};
ghost use Rattle.file_cache.specs.Kept.{kept_at, seen};
ghost use Rattle.file_cache.specs.Program.{file_at};
ghost use Rattle.file_cache.specs.Runs.{IsUnread, Runs, Says, unread};
ghost use Rattle.file_cache.specs.declared.asking.AskFault.TheVariants as fault;

use crate::cache::FileCache;
use mo_outside::{FetchFault, Files};
use mo_types::{Bytes, OutOfMemory};
use std::alloc::{AllocError, AllocFailed, Global};

/// Why it isn't known what stands under a path.
#[derive(Clone, Copy, Debug, PartialEq, Eq)]
pub enum AskFault {
    /// The file couldn't be read.
    Unread,
    /// Memory was asked for and refused.
    OutOfMemory,
}

impl From<OutOfMemory> for AskFault {
    ghost from_gives = { λ _ e. e ≡ fault.OutOfMemory };

    fn from(_e: OutOfMemory) -> AskFault {
        AskFault::OutOfMemory
    }
}

impl From<AllocError> for AskFault {
    ghost from_gives = { λ _ e. e ≡ fault.OutOfMemory };

    fn from(_e: AllocError) -> AskFault {
        AskFault::OutOfMemory
    }
}

impl<T: Drop> From<AllocFailed<T>> for AskFault {
    ghost from_gives = { λ _ e. e ≡ fault.OutOfMemory };

    fn from(_e: AllocFailed<T>) -> AskFault {
        AskFault::OutOfMemory
    }
}

// What a fetch says.
fn said(fetched: Result<bool, FetchFault>, bytes: Vec<u8>) -> Result<Option<Bytes>, AskFault>
    ensures says { Says result (answer_of fetched bytes.items) }
    ensures bytes { All (λ byte. byte < 256) bytes.items }
{
    match fetched {
        Ok(true) => Ok(Some(Bytes::from_vec(bytes)?)),
        Ok(false) => Ok(None),
        Err(FetchFault::Failed) => Err(AskFault::Unread),
        Err(FetchFault::Memory) => Err(AskFault::OutOfMemory),
    }
}

// Asks for a path for which nothing is kept.
fn ask_files<F: Files>(
    alloc: Global,
    files: &mut F,
    cache: &mut FileCache,
    path: &Bytes,
) -> Result<Option<Bytes>, AskFault>
    requires { kept_at path.now cache.old ≡ None }
    ensures { Runs F.answers IsUnread (file_at unread path.now) result
        (seen F.holds F.asked F.faults files.old cache.old) (seen F.holds F.asked F.faults files.new cache.new) }
{
    let mut bytes = Vec::new(alloc);
    let fetched = files.fetch(alloc, path.as_slice(), &mut bytes);
    let file = said(fetched, bytes)?;
    cache.keep(path, &file)?;
    Ok(file)
}

/// The bytes of the file at a path, or its first 2^30 bytes where it has more, or that no file has the path. The files are
/// asked where nothing is kept for it.
pub fn ask<F: Files>(
    alloc: Global,
    files: &mut F,
    cache: &mut FileCache,
    path: &Bytes,
) -> Result<Option<Bytes>, AskFault>
    ensures { Runs F.answers IsUnread (file_at unread path.now) result
        (seen F.holds F.asked F.faults files.old cache.old) (seen F.holds F.asked F.faults files.new cache.new) }
{
    match cache.get(path)? {
        Some(file) => Ok(file),
        None => ask_files(alloc, files, cache, path),
    }
}
