ghost use Rattle.std.specs.Prelude.{◌≡◌, ⊤, None};

use mo_outside::{FetchFault, Files};
use std::alloc::Global;
use std::io::{self, ErrorKind};
use std::{fs, rt};

// The most bytes that are fetched of one file.
const FETCH_LIMIT: usize = 1 << 30;

/// The files in the folder of a case, by their paths from there.
#[derive(Drop)]
pub struct CaseFiles<'a, R> {
    rt: &'a R,
    folder: &'a str,
    faults: u64,
}

impl<'a, R: rt::Files + AllocGlobal> CaseFiles<'a, R> {
    /// The files of a folder; no fetch of them has failed.
    pub fn new(rt: &'a R, folder: &'a str) -> CaseFiles<'a, R>
        ensures faults { result.faults ≡ 0 }
    {
        CaseFiles {
            rt,
            folder,
            faults: 0,
        }
    }

    fn read_stored(&self, path: &str) -> io::Result<Vec<u8>> {
        let folder = self.folder;
        fs::read(self.rt, format!(in self.rt.alloc(); "{folder}/{path}")?)
    }

    // The bytes of the files that a list names, each as often as it says, one after the other.
    fn join(&self, list: &str) -> io::Result<Vec<u8>> {
        let mut bytes = Vec::new(self.rt.alloc());
        for row in list.lines() {
            let (count, path) = row.split_once(' ').unwrap_or(("", row));
            let part = self.read_stored(path)?;
            for _ in 0..count.parse::<u64>().unwrap_or(1) {
                bytes.extend_from_slice(part.as_slice())?;
            }
        }
        Ok(bytes)
    }

    // A large file is stored as the list of its parts.
    fn read_parts(&self, path: &str) -> io::Result<Option<Vec<u8>>> {
        let list = format!(in self.rt.alloc(); "{path}.parts")?;
        match self.read_stored(list.as_str()) {
            Ok(rows) => Ok(Some(self.join(str::from_utf8(rows.as_slice()).unwrap_or(""))?)),
            Err(e) if e.kind() == ErrorKind::NotFound => Ok(None),
            Err(e) => Err(e),
        }
    }

    // The whole file, or `None` where there is none.
    fn read(&self, path: &[u8]) -> io::Result<Option<Vec<u8>>> {
        let Ok(path) = str::from_utf8(path) else {
            return Ok(None);
        };
        match self.read_stored(path) {
            Ok(bytes) => Ok(Some(bytes)),
            Err(e) if e.kind() == ErrorKind::NotFound => self.read_parts(path),
            Err(e) => Err(e),
        }
    }
}

impl<R: rt::Files + AllocGlobal> Files for CaseFiles<'_, R> {
    ghost holds = { λ _. None };

    ghost asked = { λ _. None };

    ghost answers = { λ _ _ _ _. ⊤ };

    ghost faults = { λ files. files.faults };

    fn fetch(
        &mut self,
        _alloc: Global,
        path: &[u8],
        into: &mut Vec<u8>,
    ) -> Result<bool, FetchFault> {
        let bytes = match self.read(path) {
            Ok(Some(bytes)) => bytes,
            Ok(None) => return Ok(false),
            Err(e) if e.kind() == ErrorKind::OutOfMemory => return Err(FetchFault::Memory),
            Err(_) => {
                self.faults = self.faults.saturating_add(1);
                return Err(FetchFault::Failed);
            }
        };
        match into.extend_from_slice(&bytes[..bytes.len().min(FETCH_LIMIT)]) {
            Ok(()) => Ok(true),
            Err(_) => Err(FetchFault::Memory),
        }
    }
}
