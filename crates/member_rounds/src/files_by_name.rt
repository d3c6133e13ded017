//! Files by names.
ghost use Rattle.std.specs.Prelude.{◌≡◌, ℕ, List, None, Some, IfOk, IsTrue, if◌then◌else◌};
ghost use Rattle.std.specs.Str.{bytes_eq};
ghost use Rattle.member_rounds.specs.inner.Offered.{file_named};

use mo_types::{FileId, OutOfMemory};
use name_ids::Name;
use std::alloc::Global;
use std::collections::HashMap;

/// For each of some names a file. The names are parts of their files' bytes, and no copies.
#[derive(Drop)]
pub struct FilesByName<'a> {
    files: HashMap<Name<'a>, FileId>,
}

impl<'a> FilesByName<'a> {
    /// No names, without taking memory.
    pub(crate) fn new(alloc: Global) -> FilesByName<'a>
        ensures { (name : List ℕ) → file_named result name ≡ None }
    {
        FilesByName {
            files: HashMap::new(alloc),
        }
    }

    /// Whether no name has a file.
    pub(crate) fn is_empty(&self) -> bool
        ensures { IsTrue result → (name : List ℕ) → file_named self.now name ≡ None }
    {
        self.files.is_empty()
    }

    /// The file of a name. Takes no memory.
    pub(crate) fn get(&self, name: &[u8]) -> Option<FileId>
        ensures { result ≡ file_named self.now name.now }
    {
        self.files.get(&Name::new(name)).copied()
    }

    /// With a file for a name, instead of the one that it had.
    pub(crate) fn with(self, name: &'a [u8], id: FileId) -> Result<FilesByName<'a>, OutOfMemory>
        ensures { IfOk result (λ new. (other : List ℕ) → file_named new other ≡ (if bytes_eq name.now other then Some id else file_named self.entry other)) }
    {
        let FilesByName { mut files } = self;
        files.insert(Name::new(name), id)?;
        Ok(FilesByName { files })
    }
}
