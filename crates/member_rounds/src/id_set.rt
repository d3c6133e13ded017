//! Sets of files.
ghost use Rattle.std.specs.Prelude.{◌≡◌, ℕ, true, false, List, [], IfOk, if◌then◌else◌};
ghost use Rattle.std.specs.List.Sorted.{IsStrictlySortedBy};
ghost use Rattle.mo_types.specs.Keys.{compare_files};
ghost use Rattle.mo_types.specs.declared.key.FileId.{FileId};
ghost use Rattle.member_rounds.specs.Growth.{is_in, same_file};

use mo_types::{FileId, OutOfMemory};
use std::alloc::Global;
use std::collections::{BTreeSet, HashSet};
use std::marker::Model;

/// Some files, each once, which contracts see as the list of their ids.
#[derive(Drop)]
pub struct IdSet {
    ids: HashSet<FileId>,
}

impl Model for IdSet {
    ghost use Rattle.std.specs.Prelude.{List};
    ghost use Rattle.mo_types.specs.declared.key.FileId.{FileId};

    ghost Value = { List FileId };

    ghost view = { λ set. set.ids.keys };
}

impl IdSet {
    /// No files, without taking memory.
    pub(crate) fn new(alloc: Global) -> IdSet
        ensures { result ≡ [] }
    {
        IdSet {
            ids: HashSet::new(alloc),
        }
    }

    /// Whether a file is there. Takes no memory.
    pub(crate) fn contains(&self, id: FileId) -> bool
        ensures { result ≡ is_in self.now id }
    {
        self.ids.contains(&id)
    }

    /// With a file more.
    pub(crate) fn with(self, id: FileId) -> Result<IdSet, OutOfMemory>
        ensures { IfOk result (λ new. (other : FileId) → is_in new other ≡ (if same_file id other then true else is_in self other)) }
    {
        let IdSet { mut ids } = self;
        ids.insert(id)?;
        Ok(IdSet { ids })
    }

    /// Without a file.
    pub(crate) fn without(self, id: FileId) -> IdSet
        ensures { (other : FileId) → is_in result other ≡ (if same_file id other then false else is_in self other) }
    {
        let IdSet { mut ids } = self;
        ids.remove(&id);
        IdSet { ids }
    }
}

/// Some files by rising id, which contracts see as the list of their ids.
#[derive(Drop)]
pub struct IdOrder {
    ids: BTreeSet<FileId>,
}

impl Model for IdOrder {
    ghost use Rattle.std.specs.Prelude.{List};
    ghost use Rattle.mo_types.specs.declared.key.FileId.{FileId};

    ghost Value = { List FileId };

    ghost view = { λ set. set.ids.keys };
}

impl IdOrder {
    /// No files, without taking memory.
    pub(crate) fn new(alloc: Global) -> IdOrder
        ensures { result ≡ [] }
    {
        IdOrder {
            ids: BTreeSet::new(alloc),
        }
    }

    /// With a file more.
    pub(crate) fn with(self, id: FileId) -> Result<IdOrder, OutOfMemory>
        ensures { IfOk result (λ new. (other : FileId) → is_in new other ≡ (if same_file id other then true else is_in self other)) }
    {
        let IdOrder { mut ids } = self;
        ids.insert(id)?;
        Ok(IdOrder { ids })
    }

    /// The files as a list.
    pub(crate) fn into_vec(self, alloc: Global) -> Result<Vec<FileId>, OutOfMemory>
        ensures list { IfOk result (λ list. list.items ≡ self) }
        ensures rises { IsStrictlySortedBy compare_files self }
    {
        Ok(self.ids.iter().copied().collect(alloc)?)
    }
}
