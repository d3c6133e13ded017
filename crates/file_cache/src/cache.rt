//! What files answered.
ghost use Rattle.std.specs.Prelude.{◌≡◌, ◌++◌, ◌∷◌, [], None, IfOk, OnErr};
ghost use Rattle.file_cache.specs.Kept.{kept_at};

use indexmap::IndexMap;
use mo_types::{Bytes, OutOfMemory};
use std::alloc::Global;
use std::marker::Model;

/// What files answered so far: for each path the bytes of its file, or that no file has it. Contracts see the pairs in the
/// order of asking.
#[derive(Drop)]
pub struct FileCache {
    answers: IndexMap<Bytes, Option<Bytes>>,
}

impl Model for FileCache {
    ghost use Rattle.std.specs.Prelude.{List, ℕ, Option};

    ghost Value = { List (List ℕ × Option (List ℕ)) };

    ghost view = { λ cache. cache.answers.entries };
}

// A file's bytes once more, without a copy of them.
fn shared(file: &Option<Bytes>) -> Result<Option<Bytes>, OutOfMemory>
    ensures { IfOk result (λ same. same ≡ file.now) }
{
    match file {
        Some(bytes) => Ok(Some(bytes.clone()?)),
        None => Ok(None),
    }
}

impl FileCache {
    /// Nothing yet, which takes no memory.
    pub fn new(alloc: Global) -> FileCache
        ensures { result ≡ [] }
    {
        FileCache {
            answers: IndexMap::new(alloc),
        }
    }

    /// What is kept for a path.
    pub fn get(&self, path: &Bytes) -> Result<Option<Option<Bytes>>, OutOfMemory>
        ensures { IfOk result (λ kept. kept ≡ kept_at path.now self.now) }
    {
        match self.answers.get(path) {
            Some(file) => Ok(Some(shared(file)?)),
            None => Ok(None),
        }
    }

    /// Keeps an answer for a path that has none.
    #[tactic(auto, using(crate::proofs::OneLemmas::keeping))]
    pub fn keep(&mut self, path: &Bytes, file: &Option<Bytes>) -> Result<(), OutOfMemory>
        requires { kept_at path.now self.old ≡ None }
        ensures { IfOk result (λ _. self.new ≡ self.old ++ (path.now, file.now) ∷ []) }
    {
        self.answers.insert(path.clone()?, shared(file)?)?;
        Ok(())
    }
}
