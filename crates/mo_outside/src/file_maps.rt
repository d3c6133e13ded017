ghost use Rattle.std.specs.Prelude.{◌≡◌, ◌↔◌, IsErrOf, IsTrue, OnOk, OnErr, ◌≢◌, ◌≤◌, ◌^◌, [], AllPairs, IfOk, IfErr, length, if◌then◌else◌, Some, false};
ghost use Rattle.std.specs.Option.{option_copied};
ghost use Rattle.mo_outside.specs.Answers.{IsAnswer, answer_of};
ghost use Rattle.mo_outside.specs.Calls.{is_failing, counted};
ghost use Rattle.mo_outside.specs.Files.{Fetches, file_at, fetched};
ghost use Rattle.mo_outside.specs.Log.{Logs};
ghost use Rattle.mo_outside.specs.Memory.{files_of, IsFilesOf, MemoryFetch, SureFetch};
ghost use Rattle.mo_outside.specs.Tells.{Tells};

use crate::asked::AskedPaths;
use crate::calls::{CallCount, CallList};
use crate::traits::{FetchFault, Files};
use mo_types::{Bytes, Items};
use std::alloc::Global;
use std::marker::Model;

/// Files: paths with their bytes.
pub type FileList = Items<(Bytes, Bytes)>;

// The most bytes that are fetched of one file.
const FETCH_LIMIT: usize = 1 << 30;

// The bytes of the first pair whose path it is. A list that is handed in can be searched without memory
// only from end to end.
fn find<'a>(pairs: &'a [(Bytes, Bytes)], path: &[u8]) -> Option<&'a [u8]>
    ensures { option_copied result ≡ file_at (files_of pairs.now) path.now }
{
    for (name, bytes) in pairs {
        if path == name.as_slice() {
            return Some(bytes.as_slice());
        }
    }
    None
}

// Fetches the file, or fails where memory is refused.
fn fetch_from(pairs: &[(Bytes, Bytes)], path: &[u8], into: &mut Vec<u8>) -> Result<bool, FetchFault>
    requires { into.old.items ≡ [] }
    ensures answer { IfOk result (λ there. fetched (files_of pairs.now) path.now ≡ (if there then Some into.new.items else None)) }
    ensures gives { IsAnswer (files_of pairs.now) path.now (answer_of result into.new.items) }
    ensures absent { result ≡ Ok false → into.new.items ≡ [] }
    ensures size { length into.new.items ≤ 2 ^ 30 }
    ensures err { IfErr result (λ fault. (fault ≡ FetchFault.Memory) × (into.new.items ≡ [])) }
{
    let Some(bytes) = find(pairs, path) else {
        return Ok(false);
    };
    let first = &bytes[..bytes.len().min(FETCH_LIMIT)];
    match into.extend_from_slice(first) {
        Ok(()) => Ok(true),
        Err(_) => Err(FetchFault::Memory),
    }
}

/// Files in memory, which can always be read.
#[derive(Drop)]
pub struct SureFiles {
    pairs: FileList,
    asked: AskedPaths,
}

impl Model for SureFiles {
    ghost use Rattle.mo_outside.specs.Memory.{SureFileSet};

    ghost Value = { SureFileSet };

    ghost view = { λ files. record { pairs = files.pairs; asked = files.asked } };
}

impl SureFiles {
    /// The files of the pairs, which takes no memory. Their paths are distinct.
    pub fn new(pairs: FileList) -> SureFiles
        requires { AllPairs (λ one other. one.0 ≢ other.0) pairs }
        ensures holds { IsFilesOf pairs (files_of pairs) }
        ensures starts { result ≡ record { pairs = pairs; asked = Some [] } }
    {
        SureFiles {
            pairs,
            asked: AskedPaths::new(),
        }
    }
}

impl Files for SureFiles {
    ghost holds = { λ files. Some (files_of files.pairs) };

    ghost asked = { λ files. files.asked };

    ghost answers = { λ old path answer new. SureFetch path answer old new };

    ghost faults = { λ _. 0 };

    fn fetch(
        &mut self,
        alloc: Global,
        path: &[u8],
        into: &mut Vec<u8>,
    ) -> Result<bool, FetchFault> {
        self.asked.add(alloc, path);
        fetch_from(self.pairs.as_slice(), path, into)
    }
}

/// Files in memory, where some calls fail: those with the numbers that are to fail.
#[derive(Drop)]
pub struct MemFiles {
    pairs: FileList,
    asked: AskedPaths,
    calls: CallCount,
}

impl Model for MemFiles {
    ghost use Rattle.mo_outside.specs.Memory.{MemoryFiles};

    ghost Value = { MemoryFiles };

    ghost view = { λ files. record { pairs = files.pairs; asked = files.asked; calls = files.calls } };
}

impl MemFiles {
    /// The files of the pairs, which takes no memory. Their paths are distinct. The calls on it that are
    /// to fail are given by their numbers, counted from 1.
    pub fn new(pairs: FileList, failing: CallList) -> MemFiles
        requires { AllPairs (λ one other. one.0 ≢ other.0) pairs }
        ensures holds { IsFilesOf pairs (files_of pairs) }
        ensures starts { result ≡ record { pairs = pairs; asked = Some []; calls = record { failing = failing; made = 0; faults = 0 } } }
    {
        MemFiles {
            pairs,
            asked: AskedPaths::new(),
            calls: CallCount::new(failing),
        }
    }

    /// How many calls failed.
    pub fn fault_count(&self) -> u64
        ensures { result ≡ self.now.calls.faults }
    {
        self.calls.faults()
    }
}

impl Files for MemFiles {
    ghost holds = { λ files. Some (files_of files.pairs) };

    ghost asked = { λ files. files.asked };

    ghost answers = { λ old path answer new. MemoryFetch path answer old new };

    ghost faults = { λ files. files.calls.faults };

    fn fetch(&mut self, alloc: Global, path: &[u8], into: &mut Vec<u8>) -> Result<bool, FetchFault>
        requires { into.old.items ≡ [] }
        ensures failed { IsErrOf result FetchFault.Failed ↔ IsTrue (is_failing self.old.calls) }
        ensures answer { IfOk result (λ there. Fetches (Some (files_of self.old.pairs)) path.now there into.new.items) }
        ensures absent { result ≡ Ok false → into.new.items ≡ [] }
        ensures size { length into.new.items ≤ 2 ^ 30 }
        ensures err { OnErr result (into.new.items ≡ []) }
        ensures pairs { self.new.pairs ≡ self.old.pairs }
        ensures asked { Tells (Logs path.now) self.old.asked self.new.asked }
        ensures calls { self.new.calls ≡ counted (is_failing self.old.calls) self.old.calls }
        ensures faults { self.old.calls.faults ≤ self.new.calls.faults }
        ensures still { OnOk result (self.new.calls.faults ≡ self.old.calls.faults) }
        ensures refused { IsErrOf result FetchFault.Memory → self.new.calls.faults ≡ self.old.calls.faults }
    {
        self.asked.add(alloc, path);
        if self.calls.count(true).is_err() {
            return Err(FetchFault::Failed);
        }
        fetch_from(self.pairs.as_slice(), path, into)
    }
}
