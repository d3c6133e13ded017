//! The files of the first round: the objects, which were read, and the members of forced archives.
ghost use Rattle.std.specs.Prelude.{◌≡◌, ◌==◌, filter, not, All, IfOk};
ghost use Rattle.mo_types.specs.Gives.{Gives};
ghost use Rattle.mo_types.specs.Loaded.{IsWholeFile};
ghost use Rattle.input_files.specs.Files as files;
ghost use Rattle.input_files.specs.Files.{IsLoadFault};
ghost use Rattle.input_files.specs.Sources.{AreInOrder, AreObjects, inputs_of};
ghost use Rattle.member_rounds.specs.inner.Working.{read_each};

use crate::in_order::{in_order, with_files};
use crate::round_reading::read_all;
use input_files::{LoadFault, Source};
use mo_outside::Gate;
use mo_types::{FileId, Loaded, LoadedList, OutOfMemory};
use std::alloc::Global;
use std::thread::Threads;

// Those of some files that are members of archives.
fn members_of(alloc: Global, ids: &[FileId]) -> Result<Vec<FileId>, OutOfMemory>
    ensures { IfOk result (λ members. members.items ≡ filter (λ id. not (id.member == 0)) ids.now) }
{
    Ok(
        ids.iter()
            .copied()
            .filter(|id| id.member != 0)
            .collect(alloc)?,
    )
}

/// The files of the first round: the objects, which were read, and the members of forced archives, each read by one of so
/// many workers; or the fault of the first member that has one.
pub(crate) fn read_first<R: Threads + Sync, G: Gate + Sync>(
    rt: &R,
    alloc: Global,
    gate: &G,
    workers: u32,
    sources: &[Source],
    objects: LoadedList,
    ids: &[FileId],
) -> Result<LoadedList, LoadFault>
    requires order { AreInOrder (inputs_of sources.now) }
    requires objects { AreObjects (inputs_of sources.now) objects }
    requires ids { ids.now ≡ filter (files.is_first (inputs_of sources.now)) (files.all_ids (inputs_of sources.now)) }
    ensures exact { Gives IsLoadFault result (read_each (inputs_of sources.now) ids.now) }
    ensures whole { IfOk result (λ files. All IsWholeFile files) }
{
    let members = members_of(alloc, ids)?;
    let read = read_all(rt, alloc, gate, workers, sources, members.as_slice())?;
    let files = in_order(with_files(Loaded { files: objects }, read)?);
    Ok(files.files)
}
