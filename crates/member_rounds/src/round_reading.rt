//! The files of a round, read by workers.
ghost use Rattle.std.specs.Prelude.{◌≡◌, ◌<◌, ◌≤◌, ◌^◌, ◌++◌, length, slice_index_or, All, IfOk};
ghost use Rattle.mo_types.specs.Gives.{Gives};
ghost use Rattle.mo_types.specs.Loaded.{IsWholeFile};
ghost use Rattle.mo_types.specs.declared.key.FileId.{FileId};
ghost use Rattle.input_files.specs.Collected.{behind};
ghost use Rattle.input_files.specs.Files as files;
ghost use Rattle.input_files.specs.Files.{IsLoadFault};
ghost use Rattle.input_files.specs.Sources.{AreInOrder, inputs_of};
ghost use Rattle.input_files.specs.inner.Holding.{AreReadable};
ghost use Rattle.member_rounds.specs.inner.Working.{ArePieces, read_each};

use input_files::{Held, LoadFault, Source, collect, content_of, read_file};
use mo_outside::Gate;
use mo_types::{FileId, LoadedFile, LoadedList, OutOfMemory};
use par_work::{Task, fan};
use std::alloc::Global;
use std::thread::Threads;

// The most jobs that are shared out at once.
const MOST_JOBS: usize = 1 << 30;

// Reads a file of the inputs.
#[tactic(auto, unfolding(input_files::specs::Files::file_of))]
fn read_at(alloc: Global, sources: &[Source], id: FileId) -> Result<LoadedFile, LoadFault>
    requires order { AreInOrder (inputs_of sources.now) }
    requires member { id.member < 2 ^ 20 }
    ensures exact { Gives IsLoadFault result (files.file_of (inputs_of sources.now) id) }
    ensures whole { IfOk result IsWholeFile }
{
    let Held { label, bytes } = content_of(alloc, sources, id)?;
    read_file(alloc, id, label, &bytes)
}

// A job for each file: to read it.
#[derive(Drop)]
struct Reading<'a> {
    alloc: Global,
    sources: &'a [Source],
    ids: &'a [FileId],
}

impl<'a> Task for Reading<'a> {
    ghost use Rattle.std.specs.Prelude.{length, slice_index_or};
    ghost use Rattle.input_files.specs.Sources.{inputs_of};
    ghost use Rattle.input_files.specs.inner.Holding.{AreReadable};
    ghost use Rattle.member_rounds.specs.inner.Working.{IsReadOf, no_id};

    type Seat = u32;

    type Piece = Result<LoadedFile, LoadFault>;

    ghost jobs = { λ t. length t.ids.now };

    ghost fits = { λ t _. AreReadable t.sources.now t.ids.now };

    ghost ran = { λ t _ job piece _. IsReadOf (inputs_of t.sources.now) (slice_index_or t.ids.now job no_id) piece };

    fn run(&self, _seat: &mut u32, job: u32) -> Result<LoadedFile, LoadFault> {
        read_at(self.alloc, self.sources, self.ids[job as usize])
    }
}

// What reading each of some files gave, in their order.
fn pieces_of<R: Threads + Sync, G: Gate + Sync>(
    rt: &R,
    alloc: Global,
    gate: &G,
    workers: u32,
    sources: &[Source],
    ids: &[FileId],
) -> Result<Vec<Result<LoadedFile, LoadFault>>, OutOfMemory>
    requires few { length ids.now < 2 ^ 32 }
    requires files { AreReadable sources.now ids.now }
    ensures { IfOk result (λ pieces. ArePieces (inputs_of sources.now) ids.now pieces.items) }
{
    let seats = vec![in alloc; 0u32; (workers as usize).min(ids.len()).max(1)]?;
    let task = Reading {
        alloc,
        sources,
        ids,
    };
    let (_, pieces) = fan(rt, alloc, gate, seats, &task, ids.len() as u32)?;
    Ok(pieces)
}

// Files, and those of ids, or the fault of the first that has one.
#[tactic(auto, using(crate::proofs::PieceLemmas::pieces))]
fn read_some<R: Threads + Sync, G: Gate + Sync>(
    rt: &R,
    alloc: Global,
    gate: &G,
    workers: u32,
    sources: &[Source],
    ids: &[FileId],
    before: LoadedList,
) -> Result<LoadedList, LoadFault>
    requires few { length ids.now < 2 ^ 32 }
    requires files { AreReadable sources.now ids.now }
    requires whole { All IsWholeFile before }
    ensures exact { Gives IsLoadFault result (behind before (read_each (inputs_of sources.now) ids.now)) }
    ensures whole { IfOk result (λ all. All IsWholeFile all) }
{
    let pieces = pieces_of(rt, alloc, gate, workers, sources, ids)?;
    collect(before, pieces)
}

/// The files of ids, each read by one of so many workers, or the fault of the first that has one.
#[tactic(auto, using(crate::proofs::PieceLemmas::runs))]
pub(crate) fn read_all<R: Threads + Sync, G: Gate + Sync>(
    rt: &R,
    alloc: Global,
    gate: &G,
    workers: u32,
    sources: &[Source],
    ids: &[FileId],
) -> Result<LoadedList, LoadFault>
    requires files { AreReadable sources.now ids.now }
    ensures exact { Gives IsLoadFault result (read_each (inputs_of sources.now) ids.now) }
    ensures whole { IfOk result (λ files. All IsWholeFile files) }
{
    let mut files = LoadedList::new(alloc);
    for run in 0..ids.len().div_ceil(MOST_JOBS) {
        let rest = &ids[run * MOST_JOBS..];
        let some = &rest[..rest.len().min(MOST_JOBS)];
        files = read_some(rt, alloc, gate, workers, sources, some, files)?;
    }
    Ok(files)
}
