//! The files of all inputs, and those that are loaded first.
ghost use Rattle.std.specs.Prelude.{◌≡◌, ◌+◌, ◌^◌, ◌<◌, ◌&&◌, ◌++◌, filter, length, map, not, All, IfOk};
ghost use Rattle.std.specs.List.{range_with_len};
ghost use Rattle.mo_types.specs.declared.key.FileId.{FileId};
ghost use Rattle.input_files.specs.Files as files;
ghost use Rattle.input_files.specs.Sources.{AreInOrder, inputs_of};
ghost use Rattle.input_files.specs.inner.Holding.{member_at};

use crate::contents::is_first;
use crate::sources::Source;
use mo_types::{FileId, OutOfMemory};
use std::alloc::Global;

// Files, and the members of an archive.
#[tactic(auto, using(crate::proofs::GatherLemmas::members))]
fn add_members(before: Vec<FileId>, position: u16, count: u32) -> Result<Vec<FileId>, OutOfMemory>
    requires { count < 2 ^ 20 }
    ensures { IfOk result (λ all. all.items ≡ before.items ++ map (member_at position) (range_with_len 1 count)) }
{
    let mut all = before;
    for i in 0..count {
        all.push(FileId {
            position,
            member: i + 1,
        })?;
    }
    Ok(all)
}

// Files, and those of an input.
#[tactic(auto, using(crate::proofs::FileLemmas::few_members), unfolding(crate::specs::Files::ids_in))]
fn add_ids(before: Vec<FileId>, source: &Source) -> Result<Vec<FileId>, OutOfMemory>
    ensures { IfOk result (λ all. all.items ≡ before.items ++ files.ids_in source.now.input) }
{
    match &source.archive {
        Some(archive) => add_members(before, source.input.position, archive.members.len() as u32),
        None => {
            let mut all = before;
            all.push(FileId {
                position: source.input.position,
                member: 0,
            })?;
            Ok(all)
        }
    }
}

/// The files of all inputs.
#[tactic(auto, using(crate::proofs::GatherLemmas::gathers))]
pub fn all_ids(alloc: Global, sources: &[Source]) -> Result<Vec<FileId>, OutOfMemory>
    ensures { IfOk result (λ all. all.items ≡ files.all_ids (inputs_of sources.now)) }
{
    let mut all = Vec::new(alloc);
    for source in sources {
        all = add_ids(all, source)?;
    }
    Ok(all)
}

/// Those of some files that are loaded before any name asks for them.
pub fn first_ids(
    alloc: Global,
    sources: &[Source],
    all: &[FileId],
) -> Result<Vec<FileId>, OutOfMemory>
    requires { AreInOrder (inputs_of sources.now) }
    ensures { IfOk result (λ first. first.items ≡ filter (files.is_first (inputs_of sources.now)) all.now) }
{
    Ok(
        all.iter()
            .copied()
            .filter(|id| is_first(sources, *id))
            .collect(alloc)?,
    )
}
