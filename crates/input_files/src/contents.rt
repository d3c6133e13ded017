//! Where a file of the inputs stands, and its bytes.
ghost use Rattle.std.specs.Prelude.{◌≡◌, ◌==◌, ◌&&◌, ◌||◌, ◌++◌, codes, filter, find, IfOk, option_map};
ghost use Rattle.std.specs.Option.{option_copied};
ghost use Rattle.mo_ar.specs.Text.{part};
ghost use Rattle.input_files.specs.Files as files;
ghost use Rattle.input_files.specs.Sources.{AreInOrder, inputs_of};
ghost use Rattle.input_files.specs.inner.Holding.{held_content};

use crate::sources::Source;
use mo_types::{Bytes, FileId, OutOfMemory};
use std::alloc::Global;

/// What messages call a file, and its bytes.
#[derive(Drop)]
pub struct Held {
    pub label: Bytes,
    pub bytes: Bytes,
}

// The source at a position.
fn source_at(sources: &[Source], position: u16) -> Option<&Source>
    requires { AreInOrder (inputs_of sources.now) }
    ensures { option_copied result ≡ find (λ source. source.input.position == position) sources.now }
{
    match sources.binary_search_by(|source| source.input.position.cmp(&position)) {
        Ok(at) => Some(&sources[at]),
        Err(_) => None,
    }
}

// Whether a file of a source is loaded before any name asks for it.
fn comes_first(source: &Source, member: u32) -> bool
    ensures { result ≡ ((member == 0) || source.now.input.forced) }
{
    member == 0 || source.input.forced
}

/// Whether a file is loaded before any name asks for it.
#[tactic(auto, using(crate::proofs::PlaceLemmas::places))]
pub(crate) fn is_first(sources: &[Source], id: FileId) -> bool
    requires { AreInOrder (inputs_of sources.now) }
    ensures { result ≡ files.is_first (inputs_of sources.now) id }
{
    match source_at(sources, id.position) {
        Some(source) => comes_first(source, id.member),
        None => false,
    }
}

// What messages call a member of an archive.
fn member_label(alloc: Global, archive: &Bytes, member: &Bytes) -> Result<Bytes, OutOfMemory>
    ensures { IfOk result (λ label. label ≡ archive.now ++ codes "(" ++ member.now ++ codes ")") }
{
    let mut label = Vec::new(alloc);
    label.extend_from_slice(archive.as_slice())?;
    label.extend_from_slice(b"(".as_slice())?;
    label.extend_from_slice(member.as_slice())?;
    label.extend_from_slice(b")".as_slice())?;
    Bytes::from_vec(label)
}

// Some bytes of a file, which share them with it.
#[tactic(auto, using(crate::proofs::PlaceLemmas::parts))]
fn part_of(bytes: &Bytes, from: u64, size: u64) -> Result<Bytes, OutOfMemory>
    ensures { IfOk result (λ some. some ≡ part bytes.now from size) }
{
    let from = (bytes.len() as u64).min(from);
    let size = (bytes.len() as u64 - from).min(size);
    bytes.part(from as usize, size as usize)
}

// The content of a file of an input.
#[tactic(auto, unfolding(crate::specs::Files::content_in))]
fn content_in(alloc: Global, source: &Source, member: u32) -> Result<Option<Held>, OutOfMemory>
    ensures { IfOk result (λ held. option_map held_content held ≡ files.content_in source.now.input member) }
{
    let Some(archive) = &source.archive else {
        return Ok(Some(Held {
            label: source.input.label.clone()?,
            bytes: source.input.bytes.clone()?,
        }));
    };
    match archive.members.get(member.saturating_sub(1) as usize) {
        Some(member) => Ok(Some(Held {
            label: member_label(alloc, &source.input.label, &member.name)?,
            bytes: part_of(&source.input.bytes, member.from, member.size)?,
        })),
        None => Ok(None),
    }
}

/// The content of a file, a member's cut out of its archive without a copy.
#[tactic(auto, using(crate::proofs::PlaceLemmas::places))]
pub fn content_of(alloc: Global, sources: &[Source], id: FileId) -> Result<Held, OutOfMemory>
    requires { AreInOrder (inputs_of sources.now) }
    ensures { IfOk result (λ held. held_content held ≡ files.content_of (inputs_of sources.now) id) }
{
    let Some(source) = source_at(sources, id.position) else {
        return Ok(Held {
            label: Bytes::new(),
            bytes: Bytes::new(),
        });
    };
    match content_in(alloc, source, id.member)? {
        Some(held) => Ok(held),
        None => Ok(Held {
            label: Bytes::new(),
            bytes: Bytes::new(),
        }),
    }
}
