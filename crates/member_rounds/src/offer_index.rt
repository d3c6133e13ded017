//! What the archives of a link offer, with an index by name.
ghost use Rattle.std.specs.Prelude.{◌≡◌, ℕ, List, None, IfOk, IsTrue};
ghost use Rattle.std.specs.Str.{bytes_eq};
ghost use Rattle.mo_types.specs.Scan.{first_some};
ghost use Rattle.member_rounds.specs.Rounds as rounds;
ghost use Rattle.input_files.specs.Sources.{inputs_of};
ghost use Rattle.member_rounds.specs.inner.Offered.{HasOffered, IsIndexOf, file_named, is_offered, named_or_offered};

use crate::files_by_name::FilesByName;
use input_files::Source;
use mo_ar::OfferList;
use mo_types::{FileId, OutOfMemory};
use std::alloc::Global;
use std::marker::Model;

// The least-numbered member that an archive's table gives to a name.
#[tactic(auto, unfolding(crate::specs::Rounds::offer_in))]
fn offer_in(source: &Source, name: &[u8]) -> Option<FileId>
    ensures { result ≡ rounds.offer_in name.now source.now.input }
{
    match &source.archive {
        Some(archive) => match archive.offers.first_offer(name) {
            Some(member) => Some(FileId {
                position: source.input.position,
                member,
            }),
            None => None,
        },
        None => None,
    }
}

// Files by names, and for a name that has none the member that an archive's table gives to it.
#[tactic(auto, using(crate::proofs::OfferedLemmas::one_offer))]
fn with_name<'a>(
    before: FilesByName<'a>,
    source: &Source,
    name: &'a [u8],
) -> Result<FilesByName<'a>, OutOfMemory>
    ensures { IfOk result (HasOffered (bytes_eq name.now) before.entry source.now.input) }
{
    if before.get(name).is_some() {
        return Ok(before);
    }
    match offer_in(source, name) {
        Some(id) => before.with(name, id),
        None => Ok(before),
    }
}

// Files by names, and those of the names among offers that have none.
#[tactic(auto, using(crate::proofs::OfferedLemmas::offers))]
fn with_offers<'a>(
    before: FilesByName<'a>,
    source: &Source,
    offers: &'a OfferList,
) -> Result<FilesByName<'a>, OutOfMemory>
    ensures { IfOk result (HasOffered (λ name. is_offered name offers.now) before.entry source.now.input) }
{
    let mut files = before;
    for at in 0..offers.len() {
        match offers.get(at) {
            Some((name, _)) => files = with_name(files, source, name)?,
            None => unreachable!(),
        }
    }
    Ok(files)
}

// Files by names, and for each name that has none the member that an input offers.
#[tactic(auto, using(crate::proofs::OfferedLemmas::archives))]
fn with_source<'a>(
    before: FilesByName<'a>,
    source: &'a Source,
) -> Result<FilesByName<'a>, OutOfMemory>
    ensures { IfOk result (λ new. (name : List ℕ) → file_named new name ≡ named_or_offered before.entry source.now.input name) }
{
    match &source.archive {
        Some(archive) => with_offers(before, source, &archive.offers),
        None => Ok(before),
    }
}

// For each name that is offered the member of the first archive that does.
#[tactic(auto, using(crate::proofs::OfferedLemmas::indexes))]
fn index_of<'a>(alloc: Global, sources: &'a [Source]) -> Result<FilesByName<'a>, OutOfMemory>
    ensures { IfOk result (IsIndexOf (inputs_of sources.now)) }
{
    let mut files = FilesByName::new(alloc);
    for source in sources {
        files = with_source(files, source)?;
    }
    Ok(files)
}

/// The inputs of a link, with an index of all offers of their archives by name. Contracts see the list of the inputs.
#[derive(Drop)]
pub struct OfferIndex<'a> {
    sources: &'a [Source],
    files: FilesByName<'a>,
}

impl<'a> Model for OfferIndex<'a> {
    ghost use Rattle.std.specs.Prelude.{List};
    ghost use Rattle.input_files.specs.Sources.{inputs_of};
    ghost use Rattle.input_files.specs.declared.input.Input.{Input};
    ghost use Rattle.member_rounds.specs.inner.Offered.{IsIndexOf};

    ghost Value = { List Input };

    ghost view = { λ index. inputs_of index.sources.now };

    ghost invariant = { λ index. IsIndexOf (inputs_of index.sources.now) index.files };
}

impl<'a> OfferIndex<'a> {
    /// The index of some inputs. It takes the time of some look-ups by hash for each offer, and copies no name.
    pub fn new(alloc: Global, sources: &'a [Source]) -> Result<OfferIndex<'a>, OutOfMemory>
        ensures { IfOk result (λ index. index ≡ inputs_of sources.now) }
    {
        let files = index_of(alloc, sources)?;
        Ok(OfferIndex { sources, files })
    }

    /// The inputs.
    pub(crate) fn sources(&self) -> &'a [Source]
        ensures { inputs_of result.now ≡ self.now }
    {
        self.sources
    }

    /// Whether no archive offers anything.
    pub(crate) fn is_empty(&self) -> bool
        ensures { IsTrue result → (name : List ℕ) → first_some (rounds.offer_in name) self.now ≡ None }
    {
        self.files.is_empty()
    }

    /// The least-numbered member that the table of the first archive with a name gives to it. It takes the time of one
    /// look-up by hash, however many inputs there are, and no memory.
    pub(crate) fn first(&self, name: &[u8]) -> Option<FileId>
        ensures { result ≡ first_some (rounds.offer_in name.now) self.now }
    {
        self.files.get(name)
    }
}
