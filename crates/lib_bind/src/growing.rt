//! Documents that are there, and where the libraries that they re-export are.
ghost use Rattle.std.specs.Prelude.{◌≡◌, ◌+◌, ◌<◌, ◌^◌, ◌++◌, ℕ, List, [], ◌∷◌, map, None, Some, IfOk, length, bytes_eq, if◌then◌else◌};
ghost use Rattle.mo_types.specs.Scan.{option_or_else};
ghost use Rattle.lib_bind.specs.Closing as spec;
ghost use Rattle.lib_bind.specs.Found.{found};
ghost use Rattle.lib_bind.specs.inner.Growing.{reexports_among};

use crate::by_name::ByName;
use crate::library::LinkList;
use mo_types::{Bytes, Items, OutOfMemory};
use std::alloc::Global;
use tbd_doc::{Stub, StubList};

/// A library that a document re-exports.
#[derive(Debug, Drop)]
pub struct Reexport {
    pub install: Bytes,
    /// Its document, where one of the same file has the install name, or else the first one of a library that the
    /// command line names.
    pub here: Option<usize>,
}

/// What a document re-exports, in the order of the text.
pub type ReexportList = Items<Reexport>;

/// Documents that are there.
#[derive(Drop)]
pub struct Growing {
    pub documents: StubList,
    /// What each of them re-exports.
    pub reexports: Items<ReexportList>,
    /// For each of them the documents that it was found to re-export.
    pub links: LinkList,
    /// The paths that were looked at, each with the first document of the file there, where there is one.
    pub known: ByName<Option<usize>>,
}

/// No documents, which take no memory.
pub fn nothing(alloc: Global) -> Growing
    ensures { result ≡ spec.nothing }
{
    Growing {
        documents: Items::new(alloc),
        reexports: Items::new(alloc),
        links: Items::new(alloc),
        known: ByName::new(alloc),
    }
}

// A number noted under a name that has none.
#[tactic(auto, using(crate::proofs::GrowingLemmas::noting))]
fn noted(places: ByName<usize>, name: &Bytes, number: usize) -> Result<ByName<usize>, OutOfMemory>
    ensures { IfOk result (λ more. (other : List ℕ)
        → found other more ≡ option_or_else (found other places) (if bytes_eq other name.now then Some number else None)) }
{
    if places.get(name).is_some() {
        return Ok(places);
    }
    places.add(name.clone()?, number)
}

// The numbers of the documents of a file by their install names, where the first of them has a number.
#[tactic(auto, using(crate::proofs::GrowingLemmas::placing))]
fn places_of(alloc: Global, first: usize, stubs: &[Stub]) -> Result<ByName<usize>, OutOfMemory>
    requires { first < 2 ^ 63 }
    ensures { IfOk result (λ places. (install : List ℕ) → found install places ≡ spec.place_in first stubs.now install) }
{
    let mut places = ByName::new(alloc);
    for (at, stub) in stubs.iter().enumerate() {
        places = noted(places, &stub.install, first + at)?;
    }
    Ok(places)
}

// What a document re-exports.
#[tactic(auto, using(crate::proofs::GrowingLemmas::maps))]
fn reexports_of(
    alloc: Global,
    heads: &ByName<usize>,
    places: &ByName<usize>,
    names: &[Bytes],
) -> Result<ReexportList, OutOfMemory>
    ensures { IfOk result (λ all. all ≡ reexports_among places.now heads.now names.now) }
{
    let mut all = Vec::with_capacity(alloc, names.len())?;
    for install in names {
        all.push(Reexport {
            install: install.clone()?,
            here: places.get(install).or(heads.get(install)),
        })?;
    }
    Ok(Items::from_vec(all))
}

// What the documents of a file re-export, behind what those before them do.
#[tactic(auto, using(crate::proofs::GrowingLemmas::maps))]
fn with_reexports(
    alloc: Global,
    heads: &ByName<usize>,
    places: &ByName<usize>,
    stubs: &[Stub],
    before: Items<ReexportList>,
) -> Result<Items<ReexportList>, OutOfMemory>
    ensures { IfOk result (λ all. all ≡ before ++ map (λ stub. reexports_among places.now heads.now stub.reexports) stubs.now) }
{
    let mut all = before;
    for stub in stubs {
        all.push(reexports_of(alloc, heads, places, stub.reexports.as_slice())?)?;
    }
    Ok(all)
}

// As many lists of no links as there are documents, behind the links of those before them.
#[tactic(auto, using(crate::proofs::GrowingLemmas::maps))]
fn with_no_links(alloc: Global, stubs: &[Stub], before: LinkList) -> Result<LinkList, OutOfMemory>
    ensures { IfOk result (λ all. all ≡ before ++ map (λ stub. []) stubs.now) }
{
    let mut all = before;
    for _stub in stubs {
        all.push(Items::new(alloc))?;
    }
    Ok(all)
}

// Documents, and then those of a file.
fn joined(before: StubList, stubs: StubList) -> Result<StubList, OutOfMemory>
    ensures { IfOk result (λ all. all ≡ before ++ stubs) }
{
    let mut all = before.into_vec();
    let mut more = stubs.into_vec();
    all.append(&mut more)?;
    Ok(Items::from_vec(all))
}

/// The documents with those of a file, of which none has links. The first documents of the libraries that the command
/// line names are known by their install names.
#[tactic(auto, unfolding(crate::specs::Closing::with_file))]
pub fn with_file(
    alloc: Global,
    heads: &ByName<usize>,
    stubs: StubList,
    growing: Growing,
) -> Result<Growing, OutOfMemory>
    ensures { IfOk result (λ new. new ≡ spec.with_file heads.now stubs growing) }
{
    let Growing {
        documents,
        reexports,
        links,
        known,
    } = growing;
    let first = documents.as_slice().len();
    let places = places_of(alloc, first, stubs.as_slice())?;
    let reexports = with_reexports(alloc, heads, &places, stubs.as_slice(), reexports)?;
    let links = with_no_links(alloc, stubs.as_slice(), links)?;
    Ok(Growing {
        documents: joined(documents, stubs)?,
        reexports,
        links,
        known,
    })
}

/// The documents, where a path is known that has this one.
pub fn with_known(
    path: &Bytes,
    document: Option<usize>,
    growing: Growing,
) -> Result<Growing, OutOfMemory>
    requires { found path.now growing.known ≡ None }
    ensures { IfOk result (λ new. new ≡ spec.with_known path.now document growing) }
{
    let Growing {
        documents,
        reexports,
        links,
        known,
    } = growing;
    Ok(Growing {
        documents,
        reexports,
        links,
        known: known.add(path.clone()?, document)?,
    })
}
