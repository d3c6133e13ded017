ghost use Rattle.std.specs.Prelude.{◌≡◌, ℕ, List, IfOk, length, zip};
ghost use Rattle.mo_types.specs.Scan.{first_some};
ghost use Rattle.lib_bind.specs.Graph.{AreLibraries, AreLinks, AreReaches, IsWhole};
ghost use Rattle.lib_bind.specs.Provides as provides;
ghost use Rattle.lib_bind.specs.inner.Index.{known};

use crate::fill::index_of;
use crate::index::NameIndex;
use crate::library::{Library, LibraryGraph, LibraryList, LinkList, NumberList};
use crate::reach::reaches;
use mo_types::{Items, OutOfMemory};
use std::alloc::Global;
use std::marker::Model;
use tbd_doc::{Stub, StubList};

/// The libraries of a link, which are whole. Contracts see them with their documents, links and reach; the names that they
/// provide stand in an index, so that a look-up costs the same whatever the libraries have.
#[derive(Drop)]
pub struct Libraries {
    pub(crate) graph: LibraryGraph,
    pub(crate) index: NameIndex,
}

impl Model for Libraries {
    ghost use Rattle.lib_bind.specs.declared.library.LibraryGraph.{LibraryGraph};
    ghost use Rattle.lib_bind.specs.inner.Index.{IsIndexed};

    ghost Value = { LibraryGraph };

    ghost view = { λ libs. libs.graph };

    ghost invariant = { λ libs. IsIndexed libs.graph libs.index };
}

impl Libraries {
    /// Libraries with their documents and links. Finds the documents that each library reaches, and the names that they
    /// export, each name once.
    pub fn new(
        alloc: Global,
        libraries: LibraryList,
        documents: StubList,
        links: LinkList,
    ) -> Result<Libraries, OutOfMemory>
        requires links { AreLinks (length documents) links }
        requires libraries { AreLibraries (length documents) libraries }
        ensures libraries { IfOk result (λ libs. libs.libraries ≡ libraries) }
        ensures documents { IfOk result (λ libs. libs.documents ≡ documents) }
        ensures links { IfOk result (λ libs. libs.links ≡ links) }
        ensures whole { IfOk result IsWhole }
    {
        let LibraryIndex { reach, index } = found_of(
            alloc,
            libraries.as_slice(),
            documents.as_slice(),
            links.as_slice(),
        )?;
        let graph = LibraryGraph {
            libraries,
            documents,
            links,
            reach,
        };
        Ok(Libraries { graph, index })
    }

    /// The libraries with their documents, links and reach.
    pub fn graph(&self) -> &LibraryGraph
        ensures value { result.now ≡ self.now }
        ensures whole { IsWhole self.now }
    {
        &self.graph
    }
}

// What is found of libraries: what they reach, and the names that they provide.
#[derive(Drop)]
pub struct LibraryIndex {
    pub reach: LinkList,
    pub index: NameIndex,
}

fn found_of(
    alloc: Global,
    libraries: &[Library],
    documents: &[Stub],
    links: &[NumberList],
) -> Result<LibraryIndex, OutOfMemory>
    requires links { AreLinks (length documents.now) links.now }
    requires libraries { AreLibraries (length documents.now) libraries.now }
    ensures reach { IfOk result (λ found. AreReaches libraries.now links.now found.reach) }
    ensures names { IfOk result (λ found. (name : List ℕ)
        → known found.index name ≡ first_some (provides.offer_by documents.now name) (zip libraries.now found.reach)) }
{
    let reach = Items::from_vec(reaches(alloc, libraries, links)?);
    let index = index_of(alloc, libraries, reach.as_slice(), documents)?;
    Ok(LibraryIndex { reach, index })
}
