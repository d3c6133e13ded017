//! The documents that libraries reach.
ghost use Rattle.std.specs.Prelude.{◌≡◌, ◌<◌, ℕ, List, Some, IfOk, length, nat_eq, get_or, slice_get};
ghost use Rattle.std.specs.List.{IsDistinct};
ghost use Rattle.std.specs.List.Sorted.{IsPermutation, IsStrictlySortedBy};
ghost use Rattle.std.specs.Ordering.{nat_cmp};
ghost use Rattle.indexmap.specs.IndexSet.{insert_all};
ghost use Rattle.lib_bind.specs.Graph.{AreLinks, AreReached, AreReaches, linked};
ghost use Rattle.lib_bind.specs.declared.library.Library.{Library as Lib};

use crate::library::{Library, NumberList};
use indexmap::IndexSet;
use mo_types::{Items, OutOfMemory};
use std::alloc::Global;

// Documents, and more ones, each once.
fn add_all(before: IndexSet<usize>, more: &[usize]) -> Result<IndexSet<usize>, OutOfMemory>
    ensures { IfOk result (λ new. new.keys ≡ insert_all nat_eq before.keys more.now) }
{
    let mut found = before;
    for document in more {
        found.insert(*document)?;
    }
    Ok(found)
}

// The document that was found at a place.
fn document_at(found: &IndexSet<usize>, at: usize) -> usize
    requires { at < length found.now.keys }
    ensures { get_or found.now.keys at 0 ≡ result }
{
    match found.get_index(at) {
        Some(document) => *document,
        None => 0,
    }
}

// Puts documents, none of which is there twice, by rising number.
fn put_in_order(documents: &mut Vec<usize>)
    requires once { IsDistinct nat_eq documents.old.items }
    ensures same { IsPermutation documents.old.items documents.new.items }
    ensures rising { IsStrictlySortedBy nat_cmp documents.new.items }
{
    documents.sort_unstable();
}

// The list of documents that were found, by rising number.
fn list_of(alloc: Global, found: &IndexSet<usize>) -> Result<NumberList, OutOfMemory>
    ensures same { IfOk result (λ list. IsPermutation found.now.keys list) }
    ensures rising { IfOk result (λ list. IsStrictlySortedBy nat_cmp list) }
    ensures once { IfOk result (λ list. IsDistinct nat_eq found.now.keys) }
{
    let mut list = Vec::with_capacity(alloc, found.len())?;
    for at in 0..found.len() {
        list.push(document_at(found, at))?;
    }
    put_in_order(&mut list);
    Ok(Items::from_vec(list))
}

// The documents that a document re-exports.
fn links_of(links: &[NumberList], document: usize) -> &[usize]
    requires { document < length links.now }
    ensures { result.now ≡ linked links.now document }
{
    links[document].as_slice()
}

// The documents that a path of links leads to from one, that one among them. They are looked for breadth first.
fn reached(alloc: Global, links: &[NumberList], from: usize) -> Result<NumberList, OutOfMemory>
    requires links { AreLinks (length links.now) links.now }
    requires from { from < length links.now }
    ensures { IfOk result (AreReached links.now from) }
{
    let mut found = IndexSet::new(alloc);
    found.insert(from)?;
    for at in 0..links.len() {
        if at >= found.len() {
            return Ok(list_of(alloc, &found)?);
        }
        let document = document_at(&found, at);
        found = add_all(found, links_of(links, document))?;
    }
    Ok(list_of(alloc, &found)?)
}

/// For each library the documents that it reaches.
pub fn reaches(
    alloc: Global,
    libraries: &[Library],
    links: &[NumberList],
) -> Result<Vec<NumberList>, OutOfMemory>
    requires links { AreLinks (length links.now) links.now }
    requires within { (at : ℕ) (library : Lib) → slice_get libraries.now at ≡ Some library → library.document < length links.now }
    ensures { IfOk result (λ reach. AreReaches libraries.now links.now reach.items) }
{
    let mut reach = Vec::with_capacity(alloc, libraries.len())?;
    for library in libraries {
        reach.push(reached(alloc, links, library.document)?)?;
    }
    Ok(reach)
}
