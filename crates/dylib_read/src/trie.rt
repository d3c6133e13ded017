//! The exports of a trie (`loader.h`: LC_DYLD_EXPORTS_TRIE).

ghost use Rattle.std.specs.Prelude.{◌≡◌, length, if◌then◌else◌, IfErr, IfOk, IsPermutation, None, OnOk};
ghost use Rattle.std.specs.Cmp.Lexicographic.{slice_cmp};
ghost use Rattle.std.specs.List.Sorted.{IsSortedBy};
ghost use Rattle.std.specs.Ordering.{is_lt, nat_cmp};
ghost use Rattle.dylib_read.specs.Trie as tries;
ghost use Rattle.dylib_read.specs.TrieNodes as nodes;
ghost use Rattle.dylib_read.specs.inner.TrieExports as found;
ghost use Rattle.dylib_read.specs.inner.TrieLinks as made;

use crate::trie_fault::TrieFault;
use crate::trie_name::put_name;
use crate::trie_node::{EXPORT_SYMBOL_FLAGS_WEAK_DEFINITION, Edge, end_at};
use crate::trie_walk::{Link, label, link_at, walk};
use mo_types::{Bytes, Items, OutOfMemory};
use std::alloc::Global;

/// A symbol that a library exports.
#[derive(Debug, Drop)]
pub struct DylibExport {
    pub name: Bytes,
    /// Whether a loader takes another definition of that name first.
    pub weak: bool,
}

pub type DylibExports = Items<DylibExport>;

// Appends the export of a name with flags, where the name is a symbol's.
#[tactic(auto, unfolding(crate::specs::inner::TrieExports::added))]
fn add(
    exports: &mut Vec<DylibExport>,
    alloc: Global,
    name: &[u8],
    flags: u64,
) -> Result<(), OutOfMemory>
    ensures { OnOk result (exports.new.items ≡ found.added exports.old.items name.now flags) }
{
    if !name.starts_with(b"$ld$") {
        let name = Bytes::from_slice(alloc, name)?;
        let weak = flags & EXPORT_SYMBOL_FLAGS_WEAK_DEFINITION != 0;
        exports.push(DylibExport { name, weak })?;
    }
    Ok(())
}

// Memory in which names are put together.
#[derive(Drop)]
struct Scratch {
    name: Vec<u8>,
    way: Vec<Edge>,
}

// The flags of the export whose name ends at a node.
#[tactic(auto, unfolding(crate::specs::inner::TrieLinks::is_end))]
fn flags_at(trie: &[u8], at: usize, link: Link) -> Option<u64>
    ensures { result ≡ if made.is_end trie.now at link then nodes.end_at trie.now at else None }
{
    if at == 0 || !label(trie, link.edge).is_empty() {
        end_at(trie, at)
    } else {
        None
    }
}

// Appends the export whose name ends at a marked node, where there is one.
fn add_at(
    exports: &mut Vec<DylibExport>,
    alloc: Global,
    scratch: &mut Scratch,
    trie: &[u8],
    links: &[Option<Link>],
    at: usize,
) -> Result<(), OutOfMemory>
    requires walked { made.IsComplete trie.now links.now }
    requires marked { made.IsMarked links.now at }
    ensures { OnOk result (found.Adds trie.now at exports.old.items exports.new.items) }
{
    let link = link_at(links, at);
    if let Some(flags) = flags_at(trie, at, link) {
        put_name(&mut scratch.name, &mut scratch.way, trie, links, at)?;
        add(exports, alloc, scratch.name.as_slice(), flags)?;
    }
    Ok(())
}

// The exports of all marked nodes, by their places.
#[tactic(auto, using(crate::proofs::TrieWalkLemmas::walks))]
fn found(
    alloc: Global,
    trie: &[u8],
    links: &[Option<Link>],
) -> Result<Vec<DylibExport>, OutOfMemory>
    requires { made.IsComplete trie.now links.now }
    ensures { IfOk result (λ exports. found.AreFound trie.now exports.items (length links.now)) }
{
    let mut exports = Vec::new(alloc);
    let mut scratch = Scratch {
        name: Vec::new(alloc),
        way: Vec::new(alloc),
    };
    for at in 0..links.len() {
        if links[at].is_some() {
            add_at(&mut exports, alloc, &mut scratch, trie, links, at)?;
        }
    }
    Ok(exports)
}

// Puts exports in the byte order of their names.
fn put_in_order(exports: &mut Vec<DylibExport>)
    ensures permutation { IsPermutation exports.old.items exports.new.items }
    ensures sorted { IsSortedBy (λ a b. is_lt (slice_cmp nat_cmp a.name b.name)) exports.new.items }
{
    exports.sort_unstable_by(|a, b| a.name.cmp(&b.name));
}

/// The exports of a trie, in the byte order of their names; those whose names begin with `$ld$` are no symbols. Or that
/// the trie is broken. Each node is read once, whatever the bytes are. A trie of no bytes has no exports.
pub fn read_trie(alloc: Global, trie: &[u8]) -> Result<DylibExports, TrieFault>
    ensures exports { IfOk result (tries.AreExports trie.now) }
    ensures whole { OnOk result (tries.IsWhole trie.now) }
    ensures fault { IfErr result (tries.IsFaultOf trie.now) }
{
    if trie.is_empty() {
        return Ok(DylibExports::new(alloc));
    }
    let links = walk(alloc, trie)?;
    let mut exports = found(alloc, trie, links.as_slice())?;
    put_in_order(&mut exports);
    Ok(DylibExports::from_vec(exports))
}
