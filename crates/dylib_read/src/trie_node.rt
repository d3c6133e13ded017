//! The nodes of an export trie (`loader.h`: LC_DYLD_EXPORTS_TRIE).

ghost use Rattle.std.specs.Prelude.{◌≡◌, ◌+◌, ◌≤◌, length, IfOk, IfSome, Some, None};
ghost use Rattle.dylib_read.specs.TrieNodes as nodes;

use mo_bytes::uleb_read;
use mo_strings::first_nul;
use mo_types::{Items, OutOfMemory};
use std::alloc::Global;

/// The library has other definitions of the symbol that come before this one.
pub const EXPORT_SYMBOL_FLAGS_WEAK_DEFINITION: u64 = 4;

/// The symbol is one of another library.
pub const EXPORT_SYMBOL_FLAGS_REEXPORT: u64 = 8;

/// An edge to a node.
#[derive(Clone, Copy, Debug, PartialEq, Eq)]
pub struct Edge {
    /// The place in the trie of what the edge adds to a name.
    pub at: usize,
    /// How many bytes that is.
    pub size: usize,
    /// The place of the node.
    pub child: usize,
}

/// An edge, and the place behind it.
#[derive(Clone, Copy)]
pub struct EdgeRead {
    edge: Edge,
    next: usize,
}

pub type Edges = Items<Edge>;

/// A node of the trie.
#[derive(Debug, Drop)]
pub struct Node {
    /// The flags of the export whose name ends here.
    pub flags: Option<u64>,
    pub edges: Edges,
}

#[tactic(auto, using(crate::proofs::HeadLemmas::texts), unfolding(crate::specs::TrieNodes::edge_at))]
fn edge_at(trie: &[u8], at: usize) -> Option<EdgeRead>
    requires { at ≤ length trie.now }
    ensures exact { result ≡ nodes.edge_at trie.now at }
    ensures within { IfSome result (λ read. read.next ≤ length trie.now) }
{
    let size = first_nul(&trie[at..])?;
    let (child, next) = uleb_read(trie, at + size + 1)?;
    Some(EdgeRead {
        edge: Edge {
            at,
            size,
            child: child as usize,
        },
        next,
    })
}

#[tactic(auto, using(crate::proofs::TrieNodeLemmas::readings))]
fn edges_at(
    alloc: Global,
    trie: &[u8],
    count: u8,
    first: usize,
) -> Result<Option<Edges>, OutOfMemory>
    requires { first ≤ length trie.now }
    ensures { IfOk result (λ edges. edges ≡ nodes.edges_at trie.now count first) }
{
    let mut edges = Edges::new(alloc);
    let mut at = first;
    for _number in 0..count {
        let Some(read) = edge_at(trie, at) else {
            return Ok(None);
        };
        edges.push(read.edge)?;
        at = read.next;
    }
    Ok(Some(edges))
}

#[tactic(auto, unfolding(crate::specs::TrieNodes::flags_at))]
fn flags_at(trie: &[u8], at: usize) -> Option<u64>
    ensures { result ≡ nodes.flags_at trie.now at }
{
    let (flags, next) = uleb_read(trie, at)?;
    if flags & EXPORT_SYMBOL_FLAGS_REEXPORT != 0 || uleb_read(trie, next).is_some() {
        Some(flags)
    } else {
        None
    }
}

fn data_at(trie: &[u8], size: u64, at: usize) -> Option<Option<u64>>
    ensures { result ≡ nodes.data_at trie.now size at }
{
    if size == 0 {
        return Some(None);
    }
    let flags = flags_at(trie, at)?;
    Some(Some(flags))
}

#[tactic(auto, unfolding(crate::specs::TrieNodes::children_at))]
fn children_at(alloc: Global, trie: &[u8], at: usize) -> Result<Option<Edges>, OutOfMemory>
    requires { at ≤ length trie.now }
    ensures { IfOk result (λ edges. edges ≡ nodes.children_at trie.now at) }
{
    match trie.get(at) {
        Some(count) => edges_at(alloc, trie, *count, at + 1),
        None => Ok(None),
    }
}

/// The node at a place of the trie, where one stands there.
#[tactic(auto, unfolding(crate::specs::TrieNodes::node_at, crate::specs::TrieNodes::children_at))]
pub fn read_node(alloc: Global, trie: &[u8], at: usize) -> Result<Option<Node>, OutOfMemory>
    ensures { IfOk result (λ node. node ≡ nodes.node_at trie.now at) }
{
    let Some((size, data)) = uleb_read(trie, at) else {
        return Ok(None);
    };
    let Some(flags) = data_at(trie, size, data) else {
        return Ok(None);
    };
    if size > (trie.len() - data) as u64 {
        return Ok(None);
    }
    match children_at(alloc, trie, data + size as usize)? {
        Some(edges) => Ok(Some(Node { flags, edges })),
        None => Ok(None),
    }
}

/// The flags in the data of the node at a place.
#[tactic(auto, unfolding(crate::specs::TrieNodes::end_at))]
pub fn end_at(trie: &[u8], at: usize) -> Option<u64>
    ensures { result ≡ nodes.end_at trie.now at }
{
    let (size, data) = uleb_read(trie, at)?;
    data_at(trie, size, data).unwrap_or(None)
}
