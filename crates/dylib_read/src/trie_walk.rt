//! The walks through an export trie, from each node to those behind it.

ghost use Rattle.std.specs.Prelude.{◌≡◌, ◌+◌, ◌-◌, ◌<◌, ◌≤◌, ◌++◌, ◌∷◌, [], length, take, drop, replicate, not, slice_index_or, slice_set, is_some, true, false, IfErr, IfOk, OnOk, Ok, Err, Some, None, if◌then◌else◌};
ghost use Rattle.std.specs.List.{list_any};
ghost use Rattle.export_trie.specs.Strings.{begins};
ghost use Rattle.dylib_read.specs.declared.trie_walk.TheConstants.{ROOT};
ghost use Rattle.dylib_read.specs.Trie as tries;
ghost use Rattle.dylib_read.specs.TrieNodes as nodes;
ghost use Rattle.dylib_read.specs.inner.TrieLinks as made;

use crate::trie_fault::TrieFault;
use crate::trie_node::{Edge, read_node};
use mo_types::OutOfMemory;
use std::alloc::Global;

/// A string of the trie that the rest of a name may not begin with, since an earlier edge takes such names.
#[derive(Clone, Copy, Debug, PartialEq, Eq)]
pub struct Bound {
    pub at: usize,
    pub size: usize,
}

/// How walks come to a node: from the node at a place, along an edge of it.
#[derive(Clone, Copy, Debug, PartialEq, Eq)]
pub struct Link {
    pub from: usize,
    pub edge: Edge,
    /// The place of its first bound in the list of all.
    pub first: usize,
    /// How many bounds it has.
    pub count: usize,
}

/// An edge: that of a number, from 0 on, of the node at a place.
#[derive(Clone, Copy, Debug, PartialEq, Eq)]
pub struct Source {
    pub from: usize,
    pub number: usize,
}

/// The link of the root, to which no walk goes along an edge.
pub const ROOT: Link = Link {
    from: 0,
    edge: Edge {
        at: 0,
        size: 0,
        child: 0,
    },
    first: 0,
    count: 0,
};

// So many bytes of the trie from a place on, as far as it has them.
#[tactic(auto, using(crate::proofs::TrieWalkLemmas::parts))]
fn part(trie: &[u8], at: usize, size: usize) -> &[u8]
    ensures { result.now ≡ take size (drop at trie.now) }
{
    if at > trie.len() {
        return &[];
    }
    let rest = &trie[at..];
    &rest[..size.min(rest.len())]
}

/// What an edge adds to a name.
pub fn label(trie: &[u8], edge: Edge) -> &[u8]
    ensures { result.now ≡ nodes.label trie.now edge }
{
    part(trie, edge.at, edge.size)
}

#[tactic(auto, using(crate::proofs::TrieWalkLemmas::beginnings))]
fn is_begun(trie: &[u8], bound: Bound, name: &[u8]) -> bool
    ensures { result ≡ begins (made.text trie.now bound) name.now }
{
    name.starts_with(part(trie, bound.at, bound.size))
}

// Whether a bound begins the rest of a name.
fn is_barred(trie: &[u8], bounds: &[Bound], name: &[u8]) -> bool
    ensures { result ≡ made.bars trie.now bounds.now name.now }
{
    bounds.iter().any(|bound| is_begun(trie, *bound, name))
}

// What is left of a bound behind a label, where the label begins it.
#[tactic(auto, using(crate::proofs::TrieWalkLemmas::beginnings))]
fn narrow(trie: &[u8], bound: Bound, label: &[u8]) -> Option<Bound>
    ensures { result ≡ made.narrow trie.now bound label.now }
{
    if !part(trie, bound.at, bound.size).starts_with(label) {
        return None;
    }
    Some(Bound {
        at: bound.at + label.len(),
        size: bound.size - label.len(),
    })
}

// Appends what is left of bounds behind a label.
#[tactic(auto, using(crate::proofs::TrieWalkLemmas::narrowings))]
fn put_narrowed(
    pool: &mut Vec<Bound>,
    trie: &[u8],
    bounds: &[Bound],
    label: &[u8],
) -> Result<(), OutOfMemory>
    ensures { OnOk result (pool.new.items ≡ pool.old.items ++ made.narrowed trie.now bounds.now label.now) }
{
    for bound in bounds {
        if let Some(left) = narrow(trie, *bound, label) {
            pool.push(left)?;
        }
    }
    Ok(())
}

// Notes that an edge leads to a place, if it is one of the trie and no other edge leads there.
fn lead(led: &mut [Option<Source>], source: Source, edge: Edge) -> bool
    ensures led { result ≡ not (is_some (made.trace led.old edge.child)) }
    ensures set { led.new ≡ if result then slice_set led.old edge.child (Some source) else led.old }
{
    if edge.child >= led.len() {
        return true;
    }
    if led[edge.child].is_some() {
        return false;
    }
    led[edge.child] = Some(source);
    true
}

// Marks the node to which walks go along an edge, if it is a later one.
#[tactic(auto, unfolding(crate::specs::inner::TrieLinks::is_ahead))]
fn take(
    links: &mut [Option<Link>],
    pool: &mut Vec<Bound>,
    trie: &[u8],
    bounds: &[Bound],
    from: usize,
    edge: Edge,
) -> Result<bool, OutOfMemory>
    ensures ahead { IfOk result (λ ahead. ahead ≡ made.is_ahead links.old from edge) }
    ensures pool { IfOk result (λ ahead. pool.new.items ≡ if ahead then pool.old.items ++ made.narrowed trie.now bounds.now (nodes.label trie.now edge) else pool.old.items) }
    ensures links { IfOk result (λ ahead. links.new ≡ if ahead then slice_set links.old edge.child (Some (record { from = from; edge = edge; first = length pool.old.items; count = length pool.new.items - length pool.old.items })) else links.old) }
{
    if edge.child <= from || edge.child >= links.len() {
        return Ok(false);
    }
    let first = pool.len();
    put_narrowed(pool, trie, bounds, label(trie, edge))?;
    links[edge.child] = Some(Link {
        from,
        edge,
        first,
        count: pool.len() - first,
    });
    Ok(true)
}

/// The link of a marked place.
#[tactic(auto, using(crate::proofs::TrieWalkLemmas::links))]
pub fn link_at(links: &[Option<Link>], at: usize) -> Link
    requires { made.IsMarked links.now at }
    ensures { made.mark links.now at ≡ Some result }
{
    links[at].unwrap_or(ROOT)
}

// Puts the bounds of a link in the place of others.
#[tactic(auto, unfolding(crate::specs::inner::TrieLinks::bounds_of))]
fn put_bounds(bounds: &mut Vec<Bound>, pool: &[Bound], link: Link) -> Result<(), OutOfMemory>
    requires { link.first + link.count ≤ length pool.now }
    ensures { OnOk result (bounds.new.items ≡ made.bounds_of pool.now link) }
{
    bounds.clear();
    bounds.extend_from_slice(&pool[link.first..link.first + link.count])?;
    Ok(())
}

// Goes on from a node along an edge, unless it is barred; false where that is a fault. It bars the edges behind it.
fn follow(
    trie: &[u8],
    links: &mut [Option<Link>],
    led: &mut [Option<Source>],
    pool: &mut Vec<Bound>,
    bounds: &mut Vec<Bound>,
    source: Source,
    edge: Edge,
) -> Result<bool, OutOfMemory>
    ensures goes { IfOk result (λ goes. goes ≡ true → made.Follows trie.now source edge links.old links.new led.old led.new pool.old.items pool.new.items bounds.old.items bounds.new.items) }
    ensures stops { IfOk result (λ goes. goes ≡ false → made.Stops trie.now source edge links.old led.old bounds.old.items) }
{
    if !lead(led, source, edge) {
        return Ok(false);
    }
    if !is_barred(trie, bounds.as_slice(), label(trie, edge)) {
        if !take(links, pool, trie, bounds.as_slice(), source.from, edge)? {
            return Ok(false);
        }
    }
    bounds.push(Bound {
        at: edge.at,
        size: edge.size,
    })?;
    Ok(true)
}

// Goes on from a marked node along its edges.
fn enter(
    alloc: Global,
    trie: &[u8],
    links: &mut [Option<Link>],
    led: &mut [Option<Source>],
    pool: &mut Vec<Bound>,
    bounds: &mut Vec<Bound>,
    at: usize,
) -> Result<(), TrieFault>
    requires within { at < length trie.now }
    requires marked { made.IsMarked links.old at }
    requires walked { made.AreLinks trie.now links.old led.old pool.old.items at 0 }
    ensures ok { OnOk result (made.AreLinks trie.now links.new led.new pool.new.items (at + 1) 0) }
    ensures err { IfErr result (made.IsFound trie.now) }
{
    let link = link_at(links, at);
    put_bounds(bounds, pool.as_slice(), link)?;
    let Some(node) = read_node(alloc, trie, at)? else {
        return Err(TrieFault::Broken);
    };
    let edges = node.edges.as_slice();
    for (number, edge) in edges.iter().enumerate() {
        let source = Source { from: at, number };
        if !follow(trie, links, led, pool, bounds, source, *edge)? {
            return Err(TrieFault::Broken);
        }
    }
    Ok(())
}

// Walks from the root, which is marked, to all nodes to which there is a walk.
#[tactic(auto, using(crate::proofs::TrieWalkLemmas::walks))]
fn walk_on(
    alloc: Global,
    trie: &[u8],
    links: &mut [Option<Link>],
    led: &mut [Option<Source>],
    pool: &mut Vec<Bound>,
) -> Result<(), TrieFault>
    requires { made.AreLinks trie.now links.old led.old pool.old.items 0 0 }
    ensures ok { OnOk result (made.AreLinks trie.now links.new led.new pool.new.items (length trie.now) 0) }
    ensures err { IfErr result (made.IsFound trie.now) }
{
    let mut bounds = Vec::new(alloc);
    for at in 0..trie.len() {
        if links[at].is_some() {
            enter(alloc, trie, links, led, pool, &mut bounds, at)?;
        }
    }
    Ok(())
}

// Marks of so many places, of which the first one is the root's.
fn first_marks(alloc: Global, size: usize) -> Result<Vec<Option<Link>>, OutOfMemory>
    requires { 0 < size }
    ensures { IfOk result (λ links. links.items ≡ slice_set (replicate size None) 0 (Some ROOT)) }
{
    let mut links = vec![in alloc; None; size]?;
    links[0] = Some(ROOT);
    Ok(links)
}

// The traces of so many places to which no edge leads.
fn no_traces(alloc: Global, size: usize) -> Result<Vec<Option<Source>>, OutOfMemory>
    ensures { IfOk result (λ led. led.items ≡ replicate size None) }
{
    Ok(vec![in alloc; None; size]?)
}

/// The links of all nodes to which there is a walk, each of which is read once; or a fault that the trie has.
pub fn walk(alloc: Global, trie: &[u8]) -> Result<Vec<Option<Link>>, TrieFault>
    requires { 0 < length trie.now }
    ensures ok { IfOk result (λ found. made.IsComplete trie.now found.items) }
    ensures err { IfErr result (made.IsFound trie.now) }
{
    let mut links = first_marks(alloc, trie.len())?;
    let mut led = no_traces(alloc, trie.len())?;
    let mut pool = Vec::new(alloc);
    walk_on(
        alloc,
        trie,
        links.as_mut_slice(),
        led.as_mut_slice(),
        &mut pool,
    )?;
    Ok(links)
}
