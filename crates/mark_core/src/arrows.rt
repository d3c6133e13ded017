//! Edges and supports as one list of arrows, each from an atom to one that is kept with it.
ghost use Rattle.std.specs.Prelude.{◌≡◌, ◌≤◌, ◌++◌, ◌∷◌, [], true, false, length, slice_range, IfOk, IfSome, if◌then◌else◌};
ghost use Rattle.std.specs.List.Sorted.{IsPartitionPoint, IsPermutation};
ghost use Rattle.mark_core.specs.Kept.{has};
ghost use Rattle.mark_core.specs.inner.Arrows as spec;
ghost use Rattle.mark_core.specs.inner.Arrows.{AreFrom, AreSorted, is_before, is_up_to, reversed};

use crate::key_set::KeySet;
use mo_types::{AtomKey, Edge, OutOfMemory};
use std::alloc::Global;

// The other way round.
fn turned(edge: &Edge) -> Edge
    ensures { result ≡ reversed edge.now }
{
    Edge {
        from: edge.to,
        to: edge.from,
    }
}

// The edges, and the supports turned round.
fn all_arrows(edges: Vec<Edge>, supports: &[Edge]) -> Result<Vec<Edge>, OutOfMemory>
    ensures { IfOk result (λ all. all.items ≡ spec.arrows edges.items supports.now) }
{
    let mut all = edges;
    for support in supports {
        all.push(turned(support))?;
    }
    Ok(all)
}

/// The arrows by rising source.
pub(crate) fn sorted_arrows(edges: Vec<Edge>, supports: &[Edge]) -> Result<Vec<Edge>, OutOfMemory>
    ensures these { IfOk result (λ all. IsPermutation (spec.arrows edges.items supports.now) all.items) }
    ensures sorted { IfOk result (λ all. AreSorted all.items) }
{
    let mut all = all_arrows(edges, supports)?;
    all.sort()?;
    Ok(all)
}

// The last source that was asked for, and whether it is a root: arrows from one atom stand together.
#[derive(Clone, Copy)]
struct LastSource {
    key: AtomKey,
    is_root: bool,
}

// Whether an atom is a root, where that of another one is known.
fn ask(roots: &KeySet, last: &Option<LastSource>, key: AtomKey) -> bool
    requires { IfSome last.now (λ asked. asked.is_root ≡ has roots.now asked.key) }
    ensures { result ≡ has roots.now key }
{
    match last {
        Some(asked) if asked.key == key => asked.is_root,
        _ => roots.contains(&key),
    }
}

// Ends, and that of an arrow, if it is from a root.
fn with_end(before: Vec<AtomKey>, arrow: &Edge, is_root: bool) -> Result<Vec<AtomKey>, OutOfMemory>
    ensures { IfOk result (λ new. new.items ≡ before.items ++ (if is_root then spec.end_of arrow.now ∷ [] else [])) }
{
    let mut ends = before;
    if is_root {
        ends.push(arrow.to)?;
    }
    Ok(ends)
}

/// Where the arrows from roots end; arrows from one atom stand together.
pub(crate) fn ends_from(
    alloc: Global,
    arrows: &[Edge],
    roots: &KeySet,
) -> Result<Vec<AtomKey>, OutOfMemory>
    ensures { IfOk result (λ ends. ends.items ≡ spec.ends_from roots.now arrows.now) }
{
    let mut ends = Vec::new(alloc);
    let mut last = None;
    for arrow in arrows {
        let key = arrow.from;
        let is_root = ask(roots, &last, key);
        last = Some(LastSource { key, is_root });
        ends = with_end(ends, arrow, is_root)?;
    }
    Ok(ends)
}

// How many arrows are from an atom before a key.
fn count_before(arrows: &[Edge], key: &AtomKey) -> usize
    requires { AreSorted arrows.now }
    ensures bound { result ≤ length arrows.now }
    ensures point { IsPartitionPoint (λ arrow. is_before key.now arrow ≡ true) (λ arrow. is_before key.now arrow ≡ false) arrows.now result }
{
    arrows.partition_point(|arrow| arrow.from.cmp(key).is_lt())
}

// How many arrows are from an atom that isn't after a key.
fn count_up_to(arrows: &[Edge], key: &AtomKey) -> usize
    requires { AreSorted arrows.now }
    ensures bound { result ≤ length arrows.now }
    ensures point { IsPartitionPoint (λ arrow. is_up_to key.now arrow ≡ true) (λ arrow. is_up_to key.now arrow ≡ false) arrows.now result }
{
    arrows.partition_point(|arrow| arrow.from.cmp(key).is_le())
}

// The arrows from a place to another one.
fn part(arrows: &[Edge], from: usize, to: usize) -> &[Edge]
    requires order { from ≤ to }
    requires bound { to ≤ length arrows.now }
    ensures { result.now ≡ slice_range arrows.now from to }
{
    &arrows[from..to]
}

/// The arrows from an atom.
pub(crate) fn arrows_from<'a>(arrows: &'a [Edge], key: &AtomKey) -> &'a [Edge]
    requires { AreSorted arrows.now }
    ensures { AreFrom arrows.now key.now result.now }
{
    let from = count_before(arrows, key);
    let to = count_up_to(arrows, key);
    part(arrows, from, to)
}
