//! What stands for functions.
ghost use Rattle.std.specs.Prelude.{◌≡◌, All, true};
ghost use Rattle.std.specs.List.Sorted.{IsStrictlySortedBy};
ghost use Rattle.std.specs.Ordering.{on};
ghost use Rattle.mo_types.specs.Keys.{compare_keys};
ghost use Rattle.fold_code.specs.Fold as spec;

use fold_code::{FoldGoal, FoldNode, FoldNodes, Link, fold};
use mo_types::{AtomKey, FileId, OutOfMemory};
use std::alloc::Global;
use std::cmp::Ordering;

/// The key of a function, by its number.
pub(crate) fn key(number: usize) -> AtomKey {
    AtomKey {
        file: FileId {
            position: 0,
            member: 0,
        },
        section: 1,
        offset: number as u64,
    }
}

fn is_rising(nodes: &[FoldNode]) -> bool
    ensures { result ≡ true → IsStrictlySortedBy (on spec.key_of compare_keys) nodes.now }
{
    for i in 1..nodes.len() {
        match nodes[i - 1].key.cmp(&nodes[i].key) {
            Ordering::Less => {}
            _ => return false,
        }
    }
    true
}

fn goal_is_within(count: usize, goal: &FoldGoal) -> bool
    ensures { result ≡ true → spec.GoalIsWithin count goal.now }
{
    match goal {
        FoldGoal::Node(node, _) => (*node as usize) < count,
        FoldGoal::Other(_) => true,
    }
}

fn is_within(count: usize, goal: &Option<FoldGoal>) -> bool
    ensures { result ≡ true → spec.IsWithin count goal.now }
{
    match goal {
        Some(goal) => goal_is_within(count, goal),
        None => true,
    }
}

fn link_is_within(count: usize, link: &Link) -> bool
    ensures { result ≡ true → spec.LinkIsWithin count link.now }
{
    goal_is_within(count, &link.goal) && is_within(count, &link.minus)
}

fn node_is_within(count: usize, node: &FoldNode) -> bool
    ensures { result ≡ true → spec.NodeIsWithin count node.now }
{
    node.links
        .as_slice()
        .iter()
        .all(|link| link_is_within(count, link))
        && node
            .unwinds
            .as_slice()
            .iter()
            .all(|unwind| is_within(count, &unwind.personality))
}

fn are_nodes(nodes: &[FoldNode]) -> bool
    ensures { result ≡ true → spec.AreNodes nodes.now }
{
    is_rising(nodes) && nodes.iter().all(|node| node_is_within(nodes.len(), node))
}

/// Whether these stand for the functions.
pub(crate) fn stand_for(
    alloc: Global,
    nodes: &FoldNodes,
    expected: &[usize],
) -> Result<bool, OutOfMemory> {
    if !are_nodes(nodes.as_slice()) {
        return Ok(false);
    }
    let firsts = fold(alloc, nodes)?;
    Ok(firsts.as_slice() == expected)
}
