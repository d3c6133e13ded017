//! The nodes to which nodes refer.
ghost use Rattle.std.specs.Prelude.{◌≡◌, ◌++◌, IfOk, map};
ghost use Rattle.std.specs.List.{flat_map};
ghost use Rattle.fold_code.specs.inner.Shapes as spec;
ghost use Rattle.fold_code.specs.inner.Shapes.{ends_of_goal, ends_of_link, ends_of_optional, ends_of_unwind};

use crate::node::{FoldGoal, FoldNode, FoldUnwind, Link, NumberList};
use mo_types::{Items, OutOfMemory};
use std::alloc::Global;

fn with_goal(before: Vec<usize>, goal: &FoldGoal) -> Result<Vec<usize>, OutOfMemory>
    ensures { IfOk result (λ new. new.items ≡ before.items ++ ends_of_goal goal.now) }
{
    let mut ends = before;
    if let FoldGoal::Node(node, _) = goal {
        ends.push(*node as usize)?;
    }
    Ok(ends)
}

fn with_optional(before: Vec<usize>, goal: &Option<FoldGoal>) -> Result<Vec<usize>, OutOfMemory>
    ensures { IfOk result (λ new. new.items ≡ before.items ++ ends_of_optional goal.now) }
{
    match goal {
        Some(goal) => with_goal(before, goal),
        None => Ok(before),
    }
}

fn with_links(before: Vec<usize>, links: &[Link]) -> Result<Vec<usize>, OutOfMemory>
    ensures { IfOk result (λ new. new.items ≡ before.items ++ flat_map ends_of_link links.now) }
{
    let mut ends = before;
    for link in links {
        ends = with_goal(ends, &link.goal)?;
        ends = with_optional(ends, &link.minus)?;
    }
    Ok(ends)
}

fn with_unwinds(before: Vec<usize>, unwinds: &[FoldUnwind]) -> Result<Vec<usize>, OutOfMemory>
    ensures { IfOk result (λ new. new.items ≡ before.items ++ flat_map ends_of_unwind unwinds.now) }
{
    let mut ends = before;
    for unwind in unwinds {
        ends = with_optional(ends, &unwind.personality)?;
    }
    Ok(ends)
}

#[tactic(auto, unfolding(crate::specs::inner::Shapes::ends_of))]
fn ends_of(alloc: Global, node: &FoldNode) -> Result<NumberList, OutOfMemory>
    ensures { IfOk result (λ ends. ends ≡ spec.ends_of node.now) }
{
    let ends = with_links(Vec::new(alloc), node.links.as_slice())?;
    let ends = with_unwinds(ends, node.unwinds.as_slice())?;
    Ok(Items::from_vec(ends))
}

/// The numbers of the nodes to which each node refers, by its references and then by its unwind entries.
pub(crate) fn all_ends(alloc: Global, nodes: &[FoldNode]) -> Result<Vec<NumberList>, OutOfMemory>
    ensures { IfOk result (λ ends. ends.items ≡ map spec.ends_of nodes.now) }
{
    let mut all = Vec::with_capacity(alloc, nodes.len())?;
    for node in nodes {
        all.push(ends_of(alloc, node)?)?;
    }
    Ok(all)
}
