//! Which node stands for each.
ghost use Rattle.std.specs.Prelude.{◌≡◌, IfOk, map};
ghost use Rattle.fold_code.specs.Fold.{AreNodes, IsFolded};
ghost use Rattle.fold_code.specs.inner.Rounds.{IsRound};

use crate::ends::all_ends;
use crate::firsts::firsts_of;
use crate::node::{FoldNode, FoldNodes, NumberList};
use crate::round::next_round;
use crate::shape::Shape;
use mo_types::{Items, OutOfMemory};
use std::alloc::Global;

// The nodes as keys.
fn shapes<'a>(alloc: Global, nodes: &'a [FoldNode]) -> Result<Vec<Shape<'a>>, OutOfMemory>
    ensures { IfOk result (λ shapes. map (λ shape. shape.node.now) shapes.items ≡ nodes.now) }
{
    let mut shapes = Vec::with_capacity(alloc, nodes.len())?;
    for node in nodes {
        shapes.push(Shape { node })?;
    }
    Ok(shapes)
}

// The classes of nodes that have one shape.
fn first_round(alloc: Global, nodes: &[FoldNode]) -> Result<Vec<usize>, OutOfMemory>
    ensures { IfOk result (λ firsts. IsRound nodes.now firsts.items) }
{
    let shapes = shapes(alloc, nodes)?;
    let firsts = firsts_of(alloc, shapes.as_slice())?;
    Ok(firsts)
}

/// For each node the number of the node that stands for it: the first of its class in the coarsest partition into alike
/// nodes.
pub fn fold(alloc: Global, nodes: &FoldNodes) -> Result<NumberList, OutOfMemory>
    requires { AreNodes nodes.now }
    ensures { IfOk result (IsFolded nodes.now) }
{
    let nodes = nodes.as_slice();
    let ends = all_ends(alloc, nodes)?;
    let mut firsts = first_round(alloc, nodes)?;
    'rounds: loop {
        let next = next_round(alloc, firsts.as_slice(), ends.as_slice())?;
        if next == firsts {
            return Ok(Items::from_vec(firsts));
        }
        firsts = next;
    }
}
