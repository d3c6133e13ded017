ghost use Rattle.std.specs.Prelude.{◌≡◌, ◌<◌, ◌≤◌, [], replicate, length, vec_len, IfOk};
ghost use Rattle.export_trie.specs.Held.{held_names, texts, AreHeld, IsParent, AreParents, rows_of, HoldsChildren};

use crate::export::ExportAddress;
use crate::nodes::{Node, text_of};
use mo_types::OutOfMemory;
use std::alloc::Global;

// The last node before this one whose string begins this one's. Each node but the first has one.
fn parent_of(exports: &[&ExportAddress], nodes: &[Node], parents: &[usize], at: usize) -> usize
    requires held { AreHeld (held_names exports.now) nodes.now }
    requires some { 0 < at }
    requires within { at < length nodes.now }
    requires long { length parents.now ≡ at }
    requires before { AreParents (texts (held_names exports.now) nodes.now) at parents.now }
    ensures { IsParent (texts (held_names exports.now) nodes.now) at result }
{
    let text = text_of(exports, nodes[at]);
    let mut above = at - 1;
    while !text.starts_with(text_of(exports, nodes[above])) {
        above = parents[above];
    }
    above
}

fn parents(
    alloc: Global,
    exports: &[&ExportAddress],
    nodes: &[Node],
) -> Result<Vec<usize>, OutOfMemory>
    requires held { AreHeld (held_names exports.now) nodes.now }
    ensures long { IfOk result (λ parents. length nodes.now ≤ vec_len parents) }
    ensures each { IfOk result (λ parents. AreParents (texts (held_names exports.now) nodes.now) (length nodes.now) parents.items) }
{
    let mut parents = vec![in alloc; 0]?;
    for at in 1..nodes.len() {
        let parent = parent_of(exports, nodes, parents.as_slice(), at);
        parents.push(parent)?;
    }
    Ok(parents)
}

fn empty_rows(alloc: Global, count: usize) -> Result<Vec<Vec<usize>>, OutOfMemory>
    ensures { IfOk result (λ rows. rows_of rows.items ≡ replicate count []) }
{
    let mut rows = Vec::with_capacity(alloc, count)?;
    for _ in 0..count {
        rows.push(Vec::new(alloc))?;
    }
    Ok(rows)
}

/// The children of each node, in order.
pub fn children(
    alloc: Global,
    exports: &[&ExportAddress],
    nodes: &[Node],
) -> Result<Vec<Vec<usize>>, OutOfMemory>
    requires { AreHeld (held_names exports.now) nodes.now }
    ensures { IfOk result (λ rows. HoldsChildren (texts (held_names exports.now) nodes.now) (rows_of rows.items)) }
{
    let parents = parents(alloc, exports, nodes)?;
    let mut rows = empty_rows(alloc, nodes.len())?;
    for at in 1..nodes.len() {
        let row = &mut rows[parents[at]];
        row.push(at)?;
    }
    Ok(rows)
}
