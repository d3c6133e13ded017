ghost use Rattle.std.specs.Prelude.{◌≡◌, ◌+◌, ◌≤◌, ◌<◌, ◌^◌, ℕ, All, length, IfOk, IfSome, IfNone, slice_index};
ghost use Rattle.std.specs.List.{AllByRecursion};
ghost use Rattle.std.specs.Option.{option_copied};
ghost use Rattle.export_trie.specs.Trie.{data_of};
ghost use Rattle.export_trie.specs.Held.{held, rows_of};
ghost use Rattle.export_trie.specs.Sizes.{export_held, IsBelow, AreBelow, children_len as children_bytes, node_len as node_bytes, next_starts, AreLeast};

use crate::export::ExportAddress;
use crate::nodes::Node;
use mo_bytes::uleb_len;
use mo_types::OutOfMemory;
use std::alloc::Global;

/// The export whose name is the node's string.
pub fn export_of<'a>(exports: &[&'a ExportAddress], node: Node) -> Option<&'a ExportAddress>
    ensures { option_copied result ≡ export_held (held exports.now) node }
{
    match exports.get(node.name) {
        Some(export) if export.name.len() == node.len => Some(*export),
        _ => None,
    }
}

fn info_len(export: Option<&ExportAddress>) -> usize
    ensures exact { result ≡ length (data_of (option_copied export.entry)) }
    ensures few { result ≤ 20 }
{
    match export {
        Some(export) => uleb_len(export.flags) + uleb_len(export.address),
        None => 0,
    }
}

// The bytes of the children of a node of `above` bytes, or `None` where they are too many to count.
fn children_len(nodes: &[Node], places: &[usize], above: usize, row: &[usize]) -> Option<usize>
    requires long { length places.now ≡ length nodes.now }
    requires below { AllByRecursion (IsBelow nodes.now above) row.now }
    ensures exact { IfSome result (λ bytes. bytes ≡ children_bytes nodes.now places.now above row.now) }
    ensures none { IfNone result (2 ^ 64 ≤ children_bytes nodes.now places.now above row.now) }
{
    let mut size = 0usize;
    for child in row {
        let edge = nodes[*child].len - above;
        let number = uleb_len(places[*child] as u64);
        size = size.checked_add(edge)?.checked_add(1 + number)?;
    }
    Some(size)
}

// The bytes of a node, or `None` where they are too many to count.
#[tactic(auto, unfolding(crate::specs::Sizes::node_len))]
fn node_len(
    exports: &[&ExportAddress],
    nodes: &[Node],
    places: &[usize],
    node: Node,
    row: &[usize],
) -> Option<usize>
    requires long { length places.now ≡ length nodes.now }
    requires below { AllByRecursion (IsBelow nodes.now node.len) row.now }
    ensures exact { IfSome result (λ bytes. bytes ≡ node_bytes (held exports.now) nodes.now places.now node row.now) }
    ensures none { IfNone result (2 ^ 64 ≤ node_bytes (held exports.now) nodes.now places.now node row.now) }
{
    let info = info_len(export_of(exports, node));
    let below = children_len(nodes, places, node.len, row)?;
    below.checked_add(uleb_len(info as u64) + info + 1)
}

// Where the nodes begin if they have the sizes that go with these places.
fn next_places(
    alloc: Global,
    exports: &[&ExportAddress],
    nodes: &[Node],
    rows: &[Vec<usize>],
    places: &[usize],
) -> Result<Vec<usize>, OutOfMemory>
    requires long { length places.now ≡ length nodes.now }
    requires rows { length rows.now ≡ length nodes.now }
    requires below { AreBelow nodes.now (rows_of rows.now) }
    ensures exact { IfOk result (λ next. next.items ≡ next_starts (held exports.now) nodes.now (rows_of rows.now) places.now) }
    ensures small { IfOk result (λ next. All (λ place. place < 2 ^ 64) next.items) }
{
    let mut next = Vec::with_capacity(alloc, nodes.len())?;
    let mut place = 0usize;
    for (at, node) in nodes.iter().enumerate() {
        next.push(place)?;
        let Some(size) = node_len(exports, nodes, places, *node, rows[at].as_slice()) else {
            return Err(OutOfMemory);
        };
        let Some(end) = place.checked_add(size) else {
            return Err(OutOfMemory);
        };
        place = end;
    }
    Ok(next)
}

/// The least places that agree with the sizes of the nodes.
pub fn places(
    alloc: Global,
    exports: &[&ExportAddress],
    nodes: &[Node],
    rows: &[Vec<usize>],
) -> Result<Vec<usize>, OutOfMemory>
    requires rows { length rows.now ≡ length nodes.now }
    requires below { AreBelow nodes.now (rows_of rows.now) }
    ensures { IfOk result (λ places. AreLeast (held exports.now) nodes.now (rows_of rows.now) places.items) }
{
    let mut places = vec![in alloc; 0; nodes.len()]?;
    loop {
        let next = next_places(alloc, exports, nodes, rows, places.as_slice())?;
        if next == places {
            return Ok(places);
        }
        places = next;
    }
}
