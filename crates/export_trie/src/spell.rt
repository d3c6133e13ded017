ghost use Rattle.std.specs.Prelude.{◌≡◌, ◌+◌, ◌≤◌, ◌<◌, ◌∷◌, ◌++◌, ℕ, All, length, drop, OnOk, IfOk};
ghost use Rattle.std.specs.List.{AllByRecursion};
ghost use Rattle.std.specs.Option.{option_copied};
ghost use Rattle.mo_bytes.specs.Uleb.{uleb};
ghost use Rattle.export_trie.specs.Trie.{data_of, padded};
ghost use Rattle.export_trie.specs.Held.{held, held_names, rows_of, text, Fits};
ghost use Rattle.export_trie.specs.Sizes.{export_held, IsBelow, AreBelow, IsSmall, sized, row_bytes, held_node, held_bytes};

use crate::export::ExportAddress;
use crate::nodes::{Node, text_of};
use crate::places::export_of;
use mo_bytes::{uleb_len, uleb_put};
use mo_types::OutOfMemory;
use std::alloc::Global;

fn put_info(out: &mut Vec<u8>, export: Option<&ExportAddress>) -> Result<(), OutOfMemory>
    ensures ok { OnOk result (out.new.items ≡ out.old.items ++ sized (data_of (option_copied export.entry))) }
    ensures small { IsSmall (option_copied export.entry) }
{
    match export {
        Some(export) => {
            let size = uleb_len(export.flags) + uleb_len(export.address);
            uleb_put(out, size as u64)?;
            uleb_put(out, export.flags)?;
            uleb_put(out, export.address)?;
        }
        None => uleb_put(out, 0)?,
    }
    Ok(())
}

fn put_child(out: &mut Vec<u8>, edge: &[u8], place: usize) -> Result<(), OutOfMemory>
    ensures { OnOk result (out.new.items ≡ out.old.items ++ (edge.now ++ 0 ∷ uleb place)) }
{
    out.extend_from_slice(edge)?;
    out.push(0)?;
    uleb_put(out, place as u64)?;
    Ok(())
}

// What a node's string has more than the bytes above it.
fn edge_of<'a>(exports: &[&'a ExportAddress], node: Node, above: usize) -> &'a [u8]
    requires fits { Fits (held_names exports.now) node }
    requires within { above ≤ node.len }
    ensures { result.now ≡ drop above (text (held_names exports.now) node) }
{
    let text = text_of(exports, node);
    &text[above..]
}

fn put_children(
    out: &mut Vec<u8>,
    exports: &[&ExportAddress],
    nodes: &[Node],
    places: &[usize],
    above: usize,
    row: &[usize],
) -> Result<(), OutOfMemory>
    requires long { length places.now ≡ length nodes.now }
    requires fits { All (Fits (held_names exports.now)) nodes.now }
    requires below { AllByRecursion (IsBelow nodes.now above) row.now }
    ensures { OnOk result (out.new.items ≡ out.old.items ++ row_bytes (held_names exports.now) nodes.now places.now above row.now) }
{
    for child in row {
        let edge = edge_of(exports, nodes[*child], above);
        put_child(out, edge, places[*child])?;
    }
    Ok(())
}

#[tactic(auto, unfolding(crate::specs::Sizes::held_node))]
fn put_node(
    out: &mut Vec<u8>,
    exports: &[&ExportAddress],
    nodes: &[Node],
    places: &[usize],
    node: Node,
    row: &[usize],
) -> Result<(), OutOfMemory>
    requires long { length places.now ≡ length nodes.now }
    requires fits { All (Fits (held_names exports.now)) nodes.now }
    requires below { AllByRecursion (IsBelow nodes.now node.len) row.now }
    requires few { length row.now < 256 }
    ensures ok { OnOk result (out.new.items ≡ out.old.items ++ held_node (held exports.now) nodes.now places.now node row.now) }
    ensures small { IsSmall (export_held (held exports.now) node) }
{
    put_info(out, export_of(exports, node))?;
    out.push(row.len() as u8)?;
    put_children(out, exports, nodes, places, node.len, row)
}

/// The bytes of the nodes, which have these places.
pub fn spell(
    alloc: Global,
    exports: &[&ExportAddress],
    nodes: &[Node],
    rows: &[Vec<usize>],
    places: &[usize],
) -> Result<Vec<u8>, OutOfMemory>
    requires long { length places.now ≡ length nodes.now }
    requires rows { length rows.now ≡ length nodes.now }
    requires fits { All (Fits (held_names exports.now)) nodes.now }
    requires below { AreBelow nodes.now (rows_of rows.now) }
    requires few { All (λ row. length row.items < 256) rows.now }
    ensures exact { IfOk result (λ out. out.items ≡ held_bytes (held exports.now) nodes.now places.now nodes.now (rows_of rows.now)) }
    ensures small { OnOk result (All (λ node. IsSmall (export_held (held exports.now) node)) nodes.now) }
{
    let mut out = Vec::new(alloc);
    for (at, node) in nodes.iter().enumerate() {
        put_node(&mut out, exports, nodes, places, *node, rows[at].as_slice())?;
    }
    Ok(out)
}

/// Puts zeros at the end, up to a multiple of eight bytes.
pub fn pad(out: &mut Vec<u8>) -> Result<(), OutOfMemory>
    ensures { OnOk result (out.new.items ≡ padded out.old.items) }
{
    let zeros = [0; 8];
    out.extend_from_slice(&zeros[..(8 - out.len() % 8) % 8])?;
    Ok(())
}
