ghost use Rattle.std.specs.Prelude.{◌≡◌, ◌≢◌, ℕ, List, All, Contains, AllPairs, IfOk};
ghost use Rattle.export_trie.specs.Lookup.{lookup};
ghost use Rattle.export_trie.specs.Trie.{answer, IsTrie};

use crate::export::ExportAddresses;
use crate::family::children;
use crate::nodes::nodes;
use crate::order::by_name;
use crate::places::places;
use crate::spell::{pad, spell};
use mo_types::OutOfMemory;
use std::alloc::Global;

/// The export trie of some exports, whose names are distinct and hold no NUL (`loader.h`:
/// LC_DYLD_EXPORTS_TRIE), with zeros up to a multiple of eight bytes.
pub fn write_trie(alloc: Global, exports: &ExportAddresses) -> Result<Vec<u8>, OutOfMemory>
    requires distinct { AllPairs (λ a b. a.name ≢ b.name) exports.now }
    requires no_nul { All (λ export. ¬ Contains export.name 0) exports.now }
    ensures exact { IfOk result (λ trie. IsTrie exports.now trie.items) }
    // No other bytes are.
    ensures only { IfOk result (λ trie. (other : List ℕ) → IsTrie exports.now other → other ≡ trie.items) }
    // A look-up finds each export, and no other name.
    ensures found { IfOk result (λ trie. (name : List ℕ) → lookup trie.items name ≡ answer exports.now name) }
{
    let order = by_name(alloc, exports.as_slice())?;
    let order = order.as_slice();
    let nodes = nodes(alloc, order)?;
    let nodes = nodes.as_slice();
    let rows = children(alloc, order, nodes)?;
    let rows = rows.as_slice();
    let places = places(alloc, order, nodes, rows)?;
    let mut bytes = spell(alloc, order, nodes, rows, places.as_slice())?;
    pad(&mut bytes)?;
    Ok(bytes)
}
