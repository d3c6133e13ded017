//! The names that the paths to nodes of a trie spell.

ghost use Rattle.std.specs.Prelude.{◌≡◌, ◌++◌, [], OnOk};
ghost use Rattle.dylib_read.specs.inner.TrieLinks as made;

use crate::trie_node::Edge;
use crate::trie_walk::{Link, label, link_at};
use mo_types::OutOfMemory;

// The edges that lead to a node, the last one first.
#[tactic(auto, using(crate::proofs::TrieNameLemmas::ways))]
fn way_to(way: &mut Vec<Edge>, links: &[Option<Link>], at: usize) -> Result<(), OutOfMemory>
    requires back { made.IsBack links.now }
    requires marked { made.IsMarked links.now at }
    requires empty { way.old.items ≡ [] }
    ensures { OnOk result (made.IsWay links.now at way.new.items) }
{
    let mut node = at;
    while node != 0 {
        let link = link_at(links, node);
        way.push(link.edge)?;
        node = link.from;
    }
    Ok(())
}

// Appends what the edges of a way spell.
#[tactic(auto, using(crate::proofs::TrieNameLemmas::spellings))]
fn spell(name: &mut Vec<u8>, trie: &[u8], way: &[Edge]) -> Result<(), OutOfMemory>
    ensures { OnOk result (name.new.items ≡ name.old.items ++ made.spelled trie.now way.now) }
{
    let mut left = way.len();
    while left > 0 {
        left -= 1;
        name.extend_from_slice(label(trie, way[left]))?;
    }
    Ok(())
}

/// Puts the name of a marked node in the place of another, by way of a list of edges.
pub fn put_name(
    name: &mut Vec<u8>,
    way: &mut Vec<Edge>,
    trie: &[u8],
    links: &[Option<Link>],
    at: usize,
) -> Result<(), OutOfMemory>
    requires walked { made.IsComplete trie.now links.now }
    requires marked { made.IsMarked links.now at }
    ensures { OnOk result (made.IsNamed trie.now links.now at name.new.items) }
{
    way.clear();
    way_to(way, links, at)?;
    name.clear();
    spell(name, trie, way.as_slice())?;
    Ok(())
}
