ghost use Rattle.std.specs.Prelude.{◌≡◌, ◌+◌, ◌<◌, length, drop, IfSome};
ghost use Rattle.std.specs.Option.{option_copied};
ghost use Rattle.export_trie.specs.Strings.{before_nul};
ghost use Rattle.export_trie.specs.Lookup.{EdgeWithin, data_at, down, child_at, step, lookup};

use memchr::memchr;
use mo_bytes::uleb_read;

/// What an export trie says of a name.
#[derive(Clone, Copy, Debug, PartialEq, Eq)]
pub enum Found {
    /// The name is exported, with these flags (`loader.h`: EXPORT_SYMBOL_FLAGS) and this image offset.
    At { flags: u64, address: u64 },
    /// The name isn't exported.
    Absent,
    /// The walk left the bytes, met no uleb128 number where one must stand, or went to a node not after the last.
    Broken,
}

// What a walk does at a node.
#[derive(Clone, Copy)]
enum Step {
    Ends(Found),
    // To the node at `child`, along an edge of so many bytes.
    Goes { child: usize, edge: usize },
}

#[tactic(auto, unfolding(crate::specs::Lookup::data_at))]
fn found_at(trie: &[u8], size: u64, at: usize) -> Found
    ensures { result ≡ data_at trie.now size at }
{
    if size == 0 {
        return Found::Absent;
    }
    let Some((flags, next)) = uleb_read(trie, at) else {
        return Found::Broken;
    };
    let Some((address, _)) = uleb_read(trie, next) else {
        return Found::Broken;
    };
    Found::At { flags, address }
}

fn edge_at(trie: &[u8], at: usize) -> Option<&[u8]>
    ensures exact { option_copied result ≡ before_nul (drop at trie.now) }
    ensures within { IfSome result (λ edge. at + length edge.now < length trie.now) }
{
    if at > trie.len() {
        return None;
    }
    let rest = &trie[at..];
    let end = memchr(0, rest)?;
    Some(&rest[..end])
}

#[tactic(auto, unfolding(crate::specs::Lookup::child_at))]
fn child_step(trie: &[u8], node: usize, count: u8, first: usize, rest: &[u8]) -> Step
    ensures exact { result ≡ child_at trie.now node count first rest.now }
    ensures within { EdgeWithin (length rest.now) result }
{
    let mut at = first;
    for _ in 0..count {
        let Some(edge) = edge_at(trie, at) else {
            return Step::Ends(Found::Broken);
        };
        let Some((child, next)) = uleb_read(trie, at + edge.len() + 1) else {
            return Step::Ends(Found::Broken);
        };
        if rest.starts_with(edge) {
            return step_down(node, child as usize, edge.len());
        }
        at = next;
    }
    Step::Ends(Found::Absent)
}

// A node leads to later nodes alone.
fn step_down(node: usize, child: usize, edge: usize) -> Step
    ensures { result ≡ down node child edge }
{
    if node < child {
        Step::Goes { child, edge }
    } else {
        Step::Ends(Found::Broken)
    }
}

#[tactic(auto, unfolding(crate::specs::Lookup::step))]
fn step_from(trie: &[u8], node: usize, rest: &[u8]) -> Step
    ensures exact { result ≡ step trie.now node rest.now }
    ensures within { EdgeWithin (length rest.now) result }
{
    let Some((size, data)) = uleb_read(trie, node) else {
        return Step::Ends(Found::Broken);
    };
    if rest.is_empty() {
        return Step::Ends(found_at(trie, size, data));
    }
    if size >= (trie.len() - data) as u64 {
        return Step::Ends(Found::Broken);
    }
    let children = data + size as usize;
    child_step(trie, node, trie[children], children + 1, rest)
}

#[tactic(auto, unfolding(crate::specs::Lookup::walk))]
/// What a trie says of a name, whatever its bytes are (`loader.h`: LC_DYLD_EXPORTS_TRIE). At each node the walk
/// takes the first child whose edge begins the rest of the name. It takes no memory.
pub fn find(trie: &[u8], name: &[u8]) -> Found
    ensures { result ≡ lookup trie.now name.now }
{
    let mut node = 0;
    let mut rest = name;
    for _ in 0..trie.len() {
        match step_from(trie, node, rest) {
            Step::Ends(found) => return found,
            Step::Goes { child, edge } => {
                node = child;
                rest = &rest[edge..];
            }
        }
    }
    Found::Broken
}
