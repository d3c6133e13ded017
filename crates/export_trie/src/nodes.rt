ghost use Rattle.std.specs.Prelude.{◌≡◌, ◌≤◌, ◌<◌, ◌++◌, length, reverse, All, IfOk, OnOk};
ghost use Rattle.std.specs.List.Sorted.{IsStrictlySortedBy};
ghost use Rattle.std.specs.Ordering.{nat_cmp};
ghost use Rattle.std.specs.Cmp.Lexicographic.{slice_cmp};
ghost use Rattle.export_trie.specs.Strings.{common};
ghost use Rattle.export_trie.specs.Held.{AreBytes, held_names, text, Fits, AreHeld, Closes, last_bytes, entered};

use crate::export::ExportAddress;
use mo_types::OutOfMemory;
use std::alloc::Global;

/// A node of the trie, whose string is the first `len` bytes of the name at place `name` of the exports in order.
#[derive(Clone, Copy, Debug)]
pub struct Node {
    pub name: usize,
    pub len: usize,
}

/// The string of a node.
#[tactic(auto, unfolding(crate::specs::Held::text))]
pub fn text_of<'a>(exports: &[&'a ExportAddress], node: Node) -> &'a [u8]
    requires { Fits (held_names exports.now) node }
    ensures value { result.now ≡ text (held_names exports.now) node }
    ensures len { length result.now ≡ node.len }
{
    match exports.get(node.name) {
        Some(export) => &export.name.as_slice()[..node.len],
        None => &[],
    }
}

fn common_len(a: &[u8], b: &[u8]) -> usize
    ensures len { result ≡ length (common a.now b.now) }
    ensures bytes { AreBytes a.now }
{
    let mut len = 0;
    while len < a.len() && len < b.len() && a[len] == b[len] {
        len += 1;
    }
    len
}

fn last_len(nodes: &[Node]) -> usize
    ensures { result ≡ last_bytes nodes.now }
{
    match nodes {
        [.., node] => node.len,
        [] => 0,
    }
}

// Moves the nodes of more than `shared` bytes from the end of `path` to that of `done`.
fn close(path: &mut Vec<Node>, done: &mut Vec<Node>, shared: usize) -> Result<(), OutOfMemory>
    ensures same { OnOk result (path.new.items ++ reverse done.new.items ≡ path.old.items ++ reverse done.old.items) }
    ensures closed { OnOk result (Closes shared path.old.items path.new.items) }
    ensures short { OnOk result (last_bytes path.new.items ≤ shared) }
{
    while last_len(path.as_slice()) > shared {
        if let Some(node) = path.pop() {
            done.push(node)?;
        }
    }
    Ok(())
}

// Puts the nodes of a name behind those that it shares with the later ones.
fn enter(path: &mut Vec<Node>, name: usize, shared: usize, len: usize) -> Result<(), OutOfMemory>
    ensures { OnOk result (path.new.items ≡ entered path.old.items name shared len) }
{
    let last = last_len(path.as_slice());
    if last == shared && shared == len {
        path.pop();
    } else if last < shared && shared < len {
        path.push(Node { name, len: shared })?;
    }
    path.push(Node { name, len })?;
    Ok(())
}

/// The nodes of exports in order, in byte order.
pub fn nodes(alloc: Global, exports: &[&ExportAddress]) -> Result<Vec<Node>, OutOfMemory>
    requires { IsStrictlySortedBy (slice_cmp nat_cmp) (held_names exports.now) }
    ensures held { IfOk result (λ nodes. AreHeld (held_names exports.now) nodes.items) }
    ensures bytes { OnOk result (All AreBytes (held_names exports.now)) }
{
    let mut done = Vec::new(alloc);
    // The nodes that begin the last name that was entered, the root first.
    let mut path = vec![in alloc; Node { name: 0, len: 0 }]?;
    let mut later: &[u8] = &[];
    let mut left = exports.len();
    while left > 0 {
        left -= 1;
        let name = exports[left].name.as_slice();
        let shared = common_len(name, later);
        close(&mut path, &mut done, shared)?;
        enter(&mut path, left, shared, name.len())?;
        later = name;
    }
    while let Some(node) = path.pop() {
        done.push(node)?;
    }
    done.reverse();
    Ok(done)
}
