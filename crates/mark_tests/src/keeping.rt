//! Atoms that are kept, by workers and by one thread.
ghost use Rattle.std.specs.Prelude.{◌<◌};

use crate::tables::next;
use mark_core::{KeySet, kept};
use mark_race::kept_by;
use mo_outside::{FreeGate, Gate, MeetGate};
use mo_types::{AtomKey, Edge, EdgeList, FileId, Items, KeyList, OutOfMemory};
use std::alloc::Global;
use std::thread::Threads;

// The atom of a number, in one of three files.
fn atom(number: u32) -> AtomKey {
    AtomKey {
        file: FileId {
            position: (number % 3) as u16,
            member: 0,
        },
        section: 1,
        offset: u64::from(number),
    }
}

fn edge(from: u32, to: u32) -> Edge {
    Edge {
        from: atom(from),
        to: atom(to),
    }
}

/// What edges, supports and roots are asked about.
#[derive(Drop)]
pub(crate) struct Graph {
    edges: EdgeList,
    supports: EdgeList,
    roots: KeyList,
}

impl Graph {
    /// A graph of one root.
    fn of_root(alloc: Global, root: u32) -> Result<Graph, OutOfMemory> {
        let mut roots = Items::new(alloc);
        roots.push(atom(root))?;
        Ok(Graph {
            edges: Items::new(alloc),
            supports: Items::new(alloc),
            roots,
        })
    }

    /// What so many workers keep, who begin at a gate.
    fn kept_at<R: Threads + Sync, G: Gate + Sync>(
        &self,
        rt: &R,
        alloc: Global,
        gate: &G,
        workers: u32,
    ) -> Result<KeyList, OutOfMemory> {
        let edges = Vec::from_slice(alloc, self.edges.as_slice())?;
        let roots = Vec::from_slice(alloc, self.roots.as_slice())?;
        let roots = KeySet::from_vec(alloc, roots)?;
        kept_by(
            rt,
            alloc,
            gate,
            workers,
            Items::from_vec(edges),
            &self.supports,
            roots,
        )
    }

    /// Whether each of these numbers of workers keeps what one thread keeps.
    fn is_kept<R: Threads + Sync>(
        &self,
        rt: &R,
        alloc: Global,
        numbers: &[u32],
    ) -> Result<bool, OutOfMemory> {
        let wanted = kept(alloc, &self.edges, &self.supports, &self.roots)?;
        for workers in numbers {
            let found = self.kept_at(rt, alloc, &FreeGate, *workers)?;
            if found.as_slice() != wanted.as_slice() {
                return Ok(false);
            }
        }
        Ok(true)
    }
}

// Edges between so many atoms, without a pattern.
fn scattered_edges(
    alloc: Global,
    atoms: u32,
    count: u32,
    seed: u32,
) -> Result<EdgeList, OutOfMemory>
    requires { 0 < atoms }
{
    let mut edges = Items::new(alloc);
    let mut number = seed.wrapping_mul(0x9e37_79b9) | 1;
    for _edge in 0..count {
        let from = next(number);
        number = next(from);
        edges.push(edge(from % atoms, number % atoms))?;
    }
    Ok(edges)
}

/// Whether graphs without a pattern are kept by workers as by one thread.
pub(crate) fn graphs_are_kept<R: Threads + Sync>(
    rt: &R,
    alloc: Global,
) -> Result<bool, OutOfMemory> {
    for seed in 0..20u32 {
        let mut graph = Graph::of_root(alloc, seed % 50)?;
        graph.edges = scattered_edges(alloc, 50, 50, seed)?;
        graph.supports = scattered_edges(alloc, 50, 10, seed.wrapping_add(1000))?;
        graph.roots.push(atom(7))?;
        if !graph.is_kept(rt, alloc, &[0, 1, 2, 7, 64])? {
            return Ok(false);
        }
    }
    Ok(true)
}

/// Whether each atom of a chain of 100,000 is kept by workers.
pub(crate) fn chain_is_kept<R: Threads + Sync>(rt: &R, alloc: Global) -> Result<bool, OutOfMemory> {
    let mut graph = Graph::of_root(alloc, 0)?;
    for number in 1..100_000u32 {
        graph.edges.push(edge(number.wrapping_sub(1), number))?;
    }
    Ok(graph.kept_at(rt, alloc, &FreeGate, 2)?.len() == 100_000)
}

/// Whether each atom to which a million edges lead from one is kept by workers.
pub(crate) fn star_is_kept<R: Threads + Sync>(rt: &R, alloc: Global) -> Result<bool, OutOfMemory> {
    let mut graph = Graph::of_root(alloc, 0)?;
    for number in 1..=1_000_000u32 {
        graph.edges.push(edge(0, number))?;
    }
    Ok(graph.kept_at(rt, alloc, &FreeGate, 7)?.len() == 1_000_001)
}

/// Whether of rings of ten atoms, in which each supports the next one, that of the root is kept by workers.
pub(crate) fn ring_is_kept<R: Threads + Sync>(rt: &R, alloc: Global) -> Result<bool, OutOfMemory> {
    let mut graph = Graph::of_root(alloc, 33)?;
    for number in 0..1000u32 {
        let following = if number % 10 == 9 {
            number.wrapping_sub(9)
        } else {
            number.wrapping_add(1)
        };
        graph.supports.push(edge(number, following))?;
    }
    let found = graph.kept_at(rt, alloc, &FreeGate, 2)?;
    Ok(found.len() == 10 && graph.is_kept(rt, alloc, &[1, 2, 7, 64])?)
}

/// Whether an atom that supports the root is kept, and not what the root supports.
pub(crate) fn support_is_kept<R: Threads + Sync>(
    rt: &R,
    alloc: Global,
) -> Result<bool, OutOfMemory> {
    let mut graph = Graph::of_root(alloc, 1)?;
    graph.supports.push(edge(0, 1))?;
    graph.supports.push(edge(1, 2))?;
    let found = graph.kept_at(rt, alloc, &FreeGate, 2)?;
    Ok(found.as_slice() == [atom(0), atom(1)].as_slice())
}

/// Whether two workers meet who follow the edges of two roots. A body that follows both in one thread doesn't meet: the
/// first worker waits at the gate until its looks run out.
pub(crate) fn keeping_meets<R: Threads + Sync>(rt: &R, alloc: Global) -> Result<bool, OutOfMemory> {
    let gate = MeetGate::new(1_000_000_000);
    let mut graph = Graph::of_root(alloc, 0)?;
    graph.roots.push(atom(3))?;
    graph.edges.push(edge(0, 6))?;
    graph.edges.push(edge(3, 9))?;
    let found = graph.kept_at(rt, alloc, &gate, 2)?;
    Ok(gate.met() && found.as_slice() == [atom(0), atom(3), atom(6), atom(9)].as_slice())
}
