//! Sets of pairs, as lists in which they stand in order.
ghost use Rattle.std.specs.Prelude.{◌≡◌, Contains, IfOk, MatchOption, Some, slice_get};
ghost use Rattle.std.specs.List.Sorted.{IsStrictlySortedBy};
ghost use Rattle.island_core.specs.Far as spec;
ghost use Rattle.island_core.specs.declared.row.Pair.{Pair};

use crate::row::{Case, Pair, Row};
use mo_types::OutOfMemory;
use std::alloc::Global;

// Some pairs in order, each once.
pub(crate) fn in_order(pairs: Vec<Pair>) -> Result<Vec<Pair>, OutOfMemory>
    ensures same { IfOk result (λ set. (pair : Pair) → spec.has set.items pair ≡ spec.has pairs.items pair) }
    ensures rises { IfOk result (λ set. IsStrictlySortedBy spec.compare_pairs set.items) }
{
    let mut set = pairs;
    set.sort()?;
    set.dedup();
    Ok(set)
}

// Whether a set has a pair.
pub(crate) fn has(set: &[Pair], pair: &Pair) -> bool
    requires { IsStrictlySortedBy spec.compare_pairs set.now }
    ensures { result ≡ spec.has set.now pair.now }
{
    match set.binary_search(pair) {
        Ok(_) => true,
        Err(_) => false,
    }
}

/// The number of a pair's island among all islands, counted from 0, or `None` exactly where it has none. Takes no memory.
pub fn place_of(far: &[Pair], pair: &Pair) -> Option<usize>
    requires { IsStrictlySortedBy spec.compare_pairs far.now }
    ensures { MatchOption result (¬ Contains far.now pair.now) (λ at. slice_get far.now at ≡ Some pair.now) }
{
    match far.binary_search(pair) {
        Ok(at) => Some(at),
        Err(_) => None,
    }
}

// Whether a branch stands in a group.
fn is_grouped(row: &Row) -> bool
    ensures { result ≡ spec.is_grouped row.now.case }
{
    match row.case {
        Case::Outside => false,
        Case::Away | Case::Plain | Case::Added => true,
    }
}

/// The pairs of the branches that stand in groups, in order, each once.
pub fn pairs_of(alloc: Global, rows: &[Row]) -> Result<Vec<Pair>, OutOfMemory>
    ensures { IfOk result (λ pairs. spec.ArePairs rows.now pairs.items) }
{
    let mut pairs = Vec::new(alloc);
    for row in rows {
        if is_grouped(row) {
            pairs.push(row.pair)?;
        }
    }
    in_order(pairs)
}
