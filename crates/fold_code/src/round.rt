//! One round of refining a partition.
ghost use Rattle.std.specs.Prelude.{◌≡◌, ◌<◌, All, IfOk, length, map};
ghost use Rattle.fold_code.specs.Fold.{partition_of};
ghost use Rattle.fold_code.specs.inner.Rounds.{AreBelow, AreRows, IsNext, row_of};

use crate::firsts::firsts_of;
use crate::node::NumberList;
use mo_types::{Items, OutOfMemory};
use std::alloc::Global;

// What tells a node of a class apart.
fn row(
    alloc: Global,
    firsts: &[usize],
    node: usize,
    ends: &[usize],
) -> Result<NumberList, OutOfMemory>
    requires node { node < length firsts.now }
    requires ends { All (λ end. end < length firsts.now) ends.now }
    ensures { IfOk result (λ row. row ≡ row_of (partition_of firsts.now) node ends.now) }
{
    let mut row = Vec::with_capacity(alloc, ends.len())?;
    row.push(firsts[node])?;
    for end in ends {
        row.push(firsts[*end])?;
    }
    Ok(Items::from_vec(row))
}

// What tells each node apart.
fn rows(
    alloc: Global,
    firsts: &[usize],
    ends: &[NumberList],
) -> Result<Vec<NumberList>, OutOfMemory>
    requires each { length firsts.now ≡ length ends.now }
    requires below { AreBelow (length firsts.now) ends.now }
    ensures { IfOk result (λ rows. AreRows firsts.now ends.now rows.items) }
{
    let mut rows = Vec::with_capacity(alloc, ends.len())?;
    for (node, ends) in ends.iter().enumerate() {
        rows.push(row(alloc, firsts, node, ends.as_slice())?)?;
    }
    Ok(rows)
}

// The rows as keys.
fn keys<'a>(alloc: Global, rows: &'a [NumberList]) -> Result<Vec<&'a [usize]>, OutOfMemory>
    ensures { IfOk result (λ keys. map (λ key. key.now) keys.items ≡ rows.now) }
{
    let mut keys = Vec::with_capacity(alloc, rows.len())?;
    for row in rows {
        keys.push(row.as_slice())?;
    }
    Ok(keys)
}

/// The classes of a partition, taken apart by the classes of the nodes to which nodes refer.
pub(crate) fn next_round(
    alloc: Global,
    firsts: &[usize],
    ends: &[NumberList],
) -> Result<Vec<usize>, OutOfMemory>
    requires each { length firsts.now ≡ length ends.now }
    requires below { AreBelow (length firsts.now) ends.now }
    ensures { IfOk result (λ next. IsNext ends.now firsts.now next.items) }
{
    let rows = rows(alloc, firsts, ends)?;
    let keys = keys(alloc, rows.as_slice())?;
    let next = firsts_of(alloc, keys.as_slice())?;
    Ok(next)
}
