//! The references of each file by their atoms.
ghost use Rattle.std.specs.Prelude.{IfOk};
ghost use Rattle.ref_meet.specs.inner.Orders.{AreOrders};

use liveness::{RefOrder, ref_order};
use mo_types::{Items, LoadedFile, OutOfMemory};
use std::alloc::Global;

/// For each file its references in the order of their atoms.
pub type FileOrders = Items<RefOrder>;

/// The orders of the references of files.
#[tactic(auto, using(crate::proofs::OrderLemmas::orders))]
pub fn orders_of(alloc: Global, files: &[LoadedFile]) -> Result<FileOrders, OutOfMemory>
    ensures { IfOk result (AreOrders files.now) }
{
    let mut orders = Items::new(alloc);
    for file in files {
        orders.push(ref_order(alloc, &file.refs)?)?;
    }
    Ok(orders)
}
