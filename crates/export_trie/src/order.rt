ghost use Rattle.std.specs.Prelude.{IfOk, IsPermutation};
ghost use Rattle.std.specs.List.Sorted.{IsSortedBy};
ghost use Rattle.std.specs.Ordering.{is_lt, nat_cmp};
ghost use Rattle.std.specs.Cmp.Lexicographic.{slice_cmp};
ghost use Rattle.export_trie.specs.Held.{held};

use crate::export::ExportAddress;
use mo_types::OutOfMemory;
use std::alloc::Global;

/// The exports in the byte order of their names.
pub fn by_name(alloc: Global, exports: &[ExportAddress]) -> Result<Vec<&ExportAddress>, OutOfMemory>
    ensures permutation { IfOk result (λ order. IsPermutation exports.now (held order.items)) }
    ensures sorted { IfOk result (λ order. IsSortedBy (λ a b. is_lt (slice_cmp nat_cmp a.name b.name)) (held order.items)) }
{
    let mut order = Vec::with_capacity(alloc, exports.len())?;
    for export in exports {
        order.push(export)?;
    }
    order.sort_unstable_by(|a, b| a.name.cmp(&b.name));
    Ok(order)
}
