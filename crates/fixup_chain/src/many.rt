//! Whether there are too many imports, as can be told before anything has an address.
ghost use Rattle.std.specs.Prelude.{IfOk, IsTrue};
ghost use Rattle.fixup_chain.specs.Chained.{AreMany};

use crate::chains::FixupList;
use crate::imports::bound_imports;
use mo_types::OutOfMemory;
use std::alloc::Global;

/// Words have room for fewer imports than these.
pub(crate) const IMPORTS: usize = 1 << 24;

/// Whether some pointers are bound to 2^24 imports or more, so that `encode` answers `Limit(Imports)` wherever they stand:
/// their addresses and atoms aren't looked at.
pub fn has_many_imports(alloc: Global, fixups: &FixupList) -> Result<bool, OutOfMemory>
    ensures only { IfOk result (λ many. IsTrue many → AreMany fixups.now) }
    ensures all { IfOk result (λ many. AreMany fixups.now → IsTrue many) }
{
    let fixups = fixups.as_slice();
    if fixups.len() < IMPORTS {
        return Ok(false);
    }
    let formed = bound_imports(alloc, fixups)?;
    Ok(formed.rows.len() >= IMPORTS)
}
