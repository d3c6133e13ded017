//! The rule of unwind entries, which their reader asks (`compact_unwind_encoding.h`).

ghost use Rattle.std.specs.Prelude.{◌≡◌, Err, IfErr, IfOk, Ok};
ghost use Rattle.mo_types.specs.Atoms.{atoms_of};
ghost use Rattle.mo_types.specs.Whole.{IsWhole};
ghost use Rattle.mo_obj.specs.Entries.{entries_of};
ghost use Rattle.mo_obj.specs.Faults.{IsObjFault};
ghost use Rattle.unwind_read.specs.Unwinds as unwinds;

use mo_types::{AtomList, FileId, ObjFault, Object, Rule, UnwindList};
use std::alloc::Global;
use unwind_read::{UnwindFault, unwind_of};

/// The unwind entries of an object, or the least place at which their rule fails.
#[tactic(auto, using(crate::proofs::UnwindLemmas::answers))]
pub fn unwinds_of(
    alloc: Global,
    object: &Object,
    atoms: &AtomList,
    file: FileId,
) -> Result<UnwindList, ObjFault>
    requires whole { IsWhole object.now }
    requires atoms { atoms.now ≡ atoms_of object.now file }
    ensures unwinds { IfOk result (λ found. unwinds.unwinds_of object.now file ≡ Ok found) }
    ensures kept { IfOk result (λ found. entries_of object.now ≡ Ok tt) }
    ensures fault { IfErr result (λ fault. IsObjFault fault → entries_of object.now ≡ Err fault) }
{
    match unwind_of(alloc, object, atoms, file) {
        Ok(found) => Ok(found),
        Err(UnwindFault::BadEntry { place }) => Err(ObjFault::Malformed {
            place,
            rule: Rule::Unwind,
        }),
        Err(UnwindFault::OutOfMemory) => Err(ObjFault::OutOfMemory),
    }
}
