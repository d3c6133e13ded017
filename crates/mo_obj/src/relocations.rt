//! The rules of relocations, which the readers of atoms and references ask (`reloc.h`).

ghost use Rattle.std.specs.Prelude.{◌≡◌, Err, IfErr, IfOk, Ok};
ghost use Rattle.mo_types.specs.Atoms.{atoms_of};
ghost use Rattle.mo_types.specs.Refs.{refs_from};
ghost use Rattle.mo_types.specs.Whole.{IsWhole};
ghost use Rattle.mo_obj.specs.Faults.{IsObjFault};
ghost use Rattle.mo_obj.specs.Relocations as relocations;

use mo_types::{AtomList, FileId, ObjFault, Object, RefFault, Rule};
use reloc_read::{FoundRefs, read};
use std::alloc::Global;

/// The references of an object with what a relocation has that the linker doesn't, or the first rule that fails.
#[tactic(auto, using(crate::proofs::RelocationLemmas::answers))]
pub fn relocations_of(
    alloc: Global,
    object: &Object,
    atoms: &AtomList,
    file: FileId,
) -> Result<FoundRefs, ObjFault>
    requires whole { IsWhole object.now }
    requires atoms { atoms.now ≡ atoms_of object.now file }
    ensures feature { IfOk result (λ found. relocations.relocations_of object.now ≡ Ok found.feature) }
    ensures refs { IfOk result (λ found. found.refs ≡ refs_from object.now file 1 object.now.sections) }
    ensures fault { IfErr result (λ fault. IsObjFault fault → relocations.relocations_of object.now ≡ Err fault) }
{
    match read(alloc, object, atoms, file) {
        Ok(found) => Ok(found),
        Err(RefFault::BadPair { place }) => Err(ObjFault::Malformed {
            place,
            rule: Rule::Pair,
        }),
        Err(RefFault::BadShape { place }) => Err(ObjFault::Malformed {
            place,
            rule: Rule::Shape,
        }),
        Err(RefFault::BadPlace { place }) => Err(ObjFault::Malformed {
            place,
            rule: Rule::Place,
        }),
        Err(RefFault::BadTarget { place }) => Err(ObjFault::Malformed {
            place,
            rule: Rule::Target,
        }),
        Err(RefFault::Unsupported(feature)) => Err(ObjFault::Unsupported(feature)),
        Err(RefFault::OutOfMemory) => Err(ObjFault::OutOfMemory),
    }
}
