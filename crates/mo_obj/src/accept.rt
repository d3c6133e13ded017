//! What is asked of an object once its sections and symbols are read.

ghost use Rattle.std.specs.Prelude.{◌≡◌, Err, IfErr, IfOk, Ok};
ghost use Rattle.mo_types.specs.Atoms.{atoms_of};
ghost use Rattle.mo_types.specs.Refs.{refs_from, refs_of};
ghost use Rattle.mo_types.specs.Whole.{IsWhole};
ghost use Rattle.mo_types.specs.declared.key.FileId.{FileId};
ghost use Rattle.mo_obj.specs.Faults.{IsObjFault};
ghost use Rattle.mo_obj.specs.Object.{accepted};
ghost use Rattle.unwind_read.specs.Unwinds.{unwinds_of};

use crate::features::first_feature;
use crate::relocations::relocations_of;
use crate::unwinds;
use mo_types::{AtomList, FileId, ObjFault, Object, RefList, UnwindList, Which};
use reloc_read::FoundRefs;
use std::alloc::Global;

/// What an object's relocations and its unwind entries say.
#[derive(Debug, Drop)]
pub struct Accepted {
    pub refs: RefList,
    pub unwinds: UnwindList,
}

/// The references and unwind entries of an object whose relocations and entries keep their rules, that has nothing
/// that the linker doesn't have, and that has fewer than 2^24 symbols. `foreign` says that a symbol is of a kind that
/// isn't linked.
#[tactic(auto, using(crate::proofs::AcceptLemmas::accepts), unfolding(crate::specs::Object::accepted))]
pub fn accept(
    alloc: Global,
    object: &Object,
    atoms: &AtomList,
    file: FileId,
    foreign: bool,
) -> Result<Accepted, ObjFault>
    requires whole { IsWhole object.now }
    requires atoms { atoms.now ≡ atoms_of object.now file }
    ensures done { IfOk result (λ found. accepted object.now foreign ≡ Ok tt) }
    ensures fault { IfErr result (λ fault. IsObjFault fault → accepted object.now foreign ≡ Err fault) }
    ensures refs { IfOk result (λ found. found.refs ≡ refs_from object.now file 1 object.now.sections) }
    ensures read { IfOk result (λ found. (file : FileId) → refs_of object.now file ≡ Ok (refs_from object.now file 1 object.now.sections)) }
    ensures unwinds { IfOk result (λ found. unwinds_of object.now file ≡ Ok found.unwinds) }
    ensures entries { IfOk result (λ found. (file : FileId) → IfErr (unwinds_of object.now file) (λ fault. ⊥)) }
{
    let FoundRefs { refs, feature } = relocations_of(alloc, object, atoms, file)?;
    let unwinds = unwinds::unwinds_of(alloc, object, atoms, file)?;
    if let Some(feature) = first_feature(object, foreign, feature) {
        return Err(ObjFault::Unsupported(feature));
    }
    if object.symbols.len() >= 1 << 24 {
        return Err(ObjFault::Limit(Which::Symbols));
    }
    Ok(Accepted { refs, unwinds })
}
