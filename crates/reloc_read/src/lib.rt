//! The references of an object: what its relocations say, after the rules that they keep.
//!
//! This crate reads what the relocations of such an object say: `refs_of` gives exactly the references of the
//! definition, one for each row of the table of relocations, each with its atom, place, kind, target and addend. Or it
//! answers the first of the rules Pair, Shape, Place and Target that fails, at the least place at which it does, or
//! the first relocation feature that the linker doesn't have. `read` gives that feature beside the references, where
//! no rule fails (`feature`, `refs`, `fault`); it goes through the rows once for the rules and the references. The
//! rules know of no walk: that fields don't overlap, say, is a statement on two rows, which the code decides by the
//! order of the rows where fields rise or fall all the way, or else by sorting where fields begin and end. The
//! definition is `refs_of` (`specs/Refs.antt` of `mo_types`).
//!
//! No body meets its contract that reads an addend of 24 bits without its sign, that drops what a reference subtracts,
//! that takes an address for the offset in the section, or that misses two fields that overlap.
#![tactic(auto)]

ghost use Rattle.std.specs.Prelude.{◌≡◌, Err, IfErr, IfOk, Ok};
ghost use Rattle.mo_types.specs.Atoms.{atoms_of};
ghost use Rattle.mo_types.specs.Gives.{Gives};
ghost use Rattle.mo_types.specs.Refs.{IsRefFault};
ghost use Rattle.mo_types.specs.Refs as refs;
ghost use Rattle.mo_types.specs.Whole.{IsWhole};
ghost use Rattle.reloc_read.specs.Checked.{checked};

mod cut_object;
mod faults;
mod features;
mod guide;
mod linked_section;
mod numbers;
mod overlaps;
mod reading;
mod refs;
mod rows;
mod rules;
mod targets;

use cut_object::CutObject;
use features::feature_of;
use guide::guides_of;
use mo_types::{AtomList, Feature, FileId, Object, RefFault, RefList};
use reading::read_sections;
use std::alloc::Global;

/// The references of an object, and the first feature of its relocations that the linker doesn't have, if there is
/// one.
#[derive(Debug, Drop)]
pub struct FoundRefs {
    pub refs: RefList,
    pub feature: Option<Feature>,
}

/// What the relocations of a whole object with its atoms are: the first of the rules Pair, Shape, Place and Target
/// that fails, at its least place; or else one reference for each row of the table of relocations, section by section
/// and in a section in the order of its relocations, and the first feature that the linker doesn't have
/// (`mach-o/arm64/reloc.h`).
#[tactic(auto, unfolding(crate::specs::Checked::checked))]
pub fn read(
    alloc: Global,
    object: &Object,
    atoms: &AtomList,
    file: FileId,
) -> Result<FoundRefs, RefFault>
    requires whole { IsWhole object.now }
    requires atoms { atoms.now ≡ atoms_of object.now file }
    ensures feature { IfOk result (λ found. checked object.now ≡ Ok found.feature) }
    ensures refs { IfOk result (λ found. found.refs ≡ refs.refs_from object.now file 1 object.now.sections) }
    ensures fault { IfErr result (λ fault. IsRefFault fault → checked object.now ≡ Err fault) }
{
    let guides = guides_of(alloc, atoms.as_slice(), object.sections.as_slice())?;
    let cut = CutObject {
        object,
        atoms: atoms.as_slice(),
        guides: guides.as_slice(),
        file,
    };
    let mut refs = RefList::new(alloc, file);
    let faults = read_sections(alloc, &mut refs, &cut)?;
    if let Some(place) = faults.pair {
        return Err(RefFault::BadPair { place });
    }
    if let Some(place) = faults.shape {
        return Err(RefFault::BadShape { place });
    }
    if let Some(place) = faults.place {
        return Err(RefFault::BadPlace { place });
    }
    if let Some(place) = faults.target {
        return Err(RefFault::BadTarget { place });
    }
    Ok(FoundRefs {
        refs,
        feature: feature_of(object),
    })
}

/// The references of a whole object with its atoms; or the first rule that fails, as `read` tells it, or the feature
/// that the linker doesn't have.
#[tactic(auto, using(crate::proofs::CheckedLemmas::checks))]
pub fn refs_of(
    alloc: Global,
    object: &Object,
    atoms: &AtomList,
    file: FileId,
) -> Result<RefList, RefFault>
    requires whole { IsWhole object.now }
    requires atoms { atoms.now ≡ atoms_of object.now file }
    ensures { Gives IsRefFault result (refs.refs_of object.now file) }
{
    let FoundRefs { refs, feature } = read(alloc, object, atoms, file)?;
    if let Some(feature) = feature {
        return Err(RefFault::Unsupported(feature));
    }
    Ok(refs)
}
