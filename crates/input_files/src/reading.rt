//! Files as the link loads them.
ghost use Rattle.std.specs.Prelude.{◌≡◌, ◌<◌, ◌^◌, IfOk};
ghost use Rattle.mo_types.specs.Gives.{Gives};
ghost use Rattle.mo_types.specs.Kind as kinds;
ghost use Rattle.mo_types.specs.Loaded.{IsWholeFile};
ghost use Rattle.mo_types.specs.declared.kind.Kind.TheVariants as kind;
ghost use Rattle.mo_obj.specs.Object.{object_of};
ghost use Rattle.input_files.specs.Files as files;
ghost use Rattle.input_files.specs.Files.{HasUnwinds, IsLoadFault};

use crate::fault::LoadFault;
use mo_obj::{LinkObject, read_for_link};
use mo_types::{Bytes, Feature, FileId, Kind, LoadedFile, ObjFault, Refusal, Rule, kind_of};
use std::alloc::Global;

// The answer for a file that has a fault.
fn fault_of(label: Bytes, fault: ObjFault) -> LoadFault
    ensures { result ≡ files.fault_of label fault }
{
    match fault {
        ObjFault::Malformed { place, rule } => LoadFault::Refused(Refusal::Malformed {
            file: label,
            place,
            rule,
        }),
        ObjFault::Unsupported(feature) => LoadFault::Refused(Refusal::Unsupported {
            file: label,
            feature,
        }),
        ObjFault::Limit(which) => LoadFault::Refused(Refusal::Limit { which }),
        ObjFault::OutOfMemory => LoadFault::OutOfMemory,
    }
}

// Reads an object with its atoms, references and unwind entries.
#[tactic(auto, using(crate::proofs::ReadLemmas::reads))]
fn read_object(
    alloc: Global,
    id: FileId,
    label: Bytes,
    bytes: &Bytes,
) -> Result<LoadedFile, LoadFault>
    requires kind { kinds.kind_of bytes.now ≡ kind.MachO }
    requires member { id.member < 2 ^ 20 }
    ensures exact { Gives IsLoadFault result (files.object_read id label (object_of bytes.now)) }
    ensures whole { IfOk result IsWholeFile }
    ensures unwinds { IfOk result HasUnwinds }
{
    match read_for_link(alloc, bytes, id) {
        Ok(
            LinkObject {
                object,
                atoms,
                refs,
                unwinds,
            },
        ) => Ok(LoadedFile {
            id,
            label,
            object,
            atoms,
            refs,
            unwinds,
        }),
        Err(fault) => Err(fault_of(label, fault)),
    }
}

/// Reads a file, an object or an archive's member, as the link loads it: whole, with its atoms, references and unwind
/// entries; or tells the first of these that stands, under its label: another kind of file than a Mach-O file, LLVM's
/// bitcode as a feature; a rule that the object breaks, or a feature that the linker doesn't have.
#[tactic(auto, unfolding(crate::specs::Files::read_as))]
pub fn read_file(
    alloc: Global,
    id: FileId,
    label: Bytes,
    bytes: &Bytes,
) -> Result<LoadedFile, LoadFault>
    requires member { id.member < 2 ^ 20 }
    ensures exact { Gives IsLoadFault result (files.read_as id label bytes.now) }
    ensures whole { IfOk result IsWholeFile }
    ensures unwinds { IfOk result HasUnwinds }
{
    match kind_of(bytes.as_slice()) {
        Kind::MachO => read_object(alloc, id, label, bytes),
        Kind::Refused(Feature::Bitcode) => Err(LoadFault::Refused(Refusal::Unsupported {
            file: label,
            feature: Feature::Bitcode,
        })),
        _ => Err(LoadFault::Refused(Refusal::Malformed {
            file: label,
            place: 0,
            rule: Rule::NotAnInput,
        })),
    }
}
