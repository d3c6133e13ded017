//! Reads relocatable objects (`loader.h`, `nlist.h`, `reloc.h`).
//!
//! `read_object` answers exactly what the definition gives (`specs/Object.antt`): the one object that the bytes are,
//! each field the number at its place; or the first rule that the file breaks, at the least place at which it does; or
//! else the first feature that the linker doesn't have; or the limit of 2^24 symbols (`exact`). An object that was
//! read meets the condition of `cut`, `refs_of` and `unwind_of` (`whole`), and its references and unwind entries are
//! always answered (`refs`, `unwinds`). These hold of the definition itself, of any bytes, and a fault that it gives is
//! never want of memory (`what_is_read_is_whole`). `read_for_link` answers the same object with its atoms, references
//! and unwind entries, each made once. Names and contents are parts of the file. No contract speaks of memory; by
//! measure reading takes at most 64 times the file's bytes and 64 MiB. A file whose sections share so much that it
//! would take more is told as want of memory.
//!
//! Facts beside the definition are compared with the format by eye (`specs/Rules.antt`, `specs/Facts.antt`). The bytes
//! are an object exactly where the definition reads it (`objects_are_read`): each part is what its header or entry
//! says, no rule fails, no feature is missing, and there are fewer than 2^24 symbols. A fault is told exactly where it
//! is the first (`faults_are_told`): a rule fails at the place, at none before it, and those before it nowhere; a
//! feature and the limit come only where no rule fails, and another machine or type of file where the header is whole.
//! A Mach-O file is one object or has one first fault, not both (`an_object_or_a_fault`).
//!
//! Refused are a body that tells relocations outside the file before sections outside it, one that tells a feature
//! before a rule that unwind entries break, and one that numbers atoms as another file's.
#![tactic(auto)]

ghost use Rattle.std.specs.Prelude.{◌≡◌, Err, IfErr, IfOk, Ok};
ghost use Rattle.mo_types.specs.Atoms.{atoms_of};
ghost use Rattle.mo_types.specs.Gives.{Gives};
ghost use Rattle.mo_types.specs.Kind as kinds;
ghost use Rattle.mo_types.specs.Refs.{refs_of};
ghost use Rattle.mo_types.specs.Whole.{IsWhole};
ghost use Rattle.mo_types.specs.declared.key.FileId.{FileId};
ghost use Rattle.mo_types.specs.declared.kind.Kind.TheVariants as kind;
ghost use Rattle.mo_obj.specs.Faults.{IsObjFault};
ghost use Rattle.mo_obj.specs.Object.{described, object_of};
ghost use Rattle.unwind_read.specs.Unwinds.{unwinds_of};

mod accept;
mod commands;
mod features;
mod header;
mod laws;
mod names;
mod relocations;
mod sections;
mod symbols;
mod unwinds;

use accept::{Accepted, accept};
use atom_cut::cut;
use commands::{commands_of, frame_of};
use header::header_of;
pub use laws::{
    an_object_or_a_fault, faults_are_told, objects_are_read, one_object_at_most,
    what_is_read_is_whole,
};
use mo_format::loader::MH_SUBSECTIONS_VIA_SYMBOLS;
use mo_types::{AtomList, Bytes, FileId, ObjFault, Object, RefList, UnwindList};
use sections::{checked_sections, keep_literals};
use std::alloc::Global;
use symbols::{any_foreign, symbols_of, symtab_of};

/// The object that a file describes, before its relocations are asked.
#[derive(Debug, Drop)]
struct Described {
    object: Object,
    /// Whether a symbol is of a kind that isn't linked.
    foreign: bool,
}

/// An object, its atoms, its references and its unwind entries.
#[derive(Debug, Drop)]
pub struct LinkObject {
    pub object: Object,
    pub atoms: AtomList,
    pub refs: RefList,
    pub unwinds: UnwindList,
}

// No rule looks at which file it is.
const FILE: FileId = FileId {
    position: 0,
    member: 0,
};

#[tactic(auto, using(crate::proofs::AcceptLemmas::wholes), unfolding(crate::specs::Object::described))]
fn describe(alloc: Global, file: &Bytes) -> Result<Described, ObjFault>
    ensures exact { Gives IsObjFault result (described file.now) }
    ensures whole { IfOk result (λ read. IsWhole read.object) }
{
    let bytes = file.as_slice();
    let header = header_of(bytes)?;
    let commands = commands_of(alloc, bytes, &header)?;
    let frame = frame_of(alloc, bytes, commands.as_slice())?;
    let sections = checked_sections(alloc, file, frame)?;
    let symtab = symtab_of(bytes, frame)?;
    let symbols = symbols_of(alloc, file, &symtab, sections.as_slice())?;
    keep_literals(frame, sections.as_slice())?;
    let object = Object {
        subsections: header.flags & MH_SUBSECTIONS_VIA_SYMBOLS != 0,
        sections,
        symbols,
    };
    Ok(Described {
        object,
        foreign: any_foreign(bytes, &symtab),
    })
}

/// Reads the object that a Mach-O file is, whole, so that its atoms and references can be read; or tells the
/// first of these that stands: a rule that the file breaks, with its least place, a feature that the linker
/// doesn't have, 2^24 symbols. Names and contents are parts of the file, and share its bytes.
#[tactic(auto, unfolding(crate::specs::Object::object_of))]
pub fn read_object(alloc: Global, file: &Bytes) -> Result<Object, ObjFault>
    requires { kinds.kind_of file.now ≡ kind.MachO }
    ensures exact { Gives IsObjFault result (object_of file.now) }
    ensures whole { IfOk result IsWhole }
    ensures refs { IfOk result (λ object. (file : FileId) → IfErr (refs_of object file) (λ fault. ⊥)) }
    ensures unwinds { IfOk result (λ object. (file : FileId) → IfErr (unwinds_of object file) (λ fault. ⊥)) }
{
    let Described { object, foreign } = describe(alloc, file)?;
    let atoms = cut(alloc, &object, FILE)?;
    accept(alloc, &object, &atoms, FILE, foreign)?;
    Ok(object)
}

/// Reads an object as `read_object` does, with its atoms, references and unwind entries as those of the file of a
/// number. Each is made once.
#[tactic(auto, unfolding(crate::specs::Object::object_of))]
pub fn read_for_link(alloc: Global, file: &Bytes, id: FileId) -> Result<LinkObject, ObjFault>
    requires { kinds.kind_of file.now ≡ kind.MachO }
    ensures object { IfOk result (λ read. object_of file.now ≡ Ok read.object) }
    ensures fault { IfErr result (λ fault. IsObjFault fault → object_of file.now ≡ Err fault) }
    ensures whole { IfOk result (λ read. IsWhole read.object) }
    ensures atoms { IfOk result (λ read. read.atoms ≡ atoms_of read.object id) }
    ensures refs { IfOk result (λ read. refs_of read.object id ≡ Ok read.refs) }
    ensures unwinds { IfOk result (λ read. unwinds_of read.object id ≡ Ok read.unwinds) }
{
    let Described { object, foreign } = describe(alloc, file)?;
    let atoms = cut(alloc, &object, id)?;
    let Accepted { refs, unwinds } = accept(alloc, &object, &atoms, id, foreign)?;
    Ok(LinkObject {
        object,
        atoms,
        refs,
        unwinds,
    })
}
