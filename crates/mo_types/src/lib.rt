//! The types that the crates of atomld share, and the words in which their definitions speak.
//!
//! This crate has the types that all crates share. A contract sees `Bytes` as the list of its bytes, though it is a
//! part of bytes that it shares with others; `RefList` as the list of its references, of which it keeps most in 32
//! bytes, and it tells whether one leads straight to an atom (`has_local`); `Arg` as the bytes of its word; and
//! `Items` as the list of its elements, made from a vector and given back without memory. The orders of files and of
//! atoms are definitions, which the derived ones are. `Status::code` is the exit status. The line of each answer is a
//! table, `line_of`. `kind_of` tells what a file is by its first bytes, on all bytes and without memory.
//! `IsWholeLoaded` says what the objects of a link are, with their atoms and references. Which of their symbols are
//! candidates for the definition of a name, and the word of each, is said by `Object::is_candidate` and
//! `FileId::word_of`; to which section of the image a section's atoms go by `Section::destination_segment` and its
//! kin.
//!
//! A body that orders atoms by their offsets before their sections isn't proved, nor one in which different goals of
//! one name tie, one that exchanges two exit statuses, or one that loses what a reference subtracts.
#![tactic(auto)]

mod answer;
mod atom;
mod candidate;
mod cause;
mod destination;
mod edge;
mod goal;
mod items;
mod key;
mod kind;
mod loaded;
mod memory;
mod object;
mod object_fault;
mod out_section;
mod ref_list;
mod ref_row;
mod reference;
mod reference_fault;
mod section;
mod string;
mod unwind;
mod whole;

pub use answer::{Refusal, Status};
pub use atom::{Atom, AtomList};
pub use cause::{Feature, RangeKind, Rule, UsageRule, Which};
pub use edge::{Edge, EdgeList};
pub use goal::{Goal, GoalList};
pub use items::Items;
pub use key::{
    AtomKey, COMMON_SECTION, FileId, compare_atoms, files_are_in_order, keys_are_in_order,
};
pub use kind::{Kind, kind_of};
pub use loaded::{Loaded, LoadedFile, LoadedList};
pub use memory::OutOfMemory;
pub use object::{
    Object, RawReloc, RelocList, Section, SectionList, Symbol, SymbolKind, SymbolList,
};
pub use object_fault::ObjFault;
pub use out_section::{KeyList, OutSection, OutSections};
pub use ref_list::RefList;
pub use reference::{FieldRange, Ref, RefKind, Target};
pub use reference_fault::RefFault;
pub use string::{Arg, ArgList, Bytes, NameList, hashed_front};
pub use unwind::{Unwind, UnwindList};
