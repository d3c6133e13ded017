//! A linked section of an object with its atoms.

ghost use Rattle.std.specs.Prelude.{◌≡◌, ◌+◌, ◌≤◌};
ghost use Rattle.mo_types.specs.Atoms as cutting;
ghost use Rattle.reloc_read.specs.LinkedSection.{IsLinked};

use crate::cut_object::{CutObject, cut_of, cuts_of};
use mo_types::Section;

/// A linked section of an object with its atoms.
#[derive(Clone, Copy)]
pub struct LinkedSection<'a> {
    pub cut: CutObject<'a>,
    pub index: usize,
    pub section: &'a Section,
}

/// The cut of the atom to which an offset of the section belongs.
#[tactic(auto, using(crate::proofs::LinkedLemmas::linked))]
pub fn cut_at(linked: &LinkedSection, offset: u64) -> u64
    requires { IsLinked linked.now }
    ensures value { result ≡ cutting.cut_of linked.now.cut.object.now (linked.now.index + 1) linked.now.section.now offset }
    ensures within { result ≤ offset }
{
    cut_of(&linked.cut, linked.index, offset)
}

/// The cuts of the atoms to which two offsets of the section belong.
#[tactic(auto, using(crate::proofs::LinkedLemmas::linked))]
pub fn cuts_at(linked: &LinkedSection, offset: u64, behind: u64) -> (u64, u64)
    requires { IsLinked linked.now }
    ensures first { result.0 ≡ cutting.cut_of linked.now.cut.object.now (linked.now.index + 1) linked.now.section.now offset }
    ensures within { result.0 ≤ offset }
    ensures second { result.1 ≡ cutting.cut_of linked.now.cut.object.now (linked.now.index + 1) linked.now.section.now behind }
{
    cuts_of(&linked.cut, linked.index, offset, behind)
}
