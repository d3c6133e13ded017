//! The least place at which each rule of relocations fails.

ghost use Rattle.std.specs.Prelude.{◌≡◌, ◌+◌, ◌*◌, ◌<◌, ◌≤◌, ◌^◌, ℕ, None, length, slice_index_or, IfSome, IfOk};
ghost use Rattle.mo_types.specs.RelocationRules as rules;
ghost use Rattle.mo_types.specs.declared.object.Object.{Object};
ghost use Rattle.mo_types.specs.declared.object.Section.{Section};
ghost use Rattle.reloc_read.specs.CutObject.{IsCut};
ghost use Rattle.reloc_read.specs.Faults as faults;
ghost use Rattle.reloc_read.specs.LinkedSection.{IsLinked};
ghost use Rattle.reloc_read.specs.Overlaps.{Tells};
ghost use Rattle.reloc_read.specs.RelocRow.{IsRow};

use crate::cut_object::CutObject;
use crate::linked_section::LinkedSection;
use crate::overlaps::{Overlaps, overlaps_of};
use crate::rows::{RelocRow, row_at};
use crate::rules::{field_fault, pair_fault, place_fault, shape_fault};
use crate::targets::target_fault;
use mo_types::{OutOfMemory, Section};
use std::alloc::Global;

/// For each rule the least place at which it fails, where it does.
#[derive(Clone, Copy, Debug, PartialEq, Eq)]
pub struct Faults {
    pub pair: Option<u64>,
    pub shape: Option<u64>,
    pub place: Option<u64>,
    pub target: Option<u64>,
}

fn lesser(a: Option<u64>, b: Option<u64>) -> Option<u64>
    ensures { result ≡ faults.lesser a b }
{
    match (a, b) {
        (Some(a), Some(b)) => Some(a.min(b)),
        (Some(a), None) => Some(a),
        (None, b) => b,
    }
}

/// No rule fails.
pub const NONE: Faults = Faults {
    pair: None,
    shape: None,
    place: None,
    target: None,
};

/// For each rule the lesser place.
pub fn merge(a: Faults, b: Faults) -> Faults
    ensures { result ≡ faults.merged a b }
{
    Faults {
        pair: lesser(a.pair, b.pair),
        shape: lesser(a.shape, b.shape),
        place: lesser(a.place, b.place),
        target: lesser(a.target, b.target),
    }
}

// The place in the object's bytes of a relocation of a section.
fn place_of(section: &Section, index: Option<usize>) -> Option<u64>
    requires room { section.now.reloc_offset + 8 * length section.now.relocs < 2 ^ 64 }
    requires within { IfSome index (λ i. i < length section.now.relocs) }
    ensures { result ≡ faults.place_of section.now index }
{
    let index = index?;
    Some(section.reloc_offset + 8 * index as u64)
}

/// The faults of a row, which keeps the rules of pairs and shapes, by those of its place and its target.
#[tactic(auto, using(crate::proofs::RowLemmas::faults, crate::proofs::LinkedLemmas::linked))]
pub fn faults_of_row(
    linked: &LinkedSection,
    at: usize,
    row: &RelocRow,
    place: Option<usize>,
    target: Option<usize>,
) -> Faults
    requires linked { IsLinked linked.now }
    requires index { at < length linked.now.section.now.relocs }
    requires row { IsRow linked.now.section.now.relocs at row.now }
    requires place { place ≡ rules.place_fault linked.now.cut.object.now (linked.now.index + 1) linked.now.section.now at }
    requires target { target ≡ rules.target_fault linked.now.cut.object.now (linked.now.index + 1) linked.now.section.now at }
    requires place_within { IfSome place (λ index. index ≤ at) }
    requires target_within { IfSome target (λ index. index ≤ at) }
    ensures { result ≡ faults.row_faults linked.now.cut.object.now (linked.now.index + 1) linked.now.section.now at }
{
    Faults {
        pair: None,
        shape: None,
        place: place_of(linked.section, place),
        target: place_of(linked.section, target),
    }
}

/// The faults at a place at which no row with a field ends.
#[tactic(auto, using(crate::proofs::RowLemmas::faults))]
pub fn faults_of_none(section: &Section, at: usize) -> Faults
    requires room { section.now.reloc_offset + 8 * length section.now.relocs < 2 ^ 64 }
    requires index { at < length section.now.relocs }
    requires none { rules.field_at section.now.relocs at ≡ None }
    ensures { (object : Object) (number : ℕ) → result ≡ faults.row_faults object number section.now at }
{
    Faults {
        pair: place_of(section, pair_fault(section, at)),
        shape: place_of(section, shape_fault(section, at)),
        place: place_of(section, field_fault(section, at)),
        target: None,
    }
}
