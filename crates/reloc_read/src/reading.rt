//! One pass over the relocations of an object: the least place at which each rule fails, and the references.

ghost use Rattle.std.specs.Prelude.{◌≡◌, ◌+◌, ◌++◌, ◌<◌, ◌≤◌, None, length, slice_index_or, IfOk, IfSome, OnOk};
ghost use Rattle.mo_types.specs.Refs as refs;
ghost use Rattle.mo_types.specs.declared.object.Section.{Section};
ghost use Rattle.std.specs.Option.{option_to_list};
ghost use Rattle.reloc_read.specs.CutObject.{IsCut};
ghost use Rattle.reloc_read.specs.Faults as faults;
ghost use Rattle.reloc_read.specs.Faults.{IsClean};
ghost use Rattle.reloc_read.specs.LinkedSection as linking;
ghost use Rattle.reloc_read.specs.LinkedSection.{IsLinked};
ghost use Rattle.reloc_read.specs.Overlaps.{Tells};
ghost use Rattle.reloc_read.specs.RelocRow.{IsRow, field_cut};

use crate::cut_object::CutObject;
use crate::faults::{Faults, NONE, faults_of_none, faults_of_row, merge};
use crate::linked_section::LinkedSection;
use crate::overlaps::{Overlaps, overlaps_of};
use crate::refs::reference;
use crate::rows::{RelocRow, row_at};
use crate::rules::{field_cut, place_fault};
use crate::targets::target_fault;
use mo_types::{OutOfMemory, Ref, RefList};
use std::alloc::Global;

fn add(out: &mut RefList, reference: Option<Ref>) -> Result<(), OutOfMemory>
    ensures { OnOk result (out.new ≡ out.old ++ option_to_list reference) }
{
    if let Some(reference) = reference {
        out.push(reference)?;
    }
    Ok(())
}

// Puts the reference of a row that keeps the rules of places and targets at the end of the others.
#[tactic(auto, using(crate::proofs::RowLemmas::references))]
fn add_row(
    out: &mut RefList,
    linked: &LinkedSection,
    at: usize,
    row: &RelocRow,
    cut: Option<u64>,
    target: Option<usize>,
) -> Result<(), OutOfMemory>
    requires linked { IsLinked linked.now }
    requires row { IsRow linked.now.section.now.relocs at row.now }
    requires cut { cut ≡ field_cut linked.now at row.now }
    requires low { IfSome cut (λ cut. cut ≤ row.now.field.offset) }
    requires target { target ≡ linking.target_fault linked.now at }
    ensures { OnOk result (linking.place_fault linked.now at ≡ None → linking.target_fault linked.now at ≡ None
        → out.new ≡ out.old ++ option_to_list (linking.reference_at linked.now at)) }
{
    let Some(cut) = cut else {
        return Ok(());
    };
    if target.is_some() {
        return Ok(());
    }
    add(out, reference(linked, row, cut))?;
    Ok(())
}

#[tactic(auto, using(crate::proofs::RefLemmas::cleans))]
fn read_row(
    out: &mut RefList,
    linked: &LinkedSection,
    at: usize,
    row: &RelocRow,
    overlaps: &Overlaps,
) -> Result<Faults, OutOfMemory>
    requires linked { IsLinked linked.now }
    requires index { at < length linked.now.section.now.relocs }
    requires row { IsRow linked.now.section.now.relocs at row.now }
    requires overlaps { Tells linked.now.section.now.relocs overlaps.now }
    ensures faults { IfOk result (λ found. found ≡ faults.row_faults linked.now.cut.object.now (linked.now.index + 1) linked.now.section.now at) }
    ensures refs { OnOk result (IsClean linked.now.cut.object.now → out.new ≡ out.old ++ option_to_list (linking.reference_at linked.now at)) }
{
    let cut = field_cut(linked, at, row, overlaps);
    let target = target_fault(linked.cut.object, linked.section, at, row);
    add_row(out, linked, at, row, cut, target)?;
    let place = place_fault(linked, at, row, cut);
    Ok(faults_of_row(linked, at, row, place, target))
}

// Puts the reference of the row that ends at a place at the end of the others, where the object keeps the rules, and
// tells the faults there.
#[tactic(auto, using(crate::proofs::RefLemmas::nones, crate::proofs::LinkedLemmas::linked))]
fn read_at(
    out: &mut RefList,
    linked: &LinkedSection,
    at: usize,
    overlaps: &Overlaps,
) -> Result<Faults, OutOfMemory>
    requires linked { IsLinked linked.now }
    requires index { at < length linked.now.section.now.relocs }
    requires overlaps { Tells linked.now.section.now.relocs overlaps.now }
    ensures faults { IfOk result (λ found. found ≡ faults.row_faults linked.now.cut.object.now (linked.now.index + 1) linked.now.section.now at) }
    ensures refs { OnOk result (IsClean linked.now.cut.object.now → out.new ≡ out.old ++ option_to_list (linking.reference_at linked.now at)) }
{
    match row_at(linked.section.relocs.as_slice(), at) {
        Some(row) => read_row(out, linked, at, &row, overlaps),
        None => Ok(faults_of_none(linked.section, at)),
    }
}

// The same of all rows of a linked section; `overlaps` tells which of its fields overlap.
#[tactic(auto, using(crate::proofs::FaultLemmas::rows, crate::proofs::RefLemmas::rows))]
fn read_rows(
    out: &mut RefList,
    linked: &LinkedSection,
    overlaps: &Overlaps,
) -> Result<Faults, OutOfMemory>
    requires linked { IsLinked linked.now }
    requires overlaps { Tells linked.now.section.now.relocs overlaps.now }
    ensures faults { IfOk result (λ found. found ≡ faults.section_faults linked.now.cut.object.now (linked.now.index + 1) linked.now.section.now) }
    ensures refs { OnOk result (IsClean linked.now.cut.object.now → out.new ≡ out.old ++ linking.refs_of linked.now) }
{
    out.reserve(linked.section.relocs.len())?;
    let mut found = NONE;
    for at in 0..linked.section.relocs.len() {
        found = merge(found, read_at(out, linked, at, overlaps)?);
    }
    Ok(found)
}

#[tactic(auto, using(crate::proofs::FaultLemmas::sections, crate::proofs::RefLemmas::sections))]
fn read_section(
    alloc: Global,
    out: &mut RefList,
    cut: &CutObject,
    index: usize,
) -> Result<Faults, OutOfMemory>
    requires cut { IsCut cut.now }
    requires index { index < length cut.now.object.now.sections }
    ensures faults { IfOk result (λ found. (d : Section)
        → found ≡ faults.section_faults cut.now.object.now (index + 1) (slice_index_or cut.now.object.now.sections index d)) }
    ensures refs { OnOk result (IsClean cut.now.object.now → (d : Section)
        → out.new ≡ out.old ++ refs.section_refs cut.now.object.now cut.now.file (index + 1) (slice_index_or cut.now.object.now.sections index d)) }
{
    let section = &cut.object.sections.as_slice()[index];
    if section.is_dropped() {
        return Ok(NONE);
    }
    let linked = LinkedSection {
        cut: *cut,
        index,
        section,
    };
    let overlaps = overlaps_of(alloc, section.relocs.as_slice())?;
    read_rows(out, &linked, &overlaps)
}

/// The least places at which the rules fail; where those of places and targets hold, the references are put at the
/// end of the others.
#[tactic(auto, using(crate::proofs::FaultLemmas::objects, crate::proofs::RefLemmas::objects))]
pub fn read_sections(
    alloc: Global,
    out: &mut RefList,
    cut: &CutObject,
) -> Result<Faults, OutOfMemory>
    requires { IsCut cut.now }
    ensures faults { IfOk result (λ found. found ≡ faults.all_faults cut.now.object.now) }
    ensures refs { OnOk result (IsClean cut.now.object.now
        → out.new ≡ out.old ++ refs.refs_from cut.now.object.now cut.now.file 1 cut.now.object.now.sections) }
{
    let mut found = NONE;
    for index in 0..cut.object.sections.len() {
        found = merge(found, read_section(alloc, out, cut, index)?);
    }
    Ok(found)
}
