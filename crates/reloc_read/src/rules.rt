//! The rules that relocations keep: for a place of a section's table, the relocation at fault there.

ghost use Rattle.std.specs.Prelude.{◌≡◌, ◌+◌, ◌%◌, ◌<◌, ◌≤◌, ◌==◌, ◌&&◌, ◌||◌, not, ℕ, length, None, Some, IfSome};
ghost use Rattle.mo_types.specs.Atoms.{cut_of};
ghost use Rattle.mo_types.specs.RelocationRules as rules;
ghost use Rattle.mo_types.specs.Rows as table;
ghost use Rattle.mo_types.specs.Rows.{when};
ghost use Rattle.mo_types.specs.declared.object.Object.{Object};
ghost use Rattle.reloc_read.specs.Fields.{IsSmall};
ghost use Rattle.reloc_read.specs.LinkedSection.{IsLinked};
ghost use Rattle.reloc_read.specs.Overlaps.{Tells};
ghost use Rattle.reloc_read.specs.RelocRow as rows;
ghost use Rattle.reloc_read.specs.RelocRow.{IsRow};

use crate::linked_section::{LinkedSection, cuts_at};
use crate::overlaps::{Overlaps, overlaps_another};
use crate::rows::{
    RelocRow, first_before, is_first, is_instruction, is_second, is_subtractor, kind_at, last_at,
};
use mo_types::{FieldRange, RawReloc, Section};

/// The first of two relocations that isn't followed by the second.
#[tactic(auto, unfolding(mo_types::specs::RelocationRules::pair_fault))]
pub fn pair_fault(section: &Section, at: usize) -> Option<usize>
    requires { at < length section.now.relocs }
    ensures value { (object : Object) (number : ℕ) → result ≡ rules.pair_fault object number section.now at }
    ensures within { IfSome result (λ index. index ≤ at) }
{
    let relocs = section.relocs.as_slice();
    let reloc = relocs.get(at)?;
    let followed = match relocs.get(at + 1) {
        Some(next) => is_second(reloc, next),
        None => false,
    };
    if is_first(reloc) && !followed {
        return Some(at);
    }
    None
}

/// The relocation of a row that the table doesn't have.
#[tactic(auto, unfolding(mo_types::specs::RelocationRules::shape_fault))]
pub fn shape_fault(section: &Section, at: usize) -> Option<usize>
    ensures value { (object : Object) (number : ℕ) → result ≡ rules.shape_fault object number section.now at }
    ensures within { IfSome result (λ index. index ≤ at) }
{
    let relocs = section.relocs.as_slice();
    if last_at(relocs, at).is_none() || kind_at(relocs, at).is_some() {
        return None;
    }
    match first_before(relocs, at) {
        Some(first) if is_subtractor(&first) => Some(at - 1),
        _ => Some(at),
    }
}

// The first relocation of the row that ends at a place.
fn row_start(relocs: &[RawReloc], at: usize) -> usize
    ensures value { result ≡ rules.row_start relocs.now at }
    ensures within { result ≤ at }
{
    if first_before(relocs, at).is_some() {
        at - 1
    } else {
        at
    }
}

// The cut of the atom that holds the whole field, where one does.
fn cut_around(linked: &LinkedSection, field: &FieldRange) -> Option<u64>
    requires linked { IsLinked linked.now }
    requires small { IsSmall field.now }
    ensures value { result ≡ when (rules.is_in_one_atom linked.now.cut.object.now (linked.now.index + 1) linked.now.section.now field.now)
        (cut_of linked.now.cut.object.now (linked.now.index + 1) linked.now.section.now field.now.offset) }
    ensures within { IfSome result (λ cut. cut ≤ field.now.offset) }
{
    let end = field.offset + field.size;
    if end > linked.section.size {
        return None;
    }
    let (first, last) = cuts_at(linked, field.offset, end - 1);
    if last == first { Some(first) } else { None }
}

fn has_fields(section: &Section) -> bool
    ensures { result ≡ rules.has_fields section.now }
{
    !section.is_zerofill() && !section.is_strings() && section.literal_size().is_none()
}

// Whether no field of the row's kind may lie where its field does, be it in one atom or not.
fn is_barred(linked: &LinkedSection, at: usize, row: &RelocRow, overlaps: &Overlaps) -> bool
    requires index { at < length linked.now.section.now.relocs }
    requires row { IsRow linked.now.section.now.relocs at row.now }
    requires overlaps { Tells linked.now.section.now.relocs overlaps.now }
    ensures { result ≡ ((table.is_instruction row.now.kind && not (row.now.field.offset % 4 == 0))
        || rules.overlaps_another linked.now.section.now.relocs at row.now.field || not (rules.has_fields linked.now.section.now)) }
{
    is_instruction(row.kind) && row.field.offset % 4 != 0
        || overlaps_another(overlaps, &row.field)
        || !has_fields(linked.section)
}

/// The cut of the atom that holds a row's field, where the field lies where one may lie; `overlaps` tells which fields
/// of the section overlap.
#[tactic(auto, using(crate::proofs::RowLemmas::fields))]
pub fn field_cut(
    linked: &LinkedSection,
    at: usize,
    row: &RelocRow,
    overlaps: &Overlaps,
) -> Option<u64>
    requires linked { IsLinked linked.now }
    requires index { at < length linked.now.section.now.relocs }
    requires row { IsRow linked.now.section.now.relocs at row.now }
    requires overlaps { Tells linked.now.section.now.relocs overlaps.now }
    ensures value { result ≡ rows.field_cut linked.now at row.now }
    ensures within { IfSome result (λ cut. cut ≤ row.now.field.offset) }
{
    let cut = cut_around(linked, &row.field)?;
    if is_barred(linked, at, row, overlaps) {
        return None;
    }
    Some(cut)
}

/// The first relocation of a row whose field lies where none may lie, by what `field_cut` gives of it.
#[tactic(auto, using(crate::proofs::RowLemmas::places))]
pub fn place_fault(
    linked: &LinkedSection,
    at: usize,
    row: &RelocRow,
    cut: Option<u64>,
) -> Option<usize>
    requires row { IsRow linked.now.section.now.relocs at row.now }
    requires cut { cut ≡ rows.field_cut linked.now at row.now }
    ensures value { result ≡ rules.place_fault linked.now.cut.object.now (linked.now.index + 1) linked.now.section.now at }
    ensures within { IfSome result (λ index. index ≤ at) }
{
    match cut {
        Some(_) => None,
        None => Some(row_start(linked.section.relocs.as_slice(), at)),
    }
}

/// The first relocation of a row that has a kind and no field.
#[tactic(auto, unfolding(mo_types::specs::RelocationRules::place_fault))]
pub fn field_fault(section: &Section, at: usize) -> Option<usize>
    requires { rules.field_at section.now.relocs at ≡ None }
    ensures value { (object : Object) (number : ℕ) → result ≡ rules.place_fault object number section.now at }
    ensures within { IfSome result (λ index. index ≤ at) }
{
    let relocs = section.relocs.as_slice();
    if kind_at(relocs, at).is_none() {
        return None;
    }
    Some(row_start(relocs, at))
}
