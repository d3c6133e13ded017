//! Fields that have bytes in common.

ghost use Rattle.std.specs.Prelude.{◌≡◌, ◌↔◌, ℕ, ◌+◌, ◌<◌, true, ◌++◌, List, Some, length, map, nat_le, nat_lt, All, IsTrue, IfOk, IfSome, OnOk};
ghost use Rattle.std.specs.List.{count_by};
ghost use Rattle.std.specs.List.Sorted.{IsNonDecreasing, IsNonDecreasingBy};
ghost use Rattle.std.specs.Option.{option_to_list};
ghost use Rattle.mo_types.specs.RelocationRules as rules;
ghost use Rattle.mo_types.specs.declared.object.RawReloc.{RawReloc};
ghost use Rattle.reloc_read.specs.Fields.{AreAbove, AreApart, AreBelow, Follow, IsSmall};
ghost use Rattle.reloc_read.specs.Overlaps as bounds;
ghost use Rattle.reloc_read.specs.Overlaps.{AreSorted, Tells};

use crate::rows::field_at;
use mo_types::{FieldRange, OutOfMemory, RawReloc};
use std::alloc::Global;

/// What tells of each field of a section whether it overlaps another one.
#[derive(Debug, Drop)]
pub enum Overlaps {
    /// No two fields overlap.
    Nowhere,
    /// Some may: the fields by rising offset, and the offsets at which they end, in rising order.
    Somewhere {
        fields: Vec<FieldRange>,
        ends: Vec<u64>,
    },
}

fn add(found: &mut Vec<FieldRange>, field: Option<FieldRange>) -> Result<(), OutOfMemory>
    requires small { IfSome field IsSmall }
    ensures items { OnOk result (found.new.items ≡ found.old.items ++ option_to_list field) }
    ensures small { All IsSmall found.old.items → OnOk result (All IsSmall found.new.items) }
{
    if let Some(field) = field {
        found.push(field)?;
    }
    Ok(())
}

// The fields of all rows.
#[tactic(auto, using(crate::proofs::ApartLemmas::collects))]
fn fields_of(alloc: Global, relocs: &[RawReloc]) -> Result<Vec<FieldRange>, OutOfMemory>
    ensures fields { IfOk result (λ found. found.items ≡ bounds.fields_of relocs.now) }
    ensures small { IfOk result (λ found. All IsSmall found.items) }
{
    let mut found = Vec::with_capacity(alloc, relocs.len())?;
    for at in 0..relocs.len() {
        add(&mut found, field_at(relocs, at))?;
    }
    Ok(found)
}

// Whether each field but the last one ends before the next.
#[tactic(auto, using(crate::proofs::ApartLemmas::follows))]
fn follow(found: &[FieldRange]) -> bool
    requires { All IsSmall found.now }
    ensures { IsTrue result ↔ Follow found.now }
{
    for at in 1..found.len() {
        let before = found[at - 1];
        if before.size > found[at].offset.saturating_sub(before.offset) {
            return false;
        }
    }
    true
}

// Where the fields end.
fn ends_of(alloc: Global, fields: &[FieldRange]) -> Result<Vec<u64>, OutOfMemory>
    requires { All IsSmall fields.now }
    ensures { IfOk result (λ ends. ends.items ≡ map bounds.end_of fields.now) }
{
    let mut ends = Vec::with_capacity(alloc, fields.len())?;
    for field in fields {
        ends.push(field.offset + field.size)?;
    }
    Ok(ends)
}

fn sort_by_offset(fields: &mut Vec<FieldRange>)
    requires { All IsSmall fields.old.items }
    ensures sorted { AreSorted fields.old.items fields.new.items }
    ensures small { All IsSmall fields.new.items }
{
    fields.sort_unstable_by_key(|field| field.offset);
}

// Where the field of the row at a place ends, or the bound where it has none; `None` where it begins below the bound.
#[tactic(auto, using(crate::proofs::OrderLemmas::rises))]
fn end_above(relocs: &[RawReloc], at: usize, bound: u64) -> Option<u64>
    ensures { IfSome result (λ end. AreBelow relocs.now at bound → AreBelow relocs.now (at + 1) end) }
{
    match field_at(relocs, at) {
        Some(field) if field.offset < bound => None,
        Some(field) => Some(field.offset + field.size),
        None => Some(bound),
    }
}

// Whether each row's field begins where the one before it ends, or after it.
#[tactic(auto, using(crate::proofs::OrderLemmas::rises))]
fn rise(relocs: &[RawReloc]) -> bool
    ensures { result ≡ true → AreApart relocs.now }
{
    let mut bound = 0;
    for at in 0..relocs.len() {
        let Some(end) = end_above(relocs, at, bound) else {
            return false;
        };
        bound = end;
    }
    true
}

// Where the field of the row at a place begins, or the bound where it has none; `None` where it ends above the bound.
#[tactic(auto, using(crate::proofs::OrderLemmas::falls))]
fn start_below(relocs: &[RawReloc], at: usize, bound: u64) -> Option<u64>
    ensures { IfSome result (λ start. AreAbove relocs.now at bound → AreAbove relocs.now (at + 1) start) }
{
    match field_at(relocs, at) {
        Some(field) if field.offset + field.size > bound => None,
        Some(field) => Some(field.offset),
        None => Some(bound),
    }
}

// Whether each row's field ends where the one before it begins, or before it.
#[tactic(auto, using(crate::proofs::OrderLemmas::falls))]
fn fall(relocs: &[RawReloc]) -> bool
    ensures { result ≡ true → AreApart relocs.now }
{
    let mut bound = u64::MAX;
    for at in 0..relocs.len() {
        let Some(start) = start_below(relocs, at, bound) else {
            return false;
        };
        bound = start;
    }
    true
}

// Whether the fields stand apart by the order of their rows, as compilers write them.
fn are_in_order(relocs: &[RawReloc]) -> bool
    ensures { result ≡ true → AreApart relocs.now }
{
    rise(relocs) || fall(relocs)
}

/// What tells of each field of a section's rows whether it overlaps another one, in time n log n of n rows. No list of
/// fields is made where they stand apart, and rise or fall all the way.
#[tactic(auto, using(crate::proofs::ApartLemmas::aparts))]
pub fn overlaps_of(alloc: Global, relocs: &[RawReloc]) -> Result<Overlaps, OutOfMemory>
    ensures { IfOk result (Tells relocs.now) }
{
    if are_in_order(relocs) {
        return Ok(Overlaps::Nowhere);
    }
    let mut fields = fields_of(alloc, relocs)?;
    sort_by_offset(&mut fields);
    if follow(fields.as_slice()) {
        return Ok(Overlaps::Nowhere);
    }
    let mut ends = ends_of(alloc, fields.as_slice())?;
    ends.sort_unstable();
    Ok(Overlaps::Somewhere { fields, ends })
}

// How many fields begin below an offset, where they rise.
fn begun_below(fields: &[FieldRange], offset: u64) -> usize
    ensures { IsNonDecreasingBy (λ field. field.offset) fields.now → result ≡ count_by (λ field. nat_lt field.offset offset) fields.now }
{
    fields.partition_point(|field| field.offset < offset)
}

// How many ends aren't above an offset, where they rise.
fn ended_by(ends: &[u64], offset: u64) -> usize
    ensures { IsNonDecreasing ends.now → result ≡ count_by (λ end. nat_le end offset) ends.now }
{
    ends.partition_point(|end| *end <= offset)
}

/// Whether the field of the row at a place overlaps that of another row: of the fields that begin below its end,
/// itself among them, all overlap it but those that end at its start or below.
#[tactic(auto, using(crate::proofs::OverlapLemmas::overlaps))]
pub fn overlaps_another(overlaps: &Overlaps, field: &FieldRange) -> bool
    requires small { IsSmall field.now }
    ensures { (relocs : List RawReloc) (at : ℕ) → Tells relocs overlaps.now → at < length relocs → rules.field_at relocs at ≡ Some field.now
        → result ≡ rules.overlaps_another relocs at field.now }
{
    match overlaps {
        Overlaps::Nowhere => false,
        Overlaps::Somewhere { fields, ends } => {
            let begun = begun_below(fields.as_slice(), field.offset + field.size);
            let ended = ended_by(ends.as_slice(), field.offset);
            begun.saturating_sub(ended) > 1
        }
    }
}
