ghost use Rattle.std.specs.Prelude.{◌≡◌, ◌<◌, ◌≤◌, ◌^◌, All, IfOk, IsPermutation, max};
ghost use Rattle.std.specs.List.Sorted.{IsStrictlySortedBy};
ghost use Rattle.std.specs.Ordering.{on};
ghost use Rattle.mo_types.specs.declared.atom.Atom.{Atom};
ghost use Rattle.mo_types.specs.Keys.{compare_keys};
ghost use Rattle.tlv_plan.specs.Template as spec;

use crate::parts::{Offset, OffsetList, Template};
use crate::place::place_sections;
use mo_format::loader::{S_THREAD_LOCAL_REGULAR, S_THREAD_LOCAL_ZEROFILL};
use mo_types::{AtomKey, AtomList, OutOfMemory, OutSection, OutSections, compare_atoms};
use std::alloc::Global;

/// The template of the thread-local sections among these: their atoms, of those that are kept, each at the least
/// place that its alignment and the order allow (`loader.h`: S_THREAD_LOCAL_REGULAR, S_THREAD_LOCAL_ZEROFILL). The
/// sections stand in the order of the list, and its atoms in theirs.
pub fn template(
    alloc: Global,
    kept: &AtomList,
    sections: &OutSections,
) -> Result<Template, OutOfMemory>
    requires rising { IsStrictlySortedBy (on (λ (atom : Atom). atom.key) compare_keys) kept.now }
    requires atoms { All (λ atom. atom.align ≤ 14) kept.now }
    requires sections { All (λ section. section.align ≤ 14) sections.now }
    requires fits { spec.template_size kept.now sections.now < 2 ^ 64 }
    ensures places { IfOk result (λ template. IsPermutation (spec.offsets (spec.template_stand kept.now sections.now)) template.places) }
    ensures align { IfOk result (λ template. template.align ≡ spec.greatest_align (spec.thread_local sections.now)) }
    ensures size { IfOk result (λ template. template.size ≡ spec.template_size kept.now sections.now) }
{
    let sections = sections.as_slice();
    let (places, size) = place_sections(alloc, kept.as_slice(), sections)?;
    Ok(Template {
        places: in_order(places),
        align: greatest_align(sections),
        size,
    })
}

// Offsets in the order of their atoms.
fn in_order(offsets: Vec<Offset>) -> OffsetList
    ensures { IsPermutation offsets.items result }
{
    let mut offsets = offsets;
    offsets.sort_unstable_by(|a, b| compare_atoms(&a.atom, &b.atom));
    OffsetList::from_sorted(offsets)
}

/// The greatest alignment of the thread-local sections among these, as a power of two.
pub fn greatest_align(sections: &[OutSection]) -> u8
    ensures { result ≡ spec.greatest_align (spec.thread_local sections.now) }
{
    let mut greatest = 0;
    for section in sections {
        if is_thread_local(section) {
            greatest = larger(greatest, section.align);
        }
    }
    greatest
}

// The larger of two numbers.
fn larger(a: u8, b: u8) -> u8
    ensures { result ≡ max a b }
{
    if a < b { b } else { a }
}

/// Whether a section is part of the template (`loader.h`: S_THREAD_LOCAL_REGULAR, S_THREAD_LOCAL_ZEROFILL).
pub fn is_thread_local(section: &OutSection) -> bool
    ensures { result ≡ spec.is_thread_local section.now }
{
    let kind = u32::from(section.kind);
    kind == S_THREAD_LOCAL_REGULAR || kind == S_THREAD_LOCAL_ZEROFILL
}
