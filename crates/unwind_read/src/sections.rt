//! One pass over the sections of entries: the least place at which an entry is at fault, and the entries that are kept.

ghost use Rattle.std.specs.Prelude.{◌≡◌, ◌+◌, ◌*◌, ◌≤◌, ◌<◌, ◌==◌, ◌++◌, [], None, List, IfOk, OnOk, is_err, length, not};
ghost use Rattle.std.specs.Option.{option_map, option_to_list};
ghost use Rattle.std.specs.Result.{result_unwrap_or};
ghost use Rattle.mo_types.specs.RelocationRules.{least};
ghost use Rattle.mo_types.specs.Rows.{when};
ghost use Rattle.mo_types.specs.Whole.{IsWholeSection};
ghost use Rattle.unwind_read.specs.Added.{Added, AreAll};
ghost use Rattle.unwind_read.specs.CutObject.{IsCut};
ghost use Rattle.unwind_read.specs.Found as found;
ghost use Rattle.unwind_read.specs.Pointers.{AreRows};
ghost use Rattle.unwind_read.specs.Ranges.{AreRangesOf};
ghost use Rattle.unwind_read.specs.Rules as rules;
ghost use Rattle.unwind_read.specs.Unwinds as unwinds;
ghost use Rattle.unwind_read.specs.declared.spans.Span.{Span};

use crate::cut_object::CutObject;
use crate::entries::{Found, read_entry};
use crate::entry::CompactUnwindEntry;
use crate::entry_rows::{EntryRow, relocs_in};
use crate::fields::AtFault;
use crate::guide::Hints;
use crate::least::lesser;
use crate::pointers::{EntryRelocs, entry_count, entry_place, pointers_of};
use crate::ranges::Ranges;
use mo_types::{OutOfMemory, Section, Unwind};
use std::alloc::Global;

/// The entries of an object that are kept.
#[derive(Debug, Drop)]
pub struct Entries {
    pub unwinds: Vec<Unwind>,
    pub ranges: Ranges,
}

// Puts an entry at the end of the others, where it is kept.
fn add(out: &mut Entries, found: Option<Found>) -> Result<(), OutOfMemory>
    ensures unwinds { OnOk result (out.new.unwinds.items ≡ out.old.unwinds.items ++ option_to_list (option_map (λ found. found.unwind) found)) }
    ensures spans { (spans : List Span) → AreRangesOf out.old.ranges spans
        → OnOk result (AreRangesOf out.new.ranges (spans ++ option_to_list (option_map (λ found. found.span) found))) }
{
    let Some(found) = found else {
        return Ok(());
    };
    out.unwinds.push(found.unwind)?;
    out.ranges.push(&found.span)
}

// Reads the entry of a section with a number from 0, by the relocations of its fields.
#[tactic(auto, using(crate::proofs::SectionLemmas::founds), unfolding(crate::specs::Rules::entry_at))]
fn read_at(
    cut: &CutObject,
    hints: &mut Hints,
    section: &Section,
    at: usize,
    relocs: &EntryRelocs,
) -> Result<Option<Found>, AtFault>
    requires cut { IsCut cut.now }
    requires whole { IsWholeSection section.now }
    requires within { at < rules.entry_count section.now }
    requires relocs { relocs.now ≡ rules.entry_relocs section.now at }
    ensures fault { is_err result ≡ rules.fails_test cut.now.object.now (rules.entry_at section.now at) (rules.entry_relocs section.now at) }
    ensures unwind { option_map (λ found. found.unwind) (result_unwrap_or result None) ≡ unwinds.unwind_at cut.now.object.now cut.now.file section.now at }
    ensures span { option_map (λ found. found.span) (result_unwrap_or result None) ≡ unwinds.span_at cut.now.object.now section.now at }
{
    let place = entry_place(section, at);
    let entry = CompactUnwindEntry::read(section.bytes.as_slice(), 32 * at);
    read_entry(cut, hints, place, &entry, relocs)
}

// Reads an entry of a section, and puts it at the end of the others where it is kept; tells its place where it fails a
// test.
fn add_entry(
    out: &mut Entries,
    cut: &CutObject,
    hints: &mut Hints,
    section: &Section,
    at: usize,
    relocs: &EntryRelocs,
) -> Result<Option<u64>, OutOfMemory>
    requires cut { IsCut cut.now }
    requires whole { IsWholeSection section.now }
    requires within { at < rules.entry_count section.now }
    requires relocs { relocs.now ≡ rules.entry_relocs section.now at }
    ensures fault { IfOk result (λ fault. fault ≡ found.entry_fault cut.now.object.now section.now at) }
    ensures unwinds { OnOk result (out.new.unwinds.items ≡ out.old.unwinds.items ++ option_to_list (unwinds.unwind_at cut.now.object.now cut.now.file section.now at)) }
    ensures spans { (spans : List Span) → AreRangesOf out.old.ranges spans
        → OnOk result (AreRangesOf out.new.ranges (spans ++ option_to_list (unwinds.span_at cut.now.object.now section.now at))) }
{
    let read = read_at(cut, hints, section, at, relocs);
    let is_at_fault = read.is_err();
    add(out, read.unwrap_or(None))?;
    if is_at_fault {
        return Ok(Some(entry_place(section, at)));
    }
    Ok(None)
}

// Reads the entries of a section by the relocations of their fields.
fn add_entries(
    alloc: Global,
    out: &mut Entries,
    cut: &CutObject,
    section: &Section,
    rows: &[EntryRow],
) -> Result<Option<u64>, OutOfMemory>
    requires cut { IsCut cut.now }
    requires whole { IsWholeSection section.now }
    requires count { length rows.now ≡ rules.entry_count section.now }
    requires rows { AreRows section.now.relocs rows.now }
    ensures { IfOk result (Added cut.now.object.now cut.now.file section.now out.old.unwinds.items out.new.unwinds.items
        out.old.ranges out.new.ranges (rules.entry_count section.now)) }
{
    let mut hints = Hints::new(alloc);
    let mut fault = None;
    for (at, row) in rows.iter().enumerate() {
        hints.renew(alloc, cut.atoms)?;
        let relocs = relocs_in(row, at);
        fault = lesser(
            fault,
            add_entry(out, cut, &mut hints, section, at, &relocs)?,
        );
    }
    Ok(fault)
}

// The place of the entry that isn't whole.
fn not_whole(section: &Section) -> Option<u64>
    requires { IsWholeSection section.now }
    ensures { result ≡ when (not (section.now.size == 32 * rules.entry_count section.now)) (rules.entry_place section.now (rules.entry_count section.now)) }
{
    let count = entry_count(section);
    if section.size == 32 * count as u64 {
        return None;
    }
    Some(entry_place(section, count))
}

fn has_entries(section: &Section) -> bool
    ensures { result ≡ rules.has_entries section.now }
{
    section.segment.as_slice() == b"__LD".as_slice()
        && section.name.as_slice() == b"__compact_unwind".as_slice()
}

// How many entries the sections of an object have.
fn count_entries(sections: &[Section]) -> usize {
    let mut count = 0usize;
    for section in sections {
        if has_entries(section) {
            count = count.saturating_add(entry_count(section));
        }
    }
    count
}

/// No entries, with room for those of an object's sections.
pub fn room_for(alloc: Global, sections: &[Section]) -> Result<Entries, OutOfMemory>
    ensures unwinds { IfOk result (λ out. out.unwinds.items ≡ []) }
    ensures ranges { IfOk result (λ out. AreRangesOf out.ranges []) }
{
    let count = count_entries(sections);
    Ok(Entries {
        unwinds: Vec::with_capacity(alloc, count)?,
        ranges: Ranges::with_capacity(alloc, count)?,
    })
}

// Reads the entries of a section of them, and tells the least place at which a part of the rule fails in it.
#[tactic(auto, using(crate::proofs::SectionLemmas::none_there, crate::proofs::RuleLemmas::sections))]
fn add_section(
    alloc: Global,
    out: &mut Entries,
    cut: &CutObject,
    section: &Section,
) -> Result<Option<u64>, OutOfMemory>
    requires cut { IsCut cut.now }
    requires whole { IsWholeSection section.now }
    ensures fault { IfOk result (λ fault. fault ≡ least (rules.section_faults cut.now.object.now section.now)) }
    ensures unwinds { OnOk result (out.new.unwinds.items ≡ out.old.unwinds.items ++ unwinds.section_unwinds cut.now.object.now cut.now.file section.now) }
    ensures spans { (spans : List Span) → AreRangesOf out.old.ranges spans
        → OnOk result (AreRangesOf out.new.ranges (spans ++ unwinds.section_spans cut.now.object.now section.now)) }
{
    if !has_entries(section) {
        return Ok(None);
    }
    let pointers = pointers_of(alloc, section)?;
    let broken = add_entries(alloc, out, cut, section, pointers.rows.as_slice())?;
    let other = lesser(pointers.fault, broken);
    Ok(lesser(not_whole(section), other))
}

/// Reads the entries of an object's sections, and tells the least place at which one is at fault by itself.
#[tactic(auto, using(crate::proofs::SectionLemmas::alls))]
pub fn add_sections(
    alloc: Global,
    out: &mut Entries,
    cut: &CutObject,
    sections: &[Section],
) -> Result<Option<u64>, OutOfMemory>
    requires cut { IsCut cut.now }
    requires sections { sections.now ≡ cut.now.object.now.sections }
    ensures { IfOk result (AreAll cut.now.object.now cut.now.file cut.now.object.now.sections out.old.unwinds.items out.new.unwinds.items
        out.old.ranges out.new.ranges) }
{
    let mut fault = None;
    for section in sections {
        fault = lesser(fault, add_section(alloc, out, cut, section)?);
    }
    Ok(fault)
}
