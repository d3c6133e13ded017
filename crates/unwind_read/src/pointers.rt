//! The relocations of entries' fields, by their entries.

ghost use Rattle.std.specs.Prelude.{◌≡◌, ◌+◌, ◌*◌, ◌/◌, ◌<◌, ◌^◌, ◌++◌, ◌∷◌, ◌&&◌, ◌||◌, [], List, not, nat_lt, is_some, is_none, length, replicate, IfOk, IfSome, IfNone};
ghost use Rattle.mo_types.specs.RelocationRules.{least};
ghost use Rattle.mo_types.specs.Rows.{when};
ghost use Rattle.mo_types.specs.declared.object.Object.{Object};
ghost use Rattle.mo_types.specs.declared.object.RawReloc.{RawReloc};
ghost use Rattle.unwind_read.specs.Pointers as pointers;
ghost use Rattle.unwind_read.specs.Pointers.{AreRows};
ghost use Rattle.unwind_read.specs.Rules as rules;

use crate::entry_rows::{EMPTY, EntryRow, row_with};
use crate::least::lesser;
use mo_format::reloc::ARM64_RELOC_UNSIGNED;
use mo_types::{OutOfMemory, RawReloc, Section};
use std::alloc::Global;

/// The relocations of an entry's fields, where they have one.
#[derive(Clone, Copy, Debug, PartialEq, Eq)]
pub struct EntryRelocs {
    pub function: Option<RawReloc>,
    pub personality: Option<RawReloc>,
    pub lsda: Option<RawReloc>,
}

fn is_pointer(reloc: &RawReloc) -> bool
    ensures { result ≡ pointers.is_pointer reloc.now }
{
    reloc.kind == ARM64_RELOC_UNSIGNED
        && reloc.length == 3
        && !reloc.pcrel
        && reloc.address < 1 << 31
}

/// How many whole entries stand in the bytes of a section.
pub fn entry_count(section: &Section) -> usize
    ensures { result ≡ rules.entry_count section.now }
{
    section.bytes.len() / 32
}

/// The place of an entry in the object's bytes.
pub fn entry_place(section: &Section, at: usize) -> u64
    requires { section.now.file_offset + 32 * at < 2 ^ 64 }
    ensures { result ≡ rules.entry_place section.now at }
{
    section.file_offset + 32 * at as u64
}

fn is_in_entry(section: &Section, reloc: &RawReloc) -> bool
    ensures { result ≡ rules.is_in_entry section.now reloc.now }
{
    reloc.address < 1 << 31 && (reloc.address as usize / 32) < entry_count(section)
}

// The place of the entry in which a relocation lies, or of the first where it lies in none.
fn place_of(section: &Section, reloc: &RawReloc) -> u64
    requires { section.now.file_offset + length section.now.bytes < 2 ^ 64 }
    ensures { result ≡ rules.place_of section.now reloc.now }
{
    let at = if is_in_entry(section, reloc) {
        reloc.address as usize / 32
    } else {
        0
    };
    entry_place(section, at)
}

// Whether a relocation is a pointer in an entry.
fn is_placed(section: &Section, reloc: &RawReloc) -> bool
    ensures { result ≡ (pointers.is_pointer reloc.now && rules.is_in_entry section.now reloc.now) }
{
    is_pointer(reloc) && is_in_entry(section, reloc)
}

// Puts a relocation among those of its entry's fields, where it is the first pointer of one; whether it is.
#[tactic(auto, using(crate::proofs::RowLemmas::puts))]
fn is_put(rows: &mut [EntryRow], section: &Section, reloc: &RawReloc) -> bool
    requires { length rows.old ≡ rules.entry_count section.now }
    ensures own { (before : List RawReloc) → AreRows before rows.old → result ≡ not (rules.is_other section.now before reloc.now) }
    ensures rows { (before : List RawReloc) → AreRows before rows.old → AreRows (before ++ reloc.now ∷ []) rows.new }
{
    if !is_placed(section, reloc) {
        return false;
    }
    let at = reloc.address as usize / 32;
    let Some(row) = row_with(&rows[at], reloc) else {
        return false;
    };
    rows[at] = row;
    true
}

// Puts a relocation among those of its entry's fields, or tells its entry's place.
fn put(rows: &mut [EntryRow], section: &Section, reloc: &RawReloc) -> Option<u64>
    requires count { length rows.old ≡ rules.entry_count section.now }
    requires room { section.now.file_offset + length section.now.bytes < 2 ^ 64 }
    ensures fault { (before : List RawReloc) → AreRows before rows.old
        → result ≡ when (rules.is_other section.now before reloc.now) (rules.place_of section.now reloc.now) }
    ensures rows { (before : List RawReloc) → AreRows before rows.old → AreRows (before ++ reloc.now ∷ []) rows.new }
{
    if is_put(rows, section, reloc) {
        return None;
    }
    Some(place_of(section, reloc))
}

// Puts the relocations of a section among those of its entries' fields, and tells the least place at which one is no
// first pointer of a field.
#[tactic(auto, using(crate::proofs::RowLemmas::fills))]
fn fill(rows: &mut [EntryRow], section: &Section, relocs: &[RawReloc]) -> Option<u64>
    requires relocs { relocs.now ≡ section.now.relocs }
    requires rows { AreRows [] rows.old }
    requires count { length rows.old ≡ rules.entry_count section.now }
    requires room { section.now.file_offset + length section.now.bytes < 2 ^ 64 }
    ensures rows { AreRows section.now.relocs rows.new }
    ensures fault { (object : Object) → result ≡ least (rules.faults_of object section.now rules.other_relocation) }
{
    let mut fault = None;
    for reloc in relocs {
        fault = lesser(fault, put(rows, section, reloc));
    }
    fault
}

fn empty_rows(alloc: Global, count: usize) -> Result<Vec<EntryRow>, OutOfMemory>
    ensures count { IfOk result (λ rows. length rows.items ≡ count) }
    ensures rows { IfOk result (λ rows. AreRows [] rows.items) }
{
    let mut rows = Vec::new(alloc);
    rows.resize(count, EMPTY)?;
    Ok(rows)
}

/// The relocations of the fields of each entry of a section, and the least place at which a relocation is other than
/// these.
#[derive(Debug, Drop)]
pub struct Pointers {
    pub rows: Vec<EntryRow>,
    pub fault: Option<u64>,
}

/// Sorts the relocations of a section by its entries, in one pass.
pub fn pointers_of(alloc: Global, section: &Section) -> Result<Pointers, OutOfMemory>
    requires room { section.now.file_offset + length section.now.bytes < 2 ^ 64 }
    ensures rows { IfOk result (λ found. AreRows section.now.relocs found.rows.items) }
    ensures count { IfOk result (λ found. length found.rows.items ≡ rules.entry_count section.now) }
    ensures fault { IfOk result (λ found. (object : Object) → found.fault ≡ least (rules.faults_of object section.now rules.other_relocation)) }
{
    let mut rows = empty_rows(alloc, entry_count(section))?;
    let fault = fill(rows.as_mut_slice(), section, section.relocs.as_slice());
    Ok(Pointers { rows, fault })
}
