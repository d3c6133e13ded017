//! Files of symbols, layouts of their atoms, and goals, put together by tables.
ghost use Rattle.std.specs.Prelude.{All, IfOk, IfSome, IsTrue};
ghost use Rattle.std.specs.List.{AllPairs};
ghost use Rattle.mo_types.specs.Loaded.{IsBefore, IsWholeFile, IsWholeLoaded};
ghost use Rattle.sect_place.specs.Addresses.{AreOnce};

use atom_cut::cut;
use mo_types::{
    AtomKey, AtomList, Bytes, Goal, GoalList, KeyList, Loaded, LoadedFile, LoadedList, Object,
    OutOfMemory, Section, SectionList, Symbol, SymbolKind, SymbolList, UnwindList,
};
use reloc_read::refs_of;
use sect_place::{Layout, Placed, PlacedList, PlacedSection, PlacedSectionList, SegmentList};
use slot_plan::{Need, NeedList, Way};
use std::alloc::Global;
use std::cmp::Ordering;
use test_objects::{atom, defined, file_id, key, object, out_section, section, symbol};

/// What a symbol is, by the number of its section and its address there, or by a common symbol's alignment and size.
#[derive(Clone, Copy)]
pub enum Is {
    /// Seen by no other file, and the same with N_ALT_ENTRY (`nlist.h`).
    Local(u8, u64),
    Entry(u8, u64),
    /// Seen by other files, the same with N_PEXT, and with N_WEAK_DEF.
    Seen(u8, u64),
    Hidden(u8, u64),
    Weak(u8, u64),
    Common(u8, u64),
    Undefined,
}

/// A section: its segment, its name, its type and its bytes.
pub type SectionRow = (&'static [u8], &'static [u8], u8, &'static [u8]);

/// A file: what messages call it, its sections and its symbols.
pub type FileRow = (
    &'static [u8],
    &'static [SectionRow],
    &'static [(&'static [u8], Is)],
);

/// A section of an image: its name, and its atoms with their addresses, each by its file, its section and its offset.
pub type PlacedRow = (&'static [u8], &'static [((u16, u16, u64), u64)]);

/// What a slot leads to: a name of another image, a weak definition, or a place in an atom.
#[derive(Clone, Copy)]
pub enum Lead {
    Puts,
    Weak,
    Main,
}

/// An image.
pub struct ImageRow {
    pub files: &'static [FileRow],
    pub sections: &'static [PlacedRow],
    /// The atoms of common symbols, and their sizes.
    pub commons: &'static [((u16, u16, u64), u64)],
    /// `_puts` of the library of a number, or with 0 of any image, and whether it may be missing.
    pub bound: &'static [(u8, bool)],
    /// What has a slot, and whether by a stub.
    pub needs: &'static [(Lead, bool)],
}

fn kind_of(is: Is) -> SymbolKind {
    match is {
        Is::Local(section, value)
        | Is::Entry(section, value)
        | Is::Seen(section, value)
        | Is::Hidden(section, value)
        | Is::Weak(section, value) => defined(section, value),
        Is::Common(align, size) => SymbolKind::Common { size, align },
        Is::Undefined => SymbolKind::Undefined,
    }
}

fn symbol_of(name: &'static [u8], is: Is) -> Symbol {
    Symbol {
        external: !matches!(is, Is::Local(_, _) | Is::Entry(_, _)),
        hidden: matches!(is, Is::Hidden(_, _)),
        weak_def: matches!(is, Is::Weak(_, _)),
        alt: matches!(is, Is::Entry(_, _)),
        ..symbol(name, kind_of(is))
    }
}

fn section_of(alloc: Global, row: &SectionRow) -> Section {
    let (segment, name, kind, bytes) = *row;
    section(alloc, segment, name, kind, 0, Bytes::from_static(bytes))
}

fn object_of(alloc: Global, row: &FileRow) -> Result<Object, OutOfMemory> {
    let mut sections = SectionList::new(alloc);
    for section in row.1 {
        sections.push(section_of(alloc, section))?;
    }
    let mut symbols = SymbolList::new(alloc);
    for (name, is) in row.2 {
        symbols.push(symbol_of(*name, *is))?;
    }
    Ok(object(sections, symbols))
}

// The file of a whole object.
fn whole_file(
    alloc: Global,
    position: u16,
    label: &'static [u8],
    object: Object,
) -> Result<Option<LoadedFile>, OutOfMemory>
    ensures { IfOk result (λ file. IfSome file IsWholeFile) }
{
    let id = file_id(position);
    if object.symbols.len() >= 1 << 24 || !object.is_whole() {
        return Ok(None);
    }
    let atoms = cut(alloc, &object, id)?;
    match refs_of(alloc, &object, &atoms, id) {
        Ok(refs) => Ok(Some(LoadedFile {
            id,
            label: Bytes::from_static(label),
            object,
            atoms,
            refs,
            unwinds: UnwindList::new(alloc),
        })),
        Err(_) => Ok(None),
    }
}

// Some files with one file more.
fn with_file(
    alloc: Global,
    before: Vec<LoadedFile>,
    position: u16,
    row: &FileRow,
) -> Result<Option<Vec<LoadedFile>>, OutOfMemory>
    requires { All IsWholeFile before.items }
    ensures { IfOk result (λ files. IfSome files (λ files. All IsWholeFile files.items)) }
{
    let mut files = before;
    let object = object_of(alloc, row)?;
    match whole_file(alloc, position, row.0, object)? {
        Some(file) => {
            files.push(file)?;
            Ok(Some(files))
        }
        None => Ok(None),
    }
}

fn are_rising(files: &[LoadedFile]) -> bool
    ensures { IsTrue result → AllPairs (λ (a : LoadedFile) (b : LoadedFile). IsBefore a.id b.id) files.now }
{
    for i in 1..files.len() {
        match files[i - 1].id.cmp(&files[i].id) {
            Ordering::Less => {}
            _ => return false,
        }
    }
    true
}

// Whole files, if they rise.
fn risen(files: Vec<LoadedFile>) -> Option<Loaded>
    requires { All IsWholeFile files.items }
    ensures { IfSome result IsWholeLoaded }
{
    if !are_rising(files.as_slice()) {
        return None;
    }
    Some(Loaded {
        files: LoadedList::from_vec(files),
    })
}

/// Files in their order.
pub fn loaded_of(alloc: Global, rows: &[FileRow]) -> Result<Option<Loaded>, OutOfMemory>
    ensures { IfOk result (λ loaded. IfSome loaded IsWholeLoaded) }
{
    let mut files = Vec::new(alloc);
    let mut position: u16 = 0;
    for row in rows {
        match with_file(alloc, files, position, row)? {
            Some(more) => files = more,
            None => return Ok(None),
        }
        position = position.wrapping_add(1);
    }
    Ok(risen(files))
}

fn key_of(place: (u16, u16, u64)) -> AtomKey {
    key(place.0, place.1, place.2)
}

fn placed_section(alloc: Global, row: &PlacedRow) -> Result<PlacedSection, OutOfMemory> {
    let mut keys = KeyList::new(alloc);
    for (atom, _) in row.1 {
        keys.push(key_of(*atom))?;
    }
    Ok(PlacedSection {
        section: out_section(b"__TEXT", row.0, 0, 0, keys),
        address: 0,
        size: 0,
        file_offset: 0,
    })
}

// Addresses, and those of a section's atoms.
fn with_atoms(before: Vec<Placed>, row: &PlacedRow) -> Result<Vec<Placed>, OutOfMemory> {
    let mut placed = before;
    for (atom, address) in row.1 {
        placed.push(Placed {
            atom: key_of(*atom),
            address: *address,
        })?;
    }
    Ok(placed)
}

/// Where the atoms of sections stand.
pub fn layout_of(alloc: Global, rows: &[PlacedRow]) -> Result<Layout, OutOfMemory> {
    let mut sections = PlacedSectionList::new(alloc);
    let mut placed = Vec::new(alloc);
    for row in rows {
        sections.push(placed_section(alloc, row)?)?;
        placed = with_atoms(placed, row)?;
    }
    Ok(Layout {
        segments: SegmentList::new(alloc),
        sections,
        placed: PlacedList::from_vec(alloc, placed)?,
    })
}

/// Atoms, and those of common symbols.
pub fn with_commons(
    before: AtomList,
    rows: &[((u16, u16, u64), u64)],
) -> Result<AtomList, OutOfMemory> {
    let mut atoms = before;
    for (place, size) in rows {
        atoms.push(atom(key_of(*place), *size, 3))?;
    }
    Ok(atoms)
}

/// Whether no atom is placed twice.
pub fn is_once(placed: &[Placed]) -> bool
    ensures { IsTrue result → AreOnce placed.now }
{
    for i in 1..placed.len() {
        match placed[i - 1].atom.cmp(&placed[i].atom) {
            Ordering::Less => {}
            _ => return false,
        }
    }
    true
}

// The name of another image, of a library or of any image.
fn puts(ordinal: u8, optional: bool) -> Goal {
    let name = Bytes::from_static(b"_puts");
    if ordinal == 0 {
        return Goal::Flat(name);
    }
    Goal::Import {
        name,
        ordinal,
        by_weak: false,
        optional,
    }
}

/// The goals that are bound.
pub fn bound_of(alloc: Global, rows: &[(u8, bool)]) -> Result<GoalList, OutOfMemory> {
    let mut bound = GoalList::new(alloc);
    for (ordinal, optional) in rows {
        bound.push(puts(*ordinal, *optional))?;
    }
    Ok(bound)
}

fn goal_of(lead: Lead, bound: &[(u8, bool)]) -> Goal {
    let (ordinal, optional) = *bound.first().unwrap_or(&(0, false));
    match lead {
        Lead::Puts => puts(ordinal, optional),
        Lead::Weak => Goal::WeakSelf(Bytes::from_static(b"_weak"), key(0, 1, 0), 0),
        Lead::Main => Goal::Def(key(0, 1, 0), 0),
    }
}

/// What has slots and stubs.
pub fn needs_of(alloc: Global, image: &ImageRow) -> Result<NeedList, OutOfMemory> {
    let mut needs = NeedList::new(alloc);
    for (lead, by_stub) in image.needs {
        let way = if *by_stub { Way::Stub } else { Way::Got };
        needs.push(Need {
            goal: goal_of(*lead, image.bound),
            way,
        })?;
    }
    Ok(needs)
}
