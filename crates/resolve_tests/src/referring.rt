//! The references and personalities of kept atoms against tables that were written by hand.

ghost use Rattle.std.specs.Prelude.{◌≡◌, ◌<◌, All, IfOk, List, ℕ, length};

use liveness::{Lost, next_spots, ref_order, undefined};
use mark_core::kept;
use mo_types::{
    AtomKey, Bytes, EdgeList, Goal, Items, KeyList, Loaded, LoadedFile, LoadedList, OutOfMemory,
    Ref, RefKind, RefList, SectionList, Symbol, SymbolKind, SymbolList, Target, Unwind, UnwindList,
};
use resolve::{GoalTable, PlaceList};
use std::alloc::Global;
use std::test::Fail;
use test_objects::{file, file_id, key, object, symbol};

// A reference of an atom to a symbol, less another one perhaps.
fn reference(atom: AtomKey, target: u32, minus: Option<u32>) -> Ref {
    Ref {
        atom,
        place: 0,
        file_place: 0,
        kind: RefKind::Pointer,
        target: Target::Name(target),
        minus: minus.map(Target::Name),
        addend: 0,
    }
}

// The atom, the target and what is subtracted.
type Row = (u64, u32, Option<u32>);

fn refs_of(alloc: Global, position: u16, rows: &[Row]) -> Result<RefList, OutOfMemory> {
    let mut refs = RefList::new(alloc, file_id(position));
    for (offset, target, minus) in rows {
        refs.push(reference(key(position, 1, *offset), *target, *minus))?;
    }
    Ok(refs)
}

// The offset of an atom, and the personality of its unwind entry.
type Entry = (u64, Option<u32>);

fn unwinds_of(alloc: Global, position: u16, entries: &[Entry]) -> Result<UnwindList, OutOfMemory> {
    let mut unwinds = UnwindList::new(alloc);
    for (offset, personality) in entries {
        unwinds.push(Unwind {
            atom: key(position, 1, *offset),
            offset: 0,
            length: 4,
            encoding: 0,
            personality: personality.map(Target::Name),
            lsda: None,
        })?;
    }
    Ok(unwinds)
}

fn symbols(alloc: Global, names: &[&'static [u8]]) -> Result<SymbolList, OutOfMemory> {
    let mut list = SymbolList::new(alloc);
    for name in names {
        list.push(Symbol {
            external: true,
            ..symbol(*name, SymbolKind::Undefined)
        })?;
    }
    Ok(list)
}

// The header, and nowhere.
fn pool(alloc: Global) -> Result<Vec<Goal>, OutOfMemory>
    ensures { IfOk result (λ goals. length goals.items ≡ 2) }
{
    let mut goals = Vec::new(alloc);
    goals.push(Goal::Header)?;
    goals.push(Goal::Nobody)?;
    Ok(goals)
}

// The places of a file's symbols, of which the first leads to the header and the others nowhere.
fn places(alloc: Global, count: usize) -> Result<PlaceList, OutOfMemory>
    ensures { IfOk result (All (λ place. place < 2)) }
{
    let mut list = PlaceList::new(alloc);
    for i in 0..count {
        list.push(if i == 0 { 0 } else { 1 })?;
    }
    Ok(list)
}

// Those of files with so many symbols.
fn all_places(alloc: Global, files: &[File]) -> Result<Items<PlaceList>, OutOfMemory>
    ensures { IfOk result (All (λ (file : List ℕ). All (λ place. place < 2) file)) }
{
    let mut lists = Items::new(alloc);
    for (_, names, _, _) in files {
        lists.push(places(alloc, names.len())?)?;
    }
    Ok(lists)
}

fn table_of(pool: Vec<Goal>, places: Items<PlaceList>) -> GoalTable
    requires two { length pool.items ≡ 2 }
    requires within { All (λ (file : List ℕ). All (λ place. place < 2) file) places }
{
    GoalTable::new(pool, places)
}

// The names of a file's symbols, its references, and its unwind entries.
type File<'a> = (&'static [u8], &'a [&'static [u8]], &'a [Row], &'a [Entry]);

fn link(alloc: Global, files: &[File]) -> Result<(Loaded, GoalTable), OutOfMemory> {
    let mut loaded = LoadedList::new(alloc);
    let table = table_of(pool(alloc)?, all_places(alloc, files)?);
    for (i, (label, names, rows, entries)) in files.iter().enumerate() {
        let position = (i % 100) as u16;
        let refs = refs_of(alloc, position, rows)?;
        let object = object(SectionList::new(alloc), symbols(alloc, names)?);
        loaded.push(LoadedFile {
            label: Bytes::from_static(*label),
            refs,
            unwinds: unwinds_of(alloc, position, entries)?,
            ..file(alloc, file_id(position), object)
        })?;
    }
    Ok((Loaded { files: loaded }, table))
}

fn keys(alloc: Global, list: &[(u16, u64)]) -> Result<KeyList, OutOfMemory> {
    let mut keys = KeyList::new(alloc);
    for (position, offset) in list {
        keys.push(key(*position, 1, *offset))?;
    }
    Ok(keys)
}

// The kept atoms, the names that the command wants, and the name and the file that are told.
type Case = (
    &'static [(u16, u64)],
    &'static [&'static [u8]],
    Option<(&'static [u8], &'static [u8])>,
);

fn names_of(alloc: Global, wanted: &[&'static [u8]]) -> Result<Vec<Bytes>, OutOfMemory> {
    let mut names = Vec::new(alloc);
    for name in wanted {
        names.push(Bytes::from_static(*name))?;
    }
    Ok(names)
}

fn is_told(lost: &Option<Lost>, told: &Option<(&'static [u8], &'static [u8])>) -> bool {
    match (lost, told) {
        (Some(lost), Some((name, label))) => lost.name == *name && lost.label == *label,
        (None, None) => true,
        _ => false,
    }
}

fn tells(alloc: Global, files: &[File], case: &Case) -> Result<bool, OutOfMemory> {
    let (atoms, wanted, told) = case;
    let none = EdgeList::new(alloc);
    let roots = keys(alloc, atoms)?;
    let kept = kept(alloc, &none, &none, &roots)?;
    let names = names_of(alloc, wanted)?;
    let (loaded, table) = link(alloc, files)?;
    let lost = undefined(&loaded, &table, &kept, names.as_slice());
    Ok(is_told(&lost, told))
}

// Two files: `a.o` refers from 0 to the header, and from 8 to `_z`, which is also the personality of 16; `b.o` from 0 to
// `_z`, and from 4 to the header less `_b`, which is also the personality of 12, and the header is that of 8.
const FILES: [File; 2] = [
    (
        b"a.o",
        &[b"_main", b"_z"],
        &[(0, 0, None), (8, 1, None)],
        &[(0, None), (16, Some(1))],
    ),
    (
        b"b.o",
        &[b"_main", b"_z", b"_b"],
        &[(4, 0, Some(2)), (0, 1, None)],
        &[(8, Some(0)), (12, Some(2))],
    ),
];

const CASES: [Case; 11] = [
    (&[], &[], None),
    (&[(0, 0)], &[], None),
    (&[(0, 0), (0, 8)], &[], Some((b"_z", b"a.o"))),
    (&[(0, 0), (1, 0)], &[], Some((b"_z", b"b.o"))),
    (&[(0, 8), (1, 0), (1, 4)], &[], Some((b"_b", b"b.o"))),
    (&[(0, 0)], &[b"_start"], Some((b"_start", b""))),
    (&[(0, 8)], &[b"_z", b"_y"], Some((b"_y", b""))),
    (&[(0, 8)], &[b"_z"], Some((b"_z", b"a.o"))),
    (&[(0, 0), (1, 8)], &[], None),
    (&[(0, 16), (1, 0)], &[], Some((b"_z", b"a.o"))),
    (&[(0, 16), (1, 12)], &[], Some((b"_b", b"b.o"))),
];

// The references of three atoms.
const MIXED: [Row; 5] = [
    (16, 5, None),
    (0, 4, None),
    (16, 3, None),
    (8, 2, None),
    (0, 1, None),
];

// The offsets of atoms, and the places of their references.
const MIXED_ORDER: [(u64, &[u32]); 4] = [(0, &[1, 4]), (8, &[3]), (16, &[0, 2]), (12, &[])];

// References that are listed by falling atom.
const FALLING: [Row; 5] = [
    (16, 5, None),
    (16, 4, None),
    (8, 3, None),
    (8, 2, None),
    (0, 1, None),
];

const FALLING_ORDER: [(u64, &[u32]); 4] = [(0, &[4]), (4, &[]), (8, &[2, 3]), (16, &[0, 1])];

fn references_are_found_by_their_atoms(
    alloc: Global,
    rows: &[Row],
    wanted: &[(u64, &[u32])],
) -> Result<bool, OutOfMemory> {
    let refs = refs_of(alloc, 0, rows)?;
    let order = ref_order(alloc, &refs)?;
    let mut next = 0;
    for (offset, wanted) in wanted {
        let found = next_spots(&refs, order.as_slice(), &mut next, 1, *offset);
        if found != *wanted {
            return Ok(false);
        }
    }
    Ok(true)
}

#[test]
fn least_undefined_name_is_told(rt: HostRuntime) -> Result<(), Fail> {
    let alloc = rt.alloc();
    for case in &CASES {
        assert!(rt; tells(alloc, &FILES, case)?);
    }
    assert!(rt; references_are_found_by_their_atoms(alloc, &MIXED, &MIXED_ORDER)?);
    assert!(rt; references_are_found_by_their_atoms(alloc, &FALLING, &FALLING_ORDER)?);
    Ok(())
}
