//! Each kind of reference to each kind of goal, and what it needs (`mach-o/arm64/reloc.h`).
ghost use Rattle.std.specs.Prelude.{◌≡◌, IfOk};
ghost use Rattle.std.specs.List.Sorted.{IsStrictlySortedBy};
ghost use Rattle.mo_types.specs.Keys.{compare_keys};
ghost use Rattle.mo_types.specs.Loaded.{IsWholeLoaded};
ghost use Rattle.name_ids.specs.Names.{numbers_of};
ghost use Rattle.symbol_winners.specs.Found.{AreNamed};

use command_line::Command;
use mark_core::kept;
use mo_cmd::read_all_words;
use mo_types::{
    Arg, ArgList, Bytes, EdgeList, Goal, Items, KeyList, Loaded, LoadedFile, LoadedList, NameList,
    OutOfMemory, Ref, RefKind, SectionList, SymbolList, Target,
};
use name_ids::{NameTable, NumberList, gather};
use resolve::{GoalTable, PlaceList};
use slot_needs::{Referring, Unmet, first_unmet, needs};
use slot_plan::{NeedList, Way};
use std::alloc::Global;
use std::test::Fail;
use symbol_winners::{SymbolTable, least_words, winners};
use test_objects::{file, file_id, key, object, only};

// Where a reference leads.
#[derive(Clone, Copy)]
enum To {
    Atom,
    Weak,
    Header,
    Library,
    Anywhere,
}

// A reference with its addend, how it needs its goal, and whether it can't be met in another image.
type Row = (RefKind, i64, To, Option<Way>, bool);

const ROWS: [Row; 24] = [
    (RefKind::Branch, 0, To::Atom, None, false),
    (RefKind::Branch, 0, To::Weak, Some(Way::Stub), false),
    (RefKind::Branch, 0, To::Header, None, false),
    (RefKind::Branch, 0, To::Library, Some(Way::Stub), false),
    (RefKind::Branch, 0, To::Anywhere, Some(Way::Stub), false),
    (RefKind::Branch, 4, To::Weak, None, false),
    (RefKind::Branch, -4, To::Library, None, true),
    (RefKind::Pointer, 0, To::Library, None, false),
    (RefKind::Pointer, 8, To::Weak, None, false),
    (RefKind::Diff32, 0, To::Weak, None, false),
    (RefKind::Diff64, 0, To::Atom, None, false),
    (RefKind::Page, 0, To::Weak, None, false),
    (RefKind::PageOff, 0, To::Header, None, false),
    (RefKind::GotPage, 0, To::Atom, Some(Way::Got), false),
    (RefKind::GotPageOff, 0, To::Library, Some(Way::Got), false),
    (RefKind::GotDelta, 0, To::Weak, Some(Way::Got), false),
    (RefKind::GotPointer, 0, To::Header, Some(Way::Got), false),
    (RefKind::TlvPage, 0, To::Atom, Some(Way::Tlv), false),
    (RefKind::TlvPageOff, 0, To::Anywhere, Some(Way::Tlv), false),
    (RefKind::TlvPage, 0, To::Library, Some(Way::Tlv), false),
    (RefKind::Page, 0, To::Library, None, true),
    (RefKind::PageOff, 8, To::Anywhere, None, true),
    (RefKind::Diff32, 0, To::Library, None, true),
    (RefKind::Diff64, 0, To::Anywhere, None, true),
];

// Where an executable begins, and whether that needs a stub.
const ENTRIES: [(To, bool); 5] = [
    (To::Atom, false),
    (To::Weak, false),
    (To::Header, false),
    (To::Library, true),
    (To::Anywhere, true),
];

fn goal_of(to: To) -> Goal {
    match to {
        To::Atom => Goal::Def(key(1, 1, 0), 16),
        To::Weak => Goal::WeakSelf(Bytes::from_static(b"_weak"), key(1, 1, 0), 0),
        To::Header => Goal::Header,
        To::Library => Goal::Import {
            name: Bytes::from_static(b"_puts"),
            ordinal: 1,
            by_weak: false,
            optional: false,
        },
        To::Anywhere => Goal::Flat(Bytes::from_static(b"_anywhere")),
    }
}

// A file whose one atom refers twice to its one symbol, at its end first.
fn referring_file(alloc: Global, kind: RefKind, addend: i64) -> Result<LoadedFile, OutOfMemory> {
    let mut file = file(
        alloc,
        file_id(1),
        object(SectionList::new(alloc), SymbolList::new(alloc)),
    );
    for place in [8u64, 0] {
        file.refs.push(Ref {
            atom: key(1, 1, 0),
            place,
            file_place: place,
            kind,
            target: Target::Name(0),
            minus: None,
            addend,
        })?;
    }
    Ok(file)
}

// The goals of a file with one symbol.
fn table_of(alloc: Global, goal: Goal) -> Result<GoalTable, OutOfMemory> {
    let pool = vec![in alloc; goal]?;
    let mut files = Items::new(alloc);
    files.push(PlaceList::from_vec(vec![in alloc; 0u32]?))?;
    Ok(GoalTable::new(pool, files))
}

// The file's atom, or no atom.
fn keys_of(alloc: Global, is_kept: bool) -> Result<KeyList, OutOfMemory>
    ensures { IfOk result (λ keys. IsStrictlySortedBy compare_keys keys) }
{
    let mut roots = KeyList::new(alloc);
    if is_kept {
        roots.push(key(1, 1, 0))?;
    }
    kept(alloc, &EdgeList::new(alloc), &EdgeList::new(alloc), &roots)
}

// Whether the needs are that of a goal in a way, once, or none.
fn are(needs: &NeedList, to: To, way: Option<Way>) -> bool {
    match (way, needs.as_slice().first()) {
        (None, None) => true,
        (Some(way), Some(need)) => {
            needs.len() == 1 && need.way == way && need.goal.is_same(&goal_of(to))
        }
        _ => false,
    }
}

// Whether the first reference that can't be met is the one at the atom's start, or there is none.
fn is_first(found: Option<Unmet>, is_there: bool) -> bool {
    match found {
        Some(unmet) => is_there && unmet.file == 0 && unmet.reference.place == 0,
        None => !is_there,
    }
}

// Whether a reference of an atom needs its goal as it is to and is met where it is to be, where the atom is kept, and else
// needs nothing.
fn row_holds(
    alloc: Global,
    symbols: &SymbolTable,
    row: &Row,
    is_kept: bool,
) -> Result<bool, OutOfMemory> {
    let (kind, addend, to, way, is_unmet) = *row;
    let loaded = only(alloc, referring_file(alloc, kind, addend)?)?;
    let goals = table_of(alloc, goal_of(to))?;
    let keys = keys_of(alloc, is_kept)?;
    let entry = Goal::Header;
    let referring = Referring {
        loaded: &loaded,
        goals: &goals,
        symbols,
        keys: &keys,
        entry: Some(&entry),
    };
    let found = needs(alloc, &referring)?;
    let unmet = first_unmet(&referring);
    Ok(are(&found, to, if is_kept { way } else { None }) && is_first(unmet, is_kept && is_unmet))
}

// Whether an entry needs what it is to.
fn entry_holds(
    alloc: Global,
    symbols: &SymbolTable,
    to: To,
    by_stub: bool,
) -> Result<bool, OutOfMemory> {
    let loaded = Loaded {
        files: LoadedList::new(alloc),
    };
    let goals = table_of(alloc, Goal::Nobody)?;
    let keys = keys_of(alloc, true)?;
    let entry = goal_of(to);
    let referring = Referring {
        loaded: &loaded,
        goals: &goals,
        symbols,
        keys: &keys,
        entry: Some(&entry),
    };
    let found = needs(alloc, &referring)?;
    Ok(are(&found, to, if by_stub { Some(Way::Stub) } else { None }))
}

fn all_hold(alloc: Global, symbols: &SymbolTable) -> Result<bool, OutOfMemory> {
    for row in &ROWS {
        if !row_holds(alloc, symbols, row, true)? || !row_holds(alloc, symbols, row, false)? {
            return Ok(false);
        }
    }
    for (to, by_stub) in &ENTRIES {
        if !entry_holds(alloc, symbols, *to, *by_stub)? {
            return Ok(false);
        }
    }
    Ok(true)
}

// The same, with the symbols of files whose names have numbers.
fn hold_with(
    alloc: Global,
    loaded: &Loaded,
    names: &NameTable,
    numbers: &Items<NumberList>,
    command: &Command,
) -> Result<bool, OutOfMemory>
    requires whole { IsWholeLoaded loaded.now }
    requires named { AreNamed names.now loaded.now.files }
    requires numbers { numbers.now ≡ numbers_of names.now loaded.now.files }
{
    let words = least_words(alloc, loaded, names, numbers)?;
    let symbols = winners(alloc, loaded, names, numbers, words.as_slice(), command)?;
    all_hold(alloc, &symbols)
}

// The same, of files whose names have no numbers yet.
fn hold_by(alloc: Global, loaded: &Loaded, command: &Command) -> Result<bool, OutOfMemory>
    requires { IsWholeLoaded loaded.now }
{
    let extra = NameList::new(alloc);
    match gather(alloc, loaded, &extra) {
        Ok(all) => hold_with(alloc, loaded, &all.names, &all.numbers, command),
        Err(_) => Ok(false),
    }
}

#[test]
fn references_need_slots(rt: HostRuntime) -> Result<(), Fail> {
    let alloc = rt.alloc();
    let mut words = ArgList::new(alloc);
    for word in ["-o", "out", "main.o"] {
        words.push(Arg::new(String::from_str(alloc, word)?))?;
    }
    let none = Loaded {
        files: LoadedList::new(alloc),
    };
    match &read_all_words(alloc, &words) {
        Ok(command) => assert!(rt; hold_by(alloc, &none, command)?),
        Err(_) => assert!(rt; false),
    }
    Ok(())
}
