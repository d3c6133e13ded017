//! Winners, which of them other images see, and where names and symbols lead, against tables that were written by hand and
//! what llvm-nm says of an object of clang's.
ghost use Rattle.std.specs.Prelude.{◌≡◌, ◌<◌, IfOk, IfSome, length};
ghost use Rattle.mo_types.specs.Loaded.{IsWholeLoaded};
ghost use Rattle.name_ids.specs.Names.{numbers_of};
ghost use Rattle.symbol_winners.specs.Found.{AreNamed};
ghost use Rattle.symbol_winners.specs.SymbolTable.{IsSymbolTable};

use crate::clang_names::{NAMES, OBJECT, Told};
use crate::given::{Is, Row, Section1, add, id_of, literal_section, loaded, object, risen};
use crate::libraries::libraries;
use command_line::Command;
use lib_bind::Libraries;
use liveness::roots;
use mo_cmd::read_all_words;
use mo_obj::read_object;
use mo_types::{
    Arg, ArgList, AtomKey, Bytes, Goal, Items, Kind, Loaded, NameList, Object, OutOfMemory, Target,
    kind_of,
};
use name_ids::{NameTable, NumberList, gather};
use resolve::{FileGoals, goal_of, goal_of_name, goal_table};
use std::alloc::Global;
use std::test::Fail;
use symbol_winners::{SymbolTable, Winner, least_words, winners};

// The command of some words behind those of the image's path.
fn command_of(alloc: Global, words: &str) -> Result<Option<Command>, OutOfMemory> {
    let mut list = ArgList::new(alloc);
    for word in ["-o", "out", "main.o"] {
        list.push(Arg::new(String::from_str(alloc, word)?))?;
    }
    for word in words.split_whitespace() {
        list.push(Arg::new(String::from_str(alloc, word)?))?;
    }
    Ok(read_all_words(alloc, &list).ok())
}

fn key_of(file: (u16, u32), section: u16, offset: u64) -> AtomKey {
    AtomKey {
        file: id_of(file),
        section,
        offset,
    }
}

// A winner's name and word, its file, its atom's section and offset, its size and alignment, and whether it is weak and
// exported.
type Won = (
    &'static [u8],
    u64,
    (u16, u32),
    (u16, u64),
    (u64, u8),
    (bool, bool),
);

fn is_won(winner: &Winner, row: &Won) -> bool {
    winner.name.as_slice() == row.0
        && winner.word == row.1
        && winner.file == id_of(row.2)
        && winner.atom == key_of(row.2, row.3.0, row.3.1)
        && winner.offset == 0
        && (winner.size, winner.align) == row.4
        && (winner.weak, winner.exported) == row.5
}

fn are_won(symbols: &SymbolTable, wanted: &[Won]) -> bool {
    let list = symbols.winners();
    list.len() == wanted.len()
        && list
            .iter()
            .zip(wanted)
            .all(|(winner, row)| is_won(winner, row))
}

// A weak and a strong definition of a name, behind a symbol that isn't a candidate.
const WEAK: &[(&[u8], Is)] = &[(b"_other", Is::Undefined), (b"_f", Is::Weak)];

const STRONG: &[(&[u8], Is)] = &[(b"_other", Is::Undefined), (b"_f", Is::Strong)];

// The files of some rows, and their winners.
const WINNING: [(&[Row], &[Won]); 6] = [
    // a strong definition, wherever it stands
    (
        &[((1, 0), WEAK), ((2, 0), STRONG)],
        &[(
            b"_f",
            0x0000_2000_0000_0001,
            (2, 0),
            (1, 0),
            (0, 0),
            (false, true),
        )],
    ),
    (
        &[((1, 0), STRONG), ((2, 0), WEAK)],
        &[(
            b"_f",
            0x0000_1000_0000_0001,
            (1, 0),
            (1, 0),
            (0, 0),
            (false, true),
        )],
    ),
    // the earlier of two weak ones
    (
        &[((1, 0), WEAK), ((1, 2), WEAK), ((2, 0), WEAK)],
        &[(
            b"_f",
            0x1000_1000_0000_0001,
            (1, 0),
            (1, 0),
            (0, 0),
            (true, true),
        )],
    ),
    // the earlier of two commons, with the greatest size and the greatest alignment
    (
        &[
            ((0, 0), &[(b"_c", Is::Common(8, 3))]),
            (
                (1, 0),
                &[(b"_a", Is::HiddenWeak), (b"_c", Is::Common(16, 2))],
            ),
        ],
        &[
            (
                b"_a",
                0x1000_1000_0000_0000,
                (1, 0),
                (1, 0),
                (0, 0),
                (true, false),
            ),
            (
                b"_c",
                0x2000_0000_0000_0000,
                (0, 0),
                (256, 0),
                (16, 3),
                (false, true),
            ),
        ],
    ),
    // a definition above all commons, also a weak one, and with no size of its own
    (
        &[
            ((0, 0), &[(b"_c", Is::Common(8, 3))]),
            ((7, 9), &[(b"_l", Is::Local(0)), (b"_c", Is::Weak)]),
        ],
        &[(
            b"_c",
            0x1000_7000_0900_0001,
            (7, 9),
            (1, 0),
            (0, 0),
            (true, true),
        )],
    ),
    // no candidates
    (
        &[((0, 0), &[(b"_u", Is::Undefined), (b"_l", Is::Local(0))])],
        &[],
    ),
];

fn candidates_win(alloc: Global) -> Result<bool, OutOfMemory> {
    for (files, wanted) in &WINNING {
        if !holds(alloc, *files, "", &Ask::Winners(*wanted))? {
            return Ok(false);
        }
    }
    Ok(true)
}

// A name, what it is, the command's words, and whether other images see it.
const EXPORTS: [(&[u8], Is, &str, bool); 19] = [
    (b"_f", Is::Strong, "", true),
    (b"_f", Is::Weak, "", true),
    (b"_f", Is::Common(4, 2), "", true),
    (b"_f", Is::Hidden, "", false),
    (b"_f", Is::HiddenWeak, "", false),
    (b"l_f", Is::Strong, "", false),
    (b"L_f", Is::Strong, "", false),
    (b"_l", Is::Strong, "", true),
    (b"", Is::Strong, "", true),
    (b"_f", Is::Strong, "-exported_symbol _f", true),
    (b"_f", Is::Strong, "-exported_symbol _g", false),
    (
        b"_f",
        Is::Strong,
        "-exported_symbol _g -exported_symbol _f",
        true,
    ),
    (b"_f", Is::Hidden, "-exported_symbol _f", false),
    (b"l_f", Is::Strong, "-exported_symbol l_f", false),
    (b"_f", Is::Strong, "-unexported_symbol _f", false),
    (b"_f", Is::Strong, "-unexported_symbol _ff", true),
    (
        b"_f",
        Is::Weak,
        "-exported_symbol _f -unexported_symbol _f",
        false,
    ),
    (b"_f", Is::Strong, "-dylib -install_name /x", true),
    (
        b"_f",
        Is::Strong,
        "-dylib -install_name /x -unexported_symbol _f",
        false,
    ),
];

fn exports_are_seen(alloc: Global) -> Result<bool, OutOfMemory> {
    for (name, is, words, seen) in &EXPORTS {
        let files: &[Row] = &[((0, 0), &[(*name, *is)])];
        if !holds(alloc, files, *words, &Ask::Seen(*name, *seen))? {
            return Ok(false);
        }
    }
    Ok(true)
}

// Where a name leads.
#[derive(Clone, Copy)]
enum Leads {
    // To the start of an atom of the first file, by its section and offset; of an exported weak definition by its name.
    Here(u16, u64),
    ByName(u16, u64),
    Header,
    // To a library of an ordinal, as a weak name or not, which may be missing or not.
    Library(u8, bool, bool),
    AnyImage,
    Nowhere,
}

fn goal_to(name: &'static [u8], leads: Leads) -> Goal {
    match leads {
        Leads::Here(section, offset) => Goal::Def(key_of((0, 0), section, offset), 0),
        Leads::ByName(section, offset) => {
            Goal::WeakSelf(Bytes::from_static(name), key_of((0, 0), section, offset), 0)
        }
        Leads::Header => Goal::Header,
        Leads::Library(ordinal, by_weak, optional) => Goal::Import {
            name: Bytes::from_static(name),
            ordinal,
            by_weak,
            optional,
        },
        Leads::AnyImage => Goal::Flat(Bytes::from_static(name)),
        Leads::Nowhere => Goal::Nobody,
    }
}

const FILES: [Row; 2] = [
    (
        (0, 0),
        &[
            (b"_main", Is::Strong),
            (b"_w", Is::Weak),
            (b"_v", Is::HiddenWeak),
            (b"_c", Is::Common(8, 3)),
            (b"_f", Is::Undefined),
            (b"_may", Is::MayBeMissing),
            (b"_both", Is::MayBeMissing),
            (b"_lost", Is::MayBeMissing),
        ],
    ),
    (
        (1, 0),
        &[
            (b"_w", Is::Weak),
            (b"_may", Is::MayBeMissing),
            (b"_both", Is::Undefined),
            (b"_j", Is::MayBeMissing),
        ],
    ),
];

// A file that defines the name of the header.
const OWN_HEADER: [Row; 1] = [((0, 0), &[(b"___dso_handle", Is::Hidden)])];

type Names = &'static [(&'static [u8], Leads)];

// The files, the command's words, and where names lead.
const NAMED: [(&[Row], &str, Names); 7] = [
    (
        &FILES,
        "",
        &[
            // winners, before a library that has the name too
            (b"_main", Leads::Here(1, 0)),
            (b"_w", Leads::ByName(1, 0)),
            (b"_v", Leads::Here(1, 0)),
            (b"_c", Leads::Here(256, 3)),
            // the header, before a library
            (b"___dso_handle", Leads::Header),
            (b"__mh_execute_header", Leads::Header),
            (b"__mh_dylib_header", Leads::Library(1, false, false)),
            // the first library, by the list in which it has the name, by how it was named, and by how files refer to the name
            (b"_f", Leads::Library(1, false, false)),
            (b"_g", Leads::Library(2, true, false)),
            (b"_i", Leads::Library(2, true, false)),
            (b"_h", Leads::Library(3, false, true)),
            (b"_j", Leads::Library(3, true, true)),
            (b"_may", Leads::Library(1, false, true)),
            (b"_both", Leads::Library(1, false, false)),
            (b"_lost", Leads::Nowhere),
            (b"_nobody", Leads::Nowhere),
            (b"", Leads::Nowhere),
        ],
    ),
    (
        &FILES,
        "-U _lost -U _f -U _main -U ___dso_handle",
        &[
            (b"_lost", Leads::AnyImage),
            (b"_f", Leads::Library(1, false, false)),
            (b"_main", Leads::Here(1, 0)),
            (b"___dso_handle", Leads::Header),
            (b"_nobody", Leads::Nowhere),
        ],
    ),
    (
        &FILES,
        "-undefined dynamic_lookup",
        &[
            (b"_lost", Leads::AnyImage),
            (b"_nobody", Leads::AnyImage),
            (b"_f", Leads::Library(1, false, false)),
            (b"_w", Leads::ByName(1, 0)),
        ],
    ),
    (
        &FILES,
        "-dylib -install_name /x",
        &[
            (b"___dso_handle", Leads::Header),
            (b"__mh_dylib_header", Leads::Header),
            (b"__mh_execute_header", Leads::Nowhere),
        ],
    ),
    // a weak definition that other images don't see is no other image's either
    (
        &FILES,
        "-exported_symbol _main",
        &[(b"_w", Leads::Here(1, 0))],
    ),
    (
        &FILES,
        "-unexported_symbol _w",
        &[(b"_w", Leads::Here(1, 0))],
    ),
    (&OWN_HEADER, "", &[(b"___dso_handle", Leads::Here(1, 0))]),
];

// Whether names lead where they are to.
fn all_lead(
    alloc: Global,
    libs: &Libraries,
    loaded: &Loaded,
    command: &Command,
    symbols: &SymbolTable,
    names: Names,
) -> Result<bool, OutOfMemory>
    requires { IsSymbolTable command.now loaded.now.files symbols.now }
{
    for (name, leads) in names {
        if goal_of_name(alloc, symbols, libs, loaded, command, *name)? != goal_to(*name, *leads) {
            return Ok(false);
        }
    }
    Ok(true)
}

fn names_lead(alloc: Global, libs: &Libraries) -> Result<bool, OutOfMemory> {
    for (files, words, names) in &NAMED {
        if !holds(alloc, *files, *words, &Ask::Names(libs, *names))? {
            return Ok(false);
        }
    }
    Ok(true)
}

// Two files with the string `hi`, of which the second names its start for other files, and a place in it for itself.
const STRINGS: [(Section1, &[(&[u8], Is)]); 2] = [
    ((0, b"__cstring", 2, 0, b"hi\0"), &[]),
    (
        (4, b"__cstring", 2, 0, b"ho\0hi\0"),
        &[
            (b"_s", Is::At(0x43)),
            (b"l_hi", Is::Local(0x44)),
            (b"l_ho", Is::Local(0x42)),
            (b"_u", Is::Undefined),
        ],
    ),
];

// Two files with one string, whose name the first defines weakly and the second strongly.
const SHARED: [(Section1, &[(&[u8], Is)]); 2] = [
    (
        (0, b"__cstring", 2, 0, b"hi\0"),
        &[(b"_s", Is::WeakAt(0x40))],
    ),
    ((4, b"__cstring", 2, 0, b"hi\0"), &[(b"_s", Is::At(0x40))]),
];

fn strings(
    alloc: Global,
    rows: &[(Section1, &[(&'static [u8], Is)])],
) -> Result<Option<Loaded>, OutOfMemory>
    ensures { IfOk result (λ loaded. IfSome loaded IsWholeLoaded) }
{
    let mut files = Vec::new(alloc);
    for (section, symbols) in rows {
        let object = object(alloc, literal_section(alloc, section), *symbols)?;
        match add(files, alloc, (section.0, 0), object)? {
            Some(more) => files = more,
            None => return Ok(None),
        }
    }
    Ok(risen(files))
}

// A target of the second file, and where it leads: to the atom of a file and an offset, at an offset.
type Leading = (Target, Option<((u16, u32), u64, u64)>);

fn leading_rows() -> [Leading; 8] {
    [
        (Target::Name(0), Some(((0, 0), 0, 0))),
        (Target::Name(1), Some(((0, 0), 0, 1))),
        (Target::Name(2), Some(((4, 0), 0, 2))),
        (Target::Name(3), None),
        (Target::Name(4), None),
        (Target::Local(key_of((4, 0), 1, 3), 2), Some(((0, 0), 0, 2))),
        (Target::Local(key_of((4, 0), 1, 0), 3), Some(((4, 0), 0, 3))),
        (Target::Local(key_of((0, 0), 1, 0), 1), Some(((0, 0), 0, 1))),
    ]
}

fn leading_to(row: Option<((u16, u32), u64, u64)>) -> Goal {
    match row {
        Some((file, offset, inside)) => Goal::Def(key_of(file, 1, offset), inside),
        None => Goal::Nobody,
    }
}

// Whether targets of a file lead where they are to, by the goals of the file's symbols.
fn targets_of_file_lead(symbols: &SymbolTable, goals: &FileGoals) -> Result<bool, OutOfMemory> {
    for (target, leads) in &leading_rows() {
        if goal_of(symbols, goals, target)? != leading_to(*leads) {
            return Ok(false);
        }
    }
    Ok(goals.places().len() == 4)
}

fn targets_lead(
    alloc: Global,
    libs: &Libraries,
    loaded: &Loaded,
    command: &Command,
    numbers: &Items<NumberList>,
    symbols: &SymbolTable,
) -> Result<bool, OutOfMemory>
    requires whole { IsWholeLoaded loaded.now }
    requires numbers { numbers.now ≡ numbers_of symbols.now.names loaded.now.files }
    requires symbols { IsSymbolTable command.now loaded.now.files symbols.now }
{
    let table = goal_table(alloc, loaded, symbols, numbers, libs, command)?;
    match table.file(1) {
        Some(goals) => Ok(loaded.files.len() == 2 && targets_of_file_lead(symbols, &goals)?),
        None => Ok(false),
    }
}

fn goals_are_found(alloc: Global) -> Result<bool, OutOfMemory> {
    let libs = libraries(alloc)?;
    match &libs {
        Some(libs) => {
            Ok(
                names_lead(alloc, libs)?
                    && is_so(alloc, &strings(alloc, &STRINGS)?, "", &Ask::Targets(libs))?
                    && is_so(alloc, &strings(alloc, &SHARED)?, "", &Ask::Root((0, 0)))?,
            )
        }
        None => Ok(false),
    }
}

fn clang_object(alloc: Global) -> Result<Option<Object>, OutOfMemory> {
    let file = Bytes::from_slice(alloc, OBJECT)?;
    match kind_of(file.as_slice()) {
        Kind::MachO => Ok(read_object(alloc, &file).ok()),
        _ => Ok(None),
    }
}

fn clang_file(alloc: Global) -> Result<Option<Loaded>, OutOfMemory>
    ensures { IfOk result (λ loaded. IfSome loaded IsWholeLoaded) }
{
    let Some(object) = clang_object(alloc)? else {
        return Ok(None);
    };
    match add(Vec::new(alloc), alloc, (0, 0), object)? {
        Some(files) => Ok(risen(files)),
        None => Ok(None),
    }
}

// Whether a name has a winner just where llvm-nm says that it is offered, and as that says.
fn is_told(winner: Option<&Winner>, told: &Option<Told>) -> bool {
    match (winner, told) {
        (Some(winner), Some((strength, seen, size, align))) => {
            winner.word >> 60 == *strength
                && winner.weak == (*strength == 1)
                && winner.exported == *seen
                && winner.size == *size
                && winner.align == *align
        }
        (None, None) => true,
        _ => false,
    }
}

// What is asked of files and a command.
#[derive(Clone, Copy)]
enum Ask<'a> {
    Winners(&'a [Won]),
    Seen(&'static [u8], bool),
    Names(&'a Libraries, Names),
    Targets(&'a Libraries),
    // that the first atom of a file is the one root
    Root((u16, u32)),
    // that the winners are those that llvm-nm tells
    Told,
}

fn is_answered(
    alloc: Global,
    loaded: &Loaded,
    command: &Command,
    numbers: &Items<NumberList>,
    symbols: &SymbolTable,
    ask: &Ask,
) -> Result<bool, OutOfMemory>
    requires whole { IsWholeLoaded loaded.now }
    requires numbers { numbers.now ≡ numbers_of symbols.now.names loaded.now.files }
    requires symbols { IsSymbolTable command.now loaded.now.files symbols.now }
{
    match ask {
        Ask::Winners(rows) => Ok(are_won(symbols, *rows)),
        Ask::Seen(name, seen) => Ok(
            symbols
                .winner(*name)
                .is_some_and(|winner| winner.exported == *seen),
        ),
        Ask::Names(libs, names) => all_lead(alloc, *libs, loaded, command, symbols, *names),
        Ask::Targets(libs) => targets_lead(alloc, *libs, loaded, command, numbers, symbols),
        Ask::Root(file) => {
            let roots = roots(alloc, loaded, symbols, numbers, command)?;
            let key = key_of(*file, 1, 0);
            Ok(roots.len() == 1 && roots.as_slice().iter().all(|root| *root == key))
        }
        Ask::Told => Ok(
            NAMES
                .iter()
                .all(|(name, told)| is_told(symbols.winner(*name), told)),
        ),
    }
}

// Whether the winners of files with numbered names, by the words of a race of all their candidates, answer as they are to.
fn is_known(
    alloc: Global,
    loaded: &Loaded,
    command: &Command,
    names: &NameTable,
    numbers: &Items<NumberList>,
    ask: &Ask,
) -> Result<bool, OutOfMemory>
    requires whole { IsWholeLoaded loaded.now }
    requires named { AreNamed names.now loaded.now.files }
    requires numbers { numbers.now ≡ numbers_of names.now loaded.now.files }
{
    let words = least_words(alloc, loaded, names, numbers)?;
    let symbols = winners(alloc, loaded, names, numbers, words.as_slice(), command)?;
    is_answered(alloc, loaded, command, numbers, &symbols, ask)
}

// The same of files whose names have no numbers yet.
fn is_gathered(
    alloc: Global,
    loaded: &Loaded,
    command: &Command,
    ask: &Ask,
) -> Result<bool, OutOfMemory>
    requires { IsWholeLoaded loaded.now }
{
    let extra = NameList::new(alloc);
    match gather(alloc, loaded, &extra) {
        Ok(all) => is_known(alloc, loaded, command, &all.names, &all.numbers, ask),
        Err(_) => Ok(false),
    }
}

// Whether files and the command of some words answer as they are to.
fn is_so(
    alloc: Global,
    loaded: &Option<Loaded>,
    words: &str,
    ask: &Ask,
) -> Result<bool, OutOfMemory>
    requires { IfSome loaded.now IsWholeLoaded }
{
    let command = command_of(alloc, words)?;
    match (&command, loaded) {
        (Some(command), Some(loaded)) => is_gathered(alloc, loaded, command, ask),
        _ => Ok(false),
    }
}

// The same of the files of some rows.
fn holds(alloc: Global, rows: &[Row], words: &str, ask: &Ask) -> Result<bool, OutOfMemory> {
    is_so(alloc, &loaded(alloc, rows)?, words, ask)
}

#[test]
fn names_lead_to_their_winners(rt: HostRuntime) -> Result<(), Fail> {
    let alloc = rt.alloc();
    assert!(rt; candidates_win(alloc)?);
    assert!(rt; exports_are_seen(alloc)?);
    assert!(rt; goals_are_found(alloc)?);
    assert!(rt; is_so(alloc, &clang_file(alloc)?, "", &Ask::Told)?);
    Ok(())
}
