//! Duplicates, representatives and places against tables that were written by hand.
ghost use Rattle.std.specs.Prelude.{IfOk, IfSome};
ghost use Rattle.mo_types.specs.Loaded.{IsWholeFile, IsWholeLoaded};

use crate::given::{
    Is, Row, Section1, add, id_of, literal_section, loaded, object, risen, symbol, whole_file,
};
use literal_merge::representatives;
use mo_types::{AtomKey, FileId, Loaded, LoadedFile, NameList, OutOfMemory, SymbolKind};
use name_ids::gather;
use std::alloc::Global;
use std::test::Fail;
use symbol_winners::{Place, duplicate, place_of};

// The files of the least duplicate, by the name that it is to have.
type Pair<'a> = Option<(&'a [u8], (u16, u32), (u16, u32))>;

// Whether the files of some rows have this duplicate.
fn has(alloc: Global, rows: &[Row], wanted: Pair) -> Result<bool, OutOfMemory> {
    let Some(loaded) = loaded(alloc, rows)? else {
        return Ok(false);
    };
    let extra = NameList::new(alloc);
    let Ok(all) = gather(alloc, &loaded, &extra) else {
        return Ok(false);
    };
    let found = duplicate(alloc, &loaded, &all.names, &all.numbers)?;
    Ok(match (found, wanted) {
        (Some((id, first, second)), Some((name, a, b))) => {
            all.names.id_of(name) == Some(id) && first == id_of(a) && second == id_of(b)
        }
        (None, None) => true,
        _ => false,
    })
}

fn duplicates_are_told(alloc: Global) -> Result<bool, OutOfMemory> {
    let main: Row = ((0, 0), &[(b"_main", Is::Strong), (b"_f", Is::Undefined)]);
    let strong: &[(&'static [u8], Is)] = &[(b"_f", Is::Strong)];
    let weak: &[(&'static [u8], Is)] = &[(b"_f", Is::Weak), (b"_f", Is::Common(8, 3))];
    let rows: [(&[Row], Pair); 7] = [
        (&[main], None),
        (
            &[main, ((1, 0), strong), ((2, 0), strong)],
            Some((b"_f", (1, 0), (2, 0))),
        ),
        (
            &[main, ((1, 0), &[(b"_f", Is::Strong), (b"_f", Is::Strong)])],
            Some((b"_f", (1, 0), (1, 0))),
        ),
        // strong_beats_weak
        (&[main, ((1, 0), weak), ((2, 0), strong)], None),
        (&[((0, 0), weak), ((1, 0), weak)], None),
        // member_duplicate
        (
            &[
                (
                    (0, 0),
                    &[
                        (b"_main", Is::Strong),
                        (b"_f", Is::Strong),
                        (b"_g", Is::Undefined),
                    ],
                ),
                ((1, 1), &[(b"_g", Is::Strong), (b"_h", Is::Undefined)]),
                ((1, 2), &[(b"_h", Is::Strong), (b"_f", Is::Strong)]),
            ],
            Some((b"_f", (0, 0), (1, 2))),
        ),
        // the least name, whichever has the lesser number
        (
            &[
                (
                    (0, 0),
                    &[
                        (b"_z", Is::Strong),
                        (b"_b", Is::Strong),
                        (b"_z", Is::Strong),
                    ],
                ),
                ((1, 3), &[(b"_a", Is::Weak), (b"_b", Is::Strong)]),
                ((1, 4), &[(b"_a", Is::Weak), (b"_b", Is::Strong)]),
            ],
            Some((b"_b", (0, 0), (1, 3))),
        ),
    ];
    for (files, wanted) in rows {
        if !has(alloc, files, wanted)? {
            return Ok(false);
        }
    }
    Ok(true)
}

// The files of some sections, where they are whole and rise.
fn loaded_literals(alloc: Global, rows: &[Section1]) -> Result<Option<Loaded>, OutOfMemory>
    ensures { IfOk result (λ loaded. IfSome loaded IsWholeLoaded) }
{
    let mut files = Vec::new(alloc);
    for row in rows {
        match add(
            files,
            alloc,
            (row.0, 0),
            object(alloc, literal_section(alloc, row), &[])?,
        )? {
            Some(more) => files = more,
            None => return Ok(None),
        }
    }
    Ok(risen(files))
}

// The file and offset of a literal, those of its representative, and the alignment.
type Stands = ((u16, u64), (u16, u64), u8);

fn key_of(place: (u16, u64)) -> AtomKey {
    AtomKey {
        file: id_of((place.0, 0)),
        section: 1,
        offset: place.1,
    }
}

// Whether the literals of some sections have these representatives.
fn stand(alloc: Global, rows: &[Section1], wanted: &[Stands]) -> Result<bool, OutOfMemory> {
    let Some(loaded) = loaded_literals(alloc, rows)? else {
        return Ok(false);
    };
    let list = representatives(alloc, &loaded)?;
    Ok(
        list.len() == wanted.len()
            && list.as_slice().iter().zip(wanted).all(|(found, row)| {
                found.literal == key_of(row.0)
                    && found.representative == key_of(row.1)
                    && found.align == row.2
            }),
    )
}

fn literals_have_representatives(alloc: Global) -> Result<bool, OutOfMemory> {
    let strings: &'static [u8] = b"__cstring";
    let words: &'static [u8] = b"__literal4";
    let rows: [(&[Section1], &[Stands]); 5] = [
        // one_string
        (
            &[(0, strings, 2, 0, b"hi\0"), (1, strings, 2, 3, b"hi\0")],
            &[((0, 0), (0, 0), 3), ((1, 0), (0, 0), 3)],
        ),
        // another section of the image
        (
            &[(0, strings, 2, 0, b"hi\0"), (1, b"__other", 2, 3, b"hi\0")],
            &[((0, 0), (0, 0), 0), ((1, 0), (1, 0), 3)],
        ),
        (
            &[
                (2, words, 3, 3, b"aaaabbbbaaaa"),
                (5, words, 3, 2, b"bbbbcccc"),
            ],
            &[
                ((2, 0), (2, 0), 3),
                ((2, 4), (2, 4), 2),
                ((2, 8), (2, 0), 3),
                ((5, 0), (2, 4), 2),
                ((5, 4), (5, 4), 2),
            ],
        ),
        // empty sections have one empty literal each
        (
            &[(0, strings, 2, 0, b""), (1, strings, 2, 0, b"\0\0")],
            &[
                ((0, 0), (0, 0), 0),
                ((1, 0), (1, 0), 0),
                ((1, 1), (1, 0), 0),
            ],
        ),
        (&[(0, b"__const", 0, 0, b"hi\0")], &[]),
    ];
    for (sections, wanted) in rows {
        if !stand(alloc, sections, wanted)? {
            return Ok(false);
        }
    }
    Ok(true)
}

// What symbols are, and the section and offset of their atoms and their offsets in these. The section has two strings
// from the address 0x40 on.
const PLACES: [(SymbolKind, Option<(u16, u64, u64)>); 8] = [
    (
        SymbolKind::Defined {
            section: 1,
            value: 0x40,
        },
        Some((1, 0, 0)),
    ),
    (
        SymbolKind::Defined {
            section: 1,
            value: 0x42,
        },
        Some((1, 0, 2)),
    ),
    (
        SymbolKind::Defined {
            section: 1,
            value: 0x43,
        },
        Some((1, 3, 0)),
    ),
    (
        SymbolKind::Defined {
            section: 1,
            value: 0x46,
        },
        Some((1, 3, 3)),
    ),
    (SymbolKind::Common { size: 8, align: 3 }, Some((256, 4, 0))),
    (SymbolKind::Undefined, None),
    (SymbolKind::Absolute, None),
    (SymbolKind::Passed, None),
];

// The file of those symbols.
fn placed(alloc: Global, id: FileId) -> Result<Option<LoadedFile>, OutOfMemory>
    ensures { IfOk result (λ file. IfSome file IsWholeFile) }
{
    let row = (0, b"__cstring".as_slice(), 2, 0, b"ab\0cd\0".as_slice());
    let mut object = object(alloc, literal_section(alloc, &row), &[])?;
    for (kind, _) in &PLACES {
        let mut symbol = symbol(b"_s", Is::Strong);
        symbol.kind = *kind;
        object.symbols.push(symbol)?;
    }
    whole_file(alloc, id, object)
}

// Whether a file's symbols stand where they are to.
fn are_placed(file: &LoadedFile) -> bool
    requires { IsWholeFile file.now }
{
    let count = file.object.symbols.len();
    for (i, (_, wanted)) in PLACES.iter().enumerate() {
        let found = if i < count {
            place_of(file, i as u32)
        } else {
            None
        };
        let wanted = wanted.map(|row| Place {
            atom: AtomKey {
                file: file.id,
                section: row.0,
                offset: row.1,
            },
            offset: row.2,
        });
        if found != wanted {
            return false;
        }
    }
    count == PLACES.len()
}

fn symbols_have_places(alloc: Global) -> Result<bool, OutOfMemory> {
    let file = placed(alloc, id_of((3, 9)))?;
    match &file {
        Some(file) => Ok(are_placed(file)),
        None => Ok(false),
    }
}

#[test]
fn duplicates(rt: HostRuntime) -> Result<(), Fail> {
    let alloc = rt.alloc();
    assert!(rt; duplicates_are_told(alloc)?);
    assert!(rt; literals_have_representatives(alloc)?);
    assert!(rt; symbols_have_places(alloc)?);
    Ok(())
}
