//! Headers and load commands of images that were placed, against yaml2obj's bytes.
mod bytes;

use crate::given::{command_of, slots_of};
use crate::order::{are_low, are_low_sections, is_rising};
use bytes::{
    EMPTY_DYLIB, EMPTY_DYLIB_AT_FIRST, EVERY_COMMAND, HELLO, HELLO_AT_FIRST, MANY_LIBRARY,
    ONE_FUNCTION,
};
use command_line::Command;
use lib_bind::{Libraries, Library, LibraryList, LinkList, are_libraries, are_links};
use load_cmds::{PartKinds, PartPlace, PartSizes, commands, other_size};
use mo_format::loader::{
    MH_DYLDLINK, MH_NO_REEXPORTED_DYLIBS, MH_NOUNDEFS, MH_PIE, MH_TWOLEVEL,
    S_ATTR_PURE_INSTRUCTIONS, S_ATTR_SOME_INSTRUCTIONS, S_CSTRING_LITERALS, S_REGULAR, S_ZEROFILL,
    SECTION_TYPE,
};
use mo_types::{
    AtomKey, AtomList, Bytes, Items, KeyList, NameList, OutOfMemory, OutSection, OutSections,
};
use sect_place::{AreaList, IslandPlan, PlaceFault, PlaceSizes, WayList, place};
use std::alloc::Global;
use std::test::Fail;
use tbd_doc::{ExportList, Stub, StubList};
use test_objects::atom;

// A section of the image: its segment, its name, its flags with its type in them, its alignment, and which of two atoms
// it has.
type Row = (&'static [u8], &'static [u8], u32, u8, Option<u16>);

// A library: its install name, its versions, and whether it is weak and re-exported.
type Lib = (&'static [u8], u32, u32, bool, bool);

// What an image is made of: the words of the command, the bytes of two atoms, sections, how many stubs and slots of
// thread-local variables there are, the bytes of the unwind information, libraries, and parts.
#[derive(Clone, Copy)]
struct Case<'a> {
    words: &'static str,
    atoms: (u64, u64),
    sections: &'a [Row],
    stubs: u64,
    tlv: u64,
    unwind: u64,
    libs: &'a [Lib],
    parts: PartSizes,
}

// The flags of the header: of every image, of a program, and of a library that exports no other.
const IMAGE: u32 = MH_NOUNDEFS | MH_DYLDLINK | MH_TWOLEVEL;

const PROGRAM: u32 = MH_NOUNDEFS | MH_DYLDLINK | MH_TWOLEVEL | MH_PIE;

const LIBRARY: u32 = MH_NOUNDEFS | MH_DYLDLINK | MH_TWOLEVEL | MH_NO_REEXPORTED_DYLIBS;

const NO_PLACE: PartPlace = PartPlace { offset: 0, size: 0 };

const NO_PARTS: PartSizes = PartSizes {
    there: PartKinds {
        fixups: false,
        trie: false,
        symbols: false,
        uuid: false,
        signature: false,
    },
    fixups: NO_PLACE,
    trie: NO_PLACE,
    symbols: NO_PLACE,
    indirect: NO_PLACE,
    strings: NO_PLACE,
    signature: NO_PLACE,
    locals: 0,
    exported: 0,
    undefined: 0,
    entryoff: 0,
    flags: PROGRAM,
};

const ALL: PartKinds = PartKinds {
    fixups: true,
    trie: true,
    symbols: true,
    uuid: true,
    signature: true,
};

fn key(section: u16) -> AtomKey {
    test_objects::key(0, section, 0)
}

// Two atoms of so many bytes.
fn kept_of(alloc: Global, sizes: (u64, u64)) -> Result<AtomList, OutOfMemory> {
    let mut atoms = AtomList::new(alloc);
    atoms.push(atom(key(1), sizes.0, 0))?;
    atoms.push(atom(key(2), sizes.1, 0))?;
    Ok(atoms)
}

fn sections_of(alloc: Global, rows: &[Row]) -> Result<OutSections, OutOfMemory> {
    let mut sections = OutSections::new(alloc);
    for (segment, name, flags, align, atom) in rows {
        let mut atoms = KeyList::new(alloc);
        if let Some(number) = atom {
            atoms.push(key(*number))?;
        }
        sections.push(OutSection {
            segment: Bytes::from_static(*segment),
            name: Bytes::from_static(*name),
            kind: (*flags & SECTION_TYPE) as u8,
            flags: *flags,
            align: *align,
            atoms,
        })?;
    }
    Ok(sections)
}

fn document(alloc: Global, lib: &Lib) -> Result<Stub, OutOfMemory> {
    Ok(Stub {
        install: Bytes::from_slice(alloc, lib.0)?,
        current: lib.1,
        compatible: lib.2,
        reexports: NameList::new(alloc),
        exports: ExportList::new(alloc),
    })
}

// The libraries, each with a document of its own.
fn libraries_of(alloc: Global, libs: &[Lib]) -> Result<Option<Libraries>, OutOfMemory> {
    let mut libraries = LibraryList::new(alloc);
    let mut documents = StubList::new(alloc);
    let mut links = LinkList::new(alloc);
    for (number, lib) in libs.iter().enumerate() {
        let position = (number % 1000) as u16;
        libraries.push(Library {
            position,
            ordinal: (number % 250) as u8 + 1,
            weak: lib.3,
            reexport: lib.4,
            document: number,
        })?;
        documents.push(document(alloc, lib)?)?;
        links.push(Items::new(alloc))?;
    }
    if !are_links(documents.len(), links.as_slice())
        || !are_libraries(documents.len(), libraries.as_slice())
    {
        return Ok(None);
    }
    Ok(Some(Libraries::new(alloc, libraries, documents, links)?))
}

// The header and the load commands of what is placed.
fn made(
    alloc: Global,
    case: &Case,
    command: &Command,
    libs: &Libraries,
) -> Result<Bytes, PlaceFault> {
    let sections = sections_of(alloc, case.sections)?;
    let kept = kept_of(alloc, case.atoms)?;
    if !is_rising(kept.as_slice())
        || !are_low(kept.as_slice())
        || !are_low_sections(sections.as_slice())
    {
        return Err(PlaceFault::OutOfMemory);
    }
    let slots = slots_of(alloc, case.stubs, case.tlv)?;
    let islands = IslandPlan {
        areas: AreaList::new(alloc),
        ways: WayList::new(alloc),
    };
    let sizes = PlaceSizes {
        commands: other_size(case.parts.there, command, libs),
        unwind: case.unwind,
    };
    let layout = place(alloc, &kept, &sections, &slots, &islands, &sizes, command)?;
    Ok(commands(alloc, &layout, &case.parts, command, libs)?)
}

// Those of a case, or nothing where it has none.
fn made_of(alloc: Global, case: &Case) -> Result<Bytes, OutOfMemory> {
    let libs = libraries_of(alloc, case.libs)?;
    let command = command_of(alloc, case.words);
    match (&command, &libs) {
        (Ok(command), Some(libs)) => match made(alloc, case, command, libs) {
            Ok(bytes) => Ok(bytes),
            Err(_) => Ok(Bytes::new()),
        },
        _ => Ok(Bytes::new()),
    }
}

// Whether the header and the load commands are these bytes.
fn is_made(alloc: Global, case: &Case, wanted: &[u8]) -> Result<bool, OutOfMemory> {
    let bytes = made_of(alloc, case)?;
    Ok(bytes.as_slice() == wanted)
}

const CODE: Row = (
    b"__TEXT",
    b"__text",
    S_REGULAR | S_ATTR_PURE_INSTRUCTIONS | S_ATTR_SOME_INSTRUCTIONS,
    2,
    Some(1),
);

fn one_function(alloc: Global) -> Result<bool, OutOfMemory> {
    let case = Case {
        words: "-o out main.o",
        atoms: (8, 0),
        sections: &[CODE],
        stubs: 0,
        tlv: 0,
        unwind: 0,
        libs: &[],
        parts: PartSizes {
            entryoff: 0x1b8,
            ..NO_PARTS
        },
    };
    is_made(alloc, &case, ONE_FUNCTION)
}

fn hello(alloc: Global, parts: PartSizes, wanted: &[u8]) -> Result<bool, OutOfMemory> {
    let case = Case {
        words: "-platform_version macos 14.0.0 14.2 -o hello hello.o",
        atoms: (32, 3),
        sections: &[
            CODE,
            (b"__TEXT", b"__cstring", S_CSTRING_LITERALS, 0, Some(2)),
        ],
        stubs: 1,
        tlv: 0,
        unwind: 68,
        libs: &[(
            b"/usr/lib/libSystem.B.dylib",
            0x0541_6402,
            0x1_0000,
            false,
            false,
        )],
        parts,
    };
    is_made(alloc, &case, wanted)
}

const HELLO_PARTS: PartSizes = PartSizes {
    there: ALL,
    fixups: PartPlace {
        offset: 0x8000,
        size: 96,
    },
    trie: PartPlace {
        offset: 0x8060,
        size: 48,
    },
    symbols: PartPlace {
        offset: 0x8090,
        size: 48,
    },
    indirect: PartPlace {
        offset: 0x80c0,
        size: 8,
    },
    strings: PartPlace {
        offset: 0x80c8,
        size: 40,
    },
    signature: PartPlace {
        offset: 0x80f0,
        size: 600,
    },
    locals: 0,
    exported: 2,
    undefined: 1,
    entryoff: 0x428,
    flags: PROGRAM,
};

fn empty_dylib(alloc: Global, parts: PartSizes, wanted: &[u8]) -> Result<bool, OutOfMemory> {
    let case = Case {
        words: "-dylib -install_name /x/libe.dylib -o libe.dylib empty.o",
        atoms: (0, 0),
        sections: &[],
        stubs: 0,
        tlv: 0,
        unwind: 0,
        libs: &[],
        parts,
    };
    is_made(alloc, &case, wanted)
}

const EMPTY_PARTS: PartSizes = PartSizes {
    there: ALL,
    fixups: PartPlace {
        offset: 0x4000,
        size: 48,
    },
    trie: PartPlace {
        offset: 0x4030,
        size: 8,
    },
    symbols: PartPlace {
        offset: 0x4038,
        size: 0,
    },
    indirect: PartPlace {
        offset: 0x4038,
        size: 0,
    },
    strings: PartPlace {
        offset: 0x4038,
        size: 8,
    },
    signature: PartPlace {
        offset: 0x4040,
        size: 288,
    },
    locals: 0,
    exported: 0,
    undefined: 0,
    entryoff: 0x4000,
    flags: LIBRARY,
};

fn every_command(alloc: Global) -> Result<bool, OutOfMemory> {
    let case = Case {
        words: "-dylib -install_name @rpath/libfull.7.dylib -current_version 1.2.3 -compatibility_version 1.0 -platform_version macos 11.0 12.3 -rpath @loader_path/.. -rpath /a/b/lib -o x x.o",
        atoms: (16, 0x4001),
        sections: &[
            (b"__DATA", b"__data", S_REGULAR, 4, Some(1)),
            (
                b"__a_segment_of_a_long_name",
                b"__a_section_of_a_long_name",
                S_ZEROFILL,
                0,
                Some(2),
            ),
        ],
        stubs: 2,
        tlv: 1,
        unwind: 0,
        libs: &[
            (b"/usr/lib/libplain.dylib", 0x1_0203, 0x1_0000, false, false),
            (b"/w", 0xffff_ffff, 0, true, false),
            (b"@rpath/re.dylib", 0x2_0000, 0x1_0100, false, true),
            (b"/abcdefghijklmn", 1, 2, true, true),
        ],
        parts: PartSizes {
            there: ALL,
            fixups: PartPlace {
                offset: 0xc000,
                size: 104,
            },
            trie: PartPlace {
                offset: 0xc068,
                size: 24,
            },
            symbols: PartPlace {
                offset: 0xc080,
                size: 144,
            },
            indirect: PartPlace {
                offset: 0xc110,
                size: 20,
            },
            strings: PartPlace {
                offset: 0xc128,
                size: 80,
            },
            signature: PartPlace {
                offset: 0xc180,
                size: 1000,
            },
            locals: 2,
            exported: 3,
            undefined: 4,
            entryoff: 0,
            flags: IMAGE,
        },
    };
    is_made(alloc, &case, EVERY_COMMAND)
}

// A program of 240 libraries: three segments of 296 bytes with one section, 80 bytes of other commands, and 48 for each
// library.
fn many_libraries(alloc: Global) -> Result<bool, OutOfMemory> {
    let libs: [Lib; 240] = [(b"/usr/lib/libmany.dylib", 0x1_0203, 0x1_0000, false, false); 240];
    let case = Case {
        words: "-o out main.o",
        atoms: (8, 0),
        sections: &[CODE],
        stubs: 0,
        tlv: 0,
        unwind: 0,
        libs: &libs,
        parts: NO_PARTS,
    };
    let bytes = made_of(alloc, &case)?;
    let bytes = bytes.as_slice();
    if bytes.len() != 32 + 296 + 80 + 48 * 240 {
        return Ok(false);
    }
    Ok(
        &bytes[16..24] == b"\xf6\x00\x00\x00\x78\x2e\x00\x00".as_slice()
            && bytes[408..]
                .chunks(48)
                .all(|command| command == MANY_LIBRARY),
    )
}

#[test]
fn the_bytes_of_yaml2obj(rt: HostRuntime) -> Result<(), Fail> {
    let alloc = rt.alloc();
    let first = PartSizes {
        entryoff: 0x378,
        ..NO_PARTS
    };
    let library = PartSizes {
        flags: LIBRARY,
        ..NO_PARTS
    };
    assert!(rt; one_function(alloc)?);
    assert!(rt; hello(alloc, first, HELLO_AT_FIRST)?);
    assert!(rt; hello(alloc, HELLO_PARTS, HELLO)?);
    assert!(rt; empty_dylib(alloc, library, EMPTY_DYLIB_AT_FIRST)?);
    assert!(rt; empty_dylib(alloc, EMPTY_PARTS, EMPTY_DYLIB)?);
    assert!(rt; every_command(alloc)?);
    assert!(rt; many_libraries(alloc)?);
    Ok(())
}
