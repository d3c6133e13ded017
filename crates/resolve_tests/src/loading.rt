//! What links load, by tables of their inputs and labels that were written by hand.
ghost use Rattle.std.specs.Prelude.{IfOk, IfSome};
ghost use Rattle.mo_types.specs.Loaded.{IsWholeLoaded};

use crate::files;
use crate::libraries::library_at;
use crate::racing::word_of;
use input_files::{Input, Inputs, LoadFault};
use input_read::{Opened, are_in_order, open_inputs};
use member_rounds::load;
use mo_outside::{FreeGate, MeetGate};
use mo_types::{Bytes, Loaded, NameList, OutOfMemory, Refusal};
use std::alloc::Global;
use std::test::Fail;
use std::thread::Threads;

// A file of a command line: what messages call it, its bytes, and whether all members are loaded.
type File = (&'static [u8], &'static [u8], bool);

// A link: its files, one at each position, the position of a library that exports `_f`, if there is one, the names that
// the command line wants, and the labels of what is loaded, each with a blank after it, or `!` and the file that breaks
// a rule.
struct Link {
    files: &'static [File],
    library: Option<u16>,
    wanted: &'static [&'static [u8]],
    loads: &'static [u8],
}

// Files as inputs, one at each position.
fn inputs_of(alloc: Global, files: &[File]) -> Result<Vec<Input>, OutOfMemory> {
    let mut inputs = Vec::new(alloc);
    for ((label, bytes, forced), position) in files.iter().zip(0u16..) {
        inputs.push(Input {
            position,
            label: Bytes::from_static(*label),
            bytes: Bytes::from_static(*bytes),
            forced: *forced,
        })?;
    }
    Ok(inputs)
}

fn names_of(alloc: Global, list: &[&'static [u8]]) -> Result<NameList, OutOfMemory> {
    let mut names = NameList::new(alloc);
    for name in list {
        names.push(Bytes::from_static(*name))?;
    }
    Ok(names)
}

// The labels of loaded files, each with a blank after it.
fn labels_of(alloc: Global, loaded: &Loaded) -> Result<Vec<u8>, OutOfMemory> {
    let mut out = Vec::new(alloc);
    for file in loaded.files.as_slice() {
        out.extend_from_slice(file.label.as_slice())?;
        out.push(b' ')?;
    }
    Ok(out)
}

// `!` and the file that a fault names.
fn told(alloc: Global, fault: &LoadFault) -> Result<Vec<u8>, OutOfMemory> {
    let mut out = Vec::new(alloc);
    out.push(b'!')?;
    if let LoadFault::Refused(Refusal::Malformed { file, .. }) = fault {
        out.extend_from_slice(file.as_slice())?;
    }
    Ok(out)
}

// The files that a link loads, or none where its inputs aren't those of a link.
fn loaded_of<R: Threads + Sync>(
    rt: &R,
    alloc: Global,
    workers: u32,
    link: &Link,
) -> Result<Option<Loaded>, LoadFault>
    ensures { IfOk result (λ loaded. IfSome loaded IsWholeLoaded) }
{
    let inputs = inputs_of(alloc, link.files)?;
    let wanted = names_of(alloc, link.wanted)?;
    let Some(libs) = library_at(alloc, link.library)? else {
        return Ok(None);
    };
    if !are_in_order(inputs.as_slice()) {
        return Ok(None);
    }
    let Opened {
        sources,
        objects,
        ..
    } = match open_inputs(rt, alloc, &FreeGate, workers, inputs.as_slice()) {
        Ok(opened) => opened,
        Err(fault) => return Err(fault),
    };
    let inputs = Inputs { sources, objects };
    match load(rt, alloc, &FreeGate, workers, inputs, &libs, &wanted) {
        Ok(named) => Ok(Some(named.loaded)),
        Err(fault) => Err(fault),
    }
}

// What a link says of its inputs.
fn said<R: Threads + Sync>(
    rt: &R,
    alloc: Global,
    workers: u32,
    link: &Link,
) -> Result<Vec<u8>, OutOfMemory> {
    match loaded_of(rt, alloc, workers, link) {
        Ok(Some(loaded)) => labels_of(alloc, &loaded),
        Ok(None) => Ok(Vec::new(alloc)),
        Err(fault) => told(alloc, &fault),
    }
}

// Whether a link loads what it says.
fn loads<R: Threads + Sync>(
    rt: &R,
    alloc: Global,
    workers: u32,
    link: &Link,
) -> Result<bool, OutOfMemory> {
    let said = said(rt, alloc, workers, link)?;
    Ok(said.as_slice() == link.loads)
}

// An archive of one member, which isn't an object.
const NO_OBJECT: &[u8] = b"!<arch>\n\
x.o             0           0     0     644     4         `\n\
data";

const IN_ROUNDS: Link = Link {
    files: &[
        (b"main.o", files::ROUNDS_MAIN, false),
        (b"liba.a", files::ROUNDS_A, false),
        (b"libb.a", files::ROUNDS_B, false),
    ],
    library: None,
    wanted: &[],
    loads: b"main.o liba.a(a1.o) liba.a(a2.o) libb.a(b1.o) ",
};

const LINKS: [Link; 11] = [
    // a name that has a candidate in an object asks for no member, but names of members do
    Link {
        files: &[
            (b"main.o", files::DUPLICATE_MAIN, false),
            (b"libx.a", files::DUPLICATE_ARCHIVE, false),
        ],
        library: None,
        wanted: &[],
        loads: b"main.o libx.a(g.o) libx.a(h.o) ",
    },
    // a library before the archive
    Link {
        files: &[
            (b"main.o", files::STUB_MAIN, false),
            (b"libf.a", files::STUB_ARCHIVE, false),
        ],
        library: Some(0),
        wanted: &[],
        loads: b"main.o ",
    },
    // and one behind it
    Link {
        files: &[
            (b"main.o", files::STUB_MAIN, false),
            (b"libf.a", files::STUB_ARCHIVE, false),
        ],
        library: Some(2),
        wanted: &[],
        loads: b"main.o libf.a(f.o) ",
    },
    // a member that doesn't define what its table says
    Link {
        files: &[
            (b"main.o", files::STUB_MAIN, false),
            (b"l.a", files::LYING_ARCHIVE, false),
        ],
        library: None,
        wanted: &[],
        loads: b"main.o l.a(g.o) ",
    },
    // two members for a name
    Link {
        files: &[
            (b"main.o", files::STUB_MAIN, false),
            (b"l.a", files::TWICE_ARCHIVE, false),
        ],
        library: None,
        wanted: &[],
        loads: b"main.o l.a(f.o) ",
    },
    // an archive without a table
    Link {
        files: &[
            (b"main.o", files::STUB_MAIN, false),
            (b"l.a", NO_OBJECT, false),
        ],
        library: None,
        wanted: &[],
        loads: b"main.o ",
    },
    // nothing is wanted
    Link {
        files: &[(b"l.a", files::TWICE_ARCHIVE, false)],
        library: None,
        wanted: &[],
        loads: b"",
    },
    // a name of the command line
    Link {
        files: &[(b"l.a", files::TWICE_ARCHIVE, false)],
        library: None,
        wanted: &[b"_f"],
        loads: b"l.a(f.o) ",
    },
    // all members
    Link {
        files: &[
            (b"l.a", files::TWICE_ARCHIVE, true),
            (b"m.a", files::LYING_ARCHIVE, true),
        ],
        library: None,
        wanted: &[],
        loads: b"l.a(f.o) l.a(f2.o) m.a(g.o) ",
    },
    // files that are no objects: the first one
    Link {
        files: &[(b"a.o", b"data", false), (b"l.a", NO_OBJECT, true)],
        library: None,
        wanted: &[],
        loads: b"!a.o",
    },
    // and a member
    Link {
        files: &[(b"a.o", files::STUB_MAIN, false), (b"l.a", NO_OBJECT, true)],
        library: None,
        wanted: &[],
        loads: b"!l.a(x.o)",
    },
];

// Of a name with a weak and a strong candidate.
const WEAK_BEFORE_STRONG: Link = Link {
    files: &[
        (b"main.o", files::STUB_MAIN, false),
        (b"a.o", files::WEAK, false),
        (b"b.o", files::STRONG, false),
    ],
    library: None,
    wanted: &[],
    loads: b"main.o a.o b.o ",
};

// Two workers come to the gate, and the strong candidate's word stays.
fn strong_beats_weak<R: Threads + Sync>(rt: &R, alloc: Global) -> Result<bool, OutOfMemory> {
    let gate = MeetGate::new(1_000_000_000);
    let word = match loaded_of(rt, alloc, 2, &WEAK_BEFORE_STRONG) {
        Ok(Some(loaded)) => word_of(rt, alloc, &gate, &loaded, b"_f")?,
        Ok(None) => None,
        Err(_fault) => None,
    };
    Ok(gate.met() && word == Some(0x0000_2000_0000_0001))
}

#[test]
fn what_is_loaded(rt: HostRuntime) -> Result<(), Fail> {
    let alloc = rt.alloc();
    for workers in [1, 2, 7] {
        assert!(rt; loads(&rt, alloc, workers, &IN_ROUNDS)?);
    }
    for (link, row) in LINKS.iter().zip(0u32..) {
        assert!(rt; loads(&rt, alloc, 2, link)?, "row {row}");
    }
    assert!(rt; strong_beats_weak(&rt, alloc)?);
    Ok(())
}
