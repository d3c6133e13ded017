ghost use Rattle.std.specs.Prelude.{◌≢◌, AllPairs, IfOk};

use crate::each_gate::EachGate;
use link_engine::link;
use mo_outside::{CallList, FileList, FreeGate, Gate, MeetGate, MemDiag, MemFiles, MemOut};
use mo_types::{Arg, ArgList, Bytes, Items, OutOfMemory};
use std::alloc::Global;
use std::test::Fail;
use std::thread::Threads;

// An object with `_main`, which is `mov w0,#0` and `ret`.
fn returning_zero() -> &'static [u8] {
    b"\
    \xcf\xfa\xed\xfe\x0c\x00\x00\x01\x00\x00\x00\x00\x01\x00\x00\x00\
    \x02\x00\x00\x00\xb0\x00\x00\x00\x00\x20\x00\x00\x00\x00\x00\x00\
    \x19\x00\x00\x00\x98\x00\x00\x00\x00\x00\x00\x00\x00\x00\x00\x00\
    \x00\x00\x00\x00\x00\x00\x00\x00\x00\x00\x00\x00\x00\x00\x00\x00\
    \x08\x00\x00\x00\x00\x00\x00\x00\xd0\x00\x00\x00\x00\x00\x00\x00\
    \x08\x00\x00\x00\x00\x00\x00\x00\x07\x00\x00\x00\x07\x00\x00\x00\
    \x01\x00\x00\x00\x00\x00\x00\x00__text\x00\x00\
    \x00\x00\x00\x00\x00\x00\x00\x00__TEXT\x00\x00\
    \x00\x00\x00\x00\x00\x00\x00\x00\x00\x00\x00\x00\x00\x00\x00\x00\
    \x08\x00\x00\x00\x00\x00\x00\x00\xd0\x00\x00\x00\x02\x00\x00\x00\
    \x00\x00\x00\x00\x00\x00\x00\x00\x00\x04\x00\x80\x00\x00\x00\x00\
    \x00\x00\x00\x00\x00\x00\x00\x00\x02\x00\x00\x00\x18\x00\x00\x00\
    \xd8\x00\x00\x00\x01\x00\x00\x00\xe8\x00\x00\x00\x07\x00\x00\x00\
    \x00\x00\x80R\xc0\x03_\xd6\x01\x00\x00\x00\x0f\x01\x00\x00\
    \x00\x00\x00\x00\x00\x00\x00\x00\x00_main\x00"
}

// The same object with another symbol of five bytes in place of `_main`.
fn defining(alloc: Global, symbol: &[u8]) -> Result<Vec<u8>, OutOfMemory> {
    let object = returning_zero();
    let mut bytes = Vec::from_slice(alloc, &object[..object.len().saturating_sub(6)])?;
    bytes.extend_from_slice(symbol)?;
    bytes.push(0)?;
    Ok(bytes)
}

// The head of an archive as `llvm-ar --format=darwin` writes it of such an object: a table with one symbol, whose name follows.
const TABLE: &[u8] = b"!<arch>\n\
#1/12           0           0     0     0       36        `\n\
__.SYMDEF\x00\x00\x00\x08\x00\x00\x00\x00\x00\x00\x00\x68\x00\x00\x00\x06\x00\x00\x00";

// The header of its one member.
const MEMBER: &[u8] = b"\x00\x00\x00\
#1/4            0           0     0     644     244       `\n\
x.o\x00";

// An archive of the object that defines a symbol.
fn archive_of(alloc: Global, symbol: &[u8]) -> Result<Bytes, OutOfMemory> {
    let object = defining(alloc, symbol)?;
    let mut bytes = Vec::from_slice(alloc, TABLE)?;
    for part in [symbol, MEMBER, object.as_slice(), b"\n".as_slice()] {
        bytes.extend_from_slice(part)?;
    }
    Bytes::from_vec(bytes)
}

// A page, and the chained fixups of no pointers: their header of 32 bytes, the starts of three segments, and no names.
const IMAGE_SIZE: usize = 16440;

// Room for the path `a.out` and an image.
const ROOM: u64 = 16445;

fn words_of(alloc: Global, text: &str) -> Result<ArgList, OutOfMemory> {
    let mut words = Items::new(alloc);
    for word in text.split(' ') {
        words.push(Arg::new(String::from_str(alloc, word)?))?;
    }
    Ok(words)
}

fn one_call(alloc: Global, number: u64) -> Result<CallList, OutOfMemory> {
    let mut calls = Items::new(alloc);
    calls.push(number)?;
    Ok(calls)
}

// Two objects and two archives of one member each.
fn all_files(alloc: Global) -> Result<FileList, OutOfMemory>
    ensures { IfOk result (λ pairs. AllPairs (λ one other. one.0 ≢ other.0) pairs) }
{
    let help = Bytes::from_vec(defining(alloc, b"_help")?)?;
    let mut pairs = Items::new(alloc);
    pairs.push((
        Bytes::from_static(b"main.o"),
        Bytes::from_static(returning_zero()),
    ))?;
    pairs.push((Bytes::from_static(b"b.o"), help))?;
    pairs.push((Bytes::from_static(b"l.a"), archive_of(alloc, b"_left")?))?;
    pairs.push((Bytes::from_static(b"m.a"), archive_of(alloc, b"_wrap")?))?;
    Ok(pairs)
}

// A run in which calls on the files, the output and the messages fail, by their numbers from 1, or 0 for none.
#[derive(Clone, Copy)]
struct Run {
    words: &'static str,
    failing: (u64, u64, u64),
    room: u64,
    code: u8,
    line: &'static [u8],
    // how many bytes the output has, and whether it is done, if it was begun
    written: Option<(usize, bool)>,
}

fn mem_files(alloc: Global, failing: u64) -> Result<MemFiles, OutOfMemory> {
    let calls = one_call(alloc, failing)?;
    let pairs = all_files(alloc)?;
    Ok(MemFiles::new(pairs, calls))
}

fn mem_out(alloc: Global, room: u64, failing: u64) -> Result<MemOut, OutOfMemory> {
    let calls = one_call(alloc, failing)?;
    Ok(MemOut::new(alloc, room, calls)?)
}

fn mem_diag(alloc: Global, failing: u64) -> Result<MemDiag, OutOfMemory> {
    let calls = one_call(alloc, failing)?;
    Ok(MemDiag::new(alloc, 64, calls)?)
}

// The exit status of a link.
fn code_of<R: AllocGlobal + Threads + Sync, G: Gate + Sync>(
    rt: &R,
    words: &ArgList,
    files: &mut MemFiles,
    out: &mut MemOut,
    diag: &mut MemDiag,
    gate: &G,
) -> u8 {
    link(rt, rt.alloc(), words, files, out, diag, gate).code()
}

fn written(out: &MemOut) -> Option<(usize, bool)> {
    match (out.bytes(0), out.is_done(0)) {
        (Some(bytes), Some(done)) => Some((bytes.len(), done)),
        _ => None,
    }
}

fn ends_so(run: &Run, code: u8, out: &MemOut, diag: &MemDiag) -> bool {
    code == run.code && diag.lines() == run.line && written(out) == run.written
}

// Whether a link of words and files ends as its run says.
fn runs_so<R: AllocGlobal + Threads + Sync>(
    rt: &R,
    run: &Run,
    words: &ArgList,
    files: &mut MemFiles,
) -> Result<bool, OutOfMemory> {
    let mut out = mem_out(rt.alloc(), run.room, run.failing.1)?;
    let mut diag = mem_diag(rt.alloc(), run.failing.2)?;
    let code = code_of(rt, words, files, &mut out, &mut diag, &FreeGate);
    Ok(ends_so(run, code, &out, &diag))
}

fn is_run<R: AllocGlobal + Threads + Sync>(rt: &R, run: &Run) -> Result<bool, OutOfMemory> {
    let words = words_of(rt.alloc(), run.words)?;
    let mut files = mem_files(rt.alloc(), run.failing.0)?;
    runs_so(rt, run, &words, &mut files)
}

const DONE: Run = Run {
    words: "main.o",
    failing: (0, 0, 0),
    room: ROOM,
    code: 0,
    line: b"",
    written: Some((IMAGE_SIZE, true)),
};

// The output isn't begun, or what was written by then isn't done.
const NOT_BEGUN: Run = Run {
    failing: (0, 1, 0),
    code: 3,
    line: b"atomld: cannot write a.out\n",
    written: None,
    ..DONE
};

// What fails, and what is written then.
const FAILING: [Run; 11] = [
    DONE,
    NOT_BEGUN,
    Run {
        failing: (0, 2, 0),
        written: Some((0, false)),
        ..NOT_BEGUN
    },
    Run {
        failing: (0, 3, 0),
        written: Some((IMAGE_SIZE, false)),
        ..NOT_BEGUN
    },
    // The room for the last byte is missing.
    Run {
        failing: (0, 0, 0),
        room: ROOM - 1,
        written: Some((0, false)),
        ..NOT_BEGUN
    },
    Run {
        failing: (1, 0, 0),
        line: b"atomld: cannot read main.o\n",
        ..NOT_BEGUN
    },
    Run {
        failing: (1, 0, 1),
        line: b"",
        ..NOT_BEGUN
    },
    // The second of two files isn't read.
    Run {
        words: "main.o b.o",
        failing: (2, 0, 0),
        line: b"atomld: cannot read b.o\n",
        ..NOT_BEGUN
    },
    // A library is looked for, and one of its paths isn't read, or none is there.
    Run {
        words: "main.o -lq",
        failing: (2, 0, 0),
        line: b"atomld: cannot read /usr/lib/libq.tbd\n",
        ..NOT_BEGUN
    },
    Run {
        words: "main.o -lq",
        failing: (5, 0, 0),
        line: b"atomld: cannot read /usr/local/lib/libq.tbd\n",
        ..NOT_BEGUN
    },
    Run {
        words: "main.o -lq",
        failing: (0, 0, 0),
        code: 1,
        line: b"atomld: not found: /usr/lib/libq.tbd\n",
        ..NOT_BEGUN
    },
];

#[test]
fn failing_calls(rt: HostRuntime) -> Result<(), Fail> {
    for (row, run) in FAILING.iter().enumerate() {
        assert!(rt; is_run(&rt, run)?, "in row {row}");
    }
    Ok(())
}

// The first file's bytes, where a link ended well.
fn image_of(alloc: Global, code: u8, out: &MemOut) -> Result<Vec<u8>, OutOfMemory> {
    let image: &[u8] = match out.bytes(0) {
        Some(bytes) if code == 0 => bytes,
        _ => b"",
    };
    Ok(Vec::from_slice(alloc, image)?)
}

fn image_by<R: AllocGlobal + Threads + Sync, G: Gate + Sync>(
    rt: &R,
    words: &ArgList,
    files: &mut MemFiles,
    gate: &G,
) -> Result<Vec<u8>, OutOfMemory> {
    let mut out = mem_out(rt.alloc(), ROOM, 0)?;
    let mut diag = mem_diag(rt.alloc(), 0)?;
    let code = code_of(rt, words, files, &mut out, &mut diag, gate);
    image_of(rt.alloc(), code, &out)
}

// The image of a command's inputs, by so many workers that pass a gate.
fn linked<R: AllocGlobal + Threads + Sync, G: Gate + Sync>(
    rt: &R,
    inputs: &str,
    workers: &str,
    gate: &G,
) -> Result<Vec<u8>, OutOfMemory> {
    let mut words = words_of(rt.alloc(), inputs)?;
    for word in ["-threads", workers] {
        words.push(Arg::new(String::from_str(rt.alloc(), word)?))?;
    }
    let mut files = mem_files(rt.alloc(), 0)?;
    image_by(rt, &words, &mut files, gate)
}

fn two_make_what_one_makes<R: AllocGlobal + Threads + Sync, G: Gate + Sync>(
    rt: &R,
    inputs: &str,
    gate: &G,
) -> Result<bool, OutOfMemory> {
    let by_two = linked(rt, inputs, "2", gate)?;
    let by_one = linked(rt, inputs, "1", &FreeGate)?;
    Ok(by_two.len() == IMAGE_SIZE && by_two.as_slice() == by_one.as_slice())
}

// Inputs, and how often two workers who link them meet. Of two objects each worker reads one, races for the names of one, and
// writes the atoms of half the image. With two archives each reads two inputs and one member; in the round that loads the
// members, and once more when all are there, it races for the names of two files; and it writes half the image.
const MEETINGS: &[(&str, u64)] = &[("main.o b.o", 3), ("main.o b.o l.a m.a -all_load", 8)];

// Two workers come to the gate at each of a link's steps that workers take, and the image is that of one worker alone.
#[test]
fn workers_meet(rt: HostRuntime) -> Result<(), Fail> {
    let gate = MeetGate::new(1_000_000_000);
    assert!(rt; two_make_what_one_makes(&rt, "main.o b.o", &gate)?);
    assert!(rt; gate.met());
    for (inputs, meetings) in MEETINGS {
        let each = EachGate::new(1_000_000_000);
        assert!(rt; two_make_what_one_makes(&rt, inputs, &each)?);
        assert!(rt; each.meetings() == Some(*meetings), "{inputs}");
    }
    Ok(())
}
