//! The files of inputs. What is expected was worked out by hand.
ghost use Rattle.std.specs.Prelude.{◌≢◌, AllPairs, IfOk};

use command_line::Command;
use file_cache::FileCache;
use input_fetch::{ContentList, FetchStop, fetch_inputs};
use mo_cmd::read_all_words;
use mo_outside::{FileList, MemFiles};
use mo_types::{Arg, ArgList, Bytes, Items, OutOfMemory};
use std::alloc::Global;
use std::test::Fail;

// The words of a command line, the path of the one file that is there, the number of the fetch that fails, or 0; and what
// comes of it: the path of each input's file, or the fault.
const ROWS: &str = "\
    a.o\ta.o\t0\ta.o \n\
    a.o a.o\ta.o\t0\ta.o a.o \n\
    a.o a.o\ta.o\t1\tunread a.o\n\
    a.o a.o\ta.o\t2\ta.o a.o \n\
    a.o b.o a.o\tb.o\t0\tmissing a.o\n\
    a.o a.o\ta.o\t3\ta.o a.o \n\
    a.o b.o\ta.o\t0\tmissing b.o\n\
    a.o b.o\tb.o\t0\tmissing a.o\n\
    a.o b.o\tb.o\t1\tunread a.o\n\
    -lx\t/usr/lib/libx.tbd\t0\t/usr/lib/libx.tbd \n\
    -lx\t/usr/lib/libx.dylib\t0\t/usr/lib/libx.dylib \n\
    -lx\t/usr/lib/libx.a\t0\t/usr/lib/libx.a \n\
    -lx\t/usr/local/lib/libx.a\t0\t/usr/local/lib/libx.a \n\
    -lx\t/usr/local/lib/libx.a\t7\t/usr/local/lib/libx.a \n\
    -lx\t/usr/local/lib/libx.a\t6\tunread /usr/local/lib/libx.a\n\
    -lx\t/usr/local/lib/libx.a\t3\tunread /usr/lib/libx.a\n\
    -lx\t/usr/lib/libx.tbd\t2\t/usr/lib/libx.tbd \n\
    -lx\tlibx.a\t0\tmissing /usr/lib/libx.tbd\n\
    -lx\tlibx.a\t6\tunread /usr/local/lib/libx.a\n\
    -lx\tlibx.a\t7\tmissing /usr/lib/libx.tbd\n\
    -Ld -Le -lx\te/libx.tbd\t0\te/libx.tbd \n\
    -Ld -Le -lx\te/libx.tbd\t4\tunread e/libx.tbd\n\
    -Ld -Le -lx\tlibx.tbd\t0\tmissing d/libx.tbd\n\
    -L/d -syslibroot /S -lx\t/d/libx.a\t0\t/d/libx.a \n\
    -L/d -syslibroot /S -lx\t/d/libx.a\t3\tunread /S/d/libx.a\n\
    -L/d -syslibroot /S -lx\t/usr/lib/libx.a\t0\tmissing /S/d/libx.tbd\n\
    -framework X\t/System/Library/Frameworks/X.framework/X\t0\t/System/Library/Frameworks/X.framework/X \n\
    -framework X\tX\t0\tmissing /Library/Frameworks/X.framework/X.tbd\n\
    a.o -lx b.o\ta.o\t0\tmissing /usr/lib/libx.tbd\n\
    -lx a.o -lx\t/usr/lib/libx.a\t4\tunread a.o\n\
";

// The inputs of a long command line.
const MANY: usize = 5000;

// The command of some words with a space between any two.
fn command_of(alloc: Global, words: &str) -> Result<Option<Command>, OutOfMemory> {
    let mut list = ArgList::new(alloc);
    for word in words.split(' ') {
        list.push(Arg::new(String::from_str(alloc, word)?))?;
    }
    Ok(read_all_words(alloc, &list).ok())
}

// The command of a word that is there many times.
fn many_inputs(alloc: Global, word: &str) -> Result<Option<Command>, OutOfMemory> {
    let mut list = ArgList::new(alloc);
    for _ in 0..MANY {
        list.push(Arg::new(String::from_str(alloc, word)?))?;
    }
    Ok(read_all_words(alloc, &list).ok())
}

pub fn one_file(alloc: Global, path: &str) -> Result<FileList, OutOfMemory>
    ensures { IfOk result (λ pairs. AllPairs (λ one other. one.0 ≢ other.0) pairs) }
{
    let path = Bytes::from_slice(alloc, path.as_bytes())?;
    let bytes = path.clone()?;
    let mut pairs = Items::new(alloc);
    pairs.push((path, bytes))?;
    Ok(pairs)
}

// The files of a command's inputs, where it has no more than it may have.
fn fetched(
    alloc: Global,
    command: &Command,
    path: &str,
    failing: u64,
) -> Result<ContentList, FetchStop> {
    if command.inputs.len() > 1 << 16 {
        return Err(FetchStop::OutOfMemory);
    }
    let mut calls = Items::new(alloc);
    calls.push(failing)?;
    let mut files = MemFiles::new(one_file(alloc, path)?, calls);
    let mut cache = FileCache::new(alloc);
    fetch_inputs(alloc, &mut files, &mut cache, command)
}

fn said_of(
    alloc: Global,
    fetched: &Result<ContentList, FetchStop>,
) -> Result<Vec<u8>, OutOfMemory> {
    let mut said = Vec::new(alloc);
    match fetched {
        Ok(contents) => {
            for content in contents.as_slice() {
                said.extend_from_slice(content.label.as_slice())?;
                said.extend_from_slice(if content.bytes == content.label {
                    b" "
                } else {
                    b"?"
                })?;
            }
        }
        Err(FetchStop::ReadFault { path }) => {
            said.extend_from_slice(b"unread ")?;
            said.extend_from_slice(path.as_slice())?;
        }
        Err(FetchStop::Missing { path }) => {
            said.extend_from_slice(b"missing ")?;
            said.extend_from_slice(path.as_slice())?;
        }
        Err(FetchStop::OutOfMemory) => said.extend_from_slice(b"memory")?,
    }
    Ok(said)
}

// Whether a row's words and file have what it says.
fn is_right(
    alloc: Global,
    words: &str,
    path: &str,
    failing: &str,
    said: &str,
) -> Result<bool, OutOfMemory> {
    let Some(command) = command_of(alloc, words)? else {
        return Ok(false);
    };
    let failing = failing.parse::<u64>().unwrap_or(0);
    let found = said_of(alloc, &fetched(alloc, &command, path, failing))?;
    Ok(found.as_slice() == said.as_bytes())
}

// The first row that doesn't hold.
fn wrong_row(alloc: Global) -> Result<Option<&'static str>, OutOfMemory> {
    for row in ROWS.lines() {
        let mut parts = row.split('\t');
        let words = parts.next().unwrap_or("");
        let path = parts.next().unwrap_or("");
        let failing = parts.next().unwrap_or("");
        if !is_right(alloc, words, path, failing, parts.next().unwrap_or(""))? {
            return Ok(Some(row));
        }
    }
    Ok(None)
}

#[test]
fn the_first_path_that_is_there_is_found(rt: HostRuntime) -> Result<(), Fail> {
    let alloc = rt.alloc();
    let wrong = wrong_row(alloc)?;
    let row = wrong.unwrap_or("");
    assert!(rt; wrong.is_none(), "{row}");
    Ok(())
}

#[test]
fn many_inputs_are_fetched(rt: HostRuntime) -> Result<(), Fail> {
    let alloc = rt.alloc();
    let command = many_inputs(alloc, "-lx")?;
    assert!(rt; command.is_some());
    if let Some(command) = command {
        let contents = fetched(alloc, &command, "/usr/local/lib/libx.a", 0);
        assert!(rt; matches!(&contents, Ok(contents) if contents.len() == MANY));
    }
    Ok(())
}
