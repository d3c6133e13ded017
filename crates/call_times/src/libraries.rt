//! Libraries that re-export each other in a ring, and the names that they provide.
ghost use Rattle.std.specs.Prelude.{◌≡◌, IsTrue, length, true};

use crate::needs::name_of;
use anyhow::{Result, bail};
use command_line::Command;
use file_cache::FileCache;
use lib_bind::{Libraries, NamedStub, StubFileList, are_named, closure, provider_of};
use mo_cmd::read_all_words;
use mo_outside::{FileList, MemFiles};
use mo_types::{Arg, ArgList, Bytes, Items, NameList, OutOfMemory};
use std::alloc::Global;
use std::time::{Duration, Instant};
use tbd_doc::{Export, ExportList, Stub, StubFile, StubList};

// How many names are looked up.
const LOOKS: u32 = 100_000;

// The install name of the library of a number.
fn install_of(alloc: Global, number: u16) -> Result<Bytes, OutOfMemory> {
    let text = format!(in alloc; "/usr/lib/libnumber{number}.dylib")?;
    Bytes::from_slice(alloc, text.as_bytes())
}

// The names of the library of a number.
fn exports_of(alloc: Global, number: u16, count: u32) -> Result<ExportList, OutOfMemory> {
    let mut names = ExportList::new(alloc);
    let first = u32::from(number).wrapping_mul(count);
    for i in 0..count {
        names.push(Export {
            name: name_of(alloc, first.wrapping_add(i))?,
            weak: i % 16 == 0,
        })?;
    }
    Ok(names)
}

// What the library of a number re-exports: the one of another number.
fn reexports_of(alloc: Global, number: u16) -> Result<NameList, OutOfMemory> {
    let mut names = NameList::new(alloc);
    names.push(install_of(alloc, number)?)?;
    Ok(names)
}

fn document(
    alloc: Global,
    number: u16,
    reexported: u16,
    exports: u32,
) -> Result<Stub, OutOfMemory> {
    Ok(Stub {
        install: install_of(alloc, number)?,
        current: 0x1_0000,
        compatible: 0x1_0000,
        reexports: reexports_of(alloc, reexported)?,
        exports: exports_of(alloc, number, exports)?,
    })
}

// The library of a number, with so many names of its own. It re-exports the one of another number.
fn library(
    alloc: Global,
    number: u16,
    reexported: u16,
    exports: u32,
) -> Result<NamedStub, OutOfMemory> {
    let mut docs = StubList::new(alloc);
    docs.push(document(alloc, number, reexported, exports)?)?;
    Ok(NamedStub {
        position: number,
        label: Bytes::new(),
        file: StubFile { docs },
    })
}

fn libraries(alloc: Global, count: u16, exports: u32) -> Result<StubFileList, OutOfMemory> {
    let mut named = StubFileList::new(alloc);
    for number in 0..count {
        let next = number.wrapping_add(1);
        let reexported = if next < count { next } else { 0 };
        named.push(library(alloc, number, reexported, exports)?)?;
    }
    Ok(named)
}

// A command line that names so many libraries.
fn command(alloc: Global, count: u16) -> Result<Command> {
    let mut words = ArgList::new(alloc);
    for _i in 0..count {
        words.push(Arg::new(String::from_str(alloc, "l.tbd")?))?;
    }
    match read_all_words(alloc, &words) {
        Ok(command) => Ok(command),
        Err(_) => bail!("want a library at least"),
    }
}

// What libraries are bound to, without any file beside them.
fn bound(alloc: Global, command: &Command, named: StubFileList) -> Option<Libraries> {
    if !are_named(command.inputs.len(), named.as_slice()) {
        return None;
    }
    let mut files = MemFiles::new(FileList::new(alloc), Items::new(alloc));
    let mut cache = FileCache::new(alloc);
    closure(alloc, command, &mut files, &mut cache, named).ok()
}

// What libraries are bound to, and when that began.
fn bound_from(
    rt: &HostRuntime,
    command: &Command,
    named: StubFileList,
) -> Result<(Option<Libraries>, Instant)> {
    let start = Instant::now(rt)?;
    Ok((bound(rt.alloc(), command, named), start))
}

// So many libraries, each with so many names, where they can be bound, and when that began.
fn libraries_of(
    rt: &HostRuntime,
    count: u16,
    exports: u32,
) -> Result<(Option<Libraries>, Instant)> {
    let command = command(rt.alloc(), count)?;
    let named = libraries(rt.alloc(), count, exports)?;
    bound_from(rt, &command, named)
}

fn documents_of(libs: &Option<Libraries>) -> usize {
    match libs {
        Some(libs) => libs.graph().documents.len(),
        None => 0,
    }
}

// The documents of libraries, and how long it took from an instant on.
fn timed(rt: &HostRuntime, libs: &Option<Libraries>, start: Instant) -> Result<(usize, Duration)> {
    let took = start.elapsed(rt)?;
    Ok((documents_of(libs), took))
}

fn counted(rt: &HostRuntime, count: u16, exports: u32) -> Result<(usize, Duration)> {
    let (libs, start) = libraries_of(rt, count, exports)?;
    timed(rt, &libs, start)
}

/// Binds so many libraries, each with so many names, and prints how many documents they have.
pub(crate) fn closure_of(rt: &HostRuntime, count: u16, exports: u32) -> Result<()> {
    let (documents, took) = counted(rt, count, exports)?;
    eprintln!(rt; "{}", took.as_millis())?;
    println!(rt; "{documents}")?;
    Ok(())
}

// Names in no order, of which each tenth is of no library.
fn wanted(alloc: Global, all: u32) -> Result<Vec<Bytes>, OutOfMemory> {
    let mut names = Vec::new(alloc);
    for i in 0..LOOKS {
        let number = i.wrapping_mul(7919) % all.max(1);
        let past = if i % 10 == 9 { all } else { 0 };
        names.push(name_of(alloc, number.wrapping_add(past))?)?;
    }
    Ok(names)
}

fn provided(libs: &Libraries, names: &[Bytes]) -> u32 {
    let mut provided = 0u32;
    for name in names {
        if provider_of(libs, name.as_slice()).is_some() {
            provided = provided.wrapping_add(1);
        }
    }
    provided
}

// How many of the names are provided, and how long it took to look them up.
fn looked_up(
    rt: &HostRuntime,
    libs: &Option<Libraries>,
    names: &[Bytes],
) -> Result<(u32, Duration)> {
    let start = Instant::now(rt)?;
    let count = match libs {
        Some(libs) => provided(libs, names),
        None => 0,
    };
    Ok((count, start.elapsed(rt)?))
}

// So many libraries, each with so many names, are bound; then names are looked up.
fn all_looked_up(rt: &HostRuntime, count: u16, exports: u32) -> Result<(u32, Duration)> {
    let names = wanted(rt.alloc(), u32::from(count).wrapping_mul(exports))?;
    let (libs, _start) = libraries_of(rt, count, exports)?;
    looked_up(rt, &libs, names.as_slice())
}

/// Looks names up in so many libraries, each with so many names, and prints how many are provided.
pub(crate) fn providers(rt: &HostRuntime, count: u16, exports: u32) -> Result<()> {
    let (provided, took) = all_looked_up(rt, count, exports)?;
    eprintln!(rt; "{}", took.as_millis())?;
    println!(rt; "{provided}")?;
    Ok(())
}
