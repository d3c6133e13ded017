//! What the libraries of a command line lead to. What is expected was worked out by hand.
mod counts;
mod rows;

ghost use Rattle.std.specs.Prelude.{◌≡◌, ◌≢◌, IsTrue, All, AllPairs, IfOk, IfSome, length, true};
ghost use Rattle.lib_bind.specs.Named.{are_named as are_named_by};

use command_line::Command;
use file_cache::FileCache;
use lib_bind::{BindFault, Libraries, NamedStub, StubFileList, closure, read_stub_text};
use mo_cmd::read_all_words;
use mo_outside::{FileList, MemFiles};
use mo_types::{Arg, ArgList, Bytes, Items, OutOfMemory};
use std::alloc::Global;
use std::test::Fail;

// The command of some words.
fn command_of(alloc: Global, words: &str) -> Result<Option<Command>, OutOfMemory> {
    let mut list = ArgList::new(alloc);
    for word in words.split(' ') {
        list.push(Arg::new(String::from_str(alloc, word)?))?;
    }
    Ok(read_all_words(alloc, &list).ok())
}

// Adds a document: its install name, and behind each `>` a library that it re-exports. It is of another version behind
// a `!`, and for another machine behind a `?`.
fn add_document(text: &mut Vec<u8>, row: &str) -> Result<(), OutOfMemory> {
    let (version, target, row) = match row.as_bytes() {
        [b'!', ..] => ("3", "arm64-macos", row.trim_start_matches('!')),
        [b'?', ..] => ("4", "x86_64-macos", row.trim_start_matches('?')),
        _ => ("4", "arm64-macos", row),
    };
    text.extend_from_slice(b"--- !tapi-tbd\ntbd-version: ")?;
    text.extend_from_slice(version.as_bytes())?;
    text.extend_from_slice(b"\ntargets: [ ")?;
    text.extend_from_slice(target.as_bytes())?;
    text.extend_from_slice(b" ]\ninstall-name: ")?;
    for (at, name) in row.split('>').enumerate() {
        if at == 1 {
            text.extend_from_slice(b"reexported-libraries:\n")?;
        }
        if at > 0 {
            text.extend_from_slice(b"- targets: [ arm64-macos ]\n  libraries: [ ")?;
        }
        text.extend_from_slice(name.as_bytes())?;
        text.extend_from_slice(if at > 0 { b" ]\n" } else { b"\n" })?;
    }
    Ok(())
}

// The text of a file: its documents with a comma between them, or what stands behind a `~`.
fn text_of(alloc: Global, documents: &str) -> Result<Bytes, OutOfMemory> {
    let mut text = Vec::new(alloc);
    if documents.starts_with('~') {
        text.extend_from_slice(documents.as_bytes())?;
    } else {
        for document in documents.split(',') {
            add_document(&mut text, document)?;
        }
    }
    Bytes::from_vec(text)
}

// The stub library that documents are, named at a position.
fn named_at(
    alloc: Global,
    position: u16,
    documents: &str,
) -> Result<Option<NamedStub>, OutOfMemory> {
    let text = text_of(alloc, documents)?;
    if text.len() >= 0x4000_0000 {
        return Ok(None);
    }
    match read_stub_text(alloc, &text) {
        Ok(file) => Ok(Some(NamedStub {
            position,
            label: Bytes::new(),
            file,
        })),
        Err(_) => Ok(None),
    }
}

fn is_new(files: &[(Bytes, Bytes)], path: &Bytes) -> bool
    ensures { IsTrue result → All (λ file. file.0 ≢ path.now) files.now }
{
    files.iter().all(|file| file.0 != *path)
}

// Whether the paths of files are distinct.
fn are_distinct(files: &[(Bytes, Bytes)]) -> bool
    ensures { IsTrue result → AllPairs (λ a b. a.0 ≢ b.0) files.now }
{
    for (i, file) in files.iter().enumerate() {
        if !is_new(&files[..i], &file.0) {
            return false;
        }
    }
    true
}

// The libraries of a command line, where it can be read and names them.
fn closed(
    alloc: Global,
    words: &str,
    named: StubFileList,
    files: FileList,
    failing: u64,
) -> Result<Option<Libraries>, BindFault> {
    let Some(command) = command_of(alloc, words)? else {
        return Ok(None);
    };
    if !are_distinct(files.as_slice())
        || !lib_bind::are_named(command.inputs.len(), named.as_slice())
    {
        return Ok(None);
    }
    let mut calls = Items::new(alloc);
    calls.push(failing)?;
    let mut files = MemFiles::new(files, calls);
    let mut cache = FileCache::new(alloc);
    Ok(Some(closure(alloc, &command, &mut files, &mut cache, named)?))
}

#[test]
fn libraries_lead_to_what_they_reexport(rt: HostRuntime) -> Result<(), Fail> {
    let alloc = rt.alloc();
    let wrong = rows::wrong_row(alloc)?;
    let row = wrong.unwrap_or("");
    assert!(rt; wrong.is_none(), "{row}");
    assert!(rt; counts::most_libraries(alloc));
    assert!(rt; counts::a_library_more(alloc));
    assert!(rt; counts::sdk_hello(alloc));
    Ok(())
}
